//! What is done to a world, with what it has to tell of it. None of it takes memory.

use crate::told::Told;
use crate::wants::want;
use epoch_bags::{BagStore, Called};
use epoch_world::{Call, Deferral, Reply, Step, World};
use std::fmt::Debug;
use std::process::Abort;

/// More steps than any call or end of these tests has.
const MANY: u64 = 30_000;

const UNPIN: Call = Call::Unpin(Some(0));

const PAUSE: Call = Call::Pause(Some(0));

const RESUME: Call = Call::Resume(Some(0));

const DEFER: Call = Call::Defer(Some(0));

const FLUSH: Call = Call::Flush(Some(0));

/// Something that is done, and what is told of it. Of what is gone through up to its end, `Began` and `Stepped` are
/// left out. Where no guard is named it is the first one, number 0. Tickets go from the first to before the second.
#[derive(Clone, Copy)]
pub(crate) enum Deed {
    /// One step, and its reply.
    Takes(Told),
    /// The whole call of the first participant that begins so.
    Calls(Told, &'static [Told]),
    /// The rest of the call that a participant has under way.
    Goes(u64, &'static [Told]),
    /// A pin of a participant that is not pinned.
    Pins(u64),
    /// An unpin of its only guard.
    Unpins(u64),
    /// Pins of a participant that is pinned: they give these guards.
    Guards(u64, u64, u64),
    /// A pin and its unpin, this many times.
    Cycles(u64, u64),
    /// A pin, a flush that calls nothing, and the unpin, this many times.
    Rounds(u64, u64),
    /// A pin, a flush that calls the jobs of these tickets, in this order, and answers so, and the unpin.
    Collects(u64, &'static [(u64, u64)], Told),
    /// A pause and its resume, this many times.
    Pauses(u64, u64),
    /// Deferrals, each accepted, that get these tickets.
    Defers(u64, u64, u64),
    /// A flush that calls the jobs of these tickets, in this order, and then answers so.
    Flushes(u64, &'static [(u64, u64)], Told),
    /// An end that calls the jobs of these tickets, in this order.
    Ends(u64, u64),
    /// The present epoch.
    Epoch(u64),
    /// A participant's word.
    Word(u64, Option<u64>),
    /// Whether a participant's bag has room.
    Room(u64, Option<bool>),
}

/// What is shown, and a number that says by which of many like things.
pub(crate) type At = (&'static str, u64);

/// The value is the one that is wanted.
fn want_at<T: Copy + PartialEq + Debug>(rt: &impl Abort, (shows, place): At, seen: T, wanted: T) {
    want(rt, shows, (place, seen), (place, wanted));
}

/// Takes the first step and then the other one, until a reply tells more than that something begins or goes on.
fn tell<S: BagStore<Job = Deferral>>(world: &mut World<S>, first: Step, other: Step) -> Reply {
    let mut reply = world.step(first);
    for _ in 0..MANY {
        if !matches!(reply, Reply::Began | Reply::Stepped) {
            return reply;
        }
        reply = world.step(other);
    }
    reply
}

/// Takes the first step and then the other one, which tells this, then that the jobs of these tickets are called, and
/// then that.
fn want_told<S: BagStore<Job = Deferral>>(
    rt: &impl Abort,
    at: At,
    world: &mut World<S>,
    (first, other): (Step, Step),
    (before, tickets, after): (&[Told], &[(u64, u64)], &[Told]),
) {
    let mut step = first;
    for told in before {
        want_at(rt, at, tell(world, step, other), told.reply());
        step = other;
    }
    for (from, end) in tickets {
        for ticket in *from..*end {
            let called = Reply::Called(ticket, Called::Ran);
            want_at(rt, at, tell(world, step, other), called);
            step = other;
        }
    }
    for told in after {
        want_at(rt, at, tell(world, step, other), told.reply());
        step = other;
    }
}

/// The participant makes this call, which tells this.
fn want_call<S: BagStore<Job = Deferral>>(
    rt: &impl Abort,
    at: At,
    world: &mut World<S>,
    (participant, call): (u64, Call),
    told: &[Told],
) {
    let steps = (Step::Begin(participant, call), Step::Go(participant));
    want_told(rt, at, world, steps, (told, &[], &[]));
}

/// A flush of the participant calls the jobs of these tickets, in this order, and then tells this.
fn want_flush<S: BagStore<Job = Deferral>>(
    rt: &impl Abort,
    at: At,
    world: &mut World<S>,
    (participant, tickets, answer): (u64, &[(u64, u64)], Told),
) {
    let steps = (Step::Begin(participant, FLUSH), Step::Go(participant));
    want_told(rt, at, world, steps, (&[], tickets, &[answer]));
}

/// A pin of the participant, which is not pinned.
fn want_pin<S: BagStore<Job = Deferral>>(
    rt: &impl Abort,
    at: At,
    world: &mut World<S>,
    participant: u64,
) {
    let told = [Told::Pinned(participant), Told::Guard(0)];
    want_call(rt, at, world, (participant, Call::Pin), &told);
}

/// An unpin of the participant's only guard.
fn want_unpin<S: BagStore<Job = Deferral>>(
    rt: &impl Abort,
    at: At,
    world: &mut World<S>,
    participant: u64,
) {
    let told = [Told::Unpinned(participant), Told::Done];
    want_call(rt, at, world, (participant, UNPIN), &told);
}

/// A pin of the participant, such a flush, and the unpin.
pub(crate) fn want_round<S: BagStore<Job = Deferral>>(
    rt: &impl Abort,
    at: At,
    world: &mut World<S>,
    (participant, tickets, answer): (u64, &[(u64, u64)], Told),
) {
    want_pin(rt, at, world, participant);
    want_flush(rt, at, world, (participant, tickets, answer));
    want_unpin(rt, at, world, participant);
}

/// A pause of the participant's only guard, and the resume.
fn want_pause<S: BagStore<Job = Deferral>>(
    rt: &impl Abort,
    at: At,
    world: &mut World<S>,
    participant: u64,
) {
    let (unpinned, pinned) = (Told::Unpinned(participant), Told::Pinned(participant));
    want_call(rt, at, world, (participant, PAUSE), &[unpinned, Told::Done]);
    want_call(rt, at, world, (participant, RESUME), &[pinned, Told::Done]);
}

/// Something that is done this many times.
fn want_times<S: BagStore<Job = Deferral>>(
    rt: &impl Abort,
    at: At,
    world: &mut World<S>,
    deed: Deed,
) {
    match deed {
        Deed::Guards(participant, first, end) => {
            for guard in first..end {
                want_call(
                    rt,
                    at,
                    world,
                    (participant, Call::Pin),
                    &[Told::Guard(guard)],
                );
            }
        }
        Deed::Defers(participant, first, end) => {
            for ticket in first..end {
                let told = [Told::Deferred(ticket), Told::Done];
                want_call(rt, at, world, (participant, DEFER), &told);
            }
        }
        Deed::Cycles(participant, times) => {
            for _ in 0..times {
                want_pin(rt, at, world, participant);
                want_unpin(rt, at, world, participant);
            }
        }
        Deed::Rounds(participant, times) => {
            for _ in 0..times {
                want_round(rt, at, world, (participant, &[], Told::Done));
            }
        }
        Deed::Pauses(participant, times) => {
            for _ in 0..times {
                want_pause(rt, at, world, participant);
            }
        }
        _ => {}
    }
}

/// This is done to the world, and tells what it says.
pub(crate) fn want_deed<S: BagStore<Job = Deferral>>(
    rt: &impl Abort,
    at: At,
    world: &mut World<S>,
    deed: Deed,
) {
    match deed {
        Deed::Takes(told) => want_at(rt, at, world.step(told.step()), told.reply()),
        Deed::Calls(call, told) => {
            want_told(rt, at, world, (call.step(), Step::Go(0)), (told, &[], &[]));
        }
        Deed::Goes(participant, told) => {
            let go = Step::Go(participant);
            want_told(rt, at, world, (go, go), (told, &[], &[]));
        }
        Deed::Pins(participant) => want_pin(rt, at, world, participant),
        Deed::Unpins(participant) => want_unpin(rt, at, world, participant),
        Deed::Collects(participant, tickets, answer) => {
            want_round(rt, at, world, (participant, tickets, answer));
        }
        Deed::Flushes(participant, tickets, answer) => {
            want_flush(rt, at, world, (participant, tickets, answer));
        }
        Deed::Ends(first, end) => {
            let answer = Told::EndDone(end.saturating_sub(first));
            let steps = (Step::End, Step::EndGo);
            want_told(rt, at, world, steps, (&[], &[(first, end)], &[answer]));
        }
        Deed::Epoch(epoch) => want_at(rt, at, world.epoch(), epoch),
        Deed::Word(position, word) => want_at(rt, at, world.word(position), word),
        Deed::Room(position, room) => want_at(rt, at, world.has_room(position), room),
        deed => want_times(rt, at, world, deed),
    }
}

/// All this is done to the world, one after the other.
pub(crate) fn want_deeds<S: BagStore<Job = Deferral>>(
    rt: &impl Abort,
    shows: &'static str,
    world: &mut World<S>,
    deeds: &[Deed],
) {
    for (place, deed) in deeds.iter().enumerate() {
        want_deed(rt, (shows, place as u64), world, *deed);
    }
}
