//! A participant that stalls in the middle of a call, after each step of it, while another one goes on.

use crate::memory::world_at_last;
use crate::told::Told;
use crate::told::Told::{Defers, Pins, Releases, Repins, Unpins};
use crate::wants::want;
use epoch_bags::Places;
use epoch_world::{
    Call, Deferral, Entry, Reply, Shape, Step, World, calls_none_twice, is_lawful, keeps_grace,
};
use std::alloc::Global;
use std::process::Abort;

/// Two participants, and bags and collections of the usual sizes.
const SHAPE: Shape = Shape {
    participants: 2,
    cells: 0,
    roots: 0,
    fields: 0,
    bags: 4,
    align: 1,
    start_epoch: 0,
    start_turn: 0,
    bag_jobs: 64,
    collect_bags: 8,
};

/// More steps than any call of these tests has.
const MANY: u64 = 1_000;

const UNPIN: Call = Call::Unpin(Some(0));

const DEFER: Call = Call::Defer(Some(0));

const FLUSH: Call = Call::Flush(Some(0));

/// A world, and all steps that it took, each with its reply.
#[derive(Drop)]
struct Play {
    world: World<Places<Deferral>>,
    entries: Vec<Entry>,
}

/// A new world, whose two participants are registered.
fn new_play(rt: &impl Abort, alloc: Global) -> Play {
    let mut play = Play {
        world: world_at_last(rt, alloc, SHAPE),
        entries: Vec::new(alloc),
    };
    play.take(rt, Step::Register);
    play.take(rt, Step::Register);
    play
}

impl Play {
    /// Takes this step, and records it with its reply. Memory is there: an error's way out of a test would be proved
    /// beside all that it owns.
    fn take(&mut self, rt: &impl Abort, step: Step) -> Reply {
        let reply = self.world.step(step);
        let pushed = self.entries.push(Entry { step, reply }).is_ok();
        want(rt, "memory for an entry", pushed, true);
        reply
    }

    /// Goes on with a participant's call, this many steps at most. Returns whether it ended.
    fn go(&mut self, rt: &impl Abort, participant: u64, steps: u64) -> bool {
        for _ in 0..steps {
            let reply = self.take(rt, Step::Go(participant));
            if matches!(reply, Reply::Done(_) | Reply::Refused(_)) {
                return true;
            }
        }
        false
    }

    /// Takes this step, by which a participant begins a call, and goes on this many steps at most. Returns whether the
    /// call ended.
    fn begin(&mut self, rt: &impl Abort, (step, participant): (Step, u64), steps: u64) -> bool {
        self.take(rt, step);
        self.go(rt, participant, steps)
    }

    /// The first participant begins this call, and goes on this many steps at most. Returns whether it ended.
    fn stall(&mut self, rt: &impl Abort, call: Told, steps: u64) -> bool {
        self.begin(rt, (call.step(), 0), steps)
    }

    /// The second participant makes these calls, one after the other, this many times.
    fn call(&mut self, rt: &impl Abort, calls: &[Call], times: u64) {
        for _ in 0..times {
            for call in calls {
                self.begin(rt, (Step::Begin(1, *call), 1), MANY);
            }
        }
    }

    /// The second participant defers a job and hands it to the store, under a guard of its own.
    fn defer(&mut self, rt: &impl Abort) {
        self.call(rt, &[Call::Pin, DEFER, FLUSH, UNPIN], 1);
    }

    /// The second participant makes this many rounds.
    fn rounds(&mut self, rt: &impl Abort, times: u64) {
        self.call(rt, &[Call::Pin, FLUSH, UNPIN], times);
    }

    /// The epoch, and how many jobs were called.
    fn numbers(&self) -> (u64, usize) {
        let mut called: usize = 0;
        for entry in &self.entries {
            if matches!(entry.reply, Reply::Called(_, _)) {
                called = called.wrapping_add(1);
            }
        }
        (self.world.epoch(), called)
    }
}

/// What a row shows, the calls that the first participant has made, how many jobs it has deferred then, and the call in
/// which it stalls.
type Row = (&'static str, &'static [Told], u64, Told);

const ROWS: &[Row] = &[
    ("the first pin", &[], 0, Pins(0)),
    ("an unpin", &[Pins(0)], 1, Unpins(Some(0))),
    ("a repin", &[Pins(0)], 1, Repins(Some(0))),
    ("the 65th deferral", &[Pins(0)], 64, Defers(Some(0))),
    ("a flush", &[Pins(0)], 1, Told::Flushes(Some(0))),
    (
        "a release",
        &[Pins(0), Defers(Some(0)), Unpins(Some(0))],
        0,
        Releases,
    ),
];

/// The first participant makes the calls of this row.
fn prepare(rt: &impl Abort, play: &mut Play, (_, calls, deferrals, _): Row) {
    for call in calls {
        play.stall(rt, *call, MANY);
    }
    for _ in 0..deferrals {
        play.stall(rt, Defers(Some(0)), MANY);
    }
}

/// The checkers accept what was told. `steps` says after how many the first participant stalled.
fn want_accepted(rt: &impl Abort, shows: &str, steps: u64, entries: &[Entry]) {
    let answers = (
        is_lawful(entries),
        keeps_grace(entries),
        calls_none_twice(entries),
    );
    want(rt, shows, (steps, answers), (steps, (true, true, true)));
}

/// The first participant stalls after this many steps of the call. It goes to its end after all that the second one
/// does. Returns whether it had ended before.
fn stalls_once(rt: &impl Abort, alloc: Global, row: Row, steps: u64) -> bool {
    let (shows, _, _, call) = row;
    let mut play = new_play(rt, alloc);
    prepare(rt, &mut play, row);
    let ended = play.stall(rt, call, steps);
    play.defer(rt);
    play.rounds(rt, 10);
    let ends = ended || play.go(rt, 0, MANY);
    want(rt, "the call has an end", (steps, ends), (steps, true));
    want_accepted(rt, shows, steps, &play.entries);
    ended
}

/// The first participant stalls before and after each step of the call, each time in a world of its own.
fn stalls(rt: &impl Abort, alloc: Global, row: Row) {
    for steps in 0..MANY {
        if stalls_once(rt, alloc, row, steps) {
            return;
        }
    }
    panic!(rt; "it has no end");
}

#[test]
fn whoever_stalls_in_a_call_keeps_the_laws(rt: HostRuntime) {
    for row in ROWS {
        stalls(&rt, rt.alloc(), *row);
    }
}

/// So far the world has this epoch, and this many jobs were called.
fn want_numbers(rt: &impl Abort, what: &str, play: &Play, wanted: (u64, usize)) {
    want(rt, what, play.numbers(), wanted);
}

/// It has read the epoch, and not yet published it. So the second one is alone, and what it publishes then is old.
#[test]
fn before_its_store_a_pin_holds_nobody_back(rt: HostRuntime) {
    let mut play = new_play(&rt, rt.alloc());
    play.stall(&rt, Pins(0), 1);
    play.defer(&rt);
    play.rounds(&rt, 1);
    want_numbers(&rt, "after a round", &play, (2, 0));
    play.rounds(&rt, 1);
    want_numbers(&rt, "after another one", &play, (3, 1));
    play.rounds(&rt, 8);
    let told = play.take(&rt, Step::Go(0));
    want(&rt, "its next step", told, Reply::Pinned(0));
    let word = play.world.word(0);
    want(&rt, "its word, pinned in epoch 0", word, Some(1));
}

/// It has published epoch 0: the second one's pin advances the epoch once, and nothing does so again.
#[test]
fn after_its_store_a_pin_keeps_the_epoch(rt: HostRuntime) {
    let mut play = new_play(&rt, rt.alloc());
    play.stall(&rt, Pins(0), 2);
    play.defer(&rt);
    want_numbers(&rt, "after the deferral", &play, (1, 0));
    play.rounds(&rt, 10);
    want_numbers(&rt, "after ten rounds", &play, (1, 0));
}
