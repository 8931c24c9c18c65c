//! One participant or two of a collector of numbers, and what they do, as a table. A test that is a table of rows takes
//! a tenth of the time to prove that its calls would take in a row.
use crate::calls::{
    collector, cycles, defer, defer_counting, end, flush, pin, pin_and_defer, register, release,
    rounds, unpin,
};
use crate::counts::{count, new_counted, noting_job};
use crate::removals::{placed, refuse_place, remove, remove_later};
use crate::wants::{must, want, want_count, want_err, want_ok, want_some};
use epoch::atomic::{Atomic, Shared};
use epoch::{Capacities, Collector, Fault, Guard, Job, LocalHandle, Name, Paused};
use std::alloc::Global;
use std::process::Abort;
use std::sync::Arc;
use std::sync::atomic::AtomicU64;
use std::sync::atomic::Ordering::SeqCst;

/// What a participant does. Its guard is the one that it has out. Pointers have numbers from 0 to 3.
#[derive(Clone, Copy)]
pub(crate) enum Deed {
    Pins,
    Unpins,
    /// A repin, after which it has one guard.
    Repins,
    Pauses,
    /// A resume, after which it has one guard.
    Resumes,
    /// Repins this many times, each after the other participant's flushes with these calls after them. Then it has one
    /// guard.
    RepinsAfter(u64, &'static [u64]),
    /// A flush, which answers so.
    Flushes(Result<(), Fault>),
    /// Pins, makes a flush that answers so, and unpins, for each number: as many calls there are after it.
    Rounds(Result<(), Fault>, &'static [u64]),
    /// Pins and unpins this many times.
    Cycles(u64),
    /// Defers this many jobs, each of which adds this number to the calls, under its guard or under a pin of its own.
    Defers(u64, u64),
    PinsAndDefers(u64, u64),
    /// Pins, defers a job that adds this number, makes a flush that finds a place, and unpins.
    PutsJob(u64),
    /// Defers a job that appends this digit to the calls, and adds this number to the drops when it is dropped.
    Notes(u64, u64),
    /// A job is handed back.
    IsRefused,
    /// As many calls there were, or drops.
    Called(u64),
    Dropped(u64),
    /// Stores a pointer to a value, which comes to this slot with this turn.
    Places(usize, u32, u32),
    /// This many values find a free cell, and then none does.
    Fills(u64),
    /// This is so under a further guard.
    FillsNested(u64),
    /// The pointer's value is taken back, or isn't.
    Takes(usize, Option<u64>),
    /// The pointer's value isn't taken back while it is read.
    TakesNothing(usize),
    /// Defers the removal of the pointer's value.
    Removes(usize),
    /// Places a value with each turn below this one in the only cell, and takes it back. No other finds a cell.
    UsesOnlyCell(u32),
    /// As often as this, places a value in the only cell and removes it, and has the removal called.
    RemovesFromOnlyCell(u64),
    /// A release, which finds a place for the held bag, or doesn't.
    Leaves,
    Stays,
}

/// Who does what.
#[derive(Clone, Copy)]
pub(crate) enum Row {
    Own(Deed),
    Other(Deed),
}

/// A participant, with its guard and its paused guard.
struct Seat<'c> {
    handle: LocalHandle<'c, u64>,
    guard: Option<Guard<'c, u64>>,
    paused: Option<Paused<'c, u64>>,
}

/// What deeds are counted by, and the pointers.
#[derive(Clone, Copy)]
struct Stage<'t> {
    alloc: Global,
    calls: &'t Arc<AtomicU64>,
    drops: &'t Arc<AtomicU64>,
    pointers: &'t [Atomic<u64>],
}

impl Stage<'_> {
    fn pointer(&self, rt: &impl Abort, number: usize) -> &Atomic<u64> {
        want_some(rt, "a pointer of this number", self.pointers.get(number))
    }
}

fn new_seat<'c>(handle: LocalHandle<'c, u64>) -> Seat<'c> {
    Seat {
        handle,
        guard: None,
        paused: None,
    }
}

/// Nothing is there.
fn want_none<T>(rt: &impl Abort, what: &str, found: Option<T>) {
    match found {
        None => {}
        Some(_value) => rt.panic(what),
    }
}

/// Keeps the participant's guard. It has one guard.
fn keep<'c>(rt: &impl Abort, seat: &mut Seat<'c>, guard: Guard<'c, u64>) {
    want_none(rt, "a second guard", seat.guard.replace(guard));
    want(rt, "the guards out", seat.handle.guards_out(), 1);
}

/// The guard of the participant, which no longer keeps it.
fn kept<'c>(rt: &impl Abort, seat: &mut Seat<'c>) -> Guard<'c, u64> {
    want_some(rt, "a guard is out", seat.guard.take())
}

fn pins(rt: &impl Abort, seat: &mut Seat<'_>) {
    let guard = pin(rt, &mut seat.handle);
    keep(rt, seat, guard);
}

fn unpins(rt: &impl Abort, seat: &mut Seat<'_>) {
    let guard = kept(rt, seat);
    unpin(rt, &mut seat.handle, guard);
}

fn repins(rt: &impl Abort, seat: &mut Seat<'_>) {
    let mut guard = kept(rt, seat);
    must(
        rt,
        "the guard is one of the handle",
        seat.handle.owns(&guard),
    );
    seat.handle.repin(&mut guard);
    keep(rt, seat, guard);
}

fn pauses(rt: &impl Abort, seat: &mut Seat<'_>) {
    let guard = kept(rt, seat);
    must(
        rt,
        "the guard is one of the handle",
        seat.handle.owns(&guard),
    );
    let paused = seat.handle.pause(guard);
    want_none(rt, "a second paused guard", seat.paused.replace(paused));
}

fn resumes(rt: &impl Abort, seat: &mut Seat<'_>) {
    let paused = want_some(rt, "a guard is paused", seat.paused.take());
    must(rt, "the handle paused it", seat.handle.has_paused(&paused));
    must(rt, "a further guard can be counted", seat.handle.can_pin());
    let guard = seat.handle.resume(paused);
    keep(rt, seat, guard);
}

/// Repins once, after the other one's rounds.
fn repins_after(
    rt: &impl Abort,
    seat: &mut Seat<'_>,
    other: &mut LocalHandle<'_, u64>,
    calls: &AtomicU64,
    counted: &[u64],
) {
    let mut guard = kept(rt, seat);
    must(
        rt,
        "the guard is one of the handle",
        seat.handle.owns(&guard),
    );
    seat.handle
        .repin_after(&mut guard, || rounds(rt, other, Ok(()), calls, counted));
    keep(rt, seat, guard);
}

/// The slot and the turn of the value.
fn named(shared: Shared<'_, u64>) -> Option<(u32, u32)> {
    let name = shared.name()?;
    Some((name.slot(), name.turn()))
}

/// Places 6 behind the pointer. It comes to this slot with this turn.
fn places(
    rt: &impl Abort,
    stage: &Stage<'_>,
    guard: &Guard<'_, u64>,
    (number, slot, turn): (usize, u32, u32),
) {
    let shared = placed(rt, stage.alloc, guard, 6);
    want(rt, "its slot", named(shared), Some((slot, turn)));
    let stored = stage.pointer(rt, number).store(shared, SeqCst, guard);
    want(rt, "a pointer is stored", stored.is_ok(), true);
}

/// The number of the value that is taken back.
fn taken(shared: Shared<'_, u64>, guard: &Guard<'_, u64>) -> Option<u64> {
    Some(*Atomic::<u64>::from(shared).into_owned(guard)?)
}

/// The pointer's value is taken back, or isn't.
fn takes(
    rt: &impl Abort,
    stage: &Stage<'_>,
    guard: &Guard<'_, u64>,
    number: usize,
    wanted: Option<u64>,
) {
    let shared = stage.pointer(rt, number).load(SeqCst, guard);
    want(rt, "what is taken back", taken(shared, guard), wanted);
}

/// The pointer's value isn't taken back while it is read.
fn takes_nothing(rt: &impl Abort, stage: &Stage<'_>, guard: &Guard<'_, u64>, number: usize) {
    let shared = stage.pointer(rt, number).load(SeqCst, guard);
    let reading = want_some(rt, "the value is there", shared.deref());
    want(rt, "what is taken back", taken(shared, guard), None);
    reading.leave();
}

/// Defers the removal of the pointer's value.
fn removes(
    rt: &impl Abort,
    stage: &Stage<'_>,
    handle: &mut LocalHandle<'_, u64>,
    guard: &Guard<'_, u64>,
    number: usize,
) {
    let shared = stage.pointer(rt, number).load(SeqCst, guard);
    remove(rt, handle, guard, shared);
}

/// This many values find a free cell, and then none does.
fn fills(rt: &impl Abort, alloc: Global, guard: &Guard<'_, u64>, cells: u64) {
    for _ in 0..cells {
        let _ = placed(rt, alloc, guard, 6);
    }
    refuse_place(rt, alloc, guard);
}

/// Under a further guard this many values find a free cell, and then none does.
fn fills_nested(rt: &impl Abort, alloc: Global, handle: &mut LocalHandle<'_, u64>, cells: u64) {
    let inner = pin(rt, handle);
    fills(rt, alloc, &inner, cells);
    unpin(rt, handle, inner);
}

/// The only cell takes a value with each of these turns, and no other one until the value is taken back.
fn uses_only_cell(rt: &impl Abort, stage: &Stage<'_>, guard: &Guard<'_, u64>, turns: u32) {
    for turn in 0..turns {
        places(rt, stage, guard, (0, 1, turn));
        refuse_place(rt, stage.alloc, guard);
        takes(rt, stage, guard, 0, Some(6));
    }
}

/// Removes 5, whose cell was free, and flushes: the one job is put, and the epoch advances. Under the next pin the
/// cell isn't free yet, and the flush calls the job.
fn removes_from_only_cell(rt: &impl Abort, alloc: Global, handle: &mut LocalHandle<'_, u64>) {
    let guard = pin(rt, handle);
    remove_later(rt, alloc, handle, &guard, 5);
    flush(rt, handle, &guard, Ok(()));
    unpin(rt, handle, guard);
    let guard = pin(rt, handle);
    refuse_place(rt, alloc, &guard);
    flush(rt, handle, &guard, Ok(()));
    unpin(rt, handle, guard);
}

/// Defers a job that notes its call by the digit, and its drop by the number.
fn notes(
    rt: &impl Abort,
    stage: &Stage<'_>,
    handle: &mut LocalHandle<'_, u64>,
    guard: &Guard<'_, u64>,
    (digit, number): (u64, u64),
) {
    let owned = new_counted(rt, stage.drops, number);
    let job = noting_job(rt, stage.alloc, stage.calls, digit, owned);
    defer(rt, handle, guard, job, true);
}

/// Pins, defers a job that adds this number, flushes and unpins.
fn puts_job(rt: &impl Abort, stage: &Stage<'_>, handle: &mut LocalHandle<'_, u64>, amount: u64) {
    let guard = pin(rt, handle);
    defer_counting(rt, stage.alloc, handle, &guard, stage.calls, (1, amount));
    flush(rt, handle, &guard, Ok(()));
    unpin(rt, handle, guard);
}

/// Does this under the guard that is out.
fn act_under(
    rt: &impl Abort,
    stage: &Stage<'_>,
    handle: &mut LocalHandle<'_, u64>,
    guard: &Guard<'_, u64>,
    deed: Deed,
) {
    let alloc = stage.alloc;
    match deed {
        Deed::Flushes(flushed) => flush(rt, handle, guard, flushed),
        Deed::Defers(jobs, amount) => {
            defer_counting(rt, alloc, handle, guard, stage.calls, (jobs, amount));
        }
        Deed::Notes(digit, number) => notes(rt, stage, handle, guard, (digit, number)),
        Deed::IsRefused => defer(rt, handle, guard, Job::Remove(Name::first()), false),
        Deed::Places(number, slot, turn) => places(rt, stage, guard, (number, slot, turn)),
        Deed::Fills(cells) => fills(rt, alloc, guard, cells),
        Deed::FillsNested(cells) => fills_nested(rt, alloc, handle, cells),
        Deed::Takes(number, wanted) => takes(rt, stage, guard, number, wanted),
        Deed::TakesNothing(number) => takes_nothing(rt, stage, guard, number),
        Deed::Removes(number) => removes(rt, stage, handle, guard, number),
        Deed::UsesOnlyCell(turns) => uses_only_cell(rt, stage, guard, turns),
        _ => rt.panic("a deed that needs no guard"),
    }
}

/// Does this with no guard, or under the one that is out.
fn act(rt: &impl Abort, stage: &Stage<'_>, seat: &mut Seat<'_>, deed: Deed) {
    match deed {
        Deed::Pins => pins(rt, seat),
        Deed::Unpins => unpins(rt, seat),
        Deed::Repins => repins(rt, seat),
        Deed::Pauses => pauses(rt, seat),
        Deed::Resumes => resumes(rt, seat),
        Deed::Rounds(flushed, counted) => {
            rounds(rt, &mut seat.handle, flushed, stage.calls, counted);
        }
        Deed::Cycles(times) => cycles(rt, &mut seat.handle, times),
        Deed::Called(calls) => want_count(rt, "calls", stage.calls, calls),
        Deed::Dropped(drops) => want_count(rt, "drops", stage.drops, drops),
        Deed::PinsAndDefers(jobs, amount) => {
            let jobs = (jobs, amount);
            pin_and_defer(rt, stage.alloc, &mut seat.handle, stage.calls, jobs);
        }
        Deed::PutsJob(amount) => puts_job(rt, stage, &mut seat.handle, amount),
        Deed::RemovesFromOnlyCell(times) => {
            for _ in 0..times {
                removes_from_only_cell(rt, stage.alloc, &mut seat.handle);
            }
        }
        deed => match &seat.guard {
            Some(guard) => act_under(rt, stage, &mut seat.handle, guard, deed),
            None => rt.panic("no guard is out"),
        },
    }
}

/// The participant's handle, whose guards are spent.
fn handle_of<'c>(rt: &impl Abort, seat: Seat<'c>) -> LocalHandle<'c, u64> {
    let Seat {
        handle,
        guard,
        paused,
    } = seat;
    want_none(rt, "each guard is spent", guard);
    want_none(rt, "no guard is paused", paused);
    handle
}

/// The participant is released, if it is still there.
fn leaves(rt: &impl Abort, seat: Option<Seat<'_>>) {
    if let Some(seat) = seat {
        release(rt, handle_of(rt, seat));
    }
}

/// The participant isn't released, since its bag finds no place.
fn stays<'c>(rt: &impl Abort, seat: Option<Seat<'c>>) -> Option<Seat<'c>> {
    let handle = handle_of(rt, want_some(rt, "who stays", seat));
    must(rt, "each guard is spent", handle.guards_out() == 0);
    let (back, fault) = want_err(rt, "no place is free", handle.release());
    want(rt, "why it stays", fault, Fault::BagsFull);
    Some(new_seat(back))
}

/// Does this, or leaves.
fn play_row<'c>(
    rt: &impl Abort,
    stage: &Stage<'_>,
    own: Option<Seat<'c>>,
    other: &mut Option<Seat<'c>>,
    deed: Deed,
) -> Option<Seat<'c>> {
    match (deed, own) {
        (Deed::Leaves, own) => {
            leaves(rt, own);
            None
        }
        (Deed::Stays, own) => stays(rt, own),
        (Deed::RepinsAfter(times, counted), Some(seat)) => {
            let mut seat = seat;
            let beside = want_some(rt, "another participant", other.as_mut());
            for _ in 0..times {
                repins_after(rt, &mut seat, &mut beside.handle, stage.calls, counted);
            }
            Some(seat)
        }
        (deed, Some(seat)) => {
            let mut seat = seat;
            act(rt, stage, &mut seat, deed);
            Some(seat)
        }
        (_, None) => rt.panic("who acts has left"),
    }
}

/// The participants do all this. Returns those that are still there.
fn play_rows<'c>(
    rt: &impl Abort,
    stage: &Stage<'_>,
    own: Option<Seat<'c>>,
    other: Option<Seat<'c>>,
    rows: &[Row],
) -> (Option<Seat<'c>>, Option<Seat<'c>>) {
    let (mut own, mut other) = (own, other);
    for row in rows {
        match *row {
            Row::Own(deed) => own = play_row(rt, stage, own, &mut other, deed),
            Row::Other(deed) => other = play_row(rt, stage, other, &mut own, deed),
        }
    }
    (own, other)
}

/// A second participant, if there is one.
fn second<'c>(rt: &impl Abort, collector: &'c Collector<u64>, has_other: bool) -> Option<Seat<'c>> {
    if has_other {
        Some(new_seat(register(rt, collector)))
    } else {
        None
    }
}

/// All this is done by one participant, or by two, of a collector with these capacities. The end calls this many jobs,
/// and then there were this many calls and drops.
pub(crate) fn play(
    rt: &impl Abort,
    alloc: Global,
    capacities: Capacities,
    rows: &[Row],
    (jobs, called, dropped): (u64, u64, u64),
) {
    let (calls, drops) = (count(rt, alloc), count(rt, alloc));
    let pointers = [
        Atomic::null(),
        Atomic::null(),
        Atomic::null(),
        Atomic::null(),
    ];
    let stage = Stage {
        alloc,
        calls: &calls,
        drops: &drops,
        pointers: &pointers,
    };
    let collector = collector::<u64>(rt, alloc, capacities);
    let own = Some(new_seat(register(rt, &collector)));
    let other = second(rt, &collector, capacities.participants > 1);
    let (own, other) = play_rows(rt, &stage, own, other, rows);
    leaves(rt, own);
    leaves(rt, other);
    end(rt, collector, jobs);
    want_count(rt, "calls at the end", &calls, called);
    want_count(rt, "drops at the end", &drops, dropped);
}
