//! What a writer takes back, what it leaves to others, and what is left to the end, on one thread.
use crate::probes::{Counts, Probe, counts_for, dropped_once, drops_of};
use crate::sessions::{pin, session};
use crate::stores::calls::{
    clear_once, flush, number_at, release, replace, replace_all, replace_once, writer,
};
use crate::stores::stage::{Scene, play};
use crate::wants::want;
use epoch_atomic::atomic::{Atomic, Shared};
use epoch_cells::Refused;
use epoch_lend::readers::posts::PostSet;
use epoch_lend::session::LendingGuard;
use epoch_lend_pointers::{LentCells, Store, Writer};
use std::alloc::Global;
use std::process::Abort;
use std::sync::atomic::Ordering::SeqCst;
use std::test::Fail;

/// What the pointer is, for an owner that needs no guard.
fn alone<'q, J: PostSet>(
    store: &'q Store<'_, J, Probe>,
    pointer: &Atomic<Probe>,
) -> Shared<'q, Probe> {
    pointer.load_at(SeqCst, store.home())
}

/// The number of the value that comes back, or 100 more than that of the fault.
fn taken<J: PostSet>(writer: &mut Writer<'_, '_, J, Probe>, pointer: &Atomic<Probe>) -> u64 {
    let pointer = alone(writer.store(), pointer);
    match writer.take_back(pointer) {
        Ok(probe) => probe.number as u64,
        Err(Refused { fault, value: _ }) => 100 + fault.number(),
    }
}

/// The slot of the pointer's name, or 0.
fn slot_at<J: PostSet>(store: &Store<'_, J, Probe>, pointer: &Atomic<Probe>) -> u64 {
    match alone(store, pointer).name() {
        Some(name) => u64::from(name.slot()),
        None => 0,
    }
}

/// Places a value, and tries to take it back while its owner's session is pinned, while another one is, and then while
/// none is.
pub(crate) fn takes_back<J: PostSet>(
    rt: &impl Abort,
    alloc: Global,
    store: &Store<'_, J, Probe>,
    counts: &Counts,
) {
    let (mut own, mut other) = (session(rt, store.domain()), session(rt, store.domain()));
    let mut owner = writer(rt, alloc, store);
    let (old, new) = (Atomic::null(), Atomic::null());
    let fault = replace_once(rt, &mut own, &mut owner, &old, Probe::new(3, counts));
    want(rt, "a value is placed", fault, None);
    let guard = pin(rt, &mut own);
    let early = taken(&mut owner, &old);
    want(rt, "it stays under its owner's guard", early, 109);
    let seen = number_at(store, &old, &guard);
    want(rt, "which still gets it", seen, 3);
    own.unpin(guard);
    let guard = pin(rt, &mut other);
    let early = taken(&mut owner, &old);
    want(rt, "and under another session's", early, 109);
    other.unpin(guard);
    want(rt, "then it comes back", taken(&mut owner, &old), 3);
    want(rt, "once", taken(&mut owner, &old), 114);
    want(rt, "its owner drops it", drops_of(counts, 3), 1);
    let fault = replace_once(rt, &mut own, &mut owner, &new, Probe::new(4, counts));
    want(rt, "the next value is placed", fault, None);
    let slots = (slot_at(store, &new), slot_at(store, &old));
    want(rt, "in the same cell", slots.0, slots.1);
    want(rt, "and comes back, too", taken(&mut owner, &new), 4);
    release(rt, owner);
}

#[test]
fn a_value_comes_back_once_no_session_is_pinned(rt: HostRuntime) -> Result<(), Fail> {
    let counts = counts_for(rt.alloc(), 8)?;
    let left = play(&rt, rt.alloc(), 8, Scene::TakesBack, &counts);
    want(&rt, "no value is left", left, Some(0));
    want(&rt, "each is dropped once", dropped_once(&counts), 2);
    Ok(())
}

/// Whether a cell was free for the value.
fn is_placed<J: PostSet>(
    writer: &mut Writer<'_, '_, J, Probe>,
    guard: &LendingGuard<'_, J>,
    probe: Probe,
) -> bool {
    writer.place(guard, probe).is_ok()
}

/// Places values of these numbers, until one is refused. Returns how many were placed.
fn filled<J: PostSet>(
    writer: &mut Writer<'_, '_, J, Probe>,
    guard: &LendingGuard<'_, J>,
    (first, behind): (usize, usize),
    counts: &Counts,
) -> usize {
    let mut placed: usize = 0;
    for number in first..behind {
        if !is_placed(writer, guard, Probe::new(number, counts)) {
            break;
        }
        placed = placed.wrapping_add(1);
    }
    placed
}

/// Retires the values 0 to 2 while a reader is pinned, and releases the writer: they wait, and another writer drops
/// them, and has the cells.
pub(crate) fn leaves_values<J: PostSet>(
    rt: &impl Abort,
    alloc: Global,
    store: &Store<'_, J, Probe>,
    counts: &Counts,
) {
    let (mut reader, mut own) = (session(rt, store.domain()), session(rt, store.domain()));
    let mut one = writer(rt, alloc, store);
    let pointer = Atomic::null();
    let reading = pin(rt, &mut reader);
    let placed = replace_all(rt, &mut own, &mut one, &pointer, (0, 3), counts);
    want(rt, "three values are placed", placed, 3);
    let fault = clear_once(rt, &mut own, &mut one, &pointer);
    want(rt, "and retired", fault, None);
    release(rt, one);
    let mut other = writer(rt, alloc, store);
    flush(&mut other, 4);
    want(rt, "they wait for the reader", store.waiting(), 1);
    want(rt, "as they were", dropped_once(counts), 0);
    reader.unpin(reading);
    flush(&mut other, 4);
    want(rt, "another writer drops them", dropped_once(counts), 3);
    want(rt, "and nothing waits any more", store.waiting(), 0);
    let guard = pin(rt, &mut own);
    let placed = filled(&mut other, &guard, (3, 200), counts);
    want(rt, "it has each of the cells", placed, 100);
    own.unpin(guard);
    release(rt, other);
}

#[test]
fn what_a_writer_leaves_is_dropped_by_another(rt: HostRuntime) -> Result<(), Fail> {
    let counts = counts_for(rt.alloc(), 200)?;
    let left = play(&rt, rt.alloc(), 100, Scene::LeavesValues, &counts);
    want(&rt, "each cell has a value", left, Some(100));
    let dropped = dropped_once(&counts);
    want(&rt, "each is dropped once, and one refused", dropped, 104);
    Ok(())
}

/// Ends a store while a guard is out, which may have its values.
fn ends_too_early<J: PostSet>(rt: &impl Abort, alloc: Global, probes: &Store<'_, J, Probe>) {
    let domain = probes.domain();
    let mut cells = LentCells::new(alloc, 8, domain).expect(rt, "memory");
    let store = Store::new(alloc, domain, &mut cells).expect(rt, "memory");
    let mut session = session(rt, domain);
    let mut writer = writer(rt, alloc, &store);
    let pointer = Atomic::null();
    let guard = pin(rt, &mut session);
    for number in 5..7u64 {
        let fault = replace(&mut writer, &pointer, &guard, number);
        want(rt, "a number is placed", fault, None);
    }
    release(rt, writer);
    want(rt, "values are left to the guard", store.end(), 0);
    session.unpin(guard);
}

/// Has values wait and stand in the cells where the store ends.
pub(crate) fn ends_with_values<J: PostSet>(
    rt: &impl Abort,
    alloc: Global,
    store: &Store<'_, J, Probe>,
    counts: &Counts,
) {
    ends_too_early(rt, alloc, store);
    let (mut reader, mut own) = (session(rt, store.domain()), session(rt, store.domain()));
    let mut writer = writer(rt, alloc, store);
    let pointer = Atomic::null();
    let reading = pin(rt, &mut reader);
    let placed = replace_all(rt, &mut own, &mut writer, &pointer, (0, 5), counts);
    want(rt, "of five values four are retired", placed, 5);
    release(rt, writer);
    want(rt, "which wait", store.waiting(), 1);
    reader.unpin(reading);
    want(rt, "none is dropped yet", dropped_once(counts), 0);
}

#[test]
fn an_end_drops_what_waits_and_what_is_in_the_cells(rt: HostRuntime) -> Result<(), Fail> {
    let counts = counts_for(rt.alloc(), 5)?;
    let left = play(&rt, rt.alloc(), 8, Scene::EndsWithValues, &counts);
    want(&rt, "five values are left", left, Some(5));
    want(&rt, "each is dropped once", dropped_once(&counts), 5);
    Ok(())
}
