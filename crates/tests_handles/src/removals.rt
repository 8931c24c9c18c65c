//! Removals that are deferred: each value is dropped once, and its cell is free again.
use crate::calls::{collector, end, flush, pin, register, release, rounds, unpin};
use crate::counts::{Counted, count, new_counted};
use crate::seats::Deed::{Cycles, RemovesFromOnlyCell};
use crate::seats::Row::Own;
use crate::seats::{Row, play};
use crate::wants::{want, want_count, want_err, want_ok, want_true};
use epoch::atomic::{Array, Atomic, DeferDestroy, Owned, Pointable, Shared};
use epoch::{Capacities, Fault, Guard, LocalHandle, Refused};
use std::alloc::Global;
use std::process::Abort;
use std::sync::Arc;
use std::sync::atomic::AtomicU64;

/// Places the value in a cell, which is free.
pub(crate) fn placed<'g, T: Pointable + Drop>(
    rt: &impl Abort,
    alloc: Global,
    guard: &'g Guard<'_, T>,
    value: T,
) -> Shared<'g, T> {
    let owned = want_ok(rt, "memory for a value", Owned::new(alloc, value));
    want_ok(rt, "a cell is free", owned.into_shared(guard))
}

/// Defers the removal of this pointer's value, which is kept.
pub(crate) fn remove<T: Pointable + Drop>(
    rt: &impl Abort,
    handle: &mut LocalHandle<'_, T>,
    guard: &Guard<'_, T>,
    shared: Shared<'_, T>,
) {
    let kept = handle.defer_destroy(guard, shared).is_ok();
    want_true(rt, "the removal is kept", kept);
}

/// Places the value in a cell, and defers its removal.
pub(crate) fn remove_later<T: Pointable + Drop>(
    rt: &impl Abort,
    alloc: Global,
    handle: &mut LocalHandle<'_, T>,
    guard: &Guard<'_, T>,
    value: T,
) {
    remove(rt, handle, guard, placed(rt, alloc, guard, value));
}

/// As `remove_later`, for this many values that count their drops.
fn remove_counted_later(
    rt: &impl Abort,
    alloc: Global,
    handle: &mut LocalHandle<'_, Counted>,
    guard: &Guard<'_, Counted>,
    drops: &Arc<AtomicU64>,
    values: u64,
) {
    for _ in 0..values {
        remove_later(rt, alloc, handle, guard, new_counted(rt, drops, 1));
    }
}

#[test]
fn each_value_is_dropped_once_by_its_removal_or_by_the_end(rt: HostRuntime) {
    let alloc = rt.alloc();
    let drops = count(&rt, alloc);
    let collector = collector::<Counted>(&rt, alloc, Capacities::usual(1, 701, 16));
    let mut handle = register(&rt, &collector);
    let guard = pin(&rt, &mut handle);
    // Dropping an Atomic leaves its value in its cell.
    let left = placed(&rt, alloc, &guard, new_counted(&rt, &drops, 1));
    let _ = Atomic::from(left);
    remove_counted_later(&rt, alloc, &mut handle, &guard, &drops, 700);
    flush(&rt, &mut handle, &guard, Ok(()));
    unpin(&rt, &mut handle, guard);
    // Ten bags of 64 and one of 60 are sealed with 1. The rounds advance to 2, to 3 and to 4, and a collection takes
    // at most 8 bags.
    rounds(&rt, &mut handle, Ok(()), &drops, &[0, 512, 700]);
    release(&rt, handle);
    end(&rt, collector, 0);
    want_count(&rt, "drops at the end", &drops, 701);
}

/// This many values that count their drops.
fn counted_values(
    rt: &impl Abort,
    alloc: Global,
    drops: &Arc<AtomicU64>,
    values: u64,
) -> Vec<Counted> {
    let mut made: Vec<Counted> = Vec::new(alloc);
    for _ in 0..values {
        let pushed = made.push(new_counted(rt, drops, 1)).is_ok();
        want_true(rt, "memory for a value", pushed);
    }
    made
}

/// An array of ten elements, of which the first seven are given.
fn array_of_seven(rt: &impl Abort, alloc: Global, drops: &Arc<AtomicU64>) -> Array<Counted> {
    let made = Array::<Counted>::new(alloc, 10);
    let mut array = want_ok(rt, "memory for an array", made);
    for index in 0..7 {
        let set = array.set(index, new_counted(rt, drops, 1)).is_ok();
        want_true(rt, "the array is long enough", set);
    }
    array
}

/// Removes the value under a pin, and makes two rounds. The drops stand at these numbers after them.
fn remove_whole<T: Pointable + Drop>(
    rt: &impl Abort,
    alloc: Global,
    value: T,
    drops: &AtomicU64,
    counted: &[u64],
) {
    let collector = collector::<T>(rt, alloc, Capacities::usual(1, 1, 1));
    let mut handle = register(rt, &collector);
    let guard = pin(rt, &mut handle);
    remove_later(rt, alloc, &mut handle, &guard, value);
    unpin(rt, &mut handle, guard);
    // The first round seals the bag with 1 and advances to 2, the second one to 3.
    rounds(rt, &mut handle, Ok(()), drops, counted);
    release(rt, handle);
    end(rt, collector, 0);
}

#[test]
fn a_vec_and_an_array_are_removed_with_their_elements(rt: HostRuntime) {
    let alloc = rt.alloc();
    let drops = count(&rt, alloc);
    let values = counted_values(&rt, alloc, &drops, 700);
    remove_whole(&rt, alloc, values, &drops, &[0, 700]);
    let array = array_of_seven(&rt, alloc, &drops);
    remove_whole(&rt, alloc, array, &drops, &[700, 707]);
}

/// No cell is free for a value.
pub(crate) fn refuse_place(rt: &impl Abort, alloc: Global, guard: &Guard<'_, u64>) {
    let owned = want_ok(rt, "memory for a value", Owned::new(alloc, 6));
    let Refused { fault, value: _ } = want_err(rt, "no cell is free", owned.into_shared(guard));
    want(rt, "the fault", fault, Fault::CellsFull);
}

// The first pin advances the epoch, and leaves the handle published in the one before. No further one of fewer than 128
// collects.
const ONLY_CELL: &[Row] = &[Own(Cycles(1)), Own(RemovesFromOnlyCell(50))];

#[test]
fn the_only_cell_is_free_when_the_removal_of_its_value_was_called(rt: HostRuntime) {
    let capacities = Capacities::usual(1, 1, 1);
    play(&rt, rt.alloc(), capacities, ONLY_CELL, (0, 0, 0));
}
