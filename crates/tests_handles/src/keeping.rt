//! Cells that a participant keeps for the next values that it places.
use crate::calls::{collector, flush, pin, register, release, unpin};
use crate::counts::{Counted, count, new_counted};
use crate::removals::remove;
use crate::seats::Deed::{
    Cycles, Fills, FillsNested, Flushes, Leaves, Pauses, Pins, Places, Removes, Resumes, Rounds,
    Takes, TakesNothing, Unpins, UsesOnlyCell,
};
use crate::seats::Row::{Other, Own};
use crate::seats::{Row, play};
use crate::wants::{want_count, want_ok};
use epoch::atomic::{Atomic, Owned};
use epoch::{Capacities, LocalHandle};
use std::alloc::Global;
use std::process::Abort;
use std::sync::atomic::Ordering::SeqCst;

/// Four rounds, which find a place for the bag.
const COLLECTS: Row = Own(Rounds(Ok(()), &[0, 0, 0, 0]));

// A list of the one participant takes one of the eight cells. Two pointers take the values in turn.
const DESTROYED: &[Row] = &[
    Own(Pins),
    Own(Places(0, 1, 0)),
    Own(Unpins),
    // The first value isn't destroyed yet.
    Own(Pins),
    Own(Places(1, 2, 0)),
    Own(Removes(0)),
    Own(Unpins),
    COLLECTS,
    Own(Pins),
    Own(Places(0, 1, 1)),
    Own(Removes(1)),
    Own(Unpins),
    COLLECTS,
    Own(Pins),
    Own(Places(1, 2, 1)),
    Own(Removes(0)),
    // No cell is kept now, and cells 3 to 8 had no value.
    Own(Places(2, 3, 0)),
    Own(Removes(1)),
    Own(Unpins),
];

#[test]
fn the_cell_of_a_destroyed_value_is_used_by_the_next_one_that_its_participant_places(
    rt: HostRuntime,
) {
    let capacities = Capacities::usual(1, 8, 1);
    play(&rt, rt.alloc(), capacities, DESTROYED, (2, 0, 0));
}

const TAKEN_BACK: &[Row] = &[
    Own(Pins),
    Own(Places(0, 1, 0)),
    Own(TakesNothing(0)),
    Own(Takes(0, Some(6))),
    Own(Takes(0, None)),
    Own(Places(0, 1, 1)),
    Own(Places(1, 2, 0)),
    Own(Unpins),
];

#[test]
fn a_value_that_is_not_read_is_taken_back_and_its_cell_used_next(rt: HostRuntime) {
    let capacities = Capacities::usual(1, 8, 1);
    play(&rt, rt.alloc(), capacities, TAKEN_BACK, (0, 0, 0));
}

// An eighth of one cell is none: it is never kept.
const ONLY_CELL: &[Row] = &[Own(Pins), Own(UsesOnlyCell(50)), Own(Unpins)];

#[test]
fn one_cell_is_enough_to_place_values_and_take_them_back(rt: HostRuntime) {
    let capacities = Capacities::usual(1, 1, 1);
    play(&rt, rt.alloc(), capacities, ONLY_CELL, (0, 0, 0));
}

// With two participants, a list of each takes one of sixteen cells. Of the two values that are taken back, the cell of
// the first one is kept, and that of the second one is free for all.
const KEPT: &[Row] = &[
    Own(Pins),
    Own(Places(0, 1, 0)),
    Own(Places(1, 2, 0)),
    Own(Takes(0, Some(6))),
    Own(Takes(1, Some(6))),
    Own(Unpins),
    Other(Pins),
    Other(Fills(15)),
    Own(Leaves),
    Other(Fills(1)),
    Other(Unpins),
];

#[test]
fn a_cell_that_is_kept_is_free_for_others_when_its_participant_is_released(rt: HostRuntime) {
    let capacities = Capacities::usual(2, 16, 1);
    play(&rt, rt.alloc(), capacities, KEPT, (0, 0, 0));
}

// With two participants, a list of each takes one of sixteen cells. Each removal is in a bag of its own, and four of
// the pins collect.
const BOTH_LISTS: &[Row] = &[
    Own(Pins),
    Own(Places(0, 1, 0)),
    Own(Places(1, 2, 0)),
    Own(Removes(0)),
    Own(Flushes(Ok(()))),
    Own(Removes(1)),
    Own(Flushes(Ok(()))),
    Own(Unpins),
    Own(Cycles(512)),
    Other(Pins),
    Other(Fills(14)),
    Own(Leaves),
    Other(Fills(2)),
    Other(Unpins),
];

#[test]
fn a_pin_that_has_filled_one_list_with_cells_fills_the_other(rt: HostRuntime) {
    let capacities = Capacities::usual(2, 16, 2);
    play(&rt, rt.alloc(), capacities, BOTH_LISTS, (0, 0, 0));
}

// A guard has one list, and a flush under it fills the other. A third one would keep cell 2. With two participants, a
// list of each takes one of sixteen cells.
const OTHER_LIST: &[Row] = &[
    // While the second one is pinned, both bags get the same epoch.
    Other(Pins),
    Own(Pins),
    Own(Places(0, 1, 0)),
    Own(Places(1, 2, 0)),
    Own(Removes(0)),
    Own(Flushes(Ok(()))),
    Own(Removes(1)),
    Own(Flushes(Ok(()))),
    // Of these, cell 3 is kept, and cell 4 is free for all.
    Own(Places(2, 3, 0)),
    Own(Places(3, 4, 0)),
    Own(Takes(2, Some(6))),
    Own(Takes(3, Some(6))),
    Own(Unpins),
    Other(Unpins),
    Own(Pins),
    Own(Flushes(Ok(()))),
    Own(Unpins),
    // Now both bags are expired, and cell 1 is kept.
    Own(Pins),
    Own(Flushes(Ok(()))),
    Other(Pins),
    Other(Fills(14)),
    Own(Fills(1)),
    Other(Unpins),
    Own(Unpins),
];

#[test]
fn a_flush_under_a_guard_that_has_a_list_fills_only_the_other(rt: HostRuntime) {
    let capacities = Capacities::usual(2, 16, 2);
    play(&rt, rt.alloc(), capacities, OTHER_LIST, (0, 0, 0));
}

// The outer guard has cell 1.
const NESTED_AND_PAUSED: &[Row] = &[
    Own(Pins),
    Own(Places(0, 1, 0)),
    Own(Places(1, 2, 0)),
    Own(Takes(0, Some(6))),
    Own(Takes(1, Some(6))),
    Own(FillsNested(7)),
    Own(Pauses),
    Own(Resumes),
    Own(Places(0, 1, 1)),
    Own(Fills(0)),
    Own(Unpins),
];

#[test]
fn a_nested_guard_and_one_that_was_paused_find_the_cells_that_are_left(rt: HostRuntime) {
    let capacities = Capacities::usual(1, 8, 1);
    play(&rt, rt.alloc(), capacities, NESTED_AND_PAUSED, (0, 0, 0));
}

/// How a value comes into memory before it is placed.
#[derive(Clone, Copy)]
enum Made {
    /// Into memory that was kept, if there is some.
    UnderGuard,
    /// Into memory of its own.
    Apart,
}

/// Swaps a value with this number in, removes the one before, and flushes.
fn replace_counted(
    rt: &impl Abort,
    alloc: Global,
    handle: &mut LocalHandle<'_, Counted>,
    atomic: &Atomic<Counted>,
    made: Made,
    value: Counted,
) {
    let guard = pin(rt, handle);
    let owned = match made {
        Made::UnderGuard => Owned::new_under(alloc, value, &guard),
        Made::Apart => Owned::new(alloc, value),
    };
    let owned = want_ok(rt, "memory for a value", owned);
    let new = want_ok(rt, "a cell is free", owned.into_shared(&guard));
    let swapped = atomic.swap(new, SeqCst, &guard);
    let before = want_ok(rt, "a pointer takes no cell", swapped);
    if !before.is_null() {
        remove(rt, handle, &guard, before);
    }
    flush(rt, handle, &guard, Ok(()));
    unpin(rt, handle, guard);
}

/// 200 values with the numbers from 1 to 200 replace one another, and the last one is left to the end. A value adds its
/// number to the drops.
fn replace_200(rt: &impl Abort, alloc: Global, made: Made) {
    let drops = count(rt, alloc);
    let collector = collector::<Counted>(rt, alloc, Capacities::usual(1, 64, 16));
    let mut handle = register(rt, &collector);
    let atomic = Atomic::<Counted>::null();
    for number in 1..201u64 {
        let value = new_counted(rt, &drops, number);
        replace_counted(rt, alloc, &mut handle, &atomic, made, value);
    }
    release(rt, handle);
    drop(atomic);
    let _ = collector.end();
    want_count(rt, "drops at the end", &drops, 20_100);
}

#[test]
fn values_made_in_kept_memory_or_moved_there_are_dropped_whole_and_once(rt: HostRuntime) {
    replace_200(&rt, rt.alloc(), Made::UnderGuard);
    replace_200(&rt, rt.alloc(), Made::Apart);
}
