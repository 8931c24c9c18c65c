//! Cells on one thread.
use crate::wants::want;
use epoch_cells::{Cells, Name, Removal};
use std::alloc::Global;
use std::process::Abort;

mod near;
mod rooms;
mod threads;

/// The slot and turn that the value is placed at. `None`: no slot is free.
pub(crate) fn place(alloc: Global, cells: &Cells<u64>, value: u64) -> Option<(u32, u32)> {
    let boxed = Box::new(alloc, value).ok()?;
    let name = cells.place(boxed).ok()?;
    Some((name.slot(), name.turn()))
}

// Reads the value, and leaves it at once.
fn read(cells: &Cells<u64>, slot: u32, turn: u32) -> Option<u64> {
    let reading = cells.read(Name::new(slot, turn)?)?;
    let value = *reading.get();
    reading.leave();
    Some(value)
}

// Sets the value, and answers the one before.
fn set(cells: &Cells<u64>, slot: u32, turn: u32, value: u64) -> Option<u64> {
    let mut writing = cells.write(Name::new(slot, turn)?)?;
    let before = *writing.get();
    *writing.get_mut() = value;
    writing.leave();
    Some(before)
}

fn take(cells: &Cells<u64>, slot: u32, turn: u32) -> Option<u64> {
    Some(*cells.take(Name::new(slot, turn)?)?)
}

// The removal of this name did this.
fn want_removal(rt: &impl Abort, cells: &Cells<u64>, (slot, turn): (u32, u32), wanted: Removal) {
    for name in Name::new(slot, turn) {
        want(rt, "a removal", cells.remove(name), wanted);
    }
}

#[test]
fn values_are_placed_read_written_taken_and_removed(rt: HostRuntime) {
    let alloc = rt.alloc();
    let cells = Cells::<u64>::new(alloc, 2, 0).expect(&rt, "memory");
    fill_both(&rt, alloc, &cells);
    want(&rt, "it is read", hold_by_reading(&rt, &cells), Some(()));
    write_and_remove(&rt, alloc, &cells);
}

// Fills both slots, and the first one once more.
fn fill_both(rt: &impl Abort, alloc: Global, cells: &Cells<u64>) {
    want(rt, "a first value", place(alloc, cells, 10), Some((1, 0)));
    want(rt, "a second one", place(alloc, cells, 20), Some((2, 0)));
    want(rt, "both are used", place(alloc, cells, 30), None);
    want(rt, "the first is taken", take(cells, 1, 0), Some(10));
    let next = place(alloc, cells, 40);
    want(rt, "the next turn of the first slot", next, Some((1, 1)));
    want(rt, "the turn before", read(cells, 1, 0), None);
}

// Has the first slot's value read twice, and meanwhile no other thread gets it.
fn hold_by_reading(rt: &impl Abort, cells: &Cells<u64>) -> Option<()> {
    let first = cells.read(Name::new(1, 1)?)?;
    want(rt, "the first reading", *first.get(), 40);
    want(rt, "the second one", read(cells, 1, 1), Some(40));
    want(rt, "a write while it is read", set(cells, 1, 1, 0), None);
    want(rt, "a take while it is read", take(cells, 1, 1), None);
    want_removal(rt, cells, (1, 1), Removal::HeldElsewhere);
    first.leave();
    Some(())
}

// Writes the first slot's value and removes it, and places another one.
fn write_and_remove(rt: &impl Abort, alloc: Global, cells: &Cells<u64>) {
    want(rt, "a write", set(cells, 1, 1, 41), Some(40));
    want(rt, "what it wrote", read(cells, 1, 1), Some(41));
    want_removal(rt, cells, (1, 1), Removal::Destroyed);
    want_removal(rt, cells, (1, 1), Removal::Gone);
    want(rt, "a further value", place(alloc, cells, 50), Some((1, 2)));
    // There is no such slot.
    want_removal(rt, cells, (9, 0), Removal::Gone);
}

#[test]
fn the_last_turn_retires_a_slot(rt: HostRuntime) {
    let (alloc, last) = (rt.alloc(), 4_294_967_295);
    let cells = Cells::<u64>::new(alloc, 1, last).expect(&rt, "memory");
    want(&rt, "a value", place(alloc, &cells, 1), Some((1, last)));
    want(&rt, "it is taken", take(&cells, 1, last), Some(1));
    want(&rt, "a further one", place(alloc, &cells, 2), None);
    want(&rt, "no take", take(&cells, 1, last), None);
    want_removal(&rt, &cells, (1, last), Removal::Gone);
    want(&rt, "no reading", read(&cells, 1, last), None);
}

// What others are answered while the value of the first name is written.
fn hold_by_writing(rt: &impl Abort, cells: &Cells<u64>) -> Option<()> {
    let writing = cells.write(Name::first())?;
    want(rt, "a reading", read(cells, 1, 0), None);
    want(rt, "another write", set(cells, 1, 0, 6), None);
    want(rt, "a take", take(cells, 1, 0), None);
    want_removal(rt, cells, (1, 0), Removal::HeldElsewhere);
    writing.leave();
    Some(())
}

#[test]
fn a_written_value_is_held(rt: HostRuntime) {
    let cells = Cells::<u64>::new(rt.alloc(), 1, 0).expect(&rt, "memory");
    want(&rt, "a value", place(rt.alloc(), &cells, 5), Some((1, 0)));
    want(&rt, "it is written", hold_by_writing(&rt, &cells), Some(()));
    want(&rt, "a take", take(&cells, 1, 0), Some(5));
}

// Reads once more, lets `more` others do so and leave, and says whether the value was held all the time.
fn stays_held(cells: &Cells<u64>, more: u32) -> bool {
    let Some(reading) = cells.read(Name::first()) else {
        return false;
    };
    let inner = more == 0 || stays_held(cells, more - 1);
    let held = cells.remove(Name::first()) == Removal::HeldElsewhere && *reading.get() == 8;
    reading.leave();
    inner && held
}

#[test]
fn a_reader_that_leaves_never_lowers_the_count_of_another(rt: HostRuntime) {
    let cells = Cells::<u64>::new(rt.alloc(), 1, 0).expect(&rt, "memory");
    want(&rt, "a value", place(rt.alloc(), &cells, 8), Some((1, 0)));
    want(&rt, "it stays held", stays_held(&cells, 99), true);
    want_removal(&rt, &cells, (1, 0), Removal::Destroyed);
}

// The slots from the first to below the end take values in this turn, one after the other: each its own number.
fn fill(rt: &impl Abort, alloc: Global, cells: &Cells<u64>, (first, end): (u32, u32), turn: u32) {
    for slot in first..end {
        let placed = place(alloc, cells, slot as u64);
        want(rt, "a free slot", placed, Some((slot, turn)));
    }
}

#[test]
fn the_first_free_slot_is_taken(rt: HostRuntime) {
    let alloc = rt.alloc();
    let none = Cells::<u64>::new(alloc, 0, 0).expect(&rt, "memory");
    want(&rt, "there is no slot", place(alloc, &none, 7), None);
    want_removal(&rt, &none, (1, 0), Removal::Gone);
    let cells = Cells::<u64>::new(alloc, 100, 0).expect(&rt, "memory");
    fill_twice(&rt, alloc, &cells);
}

// Fills all of a hundred slots, frees some, and fills these again.
fn fill_twice(rt: &impl Abort, alloc: Global, cells: &Cells<u64>) {
    fill(rt, alloc, cells, (1, 101), 0);
    want(rt, "all are used", place(alloc, cells, 0), None);
    want_removal(rt, cells, (70, 0), Removal::Destroyed);
    want_removal(rt, cells, (30, 0), Removal::Destroyed);
    want_removal(rt, cells, (31, 0), Removal::Destroyed);
    want_removal(rt, cells, (90, 0), Removal::Destroyed);
    fill(rt, alloc, cells, (30, 32), 1);
    fill(rt, alloc, cells, (70, 71), 1);
    fill(rt, alloc, cells, (90, 91), 1);
    want(rt, "the last is taken", take(cells, 100, 0), Some(100));
    want(rt, "the first is taken", take(cells, 1, 0), Some(1));
    fill(rt, alloc, cells, (1, 2), 1);
    fill(rt, alloc, cells, (100, 101), 1);
    want(rt, "all are used again", place(alloc, cells, 4), None);
}
