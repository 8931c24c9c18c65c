//! Values that are placed near positions: all slots are found, whichever position their removals were noted at, and
//! whether their owners keep some of them as rooms for a while or not.
use crate::threads::{Work, count, counts_of, ones_and_more, side_by_side};
use crate::wants::want;
use epoch_cells::{Cells, Freed, IntoSlots, Name, Removal, Rooms};
use std::alloc::Global;
use std::process::Abort;
use std::sync::Wait;
use std::sync::atomic::AtomicU64;
use std::sync::atomic::Ordering::SeqCst;
use std::thread::Threads;

const POSITIONS: usize = 8;

// More than a position that has no note left is given to look in, and no multiple of it.
const SLOTS: u32 = 200;

const THREADS: u64 = 8;

const ROUNDS: u64 = 300;

// Values that a thread places in a round. All of them leave no slot free now and then.
const IN_A_ROUND: u64 = 14;

// Places a value near the position. `None`: no slot is free.
fn place(alloc: Global, cells: &Cells<u64>, position: usize, value: u64) -> Option<Name> {
    let boxed = Box::new(alloc, value).ok()?;
    cells.place_near(position, boxed).ok()
}

// Places a value in the newest room, or near the position if there is none. `None`: no slot is free.
pub(crate) fn place_by_rooms<'a>(
    alloc: Global,
    cells: &'a Cells<u64>,
    rooms: &mut Rooms<'a, u64>,
    position: usize,
    value: u64,
) -> Option<Name> {
    let boxed = Box::new(alloc, value).ok()?;
    if let Some(room) = rooms.next() {
        return Some(room.place::<IntoSlots>(boxed));
    }
    cells.place_near(position, boxed).ok()
}

// Places values near all positions in turn until one is refused, and answers their names: of this many slots.
pub(crate) fn fill(
    rt: &impl Abort,
    alloc: Global,
    cells: &Cells<u64>,
    positions: usize,
    slots: u64,
) -> Vec<Name> {
    let tries = cells.capacity() + 1;
    let named = counts_of(rt, alloc, tries);
    let mut names = Vec::new(alloc);
    for turn in 0..tries {
        match place(alloc, cells, turn % positions.max(1), turn as u64) {
            Some(name) => {
                count(&named, name.slot() as u64);
                names.push(name).expect(rt, "memory for a name");
            }
            None => break,
        }
    }
    want(rt, "each slot once", ones_and_more(&named), (slots, 0));
    names
}

// Removes the values of these names near the position, for an owner that keeps no room. Answers how many were there.
fn remove(cells: &Cells<u64>, position: usize, names: &[Name]) -> usize {
    let mut rooms = cells.no_rooms();
    remove_beside(cells, &mut rooms, position, names)
}

// Removes the values of these names near the position, beside these rooms. Answers how many were there.
pub(crate) fn remove_beside<'a>(
    cells: &'a Cells<u64>,
    rooms: &mut Rooms<'a, u64>,
    position: usize,
    names: &[Name],
) -> usize {
    let mut freed = Freed::none(position, rooms);
    let mut removed = 0usize;
    for name in names {
        if cells.remove_near(&mut freed, *name) == Removal::Destroyed {
            removed = removed.wrapping_add(1);
        }
    }
    cells.note_freed(freed);
    removed
}

// Fills all slots of cells with so many positions near so many, removes the values near one position, and fills the
// slots again.
fn fill_twice(rt: &impl Abort, alloc: Global, positions: usize, near: usize, freed_near: usize) {
    let cells = Cells::with_positions(alloc, SLOTS, 0, positions).expect(rt, "memory for cells");
    let names = fill(rt, alloc, &cells, near, 200);
    want(rt, "all removed", remove(&cells, freed_near, &names), 200);
    let _ = fill(rt, alloc, &cells, near, 200);
}

#[test]
fn cells_are_full_only_where_each_slot_is_used(rt: HostRuntime) {
    // What one position gave free is found near all of them.
    fill_twice(&rt, rt.alloc(), POSITIONS, POSITIONS, 3);
    // There are no notes.
    fill_twice(&rt, rt.alloc(), 0, 5, 4);
}

// Every second of the names, from the last one on, so that no two are in a row.
fn every_second(rt: &impl Abort, alloc: Global, names: &[Name]) -> Vec<Name> {
    let mut some = Vec::new(alloc);
    for before in 0..100usize {
        if let Some(name) = names.get(2 * (99 - before)) {
            some.push(*name).expect(rt, "memory for a name");
        }
    }
    some
}

#[test]
fn more_spans_than_a_position_notes_are_found_too(rt: HostRuntime) {
    let alloc = rt.alloc();
    let cells = Cells::with_positions(alloc, SLOTS, 0, 1).expect(&rt, "memory");
    let names = fill(&rt, alloc, &cells, 1, 200);
    let some = every_second(&rt, alloc, &names);
    want(&rt, "100 spans", remove(&cells, 0, &some), 100);
    let _ = fill(&rt, alloc, &cells, 1, 100);
}

// What threads share: the cells, whether each thread asks for rooms, and how often values were lost.
#[derive(Drop)]
struct Rounds<'a> {
    alloc: Global,
    cells: &'a Cells<u64>,
    asks: bool,
    lost: &'a AtomicU64,
}

impl<'a> Rounds<'a> {
    // Places some values near the position or in rooms, and removes those of the round before near the next position.
    fn round(&self, rooms: &mut Rooms<'a, u64>, position: usize, before: &[Name]) -> Vec<Name> {
        let mut names = Vec::new(self.alloc);
        for value in 0..IN_A_ROUND {
            let placed = if self.asks {
                place_by_rooms(self.alloc, self.cells, rooms, position, value)
            } else {
                place(self.alloc, self.cells, position, value)
            };
            if let Some(name) = placed {
                let _ = names.push(name);
            }
        }
        self.remove(rooms, position.wrapping_add(1) % POSITIONS, before);
        names
    }

    fn rounds(&self, rooms: &mut Rooms<'a, u64>, number: u64) {
        let position = (number % POSITIONS as u64) as usize;
        let mut names = Vec::new(self.alloc);
        for _ in 0..ROUNDS {
            names = self.round(rooms, position, &names);
        }
        self.remove(rooms, position, &names);
    }

    fn remove(&self, rooms: &mut Rooms<'a, u64>, position: usize, names: &[Name]) {
        if remove_beside(self.cells, rooms, position, names) != names.len() {
            self.lost.fetch_add(1, SeqCst);
        }
    }
}

impl Work for Rounds<'_> {
    // The rounds of one thread, which leave no value and no room behind.
    fn work(&self, number: u64) {
        let list = if self.asks { self.cells.rooms() } else { None };
        match list {
            Some(list) => {
                let mut list = list;
                self.rounds(&mut list, number);
            }
            None => {
                let mut none = self.cells.no_rooms();
                self.rounds(&mut none, number);
            }
        }
    }
}

// Threads make their rounds over cells, and in the end each slot is free.
fn race<R: Abort + Threads + Wait + Sync>(rt: &R, alloc: Global, asks: bool) {
    let cells = Cells::with_positions(alloc, SLOTS, 0, POSITIONS).expect(rt, "memory for cells");
    let lost = AtomicU64::new(0);
    let rounds = Rounds {
        alloc,
        cells: &cells,
        asks,
        lost: &lost,
    };
    side_by_side(rt, THREADS, &rounds);
    want(rt, "each value was there", lost.load(SeqCst), 0);
    let _ = fill(rt, alloc, &cells, POSITIONS, 200);
}

#[test]
fn threads_that_place_and_remove_lose_no_slot_in_rooms_or_without(rt: HostRuntime) {
    race(&rt, rt.alloc(), false);
    // Each of them keeps at most 3 rooms: together an eighth of 200 slots.
    race(&rt, rt.alloc(), true);
}
