//! Rooms: slots of removed values, which their owner keeps for its next values.
use crate::cells::near::{fill, place_by_rooms, remove_beside};
use crate::cells::place;
use crate::wants::want;
use epoch_cells::{Cells, Name, Rooms};
use std::alloc::Global;
use std::process::Abort;

const LAST: u32 = 4_294_967_295;

// So many cells that begin at this turn, of which a list keeps at most an eighth as rooms.
fn cells_of_one(rt: &impl Abort, alloc: Global, slots: u8, turn: u32) -> Cells<u64> {
    Cells::with_positions(alloc, slots as u32, turn, 1).expect(rt, "memory for cells")
}

// A list of rooms of these cells.
fn rooms_of<'a>(rt: &impl Abort, cells: &'a Cells<u64>) -> Box<Rooms<'a, u64>> {
    cells.rooms().expect(rt, "memory for a list")
}

// What the owner of a list of rooms does. A value is that of its slot, and is named by its slot and turn.
#[derive(Clone, Copy)]
enum Deed {
    // Places a value in the newest room or a free slot: this slot, with this turn.
    Places(u32, u32),
    // A search of all slots places a value in this slot, with this turn.
    Searches(u32, u32),
    // Removes the value of this name. So many rooms are there then.
    Removes(u32, u32, usize),
    // Takes the value of this name, or it is not there to be taken. So many rooms are there then.
    Takes(u32, u32, Option<u64>, usize),
    // While the value of this name is read, it isn't taken.
    TakesNothing(u32, u32),
    // An owner that keeps no room takes the value of this name.
    GivesFree(u32, u32),
    // So many slots are free, and no other one.
    Fills(u64),
}

// The name of this slot and turn.
fn named(rt: &impl Abort, slot: u32, turn: u32) -> Name {
    Name::new(slot, turn).expect(rt, "a slot has a number from 1 on")
}

fn places<'a>(
    rt: &impl Abort,
    alloc: Global,
    cells: &'a Cells<u64>,
    rooms: &mut Rooms<'a, u64>,
    (slot, turn): (u32, u32),
) {
    let placed = place_by_rooms(alloc, cells, rooms, 0, slot as u64);
    let name = placed.expect(rt, "a free slot");
    let seen = (name.slot(), name.turn());
    want(rt, "a slot and turn", seen, (slot, turn));
}

fn removes<'a>(
    rt: &impl Abort,
    cells: &'a Cells<u64>,
    rooms: &mut Rooms<'a, u64>,
    name: Name,
    kept: usize,
) {
    want(rt, "removed", remove_beside(cells, rooms, 0, &[name]), 1);
    want(rt, "rooms after a removal", rooms.len(), kept);
}

fn takes<'a>(
    rt: &impl Abort,
    cells: &'a Cells<u64>,
    rooms: &mut Rooms<'a, u64>,
    name: Name,
    (value, kept): (Option<u64>, usize),
) {
    let taken = cells.take_near(rooms, name).map(|held| *held.into_value());
    want(rt, "what is taken", taken, value);
    want(rt, "rooms after a take", rooms.len(), kept);
}

fn takes_nothing<'a>(
    rt: &impl Abort,
    cells: &'a Cells<u64>,
    rooms: &mut Rooms<'a, u64>,
    name: Name,
) {
    let kept = rooms.len();
    let reading = cells.read(name).expect(rt, "the value is there");
    takes(rt, cells, rooms, name, (None, kept));
    reading.leave();
}

fn gives_free(rt: &impl Abort, cells: &Cells<u64>, name: Name, value: u64) {
    let mut none = cells.no_rooms();
    takes(rt, cells, &mut none, name, (Some(value), 0));
}

fn act<'a>(
    rt: &impl Abort,
    alloc: Global,
    cells: &'a Cells<u64>,
    rooms: &mut Rooms<'a, u64>,
    deed: Deed,
) {
    match deed {
        Deed::Places(slot, turn) => places(rt, alloc, cells, rooms, (slot, turn)),
        Deed::Searches(slot, turn) => {
            let placed = place(alloc, cells, slot as u64);
            want(rt, "a search", placed, Some((slot, turn)));
        }
        Deed::Removes(slot, turn, kept) => {
            removes(rt, cells, rooms, named(rt, slot, turn), kept);
        }
        Deed::Takes(slot, turn, value, kept) => {
            takes(rt, cells, rooms, named(rt, slot, turn), (value, kept));
        }
        Deed::TakesNothing(slot, turn) => {
            takes_nothing(rt, cells, rooms, named(rt, slot, turn));
        }
        Deed::GivesFree(slot, turn) => {
            gives_free(rt, cells, named(rt, slot, turn), slot as u64);
        }
        Deed::Fills(slots) => {
            let _ = fill(rt, alloc, cells, 1, slots);
        }
    }
}

// All this is done in so many cells that begin at this turn, of which a list keeps at most an eighth as rooms.
fn play(rt: &impl Abort, alloc: Global, (slots, turn): (u8, u32), deeds: &[Deed]) {
    let cells = cells_of_one(rt, alloc, slots, turn);
    let mut rooms = rooms_of(rt, &cells);
    for deed in deeds {
        act(rt, alloc, &cells, &mut rooms, *deed);
    }
}

const USED_NEXT: &[Deed] = &[
    Deed::Places(1, 0),
    Deed::Places(2, 0),
    Deed::Places(3, 0),
    Deed::Removes(1, 0, 1),
    Deed::Removes(3, 0, 2),
    Deed::Removes(2, 0, 3),
    // A search doesn't find them.
    Deed::Searches(4, 0),
    // The newest room comes first.
    Deed::Places(2, 1),
    Deed::Removes(2, 1, 3),
    Deed::Places(2, 2),
    Deed::Places(3, 1),
    Deed::Places(1, 1),
    Deed::Places(5, 0),
];

#[test]
fn slots_of_removed_values_are_kept_and_used_next_with_the_next_turn(rt: HostRuntime) {
    play(&rt, rt.alloc(), (32, 0), USED_NEXT);
}

// An owner removes all values of full cells, and keeps this many of their slots among these rooms. Only the other slots
// are free for all then.
fn remove_all<'a>(
    rt: &impl Abort,
    alloc: Global,
    cells: &'a Cells<u64>,
    rooms: &mut Rooms<'a, u64>,
    (slots, positions): (u16, usize),
    kept: u16,
) {
    let names = fill(rt, alloc, cells, positions, slots as u64);
    let removed = remove_beside(cells, rooms, 0, &names);
    want(rt, "all are removed", removed, slots as usize);
    want(rt, "how many rooms are kept", rooms.len(), kept as usize);
    let others = slots.saturating_sub(kept) as u64;
    let _ = fill(rt, alloc, cells, positions, others);
}

// A list of so many cells with so many positions keeps this many rooms, which are free for all when it is dropped.
fn want_kept(rt: &impl Abort, alloc: Global, (slots, positions): (u16, usize), kept: u16) {
    let made = Cells::with_positions(alloc, slots as u32, 0, positions);
    let cells = made.expect(rt, "memory for cells");
    let mut rooms = rooms_of(rt, &cells);
    remove_all(rt, alloc, &cells, &mut rooms, (slots, positions), kept);
    drop(rooms);
    let _ = fill(rt, alloc, &cells, positions, kept as u64);
}

#[test]
fn an_owner_that_keeps_rooms_keeps_as_many_as_it_may(rt: HostRuntime) {
    let alloc = rt.alloc();
    // An eighth of the slots, divided by the positions and rounded down.
    want_kept(&rt, alloc, (16, 1), 2);
    want_kept(&rt, alloc, (16, 2), 1);
    want_kept(&rt, alloc, (200, 8), 3);
    want_kept(&rt, alloc, (16, 3), 0);
    want_kept(&rt, alloc, (16, 0), 0);
    // At most 256.
    want_kept(&rt, alloc, (2040, 1), 255);
    want_kept(&rt, alloc, (2400, 1), 256);
}

#[test]
fn an_owner_without_a_list_keeps_no_room(rt: HostRuntime) {
    let alloc = rt.alloc();
    let cells = cells_of_one(&rt, alloc, 16, 0);
    let mut none = cells.no_rooms();
    remove_all(&rt, alloc, &cells, &mut none, (16, 1), 0);
}

const TAKEN: &[Deed] = &[
    Deed::Places(1, 0),
    Deed::TakesNothing(1, 0),
    Deed::Takes(1, 0, Some(1), 1),
    Deed::Takes(1, 0, None, 1),
    Deed::Places(1, 1),
    // An owner that keeps none: the slot is free for all.
    Deed::GivesFree(1, 1),
    Deed::Searches(1, 2),
];

#[test]
fn the_slot_of_a_taken_value_is_kept_if_its_owner_keeps_rooms(rt: HostRuntime) {
    play(&rt, rt.alloc(), (8, 0), TAKEN);
}

const LAST_TURNS: &[Deed] = &[
    Deed::Places(1, LAST - 1),
    Deed::Removes(1, LAST - 1, 1),
    Deed::Places(1, LAST),
    Deed::Removes(1, LAST, 0),
    Deed::Places(2, LAST - 1),
    Deed::Takes(2, LAST - 1, Some(2), 1),
    Deed::Places(2, LAST),
    Deed::Takes(2, LAST, Some(2), 0),
    Deed::Fills(6),
];

#[test]
fn the_slot_of_a_last_turn_is_retired_and_gives_no_room(rt: HostRuntime) {
    play(&rt, rt.alloc(), (8, LAST - 1), LAST_TURNS);
}
