//! Free cells that a participant keeps for the values that it places.
ghost use Rattle.std.specs.Prelude.{◌≡◌, ◌≤◌, IfErr, IfOk, vec_len};

use crate::guard::Guard;
use crate::home::CollectorCells;
use epoch_cells::{Room, Rooms};
use std::cell::Cell;
use std::marker::Model;

/// Free cells that a participant keeps, and the memory of values that were destroyed: two lists.
///
/// A pin gives one list to its first guard, which gives it back at the end. What a collection frees meanwhile is kept
/// in the other list.
#[derive(Drop)]
pub(crate) struct OwnRooms<'c, T> {
    // The list that the next guard gets. While a guard has one, a list for what collections free.
    next: Option<Box<Rooms<'c, T>>>,
    // A list that no guard gets. One that has kept no cell yet is here, since giving it would be two stores at each
    // pin.
    spare: Option<Box<Rooms<'c, T>>>,
}

// A clause sees nothing of them.
impl<'c, T> Model for OwnRooms<'c, T> {
    ghost Value = { Unit {0} };

    ghost view = { λ _. tt };
}

impl<'c, T> OwnRooms<'c, T> {
    /// Begins with no list.
    #[inline(always)]
    pub(crate) fn none() -> OwnRooms<'c, T> {
        OwnRooms {
            next: None,
            spare: None,
        }
    }

    /// Gives a list to the first guard, if there is one for it. Others get none.
    #[inline(always)]
    pub(crate) fn give(&mut self, first: bool) -> Option<Box<Rooms<'c, T>>> {
        if first && self.next.is_some() {
            self.next.take()
        } else {
            None
        }
    }
}

impl<'c, T: Drop> OwnRooms<'c, T> {
    /// Makes a list for the next guard, if there is none. Of two lists it gets the one with more rooms. If memory for a
    /// list is refused, the participant keeps no cell.
    #[inline(never)]
    pub(crate) fn begin(&mut self, cells: &'c CollectorCells<T>) {
        if self.next.is_some() {
            if let Some(spare) = self.spare.take() {
                self.put_fuller_first(spare);
            }
            return;
        }
        self.next = match self.spare.take() {
            Some(spare) => Some(spare),
            None => cells.rooms(),
        };
    }

    /// Takes a guard's list back.
    #[inline(always)]
    pub(crate) fn take_back(&mut self, rooms: Option<Box<Rooms<'c, T>>>) {
        let Some(rooms) = rooms else {
            return;
        };
        if self.next.is_some() || !rooms.has_memory() {
            self.put_fuller_first(rooms);
            return;
        }
        self.next = Some(rooms);
    }

    // The next guard gets the list with more rooms, but none that has kept no cell.
    #[inline(never)]
    fn put_fuller_first(&mut self, rooms: Box<Rooms<'c, T>>) {
        match self.next.take() {
            Some(other) => {
                if rooms.len() < other.len() {
                    self.next = Some(other);
                    self.spare = Some(rooms);
                } else {
                    self.next = Some(rooms);
                    self.spare = Some(other);
                }
            }
            None => self.spare = Some(rooms),
        }
    }

    /// Takes out a list for what a collection frees: one that isn't full, if there is one. The first list is made if it
    /// isn't here. The second one is made only if no guard is out, since a guard may have it. `None`: memory for the
    /// first one was refused.
    pub(crate) fn receiving(
        &mut self,
        cells: &'c CollectorCells<T>,
        guards_out: bool,
    ) -> Option<Box<Rooms<'c, T>>> {
        self.begin(cells);
        let next = self.next.take()?;
        if !next.is_full() {
            return Some(next);
        }
        let other = match self.spare.take() {
            Some(spare) => Some(spare),
            None if guards_out => None,
            None => cells.rooms(),
        };
        let Some(other) = other else {
            return Some(next);
        };
        self.next = Some(next);
        Some(other)
    }
}

/// The list that a guard has, if it has one: free cells for the values that are placed under it.
#[derive(Drop)]
pub(crate) struct GuardRooms<'c, T> {
    list: Cell<Option<Box<Rooms<'c, T>>>>,
}

// A clause sees nothing of it.
impl<'c, T> Model for GuardRooms<'c, T> {
    ghost Value = { Unit {0} };

    ghost view = { λ _. tt };
}

impl<'c, T> GuardRooms<'c, T> {
    /// Begins with this list.
    #[inline(always)]
    pub(crate) fn new(list: Option<Box<Rooms<'c, T>>>) -> GuardRooms<'c, T> {
        GuardRooms {
            list: Cell::new(list),
        }
    }

    /// Takes the list out.
    #[inline(always)]
    pub(crate) fn take(&self) -> Option<Box<Rooms<'c, T>>> {
        self.list.replace(None)
    }

    /// Ends with the list.
    #[inline(always)]
    pub(crate) fn into_list(self) -> Option<Box<Rooms<'c, T>>> {
        let GuardRooms { list } = self;
        list.into_inner()
    }
}

impl<'c, T: Drop> GuardRooms<'c, T> {
    /// Puts the list back.
    #[inline(always)]
    pub(crate) fn put(&self, list: Option<Box<Rooms<'c, T>>>) {
        self.list.set(list);
    }
}

impl<'c, T: Drop, W> Guard<'c, T, W> {
    /// Takes a room for this value out of the guard's list, and moves the value to memory that the list keeps, as
    /// [`Rooms::move_to_kept`] does. `Err`: there is no room, and the value is handed back.
    #[inline(always)]
    pub(crate) fn room_for(&self, value: Box<T>) -> Result<(Room<'c, T>, Box<T>), Box<T>>
        ensures slot { IfOk result (λ found. found.0.name.slot ≤ vec_len self.now.collector.now.cells.store.slots) }
        ensures value { IfOk result (λ found. found.1.value ≡ value.value) }
        ensures handed_back { IfErr result (λ back. back ≡ value) }
    {
        let Some(mut rooms) = self.rooms.take() else {
            return Err(value);
        };
        let Some(room) = rooms.next() else {
            self.rooms.put(Some(rooms));
            return Err(value);
        };
        // For the prover, which doesn't know whose rooms these are.
        if room.name().slot() as usize > self.collector.cells.capacity() {
            self.rooms.put(Some(rooms));
            return Err(value);
        }
        let moved = rooms.move_to_kept(value);
        self.rooms.put(Some(rooms));
        Ok((room, moved))
    }
}
