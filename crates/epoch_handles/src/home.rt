//! A collector's cells, and where pointers that are read under a guard find their values.
//!
//! Only this module reaches the store of a collector's cells. Others get free cells from it, read values, and have jobs
//! called. To write a value, or take one out, by a name, asks that the values are [`Pointable`], and a call of a handle
//! is generic over values that need not be.
ghost use Rattle.std.specs.Prelude.{◌≡◌, ◌≤◌, IfOk, IfErr, IfSome, vec_len};
ghost use Rattle.epoch_cells.specs.declared.cells.name.Name.{Name};
ghost use Rattle.epoch_cells.specs.declared.fault.Fault.TheVariants.{CellsFull};

mod jobs;

use crate::guard::Guard;
use crate::pointable::Pointable;
use epoch_cells::{
    Cells, Freed, IntoSlots, MOST_SLOT, Name, Reading, Refused, Room, Rooms, Writing,
};
pub(crate) use jobs::call_next;
use std::alloc::{AllocFailed, Global};

/// The cells of a collector. Other modules get free ones here, and none that has a value.
#[derive(Drop)]
pub struct CollectorCells<T> {
    store: Cells<T>,
}

impl<T> CollectorCells<T> {
    /// Begins with this store.
    pub(crate) fn of(store: Cells<T>) -> CollectorCells<T>
        ensures { result.store ≡ store }
    {
        CollectorCells { store }
    }

    /// Ends, and returns the store.
    pub(crate) fn into_store(self) -> Cells<T>
        ensures { result ≡ self.store }
    {
        let CollectorCells { store } = self;
        store
    }
}

impl<T: Drop> CollectorCells<T> {
    /// Returns how many cells there are.
    #[inline(always)]
    pub(crate) fn capacity(&self) -> usize
        ensures value { result ≡ vec_len self.now.store.slots }
        ensures within { result ≤ MOST_SLOT }
    {
        self.store.capacity()
    }

    /// Returns a list that keeps no free cell.
    #[inline(always)]
    pub(crate) fn no_rooms(&self) -> Rooms<'_, T> {
        self.store.no_rooms()
    }

    /// Returns a list that keeps free cells. `None`: an allocation was refused.
    #[inline(always)]
    pub(crate) fn rooms(&self) -> Option<Box<Rooms<'_, T>>> {
        self.store.rooms()
    }

    /// Notes the cells that removals gave free.
    #[inline(always)]
    pub(crate) fn note_freed(&self, freed: Freed<'_, '_, T>) {
        self.store.note_freed(freed);
    }
}

/// The cells that a name is of, and the number of their collector.
#[derive_where(Clone, Copy)]
pub struct Home<'g, T> {
    cells: &'g Cells<T>,
    /// The number with which the collector was made.
    pub id: u64,
}

impl<'g, T> Home<'g, T> {
    /// Returns the home of names in these cells, with the number of their collector.
    #[inline(always)]
    pub fn of(cells: &'g Cells<T>, id: u64) -> Home<'g, T>
        ensures cells { result.cells.now ≡ cells.now }
        ensures id { result.id ≡ id }
    {
        Home { cells, id }
    }
}

impl<'g, T: Drop> Home<'g, T> {
    /// Lends the value of this name for reading, as [`Cells::read`] does.
    #[inline(always)]
    pub fn read(self, name: Name) -> Option<Reading<'g, T>>
        ensures { IfSome result (λ reading. reading.name ≡ name) }
    {
        self.cells.read(name)
    }
}

impl<'g, T: Pointable + Drop> Home<'g, T> {
    /// Lends the value of this name for writing, as [`Cells::write`] does.
    #[inline(always)]
    pub fn write(self, name: Name) -> Option<Writing<'g, T>>
        ensures { IfSome result (λ writing. writing.name ≡ name) }
    {
        self.cells.write(name)
    }

    /// Takes the value of this name out of its cell, as [`Cells::take`] does.
    #[inline(always)]
    pub fn take(self, name: Name) -> Option<Box<T>> {
        self.cells.take(name)
    }
}

/// Returns the cells of the guard's collector, and its number.
#[inline(always)]
pub fn home_of<'g, T, W>(guard: &'g Guard<'_, T, W>) -> Home<'g, T>
    ensures cells { result.cells.now ≡ guard.now.collector.now.cells.store }
    ensures id { result.id ≡ guard.now.collector.now.id }
{
    Home {
        cells: &guard.collector.cells.store,
        id: guard.collector.id,
    }
}

/// How [`place_under`] places a value in the cells of a collector. There is one way, and no caller names it:
/// [`HasPlacing`].
pub trait Placing<T> {
    /// The value was placed in a cell under this name. If the type is a parameter, nothing but `place` shows it.
    ghost placed: { T → Name → Type 0 };

    /// Places the value, as [`Cells::place_near`] does.
    fn place(cells: &Cells<T>, position: usize, value: Box<T>) -> Result<Name, Refused<Box<T>>>
        ensures full { IfErr result (λ refused. (refused.fault ≡ CellsFull) × (refused.value ≡ value)) }
        ensures slot { IfOk result (λ name. name.slot ≤ vec_len cells.now.slots) }
        ensures placed { IfOk result (λ name. placed value.value name) };

    /// Places the value in a free slot that its owner keeps, as [`Room::place`] does.
    fn place_in(room: Room<'_, T>, value: Box<T>) -> Name
        ensures name { result ≡ room.entry.name }
        ensures placed { placed value.value result };
}

/// The one [`Placing`]: the cells place the value, and nothing else is done. No value of this type is made.
pub struct InCells;

impl<T: Drop> Placing<T> for InCells {
    ghost placed = { λ _ _. Unit {0} };

    #[inline(always)]
    fn place(cells: &Cells<T>, position: usize, value: Box<T>) -> Result<Name, Refused<Box<T>>>
        ensures full { IfErr result (λ refused. (refused.fault ≡ CellsFull) × (refused.value ≡ value)) }
        ensures slot { IfOk result (λ name. name.slot ≤ vec_len cells.now.slots) }
        ensures placed { IfOk result (λ name. Unit {0}) }
    {
        cells.place_near(position, value)
    }

    #[inline(always)]
    fn place_in(room: Room<'_, T>, value: Box<T>) -> Name
        ensures name { result ≡ room.entry.name }
        ensures placed { Unit {0} }
    {
        room.place::<IntoSlots>(value)
    }
}

/// Tells which [`Placing`] places a value. There is only this impl, so no caller names it.
pub trait HasPlacing<M> {}

impl<T> HasPlacing<InCells> for T {}

/// Places the value in a cell of the guard's collector: in a free one that its participant keeps, by one store, or else
/// in one that is found by a search near the participant. Under an unprotected guard the first position serves.
/// In a cell that was kept, a value of at most 64 bytes may be moved to memory that its participant keeps, and the
/// box's own memory is freed.
///
/// `CellsFull`: every slot was seen used, retired, or kept by a participant elsewhere than with this guard. Each keeps
/// at most 512 free cells, and at most a quarter of its share. The value is handed back.
///
/// The clauses tell by [`Placing`] that the value was placed under the name that is returned.
#[inline(always)]
pub fn place_under<T: Drop + HasPlacing<M>, W, M: Placing<T>>(
    guard: &Guard<'_, T, W>,
    value: Box<T>,
) -> Result<Name, Refused<Box<T>>>
    ensures full { IfErr result (λ refused. (refused.fault ≡ CellsFull) × (refused.value ≡ value)) }
    ensures slot { IfOk result (λ name. name.slot ≤ vec_len guard.now.collector.now.cells.store.slots) }
    // A value that is placed under a guard was put into a cell under the name that the call returns. Nothing but the
    // placing itself shows that.
    ensures placed { IfOk result (λ name. M.placed value.value name) }
{
    match guard.room_for(value) {
        Ok((room, moved)) => Ok(M::place_in(room, moved)),
        Err(value) => {
            let position = guard.position.unwrap_or(0);
            M::place(&guard.collector.cells.store, position, value)
        }
    }
}

/// Takes the value of this name out of its cell, and keeps the cell for the next value that is placed under the guard.
///
/// `None`: the value is gone, or is read or written.
#[inline(always)]
pub fn take_under<T: Pointable + Drop, W>(guard: &Guard<'_, T, W>, name: Name) -> Option<Box<T>> {
    let Some(mut rooms) = guard.rooms.take() else {
        return guard.collector.cells.store.take(name);
    };
    let held = guard.collector.cells.store.take_near(&mut rooms, name);
    guard.rooms.put(Some(rooms));
    Some(held?.into_value())
}

/// Puts the value into a box: into the memory of a value that was destroyed, if the guard has some, or else into new
/// memory.
///
/// An allocation that is refused hands the value back.
#[inline(always)]
pub fn boxed_under<T: Drop, W>(
    guard: &Guard<'_, T, W>,
    alloc: Global,
    value: T,
) -> Result<Box<T>, AllocFailed<T>>
    // A value that is put into a box under a guard is the one in the box. If memory is refused, it comes back.
    ensures value { IfOk result (λ whole. whole.value ≡ value) }
    ensures handed_back { IfErr result (λ refused. refused.value ≡ value) }
{
    let Some(mut rooms) = guard.rooms.take() else {
        return Box::new(alloc, value);
    };
    let whole = rooms.boxed(alloc, value);
    guard.rooms.put(Some(rooms));
    whole
}
