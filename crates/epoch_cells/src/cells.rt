//! Numbered cells, which threads share: values that are read while others remove them.
//!
//! A value stands in its cell beside its own name, whose slot is the cell's. Every call that is given a name claims the
//! cell of the name's slot, compares the name that stands there with the one asked for, and gives the claim back if
//! they differ. A call that takes a value out, or lends it for writing, would put the value of another turn back. It
//! never has to: it won its claim at a word of the name's own turn, and a value is placed beside the turn of its slot's
//! word.
ghost use Rattle.std.specs.Prelude.{◌≡◌, ◌≤◌, ◌<◌, ◌+◌, ◌++◌, ◌∷◌, [], IfSome, IfOk, IfErr, OnOk, IsOkUnless, vec_len};
ghost use Rattle.epoch_cells.specs.declared.fault.Fault.TheVariants.{NoMemory, CellsFull};
ghost use Rattle.epoch_cells.specs.declared.cells.Removal.TheVariants.{Destroyed};
ghost use Rattle.epoch_cells.specs.SlotNumbers.{AreNumbered};

mod freed;
mod held;
mod name;
mod plain;
mod rooms;
mod word;

use crate::cells::held::{
    Line, Miss, Slot, is_free, started, try_place, try_read, try_take, try_write,
};
use crate::fault::{Fault, Refused};
use crate::{Notes, SPANS, Span};
use crossbeam_utils::CachePadded;
pub use freed::Freed;
pub use held::{HasPuts, Held, IntoSlots, Puts, Reading, Room, Writing};
pub use name::{MOST_SLOT, Name};
pub use plain::PlainCells;
pub use rooms::{MOST_ROOMS, Rooms};
use std::alloc::Global;
use std::marker::PhantomData;
use std::sync::atomic::AtomicUsize;
use std::sync::atomic::Ordering::SeqCst;

/// How often a call that places or reads a value tries its exchange on a cell. crossbeam-epoch has no such bound.
pub const CELL_TRIES: u32 = 16;

// The bound is raised by this many slots at once, since each time costs as much as many looks at slots.
const STRIDE: usize = 8;

// A position begins its looks at most this many used slots before the first free one: to note a later begin takes an
// exchange, which costs as much as some looks.
const NEAR_STRIDE: usize = 4;

// A position that has no note left looks in this many slots in a row from then on.
const FAR: usize = 64;

/// A collector's store of numbered cells. No call waits. Lists of rooms take memory, and no other call does.
///
/// `P` is how values are put into slots: [`IntoSlots`].
#[derive(Drop)]
pub struct Cells<T, P = IntoSlots> {
    slots: Vec<Line<T>>,
    // Where `place` begins to look. No slot before is free, but for those whose call is still under way, and those of
    // which the notes tell. After the times it costs looks, and no more.
    first_free: CachePadded<AtomicUsize>,
    // Where each position looks for free slots.
    notes: Notes,
    // Where a position looks that has no note left, modulo the number of slots.
    next_far: CachePadded<AtomicUsize>,
    // How many rooms a list of a position's participant keeps at most. Each has two lists, so that together they keep
    // at most a quarter of the slots.
    most_rooms: usize,
    // No value: only how values are put into slots.
    puts: PhantomData<P>,
    pub ghost few: { vec_len slots ≤ 16777215 },
    // The first slot has number 1, and each one the next number.
    pub ghost numbered: { ∥ AreNumbered slots.items ∥₁ },
}

/// What a removal met.
#[derive(Clone, Copy, Debug, PartialEq, Eq)]
pub enum Removal {
    /// The value was there, and was dropped.
    Destroyed,
    /// The value is there, and is read or written. It stays.
    HeldElsewhere,
    /// No value of that name is there.
    Gone,
}

impl<T: Drop> Cells<T> {
    /// Makes a store of `capacity` slots, from 0 to [`MOST_SLOT`], each of which begins at `start_turn`.
    ///
    /// `NoMemory`: an allocation was refused, and nothing was made.
    pub fn new(alloc: Global, capacity: u32, start_turn: u32) -> Result<Cells<T>, Fault>
        requires { capacity ≤ MOST_SLOT }
        ensures memory { IsOkUnless result NoMemory }
        ensures slots { IfOk result (λ cells. vec_len cells.slots ≡ capacity) }
    {
        Cells::with_positions(alloc, capacity, start_turn, 0)
    }

    /// Makes such a store, with room for the notes of this many positions: [`Cells::place_near`].
    ///
    /// `NoMemory`: an allocation was refused, and nothing was made.
    pub fn with_positions(
        alloc: Global,
        capacity: u32,
        start_turn: u32,
        positions: usize,
    ) -> Result<Cells<T>, Fault>
        requires { capacity ≤ MOST_SLOT }
        ensures memory { IsOkUnless result NoMemory }
        // New cells have the number of slots that was asked for. Making them fails only if memory is refused.
        ensures slots { IfOk result (λ cells. vec_len cells.slots ≡ capacity) }
    {
        let notes = Notes::new(alloc, positions).map_err(|_| Fault::NoMemory)?;
        let mut slots = Vec::with_capacity(alloc, capacity as usize).map_err(|_| Fault::NoMemory)?;
        for index in 0..capacity {
            push(&mut slots, started(index + 1, start_turn))?;
        }
        Ok(Cells {
            slots,
            first_free: CachePadded::new(AtomicUsize::new(0)),
            notes,
            next_far: CachePadded::new(AtomicUsize::new(0)),
            most_rooms: most_rooms(capacity as usize, positions),
            puts: PhantomData,
        })
    }
}

impl<T: Drop, P: Puts<T>> Cells<T, P> {
    /// Returns how many slots there are.
    pub fn capacity(&self) -> usize
        ensures value { result ≡ vec_len self.now.slots }
        ensures within { result ≤ MOST_SLOT }
    {
        self.slots.len()
    }

    /// Returns a list that keeps no room of these cells.
    #[inline(always)]
    pub fn no_rooms(&self) -> Rooms<'_, T> {
        Rooms::up_to(0, *self.slots.allocator())
    }

    /// Returns a list that keeps rooms of these cells: at most 256, and at most an eighth of one position's share.
    ///
    /// `None`: an allocation was refused.
    pub fn rooms(&self) -> Option<Box<Rooms<'_, T>>> {
        let alloc = *self.slots.allocator();
        Box::new(alloc, Rooms::up_to(self.most_rooms, alloc)).ok()
    }

    /// Places the value in the first free slot, beside its name, and returns that name: the slot and its next turn.
    ///
    /// `CellsFull`: every slot was seen used, retired, or kept as a room. The value is handed back.
    #[inline(always)]
    pub fn place(&self, value: Box<T>) -> Result<Name, Refused<Box<T>>>
        ensures full { IfErr result (λ refused. (refused.fault ≡ CellsFull) × (refused.value ≡ value)) }
        ensures slot { IfOk result (λ name. name.slot ≤ vec_len self.now.slots) }
        ensures placed { IfOk result (λ name. P.placed value.value name) }
    {
        let count = self.slots.len();
        let first = self.first_free.load(SeqCst).min(count);
        match self.place_between(first, count, value) {
            Ok(name) => {
                self.advance(first, name.slot() as usize);
                Ok(name)
            }
            Err(Refused { fault: _, value }) => self.place_between(0, first, value),
        }
    }

    /// Places the value in a free slot, as [`Cells::place`] does, and looks first at the slots that removals near this
    /// position gave free: [`Cells::remove_near`]. So threads that place at positions of their own claim different
    /// slots.
    ///
    /// Any position may be given. A position that the store has no room for has no notes.
    ///
    /// `CellsFull`: every slot was seen used, retired, or kept as a room. The value is handed back.
    #[inline(always)]
    pub fn place_near(&self, position: usize, value: Box<T>) -> Result<Name, Refused<Box<T>>>
        // A value that isn't placed is handed back with `CellsFull`.
        ensures full { IfErr result (λ refused. (refused.fault ≡ CellsFull) × (refused.value ≡ value)) }

        // A name that is given has a slot of this store, and the value was put into a slot with that very name. Nothing
        // but the putting itself shows this.
        ensures slot { IfOk result (λ name. name.slot ≤ vec_len self.now.slots) }
        ensures placed { IfOk result (λ name. P.placed value.value name) }
    {
        let Span { from, to } = self.notes.current(position);
        let slots = self.slots.as_slice();
        let to = to.min(slots.len());
        let mut kept = value;
        for index in from..to {
            // One try: a slot whose exchange is lost was claimed by another thread, and the next slot is near.
            match try_place::<T, P>(slots[index].slot(), index as u32 + 1, kept) {
                Ok(name) => {
                    if index - from >= NEAR_STRIDE {
                        let from = index + 1;
                        self.notes.look_in(position, Span { from, to });
                    }
                    return Ok(name);
                }
                Err((_, back)) => kept = back,
            }
        }
        // The answer is taken apart here: else it would stand in memory on the way that doesn't come here, too.
        match self.place_further(position, kept) {
            Ok(name) => Ok(name),
            Err(refused) => Err(refused),
        }
    }

    // Places the value in a slot of another span that is noted at this position, or else in any.
    #[inline(never)]
    fn place_further(&self, position: usize, value: Box<T>) -> Result<Name, Refused<Box<T>>>
        ensures full { IfErr result (λ refused. (refused.fault ≡ CellsFull) × (refused.value ≡ value)) }
        ensures slot { IfOk result (λ name. name.slot ≤ vec_len self.now.slots) }
        ensures placed { IfOk result (λ name. P.placed value.value name) }
    {
        let mut kept = value;
        for _ in 0..SPANS {
            let Some(Span { from, to }) = self.notes.next(position) else {
                break;
            };
            match self.place_between(from, to.min(self.slots.len()), kept) {
                Ok(name) => return Ok(name),
                Err(Refused { fault: _, value }) => kept = value,
            }
        }
        self.place_far(position, kept)
    }

    // Places the value in any free slot, and lets the position look in the slots behind it from now on.
    #[inline(never)]
    fn place_far(&self, position: usize, value: Box<T>) -> Result<Name, Refused<Box<T>>>
        ensures full { IfErr result (λ refused. (refused.fault ≡ CellsFull) × (refused.value ≡ value)) }
        ensures slot { IfOk result (λ name. name.slot ≤ vec_len self.now.slots) }
        ensures placed { IfOk result (λ name. P.placed value.value name) }
    {
        let count = self.slots.len();
        let first = self.next_far.fetch_add(FAR, SeqCst) % count.max(1);
        let first = first.min(count);
        let placed = match self.place_between(first, count, value) {
            Ok(name) => Ok(name),
            Err(Refused { fault: _, value }) => self.place_between(0, first, value),
        };
        if let Ok(name) = &placed {
            self.look_behind(position, first, name.slot() as usize);
        }
        placed
    }

    // Lets the position look in the slots from place `from` on, after a search that began at place `first`.
    fn look_behind(&self, position: usize, first: usize, from: usize) {
        let to = from.saturating_add(FAR).min(self.slots.len());
        if from.wrapping_sub(first) >= FAR {
            self.next_far.store(to, SeqCst);
        }
        self.notes.look_in(position, Span { from, to });
    }

    // Notes the slots that were given free since the last note, if there is room for a note.
    #[inline(never)]
    fn note(&self, freed: &mut Freed<'_, '_, T>) {
        let span = freed.span;
        if span.from < span.to && !self.notes.add(freed.position, span) {
            freed.unnoted = Some(span.from);
        }
    }

    /// Drops the value of this name, as [`Cells::remove`] does, and adds its slot to those that were given free: as a
    /// room, if there is memory for it, and otherwise as a slot for all callers.
    #[inline(always)]
    pub fn remove_near<'a>(&'a self, freed: &mut Freed<'_, 'a, T>, name: Name) -> Removal
        // A removal near a position that returns `Destroyed` has taken a value out that stood beside the name given.
        ensures { result ≡ Destroyed → (value : T) × P.stood value name }
    {
        match self.take_out_near(name) {
            Ok((held, room)) => {
                freed.rooms.drop_boxed(held.into_value());
                let Some(room) = room else {
                    return Removal::Destroyed;
                };
                if !freed.rooms.keep(room) {
                    self.free_near(freed, name);
                }
                Removal::Destroyed
            }
            Err(Miss::Held | Miss::Lost) => Removal::HeldElsewhere,
            Err(Miss::Gone) => Removal::Gone,
        }
    }

    // Adds the slot of this name to those that were given free for all callers.
    fn free_near(&self, freed: &mut Freed<'_, '_, T>, name: Name) {
        let place = name.slot() as usize - 1;
        if !freed.span.takes_in(place) {
            self.note(freed);
            freed.span = Span {
                from: place,
                to: place + 1,
            };
        }
    }

    /// Notes the slots that were given free near their position, so that values are placed there next. Rooms aren't
    /// noted: they are their owner's. If there isn't room for all notes, the next position that has no note left looks
    /// where one was left out.
    #[inline(never)]
    pub fn note_freed(&self, freed: Freed<'_, '_, T>) {
        let mut freed = freed;
        self.note(&mut freed);
        let Freed {
            position: _,
            span: _,
            unnoted,
            rooms: _,
        } = freed;
        // Stored once for all: each store takes the word's cache line from the other threads.
        if let Some(place) = unnoted {
            self.next_far.store(place, SeqCst);
        }
    }

    /// Takes the value of this name out of its cell, as [`Cells::take`] does, and keeps its slot as a room, if there is
    /// memory for it.
    ///
    /// `None`: the value is gone, or is read or written.
    #[inline(always)]
    pub fn take_near<'a>(&'a self, rooms: &mut Rooms<'a, T>, name: Name) -> Option<Held<T>>
        ensures named { IfSome result (λ held. held.name ≡ name) }
        ensures stood { IfSome result (λ held. P.stood held.value.value name) }
    {
        let (held, room) = self.take_out_near(name).ok()?;
        let Some(room) = room else {
            return Some(held);
        };
        if !rooms.keep(room) {
            self.lower(name.slot() as usize - 1);
        }
        Some(held)
    }

    // Places the value in the first free slot from place `from` up to `to`. The box that is handed back
    // stands clear of where the answer has a name: else the name would go through memory.
    #[inline(always)]
    #[tactic(auto, using(crate::proofs::SlotNumberLists::number_of))]
    fn place_between(&self, from: usize, to: usize, value: Box<T>) -> Result<Name, Refused<Box<T>>>
        requires { to ≤ vec_len self.now.slots }
        ensures ok { IfOk result (λ name. name.slot ≤ to) }
        ensures placed { IfOk result (λ name. P.placed value.value name) }
        ensures full { IfErr result (λ refused. (refused.fault ≡ CellsFull) × (refused.value ≡ value)) }
    {
        let mut kept = value;
        for index in from..to {
            if !is_free(self.slots[index].slot()) {
                continue;
            }
            match place_in::<T, P>(self.slots[index].slot(), index as u32 + 1, kept) {
                Ok(name) => return Ok(name),
                Err((_, back)) => kept = back,
            }
        }
        Err(Refused {
            fault: Fault::CellsFull,
            value: kept,
        })
    }

    // Says that the slots from place `from` up to `to` were seen used. If one was given free since it was
    // looked at, the bound is lowered again: here, or by the thread that gave it free.
    #[inline(always)]
    fn advance(&self, from: usize, to: usize)
        requires { to ≤ vec_len self.now.slots }
    {
        if to.saturating_sub(from) < STRIDE {
            return;
        }
        if self
            .first_free
            .compare_exchange(from, to, SeqCst, SeqCst)
            .is_err()
        {
            return;
        }
        for index in from..to {
            if is_free(self.slots[index].slot()) {
                self.lower(index);
                return;
            }
        }
    }

    // Says that the slot at this place is free.
    #[inline(always)]
    fn lower(&self, index: usize) {
        if index < self.first_free.load(SeqCst) {
            self.first_free.fetch_min(index, SeqCst);
        }
    }

    /// Lends the value of this name for reading. The reading must be given back, by [`Reading::leave`].
    ///
    /// `None`: the value is gone, or is written, or has `2^30 - 1` readers, or each try was lost to other threads.
    #[inline(always)]
    pub fn read(&self, name: Name) -> Option<Reading<'_, T>>
        // A reading or a writing is of the name given.
        ensures { IfSome result (λ reading. reading.name ≡ name) }
    {
        let slot = self.slots.get(name.slot() as usize - 1)?.slot();
        for _ in 0..CELL_TRIES {
            match try_read(slot, name) {
                Ok(reading) => return Some(reading),
                Err(Miss::Lost) => {}
                Err(Miss::Held | Miss::Gone) => return None,
            }
        }
        None
    }

    /// Lends the value of this name for writing. The writing must be given back, by [`Writing::leave`].
    ///
    /// `None`: the value is gone, or is read or written.
    pub fn write(&self, name: Name) -> Option<Writing<'_, T>>
        ensures named { IfSome result (λ writing. writing.name ≡ name) }
        ensures stood { IfSome result (λ writing. P.stood writing.held.value.value name) }
    {
        self.hold(name).ok()
    }

    /// Takes the value of this name out of its cell. From then on the slot is free for its next turn.
    ///
    /// `None`: the value is gone, or is read or written.
    #[inline(always)]
    pub fn take(&self, name: Name) -> Option<Box<T>>
        // A value that is taken out of a cell, or lent for writing, is one that stood in a slot beside the very name
        // that was asked for. Nothing but the taking out itself shows this.
        ensures { IfSome result (λ value. P.stood value.value name) }
    {
        Some(self.take_held(name)?.into_value())
    }

    /// Does what [`Cells::take`] does, and returns the value with its own name, which is the one asked for.
    #[inline(always)]
    pub fn take_held(&self, name: Name) -> Option<Held<T>>
        // A value that is taken out of a cell stood under the name that was asked for. The name in a slot always
        // belongs to that slot.
        ensures named { IfSome result (λ held. held.name ≡ name) }
        ensures stood { IfSome result (λ held. P.stood held.value.value name) }
    {
        self.take_out(name).ok()
    }

    /// Drops the value of this name, unless it is held elsewhere or gone.
    #[inline(always)]
    pub fn remove(&self, name: Name) -> Removal
        // A removal that returns `Destroyed` has taken a value out that stood beside the very name that was given.
        ensures { result ≡ Destroyed → (value : T) × P.stood value name }
    {
        match self.take_out(name) {
            Ok(_) => Removal::Destroyed,
            Err(Miss::Held | Miss::Lost) => Removal::HeldElsewhere,
            Err(Miss::Gone) => Removal::Gone,
        }
    }

    #[inline(always)]
    fn take_out(&self, name: Name) -> Result<Held<T>, Miss>
        ensures named { IfOk result (λ held. held.name ≡ name) }
        ensures stood { IfOk result (λ held. P.stood held.value.value name) }
    {
        match self.take_out_near(name) {
            Ok((held, room)) => {
                drop(room);
                self.lower(name.slot() as usize - 1);
                Ok(held)
            }
            Err(miss) => Err(miss),
        }
    }

    // Takes the value out, and leaves it to the caller what becomes of the slot.
    #[inline(always)]
    #[tactic(auto, using(crate::proofs::SlotNumberLists::number_of))]
    fn take_out_near(&self, name: Name) -> Result<(Held<T>, Option<Room<'_, T>>), Miss>
        ensures named { IfOk result (λ taken. taken.0.name ≡ name) }
        ensures stood { IfOk result (λ taken. P.stood taken.0.value.value name) }
        ensures next { IfOk result (λ taken. IfSome taken.1
            (λ room. (room.name.slot ≡ name.slot) × (room.name.turn ≡ name.turn + 1))) }
    {
        let index = name.slot() as usize - 1;
        if index >= self.slots.len() {
            return Err(Miss::Gone);
        }
        try_take::<T, P>(self.slots[index].slot(), name)
    }

    #[inline(always)]
    #[tactic(auto, using(crate::proofs::SlotNumberLists::number_of))]
    fn hold(&self, name: Name) -> Result<Writing<'_, T>, Miss>
        ensures named { IfOk result (λ writing. writing.name ≡ name) }
        ensures stood { IfOk result (λ writing. P.stood writing.held.value.value name) }
    {
        let index = name.slot() as usize - 1;
        if index >= self.slots.len() {
            return Err(Miss::Gone);
        }
        try_write::<T, P>(self.slots[index].slot(), name)
    }
}

// Tries to place the value in this slot, until it is seen used or all tries are lost.
#[inline(always)]
fn place_in<T: Drop, P: Puts<T>>(
    slot: &Slot<T>,
    number: u32,
    value: Box<T>,
) -> Result<Name, (Miss, Box<T>)>
    requires some { 0 < number }
    requires within { number ≤ 16777215 }
    requires numbered { slot.now ≡ number }
    ensures ok { IfOk result (λ name. name.slot ≡ number) }
    ensures placed { IfOk result (λ name. P.placed value.value name) }
    ensures handed_back { IfErr result (λ back. back.1 ≡ value) }
{
    let mut kept = value;
    for _ in 0..CELL_TRIES {
        match try_place::<T, P>(slot, number, kept) {
            Ok(name) => return Ok(name),
            Err((Miss::Lost, back)) => kept = back,
            Err((miss, back)) => return Err((miss, back)),
        }
    }
    Err((Miss::Lost, kept))
}

// How many rooms a list of the participant of each of these positions keeps at most.
fn most_rooms(slots: usize, positions: usize) -> usize
    ensures { result ≤ MOST_ROOMS }
{
    let most = match slots.checked_div(positions) {
        Some(part) => part / 8,
        None => 0,
    };
    most.min(MOST_ROOMS)
}

// Puts one item behind the others.
fn push<X: Drop>(items: &mut Vec<X>, item: X) -> Result<(), Fault>
    ensures memory { IsOkUnless result NoMemory }
    ensures ok { OnOk result (items.new.items ≡ items.old.items ++ item ∷ []) }
    ensures length { OnOk result (vec_len items.new ≡ vec_len items.old + 1) }
{
    match items.push(item) {
        Ok(()) => Ok(()),
        Err(_) => Err(Fault::NoMemory),
    }
}
