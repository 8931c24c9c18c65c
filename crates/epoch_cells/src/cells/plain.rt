//! Numbered cells that aren't shared: a plain map from names to values.
ghost use Rattle.std.specs.Prelude.{◌≡◌, ◌≢◌, ℕ, ◌+◌, ◌-◌, ◌<◌, ◌≤◌, ◌↔◌, false, None, Some, length, slice_get, IsTrue};
ghost use Rattle.std.specs.Prelude.{IsNone, IsSome, IfSome, IfOk, IfErr, OnOk, OnErr, IsOkUnless, MatchOption};
ghost use Rattle.std.specs.Prelude.{MatchResult, All, ◌⊎◌};
ghost use Rattle.epoch_cells.specs.PlainCells.{Numbered, filled, empty, has, cell_of, with_cell, IsFree, unread};
ghost use Rattle.epoch_cells.specs.PlainCells.{readable, removal_of, HasReader, Lowers, Replaces, Stands, KeepsOthers};
ghost use Rattle.epoch_cells.specs.declared.fault.Fault.TheVariants.{NoMemory, CellsFull};
ghost use Rattle.epoch_cells.specs.declared.cells.Removal.TheVariants.{Destroyed, HeldElsewhere, Gone};

use crate::cells::name::{MOST_SLOT, Name};
use crate::cells::{Removal, push};
use crate::fault::Fault;
use counted_slot::MOST_READERS;
use std::alloc::Global;
use std::marker::Model;

// The turn past the last one: a slot that reaches it is retired.
const RETIRED: u64 = 0x1_0000_0000;

/// A slot. The turn is that of its value, or of its next one where it has none, or `2^32` where it is retired.
#[derive(Drop)]
pub struct Cell<V> {
    turn: u64,
    readers: u64,
    value: Option<V>,
}

impl<V> Model for Cell<V> {
    ghost use Rattle.std.specs.Prelude.{◌≡◌, ◌≢◌, ◌<◌, ◌≤◌, None};
    ghost use Rattle.epoch_cells.specs.PlainCells.{Numbered};

    ghost Value = { Numbered V };

    ghost view = { λ a. record { turn = a.turn; readers = a.readers; value = a.value } };

    ghost invariant = { λ a. record {
      within : a.turn ≤ 4294967296;
      used : a.value ≢ None → a.turn < 4294967296;
      few : a.readers ≤ 1073741823;
    } };
}

impl<V: Drop> Cell<V> {
    // A slot that waits for the value of this turn.
    fn starting(turn: u32) -> Cell<V>
        ensures { result ≡ empty turn }
    {
        Cell {
            turn: turn as u64,
            readers: 0,
            value: None,
        }
    }

    // Whether the value of this turn is there.
    fn has(&self, turn: u32) -> bool
        ensures { result ≡ has self.now turn }
    {
        self.turn == turn as u64 && self.value.is_some()
    }

    // Puts the value in at the slot's turn, or hands it back where one is there or the slot is retired.
    fn fill(&mut self, value: V) -> Result<u32, V>
        ensures ok { OnOk result (IsFree self.old) }
        ensures filled { IfOk result (λ turn. (self.new ≡ filled turn 0 value) × (self.old.turn ≡ turn)) }
        ensures err { OnErr result (¬ (IsFree self.old) × (self.new ≡ self.old)) }
        ensures handed_back { IfErr result (λ back. back ≡ value) }
    {
        if self.value.is_some() || self.turn == RETIRED {
            return Err(value);
        }
        self.readers = 0;
        self.value = Some(value);
        Ok(self.turn as u32)
    }

    // Takes the value out, if there is one that isn't being read. The slot is for the next turn then.
    fn vacate(&mut self) -> Option<V>
        ensures value { result ≡ unread (Some self.old) }
        ensures some { IfSome result (λ _. self.new ≡ empty (self.old.turn + 1)) }
        ensures none { result ≡ None → self.new ≡ self.old }
    {
        if self.readers != 0 {
            return None;
        }
        let value = self.value.take()?;
        self.turn += 1;
        Some(value)
    }

    // Drops the value, which is there, unless it is read.
    fn remove(&mut self) -> Removal
        requires { self.old.value ≢ None }
        ensures removal { result ≡ removal_of (Some self.old) }
        ensures destroyed { result ≡ Destroyed → self.new ≡ empty (self.old.turn + 1) }
        ensures stays { result ≢ Destroyed → self.new ≡ self.old }
        ensures at_most { (self.new.value ≡ None) ⊎ (self.new.turn ≡ self.old.turn) }
    {
        match self.vacate() {
            Some(_) => Removal::Destroyed,
            None => Removal::HeldElsewhere,
        }
    }

    // Replaces the value, if there is one that isn't being read.
    fn replace(&mut self, value: V) -> Result<V, V>
        ensures ok { IfOk result (λ before. unread (Some self.old) ≡ Some before) }
        ensures written { OnOk result (self.new ≡ filled self.old.turn 0 value) }
        ensures err { OnErr result ((unread (Some self.old) ≡ None) × (self.new ≡ self.old)) }
        ensures handed_back { IfErr result (λ back. back ≡ value) }
        ensures turn { self.new.turn ≡ self.old.turn }
    {
        if self.readers != 0 {
            return Err(value);
        }
        match self.value.take() {
            Some(before) => {
                self.value = Some(value);
                Ok(before)
            }
            None => Err(value),
        }
    }

    // Replaces the value, which is there, also while it is read.
    fn amend(&mut self, value: V)
        requires { self.old.value ≢ None }
        ensures { self.new ≡ record self.old { value = Some value } }
    {
        self.value = Some(value);
    }

    // Counts one reader less, and says whether there was one.
    fn leave(&mut self) -> bool
        ensures left { IsTrue result ↔ (0 < self.old.readers) }
        ensures lowered { self.new ≡ record self.old { readers = self.old.readers - 1 } }
        ensures stays { result ≡ false → self.new ≡ self.old }
    {
        if self.readers == 0 {
            return false;
        }
        self.readers -= 1;
        true
    }
}

impl<V: Copy + Drop> Cell<V> {
    // Counts one reader more and answers the value, if there is one and the count has room.
    fn enter(&mut self) -> Option<V>
        ensures value { result ≡ readable (Some self.old) }
        ensures some { IfSome result (λ value. self.new ≡ filled self.old.turn (self.old.readers + 1) value) }
        ensures none { result ≡ None → self.new ≡ self.old }
    {
        if self.readers == MOST_READERS {
            return None;
        }
        let value = self.value?;
        self.readers += 1;
        Some(value)
    }
}

/// A store of numbered cells that isn't shared. It does what [`crate::Cells`] does, one call at a time.
#[derive(Drop)]
pub struct PlainCells<V> {
    cells: Vec<Cell<V>>,
}

impl<V> Model for PlainCells<V> {
    ghost use Rattle.std.specs.Prelude.{List, ◌≤◌, length};
    ghost use Rattle.epoch_cells.specs.PlainCells.{Numbered};

    ghost Value = { List (Numbered V) };

    ghost view = { λ a. a.cells.items };

    ghost invariant = { λ a. length a.cells.items ≤ 16777215 };
}

impl<V: Drop> PlainCells<V> {
    /// Makes a store of `capacity` slots, each of which begins at `start_turn`.
    ///
    /// `NoMemory`: an allocation was refused, and nothing was made.
    pub fn new(alloc: Global, capacity: u32, start_turn: u32) -> Result<PlainCells<V>, Fault>
        requires { capacity ≤ MOST_SLOT }
        ensures memory { IsOkUnless result NoMemory }
        ensures count { IfOk result (λ cells. length cells ≡ capacity) }
        ensures slots { IfOk result (λ cells. All (λ cell. cell ≡ empty start_turn) cells) }
    {
        let mut cells = Vec::with_capacity(alloc, capacity as usize).map_err(|_| Fault::NoMemory)?;
        for _ in 0..capacity {
            push(&mut cells, Cell::starting(start_turn))?;
        }
        Ok(PlainCells { cells })
    }

    /// Returns how many slots there are.
    pub fn capacity(&self) -> usize
        ensures value { result ≡ length self.now }
        ensures within { result ≤ MOST_SLOT }
    {
        self.cells.len()
    }

    // The place of the name's cell, if its value is there.
    fn find(&self, name: Name) -> Option<usize>
        ensures none { IsNone result → cell_of self.now name.slot name.turn ≡ None }
        ensures some { IfSome result
            (λ index. (index ≡ name.slot - 1) × (index < length self.now) × Stands self.now name.slot name.turn) }
    {
        let index = name.slot() as usize - 1;
        if self.cells.get(index)?.has(name.turn()) {
            Some(index)
        } else {
            None
        }
    }

    /// Returns the turn of a slot: that of its value, or of the next one that it takes, which is `2^32` where it takes
    /// none any more. `None`: there is no such slot.
    pub fn turn_at(&self, slot: u32) -> Option<u64>
        requires { 0 < slot }
        ensures { MatchOption result (slice_get self.now (slot - 1) ≡ None)
            (λ turn. (cell : Numbered V) × (slice_get self.now (slot - 1) ≡ Some cell) × (cell.turn ≡ turn)) }
    {
        match self.cells.get(slot as usize - 1) {
            Some(cell) => Some(cell.turn),
            None => None,
        }
    }

    /// Returns the value of this name, without a reading.
    pub fn get(&self, name: Name) -> Option<&V>
        ensures { MatchOption result (cell_of self.now name.slot name.turn ≡ None) (λ value. (readers : ℕ)
            × (cell_of self.now name.slot name.turn ≡ Some (filled name.turn readers value.now))) }
    {
        let index = self.find(name)?;
        self.cells[index].value.as_ref()
    }

    /// Places the value in this slot at its next turn. `Err`: the slot is used or retired, and the value comes back.
    pub fn place_at(&mut self, slot: u32, value: V) -> Result<Name, V>
        requires some { 0 < slot }
        requires within { slot ≤ length self.old }
        ensures ok { OnOk result (IfSome (slice_get self.old (slot - 1)) (λ cell. IsFree cell)) }
        ensures turn { IfOk result
            (λ name. (name.slot ≡ slot) × IfSome (slice_get self.old (slot - 1)) (λ cell. cell.turn ≡ name.turn)) }
        ensures placed { IfOk result (λ name. self.new ≡ with_cell self.old slot (filled name.turn 0 value)) }
        ensures err { OnErr result
            (IfSome (slice_get self.old (slot - 1)) (λ cell. ¬ IsFree cell) × (self.new ≡ self.old)) }
        ensures handed_back { IfErr result (λ back. back ≡ value) }
        ensures others { IfOk result (λ name. KeepsOthers name.slot name.turn self.old self.new) }
    {
        let turn = match self.cells[slot as usize - 1].fill(value) {
            Ok(turn) => turn,
            Err(back) => return Err(back),
        };
        Ok(Name::at(slot, turn))
    }

    /// Replaces the value of this name, and returns the one before. `Err`: the name's cell is gone or read, and the
    /// value comes back.
    pub fn write(&mut self, name: Name, value: V) -> Result<V, V>
        ensures ok { IfOk result (λ before. unread (cell_of self.old name.slot name.turn) ≡ Some before) }
        ensures written { OnOk result (self.new ≡ with_cell self.old name.slot (filled name.turn 0 value)) }
        ensures err { OnErr result ((unread (cell_of self.old name.slot name.turn) ≡ None) × (self.new ≡ self.old)) }
        ensures handed_back { IfErr result (λ back. back ≡ value) }
        ensures others { KeepsOthers name.slot name.turn self.old self.new }
    {
        let Some(index) = self.find(name) else {
            return Err(value);
        };
        self.cells[index].replace(value)
    }

    /// Replaces the value of this name, also while it is read, and returns whether its cell is there.
    pub fn amend(&mut self, name: Name, value: V) -> bool
        ensures amended { IsTrue result
            → Replaces name.slot value (cell_of self.old name.slot name.turn) self.old self.new }
        ensures stays { result ≡ false → (cell_of self.old name.slot name.turn ≡ None) × (self.new ≡ self.old) }
        ensures others { KeepsOthers name.slot name.turn self.old self.new }
    {
        match self.find(name) {
            Some(index) => {
                self.cells[index].amend(value);
                true
            }
            None => false,
        }
    }

    /// Takes the value of this name out. From then on the slot is free for its next turn, if it has one.
    ///
    /// `None`: the name's cell is gone or read.
    pub fn take(&mut self, name: Name) -> Option<V>
        ensures value { result ≡ unread (cell_of self.old name.slot name.turn) }
        ensures some { IfSome result (λ _. self.new ≡ with_cell self.old name.slot (empty (name.turn + 1))) }
        ensures none { result ≡ None → self.new ≡ self.old }
        ensures others { KeepsOthers name.slot name.turn self.old self.new }
    {
        let index = self.find(name)?;
        self.cells[index].vacate()
    }

    /// Drops the value of this name, unless it is read or gone.
    pub fn remove(&mut self, name: Name) -> Removal
        ensures removal { result ≡ removal_of (cell_of self.old name.slot name.turn) }
        ensures destroyed { result ≡ Destroyed → self.new ≡ with_cell self.old name.slot (empty (name.turn + 1)) }
        ensures stays { result ≢ Destroyed → self.new ≡ self.old }
        ensures others { KeepsOthers name.slot name.turn self.old self.new }
    {
        match self.find(name) {
            Some(index) => self.cells[index].remove(),
            None => Removal::Gone,
        }
    }

    /// Ends one reading of this name, and returns whether there was one.
    pub fn leave(&mut self, name: Name) -> bool
        ensures left { IsTrue result ↔ HasReader (cell_of self.old name.slot name.turn) }
        ensures lowered { IsTrue result → Lowers name.slot (cell_of self.old name.slot name.turn) self.old self.new }
        ensures stays { result ≡ false → self.new ≡ self.old }
        ensures others { KeepsOthers name.slot name.turn self.old self.new }
    {
        match self.find(name) {
            Some(index) => self.cells[index].leave(),
            None => false,
        }
    }
}

impl<V: Copy + Drop> PlainCells<V> {
    /// Begins a reading of this name, and returns its value.
    ///
    /// `None`: the name's cell is gone, or has `2^30 - 1` readers.
    pub fn read(&mut self, name: Name) -> Option<V>
        ensures value { result ≡ readable (cell_of self.old name.slot name.turn) }
        ensures some { IfSome result (λ value. IfSome (cell_of self.old name.slot name.turn)
            (λ cell. self.new ≡ with_cell self.old name.slot (filled name.turn (cell.readers + 1) value))) }
        ensures none { result ≡ None → self.new ≡ self.old }
        ensures others { KeepsOthers name.slot name.turn self.old self.new }
    {
        let index = self.find(name)?;
        self.cells[index].enter()
    }
}
