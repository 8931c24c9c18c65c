//! The cells of an array, and where a value is in it.
ghost use Rattle.std.specs.Prelude.{◌≡◌, ◌+◌, ◌*◌, ◌<◌, ◌≤◌, min, Some, length, map, IfSome, IfOk, IfErr};
ghost use Rattle.std.specs.List.{slice_get};
ghost use Rattle.epoch_lend.specs.Blocks.{places_in};
ghost use Rattle.epoch_lend.specs.declared.cells.turns.TheConstants.{GREATEST_TURN};

use crate::array::room::LentRoom;
use crate::array::slot::{LentSlot, SlotRemoval};
use crate::cells::block::Block;
use crate::cells::sight::Sight;
use crate::cells::turns::{CellAt, GREATEST_TURN, Space, TurnName};
use crate::readers::posts::{PostSet, Posts};
use crate::readers::reader::Pinned;
use std::alloc::{AllocError, Global};

/// Where a value is: its slot, and its turn there. No other value ever has both.
#[derive(Clone, Copy, PartialEq, Eq, Debug)]
pub struct SlotTurn {
    pub slot: usize,
    pub turn: u64,
}

/// A value that was placed: where it is, and its name, which shows which value was placed there.
#[derive(Drop)]
pub struct PlacedAt<T> {
    pub spot: SlotTurn,
    pub name: TurnName<T>,
}

/// A fixed number of cells, whose values are lent to readers pinned at the posts of a set. Threads share them by `&`.
/// Each value lies beside its cell's word, and all lie in one block of memory. When the cells are dropped and each is
/// empty, the block is freed. A value that is still in a cell then is not dropped, and the block is never freed.
pub struct LendingCells<J: PostSet, T> {
    slots: Vec<LentSlot<J, T>>,
    base: CellAt<T>,
    block: Block<Space<T>, Global>,
    alloc: Global,
    pub(crate) last_turn: u64,
    pub ghost bounded: { last_turn ≤ GREATEST_TURN },
    pub ghost laid: { map (λ s. s.turns.at) slots.items ≡ places_in base block.stride (length slots.items) },
    pub ghost of_block: { (block.heap ≡ alloc) × (block.at ≡ base) × (block.taken ≡ length slots.items)
        × (block.left ≡ 0) },
}

impl<J: PostSet, T> LendingCells<J, T> {
    /// Makes this many empty cells. The last turn of each is the given one, or [`GREATEST_TURN`] if that is less. It
    /// fails only if memory is refused.
    pub fn new(
        alloc: Global,
        count: usize,
        last_turn: u64,
        posts: &Posts<J>,
    ) -> Result<LendingCells<J, T>, AllocError>
        ensures count { IfOk result (λ cells. length cells.slots.items ≡ count) }
        // An array has the last turn that it was made with, or `GREATEST_TURN` if that is less. At a turn past it, no
        // value is placed, and none is found that was left.
        ensures last_turn { IfOk result (λ cells. cells.last_turn ≡ min last_turn GREATEST_TURN) }
    {
        let last_turn = last_turn.min(GREATEST_TURN);
        let mut slots = Vec::with_capacity(alloc, count)?;
        let (base, mut block) = Block::new(&alloc, count)?;
        for position in 0..count {
            let at = block.place(base, position);
            let (rest, place) = block.take(at);
            block = rest;
            slots
                .push(LentSlot::new(place, posts))
                .map_err(|_| AllocError)?;
        }
        Ok(LendingCells {
            slots,
            base,
            block,
            alloc,
            last_turn,
        })
    }

    /// Returns how many cells there are.
    pub fn len(&self) -> usize
        ensures { result ≡ length self.now.slots.items }
    {
        self.slots.len()
    }

    // Where the value of this slot lies.
    #[inline(always)]
    pub(crate) fn place_of(&self, slot: usize) -> CellAt<T>
        requires { slot < length self.now.slots.items }
        ensures { slice_get (map (λ s. s.turns.at) self.now.slots.items) slot ≡ Some result }
    {
        self.block.place(self.base, slot)
    }

    /// Lends the value that is shown at this spot, by one plain load, for as long as the reference to the pinned
    /// reader lasts, with the name that shows that it was placed there. `None`: no value was placed there yet, or it
    /// was marked. The slot must be less than [`LendingCells::len`].
    #[inline(always)]
    pub fn look<'g>(&self, spot: SlotTurn, pinned: &'g Pinned<'_, J>) -> Option<Sight<'g, T>>
        requires { spot.slot < length self.now.slots.items }
        // A look lends the value that was placed at the slot and the turn that it names, for as long as the reference
        // to the pinned reader is.
        ensures slot { IfSome result (λ sight. slice_get (map (λ s. s.turns.log) self.now.slots.items) spot.slot
            ≡ Some sight.name.log) }
        ensures turn { IfSome result (λ sight. sight.name.turn ≡ spot.turn) }
    {
        let turns = &self.slots[spot.slot].turns;
        turns.sight(self.place_of(spot.slot), spot.turn, pinned.guard())
    }

    /// Returns where the value of this slot is, and its name, by two plain loads, so that what is left in the cells can
    /// be marked and taken back. `None`: the cell is empty, or its value was marked, or went out between the loads, or
    /// there is no such slot.
    pub fn shown(&self, slot: usize) -> Option<PlacedAt<T>>
        // A value that is left in a slot is found without its turn. The spot that the call returns is of this slot, at
        // the turn found, with the value's name.
        ensures slot { IfSome result (λ placed. slice_get (map (λ s. s.turns.log) self.now.slots.items) slot
            ≡ Some placed.name.log) }
        ensures spot { IfSome result (λ placed. (placed.spot.slot ≡ slot) × (placed.spot.turn ≡ placed.name.turn)) }
        ensures within { IfSome result (λ placed. placed.spot.turn ≤ self.now.last_turn) }
    {
        match self.slots.get(slot)?.turns.shown(self.place_of(slot)) {
            Some((turn, name)) if turn <= self.last_turn => {
                let spot = SlotTurn { slot, turn };
                Some(PlacedAt { spot, name })
            }
            _ => None,
        }
    }

    /// Claims this cell if it is empty, by one exchange, and returns its room, for the caller's next value. The caller
    /// knows the cell under this position. `None`: it is in use, or past its last turn, or there is no such cell.
    pub(crate) fn fresh_room(&self, index: usize, position: usize) -> Option<LentRoom<'_, J, T>>
        // Only one caller gets the room of an empty cell, at a turn that the cell has yet to come to.
        ensures index { IfSome result (λ room. room.index ≡ index) }
        ensures position { IfSome result (λ room. room.position ≡ position) }
        ensures cells { IfSome result (λ room. room.cells.now ≡ self.now) }
        ensures has_turn { IfSome result (λ room. room.next_turn ≤ self.now.last_turn) }
    {
        let slot = self.slots.get(index)?;
        let (next_turn, claim) = slot.claim(self.place_of(index), self.last_turn)?;
        Some(LentRoom {
            cells: self,
            slot,
            index,
            position,
            next_turn,
            claim,
        })
    }

    /// Marks the value at this spot, so that no look finds it from then on. Of all callers that mark it, only one gets
    /// the removal. The caller knows the cell under this position. `None`: no value was placed there yet, or it was
    /// marked, or there is no such slot.
    pub(crate) fn mark(&self, spot: SlotTurn, position: usize) -> Option<SlotRemoval<'_, J, T>>
        // A mark takes out the value at the slot and the turn that it names. Of all marks of a value, only one gets the
        // value.
        ensures slot { IfSome result (λ removal. slice_get (map (λ s. s.turns.log) self.now.slots.items) spot.slot
            ≡ Some removal.name.log) }
        ensures turn { IfSome result (λ removal. removal.name.turn ≡ spot.turn) }
    {
        let slot = self.slots.get(spot.slot)?;
        let at = self.place_of(spot.slot);
        slot.mark(at, spot.turn, self, spot.slot, position)
    }
}

impl<J: PostSet, T> Drop for LendingCells<J, T> {
    fn drop(self) {
        let Self {
            slots,
            base,
            block,
            alloc,
            last_turn: _,
        } = self;
        let count = slots.len();
        let (mut slots, mut block) = (slots, block);
        'cells: while let Some(slot) = slots.pop() {
            let index = slots.len();
            match slot.end(block.place(base, index)) {
                Some(claim) => block = block.put_back(index, claim),
                None => return,
            }
        }
        block.free(&alloc, base, count);
    }
}

unsafe impl<J: PostSet, T: Send + Sync> Send for LendingCells<J, T> {}

unsafe impl<J: PostSet, T: Send + Sync> Sync for LendingCells<J, T> {}
