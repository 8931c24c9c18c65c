//! Cells whose number grows: a first block of them, and further ones. Each has as many cells as all before it, up to a
//! limit.
ghost use Rattle.std.specs.Prelude.{◌≡◌, ◌≤◌, min, Some, length, map, MatchOption, IfSome, IfOk};
ghost use Rattle.std.specs.List.{slice_get};
ghost use Rattle.epoch_lend.specs.Growing.{top_bit, block_number, index_in_block, IsOfCell, IsInFurther};
ghost use Rattle.epoch_lend.specs.declared.cells.turns.TheConstants.{GREATEST_TURN};

use crate::array::cells::{LendingCells, SlotTurn};
use crate::array::room::LentRoom;
use crate::array::set_once::SetOnce;
use crate::array::slot::SlotRemoval;
use crate::cells::turns::{GREATEST_TURN, TurnName};
use crate::readers::posts::{PostSet, Posts};
use crate::readers::reader::Pinned;
use std::alloc::{AllocError, Global};
use std::marker::Model;

/// The name of a value in cells whose number grows: that of its turn in its cell and, if the cell is in a further
/// block, the one of that block. It shows which value was placed there.
#[derive(Drop)]
pub struct CellName<J: PostSet, T> {
    pub value: TurnName<T>,
    pub block: Option<TurnName<FurtherBlock<J, T>>>,
}

/// A value that was found at a slot and a turn, and its name, which shows that it was placed there.
#[derive(Drop)]
pub struct CellSight<'g, J: PostSet, T> {
    pub value: &'g T,
    pub name: CellName<J, T>,
    pub ghost same: { value.now ≡ name.value.value },
}

/// A block that was added. Clauses see the logs of its cells.
#[derive(Drop)]
pub struct FurtherBlock<J: PostSet, T> {
    cells: LendingCells<J, T>,
}

impl<J: PostSet, T> Model for FurtherBlock<J, T> {
    ghost use Rattle.std.specs.Prelude.{ℕ, List, map};

    ghost Value = { List ℕ };

    ghost view = { λ b. map (λ s. s.turns.log) b.cells.slots.items };
}

impl<J: PostSet, T> FurtherBlock<J, T> {
    #[inline(always)]
    fn cells(&self) -> &LendingCells<J, T>
        ensures { map (λ s. s.turns.log) result.now.slots.items ≡ self.now }
    {
        &self.cells
    }
}

/// What was found of a cell, and the name of the further block that the cell is in.
#[derive(Drop)]
pub struct OfBlock<J: PostSet, T, X> {
    pub found: X,
    pub block: Option<TurnName<FurtherBlock<J, T>>>,
}

/// Cells whose values are lent to readers pinned at the posts of a set. Threads share them by `&`.
///
/// There are as many as the first block has, until a caller asks for more, up to a limit. The values of a block lie
/// side by side in memory. When the cells are dropped and each of them is empty, their memory is freed. A value that is
/// still in a cell then is not dropped, and its block is never freed.
#[derive(Drop)]
pub struct GrowingCells<J: PostSet, T> {
    first: LendingCells<J, T>,
    more: SetOnce<FurtherBlock<J, T>>,
    // The first block has `1 << bits` cells, if there may be more.
    bits: u32,
    limit: usize,
    alloc: Global,
}

// The number of a slot's highest bit.
#[inline(always)]
fn highest_bit(slot: usize) -> u32
    ensures { result ≡ top_bit slot }
{
    63u32.wrapping_sub(slot.leading_zeros())
}

// Which of the further blocks has this slot.
#[inline(always)]
fn further_block(bits: u32, slot: usize) -> usize
    ensures { result ≡ block_number bits slot }
{
    highest_bit(slot).wrapping_sub(bits) as usize
}

// Which of that block's cells it is.
#[inline(always)]
fn index_there(slot: usize) -> usize
    ensures { result ≡ index_in_block slot }
{
    slot.wrapping_sub(1usize.wrapping_shl(highest_bit(slot)))
}

// How many bits the slots of the least block have that has this many cells.
fn bits_for(count: usize) -> u32 {
    if count <= 1 {
        return 0;
    }
    highest_bit(count - 1).wrapping_add(1)
}

// Whether the slot's three highest bits are 1, and the others 0: then it is seven eighths of the power of two above it.
fn is_at_seven_eighths(slot: usize) -> bool {
    slot.wrapping_shl(slot.leading_zeros()) == 0xe000_0000_0000_0000
}

impl<J: PostSet, T> GrowingCells<J, T> {
    /// Makes empty cells, of which there may be as many as the limit says. There are as many as `first` says, rounded
    /// up to a power of two. The last turn of each is the given one, or [`GREATEST_TURN`] if that is less. It fails
    /// only if memory is refused.
    pub fn new(
        alloc: Global,
        first: usize,
        limit: usize,
        last_turn: u64,
        posts: &Posts<J>,
    ) -> Result<GrowingCells<J, T>, AllocError>
        ensures limit { IfOk result (λ cells. cells.limit ≡ limit) }
        ensures last_turn { IfOk result (λ cells. cells.first.last_turn ≡ min last_turn GREATEST_TURN) }
    {
        let bits = bits_for(first);
        let count = 1usize.wrapping_shl(bits).min(limit);
        let first = LendingCells::new(alloc, count, last_turn, posts)?;
        let more = SetOnce::new(alloc, bits_for(limit).saturating_sub(bits) as usize)?;
        Ok(GrowingCells {
            first,
            more,
            bits,
            limit,
            alloc,
        })
    }

    /// Returns how many cells there may be.
    #[inline(always)]
    pub fn limit(&self) -> usize
        ensures { result ≡ self.now.limit }
    {
        self.limit
    }

    /// Returns a number that is greater than the slot of each cell that is there. Another thread may add cells at once.
    pub fn reached(&self) -> usize {
        let mut reached = self.first.len();
        let mut bits = self.bits;
        for number in 0..64 {
            bits = bits.wrapping_add(1);
            if self.more.get(number).is_some() {
                reached = 1usize.wrapping_shl(bits).min(self.limit);
            }
        }
        reached
    }

    /// Adds the block that has this slot, if it isn't there, and returns whether it is. Where the slot is the one at
    /// seven eighths of all cells, the next block is added, too, so that it is there before other callers need it. If
    /// several threads add a block at once, that of one of them stays.
    ///
    /// `false`: there is no memory, or another thread is about to add it, or the slot isn't below the limit.
    pub fn reach(&self, slot: usize, posts: &Posts<J>) -> bool {
        if is_at_seven_eighths(slot) {
            let next = highest_bit(slot).wrapping_add(1);
            let _ = self.reach_block(1usize.wrapping_shl(next), posts);
        }
        self.reach_block(slot, posts)
    }

    // Adds the block that has this slot, if it isn't there, and returns whether it is.
    fn reach_block(&self, slot: usize, posts: &Posts<J>) -> bool {
        if slot < self.first.len() {
            return true;
        }
        if slot >= self.limit {
            return false;
        }
        let number = further_block(self.bits, slot);
        if self.more.get(number).is_some() {
            return true;
        }
        let before = slot.wrapping_sub(index_there(slot));
        let count = before.min(self.limit.wrapping_sub(before));
        let Ok(cells) = LendingCells::new(self.alloc, count, self.first.last_turn, posts) else {
            return false;
        };
        self.more.set(number, FurtherBlock { cells }).is_ok() || self.more.get(number).is_some()
    }

    /// Lends the value that is shown at this spot, for as long as the reference to the pinned reader lasts, with the
    /// name that shows that it was placed there. In the first block this takes one plain load, and else two. `None`: no
    /// value was placed there yet, or it was marked, or there is no such cell.
    #[inline(always)]
    pub fn look<'g>(&self, spot: SlotTurn, pinned: &'g Pinned<'_, J>) -> Option<CellSight<'g, J, T>>
        // A look lends the value that was placed at the slot and the turn that it names, in whichever block: each look
        // at a slot finds the same cell of the same block.
        ensures slot { IfSome result (λ sight. MatchOption sight.name.block
            (IsOfCell (map (λ s. s.turns.log) self.now.first.slots.items) spot.slot sight.name.value.log)
            (λ block. IsInFurther (map (λ s. s.turns.log) self.now.first.slots.items)
            (map (λ p. p.turns.log) self.now.more.places.items) self.now.bits spot.slot block.log block.turn
            block.value sight.name.value.log)) }
        ensures turn { IfSome result (λ sight. sight.name.value.turn ≡ spot.turn) }
    {
        if spot.slot < self.first.len() {
            let sight = self.first.look(spot, pinned)?;
            let (value, block) = (sight.name, None);
            let name = CellName { value, block };
            let value = sight.value;
            return Some(CellSight { value, name });
        }
        let block = self.more.get(further_block(self.bits, spot.slot))?;
        let (slot, turn) = (index_there(spot.slot), spot.turn);
        let there = SlotTurn { slot, turn };
        let cells = block.value.cells();
        if there.slot >= cells.len() {
            return None;
        }
        let sight = cells.look(there, pinned)?;
        let (value, block) = (sight.name, Some(block.name));
        let name = CellName { value, block };
        let value = sight.value;
        Some(CellSight { value, name })
    }

    /// Returns where the value of this slot is, so that what is left in the cells can be marked and taken back. `None`:
    /// the cell is empty, or its value was marked, or went out meanwhile, or there is no such cell.
    pub fn shown(&self, slot: usize) -> Option<SlotTurn>
        ensures { IfSome result (λ spot. spot.slot ≡ slot) }
    {
        let placed = if slot < self.first.len() {
            self.first.shown(slot)?
        } else {
            let block = self.more.get(further_block(self.bits, slot))?;
            block.value.cells().shown(index_there(slot))?
        };
        let turn = placed.spot.turn;
        Some(SlotTurn { slot, turn })
    }

    /// Claims the cell of this slot if it is empty, by one exchange, and returns its room, for the caller's next value,
    /// with the name of the block that the cell is in, unless that is the first. `None`: it is in use, or past its last
    /// turn, or there is no such cell.
    pub fn fresh_room(&self, slot: usize) -> Option<OfBlock<J, T, LentRoom<'_, J, T>>>
        ensures position { IfSome result (λ at. at.found.position ≡ slot) }
        // A fresh room is of the slot's own cell, in whichever block.
        ensures of_cell { IfSome result (λ at. MatchOption at.block
            ((at.found.cells.now ≡ self.now.first) × (at.found.index ≡ slot))
            (λ block. (length self.now.first.slots.items ≤ slot) × (block.turn ≡ 0)
            × (slice_get (map (λ p. p.turns.log) self.now.more.places.items) (block_number self.now.bits slot)
            ≡ Some block.log)
            × (map (λ s. s.turns.log) at.found.cells.now.slots.items ≡ block.value)
            × (at.found.index ≡ index_in_block slot))) }
    {
        if slot < self.first.len() {
            let found = self.first.fresh_room(slot, slot)?;
            return Some(OfBlock { found, block: None });
        }
        let further = self.more.get(further_block(self.bits, slot))?;
        let found = further.value.cells().fresh_room(index_there(slot), slot)?;
        let block = Some(further.name);
        Some(OfBlock { found, block })
    }

    /// Shows that two names of one turn of one slot are of one value. It does nothing when it runs.
    pub fn agree(&self, slot: usize, one: &CellName<J, T>, other: &CellName<J, T>)
        requires one { MatchOption one.now.block
            (IsOfCell (map (λ s. s.turns.log) self.now.first.slots.items) slot one.now.value.log)
            (λ block. IsInFurther (map (λ s. s.turns.log) self.now.first.slots.items)
            (map (λ p. p.turns.log) self.now.more.places.items) self.now.bits slot block.log block.turn
            block.value one.now.value.log) }
        requires other { MatchOption other.now.block
            (IsOfCell (map (λ s. s.turns.log) self.now.first.slots.items) slot other.now.value.log)
            (λ block. IsInFurther (map (λ s. s.turns.log) self.now.first.slots.items)
            (map (λ p. p.turns.log) self.now.more.places.items) self.now.bits slot block.log block.turn
            block.value other.now.value.log) }
        requires turn { one.now.value.turn ≡ other.now.value.turn }
        // Two names of one turn of one slot are of one value, whichever threads placed it or found it, and in whichever
        // block.
        ensures { one.now.value.value ≡ other.now.value.value }
    {
        let _ = slot;
        match (&one.block, &other.block) {
            (Some(first), Some(second)) => first.agree(second),
            _ => {}
        }
        one.value.agree(&other.value);
    }

    /// Marks the value at this spot, so that no look finds it from then on. Of all callers that mark it, only one gets
    /// the removal. It comes with the name of the block that the cell is in, unless that is the first. `None`: no value
    /// was placed there yet, or it was marked, or there is no such cell.
    pub fn mark(&self, spot: SlotTurn) -> Option<OfBlock<J, T, SlotRemoval<'_, J, T>>>
        // A mark takes out the value at the slot and the turn that it names, in whichever block.
        ensures slot { IfSome result (λ marked. MatchOption marked.block
            (IsOfCell (map (λ s. s.turns.log) self.now.first.slots.items) spot.slot marked.found.name.log)
            (λ block. IsInFurther (map (λ s. s.turns.log) self.now.first.slots.items)
            (map (λ p. p.turns.log) self.now.more.places.items) self.now.bits spot.slot block.log block.turn
            block.value marked.found.name.log)) }
        ensures turn { IfSome result (λ marked. marked.found.name.turn ≡ spot.turn) }
    {
        if spot.slot < self.first.len() {
            let found = self.first.mark(spot, spot.slot)?;
            return Some(OfBlock { found, block: None });
        }
        let further = self.more.get(further_block(self.bits, spot.slot))?;
        let (slot, turn) = (index_there(spot.slot), spot.turn);
        let there = SlotTurn { slot, turn };
        let found = further.value.cells().mark(there, spot.slot)?;
        let block = Some(further.name);
        Some(OfBlock { found, block })
    }
}

unsafe impl<J: PostSet, T: Send + Sync> Send for GrowingCells<J, T> {}

unsafe impl<J: PostSet, T: Send + Sync> Sync for GrowingCells<J, T> {}
