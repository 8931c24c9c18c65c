//! Places that were emptied, each for the next value of whoever emptied it.
ghost use Rattle.std.specs.Prelude.{◌≡◌, ◌+◌, ◌*◌, ◌<◌, ◌≤◌, ◌↔◌, Some, map, IsTrue, IsOk, IfSome, IfOk, IfErr};
ghost use Rattle.std.specs.List.{slice_get};
ghost use Rattle.epoch_lend.specs.Turning.{Awaits, awaits_prop};
ghost use Rattle.epoch_lend.specs.declared.cells.turns.TheConstants.{GREATEST_TURN};

use crate::array::cells::{LendingCells, PlacedAt, SlotTurn};
use crate::array::slot::LentSlot;
use crate::cells::turns::TurnClaim;
use crate::cells::word::{shown_word, vacant_word};
use crate::readers::posts::PostSet;
use crate::readers::reader::Pinned;

/// The place of a free cell, which was emptied or claimed. No other caller can use it until its owner gives it up.
///
/// [`LentRoom::place`] shows the owner's next value there, and [`LentRoom::release`] leaves the cell to all callers. A
/// cell whose room is dropped takes no value any more.
#[derive(Drop)]
pub struct LentRoom<'c, J: PostSet, T> {
    pub(crate) cells: &'c LendingCells<J, T>,
    pub(crate) slot: &'c LentSlot<J, T>,
    // Which of these cells it is of, and the slot under which others know that cell.
    pub(crate) index: usize,
    pub(crate) position: usize,
    // The turn of the next value.
    pub(crate) next_turn: u64,
    pub(crate) claim: TurnClaim<T>,
    pub ghost right: { claim.right ≡ 1 },
    pub ghost of_slot: { (claim.state ≡ slot.now.turns.state) × (claim.at ≡ slot.now.turns.value) },
    pub ghost of_turn: { Awaits next_turn claim.word } by { awaits_prop next_turn claim.word },
    pub ghost within: { next_turn ≤ GREATEST_TURN + 1 },
    pub ghost of_cells: { slice_get (map (λ s. s.turns.log) cells.now.slots.items) index
        ≡ Some slot.now.turns.log },
    pub ghost of_place: { slice_get (map (λ s. s.turns.at) cells.now.slots.items) index
        ≡ Some slot.now.turns.at },
}

impl<'c, J: PostSet, T> LentRoom<'c, J, T> {
    /// Returns the slot of the cell.
    #[inline(always)]
    pub fn position(&self) -> usize
        ensures { result ≡ self.now.position }
    {
        self.position
    }

    /// Returns the turn of the next value that is placed in the cell.
    #[inline(always)]
    pub fn next_turn(&self) -> u64
        ensures { result ≡ self.now.next_turn }
    {
        self.next_turn
    }

    /// Returns whether the cell has a turn for one more value.
    #[inline(always)]
    pub fn has_turn(&self) -> bool
        ensures { IsTrue result ↔ (self.now.next_turn ≤ self.now.cells.now.last_turn) }
    {
        self.next_turn <= self.cells.last_turn
    }

    /// Shows a value in the cell at its next turn, by one store, and returns where. If the cell has had its last turn,
    /// the value is handed back, and no value is placed there any more.
    #[inline(always)]
    pub fn place(self, value: T) -> Result<PlacedAt<T>, T>
        // A value that is placed in a room stands in the room's cell, at the room's turn, which no value had before. If
        // that would be past the last turn, the value is handed back.
        ensures slot { IfOk result (λ placed. slice_get (map (λ s. s.turns.log) self.entry.cells.now.slots.items)
            self.entry.index ≡ Some placed.name.log) }
        ensures position { IfOk result (λ placed. placed.spot.slot ≡ self.entry.position) }
        ensures turn { IfOk result (λ placed. (placed.name.turn ≡ placed.spot.turn)
            × (placed.spot.turn ≡ self.entry.next_turn)) }
        ensures within { IfOk result (λ placed. placed.spot.turn ≤ self.entry.cells.now.last_turn) }
        ensures placed { IfOk result (λ placed. placed.name.value ≡ value) }
        ensures handed_back { IfErr result (λ back. back ≡ value) }
        ensures succeeds { self.entry.next_turn ≤ self.entry.cells.now.last_turn → IsOk result }
    {
        if !self.has_turn() {
            self.release();
            return Err(value);
        }
        let (slot, turn) = (self.position, self.next_turn);
        let spot = SlotTurn { slot, turn };
        let at = self.cells.place_of(self.index);
        let filled = self.claim.fill(value);
        let name = self.slot.turns.show(at, filled, turn, shown_word(turn));
        Ok(PlacedAt { spot, name })
    }

    /// Does what [`LentRoom::place`] does, and lends the value. `None` for what is lent: the value was marked already.
    #[inline(always)]
    pub fn place_lent<'g>(
        self,
        value: T,
        pinned: &'g Pinned<'_, J>,
    ) -> Result<(PlacedAt<T>, Option<&'g T>), T>
        // A placed value that is lent at once is the one that was placed.
        ensures position { IfOk result (λ placed. placed.0.spot.slot ≡ self.entry.position) }
        ensures turn { IfOk result (λ placed. placed.0.spot.turn ≡ self.entry.next_turn) }
        ensures placed { IfOk result (λ placed. placed.0.name.value ≡ value) }
        ensures lent { IfOk result (λ placed. IfSome placed.1 (λ lent. lent.now ≡ value)) }
        ensures handed_back { IfErr result (λ back. back ≡ value) }
        ensures succeeds { self.entry.next_turn ≤ self.entry.cells.now.last_turn → IsOk result }
    {
        let (cells, index) = (self.cells, self.index);
        let placed = self.place(value)?;
        let (slot, turn) = (index, placed.spot.turn);
        let spot = SlotTurn { slot, turn };
        match cells.look(spot, pinned) {
            Some(sight) => {
                sight.name.agree(&placed.name);
                Ok((placed, Some(sight.value)))
            }
            None => Ok((placed, None)),
        }
    }

    /// Leaves the cell to all callers, empty at its next turn, by one store.
    pub fn release(self) {
        let vacant = vacant_word(self.next_turn);
        let at = self.cells.place_of(self.index);
        self.slot
            .turns
            .release(at, self.claim, self.next_turn, vacant);
    }
}
