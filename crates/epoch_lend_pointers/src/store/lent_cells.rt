//! Cells whose values have names.
ghost use Rattle.std.specs.Prelude.{◌≡◌, ◌<◌, ◌≤◌, ◌+◌, map, MatchOption, IfOk, IfErr, IfSome, IsOkUnless};
ghost use Rattle.epoch_cells.specs.declared.fault.Fault.TheVariants.{NoMemory, CellsFull};
ghost use Rattle.epoch_lend.specs.Growing.{IsOfCell, IsInFurther};

use crate::store::spots::{LAST_TURN, name_of, next_name, spot_of};
use epoch_cells::{Fault, MOST_SLOT, Name, Refused};
use epoch_lend::array::cells::{PlacedAt, SlotTurn};
use epoch_lend::array::growing::{CellSight, GrowingCells, OfBlock};
use epoch_lend::array::room::LentRoom;
use epoch_lend::array::slot::SlotRemoval;
use epoch_lend::cells::turns::TurnName as Witness;
use epoch_lend::domain::Domain;
use epoch_lend::readers::posts::PostSet;
use epoch_lend::readers::reader::Pinned;
use std::alloc::Global;

/// A value that was placed: its name, and a witness of which value was placed under this name.
#[derive(Drop)]
pub struct Placed<T> {
    pub name: Name,
    pub witness: Witness<T>,
}

/// How many cells there are at first, unless their maker asks for more.
pub const FIRST_CELLS: u32 = 64;

/// Cells whose values are lent to guards of a domain. A [`Store`](crate::Store) places values in them, and adds cells
/// when it needs more, up to a limit.
#[derive(Drop)]
pub struct LentCells<J: PostSet, T> {
    // No value is placed in the first cell, since no name has slot 0.
    cells: GrowingCells<J, T>,
    pub ghost few: { (1 ≤ cells.limit) × (cells.limit ≤ 16777216) },
    pub ghost named: { cells.first.last_turn ≤ 4294967295 },
}

impl<J: PostSet, T> LentCells<J, T> {
    /// Makes empty cells for guards of this domain, [`FIRST_CELLS`] of them or fewer. There are more when values need
    /// them, until as many values as `limit` says, from 0 to [`MOST_SLOT`], have a cell each. When cells are added,
    /// there are twice as many as before.
    ///
    /// `NoMemory`: an allocation was refused. The values of cells that were added together lie side by side in memory,
    /// which is freed when the cells are dropped and each is empty, as [`Store::end`](crate::Store::end) leaves them. A
    /// value that is still in a cell is not dropped then, and that memory is never freed, since guards may have the
    /// value.
    pub fn new(alloc: Global, limit: u32, domain: &Domain<J>) -> Result<LentCells<J, T>, Fault>
        requires { limit ≤ MOST_SLOT }
        ensures memory { IsOkUnless result NoMemory }
        ensures limit { IfOk result (λ lent. lent.cells.limit ≡ limit + 1) }
    {
        LentCells::with_capacity(alloc, 0, limit, domain)
    }

    /// Makes empty cells, as [`LentCells::new`] does, for this many values at once, so that none are added before there
    /// are more. A look at a value in a cell that was added takes one load more.
    ///
    /// `NoMemory`: an allocation was refused.
    pub fn with_capacity(
        alloc: Global,
        capacity: u32,
        limit: u32,
        domain: &Domain<J>,
    ) -> Result<LentCells<J, T>, Fault>
        requires { limit ≤ MOST_SLOT }
        // Making cells fails only if memory is refused.
        ensures memory { IsOkUnless result NoMemory }
        // No cell takes a value at a turn that no name has.
        ensures limit { IfOk result (λ lent. lent.cells.limit ≡ limit + 1) }
    {
        let first = (capacity as usize + 1).max(FIRST_CELLS as usize);
        match GrowingCells::new(alloc, first, limit as usize + 1, LAST_TURN, domain.posts()) {
            Ok(cells) => Ok(LentCells { cells }),
            Err(_) => Err(Fault::NoMemory),
        }
    }
}

// The name of a value that is shown, with its witness.
#[inline(always)]
fn named<T>(shown: PlacedAt<T>) -> Placed<T>
    requires slot { (1 ≤ shown.spot.slot) × (shown.spot.slot ≤ MOST_SLOT) }
    requires turn { shown.spot.turn ≤ LAST_TURN }
    ensures slot { result.name.slot ≡ shown.spot.slot }
    ensures turn { result.name.turn ≡ shown.spot.turn }
    ensures witness { result.witness ≡ shown.name }
{
    let name = name_of(shown.spot);
    Placed {
        name,
        witness: shown.name,
    }
}

impl<J: PostSet, T> LentCells<J, T> {
    /// Returns how many values may have a cell at a time: as many as were asked for.
    #[inline(always)]
    pub fn limit(&self) -> usize
        ensures value { result + 1 ≡ self.now.cells.limit }
        ensures within { result ≤ MOST_SLOT }
    {
        self.cells.limit() - 1
    }

    /// Lends the value of this name, by one plain load or, if its cell was added, two, for as long as the reference to
    /// the pinned reader lasts, with a witness that it was placed under this name. `None`: none was placed there yet,
    /// or it was marked.
    #[inline(always)]
    pub fn look<'g>(&self, name: Name, pinned: &'g Pinned<'_, J>) -> Option<CellSight<'g, J, T>>
        // A look lends the value that was placed under the name, for as long as the reference to the pinned reader is.
        ensures slot { IfSome result (λ sight. MatchOption sight.name.block
            (IsOfCell (map (λ s. s.turns.log) self.now.cells.first.slots.items) name.slot sight.name.value.log)
            (λ block. IsInFurther (map (λ s. s.turns.log) self.now.cells.first.slots.items)
            (map (λ p. p.turns.log) self.now.cells.more.places.items) self.now.cells.bits name.slot block.log
            block.turn block.value sight.name.value.log)) }
        ensures turn { IfSome result (λ sight. sight.name.value.turn ≡ name.turn) }
    {
        self.cells.look(spot_of(name), pinned)
    }

    /// Shows the value in the room of a free cell, by one store, and returns the name that it has from then on. The
    /// witness is of the cells that the room is of.
    ///
    /// `CellsFull`: the cell has had its last turn. The value is handed back, and no value is placed there any more.
    #[inline(always)]
    pub fn place_in(&self, room: LentRoom<'_, J, T>, value: T) -> Result<Placed<T>, Refused<T>>
        // A value that is placed in a room stands, in the cells that the room is of, under the name that the call
        // returns. This name is known beforehand. A value that isn't placed is handed back.
        ensures placed { IfOk result (λ placed. placed.witness.value ≡ value) }
        ensures slot { IfOk result (λ placed. (placed.name.slot ≡ room.entry.position)
            × IsOfCell (map (λ s. s.turns.log) room.entry.cells.now.slots.items) room.entry.index placed.witness.log) }
        ensures turn { IfOk result (λ placed. placed.witness.turn ≡ placed.name.turn) }
        ensures full { IfErr result (λ refused. (refused.fault ≡ CellsFull) × (refused.value ≡ value)) }
    {
        let fault = Fault::CellsFull;
        if next_name(&room).is_none() {
            room.release();
            return Err(Refused { fault, value });
        }
        match room.place(value) {
            Ok(shown) => Ok(named(shown)),
            Err(value) => Err(Refused { fault, value }),
        }
    }

    // The cells, for the store.
    #[inline(always)]
    pub(crate) fn array(&self) -> &GrowingCells<J, T>
        ensures { result.now ≡ self.now.cells }
    {
        &self.cells
    }

    // Marks the value at this spot. `None`: the cell has no value of this turn.
    pub(crate) fn mark(&self, spot: SlotTurn) -> Option<OfBlock<J, T, SlotRemoval<'_, J, T>>> {
        self.cells.mark(spot)
    }
}

unsafe impl<J: PostSet, T: Send + Sync> Send for LentCells<J, T> {}

unsafe impl<J: PostSet, T: Send + Sync> Sync for LentCells<J, T> {}
