//! Values taken back once only their owner is left.
ghost use Rattle.std.specs.Prelude.{◌≡◌, ◌⊎◌, None, Some, IsErr, IfSome, IfOk, IfErr, MatchOption, map};
ghost use Rattle.epoch_cells.specs.declared.fault.Fault.TheVariants.{GuardsOut, NoMemory, StrangerPointer};
ghost use Rattle.epoch_atomic.specs.Pointers.{IsUnder};
ghost use Rattle.epoch_lend.specs.Growing.{IsOfCell, IsInFurther};

use crate::store::Held;
use crate::store::spots::spot_of;
use crate::writer::Writer;
use epoch_atomic::atomic::Shared;
use epoch_cells::{Fault, Refused};
use epoch_lend::array::cells::SlotTurn;
use epoch_lend::array::growing::{CellName as Witness, FurtherBlock, OfBlock};
use epoch_lend::array::slot::Returned;
use epoch_lend::cells::turns::TurnName;
use epoch_lend::readers::posts::PostSet;
use epoch_lend::watch::Watch;

// The name of the block that a value's cell is in, unless that is the first.
type BlockName<J, T> = Option<TurnName<FurtherBlock<J, T>>>;

impl<'q, 's, J: PostSet, T: Drop> Writer<'q, 's, J, T> {
    /// Takes the value that the pointer names back at once, for an owner that is the only one left: as
    /// `Atomic::into_owned` of crossbeam-epoch, which is unsafe to call. Values that others may still read are retired
    /// instead, by [`Writer::retire`]. The cell is kept for the writer's next value.
    ///
    /// `GuardsOut`: a guard of the domain is out, and may have the value. It stays in its cell, unless the pin began
    /// during this call: then no guard gets it any more, and it is dropped as soon as no guard may have it. `NoMemory`:
    /// what was to wait before found no place in the store, or no memory, and the value stays in its cell.
    /// `StrangerPointer`: the pointer is null or of another store, or its value is gone. The pointer is handed back.
    #[inline(always)]
    pub fn take_back<'g>(&mut self, pointer: Shared<'g, T>) -> Result<T, Refused<Shared<'g, T>>>
        ensures store { self.new.store ≡ self.old.store }
        ensures kept { self.new.kept ≡ self.old.kept }
        ensures null { pointer.entry.name ≡ None
            → IfErr result (λ refused. refused.fault ≡ StrangerPointer) × IsErr result × (self.new ≡ self.old) }
        ensures stranger { ¬ IsUnder self.old.store.now.number pointer.entry.home
            → IfErr result (λ refused. refused.fault ≡ StrangerPointer) × IsErr result × (self.new ≡ self.old) }
        ensures handed_back { IfErr result (λ refused. refused.value ≡ pointer.entry) }
        ensures refused { IfErr result (λ refused. (refused.fault ≡ GuardsOut) ⊎ (refused.fault ≡ NoMemory)
            ⊎ (refused.fault ≡ StrangerPointer)) }
    {
        match self.take_back_with_witness(pointer) {
            Ok((value, _)) => Ok(value),
            Err(refused) => Err(refused),
        }
    }

    /// Does what [`Writer::take_back`] does, and returns a witness that the value was placed under the pointer's name.
    #[inline(always)]
    pub fn take_back_with_witness<'g>(
        &mut self,
        pointer: Shared<'g, T>,
    ) -> Result<(T, Witness<J, T>), Refused<Shared<'g, T>>>
        ensures store { self.new.store ≡ self.old.store }
        ensures kept { self.new.kept ≡ self.old.kept }
        // A value that a writer takes back is the one that was placed under the pointer's name, as its witness shows.
        // Otherwise the pointer is handed back, with `GuardsOut`, `NoMemory` or `StrangerPointer`. With null, or a
        // pointer of another store, nothing is done.
        ensures value { IfOk result (λ back. back.0 ≡ back.1.value.value) }
        ensures slot { IfOk result (λ back. IfSome pointer.entry.name (λ name. MatchOption back.1.block
            (IsOfCell (map (λ s. s.turns.log) self.old.store.now.cells.now.cells.first.slots.items) name.slot
            back.1.value.log)
            (λ block. IsInFurther (map (λ s. s.turns.log) self.old.store.now.cells.now.cells.first.slots.items)
            (map (λ p. p.turns.log) self.old.store.now.cells.now.cells.more.places.items)
            self.old.store.now.cells.now.cells.bits name.slot block.log block.turn block.value back.1.value.log))) }
        ensures turn { IfOk result (λ back. IfSome pointer.entry.name (λ name. back.1.value.turn ≡ name.turn)) }
        ensures null { pointer.entry.name ≡ None
            → IfErr result (λ refused. refused.fault ≡ StrangerPointer) × IsErr result × (self.new ≡ self.old) }
        ensures stranger { ¬ IsUnder self.old.store.now.number pointer.entry.home
            → IfErr result (λ refused. refused.fault ≡ StrangerPointer) × IsErr result × (self.new ≡ self.old) }
        ensures handed_back { IfErr result (λ refused. refused.value ≡ pointer.entry) }
        ensures refused { IfErr result (λ refused. (refused.fault ≡ GuardsOut) ⊎ (refused.fault ≡ NoMemory)
            ⊎ (refused.fault ≡ StrangerPointer)) }
    {
        let Some(name) = self.own_name(pointer) else {
            return Err(Refused {
                fault: Fault::StrangerPointer,
                value: pointer,
            });
        };
        match self.take_at(spot_of(name)) {
            Ok((Returned { value, name, room }, block)) => {
                self.keep_room(room);
                Ok((value, Witness { value: name, block }))
            }
            Err(fault) => Err(Refused {
                fault,
                value: pointer,
            }),
        }
    }

    // Takes the value at this spot back at once, if no guard is out, with the room that it leaves.
    #[inline(always)]
    fn take_at(&mut self, spot: SlotTurn) -> Result<(Returned<'s, J, T>, BlockName<J, T>), Fault>
        ensures store { self.new.store ≡ self.old.store }
        ensures kept { self.new.kept ≡ self.old.kept }
        ensures slot { IfOk result (λ back. MatchOption back.1
            (IsOfCell (map (λ s. s.turns.log) self.old.store.now.cells.now.cells.first.slots.items) spot.slot
            back.0.name.log)
            (λ block. IsInFurther (map (λ s. s.turns.log) self.old.store.now.cells.now.cells.first.slots.items)
            (map (λ p. p.turns.log) self.old.store.now.cells.now.cells.more.places.items)
            self.old.store.now.cells.now.cells.bits spot.slot block.log block.turn block.value back.0.name.log)) }
        ensures turn { IfOk result (λ back. back.0.name.turn ≡ spot.turn) }
        ensures refused { IfErr result (λ fault. (fault ≡ GuardsOut) ⊎ (fault ≡ NoMemory)
            ⊎ (fault ≡ StrangerPointer)) }
    {
        self.put_held()?;
        let store = self.store;
        let posts = store.domain().posts();
        let (are_unpinned, _) = Watch::new().unpinned(posts.as_slice());
        if !are_unpinned {
            return Err(Fault::GuardsOut);
        }
        let Some(OfBlock { found, block }) = store.cells.array().mark(spot) else {
            return Err(Fault::StrangerPointer);
        };
        match found.take_back(posts) {
            Ok(returned) => Ok((returned, block)),
            Err(removal) => {
                self.hold(Held::Alone(removal));
                let _ = self.put_held();
                Err(Fault::GuardsOut)
            }
        }
    }
}
