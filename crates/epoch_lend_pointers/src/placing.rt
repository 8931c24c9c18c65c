//! How a writer places values: in free cells of its own, as long as it has some.
ghost use Rattle.std.specs.Prelude.{◌≡◌, map, MatchOption, IsSomeAnd, IfOk, IfErr};
ghost use Rattle.epoch_cells.specs.declared.fault.Fault.TheVariants.{CellsFull};
ghost use Rattle.epoch_atomic.specs.Pointers.{IsUnder};
ghost use Rattle.epoch_lend.specs.Growing.{IsOfCell, IsInFurther};
ghost use Rattle.epoch_lend_pointers.specs.Steps.{StaysOrWaits};
ghost use Rattle.epoch_lend_pointers.specs.Steps.StoreStep.{Places};

use crate::steps::{HasStoreSteps, StoreSteps};
use crate::writer::Writer;
use epoch_atomic::atomic::Shared;
use epoch_cells::{Fault, Refused};
use epoch_lend::array::growing::{CellName as Witness, OfBlock};
use epoch_lend::array::room::LentRoom;
use epoch_lend::readers::posts::PostSet;
use epoch_lend::session::LendingGuard;
use epoch_lend::steps::{HasPinSteps, PinSteps};

impl<'q, 's, J: PostSet, T: Drop> Writer<'q, 's, J, T> {
    /// Takes a free cell for the next value: one of its own; or one that another writer left; or one of the next cells
    /// that no writer has taken yet. If there is none, the writer is flushed, as by [`Writer::flush`], and looks once
    /// more. `None`: every cell was seen in use, or kept by other writers for their next values; or memory for more
    /// cells was refused, or another thread is about to add them.
    ///
    /// What isn't used goes back to [`Writer::keep_room`].
    #[inline(always)]
    pub fn take_room<S: PinSteps, M: StoreSteps<T>>(&mut self) -> Option<LentRoom<'s, J, T>>
    where
        J: HasPinSteps<S>,
        T: HasStoreSteps<M>,
        ensures store { self.new.store ≡ self.old.store }
        // While a writer places, or takes a free cell, what it had gathered stays gathered, or comes to wait in the
        // store.
        ensures kept { StaysOrWaits (S.did J.posts) (M.did J.posts self.old.store.now.number)
            self.old.kept.lists.value.spots.items
            self.new.kept.lists.value.spots.items }
    {
        match self.rooms.next() {
            Some(room) => Some(room),
            None => self.more_rooms::<S, M>(),
        }
    }

    // It has a copy of its own of what the call out of line returns, so that `take_room` keeps no room in memory for
    // its sake.
    #[inline(always)]
    fn more_rooms<S: PinSteps, M: StoreSteps<T>>(&mut self) -> Option<LentRoom<'s, J, T>>
    where
        J: HasPinSteps<S>,
        T: HasStoreSteps<M>,
        ensures store { self.new.store ≡ self.old.store }
        ensures kept { StaysOrWaits (S.did J.posts) (M.did J.posts self.old.store.now.number)
            self.old.kept.lists.value.spots.items
            self.new.kept.lists.value.spots.items }
    {
        self.more_rooms_apart::<S, M>()
    }

    // Takes a list of free cells, and one of them.
    #[cold]
    #[inline(never)]
    fn more_rooms_apart<S: PinSteps, M: StoreSteps<T>>(&mut self) -> Option<LentRoom<'s, J, T>>
    where
        J: HasPinSteps<S>,
        T: HasStoreSteps<M>,
        ensures store { self.new.store ≡ self.old.store }
        ensures kept { StaysOrWaits (S.did J.posts) (M.did J.posts self.old.store.now.number)
            self.old.kept.lists.value.spots.items
            self.new.kept.lists.value.spots.items }
    {
        self.rooms = self.store.take_rooms();
        if let Some(room) = self.rooms.next() {
            return Some(room);
        }
        let _ = self.flush::<S, M>();
        if let Some(room) = self.rooms.next() {
            return Some(room);
        }
        self.store.look_again();
        self.rooms = self.store.take_rooms();
        self.rooms.next()
    }

    /// Keeps a free cell that wasn't used for the next value, or leaves it for other writers.
    #[inline(always)]
    pub fn keep_room(&mut self, room: LentRoom<'s, J, T>)
        ensures store { self.new.store ≡ self.old.store }
        ensures kept { self.new.kept ≡ self.old.kept }
    {
        self.store.keep_room(&mut self.rooms, room);
    }

    /// Places the value in a cell, and returns the pointer to it, with tag 0. In a free cell of the writer's own, this
    /// takes one store, and no search.
    ///
    /// `CellsFull`: every cell was seen in use, or kept by other writers for their next values; or memory for more
    /// cells was refused, or another thread is about to add them. The writer was flushed, and tried what waits: so a
    /// caller that tries again gets a cell as soon as guards from before are unpinned or renewed, its own too. The
    /// value is handed back.
    #[inline(always)]
    pub fn place<'g, S: PinSteps, M: StoreSteps<T>>(
        &mut self,
        guard: &'g LendingGuard<'_, J>,
        value: T,
    ) -> Result<Shared<'g, T>, Refused<T>>
    where
        'q: 'g,
        J: HasPinSteps<S>,
        T: HasStoreSteps<M>,
        ensures store { self.new.store ≡ self.old.store }
        ensures kept { StaysOrWaits (S.did J.posts) (M.did J.posts self.old.store.now.number)
            self.old.kept.lists.value.spots.items
            self.new.kept.lists.value.spots.items }
        ensures tag { IfOk result (λ pointer. pointer.tag ≡ 0) }
        ensures placed { IfOk result (λ pointer. IsSomeAnd pointer.name
            (λ name. M.did J.posts self.old.store.now.number (Places name value))) }
        ensures home { IfOk result (λ pointer. IsUnder self.old.store.now.number pointer.home) }
        // A value that isn't placed is handed back with `CellsFull`. The pointer to a placed value has tag 0, is of the
        // writer's store, and has the name under which the value was shown there.
        ensures full { IfErr result (λ refused. (refused.fault ≡ CellsFull) × (refused.value ≡ value)) }
    {
        let _ = guard;
        let Some(room) = self.take_room::<S, M>() else {
            return Err(Refused {
                fault: Fault::CellsFull,
                value,
            });
        };
        let store = self.store;
        match M::place_in(store, room, value) {
            Ok(name) => Ok(Shared::named_at(name, store.home())),
            Err(refused) => Err(refused),
        }
    }

    /// Does what [`Writer::place`] does, and returns a witness, too, that this value was placed under the pointer's
    /// name. It takes two exchanges more: the free cell is given up and claimed anew, so that it is known to be one of
    /// the store's.
    ///
    /// `CellsFull`: as of [`Writer::place`]; or another thread has claimed the cell since. The value is handed back.
    pub fn place_with_witness<'g, S: PinSteps, M: StoreSteps<T>>(
        &mut self,
        guard: &'g LendingGuard<'_, J>,
        value: T,
    ) -> Result<(Shared<'g, T>, Witness<J, T>), Refused<T>>
    where
        'q: 'g,
        J: HasPinSteps<S>,
        T: HasStoreSteps<M>,
        ensures store { self.new.store ≡ self.old.store }
        ensures kept { StaysOrWaits (S.did J.posts) (M.did J.posts self.old.store.now.number)
            self.old.kept.lists.value.spots.items self.new.kept.lists.value.spots.items }
        ensures tag { IfOk result (λ placed. placed.0.tag ≡ 0) }
        ensures home { IfOk result (λ placed. IsUnder self.old.store.now.number placed.0.home) }
        // A value that is placed stands under the name of the pointer that the call returns, as its witness shows.
        ensures placed { IfOk result (λ placed. placed.1.value.value ≡ value) }
        ensures slot { IfOk result (λ placed. IsSomeAnd placed.0.name (λ name. MatchOption placed.1.block
            (IsOfCell (map (λ s. s.turns.log) self.old.store.now.cells.now.cells.first.slots.items) name.slot
            placed.1.value.log)
            (λ block. IsInFurther (map (λ s. s.turns.log) self.old.store.now.cells.now.cells.first.slots.items)
            (map (λ p. p.turns.log) self.old.store.now.cells.now.cells.more.places.items)
            self.old.store.now.cells.now.cells.bits name.slot block.log block.turn block.value placed.1.value.log))) }
        ensures turn { IfOk result (λ placed. IsSomeAnd placed.0.name (λ name. placed.1.value.turn ≡ name.turn)) }
        ensures full { IfErr result (λ refused. (refused.fault ≡ CellsFull) × (refused.value ≡ value)) }
    {
        let _ = guard;
        let slot = self.slot_for_one::<S, M>();
        let store = self.store;
        let Some(OfBlock { found, block }) = store.cells.array().fresh_room(slot) else {
            return Err(Refused {
                fault: Fault::CellsFull,
                value,
            });
        };
        match store.cells.place_in(found, value) {
            Ok(placed) => {
                let witness = Witness {
                    value: placed.witness,
                    block,
                };
                Ok((Shared::named_at(placed.name, store.home()), witness))
            }
            Err(refused) => Err(refused),
        }
    }

    // Gives up a free cell, and returns its slot, or one that no cell has if there is none.
    fn slot_for_one<S: PinSteps, M: StoreSteps<T>>(&mut self) -> usize
    where
        J: HasPinSteps<S>,
        T: HasStoreSteps<M>,
        ensures store { self.new.store ≡ self.old.store }
        ensures kept { StaysOrWaits (S.did J.posts) (M.did J.posts self.old.store.now.number)
            self.old.kept.lists.value.spots.items self.new.kept.lists.value.spots.items }
    {
        let Some(room) = self.take_room::<S, M>() else {
            return usize::MAX;
        };
        let slot = room.position();
        room.release();
        slot
    }
}
