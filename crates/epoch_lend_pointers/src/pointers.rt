//! Pointers to values of a store, under a guard that lends.
ghost use Rattle.std.specs.Prelude.{◌≡◌, ◌<◌, ◌%◌, map, MatchOption, IfSome, IsSomeAnd, IfOk, IfErr};
ghost use Rattle.epoch_atomic.specs.Pointers.{IsUnder, IsRead};
ghost use Rattle.epoch_atomic.specs.WordSteps.{LoadsPointer, SwapsWord, ExchangesPointer, MissesPointer, word_for};
ghost use Rattle.epoch_atomic.specs.WordSteps.WordStep.{Stores};
ghost use Rattle.epoch_atomic.specs.Exchanges.{FindsAnother};
ghost use Rattle.epoch_lend.specs.Growing.{IsOfCell, IsInFurther};
ghost use Rattle.epoch_lend_pointers.specs.Steps.StoreStep.{Lends};

use crate::steps::{HasStoreSteps, StoreSteps};
use crate::store::Store;
use epoch_atomic::Pointable;
use epoch_atomic::atomic::{Atomic, Shared, SharedWord};
use epoch_cells::Name;
use epoch_lend::array::growing::CellSight;
use epoch_lend::readers::posts::PostSet;
use epoch_lend::session::LendingGuard;
use std::sync::atomic::Ordering;

impl<J: PostSet, T: Pointable> Store<'_, J, T> {
    /// Loads the pointer. The load acts as `SeqCst`, whichever ordering is asked for.
    #[inline(always)]
    pub fn load<'g, A: SharedWord>(
        &'g self,
        at: &Atomic<T, A>,
        order: Ordering,
        guard: &'g LendingGuard<'_, J>,
    ) -> Shared<'g, T>
        ensures read { IsRead T.ALIGN result.name result.tag }
        ensures below { result.tag < T.ALIGN }
        ensures home { IsUnder self.now.number result.home }
        ensures did { LoadsPointer T.ALIGN (A.did at.now.word) result.name result.tag }
    {
        let _ = guard;
        at.load_at(order, self.home())
    }

    /// Stores a pointer. The value of the pointer before stays in its cell: to retire it, use [`Store::swap`], which
    /// returns that pointer. The store acts as `SeqCst`, whichever ordering is asked for.
    #[inline(always)]
    pub fn store<A: SharedWord>(
        &self,
        at: &Atomic<T, A>,
        new: Shared<'_, T>,
        order: Ordering,
        guard: &LendingGuard<'_, J>,
    )
        ensures did { A.did at.now.word (Stores (word_for T.ALIGN new.entry)) }
    {
        let _ = guard;
        at.store_at(new, order);
    }

    /// Stores a pointer, and returns the pointer before. The swap acts as `SeqCst`, whichever ordering is asked for.
    #[inline(always)]
    pub fn swap<'g, A: SharedWord>(
        &'g self,
        at: &Atomic<T, A>,
        new: Shared<'_, T>,
        order: Ordering,
        guard: &'g LendingGuard<'_, J>,
    ) -> Shared<'g, T>
        // A pointer that is loaded, swapped or exchanged through a store is of that store. The call makes the step on
        // the word that its name says.
        ensures read { IsRead T.ALIGN result.name result.tag }
        ensures below { result.tag < T.ALIGN }
        ensures home { IsUnder self.now.number result.home }
        ensures did { SwapsWord T.ALIGN (A.did at.now.word) new.entry result }
    {
        let _ = guard;
        at.swap_at(new, order, self.home())
    }

    /// Stores `new` if the pointer is `current`, with the same tag, and returns the pointer that it wrote.
    ///
    /// `Err`: another pointer, or another tag, was found, which is returned; nothing was stored. The exchange acts as
    /// `SeqCst`, whichever orderings are asked for.
    #[inline(always)]
    pub fn compare_exchange<'g, A: SharedWord>(
        &'g self,
        at: &Atomic<T, A>,
        current: Shared<'_, T>,
        new: Shared<'_, T>,
        success: Ordering,
        failure: Ordering,
        guard: &'g LendingGuard<'_, J>,
    ) -> Result<Shared<'g, T>, Shared<'g, T>>
        ensures name { IfOk result (λ written. written.name ≡ new.entry.name) }
        ensures tag { IfOk result (λ written. written.tag ≡ new.entry.tag % T.ALIGN) }
        ensures below { IfOk result (λ written. written.tag < T.ALIGN) }
        ensures changed { IfErr result (FindsAnother T.ALIGN current.entry) }
        ensures won { IfOk result (ExchangesPointer T.ALIGN (A.did at.now.word) current.entry) }
        ensures lost { IfErr result (MissesPointer T.ALIGN (A.did at.now.word) current.entry) }
        ensures home { IfOk result (λ written. IsUnder self.now.number written.home) }
        ensures found_home { IfErr result (λ found. IsUnder self.now.number found.home) }
    {
        let _ = guard;
        at.compare_exchange_at(current, new, success, failure, self.home())
    }
}

impl<J: PostSet, T> Store<'_, J, T> {
    /// Does what [`Store::get`] does, and returns a witness, too, of which value was placed under this name.
    #[inline(always)]
    pub fn look<'g>(
        &self,
        pointer: Shared<'_, T>,
        guard: &'g LendingGuard<'_, J>,
    ) -> Option<CellSight<'g, J, T>>
        // What a look lends is the value that was placed under the pointer's name.
        ensures slot { IfSome result (λ sight. IfSome pointer.entry.name (λ name. MatchOption sight.name.block
            (IsOfCell (map (λ s. s.turns.log) self.now.cells.now.cells.first.slots.items) name.slot
            sight.name.value.log)
            (λ block. IsInFurther (map (λ s. s.turns.log) self.now.cells.now.cells.first.slots.items)
            (map (λ p. p.turns.log) self.now.cells.now.cells.more.places.items) self.now.cells.now.cells.bits
            name.slot block.log block.turn block.value
            sight.name.value.log))) }
        ensures turn { IfSome result (λ sight. IfSome pointer.entry.name
            (λ name. sight.name.value.turn ≡ name.turn)) }
    {
        self.cells.look(pointer.name()?, guard.pinned())
    }
}

impl<J: PostSet, T: Drop> Store<'_, J, T> {
    /// Lends the value that the pointer names, by plain loads, for as long as this guard is borrowed. The pointer
    /// must be of this store: a pointer of another one gets what this store has under its name.
    ///
    /// `None`: the pointer is null; or its value was retired, and each pin from before is over.
    #[inline(always)]
    pub fn get<'g, M: StoreSteps<T>>(
        &self,
        pointer: Shared<'_, T>,
        guard: &'g LendingGuard<'_, J>,
    ) -> Option<&'g T>
    where
        T: HasStoreSteps<M>,
        ensures did { IfSome result (λ value. IsSomeAnd pointer.entry.name
            (λ name. M.did J.posts self.now.number (Lends name value.now))) }
    {
        M::look(self, pointer.name()?, guard.pinned())
    }

    /// Lends the value of this name, as [`Store::get`] does.
    #[inline(always)]
    pub fn get_named<'g, M: StoreSteps<T>>(
        &self,
        name: Name,
        guard: &'g LendingGuard<'_, J>,
    ) -> Option<&'g T>
    where
        T: HasStoreSteps<M>,
        // A value that a store lends was found in this store, under the name that was asked for.
        ensures did { IfSome result (λ value. M.did J.posts self.now.number (Lends name value.now)) }
    {
        M::look(self, name, guard.pinned())
    }
}
