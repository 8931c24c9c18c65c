//! What an `Atomic` can be given: a pointer, or an owned value that is placed in a cell for it.
ghost use Rattle.std.specs.Prelude.{◌≡◌, ℕ, Option, IsSome, IfSome, IfOk, IfErr, Some};
ghost use Rattle.epoch_cells.specs.declared.cells.name.Name.{Name};
ghost use Rattle.epoch_cells.specs.declared.fault.Fault.TheVariants.{CellsFull};
ghost use Rattle.epoch_atomic.specs.Pointers.{IsUnder, IsPointerWord, BecomesWord};

use crate::Pointable;
use crate::atomic::owned::Owned;
use crate::atomic::shared::Shared;
use crate::atomic::word::pointer_word;
use epoch_cells::Refused;
use epoch_handles::{Guard, HasPlacing, Placing, home_of, place_under, take_under};

/// What an `Atomic` can be given: a [`Shared`], or an [`Owned`], which takes a cell.
pub trait Pointer<'g, T: Pointable>: Sized {
    // Whether it takes a cell, so that it may be refused.
    ghost takes_cell: { Type 0 };

    // It becomes a pointer with this name and tag.
    ghost becomes: { Self → Option Name → ℕ → Type 0 };

    /// Returns the pointer that it becomes. A [`Shared`] is that pointer. An [`Owned`] is placed in a cell, and comes
    /// back if the cells are full.
    fn enter<W>(self, guard: &'g Guard<'_, T, W>) -> Result<Shared<'g, T>, Self>
        ensures ok { IfOk result (λ shared. becomes self shared.name shared.tag) }
        ensures home { IfOk result (λ shared. takes_cell → IsUnder guard.now.collector.now.id shared.home) }
        ensures full { IfErr result (λ back. takes_cell × (back ≡ self)) };

    /// Does what [`Pointer::enter`] does, and returns the pointer's word: that of its name, and of its tag modulo the
    /// alignment.
    fn enter_word<W>(self, guard: &'g Guard<'_, T, W>) -> Result<u64, Self>
        ensures rule { IfOk result (λ word. IsPointerWord word) }
        ensures word { IfOk result (λ word. BecomesWord T.ALIGN (becomes self) word) }
        ensures full { IfErr result (λ back. takes_cell × (back ≡ self)) };

    /// Undoes [`Pointer::enter`], under the same guard. An [`Owned`] is taken out of its cell again. If another thread
    /// holds the value, or has removed it, the pointer comes back.
    fn back<W>(shared: Shared<'g, T>, guard: &'g Guard<'_, T, W>) -> Result<Self, Shared<'g, T>>
        ensures ok { IfOk result (λ back. becomes back shared.entry.name shared.entry.tag) }
        ensures stuck { IfErr result (λ stuck. takes_cell × (stuck ≡ shared.entry)) };
}

impl<'g, T: Pointable> Pointer<'g, T> for Shared<'g, T> {
    ghost takes_cell = { ⊥ };

    ghost becomes = { λ shared name tag. (name ≡ shared.name) × (tag ≡ shared.tag) };

    #[inline(always)]
    fn enter<W>(self, guard: &'g Guard<'_, T, W>) -> Result<Shared<'g, T>, Self>
        ensures ok { IfOk result (λ shared. (shared.name ≡ self.entry.name) × (shared.tag ≡ self.entry.tag)) }
        ensures home { IfOk result (λ shared. ⊥ → IsUnder guard.now.collector.now.id shared.home) }
        ensures full { IfErr result (λ back. ⊥ × (back ≡ self.entry)) }
    {
        let _ = guard;
        Ok(self)
    }

    #[inline(always)]
    fn enter_word<W>(self, _guard: &'g Guard<'_, T, W>) -> Result<u64, Self>
        ensures rule { IfOk result (λ word. IsPointerWord word) }
        ensures word { IfOk result
            (λ word. BecomesWord T.ALIGN (λ name tag. (name ≡ self.entry.name) × (tag ≡ self.entry.tag)) word) }
        ensures full { IfErr result (λ back. ⊥ × (back ≡ self.entry)) }
    {
        Ok(pointer_word::<T>(self.name, self.tag))
    }

    #[inline(always)]
    fn back<W>(shared: Shared<'g, T>, _guard: &'g Guard<'_, T, W>) -> Result<Self, Shared<'g, T>>
        ensures ok { IfOk result (λ back. (shared.entry.name ≡ back.name) × (shared.entry.tag ≡ back.tag)) }
        ensures stuck { IfErr result (λ stuck. ⊥ × (stuck ≡ shared.entry)) }
    {
        Ok(shared)
    }
}

impl<'g, T: Pointable + Drop> Pointer<'g, T> for Owned<T> {
    ghost takes_cell = { Unit {0} };

    ghost becomes = { λ owned name tag. IsSome name × (tag ≡ owned.tag) };

    #[inline(always)]
    fn enter<W>(self, guard: &'g Guard<'_, T, W>) -> Result<Shared<'g, T>, Self>
        ensures ok { IfOk result (λ shared. IsSome shared.name × (shared.tag ≡ self.tag)) }
        ensures home { IfOk result (λ shared. Unit {0} → IsUnder guard.now.collector.now.id shared.home) }
        ensures full { IfErr result (λ back. Unit {0} × (back ≡ self)) }
    {
        match self.into_shared(guard) {
            Ok(shared) => Ok(shared),
            Err(Refused { fault: _, value }) => Err(value),
        }
    }

    #[inline(always)]
    fn enter_word<W>(self, guard: &'g Guard<'_, T, W>) -> Result<u64, Self>
        ensures rule { IfOk result (λ word. IsPointerWord word) }
        ensures word { IfOk result (λ word. BecomesWord T.ALIGN (λ name tag. IsSome name × (tag ≡ self.tag)) word) }
        ensures full { IfErr result (λ back. Unit {0} × (back ≡ self)) }
    {
        let Owned { value, tag } = self;
        match place_under(guard, value) {
            Ok(name) => Ok(pointer_word::<T>(Some(name), tag)),
            Err(Refused { fault: _, value }) => Err(Owned { value, tag }),
        }
    }

    #[inline(always)]
    fn back<W>(shared: Shared<'g, T>, guard: &'g Guard<'_, T, W>) -> Result<Self, Shared<'g, T>>
        ensures ok { IfOk result (λ back. IsSome shared.entry.name × (shared.entry.tag ≡ back.tag)) }
        ensures stuck { IfErr result (λ stuck. Unit {0} × (stuck ≡ shared.entry)) }
    {
        let Some(name) = shared.name else {
            return Err(shared);
        };
        match take_under(guard, name) {
            Some(value) => Ok(Owned {
                value,
                tag: shared.tag,
            }),
            None => Err(shared),
        }
    }
}

impl<T: Pointable + Drop> Owned<T> {
    /// Places the value in a cell, and returns the pointer to it, with the same tag.
    ///
    /// `CellsFull`: every slot was seen used or retired. The value is handed back. The clause `placed` tells by
    /// [`Placing`] that the value was placed under the pointer's name.
    #[inline(always)]
    pub fn into_shared<'g, W, M: Placing<T>>(
        self,
        guard: &'g Guard<'_, T, W>,
    ) -> Result<Shared<'g, T>, Refused<Owned<T>>>
    where
        T: HasPlacing<M>,
        ensures name { IfOk result (λ shared. IsSome shared.name) }
        // The pointer that `into_shared` returns has the name under which the value was placed.
        ensures placed { IfOk result (λ shared. IfSome shared.name (λ name. M.placed self.value.value name)) }

        ensures tag { IfOk result (λ shared. shared.tag ≡ self.tag) }
        ensures home { IfOk result (λ shared. IsUnder guard.now.collector.now.id shared.home) }
        ensures full { IfErr result (λ refused. refused.fault ≡ CellsFull) }
        ensures handed_back { IfErr result (λ refused. refused.value ≡ self) }
    {
        let Owned { value, tag } = self;
        match place_under(guard, value) {
            Ok(name) => Ok(Shared {
                name: Some(name),
                tag,
                home: Some(home_of(guard)),
            }),
            Err(Refused { fault, value }) => Err(Refused {
                fault,
                value: Owned { value, tag },
            }),
        }
    }
}
