//! Looks that are kept: while a pointer leads to the same value, it is lent again without a look at its cell.
ghost use Rattle.std.specs.Prelude.{◌≡◌, IfSome};
ghost use Rattle.std.specs.Option.{ForSome};
ghost use Rattle.epoch_lend_pointers.specs.Steps.{LendsLoaded, LendsNumbered};
ghost use Rattle.epoch_lend_pointers.specs.Steps.StoreStep.{Lends};

use crate::steps::{HasStoreSteps, StoreSteps};
use crate::store::Store;
use epoch_atomic::Pointable;
use epoch_atomic::atomic::{Atomic, SharedWord, name_in};
use epoch_cells::Name;
use epoch_lend::readers::posts::PostSet;
use epoch_lend::session::LendingGuard;
use std::marker::PhantomData;
use std::sync::atomic::Ordering::SeqCst;

/// The value that was got last under one guard, kept for the next time: [`Store::cached`].
///
/// It is for a pointer that is read much more often than it changes. A read loads the pointer, and if that leads to the
/// same value as the last time, nothing else is loaded but the value. It holds nothing back that the guard doesn't.
#[derive(Drop)]
pub struct Cached<'g, 's, 'd, J: PostSet, T: Drop, M: StoreSteps<T>> {
    store: &'g Store<'s, J, T>,
    guard: &'g LendingGuard<'d, J>,
    // The number of the pointer that led to the value. 0: there is no value.
    number: u64,
    value: Option<&'g T>,
    steps: PhantomData<M>,
    ghost found: { ForSome value (λ value. ∥ LendsNumbered (M.did J.posts store.now.number) number value.now ∥₁) },
}

impl<'s, J: PostSet, T: Drop> Store<'s, J, T> {
    /// Keeps the last value that is got under this guard, for the next time.
    #[inline(always)]
    pub fn cached<'g, 'd, M: StoreSteps<T>>(
        &'g self,
        guard: &'g LendingGuard<'d, J>,
    ) -> Cached<'g, 's, 'd, J, T, M>
    where
        T: HasStoreSteps<M>,
        // What is cached is of the store that it was made for.
        ensures store { result.store.now ≡ self.now }
    {
        Cached {
            store: self,
            guard,
            number: 0,
            value: None,
            steps: PhantomData,
        }
    }
}

impl<'g, 's, 'd, J: PostSet, T: Pointable + Drop, M: StoreSteps<T>> Cached<'g, 's, 'd, J, T, M> {
    /// Loads the pointer, and lends its value, as [`Store::load`] and [`Store::get`] do. The cell is looked at only if
    /// the pointer leads to another value than the last time.
    ///
    /// `None`: the pointer is null; or its value was retired, and each pin from before is over.
    #[inline(always)]
    pub fn get<A: SharedWord>(&mut self, at: &Atomic<T, A>) -> Option<&'g T>
    where
        T: HasStoreSteps<M>,
        ensures store { self.new.store ≡ self.old.store }
        // A value that is lent by what is cached was found in the store, under the name that this call loaded.
        ensures did { IfSome result (λ value. ∥ LendsLoaded T.ALIGN (A.did at.now.word)
            (M.did J.posts self.old.store.now.number) value.now ∥₁) }
    {
        let number = at.load_number(SeqCst);
        if let Some(value) = self.kept(number) {
            return Some(value);
        }
        let name = name_in(number)?;
        let value = look_apart::<J, T, M>(self.store, name, self.guard)?;
        self.number = number;
        self.value = Some(value);
        Some(value)
    }

    /// Loads the pointer, and lends its value if that was got by this very pointer. `None`: it has changed since, if
    /// only its tag, or is null. A caller then renews its guard, which holds back what was there before.
    #[inline(always)]
    pub fn unchanged<A: SharedWord>(&self, at: &Atomic<T, A>) -> Option<&'g T>
    where
        T: HasStoreSteps<M>,
        ensures did { IfSome result (λ value. ∥ LendsLoaded T.ALIGN (A.did at.now.word)
            (M.did J.posts self.now.store.now.number) value.now ∥₁) }
    {
        self.kept(at.load_number(SeqCst))
    }

    // Lends the value that was got last, if that was under the name in this number.
    #[inline(always)]
    fn kept(&self, number: u64) -> Option<&'g T>
    where
        T: HasStoreSteps<M>,
        ensures { IfSome result (λ value.
            ∥ LendsNumbered (M.did J.posts self.now.store.now.number) number value.now ∥₁) }
    {
        if number == self.number {
            self.value
        } else {
            None
        }
    }
}

// Looks for a name. It has a copy of its own, so that what is cached stays in registers.
#[cold]
#[inline(never)]
fn look_apart<'g, J: PostSet, T: Drop, M: StoreSteps<T>>(
    store: &Store<'_, J, T>,
    name: Name,
    guard: &'g LendingGuard<'_, J>,
) -> Option<&'g T>
where
    T: HasStoreSteps<M>,
    ensures { IfSome result (λ value. M.did J.posts store.now.number (Lends name value.now)) }
{
    store.get_named(name, guard)
}
