//! Pointers to values in cells, which threads share: tags, exchanges, and values taken back.
//!
//! Each call on an [`Atomic`] makes one atomic step on its word, except those that try an exchange again. Each step
//! acts as `SeqCst`, whichever ordering is asked for. No call on an existing `Atomic` or a [`Shared`] waits. None
//! takes memory, but for [`Atomic::into_owned`], whose guard may take it for a list of the cells that it keeps.
ghost use Rattle.std.specs.Prelude.{◌≡◌, ◌<◌, ◌%◌, ◌⊎◌, IfSome, IfOk, IfErr, OnOk};
ghost use Rattle.epoch_cells.specs.declared.fault.Fault.TheVariants.{CellsFull, NoMemory};
ghost use Rattle.epoch_atomic.specs.Pointers.{IsPointerWord, Reads, IsRead, IsUnder};
ghost use Rattle.epoch_atomic.specs.WordSteps.{BeginsNamed, BeginsWith, CopiesWord};
ghost use Rattle.epoch_atomic.specs.WordSteps.{LoadsPointer, StoresPointer, SwapsPointer, EndsOwned};
ghost use Rattle.epoch_atomic.specs.WordSteps.WordStep.{Begins};

mod at_home;
mod borrow;
mod destroy;
mod exchange;
mod laws;
mod owned;
mod pointer;
mod shared;
mod shown;
mod update;
mod word;

use crate::tag_of;
pub use crate::{Array, CompareAndSetOrdering, Plain, Pointable};
use at_home::read_at;
pub use borrow::{Borrow, BorrowMut};
pub use destroy::{DeferDestroy, DestroyNow};
use epoch_cells::{Fault, Refused};
use epoch_handles::{Guard, home_of};
pub use exchange::{CompareAndSetError, CompareExchangeError, ExchangeFault};
pub use laws::equal_numbers_are_of_one_pointer;
pub use owned::Owned;
pub use pointer::Pointer;
pub use shared::Shared;
use std::alloc::{AllocError, Global};
use std::fmt;
use std::fmt::Debug;
use std::marker::PhantomData;
use std::sync::atomic::{AtomicIn, Ordering};
pub use update::UpdateFault;
use word::pointer_word;
pub use word::{HasWord, PointerWord, SharedWord, name_in};

/// A pointer with a tag that threads share: null, or the name of a value in a cell.
///
/// It isn't tied to a collector: each call is made under a guard of the collector that has the values. Dropping an
/// `Atomic` leaves the value in its cell.
///
/// `A` is the kind of its word. There is one kind, and no caller names it: [`HasWord`]. The clauses tell by
/// [`SharedWord`] what a call did to the word.
#[derive(Drop)]
pub struct Atomic<T, A = AtomicIn<PointerWord>> {
    word: A,
    of: PhantomData<T>,
}

// The pointer that stands in a word, as it is read under this guard.
#[inline(always)]
fn read<'g, T: Pointable, W>(word: u64, guard: &'g Guard<'_, T, W>) -> Shared<'g, T>
    requires { IsPointerWord word }
    ensures reads { Reads T.ALIGN word result.name result.tag }
    ensures below { result.tag < T.ALIGN }
    ensures home { IsUnder guard.now.collector.now.id result.home }
{
    read_at(word, home_of(guard))
}

impl<T: Pointable + HasWord<A>, A: SharedWord> Atomic<T, A> {
    /// Makes a null pointer, with tag 0.
    pub fn null() -> Atomic<T, A>
        // An `Atomic` begins with null, or with the word of the pointer that it is made from.
        ensures did { A.did result.word (Begins 0) }
    {
        Atomic {
            word: A::begin(0),
            of: PhantomData,
        }
    }
}

impl<T: Pointable, A: SharedWord> Atomic<T, A> {
    /// Loads the pointer. The load acts as `SeqCst`, whichever ordering is asked for.
    #[inline(always)]
    pub fn load<'g, W>(&self, order: Ordering, guard: &'g Guard<'_, T, W>) -> Shared<'g, T>
        ensures read { IsRead T.ALIGN result.name result.tag }
        ensures below { result.tag < T.ALIGN }
        ensures home { IsUnder guard.now.collector.now.id result.home }
        ensures did { LoadsPointer T.ALIGN (A.did self.now.word) result.name result.tag }
    {
        read(self.word.load(order), guard)
    }

    /// Loads the pointer, as [`Atomic::load`] does, without an ordering.
    pub fn load_consume<'g, W>(&self, guard: &'g Guard<'_, T, W>) -> Shared<'g, T>
        ensures read { IsRead T.ALIGN result.name result.tag }
        ensures below { result.tag < T.ALIGN }
        ensures home { IsUnder guard.now.collector.now.id result.home }
        // Each call makes the atomic step that its name says, on the word of its `Atomic`. A load found the
        // pointer that is returned there.
        ensures did { LoadsPointer T.ALIGN (A.did self.now.word) result.name result.tag }
    {
        self.load(Ordering::Acquire, guard)
    }

    /// Stores a pointer, or an owned value, which is placed in a cell first.
    ///
    /// If the cells are full, the owned value comes back, and nothing was stored. The value of the pointer before stays
    /// in its cell: to destroy it, use [`Atomic::swap`], which returns that pointer. The store acts as `SeqCst`,
    /// whichever ordering is asked for.
    #[inline(always)]
    pub fn store<'g, P: Pointer<'g, T>, W>(
        &self,
        new: P,
        order: Ordering,
        guard: &'g Guard<'_, T, W>,
    ) -> Result<(), P>
        ensures full { IfErr result (λ back. P.takes_cell × (back ≡ new)) }
        ensures did { OnOk result (StoresPointer T.ALIGN (A.did self.now.word) (P.becomes new)) }
    {
        let word = new.enter_word(guard)?;
        self.word.store(word, order);
        Ok(())
    }

    /// Stores a pointer, or an owned value, which is placed in a cell first, and returns the pointer before.
    ///
    /// If the cells are full, the owned value comes back, and nothing was stored. The swap acts as `SeqCst`, whichever
    /// ordering is asked for.
    #[inline(always)]
    pub fn swap<'g, P: Pointer<'g, T>, W>(
        &self,
        new: P,
        order: Ordering,
        guard: &'g Guard<'_, T, W>,
    ) -> Result<Shared<'g, T>, P>
        ensures read { IfOk result (λ before. IsRead T.ALIGN before.name before.tag) }
        ensures below { IfOk result (λ before. before.tag < T.ALIGN) }
        ensures home { IfOk result (λ before. IsUnder guard.now.collector.now.id before.home) }
        // If the cells are full, an owned value comes back exactly as it was. A pointer is never refused.
        ensures full { IfErr result (λ back. P.takes_cell × (back ≡ new)) }

        // A store that is done is one store of the word of the pointer given. A swap that is done is one swap, which
        // found the previous pointer and left the word of the pointer given.
        ensures did { IfOk result (SwapsPointer T.ALIGN (A.did self.now.word) (P.becomes new)) }
    {
        let word = new.enter_word(guard)?;
        Ok(read(self.word.swap(word, order), guard))
    }
}

impl<T: Pointable + HasWord<A> + Drop, A: SharedWord> Atomic<T, A> {
    /// Places this value in a cell, and makes a pointer to it, with tag 0.
    ///
    /// `NoMemory`: an allocation was refused. `CellsFull`: every slot was seen used or retired. In both cases the value
    /// is dropped.
    pub fn new<W>(alloc: Global, value: T, guard: &Guard<'_, T, W>) -> Result<Atomic<T, A>, Fault>
        ensures did { IfOk result (λ atomic. BeginsNamed T.ALIGN (A.did atomic.word) 0) }
        ensures refused { IfErr result (λ fault. (fault ≡ NoMemory) ⊎ (fault ≡ CellsFull)) }
    {
        match Atomic::from_owned(Owned::new_under(alloc, value, guard)?, guard) {
            Ok(atomic) => Ok(atomic),
            Err(Refused { fault, value: _ }) => Err(fault),
        }
    }

    /// Places the value that [`Pointable::init`] makes in a cell, and makes a pointer to it, with tag 0.
    ///
    /// `NoMemory`: an allocation was refused. `CellsFull`: every slot was seen used or retired. In both cases the value
    /// is dropped.
    pub fn init<W>(
        alloc: Global,
        init: T::Init,
        guard: &Guard<'_, T, W>,
    ) -> Result<Atomic<T, A>, Fault>
        ensures did { IfOk result (λ atomic. BeginsNamed T.ALIGN (A.did atomic.word) 0) }
        ensures refused { IfErr result (λ fault. (fault ≡ NoMemory) ⊎ (fault ≡ CellsFull)) }
    {
        match Atomic::from_owned(Owned::init(alloc, init)?, guard) {
            Ok(atomic) => Ok(atomic),
            Err(Refused { fault, value: _ }) => Err(fault),
        }
    }

    /// Places this value in a cell, and makes a pointer to it, with the same tag.
    ///
    /// `CellsFull`: every slot was seen used or retired. The value is handed back.
    pub fn from_owned<W>(
        owned: Owned<T>,
        guard: &Guard<'_, T, W>,
    ) -> Result<Atomic<T, A>, Refused<Owned<T>>>
        // An `Atomic` that is made from a value begins with the word of a name, and of the value's tag.
        ensures did { IfOk result (λ atomic. BeginsNamed T.ALIGN (A.did atomic.word) owned.tag) }

        ensures full { IfErr result (λ refused. refused.fault ≡ CellsFull) }
        ensures handed_back { IfErr result (λ refused. refused.value ≡ owned) }
    {
        let shared = owned.into_shared(guard)?;
        Ok(Atomic::from(shared))
    }
}

impl<T: Pointable + Drop, A: SharedWord> Atomic<T, A> {
    /// Takes the value out of its cell, with the pointer's tag. This is how the last owner takes a structure apart,
    /// since dropping an `Atomic` leaves its value in the cell. The cell is kept for the next value that is placed
    /// under the guard.
    ///
    /// The guard must be of the collector that has the value. `None`: the pointer is null, whatever its tag is; or its
    /// value is gone, or is read or written.
    pub fn try_into_owned<W>(self, guard: &Guard<'_, T, W>) -> Option<Owned<T>>
        ensures below { IfSome result (λ owned. owned.tag < T.ALIGN) }
        // A value that `into_owned` or `try_into_owned` of an `Atomic` returns has the tag that stood in the word, and
        // some name stood there.
        ensures did { EndsOwned T.ALIGN (A.did self.word) result }
    {
        let Atomic { word, of: _ } = self;
        read(word.end(), guard).taken_under(guard)
    }

    /// Does what [`Atomic::try_into_owned`] does.
    pub fn into_owned<W>(self, guard: &Guard<'_, T, W>) -> Option<Owned<T>>
        ensures below { IfSome result (λ owned. owned.tag < T.ALIGN) }
        ensures did { EndsOwned T.ALIGN (A.did self.word) result }
    {
        self.try_into_owned(guard)
    }
}

impl<'g, T: Pointable + HasWord<A>, A: SharedWord> From<Shared<'g, T>> for Atomic<T, A> {
    ghost from_gives = { λ shared atomic. BeginsWith T.ALIGN (A.did atomic.word) shared };

    fn from(shared: Shared<'g, T>) -> Atomic<T, A> {
        Atomic {
            word: A::begin(pointer_word::<T>(shared.name, shared.tag)),
            of: PhantomData,
        }
    }
}

impl<T: Pointable + HasWord<A>, A: SharedWord> Default for Atomic<T, A> {
    ghost is_default = { λ atomic. A.did atomic.word (Begins 0) };

    fn default() -> Atomic<T, A> {
        Atomic::null()
    }
}

impl<T: Pointable, A: SharedWord + Drop> Clone for Atomic<T, A> {
    ghost is_clone = { λ source twin. CopiesWord (A.did source.word) (A.did twin.word) };

    ghost is_infallible = { λ _. Unit {0} };

    /// Makes an `Atomic` that begins with what one load of this one found.
    fn clone(&self) -> Result<Atomic<T, A>, AllocError> {
        Ok(Atomic {
            word: A::begin(self.word.load(Ordering::Relaxed)),
            of: PhantomData,
        })
    }
}

impl<T: Pointable> Debug for Atomic<T> {
    fn fmt<F: fmt::Write>(&self, f: &mut fmt::Formatter<F>) -> fmt::Result {
        let word = self.word.load(Ordering::SeqCst);
        f.debug_struct("Atomic")
            .field("name", &name_in(word))
            .field("tag", &tag_of::<T>((word % 0x100) as usize))
            .finish_non_exhaustive()
    }
}
