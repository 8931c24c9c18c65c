//! Pointers whose home is given. A caller that has no guard of a collector says with a [`Home`] where their values are.
//!
//! Each call makes one atomic step, as the call does that takes a guard. Nothing here asks for a guard, so the caller
//! sees to it that a value is looked at only while it stands in its cell.
ghost use Rattle.std.specs.Prelude.{◌≡◌, ◌<◌, ◌%◌, IsNone, IfSome, IfOk, IfErr, Some, None};
ghost use Rattle.epoch_atomic.specs.Pointers.{IsPointerWord, Reads, IsRead, IsUnder};
ghost use Rattle.epoch_atomic.specs.WordSteps.{LoadsPointer, LoadsNumber, SwapsWord};
ghost use Rattle.epoch_atomic.specs.WordSteps.{ExchangesPointer, MissesPointer, word_for};
ghost use Rattle.epoch_atomic.specs.WordSteps.WordStep.{Stores};
ghost use Rattle.epoch_atomic.specs.Exchanges.{FindsAnother};

use crate::atomic::Atomic;
use crate::atomic::shared::Shared;
use crate::atomic::word::{SharedWord, name_in, pointer_word};
use crate::{Pointable, tag_of};
use epoch_cells::Name;
use epoch_handles::Home;
use std::sync::atomic::Ordering;

// The pointer that stands in a word, as one of this home.
#[inline(always)]
pub(crate) fn read_at<'g, T: Pointable>(word: u64, home: Home<'g, T>) -> Shared<'g, T>
    requires { IsPointerWord word }
    ensures reads { Reads T.ALIGN word result.name result.tag }
    ensures below { result.tag < T.ALIGN }
    ensures home { result.home ≡ Some home.entry }
{
    Shared {
        name: name_in(word),
        tag: tag_of::<T>((word % 0x100) as usize),
        home: Some(home),
    }
}

impl<'g, T> Shared<'g, T> {
    /// Returns the pointer to the value that was placed under this name, with tag 0.
    ///
    /// The home must be that of the name: else no value is found under it, or another one.
    #[inline(always)]
    pub fn named_at(name: Name, home: Home<'g, T>) -> Shared<'g, T>
        ensures name { result.name ≡ Some name }
        ensures tag { result.tag ≡ 0 }
        ensures home { result.home ≡ Some home.entry }
    {
        Shared {
            name: Some(name),
            tag: 0,
            home: Some(home),
        }
    }

    /// Returns the number of its home. `None`: it has none, as [`Shared::null`].
    #[inline(always)]
    pub fn home_id(&self) -> Option<u64>
        ensures some { IfSome result (λ id. IsUnder id self.now.home) }
        ensures none { IsNone result → self.now.home ≡ None }
    {
        match self.home {
            Some(home) => Some(home.id),
            None => None,
        }
    }
}

impl<T: Pointable, A: SharedWord> Atomic<T, A> {
    /// Loads the pointer, as one of this home. The load acts as `SeqCst`, whichever ordering is asked for.
    #[inline(always)]
    pub fn load_at<'g>(&self, order: Ordering, home: Home<'g, T>) -> Shared<'g, T>
        ensures read { IsRead T.ALIGN result.name result.tag }
        ensures below { result.tag < T.ALIGN }
        ensures home { result.home ≡ Some home.entry }
        ensures did { LoadsPointer T.ALIGN (A.did self.now.word) result.name result.tag }
    {
        read_at(self.word.load(order), home)
    }

    /// Loads the pointer's number, in which its name and its tag stand. Pointers with one name and one tag have one
    /// number, all others have others, and null with tag 0 has 0. So it tells whether a pointer is the same as before.
    /// The load acts as `SeqCst`, whichever ordering is asked for. It is this library's own: crossbeam-epoch has no
    /// such call.
    #[inline(always)]
    pub fn load_number(&self, order: Ordering) -> u64
        // A load of a pointer's number loads the pointer's word, and returns it.
        ensures did { LoadsNumber (A.did self.now.word) result }
    {
        self.word.load(order)
    }

    /// Stores a pointer. The value of the pointer before stays in its cell. The store acts as `SeqCst`, whichever
    /// ordering is asked for.
    #[inline(always)]
    pub fn store_at(&self, new: Shared<'_, T>, order: Ordering)
        ensures did { A.did self.now.word (Stores (word_for T.ALIGN new.entry)) }
    {
        self.word.store(pointer_word::<T>(new.name, new.tag), order);
    }

    /// Stores a pointer, and returns the pointer before, as one of this home. The swap acts as `SeqCst`, whichever
    /// ordering is asked for.
    #[inline(always)]
    pub fn swap_at<'g>(
        &self,
        new: Shared<'_, T>,
        order: Ordering,
        home: Home<'g, T>,
    ) -> Shared<'g, T>
        // The calls that are given a pointer's home instead of a guard make the same steps, and the pointers that they
        // return are of that home.
        ensures read { IsRead T.ALIGN result.name result.tag }
        ensures below { result.tag < T.ALIGN }
        ensures home { result.home ≡ Some home.entry }
        ensures did { SwapsWord T.ALIGN (A.did self.now.word) new.entry result }
    {
        let word = pointer_word::<T>(new.name, new.tag);
        let found = self.word.swap(word, order);
        read_at(found, home)
    }

    /// Stores `new` if the pointer is `current`, with the same tag, and returns the pointer that it wrote, as one of
    /// this home.
    ///
    /// `Err`: another pointer, or another tag, was found, which is returned; nothing was stored. The exchange acts as
    /// `SeqCst`, whichever orderings are asked for.
    #[inline(always)]
    pub fn compare_exchange_at<'g>(
        &self,
        current: Shared<'_, T>,
        new: Shared<'_, T>,
        success: Ordering,
        failure: Ordering,
        home: Home<'g, T>,
    ) -> Result<Shared<'g, T>, Shared<'g, T>>
        ensures name { IfOk result (λ written. written.name ≡ new.entry.name) }
        ensures tag { IfOk result (λ written. written.tag ≡ new.entry.tag % T.ALIGN) }
        ensures below { IfOk result (λ written. written.tag < T.ALIGN) }
        ensures changed { IfErr result (FindsAnother T.ALIGN current.entry) }
        ensures won { IfOk result (ExchangesPointer T.ALIGN (A.did self.now.word) current.entry) }
        ensures lost { IfErr result (MissesPointer T.ALIGN (A.did self.now.word) current.entry) }
        ensures home { IfOk result (λ written. written.home ≡ Some home.entry) }
        ensures found_home { IfErr result (λ found. found.home ≡ Some home.entry) }
    {
        let expected = pointer_word::<T>(current.name, current.tag);
        let word = pointer_word::<T>(new.name, new.tag);
        match self.exchange_word(expected, word, success, failure) {
            Ok(_) => Ok(Shared {
                name: new.name,
                tag: tag_of::<T>(new.tag as usize),
                home: Some(home),
            }),
            Err(found) => Err(read_at(found, home)),
        }
    }
}
