//! The word of a pointer: `turn * 2^32 + slot * 2^8 + tag`, where null has slot 0 and turn 0.
ghost use Rattle.std.specs.Prelude.{◌≡◌, ◌≢◌, ◌%◌, IfOk, IfErr};
ghost use Rattle.epoch_atomic.specs.Pointers.{tagged_word, tag_in, HasName, IsPointerWord};
ghost use Rattle.epoch_atomic.specs.WordSteps.{WordStep};
ghost use Rattle.epoch_atomic.specs.WordSteps.WordStep.{Begins, Loads, Stores, Swaps, Exchanges, Misses, Ends};

use crate::{Pointable, tag_of};
use epoch_cells::Name;
use std::sync::atomic::{AtomicIn, Ordering, Rule};

/// The rule of a pointer's word, which threads share: null has turn 0.
pub struct PointerWord;

impl Rule for PointerWord {
    ghost invariant = { IsPointerWord };
}

/// A word that threads share, in which a pointer stands.
///
/// Each call makes one atomic step, which acts as `SeqCst`, whichever ordering is asked for.
pub trait SharedWord: Sized {
    /// This step was made on the word. If the type is a parameter, nothing but the calls below shows it.
    ghost did: { Self → WordStep → Type 0 };

    /// Makes a word that holds this number.
    fn begin(word: u64) -> Self
        requires rule { IsPointerWord word }
        ensures did { did result (Begins word) };

    /// Loads the number.
    fn load(&self, order: Ordering) -> u64
        ensures rule { IsPointerWord result }
        ensures did { did self.now (Loads result) };

    /// Stores this number.
    fn store(&self, word: u64, order: Ordering)
        requires rule { IsPointerWord word }
        ensures did { did self.now (Stores word) };

    /// Stores this number, and returns the one before.
    fn swap(&self, word: u64, order: Ordering) -> u64
        requires rule { IsPointerWord word }
        ensures before { IsPointerWord result }
        ensures did { did self.now (Swaps result word) };

    /// Stores `new` if the number is `expected`, and returns the number that it found. `Err`: it found another number,
    /// and nothing was stored.
    fn compare_exchange(
        &self,
        expected: u64,
        new: u64,
        success: Ordering,
        failure: Ordering,
    ) -> Result<u64, u64>
        requires rule { IsPointerWord new }
        ensures ok { IfOk result (λ found. found ≡ expected) }
        ensures err { IfErr result (λ found. (found ≢ expected) × IsPointerWord found) }
        ensures won { IfOk result (λ found. did self.now (Exchanges expected new)) }
        ensures lost { IfErr result (λ found. did self.now (Misses expected found)) };

    /// Gives the word up, and returns the number that it held last.
    fn end(self) -> u64
        ensures rule { IsPointerWord result }
        ensures did { did self (Ends result) };
}

impl SharedWord for AtomicIn<PointerWord> {
    ghost did = { λ _ _. Unit {0} };

    #[inline(always)]
    fn begin(word: u64) -> AtomicIn<PointerWord>
        requires rule { IsPointerWord word }
        ensures did { Unit {0} }
    {
        AtomicIn::new(word)
    }

    #[inline(always)]
    fn load(&self, order: Ordering) -> u64
        ensures rule { IsPointerWord result }
        ensures did { Unit {0} }
    {
        self.load(order)
    }

    #[inline(always)]
    fn store(&self, word: u64, order: Ordering)
        requires rule { IsPointerWord word }
        ensures did { Unit {0} }
    {
        self.store(word, order)
    }

    #[inline(always)]
    fn swap(&self, word: u64, order: Ordering) -> u64
        requires rule { IsPointerWord word }
        ensures before { IsPointerWord result }
        ensures did { Unit {0} }
    {
        self.swap(word, order)
    }

    #[inline(always)]
    fn compare_exchange(
        &self,
        expected: u64,
        new: u64,
        success: Ordering,
        failure: Ordering,
    ) -> Result<u64, u64>
        requires rule { IsPointerWord new }
        ensures ok { IfOk result (λ found. found ≡ expected) }
        ensures err { IfErr result (λ found. (found ≢ expected) × IsPointerWord found) }
        ensures won { IfOk result (λ found. Unit {0}) }
        ensures lost { IfErr result (λ found. Unit {0}) }
    {
        self.compare_exchange(expected, new, success, failure)
    }

    #[inline(always)]
    fn end(self) -> u64
        ensures rule { IsPointerWord result }
        ensures did { Unit {0} }
    {
        self.into_inner()
    }
}

/// Tells in which kind of word pointers to a type stand. There is one kind, and only this impl, so that
/// `Atomic::null()` and similar calls need no type.
pub trait HasWord<A> {}

impl<T> HasWord<AtomicIn<PointerWord>> for T {}

// The number that a pointer is compared by, and its word.
#[inline(always)]
pub fn number(name: Option<Name>, tag: u8) -> u64
    ensures value { result ≡ tagged_word name tag }
    ensures rule { IsPointerWord result }
    ensures name { HasName result name }
    ensures tag { tag_in result ≡ tag }
{
    match name {
        None => tag as u64,
        Some(name) => {
            name.turn() as u64 * 0x1_0000_0000 + name.slot() as u64 * 0x100 + tag as u64
        }
    }
}

// The word that is stored for a pointer, whose tag is taken modulo the alignment.
#[inline(always)]
pub fn pointer_word<T: Pointable>(name: Option<Name>, tag: u8) -> u64
    ensures value { result ≡ tagged_word name (tag % T.ALIGN) }
    ensures rule { IsPointerWord result }
    ensures name { HasName result name }
    ensures tag { tag_in result ≡ tag % T.ALIGN }
{
    number(name, tag_of::<T>(tag as usize))
}

/// Returns the name that stands in a pointer's number, or `None` if that is of a pointer that is null. It is this
/// library's own: crossbeam-epoch has no such call.
#[inline(always)]
pub fn name_in(number: u64) -> Option<Name>
    requires { IsPointerWord number }
    // What stands in a pointer's number is its name.
    ensures { HasName number result }
{
    let slot = number / 0x100 % 0x100_0000;
    Name::new(slot as u32, (number / 0x1_0000_0000) as u32)
}
