//! Types whose values may stand in cells.
ghost use Rattle.std.specs.Prelude.{◌≡◌, ℕ, ◌<◌, ◌≤◌, ◌%◌, ◌^◌, IfOk, IsOkUnless};
ghost use Rattle.epoch_cells.specs.declared.fault.Fault.TheVariants.{NoMemory};

mod others;
mod values;

use epoch_cells::Fault;
use std::alloc::Global;

/// A type whose values can stand behind pointers. It says how many tags the pointers have, and how a value is made.
///
/// To implement it for a type of your own, choose a power of two for `ALIGN`, state the exponent `log` and the two
/// facts about it, and write `init`: docs/STRUCTURES.md has an example. Put a value of another crate's type into
/// `Plain` of `epoch_atomic`. In crossbeam-epoch every type implements this trait.
pub trait Pointable {
    ghost ALIGN: { ℕ };

    // `ALIGN` is two to this power.
    ghost log: { ℕ };

    /// How many tags a pointer has: a power of two from 1 to 256. A tag is taken modulo this number.
    const ALIGN: usize;

    /// What [`Pointable::init`] makes a value from.
    type Init;

    // What `init` makes.
    ghost init_gives: { Self.Init → Self → Type 0 };

    /// Makes a value.
    ///
    /// `NoMemory`: an allocation was refused.
    fn init(alloc: Global, init: Self::Init) -> Result<Self, Fault>
    where
        Self: Sized,
        ensures memory { IsOkUnless result NoMemory }
        ensures gives { IfOk result (λ value. init_gives init value) };

    ghost is_power: { ALIGN ≡ 2 ^ log };

    ghost is_small: { log ≤ 8 };
}

/// Returns the tag modulo the alignment, as the byte that a word has for it.
#[inline(always)]
pub fn tag_of<T: Pointable>(tag: usize) -> u8
    ensures below { result < T.ALIGN }
    // A type behind pointers has a number of tags that is a power of two, at most 256. A tag is taken modulo that
    // number.
    ensures value { result ≡ tag % T.ALIGN }
{
    remainder::<T>(tag) as u8
}

#[inline(always)]
fn remainder<T: Pointable>(tag: usize) -> usize
    ensures below { result < T.ALIGN }
    ensures value { result ≡ tag % T.ALIGN }
{
    tag % T::ALIGN
}
