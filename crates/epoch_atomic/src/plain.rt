//! A wrapper by which a value of any type may stand behind a pointer.
ghost use Rattle.std.specs.Prelude.{◌≡◌, refl};
ghost use Rattle.std.proofs.Common.{lit≤};

use crate::Pointable;
use epoch_cells::Fault;
use std::alloc::Global;

/// A value of any type, to stand behind a pointer: for types of other crates, to which your crate can't give
/// [`Pointable`]. Its pointers have 8 tags.
///
/// `Owned::init(alloc, value)` makes one of the value itself, and `Owned::new(alloc, Plain { value })` does the same.
#[derive(Debug, Clone, Copy, PartialEq, Eq, Drop)]
pub struct Plain<T> {
    /// The value.
    pub value: T,
}

impl<T> Pointable for Plain<T> {
    ghost ALIGN = { 8 };

    ghost log = { 3 };

    ghost is_power = { refl };

    ghost is_small = { lit≤ tt };

    const ALIGN: usize = 8;

    type Init = T;

    ghost init_gives = { λ init plain. plain.value ≡ init };

    fn init(_alloc: Global, init: T) -> Result<Plain<T>, Fault> {
        Ok(Plain { value: init })
    }
}
