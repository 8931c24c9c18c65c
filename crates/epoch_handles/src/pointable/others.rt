//! Further types of std whose values may stand in cells: numbers with a fraction, the unit, text that lives as long as
//! the program, pointers that own, atomics, and what is made of other such types.
ghost use Rattle.std.specs.Prelude.{◌≡◌, refl};
ghost use Rattle.std.proofs.Common.{lit≤};

use crate::Pointable;
use epoch_cells::Fault;
use std::alloc::Global;
use std::sync::Arc;
use std::sync::atomic::{AtomicBool, AtomicU32, AtomicU64, AtomicUsize};

impl Pointable for () {
    ghost ALIGN = { 1 };

    ghost log = { 0 };

    ghost is_power = { refl };

    ghost is_small = { lit≤ tt };

    const ALIGN: usize = 1;

    type Init = ();

    ghost init_gives = { λ init value. value ≡ init };

    fn init(_alloc: Global, init: ()) -> Result<(), Fault> {
        Ok(init)
    }
}

impl Pointable for f32 {
    ghost ALIGN = { 4 };

    ghost log = { 2 };

    ghost is_power = { refl };

    ghost is_small = { lit≤ tt };

    const ALIGN: usize = 4;

    type Init = f32;

    ghost init_gives = { λ init value. value ≡ init };

    fn init(_alloc: Global, init: f32) -> Result<f32, Fault> {
        Ok(init)
    }
}

impl Pointable for f64 {
    ghost ALIGN = { 8 };

    ghost log = { 3 };

    ghost is_power = { refl };

    ghost is_small = { lit≤ tt };

    const ALIGN: usize = 8;

    type Init = f64;

    ghost init_gives = { λ init value. value ≡ init };

    fn init(_alloc: Global, init: f64) -> Result<f64, Fault> {
        Ok(init)
    }
}

impl Pointable for &'static str {
    ghost ALIGN = { 8 };

    ghost log = { 3 };

    ghost is_power = { refl };

    ghost is_small = { lit≤ tt };

    const ALIGN: usize = 8;

    type Init = &'static str;

    ghost init_gives = { λ init value. value ≡ init };

    fn init(_alloc: Global, init: &'static str) -> Result<&'static str, Fault> {
        Ok(init)
    }
}

impl Pointable for AtomicBool {
    ghost ALIGN = { 1 };

    ghost log = { 0 };

    ghost is_power = { refl };

    ghost is_small = { lit≤ tt };

    const ALIGN: usize = 1;

    type Init = AtomicBool;

    ghost init_gives = { λ init value. value ≡ init };

    fn init(_alloc: Global, init: AtomicBool) -> Result<AtomicBool, Fault> {
        Ok(init)
    }
}

impl Pointable for AtomicU32 {
    ghost ALIGN = { 4 };

    ghost log = { 2 };

    ghost is_power = { refl };

    ghost is_small = { lit≤ tt };

    const ALIGN: usize = 4;

    type Init = AtomicU32;

    ghost init_gives = { λ init value. value ≡ init };

    fn init(_alloc: Global, init: AtomicU32) -> Result<AtomicU32, Fault> {
        Ok(init)
    }
}

impl Pointable for AtomicU64 {
    ghost ALIGN = { 8 };

    ghost log = { 3 };

    ghost is_power = { refl };

    ghost is_small = { lit≤ tt };

    const ALIGN: usize = 8;

    type Init = AtomicU64;

    ghost init_gives = { λ init value. value ≡ init };

    fn init(_alloc: Global, init: AtomicU64) -> Result<AtomicU64, Fault> {
        Ok(init)
    }
}

impl Pointable for AtomicUsize {
    ghost ALIGN = { 8 };

    ghost log = { 3 };

    ghost is_power = { refl };

    ghost is_small = { lit≤ tt };

    const ALIGN: usize = 8;

    type Init = AtomicUsize;

    ghost init_gives = { λ init value. value ≡ init };

    fn init(_alloc: Global, init: AtomicUsize) -> Result<AtomicUsize, Fault> {
        Ok(init)
    }
}

impl<E> Pointable for Box<E> {
    ghost ALIGN = { 8 };

    ghost log = { 3 };

    ghost is_power = { refl };

    ghost is_small = { lit≤ tt };

    const ALIGN: usize = 8;

    type Init = Box<E>;

    ghost init_gives = { λ init value. value ≡ init };

    fn init(_alloc: Global, init: Box<E>) -> Result<Box<E>, Fault> {
        Ok(init)
    }
}

impl<E> Pointable for Arc<E> {
    ghost ALIGN = { 8 };

    ghost log = { 3 };

    ghost is_power = { refl };

    ghost is_small = { lit≤ tt };

    const ALIGN: usize = 8;

    type Init = Arc<E>;

    ghost init_gives = { λ init value. value ≡ init };

    fn init(_alloc: Global, init: Arc<E>) -> Result<Arc<E>, Fault> {
        Ok(init)
    }
}

impl<E: Pointable> Pointable for Option<E> {
    ghost ALIGN = { E.ALIGN };

    ghost log = { E.log };

    ghost is_power = { E.is_power };

    ghost is_small = { E.is_small };

    const ALIGN: usize = E::ALIGN;

    type Init = Option<E>;

    ghost init_gives = { λ init value. value ≡ init };

    fn init(_alloc: Global, init: Option<E>) -> Result<Option<E>, Fault> {
        Ok(init)
    }
}

impl<A, B> Pointable for (A, B) {
    ghost ALIGN = { 8 };

    ghost log = { 3 };

    ghost is_power = { refl };

    ghost is_small = { lit≤ tt };

    const ALIGN: usize = 8;

    type Init = (A, B);

    ghost init_gives = { λ init value. value ≡ init };

    fn init(_alloc: Global, init: (A, B)) -> Result<(A, B), Fault> {
        Ok(init)
    }
}

impl<A, B, C> Pointable for (A, B, C) {
    ghost ALIGN = { 8 };

    ghost log = { 3 };

    ghost is_power = { refl };

    ghost is_small = { lit≤ tt };

    const ALIGN: usize = 8;

    type Init = (A, B, C);

    ghost init_gives = { λ init value. value ≡ init };

    fn init(_alloc: Global, init: (A, B, C)) -> Result<(A, B, C), Fault> {
        Ok(init)
    }
}

impl<E: Pointable, const N: usize> Pointable for [E; N] {
    ghost ALIGN = { E.ALIGN };

    ghost log = { E.log };

    ghost is_power = { E.is_power };

    ghost is_small = { E.is_small };

    const ALIGN: usize = E::ALIGN;

    type Init = [E; N];

    ghost init_gives = { λ init value. value ≡ init };

    fn init(_alloc: Global, init: [E; N]) -> Result<[E; N], Fault> {
        Ok(init)
    }
}
