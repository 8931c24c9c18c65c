//! The types of std whose values may stand in cells: each is made from itself.
ghost use Rattle.std.specs.Prelude.{◌≡◌, refl};
ghost use Rattle.std.proofs.Common.{lit≤};

use crate::Pointable;
use epoch_cells::Fault;
use std::alloc::Global;

impl Pointable for u8 {
    ghost ALIGN = { 1 };

    ghost log = { 0 };

    ghost is_power = { refl };

    ghost is_small = { lit≤ tt };

    const ALIGN: usize = 1;

    type Init = u8;

    ghost init_gives = { λ init value. value ≡ init };

    fn init(_alloc: Global, init: u8) -> Result<u8, Fault> {
        Ok(init)
    }
}

impl Pointable for i8 {
    ghost ALIGN = { 1 };

    ghost log = { 0 };

    ghost is_power = { refl };

    ghost is_small = { lit≤ tt };

    const ALIGN: usize = 1;

    type Init = i8;

    ghost init_gives = { λ init value. value ≡ init };

    fn init(_alloc: Global, init: i8) -> Result<i8, Fault> {
        Ok(init)
    }
}

impl Pointable for bool {
    ghost ALIGN = { 1 };

    ghost log = { 0 };

    ghost is_power = { refl };

    ghost is_small = { lit≤ tt };

    const ALIGN: usize = 1;

    type Init = bool;

    ghost init_gives = { λ init value. value ≡ init };

    fn init(_alloc: Global, init: bool) -> Result<bool, Fault> {
        Ok(init)
    }
}

impl Pointable for u16 {
    ghost ALIGN = { 2 };

    ghost log = { 1 };

    ghost is_power = { refl };

    ghost is_small = { lit≤ tt };

    const ALIGN: usize = 2;

    type Init = u16;

    ghost init_gives = { λ init value. value ≡ init };

    fn init(_alloc: Global, init: u16) -> Result<u16, Fault> {
        Ok(init)
    }
}

impl Pointable for i16 {
    ghost ALIGN = { 2 };

    ghost log = { 1 };

    ghost is_power = { refl };

    ghost is_small = { lit≤ tt };

    const ALIGN: usize = 2;

    type Init = i16;

    ghost init_gives = { λ init value. value ≡ init };

    fn init(_alloc: Global, init: i16) -> Result<i16, Fault> {
        Ok(init)
    }
}

impl Pointable for u32 {
    ghost ALIGN = { 4 };

    ghost log = { 2 };

    ghost is_power = { refl };

    ghost is_small = { lit≤ tt };

    const ALIGN: usize = 4;

    type Init = u32;

    ghost init_gives = { λ init value. value ≡ init };

    fn init(_alloc: Global, init: u32) -> Result<u32, Fault> {
        Ok(init)
    }
}

impl Pointable for i32 {
    ghost ALIGN = { 4 };

    ghost log = { 2 };

    ghost is_power = { refl };

    ghost is_small = { lit≤ tt };

    const ALIGN: usize = 4;

    type Init = i32;

    ghost init_gives = { λ init value. value ≡ init };

    fn init(_alloc: Global, init: i32) -> Result<i32, Fault> {
        Ok(init)
    }
}

impl Pointable for char {
    ghost ALIGN = { 4 };

    ghost log = { 2 };

    ghost is_power = { refl };

    ghost is_small = { lit≤ tt };

    const ALIGN: usize = 4;

    type Init = char;

    ghost init_gives = { λ init value. value ≡ init };

    fn init(_alloc: Global, init: char) -> Result<char, Fault> {
        Ok(init)
    }
}

impl Pointable for u64 {
    ghost ALIGN = { 8 };

    ghost log = { 3 };

    ghost is_power = { refl };

    ghost is_small = { lit≤ tt };

    const ALIGN: usize = 8;

    type Init = u64;

    ghost init_gives = { λ init value. value ≡ init };

    fn init(_alloc: Global, init: u64) -> Result<u64, Fault> {
        Ok(init)
    }
}

impl Pointable for i64 {
    ghost ALIGN = { 8 };

    ghost log = { 3 };

    ghost is_power = { refl };

    ghost is_small = { lit≤ tt };

    const ALIGN: usize = 8;

    type Init = i64;

    ghost init_gives = { λ init value. value ≡ init };

    fn init(_alloc: Global, init: i64) -> Result<i64, Fault> {
        Ok(init)
    }
}

impl Pointable for usize {
    ghost ALIGN = { 8 };

    ghost log = { 3 };

    ghost is_power = { refl };

    ghost is_small = { lit≤ tt };

    const ALIGN: usize = 8;

    type Init = usize;

    ghost init_gives = { λ init value. value ≡ init };

    fn init(_alloc: Global, init: usize) -> Result<usize, Fault> {
        Ok(init)
    }
}

impl Pointable for isize {
    ghost ALIGN = { 8 };

    ghost log = { 3 };

    ghost is_power = { refl };

    ghost is_small = { lit≤ tt };

    const ALIGN: usize = 8;

    type Init = isize;

    ghost init_gives = { λ init value. value ≡ init };

    fn init(_alloc: Global, init: isize) -> Result<isize, Fault> {
        Ok(init)
    }
}

impl Pointable for u128 {
    ghost ALIGN = { 16 };

    ghost log = { 4 };

    ghost is_power = { refl };

    ghost is_small = { lit≤ tt };

    const ALIGN: usize = 16;

    type Init = u128;

    ghost init_gives = { λ init value. value ≡ init };

    fn init(_alloc: Global, init: u128) -> Result<u128, Fault> {
        Ok(init)
    }
}

impl Pointable for i128 {
    ghost ALIGN = { 16 };

    ghost log = { 4 };

    ghost is_power = { refl };

    ghost is_small = { lit≤ tt };

    const ALIGN: usize = 16;

    type Init = i128;

    ghost init_gives = { λ init value. value ≡ init };

    fn init(_alloc: Global, init: i128) -> Result<i128, Fault> {
        Ok(init)
    }
}

impl Pointable for String {
    ghost ALIGN = { 8 };

    ghost log = { 3 };

    ghost is_power = { refl };

    ghost is_small = { lit≤ tt };

    const ALIGN: usize = 8;

    type Init = String;

    ghost init_gives = { λ init value. value ≡ init };

    fn init(_alloc: Global, init: String) -> Result<String, Fault> {
        Ok(init)
    }
}

impl<E> Pointable for Vec<E> {
    ghost ALIGN = { 8 };

    ghost log = { 3 };

    ghost is_power = { refl };

    ghost is_small = { lit≤ tt };

    const ALIGN: usize = 8;

    type Init = Vec<E>;

    ghost init_gives = { λ init value. value ≡ init };

    fn init(_alloc: Global, init: Vec<E>) -> Result<Vec<E>, Fault> {
        Ok(init)
    }
}
