//! The small value of the rows that read and replace.
ghost use Rattle.std.specs.Prelude.{◌≡◌, refl};
ghost use Rattle.std.proofs.Common.{lit≤};

use epoch_atomic::atomic::Pointable;
use epoch_cells::Fault;
use std::alloc::Global;

/// After so many reads, the first thread replaces the value.
pub const READS: u64 = 1_024;

/// Four words, as a small configuration has.
#[derive(Clone, Copy)]
pub struct Small {
    words: [u64; 4],
}

impl Small {
    #[inline(always)]
    pub fn of(word: u64) -> Small {
        Small {
            words: [word, word, word, word],
        }
    }

    /// Returns whether the words are equal, as they were made.
    pub fn is_whole(&self) -> bool {
        let [first, second, third, fourth] = self.words;
        first == second && third == fourth && first == third
    }

    #[inline(always)]
    pub fn sum(&self) -> u64 {
        let [first, second, third, fourth] = self.words;
        first
            .wrapping_add(second)
            .wrapping_add(third)
            .wrapping_add(fourth)
    }
}

/// How many reads were done, if what they summed up can be of values with four equal words.
pub fn whole(sum: u64, done: u64) -> u64 {
    if sum % 4 == 0 { done } else { 0 }
}

impl Pointable for Small {
    ghost ALIGN = { 8 };

    ghost log = { 3 };

    ghost is_power = { refl };

    ghost is_small = { lit≤ tt };

    const ALIGN: usize = 8;

    type Init = Small;

    ghost init_gives = { λ init value. value ≡ init };

    fn init(_alloc: Global, init: Small) -> Result<Small, Fault> {
        Ok(init)
    }
}
