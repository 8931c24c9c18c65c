//! Values that count their drops.
ghost use Rattle.std.specs.Prelude.{◌≡◌, refl};
ghost use Rattle.std.proofs.Common.{lit≤};

use epoch_atomic::atomic::Pointable;
use epoch_cells::Fault;
use std::alloc::{AllocError, Global};
use std::sync::Arc;
use std::sync::atomic::AtomicU64;
use std::sync::atomic::Ordering::SeqCst;

/// A number, and beside it twice the number and one more. When it is dropped, the count of its number goes up.
pub(crate) struct Probe {
    pub(crate) number: usize,
    pub(crate) second: usize,
    counts: Option<Counts>,
}

/// A count for each number.
pub(crate) type Counts = Arc<Vec<AtomicU64>>;

impl Probe {
    pub(crate) fn new(number: usize, counts: &Counts) -> Probe {
        Probe {
            number,
            second: number.wrapping_mul(2).wrapping_add(1),
            counts: Arc::try_clone(counts).ok(),
        }
    }

    /// Whether it is as it was made, and was not dropped.
    pub(crate) fn is_whole(&self) -> bool {
        let drops = match &self.counts {
            Some(counts) => drops_of(counts, self.number),
            None => 0,
        };
        drops == 0 && self.second == self.number.wrapping_mul(2).wrapping_add(1)
    }
}

impl Drop for Probe {
    fn drop(self) {
        let Probe {
            number,
            second: _,
            counts,
        } = self;
        if let Some(counts) = counts {
            if let Some(count) = counts.get(number) {
                count.fetch_add(1, SeqCst);
            }
        }
    }
}

impl Pointable for Probe {
    ghost ALIGN = { 8 };

    ghost log = { 3 };

    ghost is_power = { refl };

    ghost is_small = { lit≤ tt };

    const ALIGN: usize = 8;

    type Init = Probe;

    ghost init_gives = { λ init probe. probe ≡ init };

    fn init(_alloc: Global, init: Probe) -> Result<Probe, Fault> {
        Ok(init)
    }
}

/// How often the value of this number was dropped.
pub(crate) fn drops_of(counts: &Counts, number: usize) -> u64 {
    match counts.get(number) {
        Some(count) => count.load(SeqCst),
        None => 0,
    }
}

/// How many of these values were dropped once.
pub(crate) fn dropped_once(counts: &Counts) -> u64 {
    let mut once: u64 = 0;
    for number in 0..counts.len() {
        if drops_of(counts, number) == 1 {
            once = once.wrapping_add(1);
        }
    }
    once
}

/// This many counts, each 0.
pub(crate) fn counts_for(alloc: Global, values: usize) -> Result<Counts, AllocError> {
    let mut counts = Vec::with_capacity(alloc, values)?;
    for _ in 0..values {
        counts.push(AtomicU64::new(0)).map_err(|_| AllocError)?;
    }
    Arc::new(alloc, counts).map_err(|_| AllocError)
}
