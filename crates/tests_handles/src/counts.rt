//! Counts, and the jobs and values that count what happens to them.
ghost use Rattle.std.specs.Prelude.{◌≡◌, refl};
ghost use Rattle.std.proofs.Common.{lit≤};

use crate::wants::want_ok;
use epoch::atomic::Pointable;
use epoch::{Fault, Job, Work};
use std::alloc::Global;
use std::process::Abort;
use std::sync::Arc;
use std::sync::atomic::AtomicU64;
use std::sync::atomic::Ordering::SeqCst;

/// A count of calls, or of drops, that stands at 0.
pub(crate) fn count(rt: &impl Abort, alloc: Global) -> Arc<AtomicU64> {
    want_ok(rt, "memory for a count", Arc::new(alloc, AtomicU64::new(0)))
}

/// A job that adds this number to the count.
pub(crate) fn counting_job(
    rt: &impl Abort,
    alloc: Global,
    count: &Arc<AtomicU64>,
    amount: u64,
) -> Job {
    let inner = want_ok(rt, "room for one more owner", count.clone());
    let made = Box::new(alloc, move || {
        inner.fetch_add(amount, SeqCst);
    });
    let run = want_ok(rt, "memory for a job", made);
    Job::Call(Work { run })
}

/// A job that appends its digit to the number of those that were called. It owns a value that counts its own drop.
pub(crate) fn noting_job(
    rt: &impl Abort,
    alloc: Global,
    called: &Arc<AtomicU64>,
    digit: u64,
    owned: Counted,
) -> Job {
    let inner = want_ok(rt, "room for one more owner", called.clone());
    let made = Box::new(alloc, move || {
        let _owned = owned;
        let before = inner.load(SeqCst);
        inner.store(before.wrapping_mul(10).wrapping_add(digit), SeqCst);
    });
    let run = want_ok(rt, "memory for a job", made);
    Job::Call(Work { run })
}

/// A value that counts its own drop by its number.
pub(crate) struct Counted {
    drops: Arc<AtomicU64>,
    number: u64,
}

impl Drop for Counted {
    fn drop(self) {
        let Counted { drops, number } = self;
        drops.fetch_add(number, SeqCst);
    }
}

impl Pointable for Counted {
    ghost ALIGN = { 8 };

    ghost log = { 3 };

    ghost is_power = { refl };

    ghost is_small = { lit≤ tt };

    const ALIGN: usize = 8;

    type Init = Counted;

    ghost init_gives = { λ init value. value ≡ init };

    fn init(_alloc: Global, init: Counted) -> Result<Counted, Fault> {
        Ok(init)
    }
}

/// A value that counts its own drop there, by this number.
pub(crate) fn new_counted(rt: &impl Abort, drops: &Arc<AtomicU64>, number: u64) -> Counted {
    let drops = want_ok(rt, "room for one more owner", drops.clone());
    Counted { drops, number }
}
