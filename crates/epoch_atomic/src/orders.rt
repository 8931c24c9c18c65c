//! The orderings of an exchange.
ghost use Rattle.std.specs.Prelude.{◌≡◌};
ghost use Rattle.std.specs.declared.sync.atomic.Ordering.{Ordering};
ghost use Rattle.epoch_atomic.specs.Orders.{failure_of};

use std::sync::atomic::Ordering;

/// One ordering, or a pair of them, for `Atomic::compare_and_set`.
///
/// The first of a pair is for an exchange that is won, and the second for one that is lost. One ordering stands for
/// this pair:
///
/// | Given | Won | Lost |
/// |---|---|---|
/// | `Relaxed` | `Relaxed` | `Relaxed` |
/// | `Acquire` | `Acquire` | `Acquire` |
/// | `Release` | `Release` | `Relaxed` |
/// | `AcqRel` | `AcqRel` | `Acquire` |
/// | `SeqCst` | `SeqCst` | `SeqCst` |
///
/// The exchange acts as `SeqCst`, whichever ordering is asked for. In crossbeam-epoch this trait and `compare_and_set`
/// are deprecated: use `Atomic::compare_exchange`.
pub trait CompareAndSetOrdering {
    ghost success_order: { Self → Ordering };

    ghost failure_order: { Self → Ordering };

    /// Returns the ordering of an exchange that is won.
    fn success(&self) -> Ordering
        ensures { result ≡ success_order self.now };

    /// Returns the ordering of an exchange that is lost.
    fn failure(&self) -> Ordering
        ensures { result ≡ failure_order self.now };
}

impl CompareAndSetOrdering for Ordering {
    ghost success_order = { λ order. order };

    ghost failure_order = { failure_of };

    fn success(&self) -> Ordering {
        *self
    }

    fn failure(&self) -> Ordering {
        match *self {
            Ordering::Relaxed | Ordering::Release => Ordering::Relaxed,
            Ordering::Acquire | Ordering::AcqRel => Ordering::Acquire,
            Ordering::SeqCst => Ordering::SeqCst,
        }
    }
}

impl CompareAndSetOrdering for (Ordering, Ordering) {
    ghost success_order = { λ orders. orders.0 };

    ghost failure_order = { λ orders. orders.1 };

    fn success(&self) -> Ordering {
        self.0
    }

    fn failure(&self) -> Ordering {
        self.1
    }
}
