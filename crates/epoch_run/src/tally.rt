//! What the threads of a run over a stack or a queue tell together.

use std::sync::atomic::{AtomicBool, AtomicU64, Ordering};

/// As often as a push or a pop tries.
pub const TRIES: u32 = 100_000;

/// How many values were popped, and their sum.
#[derive(Clone, Copy)]
pub struct Popped {
    pub count: u64,
    pub sum: u64,
}

/// What all threads have popped so far, and whether anything was refused to one of them.
#[derive(Drop)]
pub struct Tally {
    count: AtomicU64,
    sum: AtomicU64,
    refused: AtomicBool,
}

impl Tally {
    pub fn new() -> Tally {
        Tally {
            count: AtomicU64::new(0),
            sum: AtomicU64::new(0),
            refused: AtomicBool::new(false),
        }
    }

    pub fn add(&self, value: u64) {
        self.count.fetch_add(1, Ordering::SeqCst);
        self.sum.fetch_add(value, Ordering::SeqCst);
    }

    pub fn refuse(&self) {
        self.refused.store(true, Ordering::SeqCst);
    }

    /// What was popped, or `None` where anything was refused.
    pub fn popped(&self) -> Option<Popped> {
        if self.refused.load(Ordering::SeqCst) {
            return None;
        }
        let count = self.count.load(Ordering::SeqCst);
        let sum = self.sum.load(Ordering::SeqCst);
        Some(Popped { count, sum })
    }
}
