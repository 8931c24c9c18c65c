//! Threads that do the same side by side, and values that count their drops.
use std::alloc::Global;
use std::process::Abort;
use std::sync::Wait;
use std::sync::atomic::AtomicU64;
use std::sync::atomic::Ordering::SeqCst;
use std::thread;
use std::thread::Threads;

/// What several threads do side by side.
pub(crate) trait Work {
    /// What the thread of this number does.
    fn work(&self, number: u64);
}

/// Starts so many threads and waits for them. A thread that can't be started does its work here.
pub(crate) fn side_by_side<R: Threads + Wait + Sync, W: Work + Sync>(
    rt: &R,
    threads: u64,
    all: &W,
) {
    thread::scope(thread::scope_env(), rt, |scope| {
        for number in 0..threads {
            if scope.spawn(move || all.work(number)).is_err() {
                all.work(number);
            }
        }
    });
}

/// This many counts that stand at 0.
pub(crate) fn counts_of(rt: &impl Abort, alloc: Global, values: usize) -> Vec<AtomicU64> {
    let mut counts = Vec::new(alloc);
    for _ in 0..values {
        counts
            .push(AtomicU64::new(0))
            .expect(rt, "memory for a count");
    }
    counts
}

/// Adds one to the count of this number.
pub(crate) fn count(counts: &[AtomicU64], number: u64) {
    if let Some(count) = counts.get(number as usize) {
        count.fetch_add(1, SeqCst);
    }
}

/// How many of the counts stand at 1, and how many beyond.
pub(crate) fn ones_and_more(counts: &[AtomicU64]) -> (u64, u64) {
    let (mut ones, mut more) = (0u64, 0u64);
    for count in counts {
        match count.load(SeqCst) {
            0 => {}
            1 => ones = ones.wrapping_add(1),
            _ => more = more.wrapping_add(1),
        }
    }
    (ones, more)
}

/// A value that isn't copied, with its own number, two counts that a writer raises together, and where its drop is
/// counted.
pub(crate) struct Tracked<'a> {
    pub(crate) number: u64,
    left: u64,
    right: u64,
    drops: &'a [AtomicU64],
}

impl<'a> Tracked<'a> {
    /// The value of this number. Its drop is counted there.
    pub(crate) fn new(number: u64, drops: &'a [AtomicU64]) -> Tracked<'a> {
        Tracked {
            number,
            left: 0,
            right: 0,
            drops,
        }
    }

    /// Whether it is the value of this number, and no writer is between its counts.
    pub(crate) fn is_whole(&self, number: u64) -> bool {
        self.number == number && self.left == self.right
    }

    /// Raises both counts.
    pub(crate) fn raise(&mut self) {
        self.left = self.left.wrapping_add(1);
        self.right = self.right.wrapping_add(1);
    }
}

impl Drop for Tracked<'_> {
    fn drop(self) {
        let Tracked {
            number,
            left: _,
            right: _,
            drops,
        } = self;
        count(drops, number);
    }
}
