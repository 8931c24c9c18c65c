//! Counts of values that threads put into a structure or took out of it.
use crate::wants::want;
use std::alloc::Global;
use std::process::Abort;
use std::sync::atomic::AtomicU64;
use std::sync::atomic::Ordering::SeqCst;

/// This many counts that stand at 0.
pub(crate) fn counts_of(rt: &impl Abort, alloc: Global, values: u64) -> Vec<AtomicU64> {
    let mut counts = Vec::new(alloc);
    for _ in 0..values {
        let pushed = counts.push(AtomicU64::new(0)).is_ok();
        want(rt, "memory for a count", pushed, true);
    }
    counts
}

/// Counts the value once more.
pub(crate) fn note(rt: &impl Abort, counts: &[AtomicU64], value: u64) {
    match counts.get(value as usize) {
        Some(count) => {
            count.fetch_add(1, SeqCst);
        }
        None => panic!(rt; "{value} was never put there"),
    }
}

/// Each count stands at this number.
pub(crate) fn want_each(rt: &impl Abort, what: &str, counts: &[AtomicU64], wanted: u64) {
    for (value, count) in counts.iter().enumerate() {
        assert_eq!(rt; count.load(SeqCst), wanted, "{what}: value {value}");
    }
}
