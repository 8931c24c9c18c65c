//! Comparisons, which beside live values would take long to prove.

use epoch_cells::Fault;
use std::fmt::Debug;
use std::process::Abort;

/// The value is the one that is wanted.
pub(crate) fn want<T: Copy + PartialEq + Debug>(rt: &impl Abort, what: &str, seen: T, wanted: T) {
    assert_eq!(rt; seen, wanted, "{what}");
}

/// Memory was refused, and nothing else.
pub(crate) fn want_no_memory(rt: &impl Abort, fault: Fault) {
    want(rt, "why it is refused", fault, Fault::NoMemory);
}
