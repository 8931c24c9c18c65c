//! Comparisons, in a function of their own: beside live values each would take long to prove.
use std::fmt::Debug;
use std::process::Abort;

/// The value is the one that is wanted.
pub(crate) fn want<T: PartialEq + Debug + Drop>(rt: &impl Abort, what: &str, seen: T, wanted: T) {
    assert_eq!(rt; seen, wanted, "{what}");
}
