//! What the tests want. A comparison stands here once: written out in a test, it would be proved beside all that the
//! test owns.
use std::fmt::Debug;
use std::process::Abort;

/// Both are equal. `what` says what was seen.
pub(crate) fn want<T: PartialEq + Debug + Drop>(rt: &impl Abort, what: &str, seen: T, wanted: T) {
    assert_eq!(rt; seen, wanted, "{what}");
}

/// What was answered, where a success is wanted.
pub(crate) fn want_ok<T, E: Drop>(rt: &impl Abort, what: &str, answer: Result<T, E>) -> T {
    match answer {
        Ok(value) => value,
        Err(_) => panic!(rt; "{what}"),
    }
}
