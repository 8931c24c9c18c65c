//! What is seen, beside what it has to be.
use std::alloc::Global;
use std::fmt::Debug;
use std::process::Abort;

/// Both are equal. `what` says what was seen.
pub(crate) fn want<T: Copy + PartialEq + Debug>(rt: &impl Abort, what: &str, seen: T, wanted: T) {
    assert_eq!(rt; seen, wanted, "{what}");
}

/// Debug shows this text of the value. `what` says what is shown.
pub(crate) fn want_shown<T: Debug>(
    rt: &impl Abort,
    alloc: Global,
    what: &str,
    value: &T,
    wanted: &str,
) {
    let Ok(text) = format!(in alloc; "{value:?}") else {
        panic!(rt; "memory for the text");
    };
    want(rt, what, text.as_str(), wanted);
}
