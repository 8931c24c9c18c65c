//! What debug shows of a structure that threads share: what it holds is seen under a guard alone.
use std::alloc::Global;
use std::fmt::Debug;
use std::process::Abort;

/// Debug shows this text of the value.
pub(crate) fn want_shown<T: Debug>(rt: &impl Abort, alloc: Global, value: &T, wanted: &str) {
    let Ok(text) = format!(in alloc; "{value:?}") else {
        panic!(rt; "memory for the text");
    };
    assert_eq!(rt; text.as_str(), wanted);
}
