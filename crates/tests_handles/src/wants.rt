//! What the tests want. A comparison stands here once: written out in a test, it would be proved beside all that the
//! test owns.
ghost use Rattle.std.specs.Prelude.{IsTrue};

use epoch::Fault;
use std::alloc::Global;
use std::fmt::Debug;
use std::process::Abort;
use std::sync::atomic::AtomicU64;
use std::sync::atomic::Ordering::SeqCst;

/// Both are equal. `what` says what was seen.
pub(crate) fn want<T: PartialEq + Debug + Drop>(rt: &impl Abort, what: &str, seen: T, wanted: T) {
    if seen != wanted {
        panic!(rt; "{what}: {seen:?}, and not {wanted:?}");
    }
}

/// This holds.
pub(crate) fn want_true(rt: &impl Abort, what: &str, holds: bool) {
    if !holds {
        rt.panic(what);
    }
}

/// The value is shown as this text.
pub(crate) fn want_shown<T: Debug>(rt: &impl Abort, alloc: Global, value: &T, wanted: &str) {
    let text = want_ok(rt, "memory for the text", format!(in alloc; "{value:?}"));
    assert!(rt; text.as_str() == wanted, "{text} and not {wanted}");
}

/// What was answered, where a success is wanted.
pub(crate) fn want_ok<T, E>(rt: &impl Abort, what: &str, answer: Result<T, E>) -> T {
    match answer {
        Ok(value) => value,
        Err(_error) => rt.panic(what),
    }
}

/// The error, where one is wanted.
pub(crate) fn want_err<T, E>(rt: &impl Abort, what: &str, answer: Result<T, E>) -> E {
    match answer {
        Ok(_value) => rt.panic(what),
        Err(error) => error,
    }
}

/// What is there.
pub(crate) fn want_some<T>(rt: &impl Abort, what: &str, found: Option<T>) -> T {
    match found {
        Some(value) => value,
        None => rt.panic(what),
    }
}

/// The count stands at this number.
pub(crate) fn want_count(rt: &impl Abort, what: &str, count: &AtomicU64, wanted: u64) {
    want(rt, what, count.load(SeqCst), wanted);
}

/// Memory was refused, and nothing else.
pub(crate) fn want_no_memory(rt: &impl Abort, fault: Fault) {
    want(rt, "why it is refused", fault, Fault::NoMemory);
}

/// What a call requires holds.
pub(crate) fn must(rt: &impl Abort, what: &str, holds: bool)
    ensures { IsTrue holds }
{
    if !holds {
        rt.panic(what);
    }
}
