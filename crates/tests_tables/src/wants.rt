//! Comparisons, each in a function of its own: beside live values each would take long to prove.
ghost use Rattle.std.specs.Prelude.{◌≡◌};

use std::alloc::Global;
use std::fmt::Debug;
use std::process::Abort;

/// The value is the one that is wanted. `what` says what was seen.
pub(crate) fn want<T: PartialEq + Debug + Drop>(rt: &impl Abort, what: &str, seen: T, wanted: T) {
    if seen != wanted {
        panic!(rt; "{what}: {seen:?}, and not {wanted:?}");
    }
}

/// The word is the one that is wanted, on which further steps rest.
pub(crate) fn want_word(rt: &impl Abort, what: &str, seen: u64, wanted: u64)
    ensures { seen ≡ wanted }
{
    assert!(rt; seen == wanted, "{what}: the word is {seen}");
}

/// Debug shows this text of the value. `what` says what is shown.
pub(crate) fn want_shown<T: Debug>(
    rt: &impl Abort,
    alloc: Global,
    what: &str,
    value: &T,
    wanted: &str,
) {
    let text = format!(in alloc; "{value:?}").expect(rt, "memory for the text");
    want(rt, what, text.as_str(), wanted);
}
