//! What pointers, owned values and destructions are seen to be.
use crate::wants::want;
use epoch::atomic::{CompareExchangeError, DestroyNow, ExchangeFault, Owned, Shared};
use epoch::{Called, Guard};
use std::process::Abort;

/// The pointer is the one that is wanted.
pub(crate) fn want_pointer(
    rt: &impl Abort,
    what: &str,
    seen: Shared<'_, u64>,
    wanted: Shared<'_, u64>,
) {
    assert!(rt; seen == wanted, "{what}");
}

/// The pointer has this tag.
pub(crate) fn want_tag(rt: &impl Abort, what: &str, shared: Shared<'_, u64>, tag: usize) {
    want(rt, what, shared.tag(), tag);
}

/// What a lost exchange found, and the new pointer.
pub(crate) fn changed<'g, P: Drop>(
    rt: &impl Abort,
    exchanged: Result<Shared<'g, u64>, ExchangeFault<'g, u64, P>>,
) -> CompareExchangeError<'g, u64, P> {
    match exchanged {
        Err(ExchangeFault::Changed(error)) => error,
        _ => rt.panic("nothing was found to have changed"),
    }
}

/// The new value of an exchange that was lost to null.
pub(crate) fn lost_to_null(
    rt: &impl Abort,
    exchanged: Result<Shared<'_, u64>, ExchangeFault<'_, u64, Owned<u64>>>,
    value: u64,
) -> Owned<u64> {
    let CompareExchangeError { current, new } = changed(rt, exchanged);
    want_pointer(rt, "null was found", current, Shared::null());
    want(rt, "the new value", *new, value);
    new
}

/// The value behind the pointer, by one reading or by another.
pub(crate) fn value_of(shared: Shared<'_, u64>) -> Option<(u64, u64)> {
    let first = shared.deref()?;
    let second = match shared.as_ref() {
        Some(second) => second,
        None => {
            first.leave();
            return None;
        }
    };
    let values = (*first.get(), *second.get());
    first.leave();
    second.leave();
    Some(values)
}

/// The pointer is to this value.
pub(crate) fn want_value(rt: &impl Abort, what: &str, shared: Shared<'_, u64>, value: u64) {
    want(rt, what, value_of(shared), Some((value, value)));
}

/// The value that is owned again has this number and this tag.
pub(crate) fn want_owned(
    rt: &impl Abort,
    what: &str,
    owned: Option<Owned<u64>>,
    wanted: (u64, usize),
) -> Owned<u64> {
    let owned = owned.expect(rt, "the value stands in its cell");
    want(rt, what, (*owned, owned.tag()), wanted);
    owned
}

/// A destruction of the value says so.
pub(crate) fn want_destroyed(
    rt: &impl Abort,
    guard: &Guard<'_, u64>,
    placed: Shared<'_, u64>,
    wanted: Called,
) {
    let called = guard.destroy_now(placed).ok();
    want(rt, "a destruction", called, Some(wanted));
}
