//! Calls on collectors, handles and guards as the tests make them: each asserts first what the call requires, and then
//! what it has to answer.
use crate::wants::{want, want_ok};
use epoch::{Capacities, Collector, Guard, LocalHandle};
use std::alloc::Global;
use std::process::Abort;

/// A collector with these capacities. Memory is there.
pub(crate) fn collector<T: Drop>(
    rt: &impl Abort,
    alloc: Global,
    capacities: Capacities,
) -> Collector<T> {
    assert!(rt; capacities.is_valid(), "the capacities are in their ranges");
    let made = Collector::new(alloc, capacities, 1);
    want_ok(rt, "memory for a collector", made)
}

/// A new participant, for which a position is free.
pub(crate) fn register<'c, T: Drop>(
    rt: &impl Abort,
    collector: &'c Collector<T>,
) -> LocalHandle<'c, T> {
    want_ok(rt, "a free position", collector.register())
}

/// Pins the handle.
pub(crate) fn pin<'c, T: Drop>(rt: &impl Abort, handle: &mut LocalHandle<'c, T>) -> Guard<'c, T> {
    assert!(rt; handle.can_pin(), "a further guard can be counted");
    handle.pin()
}

/// Spends a guard of the handle.
pub(crate) fn unpin<'c, T: Drop>(
    rt: &impl Abort,
    handle: &mut LocalHandle<'c, T>,
    guard: Guard<'c, T>,
) {
    assert!(rt; handle.owns(&guard), "the guard is one of the handle");
    handle.unpin(guard);
}

/// Releases the handle, whose bag finds a place.
pub(crate) fn release<T: Drop>(rt: &impl Abort, handle: LocalHandle<'_, T>) {
    assert!(rt; handle.guards_out() == 0, "each guard is spent");
    if let Err((_back, fault)) = handle.release() {
        panic!(rt; "{fault}");
    }
}

/// Ends the collector, which calls this many jobs.
pub(crate) fn end<T: Drop>(rt: &impl Abort, collector: Collector<T>, jobs: u64) {
    want(rt, "the jobs that the end calls", collector.end(), jobs);
}
