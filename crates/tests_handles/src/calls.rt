//! Calls on collectors, handles and guards as the tests make them: each asserts first what the call requires, and
//! then what it has to answer. Memory is there: an error's way out of a test would be proved beside all that it owns.
use crate::counts::counting_job;
use crate::wants::{must, want, want_count, want_ok};
use epoch::{Capacities, Collector, Fault, Guard, Job, LocalHandle};
use std::alloc::Global;
use std::process::Abort;
use std::sync::Arc;
use std::sync::atomic::AtomicU64;

/// A collector with these capacities, and the number 1.
pub(crate) fn collector<T: Drop>(
    rt: &impl Abort,
    alloc: Global,
    capacities: Capacities,
) -> Collector<T> {
    must(
        rt,
        "the capacities are in their ranges",
        capacities.is_valid(),
    );
    let made = Collector::new(alloc, capacities, 1);
    want_ok(rt, "memory for a collector", made)
}

/// A new participant, for which a position is free.
pub(crate) fn register<'c, T: Drop>(
    rt: &impl Abort,
    collector: &'c Collector<T>,
) -> LocalHandle<'c, T> {
    want_ok(rt, "a free position", collector.register())
}

/// Pins the handle.
pub(crate) fn pin<'c, T: Drop>(rt: &impl Abort, handle: &mut LocalHandle<'c, T>) -> Guard<'c, T> {
    must(rt, "a further guard can be counted", handle.can_pin());
    handle.pin()
}

/// Spends a guard of the handle.
pub(crate) fn unpin<'c, T: Drop>(
    rt: &impl Abort,
    handle: &mut LocalHandle<'c, T>,
    guard: Guard<'c, T>,
) {
    must(rt, "the guard is one of the handle", handle.owns(&guard));
    handle.unpin(guard);
}

/// Pins and unpins this many times.
pub(crate) fn cycles<T: Drop>(rt: &impl Abort, handle: &mut LocalHandle<'_, T>, cycles: u64) {
    for _ in 0..cycles {
        let guard = pin(rt, handle);
        unpin(rt, handle, guard);
    }
}

/// Pins, flushes and unpins for each number. The flush answers `flushed`, and the count stands at the number after it.
pub(crate) fn rounds<T: Drop>(
    rt: &impl Abort,
    handle: &mut LocalHandle<'_, T>,
    flushed: Result<(), Fault>,
    count: &AtomicU64,
    counted: &[u64],
) {
    for wanted in counted {
        let guard = pin(rt, handle);
        flush(rt, handle, &guard, flushed);
        unpin(rt, handle, guard);
        want_count(rt, "the count after a round", count, *wanted);
    }
}

/// Under the guard the held bag is put, or no place is free.
pub(crate) fn flush<T: Drop>(
    rt: &impl Abort,
    handle: &mut LocalHandle<'_, T>,
    guard: &Guard<'_, T>,
    flushed: Result<(), Fault>,
) {
    want(rt, "a flush", handle.flush(guard), flushed);
}

/// Releases the handle, whose bag finds a place.
pub(crate) fn release<T: Drop>(rt: &impl Abort, handle: LocalHandle<'_, T>) {
    must(rt, "each guard is spent", handle.guards_out() == 0);
    want_ok(rt, "the held bag finds a place", handle.release());
}

/// Ends the collector, which calls this many jobs.
pub(crate) fn end<T: Drop>(rt: &impl Abort, collector: Collector<T>, jobs: u64) {
    want(rt, "the jobs that the end calls", collector.end(), jobs);
}

/// Spends an unprotected guard.
pub(crate) fn let_go<T: Drop>(rt: &impl Abort, guard: Guard<'_, T>) {
    want_ok(rt, "the guard protects nothing", guard.let_go());
}

/// Defers the job, which is kept or refused.
pub(crate) fn defer<T: Drop>(
    rt: &impl Abort,
    handle: &mut LocalHandle<'_, T>,
    guard: &Guard<'_, T>,
    job: Job,
    kept: bool,
) {
    let is_kept = handle.defer(guard, job).is_ok();
    want(rt, "whether the job is kept", is_kept, kept);
}

/// Defers this many jobs, each of which adds this number to the count.
pub(crate) fn defer_counting<T: Drop>(
    rt: &impl Abort,
    alloc: Global,
    handle: &mut LocalHandle<'_, T>,
    guard: &Guard<'_, T>,
    count: &Arc<AtomicU64>,
    (jobs, amount): (u64, u64),
) {
    for _ in 0..jobs {
        let job = counting_job(rt, alloc, count, amount);
        defer(rt, handle, guard, job, true);
    }
}

/// As `defer_counting`, under a pin of its own.
pub(crate) fn pin_and_defer<T: Drop>(
    rt: &impl Abort,
    alloc: Global,
    handle: &mut LocalHandle<'_, T>,
    count: &Arc<AtomicU64>,
    jobs: (u64, u64),
) {
    let guard = pin(rt, handle);
    defer_counting(rt, alloc, handle, &guard, count, jobs);
    unpin(rt, handle, guard);
}
