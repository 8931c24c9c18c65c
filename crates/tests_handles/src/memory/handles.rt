//! Calls of collectors, handles and guards. They take no memory.

use crate::calls::{end, let_go, pin, register, release, unpin};
use crate::memory::made::{collector_at_last, jobs_at_last};
use crate::wants::{must, want};
use epoch::{Called, Collector, Fault, Guard, Job, LocalHandle, Refused, unprotected};
use std::process::Abort;
use std::sync::atomic::AtomicU64;
use std::sync::atomic::Ordering::SeqCst;

/// Whether the handle is pinned, how many guards it has out, whether its bag has room, and its collector's number.
fn want_views(
    rt: &impl Abort,
    what: &str,
    handle: &LocalHandle<'_, u64>,
    wanted: (bool, u32, bool),
) {
    let views = (
        handle.is_pinned(),
        handle.guards_out(),
        handle.has_room(),
        handle.collector().id(),
    );
    let (pinned, guards, room) = wanted;
    want(rt, what, views, (pinned, guards, room, 1));
}

/// What the guard says of itself.
fn want_guard(rt: &impl Abort, guard: &Guard<'_, u64>, protecting: bool) {
    let collector = guard.collector().map(|collector| collector.id());
    let views = (guard.is_protecting(), collector);
    let wanted = if protecting { Some(1) } else { None };
    want(rt, "a guard", views, (protecting, wanted));
}

/// Pins once more and unpins, repins, and repins after nothing.
fn repin_twice<'c>(rt: &impl Abort, handle: &mut LocalHandle<'c, u64>, guard: &mut Guard<'c, u64>) {
    let second = pin(rt, handle);
    want_views(rt, "with two guards", handle, (true, 2, true));
    unpin(rt, handle, second);
    must(rt, "the guard is one of the handle", handle.owns(guard));
    handle.repin(guard);
    must(rt, "the guard is one of the handle", handle.owns(guard));
    handle.repin_after(guard, || {});
}

/// The job at this place is deferred. The bag and the one place take two jobs: a further one is handed back, and called
/// at once under a guard that protects nothing.
fn defer_one(
    rt: &impl Abort,
    handle: &mut LocalHandle<'_, u64>,
    (guard, none): (&Guard<'_, u64>, &Guard<'_, u64>),
    place: usize,
    job: Job,
) {
    match handle.defer_unchecked(guard, job) {
        Ok(()) => want(rt, "the bag or the place is free", place < 2, true),
        Err(Refused { fault, value }) => {
            want(rt, "a deferral", (place, fault), (2, Fault::BagsFull));
            let called = none.call_now(value).ok();
            want(rt, "a job called now", called, Some(Called::Ran));
        }
    }
}

/// Of three jobs the first one is put, the second one held, and the third one refused. It is called under a guard that
/// protects nothing.
fn defer_three(
    rt: &impl Abort,
    handle: &mut LocalHandle<'_, u64>,
    guards: (&Guard<'_, u64>, &Guard<'_, u64>),
    jobs: Vec<Job>,
) {
    for (place, job) in jobs.into_iter().enumerate() {
        defer_one(rt, handle, guards, place, job);
    }
}

/// A pin, a flush and the unpin. Returns what the flush did.
pub(crate) fn round(rt: &impl Abort, handle: &mut LocalHandle<'_, u64>) -> Result<(), Fault> {
    let guard = pin(rt, handle);
    let flushed = handle.flush(&guard);
    unpin(rt, handle, guard);
    flushed
}

/// The flush of a round answers this, and this many jobs were called after it.
fn want_round(
    rt: &impl Abort,
    handle: &mut LocalHandle<'_, u64>,
    calls: &AtomicU64,
    wanted: (Result<(), Fault>, u64),
) {
    let flushed = round(rt, handle);
    want(rt, "a round", (flushed, calls.load(SeqCst)), wanted);
}

/// Pins, repins, and defers the jobs.
fn pin_and_defer(
    rt: &impl Abort,
    handle: &mut LocalHandle<'_, u64>,
    none: &Guard<'_, u64>,
    jobs: Vec<Job>,
) {
    let mut guard = pin(rt, handle);
    want_guard(rt, &guard, true);
    repin_twice(rt, handle, &mut guard);
    defer_three(rt, handle, (&guard, none), jobs);
    want_views(rt, "with a full bag", handle, (true, 1, false));
    unpin(rt, handle, guard);
}

/// The whole way of one participant. The first pin advances to 1, and is repinned there: the first bag is sealed with 1
/// and called in 3, the second one sealed with 3 and called in 5.
fn come_and_go(
    rt: &impl Abort,
    collector: &Collector<u64>,
    none: &Guard<'_, u64>,
    calls: &AtomicU64,
    jobs: Vec<Job>,
) {
    let mut handle = register(rt, collector);
    want_views(rt, "behind its registration", &handle, (false, 0, true));
    pin_and_defer(rt, &mut handle, none, jobs);
    want(rt, "behind the deferrals", calls.load(SeqCst), 1);
    want_round(rt, &mut handle, calls, (Err(Fault::BagsFull), 1));
    want_round(rt, &mut handle, calls, (Err(Fault::BagsFull), 2));
    want_round(rt, &mut handle, calls, (Ok(()), 2));
    want_round(rt, &mut handle, calls, (Ok(()), 3));
    release(rt, handle);
}

/// The whole way of one participant, beside a guard that protects nothing.
fn come_and_go_beside(
    rt: &impl Abort,
    collector: &Collector<u64>,
    calls: &AtomicU64,
    jobs: Vec<Job>,
) {
    let none = unprotected(collector);
    want_guard(rt, &none, false);
    come_and_go(rt, collector, &none, calls, jobs);
    let_go(rt, none);
}

/// Why no further participant is registered.
fn register_fault(rt: &impl Abort, collector: &Collector<u64>) -> Option<Fault> {
    match collector.register() {
        Ok(handle) => {
            release(rt, handle);
            None
        }
        Err(fault) => Some(fault),
    }
}

/// Two participants fill the table, until one of them is released.
fn fill_table<'c>(rt: &impl Abort, collector: &'c Collector<u64>) -> LocalHandle<'c, u64> {
    let (first, second) = (register(rt, collector), register(rt, collector));
    let fault = register_fault(rt, collector);
    want(rt, "a third one", fault, Some(Fault::TableFull));
    release(rt, first);
    let fault = register_fault(rt, collector);
    want(rt, "one behind a release", fault, None);
    second
}

/// The deferral of a job is kept.
fn want_deferred(
    rt: &impl Abort,
    handle: &mut LocalHandle<'_, u64>,
    guard: &Guard<'_, u64>,
    job: Job,
) {
    let kept = handle.defer(guard, job).is_ok();
    want(rt, "a deferral", kept, true);
}

/// The participant defers the jobs, of which there is one, and is released: its bag is put.
fn defer_and_leave(rt: &impl Abort, handle: LocalHandle<'_, u64>, jobs: Vec<Job>) {
    let mut handle = handle;
    let guard = pin(rt, &mut handle);
    for job in jobs {
        want_deferred(rt, &mut handle, &guard, job);
    }
    unpin(rt, &mut handle, guard);
    release(rt, handle);
}

#[test]
fn calls_of_handles_and_guards_take_no_memory(rt: HostRuntime) {
    let (calls, three, one) = jobs_at_last(&rt, rt.alloc());
    let collector = collector_at_last(&rt, rt.alloc(), 2);
    come_and_go_beside(&rt, &collector, &calls, three);
    defer_and_leave(&rt, fill_table(&rt, &collector), one);
    want(&rt, "before the end", calls.load(SeqCst), 3);
    end(&rt, collector, 1);
    want(&rt, "behind the end", calls.load(SeqCst), 4);
}
