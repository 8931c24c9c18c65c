//! Handles on eight threads that are pinned at once.
use crate::calls::{collector, defer, pin, register, release, unpin};
use crate::counts::{Counted, count, counting_job, new_counted};
use crate::removals::remove_later;
use crate::wants::{want_count, want_true};
use epoch::{Capacities, Collector, Job, LocalHandle};
use std::alloc::Global;
use std::process::Abort;
use std::sync::Arc;
use std::sync::atomic::AtomicU64;
use std::sync::atomic::Ordering::SeqCst;
use std::thread;

/// What the threads share.
struct Shared {
    collector: Collector<Counted>,
    // How many threads are pinned, and how many of them saw that all 8 are.
    pinned: AtomicU64,
    saw: AtomicU64,
    drops: Arc<AtomicU64>,
}

/// Pins, and looks for the others' pins before it unpins.
fn meet(rt: &impl Abort, shared: &Shared, handle: &mut LocalHandle<'_, Counted>) {
    let guard = pin(rt, handle);
    shared.pinned.fetch_add(1, SeqCst);
    for _ in 0..10_000_000u64 {
        if shared.pinned.load(SeqCst) == 8 {
            shared.saw.fetch_add(1, SeqCst);
            break;
        }
        thread::yield_now();
    }
    unpin(rt, handle, guard);
}

/// A thousand jobs for each of 8 threads.
fn jobs_of_8(rt: &impl Abort, alloc: Global, calls: &Arc<AtomicU64>) -> Vec<Vec<Job>> {
    let mut all = Vec::new(alloc);
    for _ in 0..8u64 {
        let pushed = all.push(thousand_jobs(rt, alloc, calls)).is_ok();
        want_true(rt, "memory for the jobs", pushed);
    }
    all
}

/// A thousand jobs that count their calls.
fn thousand_jobs(rt: &impl Abort, alloc: Global, calls: &Arc<AtomicU64>) -> Vec<Job> {
    let mut jobs = Vec::new(alloc);
    for _ in 0..1000u64 {
        let pushed = jobs.push(counting_job(rt, alloc, calls, 1)).is_ok();
        want_true(rt, "memory for a job", pushed);
    }
    jobs
}

/// Defers each job under a pin of its own, and then the removals of 250 values.
fn defer_and_remove(
    rt: &impl Abort,
    alloc: Global,
    shared: &Shared,
    handle: &mut LocalHandle<'_, Counted>,
    jobs: Vec<Job>,
) {
    for job in jobs {
        let guard = pin(rt, handle);
        defer(rt, handle, &guard, job, true);
        unpin(rt, handle, guard);
    }
    for _ in 0..250u64 {
        let guard = pin(rt, handle);
        let value = new_counted(rt, &shared.drops, 1);
        remove_later(rt, alloc, handle, &guard, value);
        unpin(rt, handle, guard);
    }
}

/// What each thread does.
fn take_part(rt: &impl Abort, alloc: Global, shared: &Shared, jobs: Vec<Job>) {
    let mut handle = register(rt, &shared.collector);
    meet(rt, shared, &mut handle);
    defer_and_remove(rt, alloc, shared, &mut handle, jobs);
    release(rt, handle);
}

#[test]
fn eight_threads_are_pinned_at_once_and_each_of_their_jobs_and_values_is_done_once(
    rt: HostRuntime,
) {
    let alloc = rt.alloc();
    let calls = count(&rt, alloc);
    let all = jobs_of_8(&rt, alloc, &calls);
    // As many cells as values. Each thread defers 1,250 jobs, in 20 bags at most.
    let shared = Shared {
        collector: collector(&rt, alloc, Capacities::usual(8, 2000, 160)),
        pinned: AtomicU64::new(0),
        saw: AtomicU64::new(0),
        drops: count(&rt, alloc),
    };
    let (host, part) = (&rt, &shared);
    thread::scope(thread::scope_env(), &rt, |scope| {
        for jobs in all {
            let _ = scope.spawn(move || take_part(host, alloc, part, jobs));
        }
    });
    let Shared {
        collector,
        pinned: _,
        saw,
        drops,
    } = shared;
    let _ = collector.end();
    want_count(&rt, "how many saw all pinned", &saw, 8);
    want_count(&rt, "calls, one of each job", &calls, 8000);
    want_count(&rt, "drops, one of each value", &drops, 2000);
}
