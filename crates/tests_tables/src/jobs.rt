//! The calls of jobs.
use crate::cells::place;
use crate::wants::want;
use epoch::bag::{Bag, SealedBag};
use epoch::epoch::Epoch;
use epoch::{Called, Cells, Job, Name, Work};
use std::alloc::{AllocError, Global};
use std::process::Abort;
use std::sync::Arc;
use std::sync::atomic::AtomicU64;
use std::sync::atomic::Ordering::SeqCst;

/// A job that adds one to the count.
fn counting_job(alloc: Global, count: &Arc<AtomicU64>) -> Result<Job, AllocError> {
    let inner = count.clone()?;
    let run = Box::new(alloc, move || {
        inner.fetch_add(1, SeqCst);
    })?;
    Ok(Job::Call(Work { run }))
}

/// A removal of the first value, a work, the same removal once more, and a removal of the second value.
fn four_jobs(work: Job) -> Bag<Job> {
    let mut jobs = Bag::new();
    let _ = jobs.try_push(Job::Remove(Name::first()));
    let _ = jobs.try_push(work);
    let _ = jobs.try_push(Job::Remove(Name::first()));
    for name in Name::new(2, 0) {
        let _ = jobs.try_push(Job::Remove(name));
    }
    jobs
}

/// What the next job did, called while the second value is read.
fn called_while_read(bag: &mut SealedBag<Job>, cells: &Cells<u64>) -> Option<Called> {
    let reading = cells.read(Name::new(2, 0)?)?;
    let called = bag.call_next(cells);
    reading.leave();
    called
}

/// The next job did this.
fn want_next(
    rt: &impl Abort,
    bag: &mut SealedBag<Job>,
    cells: &Cells<u64>,
    wanted: Option<Called>,
) {
    want(rt, "a job", bag.call_next(cells), wanted);
}

/// The jobs say what they did, from the oldest on.
fn want_called(rt: &impl Abort, bag: &mut SealedBag<Job>, cells: &Cells<u64>, count: &AtomicU64) {
    want_next(rt, bag, cells, Some(Called::Destroyed));
    want(rt, "the work isn't called yet", count.load(SeqCst), 0);
    want_next(rt, bag, cells, Some(Called::Ran));
    want(rt, "it is called", count.load(SeqCst), 1);
    // The same removal once more.
    want_next(rt, bag, cells, Some(Called::Gone));
    let held = called_while_read(bag, cells);
    want(
        rt,
        "a removal of what is read",
        held,
        Some(Called::HeldElsewhere),
    );
    want_next(rt, bag, cells, None);
    want(rt, "it is called once", count.load(SeqCst), 1);
}

#[test]
fn jobs_are_called_oldest_first_and_say_what_they_did(rt: HostRuntime) {
    let alloc = rt.alloc();
    let cells = Cells::new(alloc, 3, 0).expect(&rt, "memory");
    want(&rt, "a first value", place(alloc, &cells, 0), Some((1, 0)));
    want(&rt, "a second one", place(alloc, &cells, 1), Some((2, 0)));
    let count = Arc::new(alloc, AtomicU64::new(0)).expect(&rt, "memory");
    let jobs = four_jobs(counting_job(alloc, &count).expect(&rt, "memory"));
    let mut sealed = jobs.seal(Epoch::starting());
    want_called(&rt, &mut sealed, &cells, &count);
}
