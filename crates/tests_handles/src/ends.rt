//! What an end calls of the bags that are left.
use crate::counts::{count, new_counted, noting_job};
use crate::wants::{want, want_count, want_ok, want_true};
use epoch::bag::{Bag, SealedBag};
use epoch::collector::end_bags;
use epoch::epoch::{Epoch, GREATEST_EPOCH};
use epoch::{Cells, Job, Name};
use std::alloc::Global;
use std::process::Abort;
use std::sync::Arc;
use std::sync::atomic::AtomicU64;

/// A bag with a noting job for each digit, and then two removals of this name.
fn noting_bag(
    rt: &impl Abort,
    alloc: Global,
    called: &Arc<AtomicU64>,
    digits: &[u64],
    name: Name,
) -> Option<SealedBag<Job>> {
    let mut bag = Bag::new();
    for digit in digits {
        // Its drop adds nothing.
        let owned = new_counted(rt, called, 0);
        let _ = bag.try_push(noting_job(rt, alloc, called, *digit, owned));
    }
    let _ = bag.try_push(Job::Remove(name));
    let _ = bag.try_push(Job::Remove(name));
    Some(bag.seal(Epoch::new(GREATEST_EPOCH)))
}

/// An end of these bags calls this many jobs.
fn end_these(rt: &impl Abort, cells: &Cells<u64>, bags: &mut [Option<SealedBag<Job>>], jobs: u64) {
    let called = end_bags(cells, bags);
    want(rt, "the jobs that the end calls", called, jobs);
}

/// Places 7, for which a slot is free.
fn place_7(rt: &impl Abort, alloc: Global, cells: &Cells<u64>) -> Name {
    let boxed = want_ok(rt, "memory for a value", Box::new(alloc, 7));
    want_ok(rt, "a slot is free", cells.place(boxed))
}

#[test]
fn an_end_of_bags_calls_the_oldest_job_first_and_counts_removals_of_what_is_gone(rt: HostRuntime) {
    let alloc = rt.alloc();
    let called = count(&rt, alloc);
    let cells = want_ok(&rt, "memory for a cell", Cells::<u64>::new(alloc, 1, 0));
    let name = place_7(&rt, alloc, &cells);
    let bag = noting_bag(&rt, alloc, &called, &[1, 2, 3], name);
    end_these(&rt, &cells, &mut [None, bag], 5);
    want_count(&rt, "the oldest job first", &called, 123);
    want_true(&rt, "the value is dropped", cells.take(name).is_none());
}
