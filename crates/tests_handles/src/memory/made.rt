//! What the tests make first, for which memory is asked once more if it is refused. `rt try --test --fail-alloc N`
//! refuses the Nth allocation of each test, and each of these tests passes whichever that is. In a plain run of the
//! tests no allocation is refused.

use crate::wants::want_no_memory;
use epoch::atomic::Owned;
use epoch::{Capacities, Collector, Fault, Job, Work};
use std::alloc::{AllocError, Global};
use std::process::Abort;
use std::sync::Arc;
use std::sync::atomic::AtomicU64;
use std::sync::atomic::Ordering::SeqCst;

/// A collector of two participants and one place, with this many cells; a bag takes one job, and a collection one bag.
fn new_collector(alloc: Global, cells: u8) -> Result<Collector<u64>, Fault> {
    let capacities = Capacities {
        participants: 2,
        cells: cells as u32,
        bags: 1,
        bag_jobs: 1,
        collect_bags: 1,
    };
    Collector::new(alloc, capacities, 1)
}

/// Such a collector.
pub(crate) fn collector_at_last(rt: &impl Abort, alloc: Global, cells: u8) -> Collector<u64> {
    match new_collector(alloc, cells) {
        Ok(collector) => collector,
        Err(fault) => {
            want_no_memory(rt, fault);
            new_collector(alloc, cells).expect(rt, "memory for a collector")
        }
    }
}

/// How many jobs were called, three such jobs, and one more.
type JobsAndCount = (Arc<AtomicU64>, Vec<Job>, Vec<Job>);

/// This many jobs, each of which adds one to the count.
fn counting_jobs(alloc: Global, jobs: u64, count: &Arc<AtomicU64>) -> Result<Vec<Job>, AllocError> {
    let mut made: Vec<Job> = Vec::new(alloc);
    for _ in 0..jobs {
        let inner = count.clone()?;
        let run = Box::new(alloc, move || {
            inner.fetch_add(1, SeqCst);
        })?;
        made.push(Job::Call(Work { run }))?;
    }
    Ok(made)
}

fn new_jobs(alloc: Global) -> Result<JobsAndCount, AllocError> {
    let count = Arc::new(alloc, AtomicU64::new(0))?;
    let three = counting_jobs(alloc, 3, &count)?;
    let one = counting_jobs(alloc, 1, &count)?;
    Ok((count, three, one))
}

/// A count that stands at 0, and the jobs that add to it.
pub(crate) fn jobs_at_last(rt: &impl Abort, alloc: Global) -> JobsAndCount {
    match new_jobs(alloc) {
        Ok(jobs) => jobs,
        Err(_) => new_jobs(alloc).expect(rt, "memory for jobs"),
    }
}

/// Owned numbers.
pub(crate) type Values = (Owned<u64>, Owned<u64>, Owned<u64>);

fn new_values(alloc: Global) -> Result<Values, Fault> {
    let first = Owned::new(alloc, 10)?;
    let second = Owned::new(alloc, 20)?;
    let third = Owned::new(alloc, 30)?;
    Ok((first, second, third))
}

/// The owned numbers 10, 20 and 30.
pub(crate) fn values_at_last(rt: &impl Abort, alloc: Global) -> Values {
    match new_values(alloc) {
        Ok(values) => values,
        Err(fault) => {
            want_no_memory(rt, fault);
            new_values(alloc).expect(rt, "memory for values")
        }
    }
}
