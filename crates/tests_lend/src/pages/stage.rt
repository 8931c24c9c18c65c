//! A domain for the pages whose values are lent, and calls of sessions and writers.
ghost use Rattle.std.specs.Prelude.{◌≡◌};

use crate::pages::{config, owners, service, sorted_list, work_queue};
use epoch_lend_pointers::{Domain, LentCells, Made, PostSet, Posts};
use std::alloc::Global;
use std::marker::Brand;
use std::process::Abort;
use std::sync::Wait;
use std::sync::atomic::AtomicU64;
use std::sync::atomic::Ordering::SeqCst;
use std::thread::Threads;

/// The page that is run.
#[derive(Clone, Copy)]
pub(crate) enum Page {
    Config,
    Owners,
    Service,
    SortedList,
    WorkQueue,
}

/// What the threads of a run count.
#[derive(Drop)]
pub(crate) struct Tally {
    pub(crate) first: AtomicU64,
    pub(crate) second: AtomicU64,
}

/// Adds the number to the count.
pub(crate) fn add(count: &AtomicU64, number: u64) {
    let _ = count.fetch_add(number, SeqCst);
}

/// Runs the page in a domain of posts for 8 threads and one more. Returns what was counted.
pub(crate) fn play<R: Abort + Threads + Wait + Sync>(
    rt: &R,
    alloc: Global,
    page: Page,
) -> (u64, u64) {
    let made = Made::new(alloc, 9).expect(rt, "memory for posts");
    begin::<Brand, R>(rt, alloc, made, page)
}

fn begin<J: PostSet + Send + Sync, R: Abort + Threads + Wait + Sync>(
    rt: &R,
    alloc: Global,
    made: Made,
    page: Page,
) -> (u64, u64)
    requires { made.posts.items ≡ J.posts }
{
    let domain = Domain::new(Posts::<J>::of(alloc, made).expect(rt, "memory for posts"));
    let tally = Tally {
        first: AtomicU64::new(0),
        second: AtomicU64::new(0),
    };
    match page {
        Page::Config => config::run(rt, alloc, &domain, &tally),
        Page::Owners => owners::run(rt, alloc, &domain, &tally),
        Page::Service => service::run(rt, alloc, &domain),
        Page::SortedList => sorted_list::run(rt, alloc, &domain, &tally),
        Page::WorkQueue => work_queue::run(rt, alloc, &domain, &tally),
    }
    (tally.first.load(SeqCst), tally.second.load(SeqCst))
}

/// Cells for a store in this domain.
pub(crate) fn cells<J: PostSet, V: Drop>(
    rt: &impl Abort,
    alloc: Global,
    domain: &Domain<J>,
) -> LentCells<J, V> {
    LentCells::new(alloc, 2_048, domain).expect(rt, "memory for cells")
}
