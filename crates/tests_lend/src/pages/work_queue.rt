//! Threads that hand jobs to others.
use crate::pages::stage::{Page, Tally, add, cells, play};
use crate::sessions::scoped;
use crate::stores::calls::{release, writer};
use crate::wants::want;
use epoch_examples::lent::work_queue::{JobNode, receive, send};
use epoch_lend_pointers::{Domain, PostSet, ScopedSession, Store, Writer};
use epoch_lists::{LendingQueue, OwnedNode};
use std::alloc::Global;
use std::process::Abort;
use std::sync::Wait;
use std::sync::atomic::Ordering::SeqCst;
use std::thread;
use std::thread::Threads;

/// How many threads send, and as many receive.
const SENDERS: u64 = 4;

/// How many jobs each of them sends, the first of one letter, and each one letter longer than the job before.
const EACH: u64 = 100;

/// An empty queue, for whose first node a cell is free.
pub(crate) fn empty_queue<'q, 's, J: PostSet>(
    rt: &impl Abort,
    alloc: Global,
    store: &'q Store<'s, J, JobNode>,
) -> LendingQueue<'q, 's, J, JobNode> {
    let mut writer = writer(rt, alloc, store);
    let made = LendingQueue::new(&mut writer, OwnedNode::empty());
    release(rt, writer);
    match made {
        Ok(queue) => queue,
        Err(refused) => panic!(rt; "{} is a cell for the first node", refused.fault),
    }
}

/// A job of this many letters.
fn job_of(rt: &impl Abort, alloc: Global, letters: u64) -> String {
    let mut job = String::new(alloc);
    for _ in 0..letters {
        job.push('a').expect(rt, "memory for a job");
    }
    job
}

fn send_each<'s, J: PostSet>(
    rt: &impl Abort,
    alloc: Global,
    store: &Store<'s, J, JobNode>,
    queue: &LendingQueue<'_, 's, J, JobNode>,
) {
    let mut session = scoped(rt, store.domain());
    let mut writer = writer(rt, alloc, store);
    for letters in 1..=EACH {
        let job = job_of(rt, alloc, letters);
        let sent = send(queue, &mut session, &mut writer, job);
        want(rt, "there is a cell for each job", sent.is_ok(), true);
    }
    release(rt, writer);
}

/// How many letters the job has that came, if one did.
fn receive_once<'s, J: PostSet>(
    queue: &LendingQueue<'_, 's, J, JobNode>,
    session: &mut ScopedSession<'_, J>,
    writer: &mut Writer<'_, 's, J, JobNode>,
) -> Option<u64> {
    match receive(queue, session, writer) {
        Ok(Some(job)) => Some(job.len() as u64),
        _ => None,
    }
}

/// Takes jobs until all threads together have those that were sent.
fn receive_some<'s, J: PostSet, R: Abort + Wait>(
    rt: &R,
    alloc: Global,
    store: &Store<'s, J, JobNode>,
    queue: &LendingQueue<'_, 's, J, JobNode>,
    tally: &Tally,
) {
    let mut session = scoped(rt, store.domain());
    let mut writer = writer(rt, alloc, store);
    for _ in rt.forever() {
        if tally.first.load(SeqCst) == SENDERS * EACH {
            break;
        }
        match receive_once(queue, &mut session, &mut writer) {
            Some(letters) => {
                add(&tally.second, letters);
                add(&tally.first, 1);
            }
            None => thread::yield_now(),
        }
    }
    release(rt, writer);
}

fn run_at_once<'s, J: PostSet + Send + Sync, R: Abort + Threads + Wait + Sync>(
    rt: &R,
    alloc: Global,
    store: &Store<'s, J, JobNode>,
    queue: &LendingQueue<'_, 's, J, JobNode>,
    tally: &Tally,
) {
    thread::scope(thread::scope_env(), rt, |scope| {
        for _ in 0..SENDERS {
            let _ = scope.spawn(move || send_each(rt, alloc, store, queue));
            let _ = scope.spawn(move || receive_some(rt, alloc, store, queue, tally));
        }
    });
}

pub(crate) fn run<J: PostSet + Send + Sync, R: Abort + Threads + Wait + Sync>(
    rt: &R,
    alloc: Global,
    domain: &Domain<J>,
    tally: &Tally,
) {
    let mut cells = cells(rt, alloc, domain);
    let store = Store::new(alloc, domain, &mut cells).expect(rt, "memory for a store");
    run_at_once(rt, alloc, &store, &empty_queue(rt, alloc, &store), tally);
    let _ = store.end();
}

#[test]
fn four_threads_receive_what_four_others_send(rt: HostRuntime) {
    let (count, letters) = play(&rt, rt.alloc(), Page::WorkQueue);
    want(&rt, "how many jobs came", count, SENDERS * EACH);
    want(&rt, "their letters", letters, SENDERS * 5050);
}
