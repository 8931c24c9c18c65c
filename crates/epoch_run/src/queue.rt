//! `epoch-run queue N K`: N threads that push and pop over one queue, K times each.
ghost use Rattle.std.specs.Prelude.{◌≡◌};

use crate::sharing::{Structure, start_all};
use crate::tally::{Popped, TRIES, Tally};
use epoch_lend_pointers::{Domain, LendingGuard, LentCells, Made, PostSet, Posts, Store, Writer};
use epoch_lists::{LendingQueue, ListNode};
use epoch_script::Size;
use std::alloc::Global;
use std::marker::Brand;
use std::sync::Wait;
use std::thread::Threads;

/// A node of the queue: its value, and the pointer to the node behind it.
type Link = ListNode<u64>;

/// A whole run: makes the queue and what it stands on, has all threads push and pop, and ends the store. `None` where
/// anything was refused.
pub fn push_and_pop<R: Threads + Wait + Sync>(rt: &R, alloc: Global, size: Size) -> Option<Popped> {
    // A post for each thread.
    let Ok(made) = Made::new(alloc, size.threads as usize) else {
        return None;
    };
    run_over::<R, Brand>(rt, alloc, made, size)
}

/// The run, with sessions at these posts.
fn run_over<R: Threads + Wait + Sync, J: PostSet + Send + Sync>(
    rt: &R,
    alloc: Global,
    made: Made,
    size: Size,
) -> Option<Popped>
    requires { made.posts.items ≡ J.posts }
{
    let domain = Domain::new(Posts::<J>::of(alloc, made).ok()?);
    // Each value has a cell, as the first node has. A writer keeps 64 free ones at most for its next nodes, so no push
    // has to wait for a cell.
    let capacity = size.jobs() as u32 + 1 + 128 * (size.threads as u32 + 1);
    let mut cells = LentCells::<J, Link>::new(alloc, capacity, &domain).ok()?;
    let store = Store::new(alloc, &domain, &mut cells).ok()?;
    let tally = Tally::new();
    share_queue(rt, alloc, &store, size, &tally);
    let _ = store.end();
    tally.popped()
}

/// Makes an empty queue, and has all threads push and pop.
fn share_queue<'q, 's, R: Threads + Wait + Sync, J: PostSet + Send + Sync>(
    rt: &R,
    alloc: Global,
    store: &'q Store<'s, J, Link>,
    size: Size,
    tally: &Tally,
) {
    let Ok(mut writer) = Writer::new(alloc, store) else {
        return tally.refuse();
    };
    let made = LendingQueue::new(&mut writer, ListNode::new(0));
    leave(rt, writer, tally);
    match made {
        Ok(queue) => start_all(rt, alloc, store, &queue, size, tally),
        Err(_) => tally.refuse(),
    }
}

impl<'s, J: PostSet + Send + Sync> Structure<Store<'s, J, Link>> for LendingQueue<'_, 's, J, Link> {
    fn take_part<R: Wait>(
        &self,
        rt: &R,
        alloc: Global,
        store: &Store<'s, J, Link>,
        values: (u64, u64),
        tally: &Tally,
    ) {
        participate(rt, alloc, store, self, values, tally);
    }
}

/// One thread: takes a post and makes a writer, does a round for each of its values, and gives both back.
fn participate<'s, R: Wait, J: PostSet>(
    rt: &R,
    alloc: Global,
    store: &Store<'s, J, Link>,
    queue: &LendingQueue<'_, 's, J, Link>,
    (first, rounds): (u64, u64),
    tally: &Tally,
) {
    let Some(mut session) = store.domain().session() else {
        return tally.refuse();
    };
    let Ok(mut writer) = Writer::new(alloc, store) else {
        return tally.refuse();
    };
    let mut guard = session.pin();
    for round in 0..rounds {
        go_round(queue, &mut writer, &guard, first.wrapping_add(round), tally);
        guard = guard.renew();
    }
    session.unpin(guard);
    leave(rt, writer, tally);
}

/// Pushes the value, and pops one.
fn go_round<'s, J: PostSet>(
    queue: &LendingQueue<'_, 's, J, Link>,
    writer: &mut Writer<'_, 's, J, Link>,
    guard: &LendingGuard<'_, J>,
    value: u64,
    tally: &Tally,
) {
    let pushed = queue.push(writer, guard, ListNode::new(value), TRIES);
    match queue.pop(writer, guard, TRIES) {
        Ok(Some(node)) if pushed.is_ok() => tally.add(*node.value()),
        Ok(None) if pushed.is_ok() => {}
        _ => tally.refuse(),
    }
}

/// Releases the writer, and tries again for as long as memory is refused to it.
fn leave<R: Wait, J: PostSet>(rt: &R, writer: Writer<'_, '_, J, Link>, tally: &Tally) {
    let mut staying = writer;
    for _ in rt.forever() {
        match staying.release() {
            Ok(()) => return,
            Err((writer, _)) => {
                tally.refuse();
                staying = writer;
            }
        }
    }
    unreachable!()
}
