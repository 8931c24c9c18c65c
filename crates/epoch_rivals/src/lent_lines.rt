//! A queue and a stack of lent nodes, to which each thread pushes a number and pops one in turn.
ghost use Rattle.std.specs.Prelude.{◌≡◌};

use crate::lent::{LentOwn, cells_in, made_for, store_of};
use crate::side::{RoundPart, RoundPlan, Side, all_rounds};
use crate::stopwatch::Nanos;
use epoch_lend::domain::Domain;
use epoch_lend::readers::posts::{Made, PostSet, Posts};
use epoch_lend::session::LendingGuard;
use epoch_lend_pointers::{Store, Writer};
use epoch_lists::{LendingQueue, LendingStack, LentNode, ListNode};
use std::alloc::Global;
use std::io;
use std::marker::Brand;
use std::sync::Wait;
use std::thread::Threads;
use std::time::Clock;

/// Tries of a push or a pop: as many as none needs.
const TRIES: u32 = 1_000_000;

// So many that no call is refused while a thread is stopped that is pinned.
const CELLS: u32 = 1_048_576;

/// A node that is made of a number. As in the module `lent_ordered`, the sides are written for any type of such nodes.
trait LineNode: LentNode {
    /// Makes a node of this number.
    fn of(number: u64) -> Self;
}

impl LineNode for ListNode<u64> {
    #[inline(always)]
    fn of(number: u64) -> ListNode<u64> {
        ListNode::new(number)
    }
}

/// A queue of lent nodes.
#[derive(Drop)]
struct NumberQueue<'q, 's, J: PostSet, N> {
    alloc: Global,
    store: &'q Store<'s, J, N>,
    queue: LendingQueue<'q, 's, J, N>,
}

impl<'q, 's, J: PostSet, N: LineNode> Side for NumberQueue<'q, 's, J, N> {
    type Own = LentOwn<'q, 's, J, N>;

    fn join(&self) -> Option<LentOwn<'q, 's, J, N>> {
        LentOwn::join(self.alloc, self.store)
    }

    fn turns<R: Clock + Wait>(
        &self,
        _rt: &R,
        own: &mut LentOwn<'q, 's, J, N>,
        part: RoundPart,
    ) -> u64 {
        own.queue_pairs(&self.queue, part.turns)
    }

    fn leave<R: Wait>(&self, rt: &R, own: LentOwn<'q, 's, J, N>) {
        own.leave(rt);
    }
}

/// A stack of lent nodes.
#[derive(Drop)]
struct NumberStack<'q, 's, J: PostSet, N> {
    alloc: Global,
    store: &'q Store<'s, J, N>,
    stack: LendingStack<'q, 's, J, N>,
}

impl<'q, 's, J: PostSet, N: LineNode> Side for NumberStack<'q, 's, J, N> {
    type Own = LentOwn<'q, 's, J, N>;

    fn join(&self) -> Option<LentOwn<'q, 's, J, N>> {
        LentOwn::join(self.alloc, self.store)
    }

    fn turns<R: Clock + Wait>(
        &self,
        _rt: &R,
        own: &mut LentOwn<'q, 's, J, N>,
        part: RoundPart,
    ) -> u64 {
        own.stack_pairs(&self.stack, part.turns)
    }

    fn leave<R: Wait>(&self, rt: &R, own: LentOwn<'q, 's, J, N>) {
        own.leave(rt);
    }
}

#[inline(always)]
fn enqueue<'s, J: PostSet, N: LineNode>(
    queue: &LendingQueue<'_, 's, J, N>,
    writer: &mut Writer<'_, 's, J, N>,
    guard: &LendingGuard<'_, J>,
    number: u64,
) {
    let _ = queue.push(writer, guard, N::of(number), TRIES);
}

/// Returns whether there was a node.
#[inline(always)]
fn dequeue<'s, J: PostSet, N: LineNode>(
    queue: &LendingQueue<'_, 's, J, N>,
    writer: &mut Writer<'_, 's, J, N>,
    guard: &LendingGuard<'_, J>,
) -> bool {
    match queue.pop(writer, guard, TRIES) {
        Ok(Some(_)) => true,
        _ => false,
    }
}

#[inline(always)]
fn push<'s, J: PostSet, N: LineNode>(
    stack: &LendingStack<'_, 's, J, N>,
    writer: &mut Writer<'_, 's, J, N>,
    guard: &LendingGuard<'_, J>,
    number: u64,
) {
    let _ = stack.push(writer, guard, N::of(number), TRIES);
}

/// Returns whether there was a node.
#[inline(always)]
fn pop<'s, J: PostSet, N: LineNode>(
    stack: &LendingStack<'_, 's, J, N>,
    writer: &mut Writer<'_, 's, J, N>,
    guard: &LendingGuard<'_, J>,
) -> bool {
    match stack.pop(writer, guard, TRIES) {
        Ok(Some(_)) => true,
        _ => false,
    }
}

impl<'q, 's, J: PostSet, N: LineNode> LentOwn<'q, 's, J, N> {
    #[inline(never)]
    fn queue_pairs(&mut self, queue: &LendingQueue<'_, 's, J, N>, turns: u64) -> u64 {
        let mut done: u64 = 0;
        for number in 0..turns {
            let guard = self.session.pin();
            enqueue(queue, &mut self.writer, &guard, number);
            self.session.unpin(guard);
            let guard = self.session.pin();
            let is_found = dequeue(queue, &mut self.writer, &guard);
            self.session.unpin(guard);
            done = done.wrapping_add(is_found as u64);
        }
        done
    }

    #[inline(never)]
    fn stack_pairs(&mut self, stack: &LendingStack<'_, 's, J, N>, turns: u64) -> u64 {
        let mut done: u64 = 0;
        for number in 0..turns {
            let guard = self.session.pin();
            push(stack, &mut self.writer, &guard, number);
            self.session.unpin(guard);
            let guard = self.session.pin();
            let is_found = pop(stack, &mut self.writer, &guard);
            self.session.unpin(guard);
            done = done.wrapping_add(is_found as u64);
        }
        done
    }
}

/// Pushes and pops, each under a pin of its own.
#[derive(Clone, Copy)]
pub enum PairRow {
    Queue,
    Stack,
}

fn stack_rounds<
    R: Clock + Threads + Wait + Sync,
    J: PostSet + Send + Sync,
    N: LineNode + Send + Sync,
>(rt: &R, alloc: Global, plan: RoundPlan, store: &Store<'_, J, N>, times: &mut [Nanos]) -> u64 {
    let side = NumberStack {
        alloc,
        store,
        stack: LendingStack::new(store),
    };
    all_rounds(rt, plan, &side, times)
}

fn queue_rounds<
    R: Clock + Threads + Wait + Sync,
    J: PostSet + Send + Sync,
    N: LineNode + Send + Sync,
>(rt: &R, alloc: Global, plan: RoundPlan, store: &Store<'_, J, N>, times: &mut [Nanos]) -> u64 {
    let Some(own) = LentOwn::join(alloc, store) else {
        return 0;
    };
    let mut making = own;
    let made = LendingQueue::new(&mut making.writer, N::of(0));
    making.leave(rt);
    let Ok(queue) = made else {
        return 0;
    };
    let side = NumberQueue {
        alloc,
        store,
        queue,
    };
    all_rounds(rt, plan, &side, times)
}

fn rounds_in<R: Clock + Threads + Wait + Sync, J: PostSet + Send + Sync, N: LineNode + Send + Sync>(
    rt: &R,
    alloc: Global,
    plan: RoundPlan,
    row: PairRow,
    store: &Store<'_, J, N>,
    times: &mut [Nanos],
) -> u64 {
    match row {
        PairRow::Queue => queue_rounds(rt, alloc, plan, store, times),
        PairRow::Stack => stack_rounds(rt, alloc, plan, store, times),
    }
}

fn rounds_over<
    R: Clock + Threads + Wait + Sync,
    J: PostSet + Send + Sync,
    N: LineNode + Send + Sync,
>(
    rt: &R,
    alloc: Global,
    made: Made,
    plan: RoundPlan,
    row: PairRow,
    times: &mut [Nanos],
) -> io::Result<u64>
    requires { made.posts.items ≡ J.posts }
{
    let domain = Domain::new(Posts::<J>::of(alloc, made)?);
    let mut cells = cells_in::<J, N>(alloc, CELLS, CELLS, &domain)?;
    let store = store_of(alloc, &domain, &mut cells)?;
    let done = rounds_in(rt, alloc, plan, row, &store, times);
    let _ = store.end();
    Ok(done)
}

/// Makes as many rounds as there are times, and returns how many turns of the last one did what they should.
pub fn rounds<R: Clock + Threads + Wait + Sync>(
    rt: &R,
    alloc: Global,
    plan: RoundPlan,
    row: PairRow,
    times: &mut [Nanos],
) -> io::Result<u64> {
    let made = made_for(alloc, plan)?;
    rounds_over::<R, Brand, ListNode<u64>>(rt, alloc, made, plan, row, times)
}
