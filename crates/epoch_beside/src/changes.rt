//! Rounds of changes: values behind a pointer that are replaced, and nodes of a stack and of a queue.
ghost use Rattle.std.specs.Prelude.{◌≡◌, IsSome};

use crate::lent::{LentIdle, LentRound, cells_in, domain_over, made_for, store_of};
use crate::rounds::{Round, RoundSize, all_rounds, found};
use epoch_atomic::atomic::Atomic;
use epoch_lend::readers::posts::{Made, PostSet};
use epoch_lend::session::{LendingGuard, Session};
use epoch_lend_pointers::{Store, Writer};
use epoch_lists::{LendingQueue, LendingStack, ListNode};
use std::alloc::Global;
use std::io;
use std::marker::Brand;
use std::sync::Wait;
use std::sync::atomic::Ordering::SeqCst;
use std::thread::Threads;
use std::time::Clock;

/// Tries of a push or a pop.
const TRIES: u32 = 64;

/// Values that are replaced under one guard.
const TOGETHER: u64 = 64;

type Link = ListNode<u64>;

/// What a turn does.
#[derive(Clone, Copy)]
pub enum LinkRow {
    /// Replaces a value by a swap, under a pin of its own.
    Replace,
    /// The same, 64 under one guard, and a flush.
    ReplaceTogether,
    /// Puts a value behind a new pointer and takes it back, while no reader is pinned.
    Own,
    /// Pushes to a stack and pops, each under a pin of its own.
    Stack,
    /// The same, under one guard that is renewed before each.
    RenewedStack,
    /// Pushes to a queue and pops, each under a pin of its own.
    Queue,
    /// The same, under one guard that is renewed before each.
    RenewedQueue,
}

/// A pointer whose value is replaced, or new ones.
#[derive(Drop)]
struct Pointed {
    pointer: Atomic<Link>,
    row: LinkRow,
}

/// Puts a value behind the pointer, and retires the one before. Returns 1 if it did. First, room is made for what is
/// retired, so that no value is taken out of reach and then not retired.
#[inline(always)]
fn replace<'s, J: PostSet>(
    writer: &mut Writer<'_, 's, J, Link>,
    guard: &LendingGuard<'_, J>,
    pointer: &Atomic<Link>,
    value: u64,
) -> u64 {
    if writer.make_room().is_err() {
        return 0;
    }
    let Ok(placed) = writer.place(guard, ListNode::new(value)) else {
        return 0;
    };
    let before = writer.store().swap(pointer, placed, SeqCst, guard);
    (before.is_null() || writer.retire(before).is_ok()) as u64
}

/// Puts this many values behind the pointer under one guard, one after the other.
#[inline(always)]
fn replace_some<'s, J: PostSet>(
    writer: &mut Writer<'_, 's, J, Link>,
    guard: &LendingGuard<'_, J>,
    pointer: &Atomic<Link>,
) -> u64 {
    let mut done: u64 = 0;
    for value in 0..TOGETHER {
        done = done.wrapping_add(replace(writer, guard, pointer, value));
    }
    done
}

impl<'q, 's, J: PostSet> LentIdle<'q, 's, J, Link> {
    /// Replaces a value, each under a pin of its own.
    #[inline(never)]
    fn replaces(&mut self, pointer: &Atomic<Link>, turns: u64) -> u64 {
        let mut done: u64 = 0;
        for turn in 0..turns {
            let guard = self.session.pin();
            done = done.wrapping_add(replace(&mut self.writer, &guard, pointer, turn));
            self.session.unpin(guard);
        }
        done
    }

    #[inline(never)]
    fn replaces_together(&mut self, pointer: &Atomic<Link>, turns: u64) -> u64 {
        let mut done: u64 = 0;
        for _ in 0..turns / TOGETHER {
            let guard = self.session.pin();
            done = done.wrapping_add(replace_some(&mut self.writer, &guard, pointer));
            let _ = self.writer.flush();
            self.session.unpin(guard);
        }
        done
    }

    /// No value is behind the pointer of another turn.
    #[inline(never)]
    fn owns(&mut self, turns: u64) -> u64 {
        let mut done: u64 = 0;
        for turn in 0..turns {
            done = done.wrapping_add(self.own(turn));
        }
        done
    }

    /// Puts a value behind a new pointer, and takes it back. Returns 1 if it came back.
    #[inline(always)]
    fn own(&mut self, value: u64) -> u64 {
        let guard = self.session.pin();
        let pointer = match self.writer.place(&guard, ListNode::new(value)) {
            Ok(placed) => Atomic::<Link>::from(placed),
            Err(_) => Atomic::null(),
        };
        self.session.unpin(guard);
        let alone = pointer.load_at(SeqCst, self.writer.store().home());
        self.writer.take_back(alone).is_ok() as u64
    }
}

impl<'w, 'q, 's, J> Round for LentRound<'w, 'q, 's, J, Link, Pointed>
where
    J: PostSet + Send + Sync,
{
    type Participant = LentIdle<'q, 's, J, Link>;

    fn register(&self) -> Option<LentIdle<'q, 's, J, Link>> {
        LentIdle::join(self.alloc, self.store)
    }

    fn turns<R: Wait>(&self, _rt: &R, idle: &mut LentIdle<'q, 's, J, Link>, turns: u64) -> u64 {
        match self.shared.row {
            LinkRow::Own => idle.owns(turns),
            LinkRow::ReplaceTogether => idle.replaces_together(&self.shared.pointer, turns),
            _ => idle.replaces(&self.shared.pointer, turns),
        }
    }

    fn leave<R: Wait>(&self, rt: &R, idle: LentIdle<'q, 's, J, Link>) {
        idle.leave(rt);
    }
}

fn pointer_rounds_in<'s, R: Clock + Threads + Wait + Sync, J: PostSet + Send + Sync>(
    rt: &R,
    alloc: Global,
    size: RoundSize,
    store: &Store<'s, J, Link>,
    row: LinkRow,
    times: &mut [u64],
) -> u64 {
    let pointer = Atomic::null();
    let pointed = Pointed { pointer, row };
    let round = LentRound {
        alloc,
        store,
        shared: &pointed,
    };
    all_rounds(rt, size, &round, times)
}

fn pointer_rounds<R: Clock + Threads + Wait + Sync, J: PostSet + Send + Sync>(
    rt: &R,
    alloc: Global,
    made: Made,
    size: RoundSize,
    row: LinkRow,
    times: &mut [u64],
) -> io::Result<u64>
    requires { made.posts.items ≡ J.posts }
{
    let domain = domain_over::<J>(alloc, made)?;
    let mut cells = cells_in(alloc, &domain)?;
    let store = store_of::<J, Link>(alloc, &domain, &mut cells)?;
    let done = pointer_rounds_in(rt, alloc, size, &store, row, times);
    let _ = store.end();
    Ok(done)
}

/// Pops a node of the stack. Returns 1 if there was one.
#[inline(always)]
fn popped<'s, J: PostSet>(
    stack: &LendingStack<'_, 's, J, Link>,
    writer: &mut Writer<'_, 's, J, Link>,
    guard: &LendingGuard<'_, J>,
) -> u64 {
    found(&stack.pop(writer, guard, TRIES))
}

/// Pops a node of the queue. Returns 1 if there was one.
#[inline(always)]
fn dequeued<'s, J: PostSet>(
    queue: &LendingQueue<'_, 's, J, Link>,
    writer: &mut Writer<'_, 's, J, Link>,
    guard: &LendingGuard<'_, J>,
) -> u64 {
    found(&queue.pop(writer, guard, TRIES))
}

impl<'q, 's, J: PostSet> LentIdle<'q, 's, J, Link> {
    /// Pushes to a stack and pops, each under a pin of its own.
    #[inline(never)]
    fn pushes(&mut self, stack: &LendingStack<'_, 's, J, Link>, turns: u64) -> u64 {
        let mut done: u64 = 0;
        for turn in 0..turns {
            let guard = self.session.pin();
            let _ = stack.push(&mut self.writer, &guard, ListNode::new(turn), TRIES);
            self.session.unpin(guard);
            let guard = self.session.pin();
            done = done.wrapping_add(popped(stack, &mut self.writer, &guard));
            self.session.unpin(guard);
        }
        done
    }

    /// The same with a queue.
    #[inline(never)]
    fn enqueues(&mut self, queue: &LendingQueue<'_, 's, J, Link>, turns: u64) -> u64 {
        let mut done: u64 = 0;
        for turn in 0..turns {
            let guard = self.session.pin();
            let _ = queue.push(&mut self.writer, &guard, ListNode::new(turn), TRIES);
            self.session.unpin(guard);
            let guard = self.session.pin();
            done = done.wrapping_add(dequeued(queue, &mut self.writer, &guard));
            self.session.unpin(guard);
        }
        done
    }
}

/// Pushes to a stack and pops, under a guard that is renewed before each.
#[inline(never)]
fn renewed_pushes<'s, J: PostSet>(
    stack: &LendingStack<'_, 's, J, Link>,
    session: &mut Session<'s, J>,
    writer: &mut Writer<'_, 's, J, Link>,
    turns: u64,
) -> u64
    requires free { IsSome session.old.reader }
    ensures free { IsSome session.new.reader }
{
    let mut done: u64 = 0;
    let mut guard = session.pin();
    for turn in 0..turns {
        guard = guard.renew();
        let _ = stack.push(writer, &guard, ListNode::new(turn), TRIES);
        guard = guard.renew();
        done = done.wrapping_add(popped(stack, writer, &guard));
    }
    session.unpin(guard);
    done
}

/// The same with a queue.
#[inline(never)]
fn renewed_enqueues<'s, J: PostSet>(
    queue: &LendingQueue<'_, 's, J, Link>,
    session: &mut Session<'s, J>,
    writer: &mut Writer<'_, 's, J, Link>,
    turns: u64,
) -> u64
    requires free { IsSome session.old.reader }
    ensures free { IsSome session.new.reader }
{
    let mut done: u64 = 0;
    let mut guard = session.pin();
    for turn in 0..turns {
        guard = guard.renew();
        let _ = queue.push(writer, &guard, ListNode::new(turn), TRIES);
        guard = guard.renew();
        done = done.wrapping_add(dequeued(queue, writer, &guard));
    }
    session.unpin(guard);
    done
}

/// A stack or a queue, and whether one guard is renewed for all calls.
#[derive(Drop)]
struct Pushed<P> {
    pile: P,
    is_renewed: bool,
}

impl<'w, 'm, 'q, 's, J> Round
    for LentRound<'w, 'q, 's, J, Link, Pushed<LendingStack<'m, 's, J, Link>>>
where
    J: PostSet + Send + Sync,
{
    type Participant = LentIdle<'q, 's, J, Link>;

    fn register(&self) -> Option<LentIdle<'q, 's, J, Link>> {
        LentIdle::join(self.alloc, self.store)
    }

    fn turns<R: Wait>(&self, _rt: &R, idle: &mut LentIdle<'q, 's, J, Link>, turns: u64) -> u64 {
        let Pushed { pile, is_renewed } = self.shared;
        if *is_renewed {
            return renewed_pushes(pile, &mut idle.session, &mut idle.writer, turns);
        }
        idle.pushes(pile, turns)
    }

    fn leave<R: Wait>(&self, rt: &R, idle: LentIdle<'q, 's, J, Link>) {
        idle.leave(rt);
    }
}

impl<'w, 'm, 'q, 's, J> Round
    for LentRound<'w, 'q, 's, J, Link, Pushed<LendingQueue<'m, 's, J, Link>>>
where
    J: PostSet + Send + Sync,
{
    type Participant = LentIdle<'q, 's, J, Link>;

    fn register(&self) -> Option<LentIdle<'q, 's, J, Link>> {
        LentIdle::join(self.alloc, self.store)
    }

    fn turns<R: Wait>(&self, _rt: &R, idle: &mut LentIdle<'q, 's, J, Link>, turns: u64) -> u64 {
        let Pushed { pile, is_renewed } = self.shared;
        if *is_renewed {
            return renewed_enqueues(pile, &mut idle.session, &mut idle.writer, turns);
        }
        idle.enqueues(pile, turns)
    }

    fn leave<R: Wait>(&self, rt: &R, idle: LentIdle<'q, 's, J, Link>) {
        idle.leave(rt);
    }
}

fn stack_rounds_in<'s, R: Clock + Threads + Wait + Sync, J: PostSet + Send + Sync>(
    rt: &R,
    alloc: Global,
    size: RoundSize,
    store: &Store<'s, J, Link>,
    is_renewed: bool,
    times: &mut [u64],
) -> u64 {
    let pushed = Pushed {
        pile: LendingStack::new(store),
        is_renewed,
    };
    let round = LentRound {
        alloc,
        store,
        shared: &pushed,
    };
    all_rounds(rt, size, &round, times)
}

fn stack_rounds<R: Clock + Threads + Wait + Sync, J: PostSet + Send + Sync>(
    rt: &R,
    alloc: Global,
    made: Made,
    size: RoundSize,
    is_renewed: bool,
    times: &mut [u64],
) -> io::Result<u64>
    requires { made.posts.items ≡ J.posts }
{
    let domain = domain_over::<J>(alloc, made)?;
    let mut cells = cells_in(alloc, &domain)?;
    let store = store_of::<J, Link>(alloc, &domain, &mut cells)?;
    let done = stack_rounds_in(rt, alloc, size, &store, is_renewed, times);
    let _ = store.end();
    Ok(done)
}

fn queue_rounds_in<'s, R: Clock + Threads + Wait + Sync, J: PostSet + Send + Sync>(
    rt: &R,
    alloc: Global,
    size: RoundSize,
    store: &Store<'s, J, Link>,
    is_renewed: bool,
    times: &mut [u64],
) -> u64 {
    let Some(idle) = LentIdle::join(alloc, store) else {
        return 0;
    };
    let mut making = idle;
    let made = LendingQueue::new(&mut making.writer, ListNode::new(0));
    making.leave(rt);
    let Ok(pile) = made else {
        return 0;
    };
    let pushed = Pushed { pile, is_renewed };
    let round = LentRound {
        alloc,
        store,
        shared: &pushed,
    };
    all_rounds(rt, size, &round, times)
}

fn queue_rounds<R: Clock + Threads + Wait + Sync, J: PostSet + Send + Sync>(
    rt: &R,
    alloc: Global,
    made: Made,
    size: RoundSize,
    is_renewed: bool,
    times: &mut [u64],
) -> io::Result<u64>
    requires { made.posts.items ≡ J.posts }
{
    let domain = domain_over::<J>(alloc, made)?;
    let mut cells = cells_in(alloc, &domain)?;
    let store = store_of::<J, Link>(alloc, &domain, &mut cells)?;
    let done = queue_rounds_in(rt, alloc, size, &store, is_renewed, times);
    let _ = store.end();
    Ok(done)
}

/// Makes rounds of changes.
pub fn rounds<R: Clock + Threads + Wait + Sync>(
    rt: &R,
    alloc: Global,
    size: RoundSize,
    row: LinkRow,
    times: &mut [u64],
) -> io::Result<u64> {
    let made = made_for(alloc, size)?;
    match row {
        LinkRow::Stack | LinkRow::RenewedStack => {
            let is_renewed = matches!(row, LinkRow::RenewedStack);
            stack_rounds::<R, Brand>(rt, alloc, made, size, is_renewed, times)
        }
        LinkRow::Queue | LinkRow::RenewedQueue => {
            let is_renewed = matches!(row, LinkRow::RenewedQueue);
            queue_rounds::<R, Brand>(rt, alloc, made, size, is_renewed, times)
        }
        _ => pointer_rounds::<R, Brand>(rt, alloc, made, size, row, times),
    }
}
