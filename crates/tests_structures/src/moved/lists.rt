//! Values that a stack and a queue of lent nodes move.
ghost use Rattle.std.specs.Prelude.{◌≡◌};

use crate::counts::{counts_of, want_each};
use crate::lending::{
    AFTER_A_RACE, Part, Scene, cells_in, domain_over, flush_if, join, leave, pin, play, posts,
    rounds, store_of,
};
use crate::moved::seats::{Seat, pop_the_rest, pop_values, push_and_pop, push_values};
use crate::moved::values::{Drops, Token, drops_of};
use crate::wants::{want, want_ok};
use epoch_cells::{Fault, Refused};
use epoch_lend::readers::posts::{Made, PostSet};
use epoch_lend::session::LendingGuard;
use epoch_lend_pointers::{Store, Writer};
use epoch_lists::{LendingQueue, LendingStack, MovesValue, OwnedNode};
use std::alloc::Global;
use std::marker::Brand;
use std::process::Abort;
use std::sync::Wait;
use std::sync::atomic::AtomicU64;
use std::thread;
use std::thread::Threads;

/// A node of a stack or a queue.
type Link = OwnedNode<Token>;

/// A stack or a queue. It is written for any type of nodes: that threads may share it would meet a limit of the checker
/// where the type is known, which compares all that is known of a node once for each reference to one.
#[derive(Drop)]
enum MovedPile<'q, 's, J: PostSet, N> {
    Stack(LendingStack<'q, 's, J, N>),
    Queue(LendingQueue<'q, 's, J, N>),
}

impl<'s, J: PostSet, N: MovesValue<Value = Token>> MovedPile<'_, 's, J, N> {
    /// Pushes the value in one try.
    fn push(
        &self,
        writer: &mut Writer<'_, 's, J, N>,
        guard: &LendingGuard<'_, J>,
        token: Token,
    ) -> Result<(), Refused<Token>> {
        match self {
            MovedPile::Stack(it) => it.push_owned(writer, guard, token, 1),
            MovedPile::Queue(it) => it.push_owned(writer, guard, token, 1),
        }
    }

    /// Pops a value in one try.
    fn pop(
        &self,
        writer: &mut Writer<'_, 's, J, N>,
        guard: &LendingGuard<'_, J>,
    ) -> Result<Option<Token>, Fault> {
        match self {
            MovedPile::Stack(it) => it.pop_owned(writer, guard, 1),
            MovedPile::Queue(it) => it.pop_owned(writer, guard, 1),
        }
    }
}

/// A participant of a stack, or of a queue.
struct LentSeat<'p, 'q, 's, J: PostSet, N> {
    pile: &'p MovedPile<'q, 's, J, N>,
    part: Part<'q, 's, J, N>,
}

impl<J: PostSet, N: MovesValue<Value = Token>> Seat for LentSeat<'_, '_, '_, J, N> {
    fn push<R: Abort>(
        &mut self,
        rt: &R,
        token: Token,
        flushes: bool,
    ) -> Result<(), Refused<Token>> {
        let guard = pin(rt, &mut self.part.session);
        let pushed = self.pile.push(&mut self.part.writer, &guard, token);
        self.part.session.unpin(guard);
        flush_if(&mut self.part.writer, flushes);
        pushed
    }

    fn pop<R: Abort>(&mut self, rt: &R, flushes: bool) -> Result<Option<Token>, Fault> {
        let guard = pin(rt, &mut self.part.session);
        let popped = self.pile.pop(&mut self.part.writer, &guard);
        self.part.session.unpin(guard);
        flush_if(&mut self.part.writer, flushes);
        popped
    }
}

/// An empty stack, or an empty queue with this first node, for which a cell is free.
fn empty_pile<'q, 's, J: PostSet, N: MovesValue>(
    rt: &impl Abort,
    store: &'q Store<'s, J, N>,
    part: &mut Part<'q, 's, J, N>,
    first: Option<N>,
) -> MovedPile<'q, 's, J, N> {
    let Some(first) = first else {
        return MovedPile::Stack(LendingStack::new(store));
    };
    let made = LendingQueue::new(&mut part.writer, first);
    MovedPile::Queue(want_ok(rt, "a cell for the first node", made))
}

/// The part of a participant that makes no further call.
fn part_of<'q, 's, J: PostSet, N>(seat: LentSeat<'_, 'q, 's, J, N>) -> Part<'q, 's, J, N> {
    let LentSeat { pile: _, part } = seat;
    part
}

/// What is done with values that are moved, which count their drops.
#[derive(Clone, Copy)]
struct MovedScene<'a> {
    is_queue: bool,
    // The values that come off, of three.
    popped: &'a [Option<u64>],
    drops: &'a Drops,
}

impl Scene for MovedScene<'_> {
    type Node = Link;

    fn act<'s, R: Abort, J: PostSet>(
        self,
        rt: &R,
        alloc: Global,
        store: &Store<'s, J, Link>,
        _others: &Store<'s, J, Link>,
    ) {
        let first = if self.is_queue {
            Some(Link::empty())
        } else {
            None
        };
        let mut part = join(rt, alloc, store);
        let pile = empty_pile(rt, store, &mut part, first);
        let mut seat = LentSeat { pile: &pile, part };
        push_values(rt, alloc, &mut seat, (3, 3, self.drops));
        pop_values(rt, &mut seat, self.popped);
        let mut part = part_of(seat);
        rounds(rt, &mut part, 5);
        leave(rt, part);
    }
}

/// Of three values these come off. What is left in a node, beside the first one of a queue, is dropped by the store's
/// end. Then each value was dropped once.
fn play_moved(rt: &impl Abort, alloc: Global, is_queue: bool, popped: &[Option<u64>], left: usize) {
    let drops = drops_of(rt, alloc, 3);
    let scene = MovedScene {
        is_queue,
        popped,
        drops: &drops,
    };
    play(rt, alloc, (8, left), scene);
    want_each(rt, "each value was dropped once", drops.as_slice(), 1);
}

#[test]
fn a_stack_of_lent_nodes_moves_values_in_and_out(rt: HostRuntime) {
    let popped = [Some(2), Some(1), Some(0), None];
    play_moved(&rt, rt.alloc(), false, &popped, 0);
}

#[test]
fn a_queue_of_lent_nodes_moves_values_in_and_out(rt: HostRuntime) {
    let popped = [Some(0), Some(1), Some(2), None];
    play_moved(&rt, rt.alloc(), true, &popped, 1);
}

#[test]
fn values_left_in_lent_nodes_are_dropped_by_the_end(rt: HostRuntime) {
    play_moved(&rt, rt.alloc(), false, &[Some(2)], 2);
    play_moved(&rt, rt.alloc(), true, &[Some(0)], 3);
}

/// How many values each of 8 threads moves.
const EACH: u64 = 500;

/// One thread: pushes each of these values, and pops one after each.
fn work<'q, 's, J: PostSet, N: MovesValue<Value = Token>, R: Abort + Wait>(
    rt: &R,
    alloc: Global,
    store: &'q Store<'s, J, N>,
    pile: &MovedPile<'q, 's, J, N>,
    both: (&[AtomicU64], &Drops),
    first: u64,
) {
    let part = join(rt, alloc, store);
    let mut seat = LentSeat { pile, part };
    push_and_pop(rt, alloc, &mut seat, both, (first, EACH));
    leave(rt, part_of(seat));
}

fn race<'q, 's, J: PostSet + Send + Sync, N, R: Abort + Threads + Wait + Sync>(
    rt: &R,
    alloc: Global,
    store: &'q Store<'s, J, N>,
    pile: &MovedPile<'q, 's, J, N>,
    both: (&[AtomicU64], &Drops),
)
where
    N: MovesValue<Value = Token> + Send + Sync,
{
    thread::scope(thread::scope_env(), rt, |scope| {
        for thread in 0..8u64 {
            let first = thread.wrapping_mul(EACH);
            let _ = scope.spawn(move || work(rt, alloc, store, pile, both, first));
        }
    });
}

// Each value comes off once, and nothing but a queue's first node is left.
fn begin<J: PostSet + Send + Sync, N, R: Abort + Threads + Wait + Sync>(
    rt: &R,
    alloc: Global,
    made: Made,
    first: Option<N>,
    counts: &[AtomicU64],
    drops: &Drops,
)
where
    N: MovesValue<Value = Token> + Send + Sync,
    requires { made.posts.items ≡ J.posts }
{
    let domain = domain_over::<J>(rt, alloc, made);
    let mut cells = cells_in(rt, alloc, &domain, 1_024);
    let store = store_of(rt, alloc, &domain, &mut cells);
    let mut part = join(rt, alloc, &store);
    let left = if first.is_some() { 1 } else { 0 };
    let pile = empty_pile(rt, &store, &mut part, first);
    race(rt, alloc, &store, &pile, (counts, drops));
    let mut seat = LentSeat { pile: &pile, part };
    pop_the_rest(rt, &mut seat, counts);
    let mut part = part_of(seat);
    rounds(rt, &mut part, AFTER_A_RACE);
    leave(rt, part);
    drop(pile);
    want(rt, "how many nodes are left", store.end(), left);
}

fn play_race<R: Abort + Threads + Wait + Sync>(rt: &R, alloc: Global, is_queue: bool) {
    let counts = counts_of(rt, alloc, 8 * EACH);
    let drops = drops_of(rt, alloc, 8 * EACH);
    let made = posts(rt, alloc);
    let first = if is_queue { Some(Link::empty()) } else { None };
    begin::<Brand, Link, R>(rt, alloc, made, first, &counts, &drops);
    want_each(rt, "each value was dropped once", drops.as_slice(), 1);
    want_each(rt, "each value came off once", &counts, 1);
}

#[test]
fn each_value_that_8_threads_move_comes_off_a_stack_of_lent_nodes_once(rt: HostRuntime) {
    play_race(&rt, rt.alloc(), false);
}

#[test]
fn each_value_that_8_threads_move_comes_off_a_queue_of_lent_nodes_once(rt: HostRuntime) {
    play_race(&rt, rt.alloc(), true);
}
