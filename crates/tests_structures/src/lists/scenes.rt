//! The tests of the stack and of the queue: each scene is played with both.
use crate::lending::{Part, Scene, join, leave, play};
use crate::lists::alone::{full, held, in_order, refusals, shown};
use crate::lists::beside_std::compare;
use crate::lists::pile::{Link, Pile};
use epoch_lend::readers::posts::PostSet;
use epoch_lend_pointers::Store;
use epoch_lists::{LendingQueue, LendingStack, ListNode};
use std::alloc::Global;
use std::process::Abort;

/// What is done with a pile.
#[derive(Clone, Copy)]
enum Deed {
    Order,
    Refusals,
    Full,
    Held,
    Random,
    Shown,
}

/// What is done with a stack, or with a queue.
#[derive(Clone, Copy)]
struct PileScene {
    deed: Deed,
    is_queue: bool,
}

/// An empty stack, or an empty queue, for which a cell is free. The first node of a queue has a value that no call may
/// answer.
pub(crate) fn empty_pile<'q, 's, J: PostSet>(
    rt: &impl Abort,
    store: &'q Store<'s, J, Link>,
    part: &mut Part<'q, 's, J, Link>,
    is_queue: bool,
) -> Pile<'q, 's, J> {
    if !is_queue {
        return Pile::Stack(LendingStack::new(store));
    }
    match LendingQueue::new(&mut part.writer, ListNode::new(u64::MAX)) {
        Ok(queue) => Pile::Queue(queue),
        Err(refused) => panic!(rt; "{} is a cell for the first node", refused.fault),
    }
}

impl Scene for PileScene {
    type Node = Link;

    fn act<'s, R: Abort, J: PostSet>(
        self,
        rt: &R,
        alloc: Global,
        store: &Store<'s, J, Link>,
        others: &Store<'s, J, Link>,
    ) {
        let mut part = join(rt, alloc, store);
        let pile = empty_pile(rt, store, &mut part, self.is_queue);
        act_on(rt, alloc, (store, others), &pile, &mut part, self.deed);
        leave(rt, part);
    }
}

/// Does this with the pile of the first one of these stores.
fn act_on<'s, J: PostSet>(
    rt: &impl Abort,
    alloc: Global,
    (store, others): (&Store<'s, J, Link>, &Store<'s, J, Link>),
    pile: &Pile<'_, 's, J>,
    part: &mut Part<'_, 's, J, Link>,
    deed: Deed,
) {
    match deed {
        Deed::Order => in_order(rt, pile, part),
        Deed::Refusals => refusals(rt, alloc, others, pile, part),
        Deed::Full => full(rt, pile, part),
        Deed::Held => held(rt, alloc, store, pile, part),
        Deed::Random => compare(rt, alloc, pile, part),
        Deed::Shown => shown(rt, alloc, pile),
    }
}

/// Plays this with a stack and with a queue, for whose values there are this many cells. A queue has a cell for its
/// first node, which is left.
fn play_both<R: Abort>(rt: &R, alloc: Global, deed: Deed, cells: u16) {
    let is_queue = false;
    play(rt, alloc, (cells, 0), PileScene { deed, is_queue });
    let is_queue = true;
    let cells = cells.wrapping_add(1);
    play(rt, alloc, (cells, 1), PileScene { deed, is_queue });
}

#[test]
fn nodes_come_off_in_their_order(rt: HostRuntime) {
    play_both(&rt, rt.alloc(), Deed::Order, 8)
}

#[test]
fn strangers_and_calls_with_no_try_are_refused(rt: HostRuntime) {
    play_both(&rt, rt.alloc(), Deed::Refusals, 2)
}

#[test]
fn with_no_free_cell_nothing_is_pushed(rt: HostRuntime) {
    play_both(&rt, rt.alloc(), Deed::Full, 0)
}

#[test]
fn a_node_stays_lent_after_another_pops_it(rt: HostRuntime) {
    play_both(&rt, rt.alloc(), Deed::Held, 2)
}

// After the run none is left.
#[test]
fn random_calls_answer_as_a_deque_of_std(rt: HostRuntime) {
    play_both(&rt, rt.alloc(), Deed::Random, 128)
}

#[test]
fn a_pile_is_shown_by_the_number_of_its_store(rt: HostRuntime) {
    play_both(&rt, rt.alloc(), Deed::Shown, 1)
}
