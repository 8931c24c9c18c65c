//! Calls on a stack or a queue by one thread, as tables.
use crate::lending::{Part, Told, join, leave, pin, rounds};
use crate::lists::pile::Call::{Peek, Pop, Push};
use crate::lists::pile::{Link, Pile, Row, value_of, want_call, want_rows};
use crate::shown::want_shown;
use crate::wants::want;
use epoch_cells::Fault;
use epoch_lend::readers::posts::PostSet;
use epoch_lend_pointers::Store;
use epoch_lists::{LendingQueue, ListNode};
use std::alloc::Global;
use std::process::Abort;

/// Nothing is there, or nothing but a success was to be told.
const NONE: Told = Ok(None);

const NO_CELL: Told = Err(Fault::CellsFull);

// A stack pops first what was pushed last. A look changes nothing.
const ORDER_OF_STACK: &[Row] = &[
    (Peek, 1, NONE),
    (Pop, 1, NONE),
    (Push(10), 1, NONE),
    (Peek, 1, Ok(Some(10))),
    (Push(20), 1, NONE),
    (Push(30), 1, NONE),
    (Peek, 1, Ok(Some(30))),
    (Pop, 1, Ok(Some(30))),
    (Push(40), 1, NONE),
    (Peek, 1, Ok(Some(40))),
    (Peek, 1, Ok(Some(40))),
    (Pop, 1, Ok(Some(40))),
    (Pop, 1, Ok(Some(20))),
    (Peek, 1, Ok(Some(10))),
    (Pop, 1, Ok(Some(10))),
    (Pop, 1, NONE),
    (Peek, 1, NONE),
];

// A queue pops first what was pushed first. A look changes nothing.
const ORDER_OF_QUEUE: &[Row] = &[
    (Peek, 1, NONE),
    (Pop, 1, NONE),
    (Push(10), 1, NONE),
    (Peek, 1, Ok(Some(10))),
    (Push(20), 1, NONE),
    (Push(30), 1, NONE),
    (Peek, 1, Ok(Some(10))),
    (Pop, 1, Ok(Some(10))),
    (Push(40), 1, NONE),
    (Peek, 1, Ok(Some(20))),
    (Peek, 1, Ok(Some(20))),
    (Pop, 1, Ok(Some(20))),
    (Pop, 1, Ok(Some(30))),
    (Peek, 1, Ok(Some(40))),
    (Pop, 1, Ok(Some(40))),
    (Pop, 1, NONE),
    (Peek, 1, NONE),
];

pub(crate) fn in_order<'s, J: PostSet>(
    rt: &impl Abort,
    pile: &Pile<'_, 's, J>,
    part: &mut Part<'_, 's, J, Link>,
) {
    let rows = match pile {
        Pile::Stack(_) => ORDER_OF_STACK,
        Pile::Queue(_) => ORDER_OF_QUEUE,
    };
    want_rows(rt, pile, part, rows);
}

const STRANGER: Told = Err(Fault::StrangerGuard);

// Any guard of the domain serves a look.
const OF_STRANGERS: &[Row] = &[
    (Push(7), 9, STRANGER),
    (Push(7), 0, STRANGER),
    (Pop, 9, STRANGER),
    (Peek, 9, NONE),
];

const WITH_NO_TRY: &[Row] = &[
    (Push(7), 0, Err(Fault::TriesOut)),
    (Pop, 0, Err(Fault::TriesOut)),
    (Peek, 1, NONE),
];

// A pile takes no writer of another store of its domain. With no try, nothing is done.
pub(crate) fn refusals<'s, J: PostSet>(
    rt: &impl Abort,
    alloc: Global,
    others: &Store<'s, J, Link>,
    pile: &Pile<'_, 's, J>,
    part: &mut Part<'_, 's, J, Link>,
) {
    let mut stranger = join(rt, alloc, others);
    want_rows(rt, pile, &mut stranger, OF_STRANGERS);
    leave(rt, stranger);
    want_rows(rt, pile, part, WITH_NO_TRY);
}

// No cell is free, so there is none for a push, and none for a further queue.
pub(crate) fn full<'s, J: PostSet>(
    rt: &impl Abort,
    pile: &Pile<'_, 's, J>,
    part: &mut Part<'_, 's, J, Link>,
) {
    want_rows(rt, pile, part, &[(Push(7), 1, NO_CELL), (Pop, 1, NONE)]);
    match LendingQueue::new(&mut part.writer, ListNode::new(5)) {
        Ok(_) => panic!(rt; "no cell is free"),
        Err(refused) => {
            let seen = (refused.fault, refused.value.into_value());
            want(rt, "a second queue", seen, (Fault::CellsFull, 5));
        }
    }
}

const BEHIND_A_LOOK: &[Row] = &[
    (Pop, 1, Ok(Some(70))),
    (Push(80), 1, NONE),
    (Pop, 1, Ok(Some(80))),
];

const TWO_MORE: &[Row] = &[(Push(90), 1, NONE), (Push(95), 1, NONE)];

// 90 and then 95 are pushed, and come off.
fn push_and_pop_two<'s, J: PostSet>(
    rt: &impl Abort,
    pile: &Pile<'_, 's, J>,
    part: &mut Part<'_, 's, J, Link>,
) {
    let (first, second) = match pile {
        Pile::Stack(_) => (95, 90),
        Pile::Queue(_) => (90, 95),
    };
    want_rows(rt, pile, part, TWO_MORE);
    want_call(rt, pile, part, (Pop, 1, Ok(Some(first))));
    want_call(rt, pile, part, (Pop, 1, Ok(Some(second))));
}

// A thread looks at the node of 70. Another one pops it and the next one, and flushes, and meanwhile it stays lent.
fn look_meanwhile<'s, J: PostSet>(
    rt: &impl Abort,
    pile: &Pile<'_, 's, J>,
    reader: &mut Part<'_, 's, J, Link>,
    other: &mut Part<'_, 's, J, Link>,
) {
    let guard = pin(rt, &mut reader.session);
    let looked = pile.peek(&guard);
    want(rt, "a look", value_of(looked), Ok(Some(70)));
    want_rows(rt, pile, other, BEHIND_A_LOOK);
    rounds(rt, other, 5);
    want_call(rt, pile, other, (Push(90), 1, NO_CELL));
    want(rt, "what was looked at", value_of(looked), Ok(Some(70)));
    reader.session.unpin(guard);
}

// Two cells are free. They stay in use, and the node is read, until the reader unpins. Of a queue, these are the cells
// of the first node and of the one that was looked at.
pub(crate) fn held<'s, J: PostSet>(
    rt: &impl Abort,
    alloc: Global,
    store: &Store<'s, J, Link>,
    pile: &Pile<'_, 's, J>,
    other: &mut Part<'_, 's, J, Link>,
) {
    let mut reader = join(rt, alloc, store);
    want_call(rt, pile, other, (Push(70), 1, NONE));
    look_meanwhile(rt, pile, &mut reader, other);
    rounds(rt, other, 5);
    push_and_pop_two(rt, pile, other);
    leave(rt, reader);
}

// What a pile holds is seen under a guard alone, so debug shows the number of its store.
pub(crate) fn shown<J: PostSet>(rt: &impl Abort, alloc: Global, pile: &Pile<'_, '_, J>) {
    match pile {
        Pile::Stack(stack) => want_shown(rt, alloc, stack, "LendingStack { store: 0, .. }"),
        Pile::Queue(queue) => want_shown(rt, alloc, queue, "LendingQueue { store: 0, .. }"),
    }
}
