//! Rows of a stack and of a queue.
use crate::calls::{Act, BUILT, FIRST, Row, SECOND, play, sizes};
use crate::structures::{Asked, Queue, Sizes, Stack, Told};
use epoch_bags::BagQueue;
use epoch_cells::Fault;
use epoch_laws::Deferral;
use epoch_structure_worlds::plans::PlainCall;
use epoch_structure_worlds::queue::QueueWorld;
use epoch_structure_worlds::stack::StackWorld;

const EMPTY: Told = Told::NoneThere;

const TRIES_OUT: Told = Told::Failed(Fault::TriesOut);

const CELLS_FULL: Told = Told::Failed(Fault::CellsFull);

const BAGS_FULL: Told = Told::Failed(Fault::BagsFull);

const BUSY: Told = Told::Refused(Fault::Busy);

const STRANGER: Told = Told::Refused(Fault::StrangerGuard);

const UNREGISTERED: Told = Told::Refused(Fault::NotRegistered);

const POP: Asked = Asked::Take(0, 1);

// TWO VALUES

/// Two values are pushed.
const TWO_PUSHES: &[Row] = &[
    (
        "the first push",
        Act::Whole(0, Asked::Put(1, 1)),
        Told::PutIn,
    ),
    (
        "the second push",
        Act::Whole(0, Asked::Put(2, 1)),
        Told::PutIn,
    ),
];

/// They come off last first; and then the stack is empty.
const LAST_FIRST: &[Row] = &[
    ("the first pop", Act::Whole(0, POP), Told::TookOut(2)),
    ("the second pop", Act::Whole(0, POP), Told::TookOut(1)),
    ("the third pop", Act::Whole(0, POP), EMPTY),
];

/// They come off first in, first out; and then the queue is empty.
const FIRST_FIRST: &[Row] = &[
    ("the first pop", Act::Whole(0, POP), Told::TookOut(1)),
    ("the second pop", Act::Whole(0, POP), Told::TookOut(2)),
    ("the third pop", Act::Whole(0, POP), EMPTY),
];

#[test]
fn the_last_value_pushed_on_a_stack_comes_off_first(rt: HostRuntime) {
    let tables = [FIRST, TWO_PUSHES, LAST_FIRST];
    play::<Stack>(&rt, rt.alloc(), sizes(1, 2), &tables);
    play::<StackWorld<BagQueue<Deferral>>>(&rt, rt.alloc(), sizes(1, 2), &tables)
}

#[test]
fn the_first_value_pushed_on_a_queue_comes_off_first(rt: HostRuntime) {
    let tables = [FIRST, BUILT, TWO_PUSHES, FIRST_FIRST];
    play::<Queue>(&rt, rt.alloc(), sizes(1, 3), &tables);
    play::<QueueWorld<BagQueue<Deferral>>>(&rt, rt.alloc(), sizes(1, 3), &tables)
}

/// Before the first node stands a push and a pop lose each try; the second that would build finds the first one there.
const NO_NODE: &[Row] = &[
    (
        "a push too early",
        Act::Whole(0, Asked::Put(1, 3)),
        TRIES_OUT,
    ),
    (
        "a pop too early",
        Act::Whole(0, Asked::Take(0, 3)),
        TRIES_OUT,
    ),
    ("the first node", Act::Whole(0, Asked::Build), Told::Built),
    ("another first node", Act::Whole(0, Asked::Build), TRIES_OUT),
    ("no value yet", Act::Whole(0, POP), EMPTY),
];

#[test]
fn nothing_goes_before_the_first_node_stands(rt: HostRuntime) {
    play::<Queue>(&rt, rt.alloc(), sizes(1, 4), &[FIRST, NO_NODE])
}

// STEPS OF OTHERS IN BETWEEN

/// Participant 0 begins a pop of the one value, 1, in two tries.
const IN_TWO_TRIES: &[Row] = &[
    ("a push", Act::Whole(0, Asked::Put(1, 1)), Told::PutIn),
    (
        "a pop begins",
        Act::Begin(0, 0, Asked::Take(0, 2)),
        Told::Began,
    ),
];

/// The same in one try.
const IN_ONE_TRY: &[Row] = &[
    ("a push", Act::Whole(0, Asked::Put(1, 1)), Told::PutIn),
    ("a pop begins", Act::Begin(0, 0, POP), Told::Began),
];

/// The pop goes up to the begin of its exchange. A pop of a stack has loaded the head, read the value, loaded the next
/// and left; one of a queue has loaded the head and its next, read the value and left. Each of these is a begin, one
/// step on cells or pointers, and an end. Then participant 1 pops that value, and pushes 2.
const MET: &[Row] = &[
    ("the pop goes on", Act::Steps(0, 13), Told::Stepped),
    ("another's pop", Act::Whole(1, POP), Told::TookOut(1)),
    (
        "another's push",
        Act::Whole(1, Asked::Put(2, 1)),
        Told::PutIn,
    ),
];

const TRIED_AGAIN: &[Row] = &[("the second try", Act::Rest(0), Told::TookOut(2))];

const LOST: &[Row] = &[
    ("the only try", Act::Rest(0), TRIES_OUT),
    ("a further pop", Act::Whole(1, POP), Told::TookOut(2)),
];

#[test]
fn an_exchange_that_others_met_is_tried_again(rt: HostRuntime) {
    let stack = [FIRST, SECOND, IN_TWO_TRIES, MET, TRIED_AGAIN];
    play::<Stack>(&rt, rt.alloc(), sizes(2, 2), &stack);
    let queue = [FIRST, SECOND, BUILT, IN_TWO_TRIES, MET, TRIED_AGAIN];
    play::<Queue>(&rt, rt.alloc(), sizes(2, 4), &queue)
}

#[test]
fn an_exchange_that_others_met_is_lost_in_the_last_try(rt: HostRuntime) {
    let stack = [FIRST, SECOND, IN_ONE_TRY, MET, LOST];
    play::<Stack>(&rt, rt.alloc(), sizes(2, 2), &stack);
    let queue = [FIRST, SECOND, BUILT, IN_ONE_TRY, MET, LOST];
    play::<Queue>(&rt, rt.alloc(), sizes(2, 4), &queue)
}

/// Participant 0 begins a push of 1: it places the value in the first cell, loads the head, stores it in the node, and
/// begins its exchange. Then participant 1 pushes 2.
const PUSH_MET: &[Row] = &[
    (
        "a push begins",
        Act::Begin(0, 0, Asked::Put(1, 2)),
        Told::Began,
    ),
    ("the push goes on", Act::Steps(0, 10), Told::Stepped),
    (
        "another's push",
        Act::Whole(1, Asked::Put(2, 1)),
        Told::PutIn,
    ),
    ("the second try", Act::Rest(0), Told::PutIn),
    ("the first pop", Act::Whole(1, POP), Told::TookOut(1)),
    ("the second pop", Act::Whole(0, POP), Told::TookOut(2)),
    ("the third pop", Act::Whole(0, POP), EMPTY),
];

#[test]
fn a_push_that_others_met_is_tried_again(rt: HostRuntime) {
    play::<Stack>(&rt, rt.alloc(), sizes(2, 2), &[FIRST, SECOND, PUSH_MET])
}

/// Participant 0 pushes 1, up to its exchange of the tail, which lags then: it has placed the value, loaded the tail
/// and its next, and won its exchange, each by a begin, one step on cells or pointers, and an end. One step more finds
/// the first node's cell used.
const LAGS: &[Row] = &[
    (
        "a push begins",
        Act::Begin(0, 0, Asked::Put(1, 1)),
        Told::Began,
    ),
    ("the push goes on", Act::Steps(0, 13), Told::Stepped),
];

/// Another one's first try helps the tail on.
const HELPED_IN_TWO_TRIES: &[Row] = &[
    (
        "another's push",
        Act::Whole(1, Asked::Put(2, 2)),
        Told::PutIn,
    ),
    ("the push that was met", Act::Rest(0), Told::PutIn),
    ("the first pop", Act::Whole(1, POP), Told::TookOut(1)),
    ("the second pop", Act::Whole(0, POP), Told::TookOut(2)),
];

/// It has no other try.
const HELPED_IN_ONE_TRY: &[Row] = &[
    ("another's push", Act::Whole(1, Asked::Put(2, 1)), TRIES_OUT),
    ("the push that was met", Act::Rest(0), Told::PutIn),
    ("the first pop", Act::Whole(1, POP), Told::TookOut(1)),
    ("the second pop", Act::Whole(0, POP), EMPTY),
];

/// The value is there before the tail leads to it, and a pop brings the tail past what it took off.
const POPPED_BEFORE_THE_TAIL: &[Row] = &[
    ("another's pop", Act::Whole(1, POP), Told::TookOut(1)),
    ("a further pop", Act::Whole(1, POP), EMPTY),
    ("the push that was met", Act::Rest(0), Told::PutIn),
    ("a push", Act::Whole(1, Asked::Put(3, 1)), Told::PutIn),
    ("its pop", Act::Whole(0, POP), Told::TookOut(3)),
];

#[test]
fn a_tail_that_lags_is_helped_and_the_push_tried_again(rt: HostRuntime) {
    let tables = [FIRST, SECOND, BUILT, LAGS, HELPED_IN_TWO_TRIES];
    play::<Queue>(&rt, rt.alloc(), sizes(2, 4), &tables)
}

#[test]
fn a_tail_that_lags_takes_the_only_try(rt: HostRuntime) {
    let tables = [FIRST, SECOND, BUILT, LAGS, HELPED_IN_ONE_TRY];
    play::<Queue>(&rt, rt.alloc(), sizes(2, 4), &tables)
}

#[test]
fn a_value_comes_off_before_the_tail_leads_to_it(rt: HostRuntime) {
    let tables = [FIRST, SECOND, BUILT, LAGS, POPPED_BEFORE_THE_TAIL];
    play::<Queue>(&rt, rt.alloc(), sizes(2, 4), &tables)
}

// CALLS THAT DO NOTHING

/// A pop and a push in no try. The node of the push is still in its cell, the only one that was free, since its removal
/// is deferred.
const NO_TRY: &[Row] = &[
    ("a pop", Act::Whole(0, Asked::Take(0, 0)), TRIES_OUT),
    ("a push", Act::Whole(0, Asked::Put(1, 0)), TRIES_OUT),
    (
        "a further push",
        Act::Whole(0, Asked::Put(1, 1)),
        CELLS_FULL,
    ),
    ("a further pop", Act::Whole(0, POP), EMPTY),
];

#[test]
fn a_call_in_no_try_runs_out_of_them(rt: HostRuntime) {
    play::<Stack>(&rt, rt.alloc(), sizes(1, 1), &[FIRST, NO_TRY]);
    play::<Queue>(&rt, rt.alloc(), sizes(1, 2), &[FIRST, BUILT, NO_TRY])
}

/// No participant is registered, and then none is pinned; at last participant 0 is.
const NO_PIN: &[Row] = &[
    ("nobody is registered", Act::Whole(0, POP), UNREGISTERED),
    (
        "past the table",
        Act::Whole(1, Asked::Put(7, 1)),
        UNREGISTERED,
    ),
    ("a registration", Act::Join, Told::Registered(0)),
    ("no guard is out", Act::Whole(0, POP), STRANGER),
    (
        "no guard to build under",
        Act::Whole(0, Asked::Build),
        STRANGER,
    ),
    ("a pin", Act::Plain(0, PlainCall::Pin), Told::Pinned(0)),
];

/// A plain call is under way at a push, and then a push is at a pop and at a plain call.
const A_CALL: &[Row] = &[
    (
        "a plain call",
        Act::BeginPlain(0, PlainCall::Flush(Some(0))),
        Told::Began,
    ),
    ("a push within it", Act::Whole(0, Asked::Put(7, 1)), BUSY),
    ("the plain call", Act::Rest(0), Told::Done),
    ("a push", Act::Begin(0, 0, Asked::Put(7, 1)), Told::Began),
    ("a pop within it", Act::Begin(0, 0, POP), BUSY),
    (
        "a plain call within it",
        Act::BeginPlain(0, PlainCall::Flush(Some(0))),
        BUSY,
    ),
    ("the push", Act::Rest(0), Told::PutIn),
    ("a step of nothing", Act::Go(0), Told::Refused(Fault::Idle)),
];

/// The guard of participant 0 is paused, and resumed; another one, and then its own, pops the value.
const A_PAUSE: &[Row] = &[
    (
        "a pause",
        Act::Plain(0, PlainCall::Pause(Some(0))),
        Told::Done,
    ),
    ("a paused guard", Act::Whole(0, POP), BUSY),
    (
        "the end of the pause",
        Act::Plain(0, PlainCall::Resume(Some(0))),
        Told::Done,
    ),
    ("another guard", Act::Begin(0, 1, POP), STRANGER),
    ("its own guard", Act::Whole(0, POP), Told::TookOut(7)),
];

#[test]
fn refusals_come_in_their_order(rt: HostRuntime) {
    play::<Stack>(&rt, rt.alloc(), sizes(1, 1), &[NO_PIN, A_CALL, A_PAUSE]);
    play::<Queue>(
        &rt,
        rt.alloc(),
        sizes(1, 2),
        &[NO_PIN, BUILT, A_CALL, A_PAUSE],
    )
}

/// One job fills the bag, and there is one place. The first bag is sealed with the epoch in which the participant is
/// pinned, so it stays in its place.
const FULL: &[Row] = &[
    (
        "a deferral",
        Act::Plain(0, PlainCall::Defer(Some(0))),
        Told::Done,
    ),
    (
        "the bag is put",
        Act::Whole(0, Asked::Put(7, 1)),
        Told::PutIn,
    ),
    (
        "another deferral",
        Act::Plain(0, PlainCall::Defer(Some(0))),
        Told::Done,
    ),
    ("no place is left", Act::Whole(0, POP), BAGS_FULL),
    ("nor for a push", Act::Whole(0, Asked::Put(8, 1)), BAGS_FULL),
];

#[test]
fn a_full_bag_is_flushed_first(rt: HostRuntime) {
    let sizes = Sizes {
        participants: 1,
        cells: 3,
        bags: 1,
        bag_jobs: 1,
    };
    play::<Stack>(&rt, rt.alloc(), sizes, &[FIRST, FULL]);
    play::<Queue>(&rt, rt.alloc(), sizes, &[FIRST, BUILT, FULL])
}

/// A value comes and goes, and the participant leaves. The end calls the removal of the value, or of the first node.
const AN_END: &[Row] = &[
    ("a push", Act::Whole(0, Asked::Put(1, 1)), Told::PutIn),
    ("a pop", Act::Whole(0, POP), Told::TookOut(1)),
    (
        "an unpin",
        Act::Plain(0, PlainCall::Unpin(Some(0))),
        Told::Done,
    ),
    (
        "a release",
        Act::Plain(0, PlainCall::Release),
        Told::Released,
    ),
    ("the end calls the removal", Act::EndAll, Told::Ended(1)),
];

#[test]
fn an_end_calls_each_removal(rt: HostRuntime) {
    play::<Stack>(&rt, rt.alloc(), sizes(1, 3), &[FIRST, AN_END]);
    play::<Queue>(&rt, rt.alloc(), sizes(1, 3), &[FIRST, BUILT, AN_END])
}
