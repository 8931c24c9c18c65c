//! Memory that is refused: `rt try --test --fail-alloc N` refuses the Nth allocation of each test, and each of these
//! tests passes whichever that is. In a plain run of the tests no allocation is refused.

use crate::cell_calls::{Told, cell, links, moves, removals};
use crate::pile::Pile;
use crate::wants::{want, want_no_memory};
use epoch_bags::{BagQueue, BagStore, Places};
use epoch_cells::Fault;
use epoch_laws::heap::Access;
use epoch_world::{AccessAnswer, Call, Deferral, Reply, Shape, Step, World};
use std::alloc::Global;
use std::process::Abort;

/// More steps than any of the calls has.
const MANY: u64 = 100;

const UNIT: Reply = Reply::Done(AccessAnswer::Unit);

const GUARD: Reply = Reply::Done(AccessAnswer::Guard(0));

/// The first list.
const FIRST: [Step; 4] = [
    Step::Register,
    Step::Go(0),
    Step::End,
    Step::Begin(1, Call::Pin),
];

/// Its replies.
const FIRST_TOLD: [Reply; 4] = [
    Reply::Registered(0),
    Reply::Refused(Fault::Idle),
    Reply::Refused(Fault::ParticipantsLeft),
    Reply::Refused(Fault::NotRegistered),
];

/// Calls after it, with the last reply of each, and how many jobs it calls.
const CALLS: [Told; 10] = [
    (Call::Pin, GUARD, 0),
    (Call::Defer(Some(0)), UNIT, 0),
    (Call::Defer(Some(0)), UNIT, 0),
    (Call::Flush(Some(0)), UNIT, 0),
    (Call::Unpin(Some(0)), UNIT, 0),
    (Call::Pin, GUARD, 0),
    (Call::Flush(Some(0)), UNIT, 0),
    (Call::Unpin(Some(0)), UNIT, 0),
    (Call::Pin, GUARD, 0),
    (Call::Flush(Some(0)), UNIT, 2),
];

/// The last list.
const LAST: [Step; 3] = [
    Step::Begin(0, Call::Unpin(Some(0))),
    Step::Go(0),
    Step::Go(0),
];

/// Its replies.
const LAST_TOLD: [Reply; 3] = [Reply::Began, Reply::Unpinned(0), UNIT];

/// The last list where cells were used: it finds the first value gone.
fn last_on_cells() -> [Step; 6] {
    let read = Access::Read(Some(0), cell(1, 0));
    [
        Step::Begin(0, Call::Access(read)),
        Step::Go(0),
        Step::Go(0),
        Step::Begin(0, Call::Unpin(Some(0))),
        Step::Go(0),
        Step::Go(0),
    ]
}

/// Its replies.
const LAST_TOLD_ON_CELLS: [Reply; 6] = [
    Reply::Began,
    Reply::Stepped,
    Reply::Done(AccessAnswer::Absent),
    Reply::Began,
    Reply::Unpinned(0),
    UNIT,
];

/// A new world of this shape, which is valid.
fn new_world<S: BagStore<Job = Deferral>>(
    rt: &impl Abort,
    alloc: Global,
    shape: Shape,
) -> Result<World<S>, Fault> {
    assert!(rt; shape.is_valid());
    World::new(alloc, shape)
}

/// A new world. Where memory for it is refused, it is asked for again.
pub(crate) fn world_at_last<S: BagStore<Job = Deferral>>(
    rt: &impl Abort,
    alloc: Global,
    shape: Shape,
) -> World<S> {
    match new_world(rt, alloc, shape) {
        Ok(world) => world,
        Err(fault) => {
            want_no_memory(rt, fault);
            new_world(rt, alloc, shape).expect(rt, "memory for a world")
        }
    }
}

/// A world of one participant and two places, with this many cells of one field, and a root if it has some.
fn small_world<S: BagStore<Job = Deferral>>(
    rt: &impl Abort,
    alloc: Global,
    (cells, roots): (u64, u64),
) -> World<S> {
    let shape = Shape {
        bags: 2,
        ..Shape::usual(1, cells, roots, roots)
    };
    world_at_last(rt, alloc, shape)
}

/// The epoch, and the word of the participant.
fn numbers_of<S: BagStore<Job = Deferral>>(world: &World<S>) -> (u64, Option<u64>) {
    (world.epoch(), world.word(0))
}

/// What was refused for want of memory has left the world as it was.
fn want_as_before<S: BagStore<Job = Deferral>>(
    rt: &impl Abort,
    fault: Fault,
    world: &World<S>,
    before: (u64, Option<u64>),
) {
    want_no_memory(rt, fault);
    want(rt, "after what is refused", numbers_of(world), before);
}

/// Runs the steps of this list. Where memory for its replies is refused, the world is as it was, and the list is handed
/// in again.
fn run_again<S: BagStore<Job = Deferral>>(
    rt: &impl Abort,
    world: &mut World<S>,
    steps: &[Step],
) -> Vec<Reply> {
    let before = numbers_of(world);
    match world.run(steps) {
        Ok(replies) => replies,
        Err(fault) => {
            want_as_before(rt, fault, world, before);
            world.run(steps).expect(rt, "memory for replies")
        }
    }
}

/// Makes this call. Where memory for its replies is refused, the world is as it was, and the call is made again.
fn call_again<S: BagStore<Job = Deferral>>(
    rt: &impl Abort,
    world: &mut World<S>,
    call: Call,
) -> Vec<Reply> {
    let before = numbers_of(world);
    match world.call(0, call) {
        Ok(replies) => replies,
        Err(fault) => {
            want_as_before(rt, fault, world, before);
            world.call(0, call).expect(rt, "memory for replies")
        }
    }
}

/// Runs the steps of this list. The replies are those of the list, and lead to this epoch and word.
fn expect_run<S: BagStore<Job = Deferral>>(
    rt: &impl Abort,
    world: &mut World<S>,
    (steps, told): (&[Step], &[Reply]),
    numbers: (u64, Option<u64>),
) {
    let replies = run_again(rt, world, steps);
    want(rt, "the replies to a list", replies.as_slice(), told);
    want(rt, "the numbers", numbers_of(world), numbers);
}

/// The last one of these replies, and how many of them tell that a job was called.
fn outcome_of(replies: &[Reply]) -> (Option<Reply>, u64) {
    let mut called = 0u64;
    for reply in replies {
        if matches!(reply, Reply::Called(_, _)) {
            called = called.saturating_add(1);
        }
    }
    (replies.last().copied(), called)
}

/// Makes these calls whole, each with this outcome.
fn expect_calls<S: BagStore<Job = Deferral>>(
    rt: &impl Abort,
    world: &mut World<S>,
    calls: &[Told],
) {
    for (place, (call, last, called)) in calls.iter().enumerate() {
        let replies = call_again(rt, world, *call);
        let seen = (place, outcome_of(&replies));
        want(rt, "a call", seen, (place, (Some(*last), *called)));
    }
}

/// Whatever is refused on the way, all is told as if it had never come.
fn tell_all<S: BagStore<Job = Deferral>>(rt: &impl Abort, alloc: Global) {
    let mut world: World<S> = small_world(rt, alloc, (0, 0));
    expect_run(rt, &mut world, (&FIRST, &FIRST_TOLD), (0, Some(2)));
    expect_calls(rt, &mut world, &CALLS);
    expect_run(rt, &mut world, (&LAST, &LAST_TOLD), (3, Some(2)));
}

/// The same of calls on two cells and a root.
fn tell_all_on_cells<S: BagStore<Job = Deferral>>(rt: &impl Abort, alloc: Global) {
    let mut world: World<S> = small_world(rt, alloc, (2, 1));
    let (first, last) = ((&FIRST[..2], &FIRST_TOLD[..2]), last_on_cells());
    expect_run(rt, &mut world, first, (0, Some(2)));
    expect_calls(rt, &mut world, &links(rt));
    expect_calls(rt, &mut world, &moves());
    expect_calls(rt, &mut world, &removals(rt));
    expect_run(rt, &mut world, (&last, &LAST_TOLD_ON_CELLS), (3, Some(2)));
}

#[test]
fn what_is_refused_for_want_of_memory_has_never_come(rt: HostRuntime) {
    tell_all::<Places<Deferral>>(&rt, rt.alloc());
    tell_all::<BagQueue<Deferral>>(&rt, rt.alloc());
    tell_all::<Pile>(&rt, rt.alloc());
    tell_all_on_cells::<Places<Deferral>>(&rt, rt.alloc());
    tell_all_on_cells::<BagQueue<Deferral>>(&rt, rt.alloc());
}

/// Makes this call by steps. Answers its last reply, and how many jobs were called.
fn go_to_end<S: BagStore<Job = Deferral>>(
    world: &mut World<S>,
    call: Call,
) -> (Option<Reply>, u64) {
    let (mut step, mut called) = (Step::Begin(0, call), 0u64);
    for _ in 0..MANY {
        let reply = world.step(step);
        match reply {
            Reply::Done(_) | Reply::Refused(_) => return (Some(reply), called),
            Reply::Called(_, _) => called = called.saturating_add(1),
            _ => {}
        }
        step = Step::Go(0);
    }
    (None, called)
}

/// Makes these calls by steps, which take no memory.
fn expect_steps<S: BagStore<Job = Deferral>>(
    rt: &impl Abort,
    world: &mut World<S>,
    calls: &[Told],
) {
    for (place, (call, last, called)) in calls.iter().enumerate() {
        let seen = (place, go_to_end(world, *call));
        want(rt, "a call by steps", seen, (place, (Some(*last), *called)));
    }
}

#[test]
fn steps_on_cells_take_no_memory(rt: HostRuntime) {
    let mut world: World<Places<Deferral>> = small_world(&rt, rt.alloc(), (2, 1));
    let told = world.step(Step::Register);
    want(&rt, "a registration", told, Reply::Registered(0));
    expect_steps(&rt, &mut world, &links(&rt));
    expect_steps(&rt, &mut world, &moves());
    expect_steps(&rt, &mut world, &removals(&rt));
    want(&rt, "the numbers", numbers_of(&world), (3, Some(5)));
}
