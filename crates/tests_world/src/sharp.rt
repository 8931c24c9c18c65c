//! The sharp list: which steps it has, and what a world of one place tells of them.

use crate::memory::world_at_last;
use crate::wants::{want, want_no_memory};
use epoch_bags::Places;
use epoch_cells::Fault;
use epoch_world::witness::sharp_steps;
use epoch_world::{AccessAnswer, Call, Deferral, Reply, Shape, Step, World};
use std::alloc::Global;
use std::process::Abort;

const UNPIN: Call = Call::Unpin(Some(0));

const GUARD: Reply = Reply::Done(AccessAnswer::Guard(0));

const UNIT: Reply = Reply::Done(AccessAnswer::Unit);

/// Whose call, which one, and its steps Go: one for each ask, and one for its end.
///
/// The first pin of each loads, stores, loads and collects: a load, two words, the store of the epoch, and one look at
/// the only place. The flush loads its seal, puts its bag by a look, a claim and a fill, and collects likewise.
const CALLS: [(u64, Call, u64); 8] = [
    (0, Call::Pin, 9),
    (0, UNPIN, 2),
    (1, Call::Pin, 9),
    (1, UNPIN, 2),
    (0, Call::Pin, 4),
    (1, Call::Pin, 4),
    (1, Call::Defer(Some(0)), 2),
    (1, Call::Flush(Some(0)), 10),
];

/// What the steps tell that do more than begin a call or go on with one.
const TOLD: [Reply; 17] = [
    Reply::Registered(0),
    Reply::Registered(1),
    Reply::Pinned(0),
    GUARD,
    Reply::Unpinned(0),
    UNIT,
    Reply::Pinned(1),
    GUARD,
    Reply::Unpinned(1),
    UNIT,
    Reply::Pinned(0),
    GUARD,
    Reply::Pinned(1),
    GUARD,
    Reply::Deferred(0),
    UNIT,
    UNIT,
];

/// A world for which the list is: two participants and one place.
fn pair(rt: &impl Abort, alloc: Global) -> World<Places<Deferral>> {
    let shape = Shape {
        bags: 1,
        ..Shape::usual(2, 0, 0, 0)
    };
    world_at_last(rt, alloc, shape)
}

/// The list, with a world of its own.
fn new_list(rt: &impl Abort, alloc: Global) -> Result<Vec<Step>, Fault> {
    let mut world = pair(rt, alloc);
    sharp_steps(alloc, &mut world)
}

/// The list, for which memory is asked once more if it is refused.
fn list_at_last(rt: &impl Abort, alloc: Global) -> Vec<Step> {
    match new_list(rt, alloc) {
        Ok(steps) => steps,
        Err(fault) => {
            want_no_memory(rt, fault);
            new_list(rt, alloc).expect(rt, "memory for the list")
        }
    }
}

/// The steps of two registrations and of the calls.
fn want_list(rt: &impl Abort, steps: &[Step]) {
    let mut steps = steps.iter().copied();
    want(rt, "a registration", steps.next(), Some(Step::Register));
    want(rt, "another one", steps.next(), Some(Step::Register));
    for (participant, call, goes) in CALLS {
        let begin = Step::Begin(participant, call);
        want(rt, "a begin", steps.next(), Some(begin));
        for _ in 0..goes {
            let go = Step::Go(participant);
            want(rt, "a step", (begin, steps.next()), (begin, Some(go)));
        }
    }
    want(rt, "the end of the list", steps.next(), None);
}

/// What a world tells of these steps, but that one only began a call, or went on with one.
fn want_told(rt: &impl Abort, world: &mut World<Places<Deferral>>, steps: &[Step]) {
    let mut told = TOLD.iter().copied();
    for step in steps {
        let reply = world.step(*step);
        if !matches!(reply, Reply::Began | Reply::Stepped) {
            want(rt, "what is told", Some(reply), told.next());
        }
    }
    want(rt, "the end of what is told", told.next(), None);
}

/// All steps are taken and no call is under way, in this epoch and with these words.
fn want_left(rt: &impl Abort, world: &mut World<Places<Deferral>>) {
    let numbers = (world.epoch(), world.word(0), world.word(1));
    want(rt, "the numbers", numbers, (3, Some(5), Some(5)));
    let spare = world.step(Step::Go(1));
    want(rt, "a spare step", spare, Reply::Refused(Fault::Idle));
}

/// Whichever allocation is refused to the list or to its world, all is the same.
#[test]
fn the_sharp_list_has_ten_lines_of_steps_and_one_place_calls_no_job_of_them(rt: HostRuntime) {
    let steps = list_at_last(&rt, rt.alloc());
    want_list(&rt, &steps);
    let mut world = pair(&rt, rt.alloc());
    want_told(&rt, &mut world, &steps);
    want_left(&rt, &mut world);
}
