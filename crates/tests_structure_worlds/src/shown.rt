//! What debug shows: short texts with counts. Worlds are shown by their epoch and by counts of participants, of tickets
//! and of calls of a structure; a machine by what it asks next, by how many guards are out, and by how many jobs it
//! holds.
use crate::calls::{Act, FIRST, made, play_on, sizes, want_told};
use crate::structures::{Asked, Map, Queue, Stack, Structure, Told};
use crate::wants::{want, want_shown};
use epoch_bags::Places;
use epoch_laws::{Call, Deferral, Shape, Step};
use epoch_machine::{Machine, Sizes};
use epoch_world::World;
use std::alloc::Global;
use std::fmt::Debug;
use std::process::Abort;

/// A world over the places of a store.
type Shown = World<Places<Deferral>>;

/// The participant makes the call, and then the world is shown so.
fn want_after(rt: &impl Abort, alloc: Global, world: &mut Shown, call: (u64, Call), wanted: &str) {
    let (participant, call) = call;
    let called = world.call(participant, call).is_ok();
    want(rt, "memory for the replies", called, true);
    want_shown(rt, alloc, "after a call", &*world, wanted);
}

/// A world of no participant, and then of two.
fn want_joined(rt: &impl Abort, alloc: Global, world: &mut Shown) {
    let wanted = "World { epoch: 0, participants: 0, tickets: 0, .. }";
    want_shown(rt, alloc, "a new world", &*world, wanted);
    let joined = world.run(&[Step::Register, Step::Register]).is_ok();
    want(rt, "memory for the replies", joined, true);
}

// The first pin collects, and advances the epoch to 1.
#[test]
fn a_world_is_shown_by_its_epoch_and_counts(rt: HostRuntime) {
    let alloc = rt.alloc();
    let mut world = Shown::new(alloc, Shape::usual(3, 0, 0, 0)).expect(&rt, "memory");
    want_joined(&rt, alloc, &mut world);
    let wanted = "World { epoch: 1, participants: 2, tickets: 0, .. }";
    want_after(&rt, alloc, &mut world, (1, Call::Pin), wanted);
    let wanted = "World { epoch: 1, participants: 2, tickets: 1, .. }";
    want_after(&rt, alloc, &mut world, (1, Call::Defer(Some(0))), wanted);
    let wanted = "World { epoch: 1, participants: 1, tickets: 1, .. }";
    want_after(&rt, alloc, &mut world, (0, Call::Release), wanted);
}

/// A structure of two participants is shown so after a pin, and so in its first call.
fn want_calls_shown<X: Structure + Debug>(
    rt: &impl Abort,
    alloc: Global,
    pinned: &str,
    calling: &str,
) {
    let mut structure: X = made(rt, alloc, sizes(2, 2));
    play_on(rt, &mut structure, &[FIRST]);
    want_shown(rt, alloc, "after a pin", &structure, pinned);
    let call = Act::Begin(0, 0, Asked::Put(7, 1));
    want_told(rt, &mut structure, ("a call", call, Told::Began));
    want_shown(rt, alloc, "in a call", &structure, calling);
}

#[test]
fn a_structures_world_is_shown_by_its_world_and_its_calls(rt: HostRuntime) {
    want_calls_shown::<Stack>(
        &rt,
        rt.alloc(),
        "StackWorld { stack: PlanWorld { world: World { epoch: 1, participants: 1, tickets: 0, .. }, calls: 0, .. } }",
        "StackWorld { stack: PlanWorld { world: World { epoch: 1, participants: 1, tickets: 0, .. }, calls: 1, .. } }",
    );
    want_calls_shown::<Queue>(
        &rt,
        rt.alloc(),
        "QueueWorld { queue: PlanWorld { world: World { epoch: 1, participants: 1, tickets: 0, .. }, calls: 0, .. } }",
        "QueueWorld { queue: PlanWorld { world: World { epoch: 1, participants: 1, tickets: 0, .. }, calls: 1, .. } }",
    );
    want_calls_shown::<Map>(
        &rt,
        rt.alloc(),
        "MapWorld { map: PlanWorld { world: World { epoch: 1, participants: 1, tickets: 0, .. }, calls: 0, .. } }",
        "MapWorld { map: PlanWorld { world: World { epoch: 1, participants: 1, tickets: 0, .. }, calls: 1, .. } }",
    )
}

#[test]
fn a_new_machine_is_shown_idle_with_nothing_held(rt: HostRuntime) {
    let sizes = Sizes {
        positions: 1,
        bag_jobs: 64,
        collect_bags: 8,
    };
    let machine: Machine<u64> = Machine::new(sizes);
    let wanted = "Machine { stage: Idle, guards: 0, held: 0, .. }";
    want_shown(&rt, rt.alloc(), "a machine", &machine, wanted);
}
