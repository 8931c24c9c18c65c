//! Worlds whose bags hold more or fewer jobs than usual, and whose collections take more or fewer bags.

use crate::deeds::Deed::{Calls, Defers, Pins, Rounds, Takes, Unpins};
use crate::deeds::{want_deeds, want_round};
use crate::memory::world_at_last;
use crate::pile::Pile;
use crate::told::Told;
use crate::told::Told::{BagsFull, Done, Registered};
use epoch_bags::{BagQueue, BagStore, Places};
use epoch_world::{Deferral, Shape, World};
use std::alloc::Global;
use std::process::Abort;

/// How many jobs a bag takes, and how many bags a collection.
const SIZES: &[u64] = &[1, 2, 3, 8, 63, 64];

const FULL: &[Told] = &[BagsFull];

/// A world of one participant, with this many places and these sizes.
fn sized_world<S: BagStore<Job = Deferral>>(
    rt: &impl Abort,
    alloc: Global,
    bags: u64,
    (bag_jobs, collect_bags): (u64, u64),
) -> World<S> {
    let shape = Shape {
        bags,
        bag_jobs,
        collect_bags,
        ..Shape::usual(1, 0, 0, 0)
    };
    world_at_last(rt, alloc, shape)
}

/// Two places and the held bag take the jobs of three bags, and no further one.
fn expect_filled<S: BagStore<Job = Deferral>>(rt: &impl Abort, alloc: Global, jobs: u64) {
    let mut world: World<S> = sized_world(rt, alloc, 2, (jobs, 1));
    let refused = Calls(Told::Defers(Some(0)), FULL);
    let deeds = [
        Takes(Registered(0)),
        Pins(0),
        Defers(0, 0, jobs.saturating_mul(3)),
        refused,
    ];
    want_deeds(rt, "a store that is filled", &mut world, &deeds);
}

/// The tickets in four bags, of which the last one has one job, in the order in which a collection takes the bags: the
/// one put last first, or not.
fn in_order(jobs: u64, last_out: bool) -> [(u64, u64); 4] {
    let (two, three) = (jobs.saturating_mul(2), jobs.saturating_mul(3));
    let end = three.saturating_add(1);
    if last_out {
        [(three, end), (two, three), (jobs, two), (0, jobs)]
    } else {
        [(0, jobs), (jobs, two), (two, three), (three, end)]
    }
}

/// Three full bags are sealed with 1, and one job more is held. The first round puts it in a bag of its own, and
/// advances to 2. Each further one calls the jobs of this many bags, which are taken in the order of the store.
fn expect_emptied<S: BagStore<Job = Deferral>>(
    rt: &impl Abort,
    alloc: Global,
    (jobs, taken): (u64, u64),
    last_out: bool,
) {
    let mut world: World<S> = sized_world(rt, alloc, 4, (jobs, taken));
    let all = jobs.saturating_mul(3).saturating_add(1);
    let deeds = [
        Takes(Registered(0)),
        Pins(0),
        Defers(0, 0, all),
        Unpins(0),
        Rounds(0, 1),
    ];
    want_deeds(rt, "a store of four bags", &mut world, &deeds);
    for bags in in_order(jobs, last_out).chunks(taken.max(1) as usize) {
        want_round(
            rt,
            ("bags that are taken", taken),
            &mut world,
            (0, bags, Done),
        );
    }
}

/// Tries all sizes over this store, which looks first at the bag that was put last, or not.
fn expect_sizes<S: BagStore<Job = Deferral>>(rt: &impl Abort, alloc: Global, last_out: bool) {
    for jobs in SIZES {
        expect_filled::<S>(rt, alloc, *jobs);
        for taken in SIZES {
            expect_emptied::<S>(rt, alloc, (*jobs, *taken), last_out);
        }
    }
}

#[test]
fn bags_and_collections_keep_to_their_sizes(rt: HostRuntime) {
    expect_sizes::<Places<Deferral>>(&rt, rt.alloc(), false);
    expect_sizes::<BagQueue<Deferral>>(&rt, rt.alloc(), false);
    expect_sizes::<Pile>(&rt, rt.alloc(), true);
}
