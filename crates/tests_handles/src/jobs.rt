//! Jobs: when they are called, and that each is called once and dropped once.
use crate::calls::{collector, defer_counting, end, let_go, register, release};
use crate::counts::{count, counting_job};
use crate::removals::remove_later;
use crate::seats::Deed::{
    Defers, Dropped, Flushes, IsRefused, Notes, Pins, PinsAndDefers, Rounds, Stays, Unpins,
};
use crate::seats::Row::Own;
use crate::seats::{Row, play};
use crate::wants::{want_count, want_true};
use epoch::{Capacities, Fault, unprotected};

/// Bags of two jobs, of which a collection takes one.
const TWO_JOBS_A_BAG: Capacities = Capacities {
    participants: 1,
    cells: 0,
    bags: 2,
    bag_jobs: 2,
    collect_bags: 1,
};

// The pin advances the epoch from 0 to 1, and stays published at 0. Each bag is sealed with 1. The rounds advance to 2
// and to 3. A collection takes one bag: the one in the first place. The end calls what is left.
const EACH_JOB_ONCE: &[Row] = &[
    Own(Pins),
    Own(Notes(1, 0x1)),
    Own(Notes(2, 0x10)),
    Own(Notes(3, 0x100)),
    Own(Notes(4, 0x1000)),
    Own(Unpins),
    Own(Rounds(Ok(()), &[0, 12])),
    Own(Dropped(0x11)),
];

#[test]
fn each_job_is_called_once_and_dropped_once(rt: HostRuntime) {
    let alloc = rt.alloc();
    play(&rt, alloc, TWO_JOBS_A_BAG, EACH_JOB_ONCE, (2, 1234, 0x1111));
}

#[test]
fn under_an_unprotected_guard_jobs_and_removals_are_called_at_once(rt: HostRuntime) {
    let alloc = rt.alloc();
    let calls = count(&rt, alloc);
    let collector = collector(&rt, alloc, Capacities::usual(1, 1, 1));
    let mut handle = register(&rt, &collector);
    let guard = unprotected(&collector);
    defer_counting(&rt, alloc, &mut handle, &guard, &calls, (1, 1));
    want_count(&rt, "calls by a deferral", &calls, 1);
    let called = guard.call_now(counting_job(&rt, alloc, &calls, 0x10));
    want_true(&rt, "the job is called", called.is_ok());
    want_count(&rt, "calls by a guard too", &calls, 0x11);
    // Each value is gone before the next one comes into the only cell.
    remove_later(&rt, alloc, &mut handle, &guard, 5);
    remove_later(&rt, alloc, &mut handle, &guard, 6);
    let_go(&rt, guard);
    release(&rt, handle);
    // No job was kept.
    end(&rt, collector, 0);
    want_count(&rt, "calls at the end", &calls, 0x11);
}

const BAGS_FULL: Result<(), Fault> = Err(Fault::BagsFull);

const ONE_PLACE: &[Row] = &[
    Own(Pins),
    Own(Defers(128, 1)),
    Own(IsRefused),
    // The first bag was sealed with 1. It is called at epoch 3, and the second bag, sealed with 3, at 5.
    Own(Flushes(BAGS_FULL)),
    Own(Unpins),
    Own(Rounds(BAGS_FULL, &[0, 64])),
    Own(Rounds(Ok(()), &[64, 128])),
    // Now the place is empty, and a bag of 64 is put, sealed with 5. At epoch 7 it is called.
    Own(PinsAndDefers(65, 1)),
    Own(Stays),
    Own(Rounds(BAGS_FULL, &[128, 192])),
];

// The end calls the one job that was held.
#[test]
fn one_place_holds_a_second_bag_and_a_release_back(rt: HostRuntime) {
    let capacities = Capacities::usual(1, 0, 1);
    play(&rt, rt.alloc(), capacities, ONE_PLACE, (1, 193, 0));
}
