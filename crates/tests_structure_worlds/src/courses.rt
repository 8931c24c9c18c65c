//! Random runs, a test for each kind of them.
use crate::calls::{BUILT, FIRST, Row, SECOND, THIRD};
use crate::orders::Order;
use crate::programs::Program;
use crate::random::{Counts, Course, run_often};
use crate::structures::{Map, Queue, Stack};
use crate::wants::want;
use epoch_structure_laws::map::MapPhase as MapPhase;
use epoch_structure_laws::queue::QueuePhase as QueuePhase;
use std::alloc::Global;
use std::process::Abort;

/// Three pinned participants.
const PINNED: &[&[Row]] = &[FIRST, SECOND, THIRD];

/// Three pinned participants, and the first node of a queue.
const WITH_A_NODE: &[&[Row]] = &[FIRST, SECOND, THIRD, BUILT];

/// Pushes and pops over one stack, in 0 to 3 tries, with cells enough for each push or too few.
const STACKS: Course = Course {
    order: Order::LastIn,
    before: PINNED,
    calls: 9,
    keys: 1,
    tries: 4,
    kinds: 4,
    cells: (1, 9),
    bags: 4,
    bag_jobs: 64,
    renews: false,
};

/// Pushes and pops over one queue, whose first node has a cell too.
const QUEUES: Course = Course {
    order: Order::FirstIn,
    before: WITH_A_NODE,
    calls: 9,
    keys: 1,
    tries: 4,
    kinds: 4,
    cells: (2, 8),
    bags: 4,
    bag_jobs: 64,
    renews: false,
};

/// Inserts, removals and look-ups in one map, in up to 15 moves. One bucket has two of the keys.
const MAPS: Course = Course {
    order: Order::Alone,
    before: PINNED,
    calls: 6,
    keys: 3,
    tries: 16,
    kinds: 5,
    cells: (1, 8),
    bags: 4,
    bag_jobs: 64,
    renews: false,
};

/// Runs of a queue's program: with bags of two jobs, so that room is often made.
const QUEUE_PROGRAMS: Course = Course {
    order: Order::FirstIn,
    before: WITH_A_NODE,
    calls: 24,
    keys: 1,
    tries: 4,
    kinds: 4,
    cells: (6, 1),
    bags: 32,
    bag_jobs: 2,
    renews: true,
};

/// Runs of a map's program, with three keys in each bucket.
const MAP_PROGRAMS: Course = Course {
    order: Order::Alone,
    before: PINNED,
    calls: 40,
    keys: 6,
    tries: 16,
    kinds: 5,
    cells: (12, 1),
    bags: 32,
    bag_jobs: 2,
    renews: true,
};

/// Runs of this kind in which each participant renews its pin before each call. There are calls enough for bags to
/// expire meanwhile.
fn renewing(course: Course) -> Course {
    Course {
        calls: 24,
        bags: 32,
        renews: true,
        ..course
    }
}

/// Some of these were seen.
fn want_some(rt: &impl Abort, what: &str, count: u64) {
    want(rt, what, count > 0, true);
}

#[test]
fn replies_of_a_stack_fit_a_list(rt: HostRuntime) {
    let counts = run_often::<Stack>(&rt, rt.alloc(), &STACKS, (2026, 10_000));
    want_some(&rt, "values come off", counts.taken_out);
}

#[test]
fn replies_of_a_stack_fit_a_list_where_cells_are_taken_again(rt: HostRuntime) {
    let counts = run_often::<Stack>(&rt, rt.alloc(), &renewing(STACKS), (2027, 200));
    want_some(
        &rt,
        "cells are destroyed in the midst of runs",
        counts.removed,
    );
}

#[test]
fn replies_of_a_queue_fit_a_list(rt: HostRuntime) {
    let counts = run_often::<Queue>(&rt, rt.alloc(), &QUEUES, (2026, 10_000));
    want_some(&rt, "values come off", counts.taken_out);
}

#[test]
fn replies_of_a_queue_fit_a_list_where_cells_are_taken_again(rt: HostRuntime) {
    let counts = run_often::<Queue>(&rt, rt.alloc(), &renewing(QUEUES), (2027, 200));
    want_some(
        &rt,
        "cells are destroyed in the midst of runs",
        counts.removed,
    );
}

/// A quarter of 10,000 runs over a map, which are four tests since each has a limit of its own.
fn run_a_quarter(rt: &impl Abort, alloc: Global, state: u64) {
    let counts = run_often::<Map>(rt, alloc, &MAPS, (state, 2_500));
    want_some(rt, "entries are taken out", counts.taken_out);
}

#[test]
fn replies_of_a_map_fit_a_table(rt: HostRuntime) {
    run_a_quarter(&rt, rt.alloc(), 2026)
}

#[test]
fn replies_of_a_map_fit_a_table_in_a_second_quarter_of_runs(rt: HostRuntime) {
    run_a_quarter(&rt, rt.alloc(), 20_260)
}

#[test]
fn replies_of_a_map_fit_a_table_in_a_third_quarter_of_runs(rt: HostRuntime) {
    run_a_quarter(&rt, rt.alloc(), 202_600)
}

#[test]
fn replies_of_a_map_fit_a_table_in_the_last_quarter_of_runs(rt: HostRuntime) {
    run_a_quarter(&rt, rt.alloc(), 2_026_000)
}

#[test]
fn replies_of_a_map_fit_a_table_where_cells_are_taken_again(rt: HostRuntime) {
    let counts = run_often::<Map>(&rt, rt.alloc(), &renewing(MAPS), (2027, 400));
    want_some(
        &rt,
        "cells are destroyed in the midst of runs",
        counts.removed,
    );
}

/// Each call that did or found something told the step at which it did, and removals were called meanwhile.
fn want_decided(rt: &impl Abort, counts: Counts) {
    want_some(rt, "values or entries are put in", counts.put_in);
    want_some(rt, "values or entries are taken out", counts.taken_out);
    want(
        rt,
        "each call takes effect at one step",
        counts.decided,
        counts.over,
    );
    want_some(
        rt,
        "cells are destroyed in the midst of runs",
        counts.removed,
    );
}

#[test]
fn values_come_off_in_the_order_of_their_pushes(rt: HostRuntime) {
    let alloc = rt.alloc();
    let counts = run_often::<Program<QueuePhase>>(&rt, alloc, &QUEUE_PROGRAMS, (2026, 40));
    want_decided(&rt, counts);
}

#[test]
fn calls_do_and_find_what_a_table_has(rt: HostRuntime) {
    let alloc = rt.alloc();
    let counts = run_often::<Program<MapPhase>>(&rt, alloc, &MAP_PROGRAMS, (2026, 100));
    want_decided(&rt, counts);
    want_some(&rt, "some call unlinks what another marked", counts.helped);
}
