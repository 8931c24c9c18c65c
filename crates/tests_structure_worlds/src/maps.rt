//! What each call of a map answers, row by row.
use crate::calls::{Act, FIRST, Row, SECOND, made, perform, play, play_on, sizes, want_told};
use crate::random::KEY;
use crate::structures::{Asked, Map, Told};
use crate::wants::want;
use epoch_cells::Fault;
use std::alloc::Global;
use std::process::Abort;

/// Moves enough for each call here.
const ENOUGH: u64 = 16;

/// More steps than a removal takes.
const MANY: u64 = 100;

/// A look-up of the entry of the key 2.
const FIND_TWO: Act = Act::Whole(0, Asked::Find(2, ENOUGH));

/// A removal of it.
const TAKE_TWO: Act = Act::Whole(0, Asked::Take(2, ENOUGH));

/// The key 2 with the value 7.
const SEVEN: u64 = 2 * KEY + 7;

const ONCE: &[Row] = &[
    ("an empty map", FIND_TWO, Told::NoneThere),
    (
        "an insert",
        Act::Whole(0, Asked::Put(SEVEN, ENOUGH)),
        Told::PutIn,
    ),
    ("a look-up", FIND_TWO, Told::Found(SEVEN)),
    (
        "another of the key",
        Act::Whole(0, Asked::Put(2 * KEY + 8, ENOUGH)),
        Told::AlreadyThere(SEVEN),
    ),
    ("a removal", TAKE_TWO, Told::TookOut(SEVEN)),
    ("a second removal", TAKE_TWO, Told::NoneThere),
    ("a look-up after it", FIND_TWO, Told::NoneThere),
];

#[test]
fn an_entry_is_put_in_once_and_taken_out_once(rt: HostRuntime) {
    play::<Map>(&rt, rt.alloc(), sizes(1, 4), &[FIRST, ONCE])
}

/// Each key has its own number as its value.
const IN_ANY_ORDER: &[Row] = &[
    (
        "an insert of 4",
        Act::Whole(0, Asked::Put(4 * KEY + 4, ENOUGH)),
        Told::PutIn,
    ),
    (
        "an insert of 0",
        Act::Whole(0, Asked::Put(0, ENOUGH)),
        Told::PutIn,
    ),
    (
        "an insert of 2",
        Act::Whole(0, Asked::Put(2 * KEY + 2, ENOUGH)),
        Told::PutIn,
    ),
    (
        "an insert of 1",
        Act::Whole(0, Asked::Put(KEY + 1, ENOUGH)),
        Told::PutIn,
    ),
    (
        "an insert of 3",
        Act::Whole(0, Asked::Put(3 * KEY + 3, ENOUGH)),
        Told::PutIn,
    ),
    (
        "the middle of a bucket",
        TAKE_TWO,
        Told::TookOut(2 * KEY + 2),
    ),
    (
        "the key 0 is left",
        Act::Whole(0, Asked::Find(0, ENOUGH)),
        Told::Found(0),
    ),
    (
        "the key 1 is left",
        Act::Whole(0, Asked::Find(1, ENOUGH)),
        Told::Found(KEY + 1),
    ),
    (
        "the key 3 is left",
        Act::Whole(0, Asked::Find(3, ENOUGH)),
        Told::Found(3 * KEY + 3),
    ),
    (
        "the key 4 is left",
        Act::Whole(0, Asked::Find(4, ENOUGH)),
        Told::Found(4 * KEY + 4),
    ),
    ("the one taken out", FIND_TWO, Told::NoneThere),
];

#[test]
fn keys_of_one_bucket_are_found_whatever_their_order(rt: HostRuntime) {
    play::<Map>(&rt, rt.alloc(), sizes(1, 8), &[FIRST, IN_ANY_ORDER])
}

const NO_CELL: &[Row] = &[
    (
        "an insert",
        Act::Whole(0, Asked::Put(5, ENOUGH)),
        Told::PutIn,
    ),
    (
        "another",
        Act::Whole(0, Asked::Put(KEY + 6, ENOUGH)),
        Told::Failed(Fault::CellsFull),
    ),
    (
        "the refused one",
        Act::Whole(0, Asked::Find(1, ENOUGH)),
        Told::NoneThere,
    ),
    (
        "the first one",
        Act::Whole(0, Asked::Find(0, ENOUGH)),
        Told::Found(5),
    ),
];

#[test]
fn an_insert_without_a_free_cell_is_refused(rt: HostRuntime) {
    play::<Map>(&rt, rt.alloc(), sizes(1, 1), &[FIRST, NO_CELL])
}

const NO_MOVE: &[Row] = &[
    (
        "an insert of 0",
        Act::Whole(0, Asked::Put(0, ENOUGH)),
        Told::PutIn,
    ),
    (
        "an insert of 2",
        Act::Whole(0, Asked::Put(2 * KEY + 2, ENOUGH)),
        Told::PutIn,
    ),
    (
        "an insert of 4",
        Act::Whole(0, Asked::Put(4 * KEY + 4, ENOUGH)),
        Told::PutIn,
    ),
    (
        "past two nodes",
        Act::Whole(0, Asked::Find(4, 0)),
        Told::Failed(Fault::TriesOut),
    ),
    (
        "with moves",
        Act::Whole(0, Asked::Find(4, ENOUGH)),
        Told::Found(4 * KEY + 4),
    ),
];

#[test]
fn a_walk_that_runs_out_of_moves_says_so(rt: HostRuntime) {
    play::<Map>(&rt, rt.alloc(), sizes(1, 8), &[FIRST, NO_MOVE])
}

// A REMOVAL THAT STALLS

/// A map has one entry, whose removal by participant 0 begins.
const REMOVAL: &[Row] = &[
    (
        "an insert",
        Act::Whole(1, Asked::Put(9, ENOUGH)),
        Told::PutIn,
    ),
    (
        "a removal",
        Act::Begin(0, 0, Asked::Take(0, ENOUGH)),
        Told::Began,
    ),
];

/// A map whose one entry is being removed, by this many steps after the begin.
fn half_removed(rt: &impl Abort, alloc: Global, steps: u64) -> Map {
    let mut map = made(rt, alloc, sizes(2, 4));
    play_on(rt, &mut map, &[FIRST, SECOND, REMOVAL]);
    for _ in 0..steps {
        let _ = perform(&mut map, Act::Go(0));
    }
    map
}

/// Whether another participant finds the entry where its removal stalls. It answers no error, and if none is there
/// another insert of the key is done.
fn is_found(rt: &impl Abort, map: &mut Map) -> bool {
    let told = perform(map, Act::Whole(1, Asked::Find(0, ENOUGH)));
    if told == Told::Found(9) {
        return true;
    }
    want(rt, "none is there", told, Told::NoneThere);
    let insert = Act::Whole(1, Asked::Put(10, ENOUGH));
    want_told(rt, map, ("an insert past it", insert, Told::PutIn));
    false
}

/// Whether another participant finds the entry where its removal stalls after this many steps.
fn is_found_after(rt: &impl Abort, alloc: Global, steps: u64) -> bool {
    let mut map = half_removed(rt, alloc, steps);
    is_found(rt, &mut map)
}

#[test]
fn a_removal_takes_its_entry_out_at_one_step(rt: HostRuntime) {
    let mut gone = false;
    for steps in 0..MANY {
        let found = is_found_after(&rt, rt.alloc(), steps);
        want(&rt, "what is gone stays gone", found && gone, false);
        gone = !found;
    }
    want(&rt, "it is gone at the end", gone, true);
}

/// The removal stalls after this many steps. It is done after another participant has passed the marked node, if there
/// is one, and has unlinked it.
fn want_removed(rt: &impl Abort, alloc: Global, steps: u64) {
    let mut map = half_removed(rt, alloc, steps);
    let _ = perform(&mut map, Act::Whole(1, Asked::Put(2 * KEY + 11, ENOUGH)));
    let removed = perform(&mut map, Act::Rest(0)) == Told::TookOut(9)
        || perform(&mut map, Act::Whole(0, Asked::Find(0, ENOUGH))) == Told::NoneThere;
    want(rt, "the removal is done", removed, true);
}

#[test]
fn a_removal_whose_node_another_unlinks_is_done(rt: HostRuntime) {
    for steps in 0..MANY {
        want_removed(&rt, rt.alloc(), steps);
    }
}
