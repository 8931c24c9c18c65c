//! Calls of one thread, as tables.
use crate::map::calls::Call::{Get, GetHelping, Insert, Remove};
use crate::map::calls::{Pinned, Row};
use crate::map::scenes::{Deed, play_map};
use epoch_cells::Fault;

/// No call was refused, and no value is there.
const NONE: crate::lending::Told = Ok(None);

// Entries are inserted, found and removed, in two buckets. A second insert of a key keeps the value that is there.
const ENTRIES: &[Pinned] = &[(
    &[
        (Insert(3, 30), 9, NONE),
        (Insert(1, 10), 9, NONE),
        (Insert(2, 20), 9, NONE),
        (Insert(5, 50), 9, NONE),
        (Insert(1, 11), 9, Ok(Some(10))),
        (Get(3), 9, Ok(Some(30))),
        (Get(4), 9, NONE),
        (Remove(3), 9, Ok(Some(30))),
        (Remove(3), 9, NONE),
        (Get(3), 9, NONE),
        (Get(5), 9, Ok(Some(50))),
    ],
    0,
)];

#[test]
fn entries_are_inserted_found_and_removed(rt: HostRuntime) {
    play_map(&rt, rt.alloc(), Deed::Calls(ENTRIES), (1, 8, 3))
}

// Keys 1, 3 and 5 stand in one bucket. A look-up of 5 begins at the root and goes on to three nodes: it takes four
// moves, and one of 6, which is past them all, takes as many.
const MOVES: &[Pinned] = &[(
    &[
        (Insert(5, 5), 9, NONE),
        (Insert(3, 3), 9, NONE),
        (Insert(1, 1), 9, NONE),
        (Get(5), 3, Err(Fault::TriesOut)),
        (Get(5), 4, Ok(Some(5))),
        (Get(6), 3, Err(Fault::TriesOut)),
        (Get(6), 4, NONE),
        (Get(0), 0, Err(Fault::TriesOut)),
        (Get(0), 2, NONE),
    ],
    0,
)];

#[test]
fn a_look_up_takes_a_move_for_each_node(rt: HostRuntime) {
    play_map(&rt, rt.alloc(), Deed::Calls(MOVES), (0, 4, 3))
}

/// Calls with a writer of another store of the same domain.
pub(crate) const OF_STRANGERS: &[Row] = &[
    (Insert(1, 1), 9, Err(Fault::StrangerGuard)),
    (Remove(1), 9, Err(Fault::StrangerGuard)),
    (GetHelping(1), 9, Err(Fault::StrangerGuard)),
];

#[test]
fn a_writer_of_another_store_is_refused(rt: HostRuntime) {
    play_map(&rt, rt.alloc(), Deed::Strangers, (0, 2, 0))
}

// Two cells: a third entry finds none, until an entry is removed and its node was dropped.
const CELLS: &[Pinned] = &[
    (
        &[
            (Insert(1, 10), 9, NONE),
            (Insert(2, 20), 9, NONE),
            (Insert(3, 30), 9, Err(Fault::CellsFull)),
            (Remove(1), 9, Ok(Some(10))),
            (Insert(3, 30), 9, Err(Fault::CellsFull)),
        ],
        4,
    ),
    (&[(Insert(3, 30), 9, NONE), (Get(3), 9, Ok(Some(30)))], 0),
];

#[test]
fn the_cell_of_a_removed_entry_is_used_again(rt: HostRuntime) {
    play_map(&rt, rt.alloc(), Deed::Calls(CELLS), (0, 2, 2))
}

// Keys that differ in their upper 32 bits alone are different keys, in their order.
const WIDE: &[Pinned] = &[(
    &[
        (Insert(0x1_0000_0007, 2), 9, NONE),
        (Insert(7, 1), 9, NONE),
        (Insert(u64::MAX, 4), 9, NONE),
        (Insert(0x2_0000_0007, 3), 9, NONE),
        (Get(7), 2, Ok(Some(1))),
        (Get(0x1_0000_0007), 3, Ok(Some(2))),
        (Get(0x2_0000_0007), 4, Ok(Some(3))),
        (Get(u64::MAX), 5, Ok(Some(4))),
        (Get(0x1_0000_0000), 9, NONE),
        (Remove(0x1_0000_0007), 9, Ok(Some(2))),
        (Get(0x1_0000_0007), 9, NONE),
        (Get(7), 9, Ok(Some(1))),
    ],
    0,
)];

#[test]
fn keys_of_64_bits_are_told_apart(rt: HostRuntime) {
    play_map(&rt, rt.alloc(), Deed::Calls(WIDE), (0, 8, 3))
}

// What a map holds is seen under a guard alone, so debug shows the number of its store.
#[test]
fn a_map_is_shown_by_the_number_of_its_store(rt: HostRuntime) {
    play_map(&rt, rt.alloc(), Deed::Shown, (1, 1, 0))
}
