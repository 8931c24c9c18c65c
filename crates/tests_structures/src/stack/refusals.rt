//! Refused pushes and pops, in the order of their faults, and what each leaves.
use crate::stack::calls::one_job_a_bag;
use crate::stack::plays::{Deed, Pinned, play};
use epoch::{Capacities, Fault};

// The lone pop frees the only cell at once.
const A_STRANGERS_GUARD: &[Pinned] = &[(
    &[Deed::Push(1), Deed::Strange, Deed::Push(5), Deed::Pop(5)],
    &[],
)];

#[test]
fn a_strangers_guard_is_refused_before_all_else(rt: HostRuntime) {
    let capacities = Capacities::usual(1, 1, 1);
    play(&rt, rt.alloc(), capacities, A_STRANGERS_GUARD, 1);
}

// The first removal is put, and the second one held; the cells are full too, and no try is to be made.
// The flushes of the refused calls found their own pin at 0, which held the epoch at 1. The bag in the place was sealed
// with 1: the second round calls it in epoch 3.
const WITHOUT_A_PLACE: &[Pinned] = &[
    (
        &[
            Deed::Push(1),
            Deed::Push(2),
            Deed::Push(3),
            Deed::Pop(3),
            Deed::Pop(2),
            Deed::Room(false),
            Deed::Refused(4, 0, Fault::BagsFull),
            Deed::Kept(0, Fault::BagsFull),
            Deed::Room(false),
            Deed::Empty(false),
        ],
        &[Err(Fault::BagsFull), Err(Fault::BagsFull)],
    ),
    (&[Deed::Pop(1), Deed::Empty(true)], &[Err(Fault::BagsFull)]),
];

#[test]
fn without_a_place_nothing_is_pushed_or_popped(rt: HostRuntime) {
    play(&rt, rt.alloc(), one_job_a_bag(1, 3), WITHOUT_A_PLACE, 1);
}

// Full cells are told before tries that are out.
const FULL_CELLS: &[Pinned] = &[(
    &[
        Deed::Push(1),
        Deed::Refused(2, 1, Fault::CellsFull),
        Deed::Refused(3, 0, Fault::CellsFull),
        Deed::Pop(1),
        Deed::Nothing,
    ],
    &[],
)];

#[test]
fn a_push_into_full_cells_pushes_nothing(rt: HostRuntime) {
    play(&rt, rt.alloc(), Capacities::usual(1, 1, 1), FULL_CELLS, 1);
}

// The node of a push in no try takes a cell until its removal is called.
const A_PUSH_IN_NO_TRY: &[Pinned] = &[
    (
        &[
            Deed::Refused(1, 0, Fault::TriesOut),
            Deed::Nothing,
            Deed::Refused(2, 1, Fault::CellsFull),
        ],
        &[Ok(()), Ok(())],
    ),
    (&[Deed::Push(3)], &[]),
];

#[test]
fn a_push_in_no_try_pushes_nothing_and_defers_its_removal(rt: HostRuntime) {
    let capacities = Capacities::usual(1, 1, 1);
    play(&rt, rt.alloc(), capacities, A_PUSH_IN_NO_TRY, 0);
}

const A_POP_IN_NO_TRY: &[Pinned] = &[(
    &[
        Deed::Kept(0, Fault::TriesOut),
        Deed::Push(1),
        Deed::Kept(0, Fault::TriesOut),
        Deed::Pop(1),
    ],
    &[],
)];

#[test]
fn a_pop_in_no_try_leaves_the_value(rt: HostRuntime) {
    let capacities = Capacities::usual(1, 1, 1);
    play(&rt, rt.alloc(), capacities, A_POP_IN_NO_TRY, 1);
}
