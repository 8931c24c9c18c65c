//! Values come off in the order against that of their pushes, and their nodes stay in their cells for others.
use crate::stack::calls::one_job_a_bag;
use crate::stack::plays::{Deed, Pinned, play};
use epoch::{Capacities, Fault};

const PUSHES_AND_POPS: &[Pinned] = &[(
    &[
        Deed::Push(1),
        Deed::Push(2),
        Deed::Push(3),
        Deed::Empty(false),
        Deed::Pop(3),
        Deed::Push(4),
        Deed::Pop(4),
        Deed::Pop(2),
        Deed::Pop(1),
        Deed::Nothing,
    ],
    &[],
)];

#[test]
fn values_come_off_in_the_order_against_that_of_their_pushes(rt: HostRuntime) {
    let capacities = Capacities::usual(1, 4, 1);
    play(&rt, rt.alloc(), capacities, PUSHES_AND_POPS, 4);
}

// Sealed with 1, the removal is called in epoch 3, in the second round after the first guard.
const A_CELL_FOR_TWO: &[Pinned] = &[
    (
        &[
            Deed::Push(1),
            Deed::Pop(1),
            Deed::Refused(2, 1, Fault::CellsFull),
        ],
        &[Ok(()), Ok(())],
    ),
    (&[Deed::Push(2), Deed::Pop(2)], &[]),
];

#[test]
fn a_popped_node_stays_in_its_cell_for_others(rt: HostRuntime) {
    let capacities = Capacities::usual(1, 1, 1);
    play(&rt, rt.alloc(), capacities, A_CELL_FOR_TWO, 1);
}

// A bag takes one job: the second pop's room is made by a flush, which puts the first removal, and the last pop has no
// place for its flush any more. The first removal was sealed with 1: it is called in epoch 3, in the second round, and
// the place is free for the second one.
const POPS_WITH_FULL_BAGS: &[Pinned] = &[(
    &[
        Deed::Push(1),
        Deed::Push(2),
        Deed::Room(true),
        Deed::Pop(2),
        Deed::Room(false),
        Deed::Pop(1),
        Deed::Room(false),
        Deed::Kept(1, Fault::BagsFull),
    ],
    &[Err(Fault::BagsFull), Err(Fault::BagsFull)],
)];

#[test]
fn a_pop_with_a_full_bag_flushes_and_pops(rt: HostRuntime) {
    play(&rt, rt.alloc(), one_job_a_bag(1, 2), POPS_WITH_FULL_BAGS, 1);
}

// No job is deferred, and the node takes the only cell.
const A_LONE_POP: &[Pinned] = &[(
    &[
        Deed::Push(1),
        Deed::Alone(1),
        Deed::Nothing,
        Deed::Refused(2, 1, Fault::CellsFull),
    ],
    &[],
)];

#[test]
fn a_lone_pop_under_a_protecting_guard_leaves_its_node(rt: HostRuntime) {
    play(&rt, rt.alloc(), Capacities::usual(1, 1, 1), A_LONE_POP, 0);
}
