//! What is done to worlds over each of the three stores, and what it tells, worked out by hand.

use crate::deeds::Deed::{
    Calls, Collects, Cycles, Defers, Ends, Epoch, Flushes, Goes, Guards, Pauses, Pins, Room,
    Rounds, Takes, Unpins, Word,
};
use crate::deeds::{Deed, want_deeds};
use crate::memory::world_at_last;
use crate::pile::Pile;
use crate::told::Told;
use crate::told::Told::{
    BagsFull, CalledNow, Deferred, Done, EndGoRefused, EndRefused, FlushesFirst, GoRefused, Guard,
    Pinned, Registered, RegistrationRefused, Released, Releases, Repinned, Repins, Resumes,
    Stepped, Unpinned,
};
use epoch_bags::{BagQueue, BagStore, GREATEST_EPOCH, Places};
use epoch_cells::Fault;
use epoch_world::{Deferral, Shape, World};
use std::alloc::Global;
use std::process::Abort;

/// What a row shows, the shape of its world, and what is done to it.
type Row = (&'static str, Shape, &'static [Deed]);

/// One participant, and a store for one bag.
const ONE: Shape = Shape {
    participants: 1,
    cells: 0,
    roots: 0,
    fields: 0,
    bags: 1,
    align: 1,
    start_epoch: 0,
    start_turn: 0,
    bag_jobs: 64,
    collect_bags: 8,
};

/// Two participants, and a store for one bag.
const TWO: Shape = Shape {
    participants: 2,
    ..ONE
};

/// One participant, four places, bags of two jobs, and collections of one bag.
const SMALL: Shape = Shape {
    bags: 4,
    bag_jobs: 2,
    collect_bags: 1,
    ..ONE
};

const RELEASED: &[Told] = &[Pinned(0), Unpinned(0), Released];

/// What full stores, releases and ends do.
const BAGS: &[Row] = &[
    (
        "a full store refuses a deferral and a flush until a bag is taken",
        ONE,
        &[
            Takes(Registered(0)),
            Pins(0),
            Defers(0, 0, 128),
            Calls(Told::Defers(Some(0)), &[BagsFull]),
            Flushes(0, &[], BagsFull),
            Unpins(0),
            Collects(0, &[], BagsFull),
            Pins(0),
            Flushes(0, &[(0, 64)], BagsFull),
            Epoch(3),
            Unpins(0),
            Pins(0),
            Flushes(0, &[], Done),
            Epoch(4),
            Unpins(0),
            Pins(0),
            Flushes(0, &[(64, 128)], Done),
            Epoch(5),
        ],
    ),
    (
        "a bag of one job and one place hold two jobs",
        Shape {
            bag_jobs: 1,
            collect_bags: 1,
            ..ONE
        },
        &[
            Takes(Registered(0)),
            Pins(0),
            Defers(0, 0, 2),
            Calls(Told::Defers(Some(0)), &[BagsFull]),
        ],
    ),
    (
        "each call in turn, with bags of one job that are sealed with 1 and with 3",
        Shape {
            bag_jobs: 1,
            collect_bags: 1,
            ..ONE
        },
        &[
            Takes(Registered(0)),
            Epoch(0),
            Word(0, Some(2)),
            Room(0, Some(true)),
            Pins(0),
            Guards(0, 1, 2),
            Calls(Told::Unpins(Some(1)), &[Done]),
            Calls(Repins(Some(0)), &[Repinned(0), Done]),
            Calls(Told::Pauses(Some(0)), &[Unpinned(0), Done]),
            Calls(Told::Flushes(Some(0)), &[GoRefused(Fault::Busy)]),
            Calls(Resumes(Some(0)), &[Pinned(0), Done]),
            Calls(Told::Defers(None), &[CalledNow, Done]),
            Defers(0, 0, 2),
            Calls(Told::Defers(Some(0)), &[BagsFull]),
            Unpins(0),
            Collects(0, &[], BagsFull),
            Collects(0, &[(0, 1)], BagsFull),
            Rounds(0, 1),
            Pins(0),
            Flushes(0, &[(1, 2)], Done),
            Defers(0, 2, 3),
            Unpins(0),
            Calls(Releases, RELEASED),
            Epoch(5),
            Word(0, Some(0)),
            Room(0, None),
            Ends(2, 3),
        ],
    ),
    (
        "a release with a full store is refused, and its job is called by the end",
        ONE,
        &[
            Takes(Registered(0)),
            Pins(0),
            Defers(0, 0, 65),
            Unpins(0),
            Calls(Releases, &[Pinned(0), Unpinned(0), BagsFull]),
            Word(0, Some(2)),
            Epoch(1),
            Collects(0, &[], BagsFull),
            Epoch(2),
            Collects(0, &[(0, 64)], BagsFull),
            Epoch(3),
            Calls(Releases, RELEASED),
            Word(0, Some(0)),
            Ends(64, 65),
        ],
    ),
    (
        "a thousand pins collect one time in 128",
        Shape { bags: 4, ..ONE },
        &[
            Takes(Registered(0)),
            Pins(0),
            Defers(0, 0, 10),
            Unpins(0),
            Cycles(0, 1000),
            Epoch(8),
            Rounds(0, 1),
            Epoch(9),
            Collects(0, &[(0, 10)], Done),
            Epoch(10),
        ],
    ),
    (
        "in the greatest epoch nothing is called before the end",
        Shape {
            bags: 4,
            start_epoch: GREATEST_EPOCH,
            ..ONE
        },
        &[
            Takes(Registered(0)),
            Pins(0),
            Defers(0, 0, 1),
            Flushes(0, &[], Done),
            Unpins(0),
            Rounds(0, 20),
            Epoch(GREATEST_EPOCH),
            Calls(Releases, RELEASED),
            Ends(0, 1),
        ],
    ),
    (
        "after an end all is refused",
        Shape { bags: 4, ..ONE },
        &[
            Takes(Registered(0)),
            Pins(0),
            Defers(0, 0, 2),
            Unpins(0),
            Calls(Releases, RELEASED),
            Ends(0, 2),
            Takes(RegistrationRefused(Fault::Ended)),
            Takes(EndRefused(Fault::Ended)),
            Takes(EndGoRefused(Fault::Idle)),
        ],
    ),
];

/// What stores tell that look first at the bag that was put first.
const FIRST_OUT: &[Row] = &[
    (
        "a collection takes eight bags, the first ones that were put",
        Shape { bags: 16, ..ONE },
        &[
            Takes(Registered(0)),
            Pins(0),
            Defers(0, 0, 640),
            Unpins(0),
            Rounds(0, 1),
            Epoch(2),
            Collects(0, &[(0, 512)], Done),
            Epoch(3),
            Collects(0, &[(512, 640)], Done),
            Epoch(4),
        ],
    ),
    (
        "a bag of two jobs is taken by each collection, the first one that was put",
        SMALL,
        &[
            Takes(Registered(0)),
            Pins(0),
            Defers(0, 0, 5),
            Unpins(0),
            Rounds(0, 1),
            Epoch(2),
            Collects(0, &[(0, 2)], Done),
            Epoch(3),
            Collects(0, &[(2, 4)], Done),
            Epoch(4),
            Collects(0, &[(4, 5)], Done),
            Epoch(5),
        ],
    ),
];

/// What the store tells that looks first at the bag that was put last.
const LAST_OUT: &[Row] = &[
    (
        "a collection takes eight bags, the last ones that were put",
        Shape { bags: 16, ..ONE },
        &[
            Takes(Registered(0)),
            Pins(0),
            Defers(0, 0, 640),
            Unpins(0),
            Rounds(0, 1),
            Epoch(2),
            Collects(
                0,
                &[
                    (576, 640),
                    (512, 576),
                    (448, 512),
                    (384, 448),
                    (320, 384),
                    (256, 320),
                    (192, 256),
                    (128, 192),
                ],
                Done,
            ),
            Epoch(3),
            Collects(0, &[(64, 128), (0, 64)], Done),
            Epoch(4),
        ],
    ),
    (
        "a bag of two jobs is taken by each collection, the last one that was put",
        SMALL,
        &[
            Takes(Registered(0)),
            Pins(0),
            Defers(0, 0, 5),
            Unpins(0),
            Rounds(0, 1),
            Epoch(2),
            Collects(0, &[(4, 5)], Done),
            Epoch(3),
            Collects(0, &[(2, 4)], Done),
            Epoch(4),
            Collects(0, &[(0, 2)], Done),
            Epoch(5),
        ],
    ),
];

/// What stores tell that put, and look at one bag, in one step.
const WHOLE_PUTS: &[Row] = &[
    (
        "the 65th deferral puts a bag in one step",
        Shape { bags: 2, ..ONE },
        &[
            Takes(Registered(0)),
            Pins(0),
            Defers(0, 0, 64),
            Takes(Told::Defers(Some(0))),
            Takes(Stepped(0)),
            Takes(Stepped(0)),
            Takes(Deferred(64)),
            Takes(Done),
        ],
    ),
    (
        "a flush is six steps where a put and a collection are one each",
        Shape { bags: 2, ..ONE },
        &[
            Takes(Registered(0)),
            Pins(0),
            Defers(0, 0, 1),
            Takes(FlushesFirst(0)),
            Takes(Stepped(0)),
            Takes(Stepped(0)),
            Takes(Stepped(0)),
            Takes(Stepped(0)),
            Takes(Stepped(0)),
            Takes(Done),
        ],
    ),
];

/// What a collection of many steps tells.
const PILES: &[Row] = &[(
    "a collection looks at each bag in a step of its own",
    Shape {
        bags: 4,
        bag_jobs: 1,
        ..ONE
    },
    &[
        Takes(Registered(0)),
        Pins(0),
        Defers(0, 0, 3),
        Takes(FlushesFirst(0)),
        Takes(Stepped(0)),
        Takes(Stepped(0)),
        Takes(Stepped(0)),
        Takes(Stepped(0)),
        Takes(Stepped(0)),
        Takes(Stepped(0)),
        Takes(Stepped(0)),
        Takes(Done),
    ],
)];

/// What these rows say, each of a world of its own over this store. No memory is taken but for the worlds.
fn expect_rows<S: BagStore<Job = Deferral>>(rt: &impl Abort, alloc: Global, rows: &[Row]) {
    for (shows, shape, deeds) in rows {
        let mut world: World<S> = world_at_last(rt, alloc, *shape);
        want_deeds(rt, shows, &mut world, deeds);
    }
}

/// Rows that tell the same over stores that give the bag first that was put first.
fn expect_first_out(rt: &impl Abort, alloc: Global, rows: &[Row]) {
    expect_rows::<Places<Deferral>>(rt, alloc, rows);
    expect_rows::<BagQueue<Deferral>>(rt, alloc, rows);
}

/// Rows that tell the same over any store.
fn expect_everywhere(rt: &impl Abort, alloc: Global, rows: &[Row]) {
    expect_first_out(rt, alloc, rows);
    expect_rows::<Pile>(rt, alloc, rows);
}

#[test]
fn full_stores_and_ends_tell_the_same_over_any_store(rt: HostRuntime) {
    expect_everywhere(&rt, rt.alloc(), BAGS);
}

#[test]
fn bags_are_taken_in_the_order_of_the_store(rt: HostRuntime) {
    expect_first_out(&rt, rt.alloc(), FIRST_OUT);
    expect_rows::<Pile>(&rt, rt.alloc(), LAST_OUT);
}

/// Rows that tell the same over a queue and over a pile, where a put and a look are one step each.
fn expect_whole_puts(rt: &impl Abort, alloc: Global, rows: &[Row]) {
    expect_rows::<BagQueue<Deferral>>(rt, alloc, rows);
    expect_rows::<Pile>(rt, alloc, rows);
}

#[test]
fn a_put_and_a_look_are_one_step_each_where_the_store_says_so(rt: HostRuntime) {
    expect_whole_puts(&rt, rt.alloc(), WHOLE_PUTS);
    expect_rows::<Pile>(&rt, rt.alloc(), PILES);
}
