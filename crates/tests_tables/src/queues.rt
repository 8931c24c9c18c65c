//! The steps of stores of bags that one thread has.
use crate::shared_places::bag_of;
use crate::wants::want;
use epoch::Places;
use epoch::bag::Bag;
use epoch::epoch::Epoch;
use epoch::queue::{BagQueue, BagStore, PutStep, TakeCursor, TakeStep};
use std::process::Abort;

/// A step of a put of a bag with this one job answers so.
fn want_put<S: BagStore<Job = u64>>(
    rt: &impl Abort,
    store: &mut S,
    cursor: &mut S::Putting,
    (seal, job): (u32, u64),
    wanted: PutStep,
) {
    let step = store.put_step(cursor, Epoch::new(seal as u64), &mut bag_of(job));
    want(rt, "a put", step, wanted);
}

/// A step of a collection answers so, and takes a bag with this job or none.
fn want_take<S: BagStore<Job = u64>>(
    rt: &impl Abort,
    store: &mut S,
    cursor: &mut S::Taking,
    expiry: u32,
    wanted: (TakeStep, Option<u64>),
) {
    let mut hand = Bag::new().seal(Epoch::starting());
    let step = store.take_step(cursor, Epoch::new(expiry as u64), &mut hand);
    want(rt, "a collection", (step, hand.take_next()), wanted);
}

#[test]
fn a_queue_puts_and_takes_in_one_step(rt: HostRuntime) {
    let mut queue: BagQueue<u64> = BagStore::with_room(rt.alloc(), 2).expect(&rt, "memory");
    let mut put = queue.start_put();
    want_put(&rt, &mut queue, &mut put, (3, 30), PutStep::Done);
    let mut put = queue.start_put();
    want_put(&rt, &mut queue, &mut put, (1, 10), PutStep::Done);
    let mut put = queue.start_put();
    want_put(&rt, &mut queue, &mut put, (1, 11), PutStep::Full);
    let mut take = queue.start_take();
    // The front is sealed with 3, so that it isn't expired for 4; the bag after it would be.
    let (empty, first) = ((TakeStep::Empty, None), (TakeStep::Got, Some(30)));
    want_take(&rt, &mut queue, &mut take, 4, empty);
    want_take(&rt, &mut queue, &mut take, 5, first);
    want_take(&rt, &mut queue, &mut take, 5, (TakeStep::Got, Some(10)));
    want_take(&rt, &mut queue, &mut take, 5, empty);
}

/// A put takes this many steps before its last: one for each place that it looks at, and one for its claim.
fn put_by_steps(rt: &impl Abort, places: &mut Places<u64>, bag: (u32, u64), before: u64) {
    let mut cursor = places.start_put();
    for _ in 0..before {
        want_put(rt, places, &mut cursor, bag, PutStep::Again);
    }
    want_put(rt, places, &mut cursor, bag, PutStep::Done);
}

/// A collection for epoch 5 takes the bag with this job in three steps.
fn taken_by_steps(rt: &impl Abort, places: &mut Places<u64>, cursor: &mut TakeCursor, job: u64) {
    want_take(rt, places, cursor, 5, (TakeStep::Again, None));
    want_take(rt, places, cursor, 5, (TakeStep::Again, None));
    want_take(rt, places, cursor, 5, (TakeStep::Got, Some(job)));
}

#[test]
fn places_are_filled_and_emptied_from_the_first_one_on(rt: HostRuntime) {
    let mut places: Places<u64> = BagStore::with_room(rt.alloc(), 3).expect(&rt, "memory");
    put_by_steps(&rt, &mut places, (3, 30), 2);
    put_by_steps(&rt, &mut places, (1, 10), 3);
    put_by_steps(&rt, &mut places, (2, 20), 4);
    let mut cursor = places.start_take();
    taken_by_steps(&rt, &mut places, &mut cursor, 30);
    taken_by_steps(&rt, &mut places, &mut cursor, 10);
    taken_by_steps(&rt, &mut places, &mut cursor, 20);
    // Past the last place, Empty is a step of its own.
    want_take(&rt, &mut places, &mut cursor, 5, (TakeStep::Empty, None));
}
