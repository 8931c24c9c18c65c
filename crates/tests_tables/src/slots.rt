//! Slots whose value is taken once.
use crate::threads::{Tracked, Work, count, counts_of, ones_and_more, side_by_side};
use crate::wants::want;
use epoch_cells::take_once::TakeOnce;
use std::alloc::Global;
use std::process::Abort;
use std::sync::atomic::AtomicU64;

/// The number of the value, which is dropped.
fn number_of(value: Option<Tracked<'_>>) -> Option<u64> {
    Some(value?.number)
}

/// The value comes out, and then nothing does.
fn take_twice(rt: &impl Abort, slot: &TakeOnce<Tracked<'_>>, number: u64) {
    want(rt, "the first take", number_of(slot.take()), Some(number));
    want(rt, "the second take", number_of(slot.take()), None);
}

#[test]
fn a_value_is_taken_once_or_dropped_with_its_slot(rt: HostRuntime) {
    let drops = counts_of(&rt, rt.alloc(), 4);
    let taken = TakeOnce::new(Tracked::new(0, &drops));
    take_twice(&rt, &taken, 0);
    want(&rt, "the rest", number_of(taken.into_inner()), None);
    drop(TakeOnce::new(Tracked::new(1, &drops)));
    let kept = TakeOnce::new(Tracked::new(2, &drops));
    want(&rt, "what is in it", number_of(kept.into_inner()), Some(2));
    let empty: TakeOnce<Tracked<'_>> = TakeOnce::empty();
    want(&rt, "nothing is in it", number_of(empty.take()), None);
    want(&rt, "nor left", number_of(empty.into_inner()), None);
    drop(Tracked::new(3, &drops));
    want(&rt, "each was dropped once", ones_and_more(&drops), (4, 0));
}

/// This many slots, each with the value of its number.
fn slots_of<'a>(
    rt: &impl Abort,
    alloc: Global,
    values: u64,
    drops: &'a [AtomicU64],
) -> Vec<TakeOnce<Tracked<'a>>> {
    let mut slots = Vec::new(alloc);
    for number in 0..values {
        let slot = TakeOnce::new(Tracked::new(number, drops));
        let pushed = slots.push(slot).is_ok();
        want(rt, "memory for a slot", pushed, true);
    }
    slots
}

/// What the threads share: the slots, and how often each value came out.
#[derive(Drop)]
struct Takers<'a, 'd> {
    slots: &'a [TakeOnce<Tracked<'d>>],
    taken: &'a [AtomicU64],
}

impl Work for Takers<'_, '_> {
    // Takes what it can of each slot.
    fn work(&self, _number: u64) {
        for slot in self.slots {
            if let Some(value) = slot.take() {
                count(self.taken, value.number);
            }
        }
    }
}

#[test]
fn of_8_threads_one_takes_each_value(rt: HostRuntime) {
    let alloc = rt.alloc();
    let drops = counts_of(&rt, alloc, 2000);
    let taken = counts_of(&rt, alloc, 2000);
    let slots = slots_of(&rt, alloc, 2000, &drops);
    let takers = Takers {
        slots: &slots,
        taken: &taken,
    };
    side_by_side(&rt, 8, &takers);
    want(&rt, "each came out once", ones_and_more(&taken), (2000, 0));
    drop(slots);
    want(
        &rt,
        "each was dropped once",
        ones_and_more(&drops),
        (2000, 0),
    );
}
