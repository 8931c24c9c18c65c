//! Repins and pauses: whom they hold back, and when a repin collects.
use crate::seats::Deed::{
    Called, Cycles, Defers, Flushes, Pauses, Pins, PinsAndDefers, PutsJob, Repins, RepinsAfter,
    Resumes, Rounds, Unpins,
};
use crate::seats::Row::{Other, Own};
use crate::seats::{Row, play};
use epoch::Capacities;

// The first pin of each participant advances the epoch, but leaves it published in the one before. Then the other one
// puts a bag, and advances the epoch. As long as the first one stays pinned, the epoch stays there, and no job of the
// bag is called.
const PINNED_BEFORE: &[Row] = &[
    Own(Cycles(1)),
    Other(Cycles(1)),
    Own(Pins),
    Other(PutsJob(1)),
    Other(Rounds(Ok(()), &[0, 0, 0])),
    Own(Unpins),
    Other(Rounds(Ok(()), &[1])),
    Own(Cycles(1)),
    Other(Cycles(1)),
    Own(Pins),
    Other(PutsJob(0x10)),
    Other(Rounds(Ok(()), &[1, 1, 1])),
    // Then it is pinned in the epoch in which the round is, which advances.
    Own(Repins),
    Other(Rounds(Ok(()), &[0x11])),
    Own(Unpins),
    Own(Cycles(1)),
    Other(Cycles(1)),
    Own(Pins),
    Other(PutsJob(0x100)),
    Other(Rounds(Ok(()), &[0x11, 0x11, 0x11])),
    // The rounds between are made while it is unpinned.
    Own(RepinsAfter(1, &[0x111, 0x111, 0x111])),
    // What the other one defers from here on waits for the unpin.
    Other(PinsAndDefers(1, 0x1000)),
    Other(Rounds(Ok(()), &[0x111, 0x111, 0x111])),
    Own(Unpins),
    Other(Rounds(Ok(()), &[0x1111])),
];

#[test]
fn a_participant_pinned_before_keeps_the_job_uncalled(rt: HostRuntime) {
    let capacities = Capacities::usual(2, 0, 1);
    play(&rt, rt.alloc(), capacities, PINNED_BEFORE, (0, 0x1111, 0));
}

// The resumed guard holds back what is deferred after it.
const PAUSED: &[Row] = &[
    Own(Cycles(1)),
    Other(Cycles(1)),
    Own(Pins),
    Other(PutsJob(1)),
    Other(Rounds(Ok(()), &[0, 0, 0])),
    Own(Pauses),
    Other(Rounds(Ok(()), &[1, 1, 1])),
    Own(Resumes),
    Other(PinsAndDefers(1, 0x10)),
    Other(Rounds(Ok(()), &[1, 1, 1])),
    Own(Unpins),
    Other(Rounds(Ok(()), &[0x11])),
];

#[test]
fn a_paused_participant_holds_nobody_back(rt: HostRuntime) {
    let capacities = Capacities::usual(2, 0, 1);
    play(&rt, rt.alloc(), capacities, PAUSED, (0, 0x11, 0));
}

// The bag was sealed with 1. The 128th repin after the first pin advances to 2, and the 256th to 3.
const REPINNED_OFTEN: &[Row] = &[
    Own(Pins),
    Own(Defers(1, 1)),
    Own(Flushes(Ok(()))),
    Own(RepinsAfter(255, &[])),
    Own(Called(0)),
    Own(RepinsAfter(1, &[])),
    Own(Called(1)),
    Own(Unpins),
    Own(PinsAndDefers(10, 1)),
    // Each 128th pin collects: the seven of them advance the epoch from 3 to 10, and find no bag.
    Own(Cycles(1000)),
    Own(Called(1)),
    // The first round seals the bag with 10 and advances to 11, the second one to 12.
    Own(Rounds(Ok(()), &[1, 11])),
];

#[test]
fn each_128th_repin_after_collects_and_held_jobs_wait_for_a_flush(rt: HostRuntime) {
    let capacities = Capacities::usual(2, 0, 1);
    play(&rt, rt.alloc(), capacities, REPINNED_OFTEN, (0, 11, 0));
}
