//! Jobs, bags, cells, claims on them, and faults are shown by short texts, so that a call that fails can be followed by
//! `expect`.
use crate::wants::{want, want_shown};
use epoch::atomic::{Array, Atomic, CompareExchangeError, ExchangeFault, Owned, Shared};
use epoch::{Capacities, Collector, Guard, unprotected};
use epoch_bags::{Bag, Epoch, Job, Work};
use epoch_cells::{Cells, Fault, Name, Refused};
use std::alloc::Global;
use std::process::Abort;
use std::sync::atomic::Ordering::SeqCst;

#[test]
fn jobs_and_bags_are_shown_without_what_a_call_would_do(rt: HostRuntime) {
    let alloc = rt.alloc();
    let removal = Job::<Work>::Remove(Name::first());
    let wanted = "Remove(Name { slot: 1, turn: 0 })";
    want_shown(&rt, alloc, "a removal", &removal, wanted);
    let work = Work {
        run: Box::new(alloc, move || {}).expect(&rt, "memory for a function"),
    };
    want_shown(&rt, alloc, "work", &work, "Work { .. }");
    let refused = Refused {
        fault: Fault::BagsFull,
        value: Job::Call(work),
    };
    let wanted = "Refused { fault: BagsFull, value: Call(..) }";
    want_shown(&rt, alloc, "a refused job", &refused, wanted);
    let bag = Bag::<Job>::new();
    want_shown(&rt, alloc, "a bag", &bag, "Bag { .. }");
    let sealed = bag.seal(Epoch::starting());
    want_shown(&rt, alloc, "a sealed bag", &sealed, "SealedBag { .. }");
}

/// A value in these cells is read and written, and both claims are shown.
fn want_claims(rt: &impl Abort, alloc: Global, cells: &Cells<u64>) {
    let value = Box::new(alloc, 5).expect(rt, "memory for a value");
    let name = cells.place(value).expect(rt, "a cell");
    let reading = cells.read(name).expect(rt, "the value is there");
    want_shown(rt, alloc, "a reading", &reading, "Reading { .. }");
    reading.leave();
    let writing = cells.write(name).expect(rt, "the value is there");
    want_shown(rt, alloc, "a writing", &writing, "Writing { .. }");
    writing.leave();
}

#[test]
fn cells_and_claims_on_them_are_shown_by_the_names_of_their_types(rt: HostRuntime) {
    let alloc = rt.alloc();
    let cells = Cells::<u64>::new(alloc, 1, 0).expect(&rt, "memory for cells");
    want_shown(&rt, alloc, "cells", &cells, "Cells { .. }");
    want_claims(&rt, alloc, &cells);
    let array = Array::<u64>::new(alloc, 2).expect(&rt, "memory for an array");
    let wanted = "Array { elements: [None, None] }";
    want_shown(&rt, alloc, "an array", &array, wanted);
}

#[test]
fn faults_of_exchanges_are_shown_with_what_they_carry(rt: HostRuntime) {
    let alloc = rt.alloc();
    let null = Shared::<u64>::null();
    let lost = CompareExchangeError {
        current: null,
        new: null,
    };
    let changed = ExchangeFault::Changed(lost);
    let wanted = "Changed(CompareExchangeError { current: Shared { name: None, tag: 0, .. }, \
         new: Shared { name: None, tag: 0, .. } })";
    want_shown(&rt, alloc, "a lost exchange", &changed, wanted);
    let owned = Owned::new(alloc, 5).expect(&rt, "memory for a value");
    let full = ExchangeFault::<u64, Owned<u64>>::Full(owned);
    want_shown(&rt, alloc, "no cell", &full, "Full(Owned { tag: 0, .. })");
    let stuck = ExchangeFault::<u64, Shared<'_, u64>>::Stuck(null);
    let wanted = "Stuck(Shared { name: None, tag: 0, .. })";
    want_shown(&rt, alloc, "a value held elsewhere", &stuck, wanted);
}

/// Exchanges null for null with tag 1, and changes the tag to 2: each call is followed by `expect`.
fn exchange_and_update(rt: &impl Abort, guard: &Guard<'_, u64>) {
    let atomic = Atomic::<u64>::null();
    let (null, marked) = (Shared::null(), Shared::null().with_tag(1));
    let exchanged = atomic.compare_exchange(null, marked, SeqCst, SeqCst, guard);
    let written = exchanged.expect(rt, "null is there");
    want(rt, "what was written", written.tag(), 1);
    let updated = atomic.fetch_update(SeqCst, SeqCst, 1, guard, |before| Some(before.with_tag(2)));
    let before = updated.expect(rt, "no other thread is there");
    want(rt, "what was there", before.tag(), 1);
}

#[test]
fn exchanges_and_updates_can_be_followed_by_expect(rt: HostRuntime) {
    let made = Collector::<u64>::new(rt.alloc(), Capacities::usual(1, 1, 1), 1);
    let collector = made.expect(&rt, "memory");
    let guard = unprotected(&collector);
    exchange_and_update(&rt, &guard);
    if let Err(_guard) = guard.let_go() {
        unreachable!();
    }
    let _ = collector.end();
}
