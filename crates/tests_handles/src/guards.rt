//! A full table of participants, and guards of two collectors with the same number.
use crate::calls::{collector, defer, end, pin, pin_and_defer, register, release, unpin};
use crate::counts::count;
use crate::removals::{placed, remove};
use crate::wants::{must, want, want_count, want_err, want_ok, want_shown, want_some};
use epoch::atomic::Shared;
use epoch::{Capacities, Collector, Fault, Job, LocalHandle, Name};
use std::process::Abort;

/// No position is free.
fn refuse_registration(rt: &impl Abort, collector: &Collector<u64>) {
    let fault = want_err(rt, "a second participant", collector.register());
    want(rt, "its fault", fault, Fault::TableFull);
}

/// Gives the position up, and spends what is left of the handle.
fn leave(rt: &impl Abort, handle: LocalHandle<'_, u64>) {
    must(rt, "each guard is spent", handle.guards_out() == 0);
    want_ok(rt, "the held bag finds a place", handle.leave()).spend();
}

#[test]
fn a_table_is_full_until_a_participant_goes_and_the_end_calls_the_bags_of_all(rt: HostRuntime) {
    let alloc = rt.alloc();
    let calls = count(&rt, alloc);
    let collector = collector(&rt, alloc, Capacities::usual(2, 0, 2));
    let mut own = register(&rt, &collector);
    // The pin advances the epoch to 1, and stays published at 0. So the epoch stays at 1.
    let guard = pin(&rt, &mut own);
    // Debug shows nothing of what is inside.
    want_shown(&rt, alloc, &collector, "Collector { .. }");
    want_shown(&rt, alloc, &own, "LocalHandle { .. }");
    want_shown(&rt, alloc, &guard, "Guard { .. }");
    let mut first = register(&rt, &collector);
    refuse_registration(&rt, &collector);
    pin_and_defer(&rt, alloc, &mut first, &calls, (3, 1));
    release(&rt, first);
    let mut second = register(&rt, &collector);
    pin_and_defer(&rt, alloc, &mut second, &calls, (1, 0x10));
    leave(&rt, second);
    release(&rt, register(&rt, &collector));
    unpin(&rt, &mut own, guard);
    release(&rt, own);
    want_count(&rt, "calls before the end", &calls, 0);
    end(&rt, collector, 4);
    want_count(&rt, "calls at the end", &calls, 0x13);
}

/// The pointer's value still stands, and is taken back.
fn take_back(rt: &impl Abort, shared: Shared<'_, u64>, value: u64) {
    let back = want_some(rt, "the value stands", shared.into_owned());
    want(rt, "the value", *back.into_box(), value);
}

#[test]
fn guards_and_pointers_of_a_collector_with_the_same_number_are_taken_for_its_own(rt: HostRuntime) {
    let alloc = rt.alloc();
    let one = collector(&rt, alloc, Capacities::usual(1, 1, 1));
    let two = collector(&rt, alloc, Capacities::usual(1, 1, 1));
    let (mut own, mut other) = (register(&rt, &one), register(&rt, &two));
    let (mine, others) = (pin(&rt, &mut own), pin(&rt, &mut other));
    defer(&rt, &mut own, &others, Job::Remove(Name::first()), true);
    let foreign = placed(&rt, alloc, &others, 5);
    remove(&rt, &mut own, &mine, foreign);
    unpin(&rt, &mut own, mine);
    release(&rt, own);
    // The collector whose handle it was has the jobs. They look for the names in its own cells, where they aren't.
    end(&rt, one, 2);
    take_back(&rt, foreign, 5);
    unpin(&rt, &mut other, others);
    release(&rt, other);
    end(&rt, two, 0);
}
