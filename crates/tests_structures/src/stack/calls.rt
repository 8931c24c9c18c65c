//! Calls on collectors, handles, guards and stacks as the tests make them, and what they have to answer.
use crate::calls::{pin, unpin};
use crate::wants::want;
use epoch::{Capacities, Collector, Fault, Guard, LocalHandle, Refused};
use epoch_stack::{Node, Stack};
use std::alloc::Global;
use std::process::Abort;

/// A collector of a stack's nodes.
pub(crate) type Nodes = Collector<Node<u64>>;

/// A participant of such a collector.
pub(crate) type Handle<'c> = LocalHandle<'c, Node<u64>>;

/// A guard of such a collector.
pub(crate) type Pin<'c> = Guard<'c, Node<u64>>;

/// Capacities with one job a bag, of which a collection takes one, and one place.
pub(crate) fn one_job_a_bag(participants: u32, cells: u32) -> Capacities {
    Capacities {
        participants,
        cells,
        bags: 1,
        bag_jobs: 1,
        collect_bags: 1,
    }
}

/// Spends an unprotected guard.
pub(crate) fn let_go(rt: &impl Abort, guard: Pin<'_>) {
    if let Err(_guard) = guard.let_go() {
        panic!(rt; "the guard is kept");
    }
}

/// Pins, flushes and unpins. Returns what the flush answered.
fn round(rt: &impl Abort, handle: &mut Handle<'_>) -> Result<(), Fault> {
    let guard = pin(rt, handle);
    let flushed = handle.flush(&guard);
    unpin(rt, handle, guard);
    flushed
}

/// Makes a round, whose flush answers this.
pub(crate) fn want_round(rt: &impl Abort, handle: &mut Handle<'_>, wanted: Result<(), Fault>) {
    want(rt, "the flush of a round", round(rt, handle), wanted);
}

/// What a push answered: its fault, and the value that it handed back.
pub(crate) fn told(pushed: Result<(), Refused<u64>>) -> Result<(), (Fault, u64)> {
    match pushed {
        Ok(()) => Ok(()),
        Err(Refused { fault, value }) => Err((fault, value)),
    }
}

/// A push of the value, in at most this many tries, answers no fault, or this one with the value.
pub(crate) fn want_push(
    rt: &impl Abort,
    alloc: Global,
    stack: &Stack<'_, u64>,
    handle: &mut Handle<'_>,
    guard: &Pin<'_>,
    (value, tries): (u64, u32),
    wanted: Option<Fault>,
) {
    let seen = told(stack.push(alloc, handle, guard, value, tries));
    let wanted = match wanted {
        None => Ok(()),
        Some(fault) => Err((fault, value)),
    };
    want(rt, "a push", seen, wanted);
}

/// Pushes the value in one try.
pub(crate) fn push(
    rt: &impl Abort,
    alloc: Global,
    stack: &Stack<'_, u64>,
    handle: &mut Handle<'_>,
    guard: &Pin<'_>,
    value: u64,
) {
    want_push(rt, alloc, stack, handle, guard, (value, 1), None);
}

/// What a pop in at most this many tries answers.
pub(crate) fn want_pop(
    rt: &impl Abort,
    stack: &Stack<'_, u64>,
    handle: &mut Handle<'_>,
    guard: &Pin<'_>,
    tries: u32,
    wanted: Result<Option<u64>, Fault>,
) {
    want(rt, "a pop", stack.pop(handle, guard, tries), wanted);
}

/// Pops this value in one try.
pub(crate) fn pop(
    rt: &impl Abort,
    stack: &Stack<'_, u64>,
    handle: &mut Handle<'_>,
    guard: &Pin<'_>,
    value: u64,
) {
    want_pop(rt, stack, handle, guard, 1, Ok(Some(value)));
}

/// Pops this value in one lone try.
pub(crate) fn pop_alone(rt: &impl Abort, stack: &Stack<'_, u64>, guard: &Pin<'_>, value: u64) {
    let popped = stack.pop_alone(guard, 1);
    want(rt, "a lone pop", popped, Ok(Some(value)));
}

/// A pop in one try finds nothing, and the stack says that it is empty.
pub(crate) fn want_empty(
    rt: &impl Abort,
    stack: &Stack<'_, u64>,
    handle: &mut Handle<'_>,
    guard: &Pin<'_>,
) {
    want_pop(rt, stack, handle, guard, 1, Ok(None));
    want(rt, "whether it is empty", stack.is_empty(guard), true);
}
