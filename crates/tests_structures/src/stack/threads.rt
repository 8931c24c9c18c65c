//! A stack that threads share.
use crate::calls::{collector, pin, register, unpin};
use crate::counts::{counts_of, note, want_each};
use crate::stack::calls::{Handle, Nodes, told, want_empty};
use crate::wants::want;
use epoch::{Capacities, Fault, Guard};
use epoch_stack::{Node, Stack};
use std::alloc::Global;
use std::process::Abort;
use std::sync::Wait;
use std::sync::atomic::AtomicU64;
use std::thread;
use std::thread::Threads;

/// As often as any call tries here.
const TRIES: u32 = 100_000;

/// Pushes the value once. Then flushes.
fn push_once(
    alloc: Global,
    stack: &Stack<'_, u64>,
    handle: &mut Handle<'_>,
    guard: &Guard<'_, Node<u64>>,
    value: u64,
) -> Result<(), (Fault, u64)> {
    let pushed = told(stack.push(alloc, handle, guard, value, TRIES));
    let _ = handle.flush(guard);
    pushed
}

/// Pops a value once. Then flushes.
fn pop_once(
    stack: &Stack<'_, u64>,
    handle: &mut Handle<'_>,
    guard: &Guard<'_, Node<u64>>,
) -> Result<Option<u64>, Fault> {
    let popped = stack.pop(handle, guard, TRIES);
    let _ = handle.flush(guard);
    popped
}

/// Pushes the value. Where it finds no cell, or no place for its full bag, it lets go its guard, flushes under a
/// new one, so that removals are called, and pushes again.
fn push_at_last<R: Abort + Wait>(
    rt: &R,
    alloc: Global,
    stack: &Stack<'_, u64>,
    handle: &mut Handle<'_>,
    value: u64,
) {
    for _ in rt.forever() {
        let guard = pin(rt, handle);
        let pushed = push_once(alloc, stack, handle, &guard, value);
        unpin(rt, handle, guard);
        match pushed {
            Ok(()) => return,
            Err((fault, _)) => want(rt, "a pause helps", fault == Fault::NoMemory, false),
        }
        thread::yield_now();
    }
}

/// Pops a value, or `None` where the stack is empty. Where there is no place for its full bag, it lets go its guard,
/// flushes under a new one, and pops again.
fn pop_at_last<R: Abort + Wait>(
    rt: &R,
    stack: &Stack<'_, u64>,
    handle: &mut Handle<'_>,
) -> Option<u64> {
    for _ in rt.forever() {
        let guard = pin(rt, handle);
        let popped = pop_once(stack, handle, &guard);
        unpin(rt, handle, guard);
        if let Ok(popped) = popped {
            return popped;
        }
        thread::yield_now();
    }
    unreachable!()
}

/// Releases the handle, and flushes for as long as its bag finds no place.
fn leave<R: Abort + Wait>(rt: &R, handle: Handle<'_>) {
    let mut staying = handle;
    for _ in rt.forever() {
        if staying.guards_out() != 0 {
            panic!(rt; "each guard is spent")
        }
        match staying.release() {
            Ok(()) => return,
            Err((handle, _)) => staying = handle,
        }
    }
    unreachable!()
}

/// Counts the value that came off, if one did.
fn count(rt: &impl Abort, counts: &[AtomicU64], popped: Option<u64>) {
    if let Some(value) = popped {
        note(rt, counts, value);
    }
}

/// Pushes each of `values` values from `first` on, and pops one after each.
fn push_and_pop<R: Abort + Wait>(
    rt: &R,
    alloc: Global,
    collector: &Nodes,
    stack: &Stack<'_, u64>,
    counts: &[AtomicU64],
    (first, values): (u64, u64),
) {
    let mut handle = register(rt, collector);
    for value in 0..values {
        let value = first.wrapping_add(value);
        push_at_last(rt, alloc, stack, &mut handle, value);
        count(rt, counts, pop_at_last(rt, stack, &mut handle));
    }
    leave(rt, handle);
}

/// Pops what is left on the stack.
fn pop_the_rest<R: Abort + Wait>(
    rt: &R,
    collector: &Nodes,
    stack: &Stack<'_, u64>,
    counts: &[AtomicU64],
) {
    let mut handle = register(rt, collector);
    for _ in counts {
        count(rt, counts, pop_at_last(rt, stack, &mut handle));
    }
    let guard = pin(rt, &mut handle);
    want_empty(rt, stack, &mut handle, &guard);
    unpin(rt, &mut handle, guard);
    leave(rt, handle);
}

/// Pushes until the cells are full, and returns how many pushes found one.
fn free_cells<R: Abort + Wait>(
    rt: &R,
    alloc: Global,
    collector: &Nodes,
    stack: &Stack<'_, u64>,
) -> u64 {
    let mut handle = register(rt, collector);
    for _ in 0..4u64 {
        let guard = pin(rt, &mut handle);
        let _ = handle.flush(&guard);
        unpin(rt, &mut handle, guard);
    }
    let guard = pin(rt, &mut handle);
    let mut found: u64 = 0;
    for value in 0..1000u64 {
        if stack.push(alloc, &mut handle, &guard, value, 1).is_ok() {
            found = found.wrapping_add(1);
        }
    }
    unpin(rt, &mut handle, guard);
    leave(rt, handle);
    found
}

/// This many threads push and pop this many values each. Each value comes off once, and then the stack is empty, and
/// each cell is free.
fn race<R: Abort + Threads + Wait + Sync>(
    rt: &R,
    alloc: Global,
    capacities: Capacities,
    (threads, values): (u64, u64),
) {
    let cells = u64::from(capacities.cells);
    let counts = counts_of(rt, alloc, threads.wrapping_mul(values));
    let collector = collector(rt, alloc, capacities);
    let stack = Stack::new(&collector);
    let (shared, nodes, all) = (&stack, &collector, counts.as_slice());
    thread::scope(thread::scope_env(), rt, |scope| {
        for thread in 0..threads {
            let values = (thread.wrapping_mul(values), values);
            let _ = scope.spawn(move || push_and_pop(rt, alloc, nodes, shared, all, values));
        }
    });
    pop_the_rest(rt, &collector, &stack, &counts);
    want_each(rt, "how often it came off", &counts, 1);
    let free = free_cells(rt, alloc, &collector, &stack);
    want(rt, "the cells that are free", free, cells);
    drop(stack);
    let _ = collector.end();
}

#[test]
fn each_value_of_8_threads_comes_off_once(rt: HostRuntime) {
    race(&rt, rt.alloc(), Capacities::usual(8, 64, 16), (8, 2000));
}

// Each of the lists of a participant takes 8 cells.
#[test]
fn each_value_of_8_threads_that_keep_cells_comes_off_once(rt: HostRuntime) {
    race(&rt, rt.alloc(), Capacities::usual(8, 512, 16), (8, 2000));
}

#[test]
fn treiber_stack(rt: HostRuntime) {
    race(&rt, rt.alloc(), Capacities::usual(3, 16, 16), (2, 5));
}
