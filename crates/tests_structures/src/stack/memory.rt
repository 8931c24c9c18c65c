//! Memory that is refused to a push: `rt try --test --fail-alloc N` refuses the Nth allocation of each test, and each
//! of these tests passes whichever that is. In a plain run no allocation is refused.
use crate::calls::{end, pin, register, release, unpin};
use crate::stack::calls::{Handle, Nodes, Pin, told, want_empty, want_pop};
use crate::wants::want;
use epoch::{Capacities, Collector, Fault};
use epoch_stack::Stack;
use std::alloc::Global;
use std::process::Abort;

/// A collector with one participant, this many cells and one place.
fn new_collector(alloc: Global, cells: u32) -> Result<Nodes, Fault> {
    let capacities = Capacities::usual(1, cells, 1);
    if !capacities.is_valid() {
        return Err(Fault::CellsFull);
    }
    Collector::new(alloc, capacities, 1)
}

/// A collector, for which memory is asked once more if it is refused.
fn collector_at_last(alloc: Global, cells: u32) -> Result<Nodes, Fault> {
    match new_collector(alloc, cells) {
        Ok(collector) => Ok(collector),
        Err(_) => new_collector(alloc, cells),
    }
}

/// Pushes the value, and answers its fault. The value is handed back with it.
fn pushed(
    rt: &impl Abort,
    alloc: Global,
    stack: &Stack<'_, u64>,
    handle: &mut Handle<'_>,
    guard: &Pin<'_>,
    value: u64,
) -> Option<Fault> {
    fault_of(rt, told(stack.push(alloc, handle, guard, value, 1)), value)
}

/// The fault of a push. The value is handed back with it.
fn fault_of(rt: &impl Abort, pushed: Result<(), (Fault, u64)>, value: u64) -> Option<Fault> {
    match pushed {
        Ok(()) => None,
        Err((fault, back)) => {
            want(rt, "the value that comes back", back, value);
            Some(fault)
        }
    }
}

/// One allocation is refused at most, so of 1 and 2 one is on the stack at least, and nothing else is.
fn want_left(
    rt: &impl Abort,
    stack: &Stack<'_, u64>,
    handle: &mut Handle<'_>,
    guard: &Pin<'_>,
    first: Option<Fault>,
    second: Option<Fault>,
) -> u64 {
    let lower = match first {
        None => 1,
        Some(fault) => {
            want(rt, "why 1 is refused", fault, Fault::NoMemory);
            want(rt, "why 2 is not refused", second, None);
            0
        }
    };
    match second {
        None => want_pop(rt, stack, handle, guard, 1, Ok(Some(2))),
        Some(fault) => want(rt, "why 2 is refused", fault, Fault::NoMemory),
    }
    if lower == 1 {
        want_pop(rt, stack, handle, guard, 1, Ok(Some(1)));
    }
    want_empty(rt, stack, handle, guard);
    let upper = if second.is_none() { 1 } else { 0 };
    lower + upper
}

/// Memory is refused once at most, and the cells are full else.
fn want_full_or_refused(rt: &impl Abort, first: Option<Fault>, second: Option<Fault>) {
    if first == Some(Fault::NoMemory) {
        want(rt, "the second fault", second, Some(Fault::CellsFull));
    } else {
        want(rt, "the first fault", first, Some(Fault::CellsFull));
        if second != Some(Fault::NoMemory) {
            want(rt, "the second fault", second, Some(Fault::CellsFull));
        }
    }
}

/// Pushes 1 and 2 onto an empty stack over this many cells, of which there are two or none, and pops what is there. A
/// push that is refused has deferred nothing.
fn push_two(rt: &impl Abort, alloc: Global, cells: u32) -> Result<(), Fault> {
    let collector = collector_at_last(alloc, cells)?;
    let stack = Stack::new(&collector);
    let mut handle = register(rt, &collector);
    let popped = pushed_and_popped(rt, alloc, &stack, &mut handle, cells);
    release(rt, handle);
    drop(stack);
    end(rt, collector, popped);
    Ok(())
}

/// Pushes 1 and 2 under a guard. Returns how many came off.
fn pushed_and_popped<'c>(
    rt: &impl Abort,
    alloc: Global,
    stack: &Stack<'c, u64>,
    handle: &mut Handle<'c>,
    cells: u32,
) -> u64 {
    let guard = pin(rt, handle);
    let first = pushed(rt, alloc, stack, handle, &guard, 1);
    let second = pushed(rt, alloc, stack, handle, &guard, 2);
    let popped = if cells == 0 {
        want_full_or_refused(rt, first, second);
        want_empty(rt, stack, handle, &guard);
        0
    } else {
        want_left(rt, stack, handle, &guard, first, second)
    };
    unpin(rt, handle, guard);
    popped
}

#[test]
fn a_value_is_pushed_or_memory_is_refused(rt: HostRuntime) -> Result<(), Fault> {
    push_two(&rt, rt.alloc(), 2)
}

// Without cells: memory that is refused is told before full cells.
#[test]
fn refused_memory_is_told_before_full_cells(rt: HostRuntime) -> Result<(), Fault> {
    push_two(&rt, rt.alloc(), 0)
}
