//! A stack as its user writes it.
use crate::calls::{collector, end, pin, register, release, unpin};
use crate::shown::want_shown;
use crate::stack::calls::{Handle, Pin};
use crate::wants::want;
use epoch::{Capacities, Fault};
use epoch_stack::Stack;
use std::alloc::Global;

fn two_values(
    alloc: Global,
    stack: &Stack<'_, u64>,
    handle: &mut Handle<'_>,
    guard: &Pin<'_>,
) -> Result<[Option<u64>; 3], Fault> {
    stack
        .push(alloc, handle, guard, 1, 100)
        .map_err(|refused| refused.fault)?;
    stack
        .push(alloc, handle, guard, 2, 100)
        .map_err(|refused| refused.fault)?;
    let last = stack.pop(handle, guard, 100)?;
    let first = stack.pop(handle, guard, 100)?;
    let none = stack.pop(handle, guard, 100)?;
    Ok([last, first, none])
}

#[test]
fn two_values_come_off_and_then_none(rt: HostRuntime) {
    let collector = collector(&rt, rt.alloc(), Capacities::usual(1, 2, 1));
    let stack = Stack::new(&collector);
    let mut handle = register(&rt, &collector);
    let guard = pin(&rt, &mut handle);
    let seen = two_values(rt.alloc(), &stack, &mut handle, &guard);
    want(&rt, "what comes off", seen, Ok([Some(2), Some(1), None]));
    unpin(&rt, &mut handle, guard);
    release(&rt, handle);
    drop(stack);
    end(&rt, collector, 2);
}

#[test]
fn a_stack_is_shown_by_the_number_of_its_collector(rt: HostRuntime) {
    let collector = collector(&rt, rt.alloc(), Capacities::usual(1, 1, 1));
    let stack: Stack<u64> = Stack::new(&collector);
    want_shown(&rt, rt.alloc(), &stack, "Stack { collector: 1, .. }");
    drop(stack);
    end(&rt, collector, 0);
}
