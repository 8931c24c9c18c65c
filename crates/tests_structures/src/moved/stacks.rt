//! Values that a counted stack moves.
use crate::calls::{collector, end, pin, register, release, unpin};
use crate::counts::want_each;
use crate::moved::seats::{Seat, pop_values, push_values};
use crate::moved::values::{Drops, Token, drops_of, want_dropped};
use epoch::{Capacities, Collector, Fault, LocalHandle, Refused};
use epoch_cells::take_once::TakeOnce;
use epoch_stack::{Node, Stack};
use std::alloc::Global;
use std::process::Abort;

/// A node of such a stack.
type Link = Node<TakeOnce<Token>>;

/// A participant of a stack.
struct StackSeat<'p, 'c, 'd> {
    alloc: Global,
    stack: &'p Stack<'c, TakeOnce<Token>>,
    handle: LocalHandle<'d, Link>,
}

impl<'p, 'c, 'd> Seat for StackSeat<'p, 'c, 'd> {
    fn push<R: Abort>(
        &mut self,
        rt: &R,
        token: Token,
        flushes: bool,
    ) -> Result<(), Refused<Token>> {
        let guard = pin(rt, &mut self.handle);
        let pushed = self
            .stack
            .push_owned(self.alloc, &mut self.handle, &guard, token, 1);
        if flushes {
            let _ = self.handle.flush(&guard);
        }
        unpin(rt, &mut self.handle, guard);
        pushed
    }

    fn pop<R: Abort>(&mut self, rt: &R, flushes: bool) -> Result<Option<Token>, Fault> {
        let guard = pin(rt, &mut self.handle);
        let popped = self.stack.pop_owned(&mut self.handle, &guard, 1);
        if flushes {
            let _ = self.handle.flush(&guard);
        }
        unpin(rt, &mut self.handle, guard);
        popped
    }
}

/// A new participant of the stack.
fn sit<'p, 'c, 'd>(
    rt: &impl Abort,
    alloc: Global,
    collector: &'d Collector<Link>,
    stack: &'p Stack<'c, TakeOnce<Token>>,
) -> StackSeat<'p, 'c, 'd> {
    let handle = register(rt, collector);
    StackSeat {
        alloc,
        stack,
        handle,
    }
}

/// The handle of a participant that makes no further call.
fn handle_of<'d>(seat: StackSeat<'_, '_, 'd>) -> LocalHandle<'d, Link> {
    let StackSeat {
        alloc: _,
        stack: _,
        handle,
    } = seat;
    handle
}

/// This many values are pushed, of which the cells have room for this many, and then these come off. What is left on
/// the stack is dropped by the end of the collector, which calls this many removals.
fn play_out(
    rt: &impl Abort,
    alloc: Global,
    (values, room, drops): (u64, u32, &Drops),
    popped: &[Option<u64>],
    removals: u64,
) {
    let collector = collector(rt, alloc, Capacities::usual(1, room, 1));
    let stack = Stack::new(&collector);
    let mut seat = sit(rt, alloc, &collector, &stack);
    push_values(rt, alloc, &mut seat, (values, room as u64, drops));
    pop_values(rt, &mut seat, popped);
    release(rt, handle_of(seat));
    drop(stack);
    want_dropped(rt, drops.as_slice(), room as u64, popped);
    end(rt, collector, removals);
}

/// As `play_out`. Then each value was dropped once.
fn play(
    rt: &impl Abort,
    alloc: Global,
    (values, room): (u64, u32),
    popped: &[Option<u64>],
    removals: u64,
) {
    let drops = drops_of(rt, alloc, values);
    play_out(rt, alloc, (values, room, &drops), popped, removals);
    want_each(rt, "each value was dropped once", drops.as_slice(), 1);
}

#[test]
fn a_stack_moves_boxed_values(rt: HostRuntime) {
    let popped = [Some(2), Some(1), Some(0), None];
    play(&rt, rt.alloc(), (3, 3), &popped, 3);
}

#[test]
fn a_push_on_a_stack_without_a_cell_hands_the_value_back(rt: HostRuntime) {
    play(&rt, rt.alloc(), (2, 1), &[Some(0), None], 1);
}

#[test]
fn values_left_on_a_stack_are_dropped_by_the_end(rt: HostRuntime) {
    play(&rt, rt.alloc(), (5, 5), &[Some(4), Some(3)], 2);
}
