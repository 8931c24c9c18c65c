//! What one participant does with a stack, as a table: deeds under one guard after the other.
use crate::calls::{collector, end, pin, register, release, unpin};
use crate::stack::calls::{
    Handle, Pin, let_go, pop, pop_alone, push, want_empty, want_pop, want_push, want_round,
};
use crate::wants::want;
use epoch::{Capacities, Fault, unprotected};
use epoch_stack::Stack;
use std::alloc::Global;
use std::process::Abort;

/// What is done under a guard, and what it has to answer.
#[derive(Clone, Copy)]
pub(crate) enum Deed {
    /// Pushes the value in one try.
    Push(u64),
    /// A push of the value in at most this many tries is refused.
    Refused(u64, u32, Fault),
    /// Pops the value in one try.
    Pop(u64),
    /// A pop in at most this many tries is refused.
    Kept(u32, Fault),
    /// Pops the value in one lone try.
    Alone(u64),
    /// A pop in one try finds nothing, and the stack says that it is empty.
    Nothing,
    /// Whether the stack says that it is empty.
    Empty(bool),
    /// Whether the held bag has room.
    Room(bool),
    /// Under a guard that the handle hasn't out, a push of 4 and a pop are refused, and the stack, which holds 1 and
    /// nothing else, stays as it was. A lone pop of 1 under it frees its cell at once.
    Strange,
}

/// Deeds under one guard, and what the flushes answer of the rounds that are made after its unpin.
pub(crate) type Pinned = (&'static [Deed], &'static [Result<(), Fault>]);

/// A push and a pop under a guard that the handle hasn't out are refused, and the stack stays as it was, with 1.
fn want_strange(rt: &impl Abort, alloc: Global, stack: &Stack<'_, u64>, handle: &mut Handle<'_>) {
    let stranger = unprotected(handle.collector());
    let refused = Some(Fault::StrangerGuard);
    want_push(rt, alloc, stack, handle, &stranger, (4, 0), refused);
    want_pop(rt, stack, handle, &stranger, 0, Err(Fault::StrangerGuard));
    pop_alone(rt, stack, &stranger, 1);
    want(rt, "whether it is empty", stack.is_empty(&stranger), true);
    let_go(rt, stranger);
}

/// Does this under the guard.
fn act(
    rt: &impl Abort,
    alloc: Global,
    stack: &Stack<'_, u64>,
    handle: &mut Handle<'_>,
    guard: &Pin<'_>,
    deed: Deed,
) {
    match deed {
        Deed::Push(value) => push(rt, alloc, stack, handle, guard, value),
        Deed::Refused(value, tries, fault) => {
            want_push(rt, alloc, stack, handle, guard, (value, tries), Some(fault));
        }
        Deed::Pop(value) => pop(rt, stack, handle, guard, value),
        Deed::Kept(tries, fault) => want_pop(rt, stack, handle, guard, tries, Err(fault)),
        Deed::Alone(value) => pop_alone(rt, stack, guard, value),
        Deed::Nothing => want_empty(rt, stack, handle, guard),
        Deed::Empty(wanted) => want(rt, "whether it is empty", stack.is_empty(guard), wanted),
        Deed::Room(wanted) => want(rt, "room in the held bag", handle.has_room(), wanted),
        Deed::Strange => want_strange(rt, alloc, stack, handle),
    }
}

/// The one participant of a collector with these capacities does all this to an empty stack. The end calls this many
/// jobs.
pub(crate) fn play(
    rt: &impl Abort,
    alloc: Global,
    capacities: Capacities,
    pins: &[Pinned],
    jobs: u64,
) {
    let collector = collector(rt, alloc, capacities);
    let stack = Stack::new(&collector);
    let mut handle = register(rt, &collector);
    for (deeds, rounds) in pins.iter().copied() {
        let guard = pin(rt, &mut handle);
        for deed in deeds.iter().copied() {
            act(rt, alloc, &stack, &mut handle, &guard, deed);
        }
        unpin(rt, &mut handle, guard);
        for flushed in rounds.iter().copied() {
            want_round(rt, &mut handle, flushed);
        }
    }
    release(rt, handle);
    drop(stack);
    end(rt, collector, jobs);
}
