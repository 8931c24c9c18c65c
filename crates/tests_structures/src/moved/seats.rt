//! What is done with a stack or a queue of values that are moved, whichever it is.
use crate::moved::values::{Drops, Token, back_of, count, number_of, told_of_pop, told_of_push};
use crate::wants::want;
use epoch::{Fault, Refused};
use std::alloc::Global;
use std::process::Abort;
use std::sync::Wait;
use std::sync::atomic::AtomicU64;
use std::thread;

/// A participant of a stack or a queue. Each call pins, tries once, and flushes then if that is wanted. On 8 threads, a
/// push of one try is lost now and then, and hands its value back.
pub(crate) trait Seat {
    /// Pushes the value.
    fn push<R: Abort>(&mut self, rt: &R, token: Token, flushes: bool) -> Result<(), Refused<Token>>;

    /// Pops a value.
    fn pop<R: Abort>(&mut self, rt: &R, flushes: bool) -> Result<Option<Token>, Fault>;
}

/// Pushes the values 0, 1 and so on in turn. The cells have room for this many of them, and each further one comes
/// back.
pub(crate) fn push_values<R: Abort, S: Seat>(
    rt: &R,
    alloc: Global,
    seat: &mut S,
    (values, room, drops): (u64, u64, &Drops),
) {
    for number in 0..values {
        let token = Token::new(rt, alloc, number, drops);
        let seen = told_of_push(seat.push(rt, token, false));
        let wanted = if number < room {
            Ok(())
        } else {
            Err((Fault::CellsFull, number))
        };
        want(rt, "a push", seen, wanted);
    }
}

/// These come off in turn, and are dropped.
pub(crate) fn pop_values<R: Abort, S: Seat>(rt: &R, seat: &mut S, popped: &[Option<u64>]) {
    for wanted in popped.iter().copied() {
        let seen = told_of_pop(seat.pop(rt, false));
        want(rt, "a pop", seen, Ok(wanted));
    }
}

/// Pushes the value of this number, and pushes what comes back, until it is pushed.
fn push_at_last<R: Abort + Wait, S: Seat>(
    rt: &R,
    alloc: Global,
    seat: &mut S,
    (number, drops): (u64, &Drops),
) {
    let mut token = Token::new(rt, alloc, number, drops);
    for _ in rt.forever() {
        let pushed = seat.push(rt, token, true);
        match back_of(rt, pushed, number) {
            None => return,
            Some(back) => token = back,
        }
        thread::yield_now();
    }
    unreachable!()
}

/// Pops a value, or `None` if there is none. If it is refused, it pops again.
fn pop_at_last<R: Abort + Wait, S: Seat>(rt: &R, seat: &mut S) -> Option<Token> {
    for _ in rt.forever() {
        if let Ok(popped) = seat.pop(rt, true) {
            return popped;
        }
        thread::yield_now();
    }
    unreachable!()
}

/// Pushes each of `values` values from `first` on, and pops one after each.
pub(crate) fn push_and_pop<R: Abort + Wait, S: Seat>(
    rt: &R,
    alloc: Global,
    seat: &mut S,
    (counts, drops): (&[AtomicU64], &Drops),
    (first, values): (u64, u64),
) {
    for value in 0..values {
        let number = first.wrapping_add(value);
        push_at_last(rt, alloc, seat, (number, drops));
        count(rt, counts, pop_at_last(rt, seat));
    }
}

/// Pops what is left.
pub(crate) fn pop_the_rest<R: Abort + Wait, S: Seat>(rt: &R, seat: &mut S, counts: &[AtomicU64]) {
    for _ in counts {
        count(rt, counts, pop_at_last(rt, seat));
    }
    want(
        rt,
        "nothing is left",
        number_of(pop_at_last(rt, seat)),
        None,
    );
}
