//! Random calls on a stack or a queue by one thread, beside a deque of std that is given the same ones.
use crate::lending::{Part, next_number, rounds};
use crate::lists::pile::{Call, Link, Pile, want_call};
use crate::wants::want;
use epoch_lend::readers::posts::PostSet;
use std::alloc::Global;
use std::collections::VecDeque;
use std::process::Abort;

/// How many calls are made.
const CALLS: u32 = 10_000;

/// How many nodes there are at most. A push that would be one more is a pop.
const MOST: usize = 48;

/// One call, which the upper bits of the number choose, and its counterpart on the model. In front of the model is what
/// comes off next: a stack's values are pushed there, and a queue's behind all others.
fn call_both<'s, J: PostSet>(
    rt: &impl Abort,
    pile: &Pile<'_, 's, J>,
    part: &mut Part<'_, 's, J, Link>,
    model: &mut VecDeque<u64>,
    number: u32,
) {
    let value = u64::from(number);
    match (number >> 24) % 4 {
        0 | 1 if model.len() < MOST => {
            want_call(rt, pile, part, (Call::Push(value), 1, Ok(None)));
            let pushed = match pile {
                Pile::Stack(_) => model.push_front(value).is_ok(),
                Pile::Queue(_) => model.push_back(value).is_ok(),
            };
            want(rt, "memory", pushed, true);
        }
        2 => {
            let next = model.front().copied();
            want_call(rt, pile, part, (Call::Peek, 1, Ok(next)));
        }
        _ => want_call(rt, pile, part, (Call::Pop, 1, Ok(model.pop_front()))),
    }
}

/// Makes all calls, and then pops what is left. A flush after each few calls has nodes dropped, so that cells are used
/// again and again.
pub(crate) fn compare<'s, J: PostSet>(
    rt: &impl Abort,
    alloc: Global,
    pile: &Pile<'_, 's, J>,
    part: &mut Part<'_, 's, J, Link>,
) {
    let mut model = VecDeque::new(alloc);
    let mut number = 0;
    for calls in 0..CALLS {
        number = next_number(number);
        call_both(rt, pile, part, &mut model, number);
        if calls % 16 == 0 {
            rounds(rt, part, 1);
        }
    }
    for _ in 0..=MOST {
        want_call(rt, pile, part, (Call::Pop, 1, Ok(model.pop_front())));
    }
}
