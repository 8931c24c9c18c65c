//! Several threads on one stack or queue.
ghost use Rattle.std.specs.Prelude.{◌≡◌};

use crate::counts::{counts_of, note, want_each};
use crate::lending::{
    AFTER_A_RACE, Part, cells_in, domain_over, join, leave, posts, rounds, store_of,
};
use crate::lists::pile::{Call, Link, Pile, call_once};
use crate::lists::scenes::empty_pile;
use crate::wants::want;
use epoch_lend::readers::posts::{Made, PostSet};
use epoch_lend_pointers::Store;
use std::alloc::Global;
use std::marker::Brand;
use std::process::Abort;
use std::sync::Wait;
use std::sync::atomic::AtomicU64;
use std::thread;
use std::thread::Threads;

/// As many tries as any call here has.
const TRIES: u32 = 100_000;

/// How many threads there are.
const THREADS: u64 = 8;

/// How many values each thread pushes.
const EACH: u64 = 400;

/// Makes the call, and makes it again where it is refused. Behind each call it flushes.
fn make_call<'s, J: PostSet, R: Abort + Wait>(
    rt: &R,
    pile: &Pile<'_, 's, J>,
    part: &mut Part<'_, 's, J, Link>,
    call: Call,
) -> Option<u64> {
    for _ in rt.forever() {
        if let Ok(answer) = call_once(rt, pile, part, (call, TRIES), true) {
            return answer;
        }
        thread::yield_now();
    }
    unreachable!()
}

/// Of the values that one thread has pushed, the ones that come off for another come in their order: this one comes
/// after those below `newest`.
fn note_order(rt: &impl Abort, newest: &mut [u64], value: u64) {
    match newest.get_mut((value / EACH) as usize) {
        Some(newest) => {
            want(rt, "a value comes in its order", *newest <= value, true);
            *newest = value.wrapping_add(1);
        }
        None => panic!(rt; "{value} was never pushed"),
    }
}

/// Pushes the value, looks at the pile, and pops one value, which must be there, since this thread has pushed more than
/// it has popped.
fn take_turn<'s, J: PostSet, R: Abort + Wait>(
    rt: &R,
    pile: &Pile<'_, 's, J>,
    part: &mut Part<'_, 's, J, Link>,
    off: &[AtomicU64],
    newest: &mut [u64],
    value: u64,
) {
    let _ = make_call(rt, pile, part, Call::Push(value));
    let seen = make_call(rt, pile, part, Call::Peek).unwrap_or(0);
    let was_pushed = off.get(seen as usize).is_some();
    want(rt, "a value that was pushed", was_pushed, true);
    let popped = make_call(rt, pile, part, Call::Pop).expect(rt, "one value at least is there");
    note(rt, off, popped);
    if let Pile::Queue(_) = pile {
        note_order(rt, newest, popped);
    }
}

/// Takes a turn for each of the values from `first` on.
fn work<'s, J: PostSet, R: Abort + Wait>(
    rt: &R,
    alloc: Global,
    store: &Store<'s, J, Link>,
    pile: &Pile<'_, 's, J>,
    off: &[AtomicU64],
    first: u64,
) {
    let mut part = join(rt, alloc, store);
    // One for each thread.
    let mut newest = [0; 8];
    for number in 0..EACH {
        let value = first.wrapping_add(number);
        take_turn(rt, pile, &mut part, off, &mut newest, value);
    }
    leave(rt, part);
}

/// Runs all threads at once. Each value comes off once.
fn race<'s, J: PostSet + Send + Sync, R: Abort + Threads + Wait + Sync>(
    rt: &R,
    alloc: Global,
    store: &Store<'s, J, Link>,
    pile: &Pile<'_, 's, J>,
) {
    let counts = counts_of(rt, alloc, THREADS * EACH);
    let off = counts.as_slice();
    thread::scope(thread::scope_env(), rt, |scope| {
        for thread in 0..THREADS {
            let first = thread.wrapping_mul(EACH);
            let _ = scope.spawn(move || work(rt, alloc, store, pile, off, first));
        }
    });
    want_each(rt, "how often it came off", off, 1);
}

// Each thread pops as often as it pushes, so the pile is empty in the end. Nodes are dropped in the midst of the run,
// and after it none is left.
fn begin<J: PostSet + Send + Sync, R: Abort + Threads + Wait + Sync>(
    rt: &R,
    alloc: Global,
    made: Made,
    is_queue: bool,
)
    requires { made.posts.items ≡ J.posts }
{
    let domain = domain_over::<J>(rt, alloc, made);
    let mut cells = cells_in(rt, alloc, &domain, 513);
    let store = store_of(rt, alloc, &domain, &mut cells);
    let mut part = join(rt, alloc, &store);
    let pile = empty_pile(rt, &store, &mut part, is_queue);
    race(rt, alloc, &store, &pile);
    rounds(rt, &mut part, AFTER_A_RACE);
    leave(rt, part);
    drop(pile);
    let left = if is_queue { 1 } else { 0 };
    want(rt, "how many nodes are left", store.end(), left);
}

fn play_race<R: Abort + Threads + Wait + Sync>(rt: &R, alloc: Global, is_queue: bool) {
    let made = posts(rt, alloc);
    begin::<Brand, R>(rt, alloc, made, is_queue);
}

#[test]
fn each_value_of_8_threads_comes_off_a_stack_once(rt: HostRuntime) {
    play_race(&rt, rt.alloc(), false);
}

#[test]
fn each_value_of_8_threads_comes_off_a_queue_once(rt: HostRuntime) {
    play_race(&rt, rt.alloc(), true);
}
