//! Several threads on one map, each with keys of its own and with keys that all use.
ghost use Rattle.std.specs.Prelude.{◌≡◌};

use crate::counts::{counts_of, note};
use crate::lending::{
    AFTER_A_RACE, Part, Told, cells_in, domain_over, flush_if, join, leave, pin, posts, rounds,
    store_of,
};
use crate::map::calls::{Call, Map, Node, answer};
use crate::wants::want;
use epoch_lend::readers::posts::{Made, PostSet};
use epoch_lend_pointers::Store;
use epoch_map::LendingMap;
use std::alloc::Global;
use std::marker::Brand;
use std::process::Abort;
use std::sync::Wait;
use std::sync::atomic::AtomicU64;
use std::sync::atomic::Ordering::SeqCst;
use std::thread;
use std::thread::Threads;

/// As many moves as any call here has.
const MOVES: u32 = 100_000;

/// How many keys all threads use.
const COMMON: u64 = 4;

/// How many threads there are, and how many values each one inserts.
const THREADS: u64 = 8;

const EACH: u64 = 200;

/// How often each value was put into the map, and how often it came off.
#[derive(Clone, Copy)]
struct Counts<'a> {
    put: &'a [AtomicU64],
    off: &'a [AtomicU64],
}

/// Makes the call, once.
fn call_once<'s, J: PostSet>(
    rt: &impl Abort,
    map: &Map<'_, 's, J>,
    part: &mut Part<'_, 's, J, Node>,
    call: Call,
) -> Told {
    let guard = pin(rt, &mut part.session);
    let told = answer(rt, map, &mut part.writer, &guard, (call, MOVES));
    flush_if(&mut part.writer, true);
    part.session.unpin(guard);
    told
}

/// Makes the call, and makes it again where it is refused.
fn make_call<'s, J: PostSet, R: Abort + Wait>(
    rt: &R,
    map: &Map<'_, 's, J>,
    part: &mut Part<'_, 's, J, Node>,
    call: Call,
) -> Option<u64> {
    for _ in rt.forever() {
        if let Ok(answer) = call_once(rt, map, part, call) {
            return answer;
        }
        thread::yield_now();
    }
    unreachable!()
}

/// Inserts the value under a key of this thread's own, finds it, keeps it there against another insert, and removes
/// it.
fn own_key<'s, J: PostSet, R: Abort + Wait>(
    rt: &R,
    map: &Map<'_, 's, J>,
    part: &mut Part<'_, 's, J, Node>,
    key: u64,
    value: u64,
) {
    let calls = [
        (Call::Insert(key, value), None),
        (Call::Get(key), Some(value)),
        (Call::Insert(key, 0), Some(value)),
        (Call::Remove(key), Some(value)),
        (Call::GetHelping(key), None),
    ];
    for (call, wanted) in calls {
        let seen = make_call(rt, map, part, call);
        want(rt, "a call with an own key", seen, wanted);
    }
}

/// Inserts the value under a key that other threads use too, looks the key up, and removes whichever value is there.
fn common_key<'s, J: PostSet, R: Abort + Wait>(
    rt: &R,
    map: &Map<'_, 's, J>,
    part: &mut Part<'_, 's, J, Node>,
    counts: Counts<'_>,
    key: u64,
    value: u64,
) {
    if make_call(rt, map, part, Call::Insert(key, value)).is_none() {
        note(rt, counts.put, value);
    }
    let _ = make_call(rt, map, part, Call::Get(key));
    remove_common(rt, map, part, counts, key);
}

/// Removes whichever value is there.
fn remove_common<'s, J: PostSet, R: Abort + Wait>(
    rt: &R,
    map: &Map<'_, 's, J>,
    part: &mut Part<'_, 's, J, Node>,
    counts: Counts<'_>,
    key: u64,
) {
    if let Some(removed) = make_call(rt, map, part, Call::Remove(key)) {
        note(rt, counts.off, removed);
    }
}

/// Inserts the values from `first` on, each under a key of its own and under a common one.
fn work<'s, J: PostSet, R: Abort + Wait>(
    rt: &R,
    alloc: Global,
    store: &Store<'s, J, Node>,
    map: &Map<'_, 's, J>,
    counts: Counts<'_>,
    first: u64,
) {
    let mut part = join(rt, alloc, store);
    for number in 0..EACH {
        let value = first.wrapping_add(number);
        own_key(rt, map, &mut part, value.wrapping_add(COMMON), value);
        common_key(rt, map, &mut part, counts, number % COMMON, value);
    }
    leave(rt, part);
}

/// Removes what is left under the common keys, and then finds none of them.
fn drain<'s, J: PostSet, R: Abort + Wait>(
    rt: &R,
    map: &Map<'_, 's, J>,
    part: &mut Part<'_, 's, J, Node>,
    counts: Counts<'_>,
) {
    for key in 0..COMMON {
        remove_common(rt, map, part, counts, key);
        let missing = make_call(rt, map, part, Call::Get(key));
        want(rt, "what is left", missing, None);
    }
}

/// Each value came off as often as it was put there: once or never.
fn want_same_counts(rt: &impl Abort, counts: Counts<'_>) {
    for (value, count) in counts.put.iter().enumerate() {
        let put = count.load(SeqCst);
        assert!(rt; put < 2, "{value} was put there twice");
        match counts.off.get(value) {
            Some(off) => want(rt, "how often a value came off", off.load(SeqCst), put),
            None => panic!(rt; "{value} has no count"),
        }
    }
}

fn run_at_once<'s, J: PostSet + Send + Sync, R: Abort + Threads + Wait + Sync>(
    rt: &R,
    alloc: Global,
    store: &Store<'s, J, Node>,
    map: &Map<'_, 's, J>,
    counts: Counts<'_>,
) {
    thread::scope(thread::scope_env(), rt, |scope| {
        for thread in 0..THREADS {
            let first = thread.wrapping_mul(EACH);
            let _ = scope.spawn(move || work(rt, alloc, store, map, counts, first));
        }
    });
}

/// Runs all threads at once, and then removes what is left by this part.
fn race<'s, J: PostSet + Send + Sync, R: Abort + Threads + Wait + Sync>(
    rt: &R,
    alloc: Global,
    store: &Store<'s, J, Node>,
    map: &Map<'_, 's, J>,
    part: &mut Part<'_, 's, J, Node>,
) {
    let put = counts_of(rt, alloc, THREADS * EACH);
    let off = counts_of(rt, alloc, THREADS * EACH);
    let counts = Counts {
        put: put.as_slice(),
        off: off.as_slice(),
    };
    run_at_once(rt, alloc, store, map, counts);
    drain(rt, map, part, counts);
    want_same_counts(rt, counts);
}

// Nodes are dropped in the midst of the run, and after it none is left.
fn begin<J: PostSet + Send + Sync, R: Abort + Threads + Wait + Sync>(
    rt: &R,
    alloc: Global,
    made: Made,
)
    requires { made.posts.items ≡ J.posts }
{
    let domain = domain_over::<J>(rt, alloc, made);
    let mut cells = cells_in(rt, alloc, &domain, 512);
    let store = store_of(rt, alloc, &domain, &mut cells);
    let map = LendingMap::new(alloc, &store, 2).expect(rt, "memory for a map");
    let mut part = join(rt, alloc, &store);
    race(rt, alloc, &store, &map, &mut part);
    rounds(rt, &mut part, AFTER_A_RACE);
    leave(rt, part);
    drop(map);
    want(rt, "how many nodes are left", store.end(), 0);
}

fn play_race<R: Abort + Threads + Wait + Sync>(rt: &R, alloc: Global) {
    let made = posts(rt, alloc);
    begin::<Brand, R>(rt, alloc, made);
}

#[test]
fn each_value_of_8_threads_comes_off_once(rt: HostRuntime) {
    play_race(&rt, rt.alloc());
}
