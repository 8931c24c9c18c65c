//! Several threads on one ordered map, each with keys of its own and with keys that all use.
use crate::ordered::calls::{Call, Map, Node, Part, answer, join, leave};
use crate::sessions::pin;
use crate::wants::want;
use epoch_lend_pointers::{PostSet, Store};
use epoch_ordered_map::OrderedNode;
use std::alloc::Global;
use std::process::Abort;
use std::sync::Wait;
use std::sync::atomic::AtomicU64;
use std::sync::atomic::Ordering::SeqCst;
use std::thread;
use std::thread::Threads;

/// How many threads there are, how many values each of them inserts, and how many keys all use.
const THREADS: u64 = 8;

const EACH: u64 = 200;

const COMMON: u64 = 4;

/// How many values there are under common keys. As many others, under own keys, have the numbers behind them.
const VALUES: u64 = THREADS * EACH;

/// As many flushes as drop all that waits after a run. A batch is tried twice, and has one node at least, of which
/// there are no more than cells. Each flush tries a batch at least.
const AFTER_A_RACE: u64 = 4_096;

/// What is added to a value's count when it is put into the map, and when it comes off.
const PUT: u64 = 1;

const OFF: u64 = 16;

fn note(rt: &impl Abort, counts: &[AtomicU64], value: u64, what: u64) {
    match counts.get(value as usize) {
        Some(count) => {
            count.fetch_add(what, SeqCst);
        }
        None => panic!(rt; "{value} was never put there"),
    }
}

/// Makes the call, and makes it again where it is refused.
fn make<'s, J: PostSet, R: Abort + Wait>(
    rt: &R,
    map: &Map<'_, 's, J>,
    part: &mut Part<'_, 's, J>,
    call: Call,
) -> Option<u64> {
    for _ in rt.forever() {
        if let Ok(told) = answer(rt, map, part, call) {
            return told;
        }
        thread::yield_now();
    }
    unreachable!()
}

/// Makes a call that takes a value off, if one is there, and returns whether one was.
fn take_off<'s, J: PostSet, R: Abort + Wait>(
    rt: &R,
    map: &Map<'_, 's, J>,
    part: &mut Part<'_, 's, J>,
    counts: &[AtomicU64],
    call: Call,
) -> bool {
    let Some(value) = make(rt, map, part, call) else {
        return false;
    };
    note(rt, counts, value, OFF);
    true
}

/// Inserts the value under a key of this thread's own, finds it, replaces it, and removes it. Each fourth one stays.
fn own_key<'s, J: PostSet, R: Abort + Wait>(
    rt: &R,
    map: &Map<'_, 's, J>,
    part: &mut Part<'_, 's, J>,
    counts: &[AtomicU64],
    value: u64,
) {
    let key = value.wrapping_add(COMMON);
    let other = value.wrapping_add(VALUES);
    let rows = [
        (Call::Insert(key, value), None),
        (Call::Get(key), Some(value)),
        (Call::Put(key, other), Some(value)),
        (Call::Get(key), Some(other)),
        (Call::Remove(key), Some(other)),
        (Call::Get(key), None),
    ];
    let stays = value % 4 == 0;
    for (call, wanted) in rows.iter().take(if stays { 4 } else { 6 }) {
        let seen = make(rt, map, part, *call);
        want(rt, "a call with an own key", seen, *wanted);
    }
    if stays {
        note(rt, counts, other, PUT);
    }
}

/// Inserts or puts the value under a key that other threads use too, and removes whichever value is there under
/// another one.
fn common_key<'s, J: PostSet, R: Abort + Wait>(
    rt: &R,
    map: &Map<'_, 's, J>,
    part: &mut Part<'_, 's, J>,
    counts: &[AtomicU64],
    (number, value): (u64, u64),
) {
    let key = number % COMMON;
    if number % 3 == 0 {
        if make(rt, map, part, Call::Insert(key, value)).is_none() {
            note(rt, counts, value, PUT);
        }
    } else {
        note(rt, counts, value, PUT);
        take_off(rt, map, part, counts, Call::Put(key, value));
    }
    let other = number.wrapping_add(1) % COMMON;
    let _ = make(rt, map, part, Call::Get(other));
    take_off(rt, map, part, counts, Call::Remove(other));
}

/// Goes over the map: its keys ascend. Returns how many there are.
fn ascends<'s, J: PostSet>(
    rt: &impl Abort,
    map: &Map<'_, 's, J>,
    part: &mut Part<'_, 's, J>,
) -> usize {
    let guard = pin(rt, &mut part.session);
    let (mut last, mut count) = (None, 0_usize);
    for node in map.iter(&guard) {
        let key = Some(*node.key());
        want(rt, "a key above the last one", last < key, true);
        last = key;
        count = count.wrapping_add(1);
    }
    part.session.unpin(guard);
    count
}

/// What one thread does: it puts the values from `first` on into the map, and goes over the map meanwhile. With no
/// `first`, it takes entries off until none is left.
fn work<'s, J: PostSet, R: Abort + Wait>(
    rt: &R,
    alloc: Global,
    store: &Store<'s, J, Node>,
    map: &Map<'_, 's, J>,
    (counts, first): (&[AtomicU64], Option<u64>),
) {
    let mut part = join(rt, alloc, store);
    if let Some(first) = first {
        for number in 0..EACH {
            let value = first.wrapping_add(number);
            own_key(rt, map, &mut part, counts, value);
            common_key(rt, map, &mut part, counts, (number, value));
            if number % 8 == 0 {
                let _ = ascends(rt, map, &mut part);
            }
        }
    } else {
        for _ in rt.forever() {
            if !take_off(rt, map, &mut part, counts, Call::PopFirst) {
                break;
            }
        }
    }
    leave(rt, part, 1);
}

fn run_at_once<'s, J: PostSet + Send + Sync, R: Abort + Threads + Wait + Sync>(
    rt: &R,
    alloc: Global,
    store: &Store<'s, J, Node>,
    map: &Map<'_, 's, J>,
    (counts, changes): (&[AtomicU64], bool),
) {
    thread::scope(thread::scope_env(), rt, |scope| {
        for thread in 0..THREADS {
            let first = changes.then_some(thread.wrapping_mul(EACH));
            let _ = scope.spawn(move || work(rt, alloc, store, map, (counts, first)));
        }
    });
}

/// Has all threads change the map at once, and then take off what is left. Between the two, the number of entries is
/// exact. Each value came off as often as it was put there: once or never.
pub(crate) fn race<'s, J: PostSet + Send + Sync, R: Abort + Threads + Wait + Sync>(
    rt: &R,
    alloc: Global,
    store: &Store<'s, J, Node>,
    map: &Map<'_, 's, J>,
) {
    let mut counts = Vec::new(alloc);
    for _ in 0..VALUES * 2 {
        let pushed = counts.push(AtomicU64::new(0)).is_ok();
        want(rt, "memory for a count", pushed, true);
    }
    run_at_once(rt, alloc, store, map, (counts.as_slice(), true));
    let mut part = join(rt, alloc, store);
    let seen = ascends(rt, map, &mut part);
    want(rt, "how many there are", seen, map.len());
    run_at_once(rt, alloc, store, map, (counts.as_slice(), false));
    want(rt, "how many are left", map.len(), 0);
    leave(rt, part, AFTER_A_RACE);
    for count in counts.as_slice() {
        let count = count.load(SeqCst);
        assert!(rt; count == 0 || count == PUT + OFF, "a value has {count}");
    }
}
