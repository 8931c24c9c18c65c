//! Several threads on one growing map, each with keys of its own and with keys that all use.
ghost use Rattle.std.specs.Prelude.{◌≡◌};

use crate::counts::{counts_of, note};
use crate::growing::calls::{Call, Label, Map, Node, answer};
use crate::lending::{Part, cells_in, domain_over, join, leave, pin, posts, rounds, store_of};
use crate::wants::want;
use epoch_lend::readers::posts::{Made, PostSet};
use epoch_lend_pointers::Store;
use epoch_map::{GrowingMap, MapNode};
use std::alloc::Global;
use std::marker::Brand;
use std::process::Abort;
use std::sync::Wait;
use std::sync::atomic::AtomicU64;
use std::sync::atomic::Ordering::SeqCst;
use std::thread;
use std::thread::Threads;

/// How many threads there are, how many values each one puts into the map under common keys, and as many under own
/// ones, and how many keys are common.
const THREADS: u64 = 8;

const EACH: u64 = 200;

const COMMON: u64 = 4;

/// How many values there are under common keys.
const VALUES: u64 = THREADS * EACH;

/// How many cells there are.
const CELLS: u16 = 4_096;

/// As many flushes as drop all that waits after a run. A batch is tried twice, and has one node at least, of which
/// there are no more than cells. Each flush tries a batch at least.
const AFTER_A_RACE: u32 = 8_192;

/// How often each value was put into the map, and how often it came off.
#[derive(Clone, Copy)]
struct Counts<'a> {
    put: &'a [AtomicU64],
    off: &'a [AtomicU64],
}

/// Makes the call, and makes it again where it is refused. A value that it takes off is counted.
fn make<'s, J: PostSet, R: Abort + Wait>(
    rt: &R,
    map: &Map<'_, 's, J>,
    part: &mut Part<'_, 's, J, Node>,
    off: &[AtomicU64],
    call: Call,
) -> Option<u64> {
    for _ in rt.forever() {
        if let Ok(told) = answer(rt, map, part, call) {
            if let (Call::Put(..) | Call::Remove(_), Some(value)) = (call, told) {
                note(rt, off, value);
            }
            return told;
        }
        thread::yield_now();
    }
    unreachable!()
}

/// Inserts the value under a key of this thread's own, finds it, replaces it, and removes it. Each second one stays.
fn own_key<'s, J: PostSet, R: Abort + Wait>(
    rt: &R,
    map: &Map<'_, 's, J>,
    part: &mut Part<'_, 's, J, Node>,
    counts: Counts<'_>,
    value: u64,
) {
    let place = value.wrapping_add(COMMON);
    let key = Label {
        place,
        group: place,
    };
    let other = value.wrapping_add(VALUES);
    let rows = [
        (Call::Insert(key, value), None),
        (Call::Get(key), Some(value)),
        (Call::Insert(key, other), Some(value)),
        (Call::Put(key, other), Some(value)),
        (Call::Get(key), Some(other)),
        (Call::Remove(key), Some(other)),
        (Call::Get(key), None),
    ];
    note(rt, counts.put, value);
    note(rt, counts.put, other);
    let stays = value % 2 == 0;
    for (call, wanted) in rows.iter().take(if stays { 5 } else { 7 }) {
        let seen = make(rt, map, part, counts.off, *call);
        want(rt, "a call with an own key", seen, *wanted);
    }
}

/// Inserts or puts the value under a key that other threads use too, and removes whichever value is there under
/// another one.
fn common_key<'s, J: PostSet, R: Abort + Wait>(
    rt: &R,
    map: &Map<'_, 's, J>,
    part: &mut Part<'_, 's, J, Node>,
    counts: Counts<'_>,
    (number, value): (u64, u64),
) {
    let group = number % COMMON;
    let (place, value) = (group, value.wrapping_add(VALUES * 2));
    let (key, mut is_put) = (Label { place, group }, true);
    if number % 3 == 0 {
        is_put = make(rt, map, part, counts.off, Call::Insert(key, value)).is_none();
    } else {
        let _ = make(rt, map, part, counts.off, Call::Put(key, value));
    }
    if is_put {
        note(rt, counts.put, value);
    }
    let place = number.wrapping_add(1) % COMMON;
    let other = Label {
        place,
        group: place,
    };
    let _ = make(rt, map, part, counts.off, Call::Get(other));
    let _ = make(rt, map, part, counts.off, Call::Remove(other));
}

/// Goes over the map, and returns how many entries there are from one place on up to another one.
fn within<'s, J: PostSet>(
    rt: &impl Abort,
    map: &Map<'_, 's, J>,
    part: &mut Part<'_, 's, J, Node>,
    (first, end): (u64, u64),
) -> u64 {
    let guard = pin(rt, &mut part.session);
    let mut count = 0_u64;
    for node in map.iter(&guard) {
        let place = node.key().place;
        if place >= first && place < end {
            count = count.wrapping_add(1);
        }
    }
    part.session.unpin(guard);
    count
}

/// Puts the values from `first` on into the map. Each own one that stays is met once meanwhile.
fn work<'s, J: PostSet, R: Abort + Wait>(
    rt: &R,
    alloc: Global,
    store: &Store<'s, J, Node>,
    map: &Map<'_, 's, J>,
    counts: Counts<'_>,
    first: u64,
) {
    let mut part = join(rt, alloc, store);
    let own = first.wrapping_add(COMMON);
    for number in 0..EACH {
        let value = first.wrapping_add(number);
        own_key(rt, map, &mut part, counts, value);
        common_key(rt, map, &mut part, counts, (number, value));
        if number % 16 == 0 {
            let seen = within(rt, map, &mut part, (own, own.wrapping_add(EACH)));
            want(rt, "own entries", seen, number / 2 + 1);
        }
    }
    leave(rt, part);
}

/// Takes off what is left, and counts it.
fn drain<'s, J: PostSet, R: Abort + Wait>(
    rt: &R,
    map: &Map<'_, 's, J>,
    part: &mut Part<'_, 's, J, Node>,
    counts: Counts<'_>,
) {
    let seen = within(rt, map, part, (0, u64::MAX));
    want(rt, "how many there are", seen, map.len() as u64);
    for place in 0..VALUES + COMMON {
        let key = Label {
            place,
            group: place,
        };
        let _ = make(rt, map, part, counts.off, Call::Remove(key));
    }
    want(rt, "how many are left", map.len(), 0);
    for (put, off) in counts.put.iter().zip(counts.off) {
        let (put, off) = (put.load(SeqCst), off.load(SeqCst));
        assert!(rt; put < 2, "a value was put there twice");
        want(rt, "how often a value came off", off, put);
    }
}

fn run_at_once<'s, J: PostSet + Send + Sync, R: Abort + Threads + Wait + Sync>(
    rt: &R,
    alloc: Global,
    store: &Store<'s, J, Node>,
    map: &Map<'_, 's, J>,
    counts: Counts<'_>,
) {
    thread::scope(thread::scope_env(), rt, |scope| {
        for thread in 0..THREADS {
            let first = thread.wrapping_mul(EACH);
            let _ = scope.spawn(move || work(rt, alloc, store, map, counts, first));
        }
    });
}

// Nodes are dropped in the midst of the run, and after it none is left. Half of the own entries stay, which are 800, so
// the number of buckets doubles four times: from 64 to 1,024.
fn begin<J: PostSet + Send + Sync, R: Abort + Threads + Wait + Sync>(
    rt: &R,
    alloc: Global,
    made: Made,
)
    requires { made.posts.items ≡ J.posts }
{
    let domain = domain_over::<J>(rt, alloc, made);
    let mut cells = cells_in(rt, alloc, &domain, CELLS);
    let store = store_of(rt, alloc, &domain, &mut cells);
    let map = GrowingMap::new(alloc, &store).expect(rt, "memory for a map");
    let put = counts_of(rt, alloc, VALUES * 3);
    let off = counts_of(rt, alloc, VALUES * 3);
    let counts = Counts {
        put: put.as_slice(),
        off: off.as_slice(),
    };
    run_at_once(rt, alloc, &store, &map, counts);
    want(rt, "four doublings", map.buckets(), 64 << 4);
    let mut part = join(rt, alloc, &store);
    drain(rt, &map, &mut part, counts);
    rounds(rt, &mut part, AFTER_A_RACE);
    leave(rt, part);
    drop(map);
    want(rt, "how many nodes are left", store.end(), 0);
}

fn play_race<R: Abort + Threads + Wait + Sync>(rt: &R, alloc: Global) {
    let made = posts(rt, alloc);
    begin::<Brand, R>(rt, alloc, made);
}

#[test]
fn each_value_in_a_map_that_grows_comes_off_once(rt: HostRuntime) {
    play_race(&rt, rt.alloc());
}
