//! Calls on one thread: what they answer, and random ones beside a map of std that is given the same.
use crate::growing::calls::{Call, Label, Map, Node, answer, is_odd};
use crate::lending::{
    AFTER_A_RACE, Part, Scene, Told, join, leave, next_number, pin, play, rounds,
};
use crate::shown::want_shown;
use crate::wants::want;
use epoch_cells::Fault;
use epoch_lend::readers::posts::PostSet;
use epoch_lend_pointers::Store;
use epoch_map::{GrowingMap, MapNode};
use std::alloc::Global;
use std::collections::BTreeMap;
use std::process::Abort;

/// How many calls are made, and with how many keys. Three groups of keys have 30 keys each, and their numbers have the
/// same 20 lowest bits.
const CALLS: u32 = 20_000;

const KEYS: u32 = 2_400;

const IN_GROUPS: u32 = 90;

/// How many cells there are: more than keys, so that none is full while nodes wait to be dropped.
const CELLS: u16 = 4_000;

/// How many buckets there are at first.
const FIRST: usize = 64;

/// One call, which the number chooses.
fn call_of(number: u32) -> Call {
    let key = u64::from((number >> 8) % KEYS);
    let group = if key < u64::from(IN_GROUPS) {
        (key % 3).wrapping_shl(20)
    } else {
        key
    };
    let key = Label { place: key, group };
    match (number >> 24) % 8 {
        0 => Call::Insert(key, u64::from(number)),
        1 => Call::Make(key, u64::from(number)),
        2 => Call::Put(key, u64::from(number)),
        3 => Call::ReplaceOdd(key, u64::from(number)),
        4 => Call::Remove(key),
        5 => Call::RemoveOdd(key),
        _ => Call::Get(key),
    }
}

/// The call on the map of std, and what was there before.
fn call_model(rt: &impl Abort, model: &mut BTreeMap<Label, u64>, call: Call) -> Told {
    match call {
        Call::Insert(key, value) | Call::Put(key, value) | Call::Make(key, value) => {
            let there = model.get(&key).copied();
            if there.is_none() || matches!(call, Call::Put(..)) {
                want(rt, "memory", model.insert(key, value).is_ok(), true);
            }
            match call {
                Call::Make(..) => Ok(there.or(Some(value))),
                _ => Ok(there),
            }
        }
        Call::ReplaceOdd(key, value) => {
            let odd = model.get(&key).copied().filter(|old| *old % 2 == 1);
            if odd.is_some() {
                want(rt, "memory", model.insert(key, value).is_ok(), true);
            }
            Ok(odd)
        }
        Call::Remove(key) => Ok(model.remove(&key)),
        Call::RemoveOdd(key) => match model.get(&key) {
            Some(value) if value % 2 == 1 => Ok(model.remove(&key)),
            _ => Ok(None),
        },
        Call::Get(key) => Ok(model.get(&key).copied()),
    }
}

/// Both have the same entries.
fn want_same<'s, J: PostSet>(
    rt: &impl Abort,
    alloc: Global,
    map: &Map<'_, 's, J>,
    part: &mut Part<'_, 's, J, Node>,
    model: &BTreeMap<Label, u64>,
) {
    let guard = pin(rt, &mut part.session);
    let mut seen = BTreeMap::new(alloc);
    for node in map.iter(&guard) {
        let before = seen.insert(*node.key(), *node.value());
        want(rt, "an entry comes once", matches!(before, Ok(None)), true);
    }
    for (key, value) in model.iter() {
        want(rt, "an entry", seen.get(key), Some(value));
        want(rt, "a key is there", map.contains(&guard, key), true);
    }
    want(
        rt,
        "a key is missing",
        map.contains(&guard, &MISSING),
        false,
    );
    want(rt, "no more entries", seen.len(), model.len());
    want(rt, "how many", map.len(), model.len());
    part.session.unpin(guard);
}

/// Makes all random calls, and compares the entries after each few. There are twice as many buckets as soon as there
/// are more than four entries for three of them. Then all is removed.
fn compare<'s, J: PostSet>(
    rt: &impl Abort,
    alloc: Global,
    map: &Map<'_, 's, J>,
    part: &mut Part<'_, 's, J, Node>,
) {
    let mut model = BTreeMap::new(alloc);
    let (mut number, mut buckets) = (7_u32, FIRST);
    for calls in 0..CALLS {
        number = next_number(number);
        let wanted = call_model(rt, &mut model, call_of(number));
        let seen = answer(rt, map, part, call_of(number));
        want(rt, "a call on a growing map", seen, wanted);
        if model.len() > buckets.wrapping_add(buckets / 3) {
            buckets = buckets.wrapping_mul(2);
        }
        want(rt, "how many buckets there are", map.buckets(), buckets);
        if calls % 400 == 0 {
            want_same(rt, alloc, map, part, &model);
        }
    }
    want(rt, "five doublings", buckets >= FIRST << 5, true);
    let guard = pin(rt, &mut part.session);
    let kept = map.retain(&mut part.writer, &guard, is_odd);
    want(rt, "some entries are kept", kept, Ok(()));
    part.session.unpin(guard);
    model.retain(|_key, value| *value % 2 == 1);
    want_same(rt, alloc, map, part, &model);
    let guard = pin(rt, &mut part.session);
    let cleared = map.clear(&mut part.writer, &guard);
    want(rt, "a map is cleared", cleared, Ok(()));
    part.session.unpin(guard);
    want_same(rt, alloc, map, part, &BTreeMap::new(alloc));
}

const NONE: Told = Ok(None);

const FULL: Told = Err(Fault::CellsFull);

// It is never inserted, but belongs to a group that is.
const MISSING: Label = Label {
    place: KEYS as u64,
    group: 0,
};

const ONE: Label = Label { place: 1, group: 1 };

const TWO: Label = Label { place: 2, group: 1 };

const THREE: Label = Label { place: 3, group: 2 };

// Calls on a map of two cells. A node that was replaced or removed is dropped by the next call.
const ROWS: &[(Call, Told)] = &[
    (Call::Get(ONE), NONE),
    (Call::Remove(ONE), NONE),
    (Call::Insert(ONE, 10), NONE),
    (Call::Insert(ONE, 11), Ok(Some(10))),
    (Call::Put(ONE, 12), Ok(Some(10))),
    (Call::Get(ONE), Ok(Some(12))),
    (Call::Make(ONE, 14), Ok(Some(12))),
    (Call::ReplaceOdd(ONE, 14), NONE),
    (Call::ReplaceOdd(TWO, 20), NONE),
    (Call::Get(TWO), NONE),
    (Call::Make(TWO, 21), Ok(Some(21))),
    (Call::Insert(THREE, 30), FULL),
    (Call::Make(THREE, 30), FULL),
    (Call::Put(ONE, 13), FULL),
    (Call::ReplaceOdd(TWO, 22), FULL),
    (Call::Get(ONE), Ok(Some(12))),
    (Call::Remove(ONE), Ok(Some(12))),
    (Call::Get(ONE), NONE),
    (Call::Insert(THREE, 31), NONE),
    (Call::Remove(TWO), Ok(Some(21))),
    (Call::Remove(TWO), NONE),
    (Call::ReplaceOdd(THREE, 32), Ok(Some(31))),
    (Call::Remove(THREE), Ok(Some(32))),
];

// Calls with a writer of another store of the same domain.
const OF_STRANGERS: &[Call] = &[
    Call::Insert(ONE, 10),
    Call::Put(ONE, 10),
    Call::Make(ONE, 10),
    Call::ReplaceOdd(ONE, 10),
    Call::Remove(ONE),
    Call::RemoveOdd(ONE),
];

/// What is done on one thread with growing maps.
#[derive(Drop)]
struct GrowingScene;

impl Scene for GrowingScene {
    type Node = Node;

    fn act<'s, R: Abort, J: PostSet>(
        self,
        rt: &R,
        alloc: Global,
        store: &Store<'s, J, Node>,
        others: &Store<'s, J, Node>,
    ) {
        let map = GrowingMap::new(alloc, store).expect(rt, "memory for a map");
        let small = GrowingMap::new(alloc, others).expect(rt, "memory for a map");
        let mut part = join(rt, alloc, others);
        for call in OF_STRANGERS {
            let seen = answer(rt, &map, &mut part, *call);
            want(rt, "a stranger", seen, Err(Fault::StrangerGuard));
        }
        for (call, wanted) in ROWS {
            let seen = answer(rt, &small, &mut part, *call);
            want(rt, "a call on two cells", seen, *wanted);
            rounds(rt, &mut part, 5);
        }
        leave(rt, part);
        let mut part = join(rt, alloc, store);
        compare(rt, alloc, &map, &mut part);
        rounds(rt, &mut part, AFTER_A_RACE);
        leave(rt, part);
        want_shown(rt, alloc, &map, "GrowingMap { store: 0, .. }");
    }
}

#[test]
fn a_growing_map_answers_as_that_of_std_while_it_doubles_five_times(rt: HostRuntime) {
    play(&rt, rt.alloc(), (CELLS, 0), GrowingScene);
}
