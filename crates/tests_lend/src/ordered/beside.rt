//! Random calls on one thread, beside a map of std that is given the same ones.
use crate::ordered::calls::{Call, Map, Node, Part, answer, is_odd, join, leave};
use crate::sessions::pin;
use crate::wants::want;
use epoch_lend_pointers::{PostSet, Store};
use epoch_ordered_map::OrderedNode;
use std::alloc::Global;
use std::collections::BTreeMap;
use std::process::Abort;

/// How many calls are made, and with how many keys. The order is looked at from the middle one on, too.
const CALLS: u32 = 20_000;

const KEYS: u32 = 96;

const MIDDLE: u64 = 40;

/// One call, which the number chooses. It is the next one of a generator modulo 2 to the power of 32.
fn call_of(number: u32) -> Call {
    let key = u64::from((number >> 8) % KEYS);
    match (number >> 24) % 16 {
        0 | 1 => Call::Insert(key, u64::from(number)),
        2 | 3 => Call::Make(key, u64::from(number)),
        4 | 5 => Call::Put(key, u64::from(number)),
        6 | 7 => Call::ReplaceOdd(key, u64::from(number)),
        8 | 9 => Call::Remove(key),
        10 => Call::PopFirst,
        11 => Call::RemoveOdd(key),
        _ => Call::Get(key),
    }
}

/// The lowest key of the map of std, from this one on.
fn lowest(model: &BTreeMap<u64, u64>, from: u64) -> Option<u64> {
    model.iter().map(|pair| *pair.0).find(|key| *key >= from)
}

/// The call on the map of std, and what was there before.
fn call_model(rt: &impl Abort, model: &mut BTreeMap<u64, u64>, call: Call) -> Option<u64> {
    match call {
        Call::Insert(key, value) | Call::Put(key, value) | Call::Make(key, value) => {
            let there = model.get(&key).copied();
            if there.is_none() || matches!(call, Call::Put(..)) {
                want(rt, "memory", model.insert(key, value).is_ok(), true);
            }
            match call {
                Call::Make(..) => there.or(Some(value)),
                _ => there,
            }
        }
        Call::ReplaceOdd(key, value) => {
            let odd = model.get(&key).copied().filter(|old| *old % 2 == 1);
            if odd.is_some() {
                want(rt, "memory", model.insert(key, value).is_ok(), true);
            }
            odd
        }
        Call::Remove(key) => model.remove(&key),
        Call::RemoveOdd(key) => match model.get(&key) {
            Some(value) if value % 2 == 1 => model.remove(&key),
            _ => None,
        },
        Call::Get(key) => model.get(&key).copied(),
        Call::PopFirst => {
            let key = lowest(model, 0)?;
            model.remove(&key)
        }
    }
}

/// Both have the same entries, in the same order: from the first one on and from the middle one on.
fn want_same<'s, J: PostSet>(
    rt: &impl Abort,
    map: &Map<'_, 's, J>,
    part: &mut Part<'_, 's, J>,
    model: &BTreeMap<u64, u64>,
) {
    let guard = pin(rt, &mut part.session);
    let mut nodes = map.iter(&guard);
    let mut greatest = None;
    for (key, value) in model.iter() {
        let seen = nodes.next().map(|node| (*node.key(), *node.value()));
        want(rt, "an entry in its order", seen, Some((*key, *value)));
        greatest = Some(*key);
    }
    want(rt, "no more entries", nodes.next().is_none(), true);
    let last = map.last(&guard).map(|node| *node.key());
    want(rt, "the last key", last, greatest);
    let from = map.range_from(&guard, &MIDDLE).next();
    let from = from.map(|node| *node.key());
    want(rt, "the middle key", from, lowest(model, MIDDLE));
    let there = map.contains(&guard, &MIDDLE);
    want(rt, "whether it is there", there, from == Some(MIDDLE));
    want(rt, "how many", map.len(), model.len());
    part.session.unpin(guard);
}

/// Makes all calls, compares the order after each few, and then removes what is left at once.
pub(crate) fn compare<'s, J: PostSet>(
    rt: &impl Abort,
    alloc: Global,
    store: &Store<'s, J, Node>,
    map: &Map<'_, 's, J>,
) {
    let mut part = join(rt, alloc, store);
    let mut model = BTreeMap::new(alloc);
    let mut number = 7_u32;
    for calls in 0..CALLS {
        number = number.wrapping_mul(1_664_525).wrapping_add(1_013_904_223);
        let wanted = call_model(rt, &mut model, call_of(number));
        let seen = answer(rt, map, &mut part, call_of(number));
        want(rt, "a call on an ordered map", seen, Ok(wanted));
        if calls % 16 == 0 {
            want_same(rt, map, &mut part, &model);
        }
    }
    let guard = pin(rt, &mut part.session);
    let kept = map.retain(&mut part.writer, &guard, is_odd);
    want(rt, "some entries are kept", kept, Ok(()));
    part.session.unpin(guard);
    model.retain(|_key, value| *value % 2 == 1);
    want_same(rt, map, &mut part, &model);
    let guard = pin(rt, &mut part.session);
    let cleared = map.clear(&mut part.writer, &guard);
    want(rt, "a map is cleared", cleared, Ok(()));
    want(rt, "nothing is left", map.first(&guard).is_none(), true);
    part.session.unpin(guard);
    leave(rt, part, 5);
}
