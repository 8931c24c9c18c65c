//! Random calls on one thread, beside a map of std that is given the same ones.
use crate::lending::{Part, next_number, rounds};
use crate::map::calls::{Call, Map, Node, want_rows};
use crate::map::scenes::{Deed, play_map};
use crate::wants::want;
use epoch_lend::readers::posts::PostSet;
use std::alloc::Global;
use std::collections::BTreeMap;
use std::process::Abort;

/// How many calls are made.
const CALLS: u32 = 10_000;

/// How many keys there are.
const KEYS: u32 = 48;

/// More moves than any call here takes.
const MOVES: u32 = 100;

/// The key of this number: it has the number in its lower and in its upper 32 bits.
fn key_of(number: u32) -> u64 {
    number as u64 * 0x1_0000_0001
}

/// One call, which the upper bits of the number choose.
fn call_of(number: u32) -> Call {
    let key = key_of((number >> 8) % KEYS);
    match (number >> 24) % 4 {
        0 | 1 => Call::Insert(key, number as u64),
        2 => Call::Remove(key),
        _ => Call::Get(key),
    }
}

/// The call on the map of std, and what was there before. An insert keeps the value that is there.
fn call_model(rt: &impl Abort, model: &mut BTreeMap<u64, u64>, call: Call) -> Option<u64> {
    match call {
        Call::Insert(key, value) => {
            let there = model.get(&key).copied();
            if there.is_none() {
                want(rt, "memory", model.insert(key, value).is_ok(), true);
            }
            there
        }
        Call::Remove(key) => model.remove(&key),
        Call::Get(key) | Call::GetHelping(key) => model.get(&key).copied(),
    }
}

/// The call answers as that on the map of std.
fn call_both<'s, J: PostSet>(
    rt: &impl Abort,
    map: &Map<'_, 's, J>,
    part: &mut Part<'_, 's, J, Node>,
    model: &mut BTreeMap<u64, u64>,
    call: Call,
) {
    let there = call_model(rt, model, call);
    want_rows(rt, map, part, &[(call, MOVES, Ok(there))]);
}

/// Makes all calls, and then removes what is left. A flush after each few calls has nodes dropped, so that cells are
/// used again and again.
pub(crate) fn compare<'s, J: PostSet>(
    rt: &impl Abort,
    alloc: Global,
    map: &Map<'_, 's, J>,
    part: &mut Part<'_, 's, J, Node>,
) {
    let mut model = BTreeMap::new(alloc);
    let mut number = 0;
    for calls in 0..CALLS {
        number = next_number(number);
        call_both(rt, map, part, &mut model, call_of(number));
        if calls % 16 == 0 {
            rounds(rt, part, 1);
        }
    }
    for number in 0..KEYS {
        let call = Call::Remove(key_of(number));
        call_both(rt, map, part, &mut model, call);
    }
}

#[test]
fn random_calls_on_one_bucket_answer_as_a_map_of_std(rt: HostRuntime) {
    play_map(&rt, rt.alloc(), Deed::Random, (0, 128, 0))
}

#[test]
fn random_calls_on_eight_buckets_answer_as_a_map_of_std(rt: HostRuntime) {
    play_map(&rt, rt.alloc(), Deed::Random, (3, 128, 0))
}
