//! The calls of each structure, those too that the service has no use for, and what each of them says.
use epoch_shared::{
    Crew, Fault, Hashed, MapCrew, SharedChannel, SharedMap, SharedSizes, SharedStack, SharedValue,
    StackCrew, ValueCrew, share, share_cache, share_map, share_stack, share_value,
};
use std::alloc::Global;
use std::hash::RandomState;
use std::process::Abort;
use std::sync::atomic::AtomicU64;
use std::sync::atomic::Ordering::SeqCst;

/// What a crew found: one bit for each thing that was as it should be.
#[derive(Default, Drop)]
struct Found(AtomicU64);

impl Found {
    fn note(&self, bit: u32, is_right: bool) {
        self.0.fetch_add((is_right as u64) << (bit % 64), SeqCst);
    }
}

fn want<R: Abort>(rt: &R, what: &str, found: &Found, wanted: u64) {
    assert_eq!(rt; found.0.load(SeqCst), wanted, "{what}");
}

fn want_threads<R: Abort>(rt: &R, done: Result<usize, Fault>, wanted: usize) {
    assert_eq!(rt; done, Ok(wanted), "all threads take part");
}

// Adds one, also while a thread that stands still in a call keeps cells in use.
fn add_one(value: &mut impl SharedValue<u64>) {
    for _ in 0..1_000u64 {
        if value.update(|seen| seen.checked_add(1)) == Ok(true) {
            return;
        }
    }
}

/// One value: no thread replaces it, and four add to it.
#[derive(Default, Drop)]
struct OneValue(Found);

impl ValueCrew<u64> for OneValue {
    fn before(&self, value: &mut impl SharedValue<u64>) {
        self.0.note(0, value.read(|seen| *seen).is_none());
        self.0
            .note(1, value.update(|seen| Some(*seen)) == Ok(false));
        self.0.note(2, value.replace(6).is_ok());
        self.0
            .note(3, value.update(|seen| seen.checked_add(1)) == Ok(true));
        self.0.note(4, value.update(|_seen| None) == Ok(false));
        let bounded = value.update_within(1, |seen| seen.checked_add(1));
        self.0.note(5, bounded == Ok(true));
        self.0.note(6, value.read(|seen| *seen) == Some(8));
    }

    fn thread(&self, _number: usize, value: &mut impl SharedValue<u64>) {
        for _ in 0..100u64 {
            add_one(value);
        }
    }

    fn after(&self, value: &mut impl SharedValue<u64>) {
        self.0.note(7, value.read(|seen| *seen) == Some(408));
    }
}

/// A stack, alone: two threads push a hundred numbers each, and pop as many.
#[derive(Default, Drop)]
struct OneStack {
    found: Found,
    popped: AtomicU64,
}

impl OneStack {
    // Pushes until each cell is in use, and pops one.
    fn fill(&self, stack: &mut impl SharedStack<u64>) {
        for number in 0..1_000u64 {
            if let Err(refused) = stack.push(number) {
                let is_back = refused.fault == Fault::CellsFull && refused.value == number;
                self.found.note(5, is_back);
                let bounded = stack.push_within(number, 1).map_err(|back| back.fault);
                self.found.note(6, bounded == Err(Fault::CellsFull));
                self.found.note(7, stack.pop() == Ok(number.checked_sub(1)));
                return;
            }
        }
    }
}

impl StackCrew<u64> for OneStack {
    fn before(&self, stack: &mut impl SharedStack<u64>) {
        self.found.note(0, stack.pop() == Ok(None));
        self.found.note(1, stack.push(1).is_ok());
        self.found.note(2, stack.push(2).is_ok());
        self.found.note(3, stack.pop() == Ok(Some(2)));
        self.found.note(4, stack.pop() == Ok(Some(1)));
        self.found.note(8, stack.push_within(3, 1).is_ok());
        self.found.note(9, stack.pop_within(1) == Ok(Some(3)));
    }

    fn thread(&self, _number: usize, stack: &mut impl SharedStack<u64>) {
        for number in 0..100u64 {
            let _ = stack.push(number);
        }
        for _ in 0..100u64 {
            if let Ok(Some(number)) = stack.pop() {
                self.popped.fetch_add(number, SeqCst);
            }
        }
    }

    fn after(&self, stack: &mut impl SharedStack<u64>) {
        self.fill(stack);
    }
}

type Text = Hashed<String>;

// The sum of the values.
fn sum_of(map: &mut impl SharedMap<Text, u64>) -> u64 {
    let mut sum = 0u64;
    map.for_each(|_key, value| sum = sum.wrapping_add(*value));
    sum
}

/// A map of texts with random hashes, alone: each thread puts a hundred entries, and removes half of them.
#[derive(Drop)]
struct Texts {
    alloc: Global,
    state: RandomState,
    found: Found,
}

impl Texts {
    // Puts the number. `Some(true)`: it replaced another one.
    fn put(&self, map: &mut impl SharedMap<Text, u64>, key: u64, number: u64) -> Option<bool> {
        match format!(in self.alloc; "key {key}") {
            Ok(key) => map.put(Hashed::with_hasher(key, &self.state), number).ok(),
            Err(_) => None,
        }
    }

    fn remove(&self, map: &mut impl SharedMap<Text, u64>, key: u64) {
        if let Ok(key) = format!(in self.alloc; "key {key}") {
            let _ = map.remove(&Hashed::with_hasher(key.as_str(), &self.state));
        }
    }
}

impl MapCrew<Text, u64> for Texts {
    fn before(&self, map: &mut impl SharedMap<Text, u64>) {
        let key = Hashed::with_hasher("key 1", &self.state);
        self.found.note(0, self.put(map, 1, 10) == Some(false));
        self.found.note(1, self.put(map, 1, 11) == Some(true));
        self.found.note(2, self.put(map, 2, 20) == Some(false));
        self.found
            .note(3, map.get(&key, |value| *value) == Some(11));
        self.found.note(4, map.contains(&key));
        self.found.note(5, sum_of(map) == 31);
        let retained = map.retain(|_key, value| *value == 20);
        self.found.note(6, retained.is_ok() && sum_of(map) == 20);
        self.found.note(7, map.remove(&key) == Ok(false));
        self.found.note(8, map.clear().is_ok() && map.is_empty());
        self.found.note(10, *key.key() == "key 1");
    }

    fn thread(&self, number: usize, map: &mut impl SharedMap<Text, u64>) {
        let first = (number as u64).wrapping_mul(100);
        for step in 0..100u64 {
            let _ = self.put(map, first.wrapping_add(step), step);
        }
        for step in 0..50u64 {
            self.remove(map, first.wrapping_add(step));
        }
    }

    fn after(&self, map: &mut impl SharedMap<Text, u64>) {
        self.found
            .note(9, map.len() == 200 && sum_of(map) == 14_900);
    }
}

/// A cache of fifty numbers, alone: each thread puts a thousand.
#[derive(Default, Drop)]
struct OneCache(Found);

// How many entries are shown.
fn count_of(map: &mut impl SharedMap<u64, u64>) -> usize {
    let mut count = 0usize;
    map.for_each(|_key, _value| count = count.wrapping_add(1));
    count
}

impl MapCrew<u64, u64> for OneCache {
    fn before(&self, map: &mut impl SharedMap<u64, u64>) {
        for key in 0..50u64 {
            let _ = map.insert(key, key);
        }
        self.0.note(0, count_of(map) == 50);
        self.0.note(1, map.insert(50, 50).unwrap_or(false));
        self.0.note(2, map.contains(&50) && count_of(map) == 50);
        let made = map.get_or_insert_with(51, || Some(51), |value| *value);
        self.0
            .note(3, made.ok() == Some(Some(51)) && map.len() == 50);
    }

    fn thread(&self, number: usize, map: &mut impl SharedMap<u64, u64>) {
        let first = (number as u64).wrapping_mul(1_000);
        for step in 0..1_000u64 {
            let key = first.wrapping_add(step);
            let _ = map.put(key, key);
        }
    }

    fn after(&self, map: &mut impl SharedMap<u64, u64>) {
        let there = count_of(map);
        self.0
            .note(4, 0 < there && there <= 50 && map.len() == there);
    }
}

/// A map and a channel, alone.
#[derive(Default, Drop)]
struct Alone {
    entries: Found,
    sent: Found,
}

impl Alone {
    fn insert(&self, map: &mut impl SharedMap<u64, u64>) {
        self.entries.note(0, map.is_empty());
        self.entries.note(1, map.get(&1, |value| *value).is_none());
        self.entries.note(2, map.insert(1, 10).unwrap_or(false));
        self.entries.note(3, map.len() == 1);
        self.entries.note(4, !map.insert(1, 11).unwrap_or(true));
        self.entries
            .note(5, map.get(&1, |value| *value) == Some(10));
        self.entries.note(6, map.contains(&1));
    }

    fn remove(&self, map: &mut impl SharedMap<u64, u64>) {
        let made = map.get_or_insert_with(2, || Some(20), |value| *value);
        self.entries.note(7, made.ok() == Some(Some(20)));
        let found = map.get_or_insert_with(2, || Some(21), |value| *value);
        self.entries.note(8, found.ok() == Some(Some(20)));
        self.entries.note(9, map.remove(&1) == Ok(true));
        self.entries.note(10, map.remove(&1) == Ok(false));
        self.entries.note(11, map.len() == 1);
    }

    fn send(&self, channel: &mut impl SharedChannel<u64>) {
        self.sent.note(0, channel.try_receive() == Ok(None));
        self.sent.note(1, channel.send(1).is_ok());
        self.sent.note(2, channel.send(2).is_ok());
        self.sent.note(3, channel.try_receive() == Ok(Some(1)));
        self.sent.note(4, channel.try_receive() == Ok(Some(2)));
        self.sent.note(5, channel.send_within(3, 2).is_ok());
        self.sent
            .note(6, channel.try_receive_within(1) == Ok(Some(3)));
    }
}

impl Crew<(), u64, u64, u64> for Alone {
    fn before(
        &self,
        _value: &mut impl SharedValue<()>,
        map: &mut impl SharedMap<u64, u64>,
        channel: &mut impl SharedChannel<u64>,
    ) {
        self.insert(map);
        self.remove(map);
        self.send(channel);
    }

    fn thread(
        &self,
        _number: usize,
        _value: &mut impl SharedValue<()>,
        _map: &mut impl SharedMap<u64, u64>,
        _channel: &mut impl SharedChannel<u64>,
    ) {}
}

#[test]
fn four_threads_add_to_one_value(rt: HostRuntime) {
    let crew = OneValue::default();
    want_threads(&rt, share_value(&rt, rt.alloc(), 4, &crew), 4);
    want(&rt, "a value", &crew.0, 255);
}

#[test]
fn no_thread_takes_part_where_none_is_asked_for(rt: HostRuntime) {
    let crew = OneValue::default();
    want_threads(&rt, share_value(&rt, rt.alloc(), 0, &crew), 0);
    want(&rt, "a value", &crew.0, 127);
}

#[test]
fn a_stack_gives_what_went_in_last_and_hands_back_what_finds_no_cell(rt: HostRuntime) {
    let crew = OneStack::default();
    want_threads(&rt, share_stack(&rt, rt.alloc(), 2, 200, &crew), 2);
    want(&rt, "a stack", &crew.found, 1_023);
    assert_eq!(rt; crew.popped.load(SeqCst), 9_900);
}

#[test]
fn a_map_of_texts_is_asked_by_texts_that_own_nothing(rt: HostRuntime) {
    let Ok(state) = RandomState::new(&rt) else {
        panic!(rt; "no random numbers");
    };
    let crew = Texts {
        alloc: rt.alloc(),
        state,
        found: Found::default(),
    };
    want_threads(&rt, share_map(&rt, rt.alloc(), 4, &crew), 4);
    want(&rt, "a map of texts", &crew.found, 2_047);
}

#[test]
fn a_cache_never_has_more_entries_than_its_capacity(rt: HostRuntime) {
    let crew = OneCache::default();
    want_threads(&rt, share_cache(&rt, rt.alloc(), 4, 50, &crew), 4);
    want(&rt, "a cache", &crew.0, 31);
}

#[test]
fn a_map_and_a_channel_say_what_was_there(rt: HostRuntime) {
    let crew = Alone::default();
    let sizes = SharedSizes {
        threads: 1,
        capacity: None,
        messages: 8,
    };
    want_threads(&rt, share(&rt, rt.alloc(), sizes, &crew), 1);
    want(&rt, "a map", &crew.entries, 4_095);
    want(&rt, "a channel", &crew.sent, 127);
}
