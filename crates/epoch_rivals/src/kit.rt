//! What a user of the kit picks today: a lock around a value or a map, and the kit's queue.
use crate::draw::{Draw, SCATTER, key, percent};
use crate::side::{RoundPart, RoundPlan, Side, all_rounds};
use crate::small::{READS, Small, whole};
use crate::stopwatch::Nanos;
use crossbeam_queue::SegQueue;
use std::alloc::Global;
use std::collections::HashMap;
use std::io;
use std::sync::{RwLock, Wait};
use std::thread::Threads;
use std::time::Clock;

/// A small value in a lock.
#[derive(Drop)]
struct LockedValue {
    value: RwLock<Small>,
}

impl LockedValue {
    #[inline(never)]
    fn reads<R: Wait>(&self, rt: &R) -> u64 {
        let mut sum: u64 = 0;
        for _ in 0..READS {
            sum = sum.wrapping_add(self.value.read(rt).sum());
        }
        sum
    }

    fn replace<R: Wait>(&self, rt: &R, word: u64) {
        let mut value = self.value.write(rt);
        *value = Small::of(word);
    }
}

impl Side for LockedValue {
    type Own = ();

    fn join(&self) -> Option<()> {
        Some(())
    }

    fn turns<R: Clock + Wait>(&self, rt: &R, _own: &mut (), part: RoundPart) -> u64 {
        let mut done: u64 = 0;
        let mut sum: u64 = 0;
        for count in 0..part.turns / READS {
            sum = sum.wrapping_add(self.reads(rt));
            if part.thread == 0 {
                self.replace(rt, count);
            }
            done = done.wrapping_add(READS);
        }
        whole(sum, done)
    }

    fn leave<R: Wait>(&self, _rt: &R, _own: ()) {}
}

/// The kit's queue of numbers.
#[derive(Drop)]
struct Numbers {
    queue: SegQueue<u64>,
}

impl Side for Numbers {
    type Own = ();

    fn join(&self) -> Option<()> {
        Some(())
    }

    fn turns<R: Clock + Wait>(&self, rt: &R, _own: &mut (), part: RoundPart) -> u64 {
        let mut done: u64 = 0;
        for number in 0..part.turns {
            if self.queue.push(rt, number).is_ok() && self.queue.pop(rt).is_some() {
                done = done.wrapping_add(1);
            }
        }
        done
    }

    fn leave<R: Wait>(&self, _rt: &R, _own: ()) {}
}

/// A map in a lock, which has `KEYS` of the keys below `SPACE` at first.
#[derive(Drop)]
struct LockedMap<const KEYS: u64, const SPACE: u64, const SKEW: u64> {
    map: RwLock<HashMap<u64, u64>>,
}

impl<const KEYS: u64, const SPACE: u64, const SKEW: u64> LockedMap<KEYS, SPACE, SKEW> {
    /// Whether the map has this key with its value, or may lack it.
    #[inline(always)]
    fn get<R: Wait>(&self, rt: &R, key: u64) -> bool {
        let map = self.map.read(rt);
        match map.get(&key) {
            Some(value) => *value == key,
            None => SPACE > KEYS,
        }
    }

    #[inline(always)]
    fn insert<R: Wait>(&self, rt: &R, key: u64) -> bool {
        let mut map = self.map.write(rt);
        map.insert(key, key).is_ok()
    }

    #[inline(always)]
    fn remove<R: Wait>(&self, rt: &R, key: u64) {
        let mut map = self.map.write(rt);
        let _ = map.remove(&key);
    }

    fn fill<R: Wait>(&self, rt: &R) -> bool {
        let mut filled = true;
        for index in 0..KEYS {
            filled = self.insert(rt, index.wrapping_mul(SCATTER) % SPACE.max(1)) && filled;
        }
        filled
    }

    #[inline(always)]
    fn turn<R: Wait>(&self, rt: &R, number: u64) -> bool {
        let key = key::<SPACE, SKEW>(number);
        let call = if SPACE > KEYS { percent(number) } else { 0 };
        if call < 90 {
            return self.get(rt, key);
        }
        if call < 95 {
            return self.insert(rt, key);
        }
        self.remove(rt, key);
        true
    }
}

impl<const KEYS: u64, const SPACE: u64, const SKEW: u64> Side for LockedMap<KEYS, SPACE, SKEW> {
    type Own = ();

    fn join(&self) -> Option<()> {
        Some(())
    }

    fn turns<R: Clock + Wait>(&self, rt: &R, _own: &mut (), part: RoundPart) -> u64 {
        let mut draw = Draw::of(part.thread, part.round);
        let mut done: u64 = 0;
        for _ in 0..part.turns {
            if self.turn(rt, draw.number()) {
                done = done.wrapping_add(1);
            }
        }
        done
    }

    fn leave<R: Wait>(&self, _rt: &R, _own: ()) {}
}

pub fn read_rounds<R: Clock + Threads + Wait + Sync>(
    rt: &R,
    plan: RoundPlan,
    times: &mut [Nanos],
) -> u64 {
    let side = LockedValue {
        value: RwLock::new(Small::of(1)),
    };
    all_rounds(rt, plan, &side, times)
}

pub fn queue_rounds<R: Clock + Threads + Wait + Sync>(
    rt: &R,
    alloc: Global,
    plan: RoundPlan,
    times: &mut [Nanos],
) -> io::Result<u64> {
    let side = Numbers {
        queue: SegQueue::new(alloc)?,
    };
    Ok(all_rounds(rt, plan, &side, times))
}

pub fn map_rounds<
    const KEYS: u64,
    const SPACE: u64,
    const SKEW: u64,
    R: Clock + Threads + Wait + Sync,
>(rt: &R, alloc: Global, plan: RoundPlan, times: &mut [Nanos]) -> io::Result<u64> {
    let side = LockedMap::<KEYS, SPACE, SKEW> {
        map: RwLock::new(HashMap::new(alloc)),
    };
    if !side.fill(rt) {
        return Err(io::Error::from(io::ErrorKind::OutOfMemory));
    }
    Ok(all_rounds(rt, plan, &side, times))
}
