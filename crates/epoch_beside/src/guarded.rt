//! Work under a guard that is out.
ghost use Rattle.std.specs.Prelude.{◌≡◌, ℕ};
ghost use Rattle.epoch.specs.Handles.{IsSame, Owns};

use crate::counted::FIRST;
use epoch::atomic::{Atomic, DeferDestroy, ExchangeFault, Owned, Shared};
use epoch::removals::make_room;
use epoch::{Guard, Job, LocalHandle, Work as Function};
use std::alloc::Global;
use std::sync::atomic::Ordering::SeqCst;

/// Tries of one exchange. Those of crossbeam-epoch's side have no end.
const TRIES: u32 = 1_000_000;

/// Pins and unpins this many times. Its loop isn't compiled into its caller, where it would depend on the other rows.
#[inline(never)]
pub fn pin_under(handle: &mut LocalHandle<'_, u64>, turns: u64)
    requires { handle.old.machine.guards ≡ 1 }
    ensures same { IsSame handle.old handle.new }
    ensures counted { handle.new.machine.guards ≡ 1 }
{
    for _ in 0..turns {
        let guard = handle.pin();
        handle.unpin(guard);
    }
}

/// Pins, with room in the held bag for one more removal. Where no place is free for a full bag, it unpins, so that
/// other threads' bags can expire, and tries again.
#[inline(always)]
pub fn pin_with_room<'c>(handle: &mut LocalHandle<'c, u64>) -> Guard<'c, u64>
    requires { handle.old.machine.guards ≡ 0 }
    ensures own { Owns handle.new result }
    ensures counted { handle.new.machine.guards ≡ 1 }
{
    for _ in 0..TRIES {
        let guard = handle.pin();
        if make_room(handle, &guard).is_ok() {
            return guard;
        }
        handle.unpin(guard);
    }
    handle.pin()
}

/// Repins the guard this many times.
pub fn repin_again<'c>(handle: &mut LocalHandle<'c, u64>, guard: &mut Guard<'c, u64>, turns: u64)
    requires { Owns handle.old guard.old }
    ensures same { IsSame handle.old handle.new }
    ensures guard { guard.new ≡ guard.old }
    ensures counted { handle.new.machine.guards ≡ handle.old.machine.guards }
{
    for _ in 0..turns {
        handle.repin(guard);
    }
}

/// Flushes this many times, and returns how many flushes were accepted.
pub fn flush_again(handle: &mut LocalHandle<'_, u64>, guard: &Guard<'_, u64>, turns: u64) -> u64
    ensures same { IsSame handle.old handle.new }
    ensures counted { handle.new.machine.guards ≡ handle.old.machine.guards }
{
    let mut done: u64 = 0;
    for _ in 0..turns {
        if handle.flush(guard).is_ok() {
            done = done.wrapping_add(1);
        }
    }
    done
}

/// Defers the last function. Returns 1 if it was deferred.
#[inline(always)]
fn defer_last(
    handle: &mut LocalHandle<'_, u64>,
    guard: &Guard<'_, u64>,
    functions: &mut Vec<Function>,
) -> u64
    requires { Owns handle.old guard.now }
    ensures same { IsSame handle.old handle.new }
    ensures counted { handle.new.machine.guards ≡ handle.old.machine.guards }
{
    match functions.pop() {
        Some(function) => u64::from(handle.defer(guard, Job::Call(function)).is_ok()),
        None => 0,
    }
}

/// Defers this many functions, the last ones first. Returns how many were deferred.
pub fn defer_calls(
    handle: &mut LocalHandle<'_, u64>,
    guard: &Guard<'_, u64>,
    functions: &mut Vec<Function>,
    count: u64,
) -> u64
    requires { Owns handle.old guard.now }
    ensures same { IsSame handle.old handle.new }
    ensures counted { handle.new.machine.guards ≡ handle.old.machine.guards }
{
    let mut done: u64 = 0;
    for _ in 0..count {
        done = done.wrapping_add(defer_last(handle, guard, functions));
    }
    done
}

/// Loads of a pointer whose tag is 0.
pub fn load(guard: &Guard<'_, u64>, pointer: &Atomic<u64>, turns: u64) -> u64 {
    let mut sum: u64 = 0;
    for _ in 0..turns {
        sum = sum.wrapping_add(pointer.load(SeqCst, guard).tag() as u64);
    }
    turns.saturating_sub(sum)
}

/// Loads of a pointer, each of whose values, the first one, is read.
pub fn read(guard: &Guard<'_, u64>, pointer: &Atomic<u64>, turns: u64) -> u64 {
    let mut sum: u64 = 0;
    for _ in 0..turns {
        if let Some(reading) = pointer.load(SeqCst, guard).deref() {
            sum = sum.wrapping_add(*reading.get());
            reading.leave();
        }
    }
    sum / FIRST
}

/// Exchanges a pointer by one with another tag, and returns that. `None`: it was lost.
#[inline(always)]
fn exchange_once<'g>(
    guard: &'g Guard<'_, u64>,
    pointer: &Atomic<u64>,
    current: Shared<'g, u64>,
    tag: usize,
) -> Option<Shared<'g, u64>> {
    let new = current.with_tag(tag);
    match pointer.compare_exchange(current, new, SeqCst, SeqCst, guard) {
        Ok(_) => Some(new),
        Err(_) => None,
    }
}

/// Exchanges of a pointer by one with the next tag.
pub fn exchange(guard: &Guard<'_, u64>, pointer: &Atomic<u64>, turns: u64) -> u64 {
    let mut won: u64 = 0;
    let mut current = pointer.load(SeqCst, guard);
    for turn in 0..turns {
        if let Some(new) = exchange_once(guard, pointer, current, (turn % 2) as usize) {
            current = new;
            won = won.wrapping_add(1);
        }
    }
    won
}

/// Values that are placed in a cell, put behind a new pointer, taken back, and dropped.
pub fn place(guard: &Guard<'_, u64>, alloc: Global, turns: u64) -> u64 {
    let mut sum: u64 = 0;
    for _ in 0..turns {
        let Ok(pointer) = Atomic::new(alloc, 1, guard) else {
            continue;
        };
        if let Some(owned) = pointer.into_owned(guard) {
            sum = sum.wrapping_add(*owned);
        }
    }
    sum
}

/// Puts objects behind the pointer, one after the other, and defers the destruction of those before. Returns how
/// many destructions were deferred.
pub fn replace(
    handle: &mut LocalHandle<'_, u64>,
    guard: &Guard<'_, u64>,
    alloc: Global,
    pointer: &Atomic<u64>,
    objects: u64,
) -> u64
    requires { Owns handle.old guard.now }
    ensures same { IsSame handle.old handle.new }
    ensures counted { handle.new.machine.guards ≡ handle.old.machine.guards }
{
    let mut done: u64 = 0;
    for value in 0..objects {
        let Ok(owned) = Owned::new(alloc, value) else {
            continue;
        };
        let Ok(before) = pointer.swap(owned, SeqCst, guard) else {
            continue;
        };
        if handle.defer_destroy(guard, before).is_ok() {
            done = done.wrapping_add(1);
        }
    }
    done
}

/// The same of one object, by a load and a store.
pub fn replace_store(
    handle: &mut LocalHandle<'_, u64>,
    guard: &Guard<'_, u64>,
    alloc: Global,
    pointer: &Atomic<u64>,
) -> u64
    requires { Owns handle.old guard.now }
    ensures same { IsSame handle.old handle.new }
    ensures counted { handle.new.machine.guards ≡ handle.old.machine.guards }
{
    let before = pointer.load(SeqCst, guard);
    let Ok(owned) = Owned::new(alloc, 1) else {
        return 0;
    };
    match pointer.store(owned, SeqCst, guard) {
        Ok(()) => u64::from(handle.defer_destroy(guard, before).is_ok()),
        Err(_) => 0,
    }
}

/// Exchanges the pointer by one to a new object, until it wins, and returns the pointer to the one before. `None`:
/// there is no memory or cell, or each try was lost.
#[inline(always)]
fn exchange_new<'g>(
    guard: &'g Guard<'_, u64>,
    alloc: Global,
    pointer: &Atomic<u64>,
) -> Option<Shared<'g, u64>> {
    let owned = Owned::new(alloc, 1).ok()?;
    let mut new = owned.into_shared(guard).ok()?;
    for _ in 0..TRIES {
        let before = pointer.load(SeqCst, guard);
        match pointer.compare_exchange(before, new, SeqCst, SeqCst, guard) {
            Ok(_) => return Some(before),
            Err(ExchangeFault::Changed(lost)) => new = lost.new,
            Err(_) => return None,
        }
    }
    None
}

/// The same of one object, by exchanges until one is won.
pub fn replace_cas(
    handle: &mut LocalHandle<'_, u64>,
    guard: &Guard<'_, u64>,
    alloc: Global,
    pointer: &Atomic<u64>,
) -> u64
    requires { Owns handle.old guard.now }
    ensures same { IsSame handle.old handle.new }
    ensures counted { handle.new.machine.guards ≡ handle.old.machine.guards }
{
    match exchange_new(guard, alloc, pointer) {
        Some(before) => u64::from(handle.defer_destroy(guard, before).is_ok()),
        None => 0,
    }
}
