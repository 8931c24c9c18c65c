//! Runs the pages on counted pointers and on worlds, on threads where they are for threads.
use crate::pages::calls::{collector, pin, register, release, unpin};
use crate::wants::want;
use epoch::atomic::Atomic;
use epoch::{Capacities, Collector, Fault, Guard, Job, LocalHandle, Work};
use epoch_examples::crossed_out::{CrossedEntry, List};
use epoch_examples::deferred::call_soon;
use epoch_examples::last_owner::take_apart;
use epoch_examples::replacement::read_late;
use epoch_examples::schedule::half_a_pin;
use epoch_examples::shared_value::{read, replace};
use epoch_stack::{Node, Stack};
use epoch_world::{AccessAnswer, Reply};
use std::alloc::Global;
use std::process::Abort;
use std::sync::atomic::AtomicU64;
use std::sync::atomic::Ordering::SeqCst;
use std::sync::{Arc, Wait};
use std::test::Fail;
use std::thread;
use std::thread::Threads;

// A SHARED VALUE

/// Threads that replace a value, and others that read it, each so many times. One writer alone raises it by 1, from 1
/// on. Of several, each puts multiples of 7 there.
#[derive(Clone, Copy)]
struct Race {
    writers: u64,
    readers: u64,
    turns: u64,
}

/// Replaces the value under this guard, which must be one of the handle.
fn replace_under(
    rt: &impl Abort,
    alloc: Global,
    handle: &mut LocalHandle<'_, u64>,
    guard: &Guard<'_, u64>,
    pointer: &Atomic<u64>,
    value: u64,
) -> Result<(), Fault> {
    assert!(rt; handle.owns(guard), "the guard is one of the handle");
    replace(alloc, pointer, value, handle, guard)
}

/// Replaces the value under a guard of its own.
fn replace_once(
    rt: &impl Abort,
    alloc: Global,
    handle: &mut LocalHandle<'_, u64>,
    pointer: &Atomic<u64>,
    value: u64,
) {
    let guard = pin(rt, handle);
    let replaced = replace_under(rt, alloc, handle, &guard, pointer, value);
    unpin(rt, handle, guard);
    want(rt, "a value is replaced", replaced, Ok(()));
}

/// Replaces the value by multiples of this number.
fn write(
    rt: &impl Abort,
    alloc: Global,
    collector: &Collector<u64>,
    pointer: &Atomic<u64>,
    race: Race,
) {
    let step = if race.writers == 1 { 1 } else { 7 };
    let mut handle = register(rt, collector);
    for turn in 0..race.turns {
        let value = turn.wrapping_add(1).wrapping_mul(step);
        replace_once(rt, alloc, &mut handle, pointer, value);
    }
    release(rt, handle);
}

/// What is read under a guard of its own, or `last`.
fn read_once(
    rt: &impl Abort,
    handle: &mut LocalHandle<'_, u64>,
    pointer: &Atomic<u64>,
    last: u64,
) -> u64 {
    let guard = pin(rt, handle);
    let value = read(pointer, &guard).unwrap_or(last);
    unpin(rt, handle, guard);
    value
}

/// What one writer raises never falls, and what several write is a multiple of 7.
fn want_next(rt: &impl Abort, race: Race, last: u64, value: u64) {
    let fits = if race.writers == 1 {
        last <= value
    } else {
        value % 7 == 0
    };
    want(
        rt,
        "a value that was written",
        (last, value, fits),
        (last, value, true),
    );
}

/// Reads the value again and again.
fn read_often(rt: &impl Abort, collector: &Collector<u64>, pointer: &Atomic<u64>, race: Race) {
    let mut handle = register(rt, collector);
    let mut last = 0;
    for _ in 0..race.turns {
        let value = read_once(rt, &mut handle, pointer, last);
        want_next(rt, race, last, value);
        last = value;
    }
    release(rt, handle);
}

fn race_at_once<R: Abort + Threads + Wait + Sync>(
    rt: &R,
    alloc: Global,
    collector: &Collector<u64>,
    pointer: &Atomic<u64>,
    race: Race,
) {
    thread::scope(thread::scope_env(), rt, |scope| {
        for _ in 0..race.writers {
            let _ = scope.spawn(move || write(rt, alloc, collector, pointer, race));
        }
        for _ in 0..race.readers {
            let _ = scope.spawn(move || read_often(rt, collector, pointer, race));
        }
    });
}

fn run_race<R: Abort + Threads + Wait + Sync>(rt: &R, alloc: Global, cells: u32, race: Race) {
    let collector = collector::<u64>(rt, alloc, Capacities::usual(8, cells, 64));
    let pointer = Atomic::<u64>::null();
    race_at_once(rt, alloc, &collector, &pointer, race);
    let _ = collector.end();
}

#[test]
fn readers_read_while_one_thread_replaces(rt: HostRuntime) {
    let race = Race {
        writers: 1,
        readers: 7,
        turns: 500,
    };
    run_race(&rt, rt.alloc(), 512, race);
}

#[test]
fn readers_read_while_four_threads_replace(rt: HostRuntime) {
    let race = Race {
        writers: 4,
        readers: 4,
        turns: 250,
    };
    run_race(&rt, rt.alloc(), 2_048, race);
}

// A JOB THAT IS CALLED LATER

/// A job that counts its call.
fn counting_job(rt: &impl Abort, alloc: Global, count: &Arc<AtomicU64>) -> Result<Job, Fail> {
    let counted = count.clone().expect(rt, "room for one more owner");
    let run = Box::new(alloc, move || {
        let _ = counted.fetch_add(1, SeqCst);
    })?;
    let job = Job::Call(Work { run });
    Ok(job)
}

/// Pins, flushes and unpins, three times. The count is this then.
fn flush_3(rt: &impl Abort, handle: &mut LocalHandle<'_, u64>, count: &AtomicU64, wanted: u64) {
    for _ in 0..3u64 {
        let guard = pin(rt, handle);
        let flushed = handle.flush(&guard);
        unpin(rt, handle, guard);
        want(rt, "a flush", flushed, Ok(()));
    }
    want(
        rt,
        "how often the job was called",
        count.load(SeqCst),
        wanted,
    );
}

/// Defers the job under this guard, which must be one of the handle.
fn defer_under(
    rt: &impl Abort,
    handle: &mut LocalHandle<'_, u64>,
    guard: &Guard<'_, u64>,
    job: Job,
) {
    assert!(rt; handle.owns(guard), "the guard is one of the handle");
    let deferred = call_soon(job, handle, guard).is_ok();
    want(rt, "whether the job is deferred", deferred, true);
}

/// Defers the job under a guard of its own.
fn defer(rt: &impl Abort, handle: &mut LocalHandle<'_, u64>, job: Job) {
    let guard = pin(rt, handle);
    defer_under(rt, handle, &guard, job);
    unpin(rt, handle, guard);
}

/// A job of a participant is called only when another one, which was pinned at its deferral, has unpinned.
fn wait_for_a_pin(rt: &impl Abort, alloc: Global, job: Job, count: &AtomicU64) {
    let collector = collector::<u64>(rt, alloc, Capacities::usual(2, 1, 4));
    let mut reader = register(rt, &collector);
    let mut writer = register(rt, &collector);
    let reading = pin(rt, &mut reader);
    defer(rt, &mut writer, job);
    flush_3(rt, &mut writer, count, 0);
    unpin(rt, &mut reader, reading);
    flush_3(rt, &mut writer, count, 1);
    release(rt, reader);
    release(rt, writer);
    let _ = collector.end();
}

#[test]
fn a_deferred_function_waits_for_a_pin(rt: HostRuntime) -> Result<(), Fail> {
    let count = Arc::new(rt.alloc(), AtomicU64::new(0))?;
    let job = counting_job(&rt, rt.alloc(), &count)?;
    wait_for_a_pin(&rt, rt.alloc(), job, &count);
    Ok(())
}

// WORLDS

#[test]
fn a_pin_stops_after_its_first_step(rt: HostRuntime) -> Result<(), Fail> {
    let replies = half_a_pin(rt.alloc())?;
    let wanted = [Reply::Began, Reply::Stepped];
    want(
        &rt,
        "the replies",
        replies.as_slice() == wanted.as_slice(),
        true,
    );
    Ok(())
}

#[test]
fn a_value_stands_until_its_reader_unpins(rt: HostRuntime) -> Result<(), Fail> {
    let (first, second) = read_late(rt.alloc())?;
    want(
        &rt,
        "under its pin",
        first,
        Reply::Done(AccessAnswer::Value(10)),
    );
    want(
        &rt,
        "under a later pin",
        second,
        Reply::Done(AccessAnswer::Absent),
    );
    Ok(())
}

// A STACK AND ITS LAST OWNER

/// A participant of the stack's collector.
type Handle<'c> = LocalHandle<'c, Node<u64>>;

/// Pushes the value under a guard of its own.
fn push_once(
    rt: &impl Abort,
    alloc: Global,
    stack: &Stack<'_, u64>,
    handle: &mut Handle<'_>,
    value: u64,
) {
    let guard = pin(rt, handle);
    let pushed = stack.push(alloc, handle, &guard, value, 1_000_000).is_ok();
    unpin(rt, handle, guard);
    want(rt, "whether a value is pushed", pushed, true);
}

/// Pushes the numbers from 1 to 100.
fn push_100(
    rt: &impl Abort,
    alloc: Global,
    collector: &Collector<Node<u64>>,
    stack: &Stack<'_, u64>,
) {
    let mut handle = register(rt, collector);
    for value in 1..101u64 {
        push_once(rt, alloc, stack, &mut handle, value);
    }
    release(rt, handle);
}

fn push_at_once<R: Abort + Threads + Wait + Sync>(
    rt: &R,
    alloc: Global,
    collector: &Collector<Node<u64>>,
    stack: &Stack<'_, u64>,
) {
    thread::scope(thread::scope_env(), rt, |scope| {
        for _ in 0..4u64 {
            let _ = scope.spawn(move || push_100(rt, alloc, collector, stack));
        }
    });
}

#[test]
fn the_last_owner_takes_all_that_threads_pushed(rt: HostRuntime) {
    let collector = collector::<Node<u64>>(&rt, rt.alloc(), Capacities::usual(4, 512, 16));
    let stack = Stack::new(&collector);
    push_at_once(&rt, rt.alloc(), &collector, &stack);
    let sum = take_apart(&collector, stack);
    want(&rt, "the sum of the values", sum, 4 * 5050);
    let _ = collector.end();
}

// A LIST OF NUMBERS

/// Puts the number under a guard of its own.
fn put_once(
    rt: &impl Abort,
    alloc: Global,
    list: &List,
    handle: &mut LocalHandle<'_, CrossedEntry>,
    number: u64,
) {
    let guard = pin(rt, handle);
    let put = list.put(alloc, number, &guard, 1_000_000);
    unpin(rt, handle, guard);
    want(rt, "a number is put", (number, put), (number, Ok(())));
}

/// Puts 25 numbers from this one on.
fn put_25(
    rt: &impl Abort,
    alloc: Global,
    collector: &Collector<CrossedEntry>,
    list: &List,
    first: u64,
) {
    let mut handle = register(rt, collector);
    for index in 0..25u64 {
        put_once(rt, alloc, list, &mut handle, first.wrapping_add(index));
    }
    release(rt, handle);
}

/// Crosses the number out under a guard of its own, and counts it if this call did it.
fn cross_out_once(
    rt: &impl Abort,
    list: &List,
    handle: &mut LocalHandle<'_, CrossedEntry>,
    number: u64,
    count: &AtomicU64,
) {
    let guard = pin(rt, handle);
    let crossed_out = list.cross_out(number, &guard, 1_000);
    unpin(rt, handle, guard);
    want(rt, "a number is crossed out", crossed_out.is_ok(), true);
    if crossed_out == Ok(true) {
        let _ = count.fetch_add(1, SeqCst);
    }
}

/// Crosses out the numbers from 1 to 50, and counts those that this thread was the one to cross out.
fn cross_out_50(
    rt: &impl Abort,
    collector: &Collector<CrossedEntry>,
    list: &List,
    count: &AtomicU64,
) {
    let mut handle = register(rt, collector);
    for number in 1..51u64 {
        cross_out_once(rt, list, &mut handle, number, count);
    }
    release(rt, handle);
}

fn put_at_once<R: Abort + Threads + Wait + Sync>(
    rt: &R,
    alloc: Global,
    collector: &Collector<CrossedEntry>,
    list: &List,
) {
    thread::scope(thread::scope_env(), rt, |scope| {
        for thread in 0..4u64 {
            let first = thread.wrapping_mul(25).wrapping_add(1);
            let _ = scope.spawn(move || put_25(rt, alloc, collector, list, first));
        }
    });
}

fn cross_out_at_once<R: Abort + Threads + Wait + Sync>(
    rt: &R,
    collector: &Collector<CrossedEntry>,
    list: &List,
    count: &AtomicU64,
) {
    thread::scope(thread::scope_env(), rt, |scope| {
        for _ in 0..4u64 {
            let _ = scope.spawn(move || cross_out_50(rt, collector, list, count));
        }
    });
}

#[test]
fn each_number_is_crossed_out_by_one_thread(rt: HostRuntime) {
    let collector = collector::<CrossedEntry>(&rt, rt.alloc(), Capacities::usual(4, 100, 16));
    let (list, count) = (List::new(), AtomicU64::new(0));
    put_at_once(&rt, rt.alloc(), &collector, &list);
    cross_out_at_once(&rt, &collector, &list, &count);
    want(&rt, "how many are crossed out", count.load(SeqCst), 50);
    let left = list.take_apart(&collector);
    want(&rt, "how many are not", left, 50);
    let _ = collector.end();
}
