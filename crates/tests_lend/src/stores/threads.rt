//! Threads that read, replace and retire values behind shared pointers.
ghost use Rattle.std.specs.Prelude.{◌≡◌};

use crate::probes::{Counts, Probe, counts_for, dropped_once};
use crate::sessions::{pin, session};
use crate::stores::calls::{clear, flush, release, replace, writer};
use crate::wants::want;
use epoch_atomic::atomic::Atomic;
use epoch_lend::domain::Domain;
use epoch_lend::readers::posts::{Made, PostSet, Posts};
use epoch_lend::session::LendingGuard;
use epoch_lend_pointers::{LentCells, Store, Writer};
use std::alloc::Global;
use std::marker::Brand;
use std::process::Abort;
use std::sync::Wait;
use std::sync::atomic::Ordering::SeqCst;
use std::sync::atomic::{AtomicU64, AtomicUsize};
use std::test::Fail;
use std::thread;
use std::thread::Threads;

/// How many threads there are, how many values each of them places at most, and how many cells there are.
#[derive(Clone, Copy, Drop)]
struct Plan {
    threads: usize,
    each: usize,
    cells: u16,
}

/// Some cells wait to be free again.
const EIGHT: Plan = Plan {
    threads: 8,
    each: 2_000,
    cells: 1_024,
};

/// There is a cell for each value.
const SIXTEEN: Plan = Plan {
    threads: 16,
    each: 1_000,
    cells: 16_384,
};

/// How often a thread reads between two of its values.
const READS: usize = 4;

/// How many values are made at most: those of the threads, and in the end one for each cell and one more.
const VALUES: usize = 32_385;

/// What threads share.
#[derive(Drop)]
struct Shelf {
    even: Atomic<Probe>,
    odd: Atomic<Probe>,
    counts: Counts,
    // The number of the next value, and how many found a cell.
    next: AtomicUsize,
    placed: AtomicU64,
    // How often a value was read; how often one was not as it was made, or was dropped before; and how often a guard
    // that had a pointer didn't get its value.
    reads: AtomicU64,
    torn: AtomicU64,
    missed: AtomicU64,
}

impl Shelf {
    /// The pointer of this turn.
    fn pointer(&self, turn: usize) -> &Atomic<Probe> {
        if turn % 2 == 0 { &self.even } else { &self.odd }
    }

    /// Counts what is wrong of a value that was found.
    fn tell(&self, probe: &Probe) {
        if !probe.is_whole() {
            self.torn.fetch_add(1, SeqCst);
        }
    }
}

/// Loads a pointer, gets its value and looks at it twice, while others replace it.
fn read<J: PostSet>(
    store: &Store<'_, J, Probe>,
    shelf: &Shelf,
    guard: &LendingGuard<'_, J>,
    turn: usize,
) {
    let loaded = store.load(shelf.pointer(turn), SeqCst, guard);
    if loaded.is_null() {
        return;
    }
    if turn % 64 == 0 {
        thread::yield_now();
    }
    let Some(probe) = store.get(loaded, guard) else {
        shelf.missed.fetch_add(1, SeqCst);
        return;
    };
    shelf.reads.fetch_add(1, SeqCst);
    shelf.tell(probe);
    if turn % 64 == 1 {
        thread::yield_now();
    }
    shelf.tell(probe);
}

/// Reads and replaces under this guard.
fn go_round<J: PostSet>(
    store: &Store<'_, J, Probe>,
    shelf: &Shelf,
    guard: &LendingGuard<'_, J>,
    writer: &mut Writer<'_, '_, J, Probe>,
    turn: usize,
) {
    for index in 0..READS {
        read(store, shelf, guard, index ^ turn);
    }
    let probe = Probe::new(shelf.next.fetch_add(1, SeqCst), &shelf.counts);
    if replace(writer, shelf.pointer(turn), guard, probe).is_none() {
        shelf.placed.fetch_add(1, SeqCst);
    }
}

/// Reads and replaces, under a guard that is renewed each time, and pinned anew each eighth time.
fn take_part<J: PostSet>(
    rt: &impl Abort,
    alloc: Global,
    store: &Store<'_, J, Probe>,
    shelf: &Shelf,
    each: usize,
) {
    let mut session = session(rt, store.domain());
    let mut writer = writer(rt, alloc, store);
    let mut guard = pin(rt, &mut session);
    for turn in 0..each {
        go_round(store, shelf, &guard, &mut writer, turn);
        if turn % 8 == 0 {
            session.unpin(guard);
            guard = pin(rt, &mut session);
        } else {
            guard = guard.renew();
        }
    }
    session.unpin(guard);
    release(rt, writer);
}

/// Empties both pointers, and has all that waits be dropped. Returns how many values the cells take then, one after the
/// other, until they are full.
fn free_cells<J: PostSet>(
    rt: &impl Abort,
    alloc: Global,
    store: &Store<'_, J, Probe>,
    shelf: &Shelf,
    cells: u16,
) -> u64 {
    let mut session = session(rt, store.domain());
    let mut writer = writer(rt, alloc, store);
    let guard = pin(rt, &mut session);
    let _ = clear(&mut writer, &shelf.even, &guard);
    let _ = clear(&mut writer, &shelf.odd, &guard);
    session.unpin(guard);
    flush(&mut writer, 1_000);
    want(rt, "nothing waits any more", store.waiting(), 0);
    let guard = pin(rt, &mut session);
    let mut free: u64 = 0;
    for _ in 0..u64::from(cells).wrapping_add(1) {
        let probe = Probe::new(shelf.next.fetch_add(1, SeqCst), &shelf.counts);
        if writer.place(&guard, probe).is_ok() {
            free = free.wrapping_add(1);
        }
    }
    session.unpin(guard);
    release(rt, writer);
    free
}

fn run_at_once<J: PostSet + Send + Sync, R: Threads + Wait + Abort + Sync>(
    rt: &R,
    alloc: Global,
    store: &Store<'_, J, Probe>,
    shelf: &Shelf,
    plan: Plan,
) {
    thread::scope(thread::scope_env(), rt, |scope| {
        for _ in 0..plan.threads {
            let _ = scope.spawn(move || take_part(rt, alloc, store, shelf, plan.each));
        }
    });
}

fn start<J: PostSet + Send + Sync, R: Threads + Wait + Abort + Sync>(
    rt: &R,
    alloc: Global,
    made: Made,
    shelf: &Shelf,
    plan: Plan,
) -> Result<u64, Fail>
    requires { made.posts.items ≡ J.posts }
{
    let domain = Domain::new(Posts::<J>::of(alloc, made)?);
    let mut cells = LentCells::new(alloc, u32::from(plan.cells), &domain)?;
    let store = Store::new(alloc, &domain, &mut cells)?;
    run_at_once(rt, alloc, &store, shelf, plan);
    let free = free_cells(rt, alloc, &store, shelf, plan.cells);
    let _ = store.end();
    Ok(free)
}

/// Has the threads take part, and looks at what every plan wants. Returns how many values were placed.
fn run<R: Threads + Wait + Abort + Sync>(rt: &R, alloc: Global, plan: Plan) -> Result<u64, Fail> {
    let shelf = Shelf {
        even: Atomic::null(),
        odd: Atomic::null(),
        counts: counts_for(alloc, VALUES)?,
        next: AtomicUsize::new(0),
        placed: AtomicU64::new(0),
        reads: AtomicU64::new(0),
        torn: AtomicU64::new(0),
        missed: AtomicU64::new(0),
    };
    let made = Made::new(alloc, plan.threads)?;
    let free = start::<Brand, R>(rt, alloc, made, &shelf, plan)?;
    let wrong = (shelf.torn.load(SeqCst), shelf.missed.load(SeqCst));
    want(rt, "no value is torn, and none is missed", wrong, (0, 0));
    let reads = shelf.reads.load(SeqCst);
    want(rt, "values were read", reads > 100, true);
    want(rt, "each is free in the end", free, u64::from(plan.cells));
    let dropped = dropped_once(&shelf.counts);
    let all = shelf.next.load(SeqCst) as u64;
    want(rt, "each value was dropped once", dropped, all);
    Ok(shelf.placed.load(SeqCst))
}

#[test]
fn each_value_is_dropped_once_and_no_cell_is_lost_by_8_threads(
    rt: HostRuntime,
) -> Result<(), Fail> {
    let placed = run(&rt, rt.alloc(), EIGHT)?;
    let is_used_again = placed > u64::from(EIGHT.cells);
    want(&rt, "cells were used again", is_used_again, true);
    Ok(())
}

#[test]
fn no_call_of_16_threads_is_refused_below_the_limit(rt: HostRuntime) -> Result<(), Fail> {
    let placed = run(&rt, rt.alloc(), SIXTEEN)?;
    want(&rt, "all values were placed", placed, 16_000);
    Ok(())
}
