//! Pins of sessions, and looks at values behind pointers, in a list and in a map.
ghost use Rattle.std.specs.Prelude.{◌≡◌, IsSome};

use crate::lent::{LentIdle, LentRound, cells_in, domain_over, made_for, store_of};
use crate::rounds::{Round, RoundSize, all_rounds};
use epoch_atomic::atomic::Atomic;
use epoch_examples::lent::sorted_list::{SortedEntry, SortedList};
use epoch_lend::readers::posts::{Made, PostSet};
use epoch_lend::session::{LendingGuard, Session};
use epoch_lend_pointers::Store;
use epoch_map::{LendingMap, LentEntry};
use std::alloc::Global;
use std::io;
use std::marker::Brand;
use std::sync::Wait;
use std::sync::atomic::Ordering::SeqCst;
use std::thread::Threads;
use std::time::Clock;

/// The value behind the pointer.
const VALUE: u64 = 7;

/// Keys of the list and of the map, which has one bucket. The last one is looked for.
const KEYS: u64 = 100;

/// Steps that a call of the list or of the map has.
const STEPS: u32 = 1_000;

/// What a turn does.
#[derive(Clone, Copy)]
pub enum LookRow {
    /// A pin and an unpin.
    Pin,
    /// A load of a pointer, and a look at its value, under one guard.
    Get,
    /// The same, under a guard that is renewed before each.
    RenewGet,
    /// A walk to the last of 100 keys of a list, under one guard.
    List,
    /// A look-up of the last of 100 keys in a map, under one guard.
    Map,
}

/// What is looked at. It is copied: as in a caller's own loop, where it leads stands in registers then.
trait LookedAt<J: PostSet>: Copy {
    /// What a look returns that finds what it should.
    const FOUND: u64;

    /// Looks once.
    fn look(self, guard: &LendingGuard<'_, J>) -> u64;
}

/// Looks this many times under one guard, and returns how many looks found what they should.
#[inline(never)]
fn looks<J: PostSet, S: LookedAt<J>>(seen: S, guard: &LendingGuard<'_, J>, turns: u64) -> u64 {
    let mut sum: u64 = 0;
    for _ in 0..turns {
        sum = sum.wrapping_add(seen.look(guard));
    }
    sum / S::FOUND.max(1)
}

/// Looks this many times under a guard that is renewed before each look.
#[inline(never)]
fn renewed_looks<'s, J: PostSet, S: LookedAt<J>>(
    seen: S,
    session: &mut Session<'s, J>,
    turns: u64,
) -> u64
    requires free { IsSome session.old.reader }
    ensures free { IsSome session.new.reader }
{
    let mut sum: u64 = 0;
    let mut guard = session.pin();
    for _ in 0..turns {
        guard = guard.renew();
        sum = sum.wrapping_add(seen.look(&guard));
    }
    session.unpin(guard);
    sum / S::FOUND.max(1)
}

impl<'q, 's, J: PostSet, T: Drop> LentIdle<'q, 's, J, T> {
    /// Does the turns of one thread.
    fn look<S: LookedAt<J>>(&mut self, row: LookRow, seen: S, turns: u64) -> u64 {
        match row {
            LookRow::Pin => self.pins(turns),
            LookRow::RenewGet => renewed_looks(seen, &mut self.session, turns),
            _ => {
                let guard = self.session.pin();
                let done = looks(seen, &guard, turns);
                self.session.unpin(guard);
                done
            }
        }
    }
}

/// What a row looks at.
#[derive(Drop)]
struct Seen<S> {
    row: LookRow,
    at: S,
}

impl<'v, 'q, 's, J, T, S> Round for LentRound<'v, 'q, 's, J, T, Seen<S>>
where
    J: PostSet + Send + Sync,
    T: Drop + Send + Sync,
    S: LookedAt<J> + Sync,
{
    type Participant = LentIdle<'q, 's, J, T>;

    fn register(&self) -> Option<LentIdle<'q, 's, J, T>> {
        LentIdle::join(self.alloc, self.store)
    }

    fn turns<R: Wait>(&self, _rt: &R, idle: &mut LentIdle<'q, 's, J, T>, turns: u64) -> u64 {
        idle.look(self.shared.row, self.shared.at, turns)
    }

    fn leave<R: Wait>(&self, rt: &R, idle: LentIdle<'q, 's, J, T>) {
        idle.leave(rt);
    }
}

/// One value behind a pointer.
#[derive_where(Clone, Copy)]
struct One<'p, 'q, 's, J: PostSet> {
    pointer: &'p Atomic<u64>,
    store: &'q Store<'s, J, u64>,
}

impl<J: PostSet> LookedAt<J> for One<'_, '_, '_, J> {
    const FOUND: u64 = VALUE;

    #[inline(always)]
    fn look(self, guard: &LendingGuard<'_, J>) -> u64 {
        match self
            .store
            .get(self.store.load(self.pointer, SeqCst, guard), guard)
        {
            Some(value) => *value,
            None => 0,
        }
    }
}

impl<'q, 's, J: PostSet> LentIdle<'q, 's, J, u64> {
    /// Puts the value behind the pointer.
    fn fill_cell(&mut self, one: One<'_, 'q, 's, J>) {
        let guard = self.session.pin();
        if let Ok(placed) = self.writer.place(&guard, VALUE) {
            one.store.store(one.pointer, placed, SeqCst, &guard);
        }
        self.session.unpin(guard);
    }
}

fn cell_rounds_in<'s, R: Clock + Threads + Wait + Sync, J: PostSet + Send + Sync>(
    rt: &R,
    alloc: Global,
    size: RoundSize,
    store: &Store<'s, J, u64>,
    row: LookRow,
    times: &mut [u64],
) -> u64 {
    let at = Atomic::null();
    let pointer = &at;
    let one = One { pointer, store };
    if let Some(idle) = LentIdle::join(alloc, store) {
        let mut filling = idle;
        filling.fill_cell(one);
        filling.leave(rt);
    }
    let seen = Seen { row, at: one };
    let round = LentRound {
        alloc,
        store,
        shared: &seen,
    };
    all_rounds(rt, size, &round, times)
}

fn cell_rounds<R: Clock + Threads + Wait + Sync, J: PostSet + Send + Sync>(
    rt: &R,
    alloc: Global,
    made: Made,
    size: RoundSize,
    row: LookRow,
    times: &mut [u64],
) -> io::Result<u64>
    requires { made.posts.items ≡ J.posts }
{
    let domain = domain_over::<J>(alloc, made)?;
    let mut cells = cells_in(alloc, &domain)?;
    let store = store_of::<J, u64>(alloc, &domain, &mut cells)?;
    let done = cell_rounds_in(rt, alloc, size, &store, row, times);
    let _ = store.end();
    Ok(done)
}

impl<J: PostSet> LookedAt<J> for &SortedList<'_, '_, J> {
    const FOUND: u64 = 1;

    #[inline(always)]
    fn look(self, guard: &LendingGuard<'_, J>) -> u64 {
        match self.contains(KEYS, guard, STEPS) {
            Ok(true) => 1,
            _ => 0,
        }
    }
}

impl<'q, 's, J: PostSet> LentIdle<'q, 's, J, SortedEntry> {
    /// Inserts the keys.
    fn fill_list(&mut self, list: &SortedList<'_, 's, J>) {
        for below in 0..KEYS {
            let guard = self.session.pin();
            let _ = list.insert(KEYS - below, &mut self.writer, &guard, STEPS);
            self.session.unpin(guard);
        }
    }
}

fn list_rounds_in<'s, R: Clock + Threads + Wait + Sync, J: PostSet + Send + Sync>(
    rt: &R,
    alloc: Global,
    size: RoundSize,
    store: &Store<'s, J, SortedEntry>,
    times: &mut [u64],
) -> u64 {
    let list = SortedList::new(store);
    if let Some(idle) = LentIdle::join(alloc, store) {
        let mut filling = idle;
        filling.fill_list(&list);
        filling.leave(rt);
    }
    let row = LookRow::List;
    let seen = Seen { row, at: &list };
    let round = LentRound {
        alloc,
        store,
        shared: &seen,
    };
    all_rounds(rt, size, &round, times)
}

fn list_rounds<R: Clock + Threads + Wait + Sync, J: PostSet + Send + Sync>(
    rt: &R,
    alloc: Global,
    made: Made,
    size: RoundSize,
    times: &mut [u64],
) -> io::Result<u64>
    requires { made.posts.items ≡ J.posts }
{
    let domain = domain_over::<J>(alloc, made)?;
    let mut cells = cells_in(alloc, &domain)?;
    let store = store_of::<J, SortedEntry>(alloc, &domain, &mut cells)?;
    let done = list_rounds_in(rt, alloc, size, &store, times);
    let _ = store.end();
    Ok(done)
}

/// The nodes of the map.
type KeyNode = LentEntry<u64, u64>;

impl<J: PostSet> LookedAt<J> for &LendingMap<'_, '_, J, KeyNode> {
    const FOUND: u64 = 1;

    #[inline(always)]
    fn look(self, guard: &LendingGuard<'_, J>) -> u64 {
        match self.contains(guard, &KEYS, STEPS) {
            Ok(true) => 1,
            _ => 0,
        }
    }
}

impl<'q, 's, J: PostSet> LentIdle<'q, 's, J, KeyNode> {
    /// Inserts the keys.
    fn fill_map(&mut self, map: &LendingMap<'_, 's, J, KeyNode>) {
        for below in 0..KEYS {
            self.insert(map, KEYS - below);
        }
    }

    /// Inserts a key, with itself as its value.
    fn insert(&mut self, map: &LendingMap<'_, 's, J, KeyNode>, key: u64) {
        let guard = self.session.pin();
        let _ = map.insert(&mut self.writer, &guard, LentEntry::new(key, key), STEPS);
        self.session.unpin(guard);
    }
}

fn map_rounds_in<'s, R: Clock + Threads + Wait + Sync, J: PostSet + Send + Sync>(
    rt: &R,
    alloc: Global,
    size: RoundSize,
    store: &Store<'s, J, KeyNode>,
    times: &mut [u64],
) -> u64 {
    let Ok(map) = LendingMap::new(alloc, store, 0) else {
        return 0;
    };
    if let Some(idle) = LentIdle::join(alloc, store) {
        let mut filling = idle;
        filling.fill_map(&map);
        filling.leave(rt);
    }
    let row = LookRow::Map;
    let seen = Seen { row, at: &map };
    let round = LentRound {
        alloc,
        store,
        shared: &seen,
    };
    all_rounds(rt, size, &round, times)
}

fn map_rounds<R: Clock + Threads + Wait + Sync, J: PostSet + Send + Sync>(
    rt: &R,
    alloc: Global,
    made: Made,
    size: RoundSize,
    times: &mut [u64],
) -> io::Result<u64>
    requires { made.posts.items ≡ J.posts }
{
    let domain = domain_over::<J>(alloc, made)?;
    let mut cells = cells_in(alloc, &domain)?;
    let store = store_of::<J, KeyNode>(alloc, &domain, &mut cells)?;
    let done = map_rounds_in(rt, alloc, size, &store, times);
    let _ = store.end();
    Ok(done)
}

/// Makes as many rounds as there are times, and returns how many turns of the last one did what they should.
pub fn rounds<R: Clock + Threads + Wait + Sync>(
    rt: &R,
    alloc: Global,
    size: RoundSize,
    row: LookRow,
    times: &mut [u64],
) -> io::Result<u64> {
    let made = made_for(alloc, size)?;
    match row {
        LookRow::List => list_rounds::<R, Brand>(rt, alloc, made, size, times),
        LookRow::Map => map_rounds::<R, Brand>(rt, alloc, made, size, times),
        _ => cell_rounds::<R, Brand>(rt, alloc, made, size, row, times),
    }
}
