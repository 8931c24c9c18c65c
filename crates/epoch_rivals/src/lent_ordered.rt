//! An ordered map of lent nodes: look-ups, or walks over the entries from a key on.
ghost use Rattle.std.specs.Prelude.{◌≡◌, IsSome};

use crate::draw::{Draw, SCATTER, key};
use crate::lent::{LentOwn, cells_in, made_for, store_of};
use crate::side::{RoundPart, RoundPlan, Side, all_rounds};
use crate::stopwatch::Nanos;
use epoch_lend::domain::Domain;
use epoch_lend::readers::posts::{Made, PostSet, Posts};
use epoch_lend::session::{LendingGuard, Session};
use epoch_lend_pointers::Store;
use epoch_ordered_map::{OrderedEntry, OrderedMap, OrderedNode};
use std::alloc::Global;
use std::io;
use std::marker::Brand;
use std::sync::Wait;
use std::thread::Threads;
use std::time::Clock;

/// Cells beside those of the keys.
const SPARE: u64 = 65_536;

/// Entries that a walk goes over.
const TOGETHER: usize = 100;

/// What the numbers from 0 on sum up to, of which there are as many.
const FIRST_SUM: u64 = 4_950;

/// What is done with an ordered map: look-ups among 10,000 keys or 100,000, or walks among 100,000.
#[derive(Clone, Copy)]
pub enum OrderedRow {
    Looks,
    ManyLooks,
    Ranges,
}

impl OrderedRow {
    /// How many keys the map has.
    fn keys(self) -> u64 {
        match self {
            OrderedRow::Looks => 10_000,
            OrderedRow::ManyLooks | OrderedRow::Ranges => 100_000,
        }
    }
}

/// A node that has a number as its key and as its value.
///
/// The side is written for any type of such nodes. Written for [`OrderedEntry`], it would meet a limit of the checker,
/// which compares all that is known of a store of entries once for each method of [`Side`].
trait NumberNode: OrderedNode<Key = u64> {
    /// Makes a node of this number.
    fn of(number: u64) -> Self;

    /// Returns the value.
    fn number(&self) -> u64;
}

impl NumberNode for OrderedEntry<u64, u64> {
    #[inline(always)]
    fn of(number: u64) -> OrderedEntry<u64, u64> {
        OrderedEntry::new(number, number)
    }

    #[inline(always)]
    fn number(&self) -> u64 {
        *self.value()
    }
}

/// An ordered map that has all keys of its row.
#[derive(Drop)]
struct NumbersInOrder<'q, 's, J: PostSet, N> {
    alloc: Global,
    store: &'q Store<'s, J, N>,
    map: OrderedMap<'q, 's, J, N>,
    row: OrderedRow,
}

impl<'q, 's, J: PostSet, N: NumberNode> NumbersInOrder<'q, 's, J, N> {
    /// Returns whether the key has itself as its value.
    #[inline(always)]
    fn has(&self, guard: &LendingGuard<'_, J>, key: u64) -> bool {
        match self.map.get(guard, &key) {
            Some(node) => node.number() == key,
            None => false,
        }
    }

    /// Goes over [`TOGETHER`] entries from this key on. Each value is its key, so what the values sum up to shows
    /// whether they are those of the keys from this one on.
    #[inline(always)]
    fn has_from<'g>(&self, guard: &'g LendingGuard<'_, J>, key: u64) -> bool
    where
        N: 'g,
    {
        let mut sum: u64 = 0;
        for node in self.map.range_from(guard, &key).take(TOGETHER) {
            sum = sum.wrapping_add(node.number());
        }
        sum == key.wrapping_mul(TOGETHER as u64).wrapping_add(FIRST_SUM)
    }

    /// Makes the call that the number chooses, and returns whether it found what it should.
    #[inline(always)]
    fn call(&self, guard: &LendingGuard<'_, J>, number: u64) -> bool {
        match self.row {
            OrderedRow::Looks => self.has(guard, key::<10_000, 0>(number)),
            OrderedRow::ManyLooks => self.has(guard, key::<100_000, 0>(number)),
            // From each of these keys on, there are as many entries as a walk goes over.
            OrderedRow::Ranges => self.has_from(guard, key::<99_901, 0>(number)),
        }
    }

    /// Makes the calls of one thread, under one guard that is renewed before each.
    #[inline(never)]
    fn calls(&self, session: &mut Session<'s, J>, part: RoundPart) -> u64
        requires free { IsSome session.old.reader }
        ensures free { IsSome session.new.reader }
    {
        let mut draw = Draw::of(part.thread, part.round);
        let mut done: u64 = 0;
        let mut guard = session.pin();
        for _ in 0..part.turns {
            guard = guard.renew();
            if self.call(&guard, draw.number()) {
                done = done.wrapping_add(1);
            }
        }
        session.unpin(guard);
        done
    }
}

impl<'q, 's, J: PostSet, N: NumberNode> Side for NumbersInOrder<'q, 's, J, N> {
    type Own = LentOwn<'q, 's, J, N>;

    fn join(&self) -> Option<LentOwn<'q, 's, J, N>> {
        LentOwn::join(self.alloc, self.store)
    }

    fn turns<R: Clock + Wait>(
        &self,
        _rt: &R,
        own: &mut LentOwn<'q, 's, J, N>,
        part: RoundPart,
    ) -> u64 {
        self.calls(&mut own.session, part)
    }

    fn leave<R: Wait>(&self, rt: &R, own: LentOwn<'q, 's, J, N>) {
        own.leave(rt);
    }
}

impl<'q, 's, J: PostSet, N: NumberNode> LentOwn<'q, 's, J, N> {
    /// Puts the key into the map, with itself as its value.
    fn insert_in_order(&mut self, map: &OrderedMap<'_, 's, J, N>, key: u64) {
        let guard = self.session.pin();
        let _ = map.insert(&mut self.writer, &guard, N::of(key));
        self.session.unpin(guard);
    }
}

fn rounds_in<
    R: Clock + Threads + Wait + Sync,
    J: PostSet + Send + Sync,
    N: NumberNode + Send + Sync,
>(
    rt: &R,
    alloc: Global,
    plan: RoundPlan,
    row: OrderedRow,
    store: &Store<'_, J, N>,
    times: &mut [Nanos],
) -> u64 {
    let map = OrderedMap::new(store);
    if let Some(own) = LentOwn::join(alloc, store) {
        let mut filling = own;
        for index in 0..row.keys() {
            filling.insert_in_order(&map, index.wrapping_mul(SCATTER) % row.keys().max(1));
        }
        filling.leave(rt);
    }
    let shared = NumbersInOrder {
        alloc,
        store,
        map,
        row,
    };
    all_rounds(rt, plan, &shared, times)
}

fn rounds_over<
    R: Clock + Threads + Wait + Sync,
    J: PostSet + Send + Sync,
    N: NumberNode + Send + Sync,
>(
    rt: &R,
    alloc: Global,
    made: Made,
    plan: RoundPlan,
    row: OrderedRow,
    times: &mut [Nanos],
) -> io::Result<u64>
    requires { made.posts.items ≡ J.posts }
{
    let domain = Domain::new(Posts::<J>::of(alloc, made)?);
    let count = u32::try_from(row.keys().saturating_add(SPARE)).unwrap_or(u32::MAX);
    let mut cells = cells_in::<J, N>(alloc, count, count, &domain)?;
    let store = store_of(alloc, &domain, &mut cells)?;
    let done = rounds_in(rt, alloc, plan, row, &store, times);
    let _ = store.end();
    Ok(done)
}

/// Makes as many rounds of this row as there are times, and returns how many turns of the last one did what they
/// should.
pub fn rounds<R: Clock + Threads + Wait + Sync>(
    rt: &R,
    alloc: Global,
    plan: RoundPlan,
    row: OrderedRow,
    times: &mut [Nanos],
) -> io::Result<u64> {
    let made = made_for(alloc, plan)?;
    rounds_over::<R, Brand, OrderedEntry<u64, u64>>(rt, alloc, made, plan, row, times)
}
