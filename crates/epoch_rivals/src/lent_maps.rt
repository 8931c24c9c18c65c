//! A map of lent nodes: look-ups alone, or ninety in a hundred beside five inserts and five removals.
ghost use Rattle.std.specs.Prelude.{◌≡◌, IsSome};

use crate::draw::{Draw, SCATTER, key, percent};
use crate::lent::{LentOwn, cells_in, made_for, store_of};
use crate::side::{RoundPart, RoundPlan, Side, all_rounds};
use crate::stopwatch::Nanos;
use epoch_lend::domain::Domain;
use epoch_lend::readers::posts::{Made, PostSet, Posts};
use epoch_lend::session::{LendingGuard, Session};
use epoch_lend_pointers::{Store, Writer};
use epoch_map::{GrowingMap, LentEntry, MapNode};
use std::alloc::Global;
use std::io;
use std::marker::Brand;
use std::sync::Wait;
use std::thread::Threads;
use std::time::Clock;

/// Cells beside those of the keys, for nodes that are removed and wait for guards.
const SPARE: u64 = 65_536;

/// A node that has a number as its key and as its value. As in the module `lent_ordered`, the side is written for any
/// type of such nodes.
trait KeyNode: MapNode<Key = u64> {
    /// Makes a node of this number.
    fn of(number: u64) -> Self;

    /// Returns the value.
    fn number(&self) -> u64;
}

impl KeyNode for LentEntry<u64, u64> {
    #[inline(always)]
    fn of(number: u64) -> LentEntry<u64, u64> {
        LentEntry::new(number, number)
    }

    #[inline(always)]
    fn number(&self) -> u64 {
        *self.value()
    }
}

/// What is done with a map: look-ups among 1,000 keys; among 100,000, in cells that were made at first or added one
/// block after another, by a renewed guard for each call or for 64, or by Zipf's law; the same beside changes; or
/// look-ups among a million.
#[derive(Clone, Copy)]
pub enum MapRow {
    FewLooks,
    Looks,
    GrownLooks,
    LooksTogether,
    ZipfianLooks,
    Changes,
    ManyLooks,
}

impl MapRow {
    /// How many keys the map has at first.
    fn keys(self) -> u64 {
        match self {
            MapRow::FewLooks => 1_000,
            MapRow::ManyLooks => 1_000_000,
            _ => 100_000,
        }
    }
}

/// A map that has `KEYS` of the keys below `SPACE` at first. If there are more keys than that, a tenth of the calls
/// change the map. The guard is renewed for each `TOGETHER` calls.
#[derive(Drop)]
struct NumberMap<
    'q,
    's,
    J: PostSet,
    N,
    const KEYS: u64,
    const SPACE: u64,
    const SKEW: u64,
    const TOGETHER: u64,
> {
    alloc: Global,
    store: &'q Store<'s, J, N>,
    map: GrowingMap<'q, 's, J, N>,
}

/// Makes a call, and returns whether it did what it should. A look-up should find its key's value, or may miss it if
/// keys are removed.
#[inline(always)]
fn call<'s, J: PostSet, N: KeyNode, const KEYS: u64, const SPACE: u64, const SKEW: u64>(
    map: &GrowingMap<'_, 's, J, N>,
    writer: &mut Writer<'_, 's, J, N>,
    guard: &LendingGuard<'_, J>,
    number: u64,
) -> bool {
    let key = key::<SPACE, SKEW>(number);
    let chosen = if SPACE > KEYS { percent(number) } else { 0 };
    if chosen < 90 {
        return match map.get(guard, &key) {
            Some(node) => node.number() == key,
            None => SPACE > KEYS,
        };
    }
    if chosen < 95 {
        return map.insert(writer, guard, N::of(key)).is_ok();
    }
    map.remove(writer, guard, &key).is_ok()
}

/// Makes the calls of one thread, under one guard that is renewed before each, or before some.
#[inline(never)]
fn calls<
    's,
    J: PostSet,
    N: KeyNode,
    const KEYS: u64,
    const SPACE: u64,
    const SKEW: u64,
    const TOGETHER: u64,
>(
    map: &GrowingMap<'_, 's, J, N>,
    session: &mut Session<'s, J>,
    writer: &mut Writer<'_, 's, J, N>,
    part: RoundPart,
) -> u64
    requires free { IsSome session.old.reader }
    ensures free { IsSome session.new.reader }
{
    let mut draw = Draw::of(part.thread, part.round);
    let mut done: u64 = 0;
    let mut guard = session.pin();
    for _ in 0..part.turns / TOGETHER.max(1) {
        guard = guard.renew();
        for _ in 0..TOGETHER {
            if call::<J, N, KEYS, SPACE, SKEW>(map, writer, &guard, draw.number()) {
                done = done.wrapping_add(1);
            }
        }
    }
    session.unpin(guard);
    done
}

impl<
    'q,
    's,
    J: PostSet,
    N: KeyNode,
    const KEYS: u64,
    const SPACE: u64,
    const SKEW: u64,
    const TOGETHER: u64,
> Side for NumberMap<'q, 's, J, N, KEYS, SPACE, SKEW, TOGETHER> {
    type Own = LentOwn<'q, 's, J, N>;

    fn join(&self) -> Option<LentOwn<'q, 's, J, N>> {
        LentOwn::join(self.alloc, self.store)
    }

    fn turns<R: Clock + Wait>(
        &self,
        _rt: &R,
        own: &mut LentOwn<'q, 's, J, N>,
        part: RoundPart,
    ) -> u64 {
        calls::<J, N, KEYS, SPACE, SKEW, TOGETHER>(
            &self.map,
            &mut own.session,
            &mut own.writer,
            part,
        )
    }

    fn leave<R: Wait>(&self, rt: &R, own: LentOwn<'q, 's, J, N>) {
        own.leave(rt);
    }
}

impl<'q, 's, J: PostSet, N: KeyNode> LentOwn<'q, 's, J, N> {
    fn insert(&mut self, map: &GrowingMap<'_, 's, J, N>, key: u64) {
        let guard = self.session.pin();
        let _ = map.insert(&mut self.writer, &guard, N::of(key));
        self.session.unpin(guard);
    }
}

fn rounds_in<
    const KEYS: u64,
    const SPACE: u64,
    const SKEW: u64,
    const TOGETHER: u64,
    R: Clock + Threads + Wait + Sync,
    J: PostSet + Send + Sync,
    N: KeyNode + Send + Sync,
>(rt: &R, alloc: Global, plan: RoundPlan, store: &Store<'_, J, N>, times: &mut [Nanos]) -> u64 {
    let Ok(map) = GrowingMap::new(alloc, store) else {
        return 0;
    };
    if let Some(own) = LentOwn::join(alloc, store) {
        let mut filling = own;
        for index in 0..KEYS {
            filling.insert(&map, index.wrapping_mul(SCATTER) % SPACE.max(1));
        }
        filling.leave(rt);
    }
    let shared = NumberMap::<J, N, KEYS, SPACE, SKEW, TOGETHER> { alloc, store, map };
    all_rounds(rt, plan, &shared, times)
}

/// How many cells the store of so many keys has.
fn cells_for(keys: u64) -> u32 {
    u32::try_from(keys.saturating_add(SPARE)).unwrap_or(u32::MAX)
}

fn rounds_over<
    R: Clock + Threads + Wait + Sync,
    J: PostSet + Send + Sync,
    N: KeyNode + Send + Sync,
>(
    rt: &R,
    alloc: Global,
    made: Made,
    plan: RoundPlan,
    row: MapRow,
    times: &mut [Nanos],
) -> io::Result<u64>
    requires { made.posts.items ≡ J.posts }
{
    let domain = Domain::new(Posts::<J>::of(alloc, made)?);
    let count = cells_for(row.keys());
    let first = match row {
        MapRow::GrownLooks => 0,
        _ => count,
    };
    let mut cells = cells_in::<J, N>(alloc, first, count, &domain)?;
    let store = store_of(alloc, &domain, &mut cells)?;
    let done = match row {
        MapRow::FewLooks => rounds_in::<1_000, 1_000, 0, 1, R, J, N>(
            rt, alloc, plan, &store, times,
        ),
        MapRow::Looks | MapRow::GrownLooks => rounds_in::<100_000, 100_000, 0, 1, R, J, N>(
            rt, alloc, plan, &store, times,
        ),
        MapRow::LooksTogether => rounds_in::<100_000, 100_000, 0, 64, R, J, N>(
            rt, alloc, plan, &store, times,
        ),
        MapRow::ZipfianLooks => rounds_in::<100_000, 100_000, 15, 1, R, J, N>(
            rt, alloc, plan, &store, times,
        ),
        MapRow::Changes => rounds_in::<100_000, 200_000, 0, 1, R, J, N>(
            rt, alloc, plan, &store, times,
        ),
        MapRow::ManyLooks => rounds_in::<1_000_000, 1_000_000, 0, 1, R, J, N>(
            rt, alloc, plan, &store, times,
        ),
    };
    let _ = store.end();
    Ok(done)
}

/// Makes as many rounds of this row as there are times, and returns how many turns of the last one did what they
/// should.
pub fn rounds<R: Clock + Threads + Wait + Sync>(
    rt: &R,
    alloc: Global,
    plan: RoundPlan,
    row: MapRow,
    times: &mut [Nanos],
) -> io::Result<u64> {
    let made = made_for(alloc, plan)?;
    rounds_over::<R, Brand, LentEntry<u64, u64>>(rt, alloc, made, plan, row, times)
}
