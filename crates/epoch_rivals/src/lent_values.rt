//! A small value that is lent: all threads read it and the first one replaces it, or all replace it.
ghost use Rattle.std.specs.Prelude.{◌≡◌, IsSome};

use crate::lent::{LentOwn, cells_in, made_for, store_of};
use crate::side::{RoundPart, RoundPlan, Side, all_rounds};
use crate::small::{READS, Small, whole};
use crate::stopwatch::Nanos;
use epoch_atomic::atomic::Atomic;
use epoch_lend::domain::Domain;
use epoch_lend::readers::posts::{Made, PostSet, Posts};
use epoch_lend::session::{LendingGuard, Session};
use epoch_lend_pointers::{Store, Writer};
use std::alloc::Global;
use std::io;
use std::marker::Brand;
use std::sync::Wait;
use std::sync::atomic::Ordering::SeqCst;
use std::thread::Threads;
use std::time::Clock;

/// Reads under a pin, where there are several.
const TOGETHER: u64 = 64;

/// What a turn does with the value.
#[derive(Clone, Copy)]
pub enum ValueRow {
    /// A read, under one guard that is renewed when the pointer leads to another value.
    Renewed,
    /// A read under a pin of its own.
    Pinned,
    /// A read, with [`TOGETHER`] under a pin.
    Together,
    /// A replacement, under a pin of its own, in a store with this many cells.
    Replace { cells: u32 },
}

/// The value behind a pointer.
#[derive(Drop)]
struct ShownValue<'q, 's, J: PostSet> {
    alloc: Global,
    store: &'q Store<'s, J, Small>,
    pointer: Atomic<Small>,
    row: ValueRow,
}

#[inline(always)]
fn sum_of(value: Option<&Small>) -> u64 {
    match value {
        Some(value) => value.sum(),
        None => 0,
    }
}

#[inline(always)]
fn read<'s, J: PostSet>(
    store: &Store<'s, J, Small>,
    pointer: &Atomic<Small>,
    guard: &LendingGuard<'_, J>,
) -> u64 {
    sum_of(store.get(store.load(pointer, SeqCst, guard), guard))
}

/// Puts a value behind the pointer, and retires the one before. Room for that is made first, so that no value is taken
/// out of reach and then not retired.
#[inline(always)]
fn replace<'s, J: PostSet>(
    writer: &mut Writer<'_, 's, J, Small>,
    guard: &LendingGuard<'_, J>,
    pointer: &Atomic<Small>,
    word: u64,
) -> bool {
    if writer.make_room().is_err() {
        return false;
    }
    let Ok(placed) = writer.place(guard, Small::of(word)) else {
        return false;
    };
    let before = writer.store().swap(pointer, placed, SeqCst, guard);
    before.is_null() || writer.retire(before).is_ok()
}

/// Reads under this guard for as long as the pointer leads to one value, and at least once. Returns what the reads sum
/// up to, and how many there were.
#[inline(always)]
fn unchanged_reads<'s, J: PostSet>(
    store: &Store<'s, J, Small>,
    pointer: &Atomic<Small>,
    guard: &LendingGuard<'_, J>,
    most: u64,
) -> (u64, u64) {
    let mut cached = store.cached(guard);
    let Some(first) = cached.get(pointer) else {
        return (0, 1);
    };
    let mut sum = first.sum();
    for count in 1..most {
        let Some(value) = cached.unchanged(pointer) else {
            return (sum, count);
        };
        sum = sum.wrapping_add(value.sum());
    }
    (sum, most)
}

/// Reads [`TOGETHER`] times under this guard.
#[inline(always)]
fn reads_under<'s, J: PostSet>(
    store: &Store<'s, J, Small>,
    pointer: &Atomic<Small>,
    guard: &LendingGuard<'_, J>,
) -> u64 {
    let mut cached = store.cached(guard);
    let Some(first) = cached.get(pointer) else {
        return 0;
    };
    let mut sum = first.sum();
    for _ in 1..TOGETHER {
        sum = sum.wrapping_add(sum_of(cached.get(pointer)));
    }
    sum
}

/// Reads many times under one guard, which is renewed as soon as the pointer leads to another value.
#[inline(never)]
fn renewed_reads<'s, J: PostSet>(
    pointer: &Atomic<Small>,
    session: &mut Session<'s, J>,
    writer: &mut Writer<'_, 's, J, Small>,
    part: RoundPart,
) -> u64
    requires free { IsSome session.old.reader }
    ensures free { IsSome session.new.reader }
{
    let store = writer.store();
    let mut done: u64 = 0;
    let mut sum: u64 = 0;
    let mut guard = session.pin();
    for count in 0..part.turns / READS {
        let mut left = READS;
        for _ in 0..READS {
            if left == 0 {
                break;
            }
            guard = guard.renew();
            let (summed, reads) = unchanged_reads(store, pointer, &guard, left);
            sum = sum.wrapping_add(summed);
            left = left.saturating_sub(reads);
        }
        if part.thread != 0 || replace(writer, &guard, pointer, count) {
            done = done.wrapping_add(READS);
        }
    }
    session.unpin(guard);
    whole(sum, done)
}

impl<'q, 's, J: PostSet> LentOwn<'q, 's, J, Small> {
    /// Replaces the value under a pin of its own.
    #[inline(always)]
    fn put(&mut self, pointer: &Atomic<Small>, word: u64) -> bool {
        let guard = self.session.pin();
        let done = replace(&mut self.writer, &guard, pointer, word);
        self.session.unpin(guard);
        done
    }

    /// Reads under a pin of its own.
    #[inline(always)]
    fn read_once(&mut self, pointer: &Atomic<Small>) -> u64 {
        let guard = self.session.pin();
        let sum = read(self.writer.store(), pointer, &guard);
        self.session.unpin(guard);
        sum
    }

    #[inline(always)]
    fn read_some(&mut self, pointer: &Atomic<Small>) -> u64 {
        let guard = self.session.pin();
        let sum = reads_under(self.writer.store(), pointer, &guard);
        self.session.unpin(guard);
        sum
    }

    #[inline(never)]
    fn pinned_reads(&mut self, pointer: &Atomic<Small>, part: RoundPart) -> u64 {
        let mut done: u64 = 0;
        let mut sum: u64 = 0;
        for count in 0..part.turns / READS {
            for _ in 0..READS {
                sum = sum.wrapping_add(self.read_once(pointer));
            }
            if part.thread != 0 || self.put(pointer, count) {
                done = done.wrapping_add(READS);
            }
        }
        whole(sum, done)
    }

    #[inline(never)]
    fn reads_together(&mut self, pointer: &Atomic<Small>, part: RoundPart) -> u64 {
        let mut done: u64 = 0;
        let mut sum: u64 = 0;
        for count in 0..part.turns / READS {
            for _ in 0..READS / TOGETHER {
                sum = sum.wrapping_add(self.read_some(pointer));
            }
            if part.thread != 0 || self.put(pointer, count) {
                done = done.wrapping_add(READS);
            }
        }
        whole(sum, done)
    }

    #[inline(never)]
    fn replaces(&mut self, pointer: &Atomic<Small>, turns: u64) -> u64 {
        let mut done: u64 = 0;
        for word in 0..turns {
            if self.put(pointer, word) {
                done = done.wrapping_add(1);
            }
        }
        done
    }
}

impl<'q, 's, J: PostSet + Send + Sync> Side for ShownValue<'q, 's, J> {
    type Own = LentOwn<'q, 's, J, Small>;

    fn join(&self) -> Option<LentOwn<'q, 's, J, Small>> {
        LentOwn::join(self.alloc, self.store)
    }

    fn turns<R: Clock + Wait>(
        &self,
        _rt: &R,
        own: &mut LentOwn<'q, 's, J, Small>,
        part: RoundPart,
    ) -> u64 {
        match self.row {
            ValueRow::Renewed => {
                renewed_reads(&self.pointer, &mut own.session, &mut own.writer, part)
            }
            ValueRow::Pinned => own.pinned_reads(&self.pointer, part),
            ValueRow::Together => own.reads_together(&self.pointer, part),
            ValueRow::Replace { .. } => own.replaces(&self.pointer, part.turns),
        }
    }

    fn leave<R: Wait>(&self, rt: &R, own: LentOwn<'q, 's, J, Small>) {
        own.leave(rt);
    }
}

impl ValueRow {
    /// How many cells the store has.
    fn cells(self) -> u32 {
        match self {
            ValueRow::Replace { cells } => cells,
            _ => 4_096,
        }
    }
}

fn rounds_in<R: Clock + Threads + Wait + Sync, J: PostSet + Send + Sync>(
    rt: &R,
    alloc: Global,
    plan: RoundPlan,
    row: ValueRow,
    store: &Store<'_, J, Small>,
    times: &mut [Nanos],
) -> u64 {
    let pointer = Atomic::null();
    let shown = ShownValue {
        alloc,
        store,
        pointer,
        row,
    };
    if let Some(own) = LentOwn::join(alloc, store) {
        let mut filling = own;
        filling.put(&shown.pointer, 1);
        filling.leave(rt);
    }
    all_rounds(rt, plan, &shown, times)
}

fn rounds_over<R: Clock + Threads + Wait + Sync, J: PostSet + Send + Sync>(
    rt: &R,
    alloc: Global,
    made: Made,
    plan: RoundPlan,
    row: ValueRow,
    times: &mut [Nanos],
) -> io::Result<u64>
    requires { made.posts.items ≡ J.posts }
{
    let domain = Domain::new(Posts::<J>::of(alloc, made)?);
    let mut cells = cells_in(alloc, row.cells(), row.cells(), &domain)?;
    let store = store_of(alloc, &domain, &mut cells)?;
    let done = rounds_in(rt, alloc, plan, row, &store, times);
    let _ = store.end();
    Ok(done)
}

/// Makes as many rounds as there are times, and returns how many turns of the last one did what they should.
pub fn rounds<R: Clock + Threads + Wait + Sync>(
    rt: &R,
    alloc: Global,
    plan: RoundPlan,
    row: ValueRow,
    times: &mut [Nanos],
) -> io::Result<u64> {
    let made = made_for(alloc, plan)?;
    rounds_over::<R, Brand>(rt, alloc, made, plan, row, times)
}
