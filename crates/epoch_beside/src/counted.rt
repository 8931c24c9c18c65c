//! Rounds on a collector whose values are read by counts.
use crate::counted_idle::{CountedIdle, CountedWork};
use crate::rounds::{Round, RoundSize, all_rounds, take_part};
use crate::timer::RoundTimer;
use epoch::atomic::Atomic;
use epoch::{Capacities, Collector, unprotected};
use std::alloc::Global;
use std::sync::Wait;
use std::thread::Threads;
use std::time::Clock;
use std::{io, thread};

/// Cells of a collector.
const CELLS: u32 = 4_096;

/// Places for bags of a collector.
const PLACES: u32 = 16;

/// The value that stands behind a pointer at first.
pub const FIRST: u64 = 7;

/// Makes a collector for at least that many participants, and for each thread of the round.
pub fn collector_for<T: Drop>(
    alloc: Global,
    size: RoundSize,
    participants: u32,
) -> io::Result<Collector<T>> {
    let threads = u32::try_from(size.threads).unwrap_or(u32::MAX);
    let capacities = Capacities::usual(participants.max(threads), CELLS, PLACES);
    if !capacities.is_valid() {
        return Err(io::Error::from(io::ErrorKind::InvalidInput));
    }
    match Collector::new(alloc, capacities, 1) {
        Ok(collector) => Ok(collector),
        Err(_) => Err(io::Error::from(io::ErrorKind::OutOfMemory)),
    }
}

/// Makes a pointer to a value that is placed in a cell, or null.
fn pointer_to(alloc: Global, collector: &Collector<u64>) -> Atomic<u64> {
    let guard = unprotected(collector);
    let made = Atomic::new(alloc, FIRST, &guard);
    if let Err(_guard) = guard.let_go() {
        unreachable!();
    }
    match made {
        Ok(pointer) => pointer,
        Err(_) => Atomic::null(),
    }
}

/// What the threads of a round share.
#[derive(Drop)]
struct CountedRound<'c, 'w> {
    alloc: Global,
    collector: &'c Collector<u64>,
    pointer: &'w Atomic<u64>,
    work: CountedWork,
}

/// What one thread has.
struct CountedPart<'c> {
    idle: CountedIdle<'c, u64>,
    /// A pointer of its own, or null where the work needs none.
    own: Atomic<u64>,
}

/// Returns the pointer that the work is on: the thread's own, or the one that all threads share.
fn pointer_for<'p>(
    work: CountedWork,
    own: &'p Atomic<u64>,
    shared: &'p Atomic<u64>,
) -> &'p Atomic<u64> {
    match work {
        CountedWork::ReadOwn => own,
        _ => shared,
    }
}

impl<'c, 'w> Round for CountedRound<'c, 'w> {
    type Participant = CountedPart<'c>;

    fn register(&self) -> Option<CountedPart<'c>> {
        let own = match self.work {
            CountedWork::ReadOwn => pointer_to(self.alloc, self.collector),
            _ => Atomic::null(),
        };
        let idle = CountedIdle::register(self.collector)?;
        Some(CountedPart { idle, own })
    }

    fn turns<R: Wait>(&self, _rt: &R, part: &mut CountedPart<'c>, turns: u64) -> u64 {
        let pointer = pointer_for(self.work, &part.own, self.pointer);
        part.idle.work(self.alloc, pointer, self.work, turns)
    }

    fn leave<R: Wait>(&self, rt: &R, part: CountedPart<'c>) {
        let CountedPart { idle, own: _ } = part;
        idle.leave(rt);
    }
}

/// One thread's part of a round.
fn take_counted_part<R: Clock + Wait>(
    rt: &R,
    alloc: Global,
    size: RoundSize,
    collector: &Collector<u64>,
    pointer: &Atomic<u64>,
    work: CountedWork,
    timer: &RoundTimer,
) {
    let round = CountedRound {
        alloc,
        collector,
        pointer,
        work,
    };
    take_part(rt, size, &round, timer);
}

/// What the threads of a round do with a collector and with what else they share.
///
/// The two are parameters, so that each is shown by itself to be what threads may share: both at once, beside all else
/// that a thread takes, are more than the checker finds by itself.
trait Shared<C: Sync>: Sync {
    /// Does one thread's work.
    fn take_part<R: Clock + Wait>(
        &self,
        rt: &R,
        alloc: Global,
        size: RoundSize,
        collector: &C,
        timer: &RoundTimer,
    );
}

/// The pointer of a row, and what is done with it.
#[derive(Drop)]
struct PointerWork<'w> {
    pointer: &'w Atomic<u64>,
    work: CountedWork,
}

impl<'w> Shared<Collector<u64>> for PointerWork<'w> {
    fn take_part<R: Clock + Wait>(
        &self,
        rt: &R,
        alloc: Global,
        size: RoundSize,
        collector: &Collector<u64>,
        timer: &RoundTimer,
    ) {
        take_counted_part(rt, alloc, size, collector, self.pointer, self.work, timer);
    }
}

fn on_threads<R: Clock + Threads + Wait + Sync, C: Sync, S: Shared<C>>(
    rt: &R,
    alloc: Global,
    size: RoundSize,
    collector: &C,
    shared: &S,
    timer: &RoundTimer,
) {
    thread::scope(thread::scope_env(), rt, move |scope| {
        for _ in 0..size.threads {
            let made = scope.spawn(move || shared.take_part(rt, alloc, size, collector, timer));
            if made.is_err() {
                timer.miss();
            }
        }
    });
}

fn rounds_on<R: Clock + Threads + Wait + Sync>(
    rt: &R,
    alloc: Global,
    size: RoundSize,
    collector: &Collector<u64>,
    work: CountedWork,
    times: &mut [u64],
) -> u64 {
    let pointer = pointer_to(alloc, collector);
    let shared = PointerWork {
        pointer: &pointer,
        work,
    };
    let mut done = 0;
    for time in times {
        let timer = RoundTimer::new();
        if size.threads == 1 {
            shared.take_part(rt, alloc, size, collector, &timer);
        } else {
            on_threads(rt, alloc, size, collector, &shared, &timer);
        }
        *time = timer.each(size.turns);
        done = timer.done();
    }
    done
}

/// Makes rounds of work on one pointer.
pub fn rounds<R: Clock + Threads + Wait + Sync>(
    rt: &R,
    alloc: Global,
    size: RoundSize,
    work: CountedWork,
    participants: u32,
    times: &mut [u64],
) -> io::Result<u64> {
    let collector = collector_for(alloc, size, participants)?;
    let done = rounds_on(rt, alloc, size, &collector, work, times);
    collector.end();
    Ok(done)
}

/// The collector at which the threads of a round register.
#[derive(Drop)]
struct RegisterRound<'c> {
    collector: &'c Collector<u64>,
}

impl<'c> Round for RegisterRound<'c> {
    type Participant = ();

    fn register(&self) -> Option<()> {
        Some(())
    }

    fn turns<R: Wait>(&self, rt: &R, _none: &mut (), turns: u64) -> u64 {
        let mut done: u64 = 0;
        for _ in 0..turns {
            if let Some(idle) = CountedIdle::register(self.collector) {
                idle.leave(rt);
                done = done.wrapping_add(1);
            }
        }
        done
    }

    fn leave<R: Wait>(&self, _rt: &R, _none: ()) {}
}

/// Makes rounds of registrations and releases.
pub fn register_rounds<R: Clock + Threads + Wait + Sync>(
    rt: &R,
    alloc: Global,
    size: RoundSize,
    participants: u32,
    times: &mut [u64],
) -> io::Result<u64> {
    let collector = collector_for(alloc, size, participants)?;
    let round = RegisterRound {
        collector: &collector,
    };
    let done = all_rounds(rt, size, &round, times);
    collector.end();
    Ok(done)
}
