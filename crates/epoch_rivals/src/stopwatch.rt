//! The time of a round of several threads, which begin together: that of the slowest one.
use std::fmt::Display;
use std::sync::Wait;
use std::sync::atomic::AtomicU64;
use std::sync::atomic::Ordering::SeqCst;
use std::time::{Clock, Instant};
use std::{fmt, io};

/// A time in hundredths of a nanosecond, which is printed in nanoseconds.
#[derive(Clone, Copy)]
pub struct Nanos(pub u64);

impl Display for Nanos {
    fn fmt<W: fmt::Write>(&self, f: &mut fmt::Formatter<W>) -> fmt::Result {
        write!(f, "{}.{:02}", self.0 / 100, self.0 % 100)
    }
}

/// What the threads of a round tell one another.
#[derive(Drop)]
pub struct Stopwatch {
    ready: AtomicU64,
    ended: AtomicU64,
    /// The longest time of a thread, in nanoseconds.
    longest: AtomicU64,
    done: AtomicU64,
}

impl Stopwatch {
    pub fn new() -> Stopwatch {
        Stopwatch {
            ready: AtomicU64::new(0),
            ended: AtomicU64::new(0),
            longest: AtomicU64::new(0),
            done: AtomicU64::new(0),
        }
    }

    /// Waits until that many threads are here, and returns the time.
    pub fn begin<R: Clock + Wait>(&self, rt: &R, threads: u64) -> io::Result<Instant> {
        arrive(rt, &self.ready, threads);
        Instant::now(rt)
    }

    /// Tells how long this thread took, and waits until that many have ended their work.
    pub fn end<R: Clock + Wait>(
        &self,
        rt: &R,
        threads: u64,
        start: io::Result<Instant>,
        done: u64,
    ) {
        self.longest.fetch_max(since(rt, start), SeqCst);
        self.done.fetch_add(done, SeqCst);
        arrive(rt, &self.ended, threads);
    }

    /// Stands for a thread that wasn't made.
    pub fn miss(&self) {
        self.ready.fetch_add(1, SeqCst);
        self.ended.fetch_add(1, SeqCst);
    }

    /// Turns of all threads that did what they should.
    pub fn done(&self) -> u64 {
        self.done.load(SeqCst)
    }

    /// The time of each of that many turns.
    pub fn each(&self, turns: u64) -> Nanos {
        Nanos(self.longest.load(SeqCst).saturating_mul(100) / turns.max(1))
    }
}

/// Returns the nanoseconds since then. A clock that fails makes them as many as can be.
pub fn since<R: Clock>(rt: &R, start: io::Result<Instant>) -> u64 {
    let elapsed = match start {
        Ok(start) => start.elapsed(rt),
        Err(error) => Err(error),
    };
    match elapsed {
        Ok(time) => u64::try_from(time.as_nanos()).unwrap_or(u64::MAX),
        Err(_) => u64::MAX,
    }
}

fn arrive<R: Wait>(rt: &R, count: &AtomicU64, threads: u64) {
    count.fetch_add(1, SeqCst);
    for _ in rt.forever() {
        if count.load(SeqCst) >= threads {
            return;
        }
    }
    unreachable!()
}
