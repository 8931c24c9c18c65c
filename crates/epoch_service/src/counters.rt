//! What the threads count.
use std::fmt;
use std::sync::atomic::AtomicU64;
use std::sync::atomic::Ordering::SeqCst;

/// Readings of the configuration, entries of the cache, jobs, and what went wrong.
#[derive(Default, Drop)]
pub struct Counters {
    pub reads: AtomicU64,
    pub torn: AtomicU64,
    pub replaced: AtomicU64,
    pub inserted: AtomicU64,
    pub found: AtomicU64,
    pub removed: AtomicU64,
    pub room: AtomicU64,
    pub jobs: AtomicU64,
    pub sum: AtomicU64,
    pub wrong: AtomicU64,
}

/// Adds one.
pub fn count(counter: &AtomicU64) {
    counter.fetch_add(1, SeqCst);
}

impl fmt::Display for Counters {
    fn fmt<F: fmt::Write>(&self, f: &mut fmt::Formatter<F>) -> fmt::Result {
        let of = |counter: &AtomicU64| counter.load(SeqCst);
        let (reads, torn, replaced) = (of(&self.reads), of(&self.torn), of(&self.replaced));
        writeln!(f, "config: {reads} reads, {torn} torn, {replaced} replaced")?;
        let (inserted, found, removed) = (of(&self.inserted), of(&self.found), of(&self.removed));
        let room = of(&self.room);
        write!(
            f,
            "cache: {inserted} inserted, {found} found, {removed} removed"
        )?;
        writeln!(f, ", room for {room} more")?;
        let (jobs, sum, wrong) = (of(&self.jobs), of(&self.sum), of(&self.wrong));
        write!(f, "jobs: {jobs} received, sum {sum}; {wrong} wrong")
    }
}
