//! A list of numbers, each of which can be crossed out: a mark in a pointer's tag, and a walk of a bounded length.
ghost use Rattle.std.specs.Prelude.{◌≡◌, refl};
ghost use Rattle.std.proofs.Common.{lit≤};

use epoch::{Atomic, Collector, ExchangeFault, Fault, Guard, Owned, Pointable, unprotected};
use std::alloc::Global;
use std::sync::atomic::Ordering::SeqCst;

/// A number and the pointer to the entry behind it. The tag of that pointer says whether the number is crossed out.
#[derive(Drop)]
pub struct CrossedEntry {
    number: u64,
    next: Atomic<CrossedEntry>,
}

/// The tag of a pointer whose entry is crossed out.
const MARK: usize = 1;

impl Pointable for CrossedEntry {
    ghost ALIGN = { 2 };

    ghost log = { 1 };

    ghost is_power = { refl };

    ghost is_small = { lit≤ tt };

    const ALIGN: usize = 2;

    type Init = CrossedEntry;

    ghost init_gives = { λ init entry. entry ≡ init };

    fn init(_alloc: Global, init: CrossedEntry) -> Result<CrossedEntry, Fault> {
        Ok(init)
    }
}

/// A list that threads share, of entries in the cells of one collector.
#[derive(Drop)]
pub struct List {
    first: Atomic<CrossedEntry>,
}

impl List {
    /// Makes an empty list.
    pub fn new() -> List {
        List {
            first: Atomic::null(),
        }
    }

    /// Puts the number before all others, in at most `tries` tries.
    ///
    /// `NoMemory`, `CellsFull` or `TriesOut`: nothing was put, and no cell is taken.
    pub fn put(
        &self,
        alloc: Global,
        number: u64,
        guard: &Guard<'_, CrossedEntry>,
        tries: u32,
    ) -> Result<(), Fault> {
        let next = Atomic::null();
        let mut entry = Owned::new(alloc, CrossedEntry { number, next })?;
        let mut first = self.first.load(SeqCst, guard);
        for _ in 0..tries {
            // No other thread can reach the entry before the exchange is won.
            entry.next = Atomic::from(first);
            match self
                .first
                .compare_exchange(first, entry, SeqCst, SeqCst, guard)
            {
                Ok(_) => return Ok(()),
                Err(ExchangeFault::Changed(lost)) => {
                    first = lost.current;
                    entry = lost.new;
                }
                Err(ExchangeFault::Full(_)) => return Err(Fault::CellsFull),
                // Only a thread that guesses names could hold the entry.
                Err(ExchangeFault::Stuck(_)) => return Err(Fault::TriesOut),
            }
        }
        Err(Fault::TriesOut)
    }

    /// Crosses the number out where it stands first, in a walk of at most `steps` entries, and returns whether this
    /// call did it: of several threads that cross out one entry, exactly one is told `true`.
    ///
    /// `TriesOut`: the walk ended before the list did, or an entry wasn't lent for reading.
    pub fn cross_out(
        &self,
        number: u64,
        guard: &Guard<'_, CrossedEntry>,
        steps: u32,
    ) -> Result<bool, Fault> {
        let mut at = self.first.load(SeqCst, guard);
        for _ in 0..steps {
            if at.is_null() {
                return Ok(false);
            }
            let Some(reading) = at.deref() else {
                return Err(Fault::TriesOut);
            };
            let entry = reading.get();
            if entry.number == number {
                let before = entry.next.fetch_or(MARK, SeqCst, guard);
                reading.leave();
                return Ok(before.tag() != MARK);
            }
            at = entry.next.load(SeqCst, guard).with_tag(0);
            reading.leave();
        }
        Err(Fault::TriesOut)
    }

    /// Takes the list apart when no other thread uses it any more, and returns how many numbers aren't crossed out.
    pub fn take_apart(self, collector: &Collector<CrossedEntry>) -> u64 {
        let guard = unprotected(collector);
        let List { first } = self;
        let mut at = first;
        let mut left: u64 = 0;
        for _ in 0..u64::MAX {
            let Some(owned) = at.into_owned(&guard) else {
                break;
            };
            let CrossedEntry { number: _, next } = Box::into_inner(owned.into_box());
            if next.load(SeqCst, &guard).tag() != MARK {
                left = left.wrapping_add(1);
            }
            at = next;
        }
        if let Err(_guard) = guard.let_go() {
            unreachable!();
        }
        left
    }
}
