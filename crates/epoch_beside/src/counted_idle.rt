//! Participants that are not pinned between two calls, and what each row does with one.
ghost use Rattle.std.specs.Prelude.{◌≡◌, ℕ};

use crate::guarded::{
    defer_calls, exchange, flush_again, load, pin_under, pin_with_room, place, read, repin_again,
    replace, replace_cas, replace_store,
};
use epoch::atomic::Atomic;
use epoch::{Collector, LocalHandle, Work as Function};
use std::alloc::Global;
use std::sync::Wait;

/// Jobs that are deferred under one guard: as many as a bag takes.
const JOBS: u64 = 64;

/// What a turn does.
#[derive(Clone, Copy)]
pub enum CountedWork {
    Pin,
    Nested,
    Repin,
    Flush,
    FlushAgain,
    Load,
    Read,
    ReadOwn,
    PinnedRead,
    Exchange,
    Place,
    Replace,
    ReplaceCas,
    ReplaceStore,
    Replace64,
}

/// A participant with no guard out.
pub struct CountedIdle<'c, T> {
    pub(crate) handle: LocalHandle<'c, T>,
    ghost none: { handle.machine.guards ≡ 0 },
}

impl<'c, T: Drop> CountedIdle<'c, T> {
    /// Registers a participant. `None`: each position is taken.
    pub fn register(collector: &'c Collector<T>) -> Option<CountedIdle<'c, T>> {
        let handle = collector.register().ok()?;
        Some(CountedIdle { handle })
    }

    /// Releases the participant, and tries again for as long as its held bag finds no place.
    pub fn leave<R: Wait>(self, rt: &R) {
        let CountedIdle { handle } = self;
        let mut staying = handle;
        for _ in rt.forever() {
            match staying.release() {
                Ok(()) => return,
                Err((handle, _)) => staying = handle,
            }
        }
        unreachable!()
    }
}

impl<'c> CountedIdle<'c, u64> {
    /// Does this many turns of a row's work, and returns how many did what they should.
    pub fn work(
        &mut self,
        alloc: Global,
        pointer: &Atomic<u64>,
        work: CountedWork,
        turns: u64,
    ) -> u64 {
        match work {
            CountedWork::Pin => self.pins(turns),
            CountedWork::Nested => self.nested(turns),
            CountedWork::Repin => self.repins(turns),
            CountedWork::Flush => self.flushes(turns),
            CountedWork::FlushAgain => self.flushes_again(turns),
            CountedWork::Place => self.places(alloc, turns),
            CountedWork::Load | CountedWork::Read | CountedWork::ReadOwn | CountedWork::Exchange =>
                { self.under_guard(pointer, work, turns) }
            CountedWork::PinnedRead => self.pinned_reads(pointer, turns),
            CountedWork::Replace => self.replaces(alloc, pointer, turns),
            CountedWork::ReplaceCas => self.replaces_cas(alloc, pointer, turns),
            CountedWork::ReplaceStore => self.replaces_store(alloc, pointer, turns),
            CountedWork::Replace64 => self.replaces_64(alloc, pointer, turns),
        }
    }

    /// The rows whose turns share one guard.
    fn under_guard(&mut self, pointer: &Atomic<u64>, work: CountedWork, turns: u64) -> u64 {
        let guard = self.handle.pin();
        let done = match work {
            CountedWork::Load => load(&guard, pointer, turns),
            CountedWork::Exchange => exchange(&guard, pointer, turns),
            _ => read(&guard, pointer, turns),
        };
        self.handle.unpin(guard);
        done
    }

    fn pins(&mut self, turns: u64) -> u64 {
        for _ in 0..turns {
            let guard = self.handle.pin();
            self.handle.unpin(guard);
        }
        turns
    }

    /// Pins and unpins under one pin.
    fn nested(&mut self, turns: u64) -> u64 {
        let outer = self.handle.pin();
        pin_under(&mut self.handle, turns);
        self.handle.unpin(outer);
        turns
    }

    /// Repins one guard.
    fn repins(&mut self, turns: u64) -> u64 {
        let mut guard = self.handle.pin();
        repin_again(&mut self.handle, &mut guard, turns);
        self.handle.unpin(guard);
        turns
    }

    /// Pins, flushes and unpins.
    fn flushes(&mut self, turns: u64) -> u64 {
        let mut done: u64 = 0;
        for _ in 0..turns {
            let guard = self.handle.pin();
            if self.handle.flush(&guard).is_ok() {
                done = done.wrapping_add(1);
            }
            self.handle.unpin(guard);
        }
        done
    }

    /// Flushes under one guard.
    fn flushes_again(&mut self, turns: u64) -> u64 {
        let guard = self.handle.pin();
        let done = flush_again(&mut self.handle, &guard, turns);
        self.handle.unpin(guard);
        done
    }

    /// Pins, defers 64 boxed functions, flushes and unpins. A turn is one function.
    pub fn defers(&mut self, functions: &mut Vec<Function>, turns: u64) -> u64 {
        let mut done: u64 = 0;
        for _ in 0..turns / JOBS {
            let guard = self.handle.pin();
            let deferred = defer_calls(&mut self.handle, &guard, functions, JOBS);
            done = done.wrapping_add(deferred);
            let _ = self.handle.flush(&guard);
            self.handle.unpin(guard);
        }
        self.flushes(3);
        done
    }

    /// Pins, defers one boxed function and unpins, 64 times, and then flushes. A turn is one function.
    pub fn defers_apart(&mut self, functions: &mut Vec<Function>, turns: u64) -> u64 {
        let mut done: u64 = 0;
        for _ in 0..turns / JOBS {
            for _ in 0..JOBS {
                let guard = self.handle.pin();
                let deferred = defer_calls(&mut self.handle, &guard, functions, 1);
                done = done.wrapping_add(deferred);
                self.handle.unpin(guard);
            }
            self.flushes(1);
        }
        self.flushes(3);
        done
    }

    /// Loads of a pointer, each of whose values is read under a pin of its own.
    fn pinned_reads(&mut self, pointer: &Atomic<u64>, turns: u64) -> u64 {
        let mut done: u64 = 0;
        for _ in 0..turns {
            let guard = self.handle.pin();
            done = done.wrapping_add(read(&guard, pointer, 1));
            self.handle.unpin(guard);
        }
        done
    }

    /// Places values and takes them back, under one guard.
    fn places(&mut self, alloc: Global, turns: u64) -> u64 {
        let guard = self.handle.pin();
        let done = place(&guard, alloc, turns);
        self.handle.unpin(guard);
        done
    }

    /// Replaces an object, each under a pin of its own.
    fn replaces(&mut self, alloc: Global, pointer: &Atomic<u64>, turns: u64) -> u64 {
        let mut done: u64 = 0;
        for _ in 0..turns {
            let guard = pin_with_room(&mut self.handle);
            let replaced = replace(&mut self.handle, &guard, alloc, pointer, 1);
            done = done.wrapping_add(replaced);
            self.handle.unpin(guard);
        }
        done
    }

    /// Replaces an object by an exchange, each under a pin of its own.
    fn replaces_cas(&mut self, alloc: Global, pointer: &Atomic<u64>, turns: u64) -> u64 {
        let mut done: u64 = 0;
        for _ in 0..turns {
            let guard = pin_with_room(&mut self.handle);
            let replaced = replace_cas(&mut self.handle, &guard, alloc, pointer);
            done = done.wrapping_add(replaced);
            self.handle.unpin(guard);
        }
        done
    }

    /// Replaces an object by a store, each under a pin of its own, where no other thread stores.
    fn replaces_store(&mut self, alloc: Global, pointer: &Atomic<u64>, turns: u64) -> u64 {
        let mut done: u64 = 0;
        for _ in 0..turns {
            let guard = pin_with_room(&mut self.handle);
            let replaced = replace_store(&mut self.handle, &guard, alloc, pointer);
            done = done.wrapping_add(replaced);
            self.handle.unpin(guard);
        }
        done
    }

    /// Pins, replaces 64 objects, flushes and unpins. A turn is one object.
    fn replaces_64(&mut self, alloc: Global, pointer: &Atomic<u64>, turns: u64) -> u64 {
        let mut done: u64 = 0;
        for _ in 0..turns / JOBS {
            let guard = pin_with_room(&mut self.handle);
            let replaced = replace(&mut self.handle, &guard, alloc, pointer, JOBS);
            done = done.wrapping_add(replaced);
            let _ = self.handle.flush(&guard);
            self.handle.unpin(guard);
        }
        done
    }
}
