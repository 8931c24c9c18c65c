//! A structure on which all threads of a run push and pop.

use crate::tally::Tally;
use epoch_script::Size;
use std::alloc::Global;
use std::sync::Wait;
use std::thread;
use std::thread::Threads;

/// A structure that the threads of a run share, beside what they register with.
///
/// That is a parameter, `C`, so that each of the two is shown by itself to be what threads may share: both at once,
/// beside all else that a thread takes, are more than the checker finds by itself.
pub trait Structure<C: Sync>: Sync {
    /// One thread: pushes this many values from the first one on, each with a pop after it.
    fn take_part<R: Wait>(
        &self,
        rt: &R,
        alloc: Global,
        registry: &C,
        values: (u64, u64),
        tally: &Tally,
    );
}

/// Starts all threads, and comes back when they are done.
pub fn start_all<R: Threads + Wait + Sync, C: Sync, S: Structure<C>>(
    rt: &R,
    alloc: Global,
    registry: &C,
    structure: &S,
    size: Size,
    tally: &Tally,
) {
    thread::scope(thread::scope_env(), rt, move |scope| {
        for thread in 0..size.threads {
            // At most 63 times 64.
            let values = (thread.wrapping_mul(size.rounds), size.rounds);
            let started = scope.spawn(move || structure.take_part(
                rt, alloc, registry, values, tally,
            ));
            if started.is_err() {
                tally.refuse();
            }
        }
    });
}
