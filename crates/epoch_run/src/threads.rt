//! `epoch-run threads N K`: N threads that pin, defer, flush and unpin over one collector, K times each.
ghost use Rattle.std.specs.Prelude.{◌≡◌};

use epoch_bags::Job;
use epoch_handles::{Capacities, Collector, LocalHandle};
use epoch_script::Size;
use std::alloc::{AllocError, Global};
use std::sync::Wait;
use std::sync::atomic::{AtomicBool, Ordering};
use std::thread;
use std::thread::Threads;

/// A whole run: makes the collector, has all threads come and go, and ends it. `false` where anything was refused.
pub fn come_and_go<R: Threads + Wait + Sync>(
    rt: &R,
    alloc: Global,
    size: Size,
    jobs: Vec<Job>,
) -> bool {
    let Ok(shares) = shared_out(alloc, size, jobs) else {
        return false;
    };
    let capacities = Capacities::usual(size.threads as u32, 0, size.jobs() as u32);
    let collector: Collector<u64> = match Collector::new(alloc, capacities, 0) {
        Ok(collector) => collector,
        Err(_) => return false,
    };
    let refused = AtomicBool::new(false);
    start_all(rt, &collector, shares, &refused);
    let _ = collector.end();
    !refused.load(Ordering::SeqCst)
}

/// The jobs of each thread.
fn shared_out(alloc: Global, size: Size, jobs: Vec<Job>) -> Result<Vec<Vec<Job>>, AllocError> {
    let mut jobs = jobs;
    let mut shares = Vec::new(alloc);
    for _ in 0..size.threads {
        let rest = jobs.len().saturating_sub(size.rounds as usize);
        shares.push(jobs.split_off(rest)?)?;
    }
    Ok(shares)
}

/// Starts a thread for each share, and comes back when all of them are done.
fn start_all<R: Threads + Wait + Sync>(
    rt: &R,
    collector: &Collector<u64>,
    shares: Vec<Vec<Job>>,
    refused: &AtomicBool,
) {
    thread::scope(thread::scope_env(), rt, move |scope| {
        for share in shares {
            let started = scope.spawn(move || participate(rt, collector, share, refused));
            if started.is_err() {
                refused.store(true, Ordering::SeqCst);
            }
        }
    });
}

/// One thread: registers, does a round for each job, and releases. Sets `refused` where anything was.
fn participate<R: Wait>(rt: &R, collector: &Collector<u64>, jobs: Vec<Job>, refused: &AtomicBool) {
    let Ok(mut handle) = collector.register() else {
        refused.store(true, Ordering::SeqCst);
        return;
    };
    for job in jobs {
        if !go_round(&mut handle, job) {
            refused.store(true, Ordering::SeqCst);
        }
    }
    leave(rt, handle);
}

/// Releases the participant, and tries again for as long as its held bag finds no place.
pub fn leave<T: Drop, R: Wait>(rt: &R, handle: LocalHandle<'_, T>)
    requires { handle.machine.guards ≡ 0 }
{
    let mut staying = handle;
    for _ in rt.forever() {
        match staying.release() {
            Ok(()) => return,
            Err((handle, _)) => staying = handle,
        }
    }
    unreachable!()
}

/// Pins, defers the job, flushes and unpins. `false` where the job or the held bag found no place.
fn go_round(handle: &mut LocalHandle<'_, u64>, job: Job) -> bool
    requires { handle.old.machine.guards ≡ 0 }
    ensures { handle.new.machine.guards ≡ 0 }
{
    let guard = handle.pin();
    let deferred = handle.defer(&guard, job).is_ok();
    let flushed = handle.flush(&guard).is_ok();
    handle.unpin(guard);
    deferred && flushed
}
