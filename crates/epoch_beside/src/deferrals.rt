//! Rounds of boxed functions that are deferred, on one thread.
use crate::counted::collector_for;
use crate::counted_idle::CountedIdle;
use crate::rounds::RoundSize;
use crate::timer::RoundTimer;
use epoch::{Collector, Work as Function};
use std::alloc::{AllocError, Global};
use std::io;
use std::sync::Wait;
use std::time::Clock;

/// How functions are deferred.
#[derive(Clone, Copy)]
pub enum DeferRow {
    /// 64 under one guard, which flushes.
    Together,
    /// Each under a pin of its own, and a flush for each 64.
    Apart,
}

/// Makes one round.
fn defer_round<R: Clock + Wait>(
    rt: &R,
    collector: &Collector<u64>,
    row: DeferRow,
    turns: u64,
    functions: &mut Vec<Function>,
    timer: &RoundTimer,
) {
    let mut idle = CountedIdle::register(collector);
    let start = timer.begin(rt, 1);
    let done = match &mut idle {
        Some(idle) => match row {
            DeferRow::Together => idle.defers(functions, turns),
            DeferRow::Apart => idle.defers_apart(functions, turns),
        },
        None => 0,
    };
    timer.end(rt, 1, start, done);
    if let Some(idle) = idle {
        idle.leave(rt);
    }
}

fn rounds_on<R: Clock + Wait>(
    rt: &R,
    collector: &Collector<u64>,
    row: DeferRow,
    turns: u64,
    functions: &mut Vec<Function>,
    times: &mut [u64],
) -> u64 {
    let mut done = 0;
    for time in times {
        let timer = RoundTimer::new();
        defer_round(rt, collector, row, turns, functions, &timer);
        *time = timer.each(turns);
        done = timer.done();
    }
    done
}

/// Makes rounds of deferrals, however many threads the size says.
pub fn rounds<R: Clock + Wait>(
    rt: &R,
    alloc: Global,
    size: RoundSize,
    row: DeferRow,
    participants: u32,
    times: &mut [u64],
) -> io::Result<u64> {
    let mut functions = Vec::new(alloc);
    for number in 0..size.turns.saturating_mul(times.len() as u64) {
        // It has a number, as the original's functions have, so that the box takes memory.
        let run = Box::new(alloc, move || {
            let _ = number;
        })?;
        functions.push(Function { run }).map_err(|_| AllocError)?;
    }
    let collector = collector_for(alloc, size, participants)?;
    let done = rounds_on(rt, &collector, row, size.turns, &mut functions, times);
    collector.end();
    Ok(done)
}
