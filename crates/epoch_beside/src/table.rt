//! What is printed of the rows.
use crate::rounds::RoundSize;
use crate::rows::{ROWS, RowWork};
use crate::timer::Hundredths;
use crate::{changes, counted, counted_stack, deferrals, looks};
use std::alloc::Global;
use std::io;
use std::sync::Wait;
use std::thread::Threads;
use std::time::Clock;

/// Makes as many rounds as there are times, and returns how many turns of the last one did what they should.
fn rounds<R: Clock + Threads + Wait + Sync>(
    rt: &R,
    alloc: Global,
    size: RoundSize,
    work: RowWork,
    participants: u32,
    times: &mut [u64],
) -> io::Result<u64> {
    match work {
        RowWork::Counted(work) => counted::rounds(rt, alloc, size, work, participants, times),
        RowWork::Defer(row) => deferrals::rounds(rt, alloc, size, row, participants, times),
        RowWork::CountedStack => counted_stack::rounds(rt, alloc, size, participants, times),
        RowWork::Register => counted::register_rounds(rt, alloc, size, participants, times),
        RowWork::Look(row) => looks::rounds(rt, alloc, size, row, times),
        RowWork::Link(row) => changes::rounds(rt, alloc, size, row, times),
    }
}

/// Makes the rounds of the row of this name.
fn rounds_of<R: Clock + Threads + Wait + Sync>(
    rt: &R,
    alloc: Global,
    size: RoundSize,
    name: &str,
    times: &mut [u64],
) -> io::Result<u64> {
    for (row, work, participants) in ROWS {
        if row == name {
            return rounds(rt, alloc, size, work, participants, times);
        }
    }
    Err(io::Error::from(io::ErrorKind::InvalidInput))
}

/// Prints the least and the middle time of that many rounds, in nanoseconds a turn, and how many turns of the last one
/// did what they should.
pub fn time<R: Clock + Print + Threads + Wait + Sync>(
    rt: &R,
    alloc: Global,
    size: RoundSize,
    name: &str,
    count: u64,
) -> io::Result<()> {
    let mut times = Vec::new(alloc);
    for _ in 0..count {
        times.push(0)?;
    }
    let done = rounds_of(rt, alloc, size, name, &mut times)?;
    times.sort_unstable();
    let (Some(least), Some(middle)) = (times.first(), times.get(times.len() / 2)) else {
        return Ok(());
    };
    let (least, middle) = (Hundredths(*least), Hundredths(*middle));
    let RoundSize { threads, turns } = size;
    println!(rt;
        "{name} {threads} {least} {middle} {done} of {}",
        turns.saturating_mul(threads)
    )
}

/// Makes a round of each row, and prints how many turns did what they should.
pub fn count<R: Clock + Print + Threads + Wait + Sync>(
    rt: &R,
    alloc: Global,
    size: RoundSize,
) -> io::Result<()> {
    for (name, work, participants) in ROWS {
        let done = rounds(rt, alloc, size, work, participants, &mut [0])?;
        println!(rt; "{name}: {done} of {}", size.turns)?;
    }
    Ok(())
}
