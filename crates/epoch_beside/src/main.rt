//! Does the work of each row of the comparison with crossbeam-epoch, and times it.
//!
//! `NAME THREADS TURNS ROUNDS` prints the least and the middle time of that many rounds, in nanoseconds a turn, and how
//! many turns of the last round did what they should. `replacing THREADS TURNS` has this many threads read, replace and
//! retire values that are lent, and prints how many values were placed, dropped, read, and read torn, and how many
//! cells were free in the end. With no word it makes a short round of each row on one thread and prints these counts
//! alone, and has two threads replace values.
#![tactic(auto)]

mod changes;
mod counted;
mod counted_idle;
mod counted_stack;
mod deferrals;
mod guarded;
mod lent;
mod looks;
mod replacing;
mod rounds;
mod rows;
mod table;
mod timer;

use lent::CELLS;
use rounds::RoundSize;
use std::alloc::Global;
use std::sync::Wait;
use std::thread::Threads;
use std::time::Clock;
use std::{env, io};

/// Turns of a short round.
const FEW: u64 = 1_280;

fn main(rt: HostRuntime) -> io::Result<()> {
    let alloc = rt.alloc();
    let mut words = Vec::new(alloc);
    for word in env::args(&rt)? {
        words.push(word)?;
    }
    let number = |at: usize, usual: u64| match words.get(at) {
        Some(word) => word.as_str().parse().unwrap_or(usual),
        None => usual,
    };
    let size = RoundSize {
        threads: number(2, 1),
        turns: number(3, FEW),
    };
    match words.get(1) {
        None => short(&rt, alloc),
        Some(word) => match word.as_str() {
            "replacing" => {
                let told = replacing::run(&rt, alloc, size)?;
                println!(&rt;
                    "placed {}, dropped {}, read {}, torn {}, cells free in the end {} of {}",
                    told.placed, told.dropped, told.reads, told.torn, told.free, CELLS
                )
            }
            name => table::time(&rt, alloc, size, name, number(4, 1)),
        },
    }
}

fn short<R: Clock + Print + Threads + Wait + Sync>(rt: &R, alloc: Global) -> io::Result<()> {
    let size = RoundSize {
        threads: 1,
        turns: FEW,
    };
    table::count(rt, alloc, size)?;
    let size = RoundSize {
        threads: 2,
        turns: 100,
    };
    let told = replacing::run(rt, alloc, size)?;
    println!(rt;
        "{} values were torn, {} weren't dropped, and {} cells weren't free",
        told.torn,
        told.placed.wrapping_sub(told.dropped),
        u64::from(CELLS).wrapping_sub(told.free)
    )
}
