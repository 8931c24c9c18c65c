//! Does the work of each row that compares this library with what a user would pick instead, and times it.
//!
//! `ROW SIDE THREADS TURNS ROUNDS` prints how many turns of the last round did what they should, how many there were,
//! and the nanoseconds that a turn of each round took. With no word it makes a short round of most rows on one thread
//! and prints these counts alone. `growth THREADS VALUES` has one thread place so many values, in a store that begins
//! with 64 cells, while the others read them. `maps COUNT` makes so many maps, one after another, and ends them.
#![tactic(auto)]

mod draw;
mod ended;
mod growth;
mod kit;
mod lent;
mod lent_lines;
mod lent_maps;
mod lent_ordered;
mod lent_values;
mod rows;
mod side;
mod small;
mod stopwatch;
mod table;

use side::RoundPlan;
use std::{env, io};

/// Turns of a short round.
const FEW: u64 = 2_048;

fn main(rt: HostRuntime) -> io::Result<()> {
    let alloc = rt.alloc();
    let mut words = Vec::new(alloc);
    for word in env::args(&rt)? {
        words.push(word)?;
    }
    let number = |at: usize, usual: u64| match words.get(at) {
        Some(word) => word.as_str().parse().unwrap_or(usual),
        None => usual,
    };
    let plan = RoundPlan {
        threads: number(3, 1),
        turns: number(4, FEW),
    };
    match (words.get(1), words.get(2)) {
        (Some(row), Some(_)) if row.as_str() == "growth" => {
            let (threads, turns) = (number(2, 1), number(3, FEW));
            growth::grow(&rt, alloc, RoundPlan { threads, turns })
        }
        (Some(row), Some(_)) if row.as_str() == "maps" => {
            ended::end_maps(&rt, alloc, number(2, 1))
        }
        (Some(row), Some(side)) => {
            table::time(&rt, alloc, plan, row.as_str(), side.as_str(), number(5, 1))
        }
        _ => {
            table::count(&rt, alloc, plan)?;
            growth::grow(&rt, alloc, plan)
        }
    }
}
