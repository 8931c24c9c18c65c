//! What is printed of the rows.
use crate::lent_maps::MapRow;
use crate::rows::{SIDES, SideWork};
use crate::side::RoundPlan;
use crate::stopwatch::Nanos;
use crate::{kit, lent_lines, lent_maps, lent_ordered, lent_values};
use std::alloc::Global;
use std::io;
use std::sync::Wait;
use std::thread::Threads;
use std::time::Clock;

/// Makes as many rounds as there are times, and returns how many turns of the last one did what they should.
fn rounds<R: Clock + Threads + Wait + Sync>(
    rt: &R,
    alloc: Global,
    plan: RoundPlan,
    work: SideWork,
    times: &mut [Nanos],
) -> io::Result<u64> {
    match work {
        SideWork::LentValue(row) => lent_values::rounds(rt, alloc, plan, row, times),
        SideWork::LentPair(row) => lent_lines::rounds(rt, alloc, plan, row, times),
        SideWork::LentFew => lent_maps::rounds(rt, alloc, plan, MapRow::FewLooks, times),
        SideWork::LentMap => lent_maps::rounds(rt, alloc, plan, MapRow::Looks, times),
        SideWork::LentGrown => lent_maps::rounds(rt, alloc, plan, MapRow::GrownLooks, times),
        SideWork::LentTogether => {
            lent_maps::rounds(rt, alloc, plan, MapRow::LooksTogether, times)
        }
        SideWork::LentZipfian => { lent_maps::rounds(rt, alloc, plan, MapRow::ZipfianLooks, times) }
        SideWork::LentMix => lent_maps::rounds(rt, alloc, plan, MapRow::Changes, times),
        SideWork::LentMany => lent_maps::rounds(rt, alloc, plan, MapRow::ManyLooks, times),
        SideWork::LentOrdered(row) => lent_ordered::rounds(rt, alloc, plan, row, times),
        SideWork::KitRead => Ok(kit::read_rounds(rt, plan, times)),
        SideWork::KitQueue => kit::queue_rounds(rt, alloc, plan, times),
        SideWork::KitFew => kit::map_rounds::<1_000, 1_000, 0, R>(rt, alloc, plan, times),
        SideWork::KitMap => kit::map_rounds::<100_000, 100_000, 0, R>(rt, alloc, plan, times),
        SideWork::KitZipfian => kit::map_rounds::<100_000, 100_000, 15, R>(rt, alloc, plan, times),
        SideWork::KitMix => kit::map_rounds::<100_000, 200_000, 0, R>(rt, alloc, plan, times),
        SideWork::KitMany => kit::map_rounds::<1_000_000, 1_000_000, 0, R>(rt, alloc, plan, times),
    }
}

/// Makes the rounds of a row's side.
fn rounds_of<R: Clock + Threads + Wait + Sync>(
    rt: &R,
    alloc: Global,
    plan: RoundPlan,
    row: &str,
    side: &str,
    times: &mut [Nanos],
) -> io::Result<u64> {
    for (of, name, work) in SIDES {
        if of == row && name == side {
            return rounds(rt, alloc, plan, work, times);
        }
    }
    Err(io::Error::from(io::ErrorKind::InvalidInput))
}

/// Prints how many turns of the last round did what they should, how many there were, and the nanoseconds that a turn
/// of each round took.
pub fn time<R: Clock + Print + Threads + Wait + Sync>(
    rt: &R,
    alloc: Global,
    plan: RoundPlan,
    row: &str,
    side: &str,
    count: u64,
) -> io::Result<()> {
    let mut times = Vec::new(alloc);
    for _ in 0..count {
        times.push(Nanos(0))?;
    }
    let done = rounds_of(rt, alloc, plan, row, side, &mut times)?;
    print!(rt; "{done} {}", plan.turns.saturating_mul(plan.threads))?;
    for time in &times {
        print!(rt; " {time}")?;
    }
    println!(rt;)
}

/// The rows that aren't counted, since their maps take long to fill. Smaller maps are, which have the same calls.
const LARGEST: &str = "map_get_1000000";

const LARGEST_IN_ORDER: &str = "ordered_get_100000";

/// Makes a round of each side of all rows but these two, and prints how many turns did what they should. A side is
/// told by its place in [`SIDES`].
pub fn count<R: Clock + Print + Threads + Wait + Sync>(
    rt: &R,
    alloc: Global,
    plan: RoundPlan,
) -> io::Result<()> {
    for at in 0..SIDES.len() {
        let (row, _, work) = SIDES[at];
        if row != LARGEST && row != LARGEST_IN_ORDER {
            let done = rounds(rt, alloc, plan, work, &mut [Nanos(0)])?;
            println!(rt; "side {at}: {done} of {}", plan.turns)?;
        }
    }
    Ok(())
}
