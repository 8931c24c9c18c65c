//! Rounds of one side of a row, on one thread or several.
use crate::stopwatch::{Nanos, Stopwatch};
use std::sync::Wait;
use std::thread;
use std::thread::Threads;
use std::time::Clock;

/// How many threads a round has, and how many turns each of them makes.
#[derive(Clone, Copy)]
pub struct RoundPlan {
    pub threads: u64,
    pub turns: u64,
}

/// One thread's part of a round.
#[derive(Clone, Copy)]
pub struct RoundPart {
    pub thread: u64,
    pub round: u64,
    pub turns: u64,
}

/// What the threads of a round share, and what each does with something of its own.
pub trait Side {
    /// What a thread has for itself.
    type Own;

    /// Makes what a thread has, before the time is taken. `None`: there is no room or no memory for it.
    fn join(&self) -> Option<Self::Own>;

    /// Makes the turns of one thread, and returns how many did what they should.
    fn turns<R: Clock + Wait>(&self, rt: &R, own: &mut Self::Own, part: RoundPart) -> u64;

    /// Gives back what the thread had.
    fn leave<R: Wait>(&self, rt: &R, own: Self::Own);
}

fn take_part<R: Clock + Wait, S: Side>(
    rt: &R,
    threads: u64,
    side: &S,
    part: RoundPart,
    watch: &Stopwatch,
) {
    let mut own = side.join();
    let start = watch.begin(rt, threads);
    let done = match &mut own {
        Some(own) => side.turns(rt, own, part),
        None => 0,
    };
    watch.end(rt, threads, start, done);
    if let Some(own) = own {
        side.leave(rt, own);
    }
}

fn on_threads<R: Clock + Threads + Wait + Sync, S: Side + Sync>(
    rt: &R,
    plan: RoundPlan,
    side: &S,
    round: u64,
    watch: &Stopwatch,
) {
    let RoundPlan { threads, turns } = plan;
    thread::scope(thread::scope_env(), rt, move |scope| {
        for thread in 0..threads {
            let part = RoundPart {
                thread,
                round,
                turns,
            };
            let made = scope.spawn(move || take_part(rt, threads, side, part, watch));
            if made.is_err() {
                watch.miss();
            }
        }
    });
}

/// Makes as many rounds as there are times, and returns how many turns of the last one did what they should.
pub fn all_rounds<R: Clock + Threads + Wait + Sync, S: Side + Sync>(
    rt: &R,
    plan: RoundPlan,
    side: &S,
    times: &mut [Nanos],
) -> u64 {
    let mut done = 0;
    let mut round: u64 = 0;
    for time in times {
        let watch = Stopwatch::new();
        if plan.threads == 1 {
            let part = RoundPart {
                thread: 0,
                round,
                turns: plan.turns,
            };
            take_part(rt, 1, side, part, &watch);
        } else {
            on_threads(rt, plan, side, round, &watch);
        }
        *time = watch.each(plan.turns);
        done = watch.done();
        round = round.wrapping_add(1);
    }
    done
}
