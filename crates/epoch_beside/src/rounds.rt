//! Rounds of a row's work on one thread or several.
use crate::timer::RoundTimer;
use std::sync::Wait;
use std::thread;
use std::thread::Threads;
use std::time::Clock;

/// On how many threads a round works, and how many turns each makes.
#[derive(Clone, Copy)]
pub struct RoundSize {
    pub threads: u64,
    pub turns: u64,
}

/// What the threads of a round share, and what each does with a participant of its own.
pub trait Round {
    /// What a thread has for itself.
    type Participant;

    /// Makes what a thread has, before the time is taken. `None`: there is no free position or post, or no memory.
    fn register(&self) -> Option<Self::Participant>;

    /// Does the turns of one thread, and returns how many did what they should.
    fn turns<R: Wait>(&self, rt: &R, participant: &mut Self::Participant, turns: u64) -> u64;

    /// Releases the participant.
    fn leave<R: Wait>(&self, rt: &R, participant: Self::Participant);
}

/// Returns 1 if a pop found a value.
#[inline(always)]
pub fn found<V, E>(popped: &Result<Option<V>, E>) -> u64 {
    match popped {
        Ok(Some(_)) => 1,
        _ => 0,
    }
}

/// One thread's part of a round.
pub fn take_part<R: Clock + Wait, S: Round>(
    rt: &R,
    size: RoundSize,
    round: &S,
    timer: &RoundTimer,
) {
    let mut participant = round.register();
    let start = timer.begin(rt, size.threads);
    let done = match &mut participant {
        Some(participant) => round.turns(rt, participant, size.turns),
        None => 0,
    };
    timer.end(rt, size.threads, start, done);
    if let Some(participant) = participant {
        round.leave(rt, participant);
    }
}

fn on_threads<R: Clock + Threads + Wait + Sync, S: Round + Sync>(
    rt: &R,
    size: RoundSize,
    round: &S,
    timer: &RoundTimer,
) {
    thread::scope(thread::scope_env(), rt, move |scope| {
        for _ in 0..size.threads {
            let made = scope.spawn(move || take_part(rt, size, round, timer));
            if made.is_err() {
                timer.miss();
            }
        }
    });
}

/// Makes as many rounds as there are times, and returns how many turns of the last one did what they should.
pub fn all_rounds<R: Clock + Threads + Wait + Sync, S: Round + Sync>(
    rt: &R,
    size: RoundSize,
    round: &S,
    times: &mut [u64],
) -> u64 {
    let mut done = 0;
    for time in times {
        let timer = RoundTimer::new();
        if size.threads == 1 {
            take_part(rt, size, round, &timer);
        } else {
            on_threads(rt, size, round, &timer);
        }
        *time = timer.each(size.turns);
        done = timer.done();
    }
    done
}
