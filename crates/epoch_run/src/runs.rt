//! The runs that the words of a command line ask for.
ghost use Rattle.std.specs.Prelude.{MatchOption};
ghost use Rattle.epoch_script.specs.declared.size.Size.{Size};
ghost use Rattle.epoch_script.specs.Sizes.{SpellsSize};
ghost use Rattle.epoch_run.specs.declared.runs.ThreadRun.{ThreadRun};
ghost use Rattle.epoch_run.specs.Runs.{SpellsRun};

use crate::tally::Popped;
use crate::threads::come_and_go;
use crate::{queue, stack};
use epoch_bags::Job;
use epoch_script::{Ending, Size, read_number};
use std::alloc::Global;
use std::io;
use std::io::Write;
use std::sync::Wait;
use std::sync::atomic::{AtomicU64, Ordering};
use std::thread::Threads;

/// The most threads that a run has, and the most rounds that each of them does.
const MOST: u64 = 64;

/// What is run.
#[derive(Clone, Copy)]
pub enum ThreadRun {
    /// `threads N K`: N threads defer K jobs each.
    Threads(Size),
    /// `stack N K`: N threads push and pop K values each, over a stack.
    Stack(Size),
    /// `queue N K`: N threads push and pop K values each, over a queue.
    Queue(Size),
}

/// The run that the words of a command line ask for, or `None` where they ask for none.
fn asked(words: &[String]) -> Option<ThreadRun> {
    match words {
        [form, threads, rounds] => read_run(form, threads, rounds),
        _ => None,
    }
}

/// How many jobs the words ask for: none where they ask for no run, or for a run that takes none.
pub fn jobs_asked(words: &[String]) -> u64 {
    match asked(words) {
        Some(ThreadRun::Threads(size)) => size.jobs(),
        _ => 0,
    }
}

/// The run that three words say.
fn read_run(form: &str, threads: &str, rounds: &str) -> Option<ThreadRun>
    ensures { MatchOption result ((run : ThreadRun) → ¬ SpellsRun run form.now threads.now rounds.now)
        (λ run. SpellsRun run form.now threads.now rounds.now) }
{
    match read_size(threads, rounds) {
        Some(size) if form == "threads" => Some(ThreadRun::Threads(size)),
        Some(size) if form == "stack" => Some(ThreadRun::Stack(size)),
        Some(size) if form == "queue" => Some(ThreadRun::Queue(size)),
        _ => None,
    }
}

/// The size that two words say.
fn read_size(threads: &str, rounds: &str) -> Option<Size>
    ensures { MatchOption result ((size : Size) → ¬ SpellsSize size threads.now rounds.now)
        (λ size. SpellsSize size threads.now rounds.now) }
{
    let threads = read_number(threads)?;
    let rounds = read_number(rounds)?;
    if !(1..=MOST).contains(&threads) || !(1..=MOST).contains(&rounds) {
        return None;
    }
    Some(Size { threads, rounds })
}

/// Does what the words ask for. The caller makes the jobs, as many as `jobs_asked` says, each of which adds one to
/// `called`.
///
/// Where they ask for a run of threads it is told how many jobs were called, and where they ask for a run over a stack
/// or a queue how many values were popped, and their sum. `Refused`: memory, a thread, a registration or a call was
/// refused, and nothing is printed. `NotUnderstood`: the words ask for nothing, of which `faults` is told.
pub fn perform<R: Threads + Wait + Sync, A: Write, F: Write>(
    rt: &R,
    alloc: Global,
    words: &[String],
    jobs: Vec<Job>,
    called: &AtomicU64,
    answers: &mut A,
    faults: &mut F,
) -> Ending {
    let told = match asked(words) {
        None => tell_usage(faults),
        Some(ThreadRun::Threads(size)) => {
            if !come_and_go(rt, alloc, size, jobs) {
                return Ending::Refused;
            }
            tell_called(called, answers)
        }
        Some(ThreadRun::Stack(size)) => match stack::push_and_pop(rt, alloc, size) {
            Some(popped) => tell_popped(popped, answers),
            None => return Ending::Refused,
        },
        Some(ThreadRun::Queue(size)) => match queue::push_and_pop(rt, alloc, size) {
            Some(popped) => tell_popped(popped, answers),
            None => return Ending::Refused,
        },
    };
    match told {
        Ok(ending) => ending,
        Err(error) => Ending::from(error),
    }
}

fn tell_usage<F: Write>(faults: &mut F) -> io::Result<Ending> {
    writeln!(
        faults,
        "usage: epoch-run [threads N K | stack N K | queue N K]"
    )?;
    faults.flush()?;
    Ok(Ending::NotUnderstood)
}

fn tell_called<A: Write>(called: &AtomicU64, answers: &mut A) -> io::Result<Ending> {
    let count = called.load(Ordering::SeqCst);
    writeln!(answers, "called {count}")?;
    answers.flush()?;
    Ok(Ending::Finished)
}

fn tell_popped<A: Write>(popped: Popped, answers: &mut A) -> io::Result<Ending> {
    let Popped { count, sum } = popped;
    writeln!(answers, "popped {count} sum {sum}")?;
    answers.flush()?;
    Ok(Ending::Finished)
}
