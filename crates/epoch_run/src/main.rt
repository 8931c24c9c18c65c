//! `epoch-run`: reads a script of steps from standard input and prints what each of them tells, or runs threads, over a
//! stack or a queue too.
#![tactic(auto)]

mod queue;
mod runs;
mod sharing;
mod stack;
mod tally;
mod threads;

use epoch_bags::{Job, Work};
use std::env::Env;
use std::io::{BufReader, BufWriter, ErrorKind, Lock};
use std::process::ExitCode;
use std::sync::Arc;
use std::sync::atomic::{AtomicU64, Ordering};
use std::{env, io};

/// The exit status if an allocation is refused.
const NO_MEMORY: u8 = 4;

fn main(rt: HostRuntime) -> ExitCode {
    let alloc = rt.alloc();
    let words = match words_of(&rt) {
        Ok(words) if words.is_empty() => return run_script(&rt),
        Ok(words) => words,
        Err(error) if error.kind() == ErrorKind::OutOfMemory => return ExitCode::from(NO_MEMORY),
        // A word that is no text asks for nothing.
        Err(_) => Vec::new(alloc),
    };
    let Ok(called) = Arc::new(alloc, AtomicU64::new(0)) else {
        return ExitCode::from(NO_MEMORY);
    };
    let mut jobs = Vec::new(alloc);
    for _ in 0..runs::jobs_asked(&words) {
        let Ok(count) = Arc::try_clone(&called) else {
            return ExitCode::from(NO_MEMORY);
        };
        let boxed = Box::new(alloc, move || {
            count.fetch_add(1, Ordering::SeqCst);
        });
        let Ok(run) = boxed else {
            return ExitCode::from(NO_MEMORY);
        };
        if jobs.push(Job::Call(Work { run })).is_err() {
            return ExitCode::from(NO_MEMORY);
        }
    }
    let mut answers = rt.stdout().lock();
    let mut faults = rt.stderr().lock();
    let ending = runs::perform(&rt, alloc, &words, jobs, &called, &mut answers, &mut faults);
    ExitCode::from(ending.status())
}

/// The words of the command line behind the program's name.
fn words_of<R: Env + AllocGlobal>(rt: &R) -> io::Result<Vec<String>> {
    let mut words = Vec::new(rt.alloc());
    for word in env::args(rt)?.skip(1) {
        words.push(word)?;
    }
    Ok(words)
}

/// Does the script on standard input.
fn run_script(rt: &HostRuntime) -> ExitCode {
    let Ok(mut reader) = BufReader::new(rt.alloc(), rt.reader()) else {
        return ExitCode::from(NO_MEMORY);
    };
    let Ok(mut answers) = BufWriter::new(rt.alloc(), rt.stdout().lock()) else {
        return ExitCode::from(NO_MEMORY);
    };
    let mut faults = rt.stderr().lock();
    let ending = epoch_script::run(rt.alloc(), &mut reader, &mut answers, &mut faults);
    ExitCode::from(ending.status())
}
