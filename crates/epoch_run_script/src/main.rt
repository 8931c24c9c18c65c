//! `epoch-run-script`: reads a script of steps from standard input and prints what each of them tells, as `epoch-run`
//! does without arguments. It takes no arguments, and stands on worlds alone: no proof about handles has to be made
//! before it runs.
#![tactic(auto)]

use epoch_script::refuse_words;
use std::io::{BufReader, BufWriter, Lock};
use std::process::ExitCode;

/// The exit status if an allocation is refused.
const NO_MEMORY: u8 = 4;

/// How the program is called.
const USAGE: &str = "epoch-run-script <SCRIPT";

fn main(rt: HostRuntime) -> ExitCode {
    match refuse_words(&rt, USAGE, &mut rt.stderr().lock()) {
        Some(ending) => ExitCode::from(ending.status()),
        None => run(&rt),
    }
}

/// Does the script on standard input.
fn run(rt: &HostRuntime) -> ExitCode {
    let Ok(mut reader) = BufReader::new(rt.alloc(), rt.reader()) else {
        return ExitCode::from(NO_MEMORY);
    };
    let Ok(mut answers) = BufWriter::new(rt.alloc(), rt.stdout().lock()) else {
        return ExitCode::from(NO_MEMORY);
    };
    let mut faults = rt.stderr().lock();
    let ending = epoch_script::run(rt.alloc(), &mut reader, &mut answers, &mut faults);
    ExitCode::from(ending.status())
}
