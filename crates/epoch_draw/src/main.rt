//! `epoch-draw`: reads a script of steps from standard input, as `epoch-run` does, and writes a picture of its run.
#![tactic(auto)]

use epoch_script::refuse_words;
use std::io::{BufReader, BufWriter, Lock};
use std::process::ExitCode;

/// The exit status if an allocation is refused.
const NO_MEMORY: u8 = 4;

/// How the program is called.
const USAGE: &str = "epoch-draw <SCRIPT >PICTURE.svg";

fn main(rt: HostRuntime) -> ExitCode {
    match refuse_words(&rt, USAGE, &mut rt.stderr().lock()) {
        Some(ending) => ExitCode::from(ending.status()),
        None => draw(&rt),
    }
}

/// Draws the run of the script on standard input.
fn draw(rt: &HostRuntime) -> ExitCode {
    let Ok(mut reader) = BufReader::new(rt.alloc(), rt.reader()) else {
        return ExitCode::from(NO_MEMORY);
    };
    let Ok(mut out) = BufWriter::new(rt.alloc(), rt.stdout().lock()) else {
        return ExitCode::from(NO_MEMORY);
    };
    let mut faults = rt.stderr().lock();
    let status = epoch_pictures::run(rt.alloc(), &mut reader, &mut out, &mut faults);
    ExitCode::from(status)
}
