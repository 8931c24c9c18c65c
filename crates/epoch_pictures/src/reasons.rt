//! What is told of a line that ends a run: the line, the first word that doesn't fit, and what it should be.

use epoch_layouts::{MOST_STEPS, Stop};
use epoch_script::{Ending, Expected, Quoted, misfit_of};
use std::io;
use std::io::Write;

/// Tells `faults` why a run stopped at the line of this number, and returns the exit status.
pub fn tell_stop<F: Write>(stop: Stop, number: u64, line: &[u8], faults: &mut F) -> u8 {
    let (status, told) = match stop {
        Stop::Ended(ending) => (ending.status(), tell_ending(ending, line, faults)),
        Stop::TooLong => (2, tell_too_long(number, faults)),
    };
    match told {
        Ok(()) => status,
        Err(error) => Ending::from(error).status(),
    }
}

fn tell_ending<F: Write>(ending: Ending, line: &[u8], faults: &mut F) -> io::Result<()> {
    match ending {
        Ending::NotAShape(number) => tell_line(number, "a shape", Expected::Shape, line, faults),
        Ending::NotAStep(number) => tell_line(number, "a step", Expected::Step, line, faults),
        _ => Ok(()),
    }
}

/// Tells of a line that isn't what it should be, which begins with a word of this kind.
fn tell_line<F: Write>(
    number: u64,
    should_be: &str,
    first: Expected,
    line: &[u8],
    faults: &mut F,
) -> io::Result<()> {
    write!(faults, "line {number}: not {should_be}: ")?;
    match str::from_utf8(line) {
        Ok(text) => tell_misfit(text, first, faults)?,
        Err(error) => {
            let byte = error.valid_up_to().saturating_add(1);
            writeln!(faults, "its byte {byte} is not UTF-8 text")?;
        }
    }
    faults.flush()
}

/// Tells what the line is, and which word of it doesn't fit.
fn tell_misfit<F: Write>(line: &str, first: Expected, faults: &mut F) -> io::Result<()> {
    writeln!(faults, "{}", Quoted(line))?;
    match misfit_of(line, first) {
        Some(misfit) => writeln!(faults, "{misfit}"),
        None => Ok(()),
    }
}

fn tell_too_long<F: Write>(line: u64, faults: &mut F) -> io::Result<()> {
    writeln!(faults, "line {line}: more than {MOST_STEPS} steps")?;
    faults.flush()
}
