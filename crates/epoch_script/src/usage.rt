//! Programs that take no words of a command line.

use crate::script::{Ending, after_telling};
use std::env::Env;
use std::io::{ErrorKind, Write};
use std::{env, io};

/// Tells `faults` how a program is called, if its command line has words behind the program's name, and returns how the
/// program ends then.
///
/// `None`: there are no words. `NotUnderstood`: there are, of which `faults` was told. `StreamFailed`, `NoMemory`:
/// telling failed, or memory for the words was refused.
pub fn refuse_words<R: Env + AllocGlobal, F: Write>(
    rt: &R,
    usage: &str,
    faults: &mut F,
) -> Option<Ending> {
    match env::args(rt).map(|words| words.skip(1).count()) {
        Ok(0) => None,
        Err(error) if error.kind() == ErrorKind::OutOfMemory => Some(Ending::NoMemory),
        // A word that is no text is a word too.
        Ok(_) | Err(_) => Some(tell_usage(usage, faults)),
    }
}

/// Tells `faults` how a program is called, and returns how a run ends that was asked for nothing: `NotUnderstood`,
/// unless telling fails.
pub fn tell_usage<F: Write>(usage: &str, faults: &mut F) -> Ending {
    after_telling(Ending::NotUnderstood, write_usage(usage, faults))
}

fn write_usage<F: Write>(usage: &str, faults: &mut F) -> io::Result<()> {
    writeln!(faults, "usage: {usage}")?;
    faults.flush()
}
