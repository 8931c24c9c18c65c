//! From the lines of a reader to a picture on a writer.

use crate::draw;
use crate::reasons::tell_stop;
use epoch_layouts::{Moment, lay_out, record};
use epoch_script::{Ending, Script};
use std::alloc::Global;
use std::io;
use std::io::{BufRead, Write};

/// Does the lines of `reader` as `epoch_script::run` does, and writes a picture of all steps to `out`.
///
/// Returns the exit status, that of `epoch-run`: 0, or 2 at a line that is no shape or no step or asks for a step past
/// the 5,000th, of which `faults` is told, and why, or 3 if a stream fails, or 4 if an allocation is refused. If the
/// lines end so, nothing is written to `out`.
pub fn run<R: BufRead, W: Write, F: Write>(
    alloc: Global,
    reader: &mut R,
    out: &mut W,
    faults: &mut F,
) -> u8 {
    let mut script = Script {
        reader,
        line: Vec::new(alloc),
        number: 0,
    };
    match record(alloc, &mut script) {
        Ok(moments) => match write(alloc, &moments, out) {
            Ok(()) => 0,
            Err(error) => Ending::from(error).status(),
        },
        Err(stop) => tell_stop(stop, script.number, &script.line, faults),
    }
}

fn write<W: Write>(alloc: Global, moments: &[Moment], out: &mut W) -> io::Result<()> {
    let picture = lay_out(alloc, moments)?;
    draw(alloc, &picture, out)?;
    out.flush()
}
