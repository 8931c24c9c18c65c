//! `rt try --test --fail-alloc N` refuses the Nth allocation of each test, and this test passes whichever that is. In a
//! plain run of the tests no allocation is refused.
use crate::script::refusals::{LINES, PRINTED, SCRIPT, ScriptOutcome, want_ended};
use crate::wants::want;
use epoch_script::{Ending, run};
use std::alloc::{AllocError, Global};
use std::process::Abort;
use std::test::Fail;

/// More bytes than the script prints.
const ROOM: usize = 1_000;

/// Room for what is printed, for which memory is asked once more if it is refused.
fn room_at_last(alloc: Global) -> Result<Vec<u8>, AllocError> {
    match Vec::with_capacity(alloc, ROOM) {
        Ok(room) => Ok(room),
        Err(_) => Vec::with_capacity(alloc, ROOM),
    }
}

/// Runs the script. Its answers take no further memory.
fn run_with_room(alloc: Global) -> Result<ScriptOutcome, AllocError> {
    let mut reader = SCRIPT.as_bytes();
    let mut answers = room_at_last(alloc)?;
    let mut faults = Vec::new(alloc);
    let ending = run(alloc, &mut reader, &mut answers, &mut faults);
    Ok(ScriptOutcome {
        ending,
        answers,
        faults,
    })
}

/// Whether this many bytes are all that the lines print, up to some line and not to the last one.
fn are_lines_before(lines: &[(usize, usize)], bytes: usize) -> bool {
    let mut left = bytes;
    for (_, prints) in lines {
        if left == 0 {
            return true;
        }
        if left < *prints {
            return false;
        }
        left -= *prints;
    }
    false
}

/// A run to which memory was refused has done the lines before, and ends with status 4.
fn want_refused(rt: &impl Abort, outcome: &ScriptOutcome) {
    want(rt, "the exit status", outcome.ending.status(), 4);
    let printed = outcome.answers.len();
    want_ended(rt, (0, 0), outcome, Ending::NoMemory, printed);
    let done = are_lines_before(LINES, printed);
    want(rt, "the lines before are done", done, true);
}

/// A run of all of the script.
fn want_done(rt: &impl Abort, outcome: &ScriptOutcome) {
    want_ended(rt, (0, 0), outcome, Ending::Finished, PRINTED.len());
}

#[test]
fn a_refused_allocation_ends_the_script_after_the_lines_before_it(
    rt: HostRuntime,
) -> Result<(), Fail> {
    let first = run_with_room(rt.alloc())?;
    if first.ending == Ending::Finished {
        want_done(&rt, &first);
        return Ok(());
    }
    want_refused(&rt, &first);
    // At most one allocation is refused, so a further run is done to its end.
    let second = run_with_room(rt.alloc())?;
    want_done(&rt, &second);
    Ok(())
}
