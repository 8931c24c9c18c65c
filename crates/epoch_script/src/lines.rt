//! From the text of a line to what it says.
ghost use Rattle.epoch_script.specs.Words.{ReadsText, ReadsPair, ReadsTriple};
ghost use Rattle.epoch_script.specs.Lines.{SpellsBoth, SpellsCall, SpellsCommand, SpellsShape, SpellsSizes};
ghost use Rattle.epoch_script.specs.Lines.{SpellsLastSizes, SpellsSteps};

use crate::accesses::{read_access, read_guarded};
use crate::words::{cut, read_guard, read_number, read_number_before};
use epoch_laws::{Call, Shape, Step};

/// The greatest number of steps that one line may ask for.
pub const MOST_STEPS: u64 = 100_000;

/// How many jobs a bag takes where the shape doesn't say: MAX_OBJECTS of the Rust crate.
const USUAL_BAG_JOBS: u64 = 64;

/// How many bags a collection takes where the shape doesn't say: COLLECT_STEPS of the Rust crate.
const USUAL_COLLECT_BAGS: u64 = 8;

/// What a line asks for, after the first one.
#[derive(Clone, Copy, Debug, PartialEq, Eq)]
pub enum Command {
    /// One step.
    Once(Step),
    /// This many steps Go, from 1 to 100000, of the participant at this position.
    Go(u64, u64),
    /// A whole call of the participant at this position.
    Call(u64, Call),
    /// The whole end.
    EndAll,
    /// Prints the epoch.
    Epoch,
    /// Prints the word at this position.
    Word(u64),
}

/// Returns what a line says, or `None` where it is no line of the grammar.
pub fn read_command(line: &str) -> Option<Command>
    // A line is read as a step, or as one of the questions `epoch` and `word`, exactly when it spells one, and as that
    // one.
    ensures { ReadsText SpellsCommand line.now result }
{
    match cut(line) {
        ("register", None) => Some(Command::Once(Step::Register)),
        ("begin", Some(rest)) => {
            let (position, call) = read_position_and_call(rest)?;
            Some(Command::Once(Step::Begin(position, call)))
        }
        ("go", Some(rest)) => {
            let (position, times) = read_steps(rest)?;
            Some(Command::Go(position, times))
        }
        ("call", Some(rest)) => {
            let (position, call) = read_position_and_call(rest)?;
            Some(Command::Call(position, call))
        }
        ("end", None) => Some(Command::Once(Step::End)),
        ("endgo", None) => Some(Command::Once(Step::EndGo)),
        ("endall", None) => Some(Command::EndAll),
        ("epoch", None) => Some(Command::Epoch),
        ("word", Some(rest)) => Some(Command::Word(read_number(rest)?)),
        _ => None,
    }
}

/// A position, and how many steps: one where the text doesn't say.
fn read_steps(text: &str) -> Option<(u64, u64)>
    ensures { ReadsPair SpellsSteps text.now result }
{
    let (position, times) = cut(text);
    let position = read_number(position)?;
    let times = match times {
        None => 1,
        Some(times) => read_number(times)?,
    };
    if 1 <= times && times <= MOST_STEPS {
        Some((position, times))
    } else {
        None
    }
}

/// A position, and a call.
fn read_position_and_call(text: &str) -> Option<(u64, Call)>
    ensures { ReadsPair SpellsBoth text.now result }
{
    let (position, Some(rest)) = cut(text) else {
        return None;
    };
    Some((read_number(position)?, read_call(rest)?))
}

/// What a call says, or `None` where it is no call of the grammar.
fn read_call(text: &str) -> Option<Call>
    ensures { ReadsText SpellsCall text.now result }
{
    match cut(text) {
        ("pin", None) => Some(Call::Pin),
        ("unpin", Some(rest)) => Some(Call::Unpin(read_guard(rest)?)),
        ("repin", Some(rest)) => Some(Call::Repin(read_guard(rest)?)),
        ("pause", Some(rest)) => Some(Call::Pause(read_guard(rest)?)),
        ("resume", Some(rest)) => Some(Call::Resume(read_guard(rest)?)),
        ("defer", Some(rest)) => Some(Call::Defer(read_guard(rest)?)),
        ("defer-destroy", Some(rest)) => {
            let (guard, ptr) = read_guarded(rest)?;
            Some(Call::DeferDestroy(guard, ptr))
        }
        ("flush", Some(rest)) => Some(Call::Flush(read_guard(rest)?)),
        ("release", None) => Some(Call::Release),
        _ => Some(Call::Access(read_access(text)?)),
    }
}

/// Returns the shape that a line says, or `None` where it is none.
#[tactic(auto, using(crate::proofs::SameSizes::said_shape_is_valid))]
pub fn read_shape(line: &str) -> Option<Shape>
    // The first line is read as a shape exactly when it spells a valid one.
    ensures { ReadsText SpellsShape line.now result }
{
    let ("shape", Some(rest)) = cut(line) else {
        return None;
    };
    let shape = read_sizes(rest)?;
    if !shape.is_valid() {
        return None;
    }
    Some(shape)
}

/// Eight numbers, or ten.
fn read_sizes(text: &str) -> Option<Shape>
    ensures { ReadsText SpellsSizes text.now result }
{
    let (participants, rest) = read_number_before(text)?;
    let (cells, rest) = read_number_before(rest)?;
    let (roots, rest) = read_number_before(rest)?;
    let (fields, rest) = read_number_before(rest)?;
    let (bags, rest) = read_number_before(rest)?;
    let (align, rest) = read_number_before(rest)?;
    let (start_epoch, rest) = read_number_before(rest)?;
    let (start_turn, bag_jobs, collect_bags) = read_last_sizes(rest)?;
    Some(Shape {
        participants,
        cells,
        roots,
        fields,
        bags,
        align,
        start_epoch,
        start_turn,
        bag_jobs,
        collect_bags,
    })
}

/// The turn, and what it may be followed by: how many jobs a bag takes, and how many bags a collection.
fn read_last_sizes(text: &str) -> Option<(u64, u64, u64)>
    ensures { ReadsTriple SpellsLastSizes text.now result }
{
    let (start_turn, rest) = cut(text);
    let start_turn = read_number(start_turn)?;
    match rest {
        None => Some((start_turn, USUAL_BAG_JOBS, USUAL_COLLECT_BAGS)),
        Some(rest) => {
            let (bag_jobs, rest) = read_number_before(rest)?;
            Some((start_turn, bag_jobs, read_number(rest)?))
        }
    }
}
