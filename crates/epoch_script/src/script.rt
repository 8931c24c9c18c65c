//! From the lines of a reader to what two writers are given.
ghost use Rattle.std.specs.Prelude.{◌≡◌, ◌≢◌, ◌+◌, ◌<◌, true, false, [], IsOk, IfOk, IfErr, IsUtf8, IfSome};
ghost use Rattle.std.specs.Prelude.{MatchOption};
ghost use Rattle.std.specs.IoError.{error_kind};
ghost use Rattle.std.specs.Io.BufRead.{DropsThrough, first_piece};
ghost use Rattle.std.specs.Io.KnownBytes.{IsAtEnd};
ghost use Rattle.epoch_laws.specs.declared.shape.Shape.{Shape};
ghost use Rattle.epoch_script.specs.declared.lines.Command.{Command};
ghost use Rattle.epoch_script.specs.Endings.{TellsOf, status_of};
ghost use Rattle.epoch_script.specs.Lines.{SpellsCommand, SpellsShape};

use crate::{Command, Printed, read_command, read_shape};
use epoch_world::{Call, Reply, Shape, Step, World};
use std::alloc::Global;
use std::io;
use std::io::{BufRead, ErrorKind, Write};

/// How a script or a run of threads ended.
#[derive(Clone, Copy, Debug, PartialEq, Eq)]
pub enum Ending {
    /// All was done.
    Finished,
    /// The words of the command line ask for nothing.
    NotUnderstood,
    /// The line of this number, counted from 1, is due to be a shape and is none.
    NotAShape(u64),
    /// The line of this number, counted from 1, is no step.
    NotAStep(u64),
    /// A read or a write failed.
    StreamFailed,
    /// An allocation was refused.
    NoMemory,
    /// Memory, a thread or a registration was refused to a run of threads.
    Refused,
}

impl Ending {
    /// Returns the exit status that tells of it.
    pub fn status(self) -> u8
        // Each way to end has its exit status. A stream's error counts as refused memory only if it says so.
        ensures { result ≡ status_of self }
    {
        match self {
            Ending::Finished => 0,
            Ending::NotUnderstood | Ending::NotAShape(_) | Ending::NotAStep(_) => 2,
            Ending::StreamFailed => 3,
            Ending::NoMemory | Ending::Refused => 4,
        }
    }
}

impl From<io::Error> for Ending {
    ghost from_gives = { λ error ending. TellsOf (error_kind error) ending };

    fn from(error: io::Error) -> Ending {
        if error.kind() == ErrorKind::OutOfMemory {
            Ending::NoMemory
        } else {
            Ending::StreamFailed
        }
    }
}

/// Does the lines of `reader` one after the other and writes what they print to `answers`, up to the
/// end of input or to the first line that can't be done, of which `faults` is told.
pub fn run<R: BufRead, A: Write, F: Write>(
    alloc: Global,
    reader: &mut R,
    answers: &mut A,
    faults: &mut F,
) -> Ending {
    let mut script = Script {
        reader,
        line: Vec::new(alloc),
        number: 0,
    };
    let ending = match perform_all(alloc, &mut script, answers) {
        Ok(()) => Ending::Finished,
        Err(ending) => ending,
    };
    tell_ending(ending, faults)
}

/// Tells `faults` of a line that isn't what it should be, and returns how the run ends: as given, unless telling fails.
pub fn tell_ending<F: Write>(ending: Ending, faults: &mut F) -> Ending {
    after_telling(ending, tell(ending, faults))
}

/// How a run ends that has come to this ending: so where it was told, and else as the error says.
pub fn after_telling(ending: Ending, told: io::Result<()>) -> Ending
    // A run ends in its own way if a bad line could be reported, and otherwise as the error of that report says.
    ensures ok { IsOk told → result ≡ ending }
    ensures err { IfErr told (λ error. TellsOf (error_kind error) result) }
{
    match told {
        Ok(()) => ending,
        Err(error) => Ending::from(error),
    }
}

/// Says of a line that isn't what it should be which one it is.
fn tell<F: Write>(ending: Ending, faults: &mut F) -> io::Result<()> {
    match ending {
        Ending::NotAShape(number) => writeln!(faults, "line {number}: not a shape")?,
        Ending::NotAStep(number) => writeln!(faults, "line {number}: not a step")?,
        Ending::Finished
        | Ending::NotUnderstood
        | Ending::StreamFailed
        | Ending::NoMemory
        | Ending::Refused => return Ok(()),
    }
    faults.flush()
}

/// The lines of a reader, and the one that is read now. A new one has an empty line of the number 0.
#[derive(Drop)]
pub struct Script<'r, R> {
    pub reader: &'r mut R,
    /// The bytes of the line, without its line feed.
    pub line: Vec<u8>,
    /// The number of the line, counted from 1.
    pub number: u64,
}

impl<R: BufRead> Script<'_, R> {
    /// Reads on to the next line that isn't empty; `false` at the end of input.
    pub fn advance(&mut self) -> Result<bool, Ending>
        ensures { result ≡ Ok true → self.new.line.items ≢ [] }
    {
        for _ in 0..u64::MAX {
            if !self.read_line()? {
                return Ok(false);
            }
            if !self.line.is_empty() {
                return Ok(true);
            }
        }
        Ok(false)
    }

    /// Reads the next line, without its line feed; `false` at the end of input.
    fn read_line(&mut self) -> Result<bool, Ending>
        // A line is the bytes up to the next line feed, without it. Lines are counted one by one.
        ensures line { result ≡ Ok true
            → IfSome (R.remaining self.old.reader.now) (λ bytes. self.new.line.items ≡ first_piece 10 bytes) }
        ensures rest { result ≡ Ok true
            → DropsThrough (R.remaining self.old.reader.now) (R.remaining self.new.reader.now) 10 }
        ensures counted { result ≡ Ok true → self.old.number < u64.MAX → self.new.number ≡ self.old.number + 1 }
        ensures end { result ≡ Ok false → IsAtEnd (R.remaining self.old.reader.now) }
        ensures same { result ≡ Ok false → self.new.number ≡ self.old.number }
    {
        self.line.clear();
        if self.reader.read_until(b'\n', &mut self.line)? == 0 {
            return Ok(false);
        }
        self.number = self.number.saturating_add(1);
        if self.line.last() == Some(&b'\n') {
            self.line.pop();
        }
        Ok(true)
    }

    /// The text of the line, or `None` where its bytes are no text.
    fn text(&self) -> Option<&str>
        ensures { MatchOption result (¬ IsUtf8 self.now.line.items) (λ text. text.now ≡ self.now.line.items) }
    {
        str::from_utf8(&self.line).ok()
    }

    /// Returns the shape that the line says. `NotAShape`: it says none.
    pub fn shape(&self) -> Result<Shape, Ending>
        ensures ok { IfOk result (λ shape. SpellsShape shape self.now.line.items) }
        ensures says { (shape : Shape) → IsUtf8 self.now.line.items
            → SpellsShape shape self.now.line.items → IsOk result }
        ensures err { IfErr result (λ fault. fault ≡ Ending.NotAShape self.now.number) }
    {
        let fault = Ending::NotAShape(self.number);
        let text = self.text().ok_or(fault)?;
        read_shape(text).ok_or(fault)
    }

    /// Returns what the line asks for. `NotAStep`: it asks for nothing.
    pub fn command(&self) -> Result<Command, Ending>
        // A line that spells what is expected there is read. Every other line, even one whose bytes aren't text, gives
        // an ending that names the line's number.
        ensures ok { IfOk result (λ command. SpellsCommand command self.now.line.items) }
        ensures says { (command : Command) → IsUtf8 self.now.line.items
            → SpellsCommand command self.now.line.items → IsOk result }
        ensures err { IfErr result (λ fault. fault ≡ Ending.NotAStep self.now.number) }
    {
        let fault = Ending::NotAStep(self.number);
        let text = self.text().ok_or(fault)?;
        read_command(text).ok_or(fault)
    }
}

fn perform_all<R: BufRead, A: Write>(
    alloc: Global,
    script: &mut Script<'_, R>,
    answers: &mut A,
) -> Result<(), Ending> {
    if !script.advance()? {
        return Ok(());
    }
    let shape = script.shape()?;
    let mut world = World::new(alloc, shape).map_err(|_| Ending::NoMemory)?;
    for _ in 0..u64::MAX {
        if !script.advance()? {
            break;
        }
        perform(alloc, &mut world, script.command()?, answers)?;
        answers.flush()?;
    }
    Ok(())
}

/// Does what one line says, and prints its replies.
fn perform<A: Write>(
    alloc: Global,
    world: &mut World,
    command: Command,
    answers: &mut A,
) -> Result<(), Ending> {
    match command {
        Command::Once(step) => go_through(world, &[step], answers),
        Command::Go(participant, times) => {
            let steps = vec![in alloc; Step::Go(participant); times as usize].map_err(
                |_| Ending::NoMemory,
            )?;
            go_through(world, &steps, answers)
        }
        Command::Call(participant, call) => call_through(world, participant, call, answers),
        Command::EndAll => end_through(world, answers),
        Command::Epoch => {
            writeln!(answers, "epoch {}", world.epoch())?;
            Ok(())
        }
        Command::Word(position) => print_word(world.word(position), answers),
    }
}

fn go_through<A: Write>(world: &mut World, steps: &[Step], answers: &mut A) -> Result<(), Ending> {
    let replies = world.run(steps).map_err(|_| Ending::NoMemory)?;
    for reply in replies {
        writeln!(answers, "{}", Printed(reply))?;
    }
    Ok(())
}

fn call_through<A: Write>(
    world: &mut World,
    participant: u64,
    call: Call,
    answers: &mut A,
) -> Result<(), Ending> {
    let replies = world.call(participant, call).map_err(|_| Ending::NoMemory)?;
    for reply in replies {
        print_telling(reply, answers)?;
    }
    Ok(())
}

/// Begins the end and goes through it. An end that is refused has nothing to go through.
fn end_through<A: Write>(world: &mut World, answers: &mut A) -> Result<(), Ending> {
    let mut reply = world.step(Step::End);
    for _ in 0..u64::MAX {
        print_telling(reply, answers)?;
        if is_last(reply) {
            break;
        }
        reply = world.step(Step::EndGo);
    }
    Ok(())
}

/// Whether a call or an end is over with this reply.
fn is_last(reply: Reply) -> bool {
    matches!(reply, Reply::Done(_) | Reply::Refused(_))
}

/// Prints a reply, unless it only says that a call goes on.
fn print_telling<A: Write>(reply: Reply, answers: &mut A) -> Result<(), Ending> {
    if let Reply::Began | Reply::Stepped = reply {
        return Ok(());
    }
    writeln!(answers, "{}", Printed(reply))?;
    Ok(())
}

fn print_word<A: Write>(word: Option<u64>, answers: &mut A) -> Result<(), Ending> {
    match word {
        Some(word) => writeln!(answers, "word {word}")?,
        None => writeln!(answers, "word none")?,
    }
    Ok(())
}
