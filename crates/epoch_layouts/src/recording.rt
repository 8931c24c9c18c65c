//! From the lines of a script to what each of its steps told.
ghost use Rattle.epoch_laws.specs.Shapes.{IsValid};

use crate::Moment;
use crate::moment::lane_of;
use epoch_script::{Command, Ending, Script};
use epoch_world::{Reply, Shape, Step, World};
use std::alloc::Global;
use std::io::BufRead;

/// How many steps a picture may have. Our own: a picture of more says little.
pub const MOST_STEPS: usize = 5_000;

/// Why there is no recording.
#[derive(Clone, Copy)]
pub enum Stop {
    /// The script ends so.
    Ended(Ending),
    /// The script asks for more than [`MOST_STEPS`] steps.
    TooLong,
}

impl From<Ending> for Stop {
    fn from(ending: Ending) -> Stop {
        Stop::Ended(ending)
    }
}

/// Does the lines of a script in a new world, as `epoch_script::run` does, and returns all steps. Nothing is printed,
/// and `epoch` and `word` do nothing.
pub fn record<R: BufRead>(alloc: Global, script: &mut Script<'_, R>) -> Result<Vec<Moment>, Stop> {
    if !script.advance()? {
        return Ok(Vec::new(alloc));
    }
    let mut recorder = Recorder::new(alloc, script.shape()?)?;
    for _ in 0..u64::MAX {
        if !script.advance()? {
            break;
        }
        recorder.line = script.number;
        recorder.perform(script.command()?)?;
    }
    Ok(recorder.moments)
}

/// A world, the words of its places as they were last seen, and the steps taken.
#[derive(Drop)]
struct Recorder {
    world: World,
    words: Vec<u64>,
    /// The number of the line that is done.
    line: u64,
    moments: Vec<Moment>,
}

impl Recorder {
    fn new(alloc: Global, shape: Shape) -> Result<Recorder, Ending>
        requires { IsValid shape }
    {
        let world = World::new(alloc, shape).map_err(|_| Ending::NoMemory)?;
        let words = vec![in alloc; 0; shape.bags as usize].map_err(|_| Ending::NoMemory)?;
        Ok(Recorder {
            world,
            words,
            line: 0,
            moments: Vec::new(alloc),
        })
    }

    fn perform(&mut self, command: Command) -> Result<(), Stop> {
        match command {
            Command::Once(step) => {
                self.take(step)?;
            }
            Command::Go(position, times) => {
                for _ in 0..times {
                    self.take(Step::Go(position))?;
                }
            }
            Command::Call(position, call) => {
                self.go_through(Step::Begin(position, call), Step::Go(position))?;
            }
            Command::EndAll => self.go_through(Step::End, Step::EndGo)?,
            Command::Epoch | Command::Word(_) => {}
        }
        Ok(())
    }

    /// Begins a call or the end, and goes on to its last step.
    fn go_through(&mut self, begin: Step, go: Step) -> Result<(), Stop> {
        let mut reply = self.take(begin)?;
        for _ in 0..MOST_STEPS {
            if let Reply::Done(_) | Reply::Refused(_) = reply {
                break;
            }
            reply = self.take(go)?;
        }
        Ok(())
    }

    fn take(&mut self, step: Step) -> Result<Reply, Stop> {
        if self.moments.len() >= MOST_STEPS {
            return Err(Stop::TooLong);
        }
        let number = self.moments.len() as u32;
        let reply = self.world.step(step);
        let moment = Moment {
            number,
            line: self.line,
            step,
            reply,
            epoch: self.world.epoch(),
            pinned: pinned_in(&self.world, lane_of(step)),
            place: changed_place(&self.world, &mut self.words),
        };
        if self.moments.push(moment).is_err() {
            return Err(Stop::Ended(Ending::NoMemory));
        }
        Ok(reply)
    }
}

/// The epoch in which this participant is pinned: its word is twice that and 1.
fn pinned_in(world: &World, lane: Option<u64>) -> Option<u64> {
    let word = world.word(lane?)?;
    if word % 2 == 1 { Some(word / 2) } else { None }
}

/// The first place whose word is another than it was, and that word. It is then known. A step changes one place at
/// most.
fn changed_place(world: &World, words: &mut [u64]) -> Option<(u64, u64)> {
    for place in 0..words.len() {
        let word = world.place(place as u64)?;
        if words[place] != word {
            words[place] = word;
            return Some((place as u64, word));
        }
    }
    None
}
