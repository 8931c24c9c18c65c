//! Which step of a run did what to the cells.

use crate::cells::FilledCells;
use epoch_bags::Called;
use epoch_cells::Name;
use epoch_laws::{AccessAnswer, Call, Entry, Reply, Step};
use std::alloc::{AllocError, Global};

/// The calls that are under way, and the removals that were deferred.
#[derive(Drop)]
pub struct CallsUnderWay {
    /// The position of a participant, and its call.
    calls: Vec<(u64, Call)>,
    /// The cell that the job of each ticket removes, if it is a removal.
    removals: Vec<(u64, Option<Name>)>,
}

impl CallsUnderWay {
    pub fn new(alloc: Global) -> CallsUnderWay {
        CallsUnderWay {
            calls: Vec::new(alloc),
            removals: Vec::new(alloc),
        }
    }

    /// Does to the cells what this step did, and says whether it did anything. Its call answers so, where this is the
    /// call's last step before it ends.
    pub fn step(
        &mut self,
        cells: &mut FilledCells,
        entry: Entry,
        answer: Option<AccessAnswer>,
    ) -> Result<bool, AllocError> {
        match (entry.step, entry.reply) {
            (Step::Begin(position, call), Reply::Began) => {
                self.calls.retain(|begun| begun.0 != position);
                self.calls.push((position, call))?;
            }
            (Step::Go(position), Reply::Stepped) => {
                if let (Some(Call::Access(access)), Some(answer)) = (self.call(position), answer) {
                    cells.access(position, access, answer)?;
                    return Ok(true);
                }
            }
            (Step::Go(position), Reply::Deferred(ticket)) => {
                let name = removed_by(self.call(position));
                self.removals.push((ticket, name))?;
            }
            (Step::Go(position), Reply::CalledNow(Called::Destroyed)) => {
                cells.remove(removed_by(self.call(position)));
                return Ok(true);
            }
            (_, Reply::Called(ticket, Called::Destroyed)) => {
                cells.remove(self.removal(ticket));
                return Ok(true);
            }
            _ => {}
        }
        Ok(false)
    }

    /// The call under way of the participant at this position.
    fn call(&self, position: u64) -> Option<Call> {
        for begun in &self.calls {
            if begun.0 == position {
                return Some(begun.1);
            }
        }
        None
    }

    /// The cell that the job of this ticket removes.
    fn removal(&self, ticket: u64) -> Option<Name> {
        for removal in &self.removals {
            if removal.0 == ticket {
                return removal.1;
            }
        }
        None
    }
}

/// The name that a call removes.
fn removed_by(call: Option<Call>) -> Option<Name> {
    match call? {
        Call::DeferDestroy(_, ptr) => ptr.name,
        _ => None,
    }
}

/// What the call answers whose step stands here, where the next step of its participant ends it.
pub fn answer_after(entries: &[Entry], at: usize) -> Option<AccessAnswer> {
    let Step::Go(position) = entries.get(at)?.step else {
        return None;
    };
    for entry in entries.get(at + 1..)? {
        if let Step::Go(other) = entry.step
            && other == position
        {
            return match entry.reply {
                Reply::Done(answer) => Some(answer),
                _ => None,
            };
        }
    }
    None
}
