//! One step of a run, what it told, and what stood after it.

use epoch_world::{Entry, Reply, Step};
use std::alloc::{AllocError, Global};

/// One step of a run, what it told, and what stood after it.
#[derive(Clone, Copy)]
pub struct Moment {
    /// The number of the step, counted from 0.
    pub number: u32,
    /// The number of the script's line that asks for it, counted from 1.
    pub line: u64,
    pub step: Step,
    pub reply: Reply,
    /// The epoch.
    pub epoch: u64,
    /// The epoch in which the participant that made the step is pinned, if it is.
    pub pinned: Option<u64>,
    /// The place of the store whose word the step changed, and that word.
    pub place: Option<(u64, u64)>,
}

/// The position of the participant that makes the step, or `None` where the collector does.
pub fn lane_of(step: Step) -> Option<u64> {
    match step {
        Step::Begin(position, _) | Step::Go(position) => Some(position),
        Step::Register | Step::End | Step::EndGo => None,
    }
}

/// The steps and their replies.
pub fn entries_of(alloc: Global, moments: &[Moment]) -> Result<Vec<Entry>, AllocError> {
    let mut entries = Vec::new(alloc);
    for moment in moments {
        entries.push(Entry {
            step: moment.step,
            reply: moment.reply,
        })?;
    }
    Ok(entries)
}
