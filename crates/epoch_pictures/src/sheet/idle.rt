//! The lanes of which nothing is told.

use epoch_layouts::Picture;
use epoch_layouts::cells::Shown;
use std::alloc::{AllocError, Global};

/// The lanes of one row, in their order.
#[derive(Drop)]
pub struct Idle {
    /// The participants that registered, and did nothing else.
    pub lanes: Vec<u32>,
    /// The slots in which no value was seen.
    pub cells: Vec<u32>,
}

impl Idle {
    pub fn of(alloc: Global, picture: &Picture<'_>) -> Result<Idle, AllocError> {
        let (mut lanes, mut cells) = (Vec::new(alloc), Vec::new(alloc));
        for lane in 0..picture.participants {
            if !acts(picture, u64::from(lane)) {
                lanes.push(lane)?;
            }
        }
        for slot in 1..=super::cells_of(&picture.cells) {
            if !is_used(&picture.cells, slot) {
                cells.push(slot)?;
            }
        }
        Ok(Idle { lanes, cells })
    }
}

/// Whether a participant began a call, or a step of it was refused. All else is done in calls.
fn acts(picture: &Picture<'_>, position: u64) -> bool {
    let lane = Some(position);
    picture.calls.iter().any(|bar| bar.lane == lane)
        || picture
            .refusals
            .iter()
            .any(|refusal| refusal.mark.lane == lane)
}

fn is_used(cells: &[Shown], slot: u32) -> bool {
    cells.iter().any(|shown| shown.name.slot() == slot)
}

/// How many of these lanes stand above the one of this number.
pub fn above(idle: &[u32], number: u64) -> u64 {
    idle.iter()
        .filter(|lane| u64::from(**lane) < number)
        .count() as u64
}

/// Whether the lane of this number is one of these.
pub fn has(idle: &[u32], number: u64) -> bool {
    idle.iter().any(|lane| u64::from(*lane) == number)
}
