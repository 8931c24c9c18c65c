//! From the steps of a run to what its picture shows. Time is the number of a step.
ghost use Rattle.std.specs.Prelude.{◌≡◌, ◌≤◌, ◌<◌, count_by, length, IfOk};
ghost use Rattle.std.specs.List.{All};
ghost use Rattle.epoch_layouts.specs.Told.{begins, calls, defers, lanes_told, pins, refuses, registers};

mod bars;
mod columns;
mod lanes;
mod marks;

use crate::Moment;
use crate::cells::{Shown, shown_of};
use crate::moment::entries_of;
pub use columns::MOST_COLUMNS;
use epoch_bags::Called;
use epoch_cells::{Fault, Name};
use epoch_world::Call;
use std::alloc::{AllocError, Global};

/// What lasts for a while, in the lane of a participant or of a place; `None` is the collector's.
#[derive(Clone, Copy)]
pub struct Bar<K> {
    pub lane: Option<u64>,
    pub kind: K,
    /// The step with which it begins.
    pub from: u32,
    /// The step with which it ends, or `None` where the run is over before.
    pub to: Option<u32>,
}

/// A step, and the lane in which it is made.
#[derive(Clone, Copy)]
pub struct Mark {
    pub lane: Option<u64>,
    pub at: u32,
}

/// A deferral that was accepted.
#[derive(Clone, Copy)]
pub struct DeferralMark {
    pub ticket: u64,
    /// The cell that the job removes, if it is a removal.
    pub removes: Option<Name>,
    pub mark: Mark,
}

/// From a deferral to the call of its job. `None`: no step before accepted a job under this ticket.
#[derive(Clone, Copy)]
pub struct Arrow {
    pub ticket: u64,
    pub outcome: Called,
    pub from: Option<Mark>,
    pub to: Mark,
}

/// A job that was called at once.
#[derive(Clone, Copy)]
pub struct AtOnce {
    pub outcome: Called,
    pub mark: Mark,
}

/// A step that was refused.
#[derive(Clone, Copy)]
pub struct Refusal {
    pub fault: Fault,
    pub mark: Mark,
}

/// What the picture of a run shows.
#[derive(Drop)]
pub struct Picture<'m> {
    /// The steps that it shows.
    pub moments: &'m [Moment],
    /// The column of each step.
    pub columns: Vec<u32>,
    /// How many participants have a lane: those at the positions below.
    pub participants: u32,
    /// From each registration to its release.
    pub registrations: Vec<Bar<()>>,
    /// The calls under way; `None` is the end of the collector.
    pub calls: Vec<Bar<Option<Call>>>,
    /// The epochs that participants published, until they published another one or none.
    pub pins: Vec<Bar<u64>>,
    pub deferrals: Vec<DeferralMark>,
    pub arrows: Vec<Arrow>,
    /// The jobs that were called at once, which have no ticket.
    pub called_at_once: Vec<AtOnce>,
    pub refusals: Vec<Refusal>,
    /// The words of places that aren't empty.
    pub places: Vec<Bar<u64>>,
    pub epochs: Vec<Bar<u64>>,
    /// What is shown of the cells.
    pub cells: Vec<Shown>,
}

/// Lays the steps of a run out. `AllocError`: an allocation was refused.
pub fn lay_out<'m>(alloc: Global, moments: &'m [Moment]) -> Result<Picture<'m>, AllocError>
    // A lane for each participant that ever registered, and a pin, a call, a mark or an arrow for each reply that tells
    // of one.
    ensures lanes { IfOk result (λ picture. picture.participants ≡ lanes_told moments.now) }
    ensures registrations { IfOk result (λ picture.
        length picture.registrations.items ≡ count_by registers moments.now) }
    ensures calls { IfOk result (λ picture. length picture.calls.items ≡ count_by begins moments.now) }
    ensures pins { IfOk result (λ picture. length picture.pins.items ≡ count_by pins moments.now) }
    ensures deferrals { IfOk result (λ picture. length picture.deferrals.items ≡ count_by defers moments.now) }
    ensures arrows { IfOk result (λ picture. length picture.arrows.items ≡ count_by calls moments.now) }
    ensures refusals { IfOk result (λ picture. length picture.refusals.items ≡ count_by refuses moments.now) }
    ensures columns { IfOk result (λ picture. length picture.columns.items ≡ length moments.now) }
    ensures few { IfOk result (λ picture. All (λ column. column < MOST_COLUMNS) picture.columns.items) }
{
    let deferrals = marks::deferrals_of(alloc, moments)?;
    let arrows = marks::arrows_of(alloc, moments, &deferrals)?;
    Ok(Picture {
        moments,
        columns: columns::columns_of(alloc, moments)?,
        participants: lanes::participants_of(moments),
        registrations: bars::registrations_of(alloc, moments)?,
        calls: bars::calls_of(alloc, moments)?,
        pins: bars::pins_of(alloc, moments)?,
        deferrals,
        arrows,
        called_at_once: marks::called_at_once_of(alloc, moments)?,
        refusals: marks::refusals_of(alloc, moments)?,
        places: bars::places_of(alloc, moments)?,
        epochs: bars::epochs_of(alloc, moments)?,
        cells: shown_of(alloc, &entries_of(alloc, moments)?)?,
    })
}
