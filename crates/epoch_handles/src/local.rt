//! The parts of a handle.
use crate::collector::Collector;
use epoch_bags::Job;
use epoch_machine::Machine;
use epoch_tables::shared_places::PlaceSeat;
use epoch_tables::table::ParticipantSeat;

mod collect;
mod pin;
mod put;
mod release;
mod steps;

/// One participant: its seats at the shared tables, its position, and its machine.
pub struct Local<'c, T, W> {
    pub(crate) collector: &'c Collector<T, W>,
    pub(crate) seat: ParticipantSeat,
    pub(crate) claimer: PlaceSeat<Job<W>>,
    pub(crate) position: usize,
    pub(crate) machine: Machine<Job<W>>,
}
