//! How a world is shown: by its epoch, and by how many participants are registered and how many tickets were given.
use crate::world::World;
use crate::world::seat::Seat;
use epoch_bags::BagStore;
use epoch_laws::{Deferral, Word};
use std::fmt;

impl<S: BagStore<Job = Deferral>> fmt::Debug for World<S> {
    fn fmt<F: fmt::Write>(&self, f: &mut fmt::Formatter<F>) -> fmt::Result {
        f.debug_struct("World")
            .field("epoch", &self.common.epoch)
            .field("participants", &registered(&self.seats))
            .field("tickets", &self.common.tickets)
            .finish_non_exhaustive()
    }
}

// How many positions are taken.
fn registered(seats: &[Seat]) -> usize {
    seats
        .iter()
        .filter(|seat| seat.word() != Word::Free)
        .count()
}
