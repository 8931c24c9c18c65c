//! The participants' table, which threads share.
//!
//! A *participant* has a *position* in the table, and a word there. A thread takes its steps through a
//! *seat*. What the seat knows is its *view*, which only contracts see.
mod laws;
mod participants;
mod plays;
mod steps;
mod view;

pub use laws::{
    each_epoch_is_stored, epoch_never_falls, expired_means_read_later, pinned_seats_hold_bags_back,
    store_never_lowers,
};
pub use participants::{EpochRule, MOST_POSITIONS, ParticipantSeat, Participants};
pub use view::ParticipantView;
