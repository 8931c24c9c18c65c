//! The run of a script, as its picture shows it: the steps with what each of them told, laid out in lanes and columns.
#![tactic(auto)]

pub mod cells;
mod layout;
mod moment;
mod recording;

pub use layout::{Arrow, AtOnce, Bar, DeferralMark, MOST_COLUMNS, Mark, Picture, Refusal, lay_out};
pub use moment::{Moment, lane_of};
pub use recording::{MOST_STEPS, Stop, record};
