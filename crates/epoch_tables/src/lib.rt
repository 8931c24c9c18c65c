//! The tables that threads share: the participants' words with the epoch, and the places for sealed bags.
#![tactic(auto)]

pub mod ends;
mod seated;
pub mod shared_places;
pub mod table;

pub use seated::Seated;
