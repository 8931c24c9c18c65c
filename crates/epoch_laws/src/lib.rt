//! The steps of all participants of a collector, what holds of every run of them, and checkers of recorded runs.
#![tactic(auto)]

pub mod heap;
pub mod histories;
mod laws;
pub mod reach;
pub mod rounds;
mod shape;
mod step;

pub use crate::heap::{Access, AccessAnswer, Accessed, Change, Ptr, Spot, Update};
pub use laws::{
    every_end_answers_its_calls, every_end_calls_all, every_full_reply_found_each_place,
    every_refusal_leaves_what_it_must, every_run_holds_each_ticket_once, every_run_is_lawful,
    every_run_keeps_grace, every_run_numbers_tickets,
};
pub use shape::Shape;
pub use step::{Call, Deferral, Entry, Phase, Progress, Reply, Step, Word};
