//! A stack, a queue and a map as programs of phases, and what holds of every run of them.
#![tactic(auto)]

mod machine;
pub mod map;
mod plan;
pub mod queue;
pub mod stack;

pub use machine::{PhaseMachine, Wish, Works};
pub use plan::Plan;
