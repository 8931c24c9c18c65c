//! A stack, a queue and a map in a world, one step at a time, worlds of any program of phases, and laws of a list that
//! stays sorted.
#![tactic(auto)]

pub mod map;
pub mod marked_list;
pub mod plans;
pub mod queue;
pub mod stack;

pub use epoch_structure_laws::{PhaseMachine, Plan, Wish, Works};
pub use map::MapWorld;
pub use plans::{PlainCall, PlanReply, PlanStep, PlanWorld};
pub use queue::QueueWorld;
pub use stack::StackWorld;
