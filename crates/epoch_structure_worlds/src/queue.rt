//! A queue after Michael and Scott in the cells of a world, which takes steps one at a time.
mod world;

pub use crate::plans::{PlainCall, PlanReply, PlanStep, Reply, Shape};
pub use epoch_structure_laws::queue::{QueueAnswer, QueueWork};
pub use world::{QueueReply, QueueStep, QueueWorld};
