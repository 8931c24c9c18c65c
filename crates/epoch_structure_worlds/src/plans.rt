//! A structure in the cells of a world, which takes steps one at a time: any whose calls are phases.
mod calls;
mod step;
mod steps;
mod world;

pub use epoch_laws::{Reply, Shape};
pub use step::{PlainCall, PlanReply, PlanStep};
pub use world::PlanWorld;
