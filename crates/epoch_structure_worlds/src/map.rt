//! A map after Harris and Michael in the cells of a world, which takes steps one at a time.
mod world;

pub use crate::plans::{PlainCall, PlanReply, PlanStep, Reply, Shape};
pub use epoch_structure_laws::map::{MapAnswer, MapWork, key_of};
pub use world::{MapReply, MapStep, MapWorld};
