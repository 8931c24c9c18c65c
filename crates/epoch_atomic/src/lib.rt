//! Pointers to values in cells, which threads share.
#![tactic(auto)]

mod array;
pub mod atomic;
mod orders;
mod plain;

pub use array::Array;
pub use epoch_handles::{Pointable, tag_of};
pub use orders::CompareAndSetOrdering;
pub use plain::Plain;
