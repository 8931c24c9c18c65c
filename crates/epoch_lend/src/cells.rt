//! Cells that lend. A cell holds one value after another, each at a turn of its own, and guards look at it by one plain
//! load.
pub mod block;
pub mod sight;
pub mod turns;
pub mod word;
