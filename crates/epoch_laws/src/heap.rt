//! Cells with pointers in them, and roots, which one step at a time reads or changes.
mod access;
mod heap;

pub use access::{Access, AccessAnswer, Accessed, Change, Ptr, Spot, Update};
pub use heap::{Content, Heap, is_name};
