//! The end of a collector: each job that is left in its places is called.
mod end;

pub use end::{AtEnd, end_bags, end_left, end_next};
