//! A value in place that is taken out at most once, by any of the threads that share it.
mod laws;
mod take_once;

pub use laws::take_twice;
pub use take_once::{Put, TakeOnce};
