//! A third store of bags, beside those of `epoch_bags`, for tests: a pile, which looks first at the bag that was put
//! last.
mod pile;

pub use pile::Pile;
