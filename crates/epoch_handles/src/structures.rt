//! What a structure of your own asks of the handles and guards that its calls are given.
mod serving;

pub use serving::{is_under, serves};
