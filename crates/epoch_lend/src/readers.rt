//! Readers, which pin at the posts of a set, and the values that are lent to their guards by plain loads. No call asks
//! for what its caller can't test.
pub mod posts;
pub mod reader;
