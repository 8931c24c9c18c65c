//! Small programs over these crates, each a page to copy: the functions are proved, and `tests_lend` runs them.
#![tactic(auto)]

pub mod crossed_out;
pub mod deferred;
pub mod last_owner;
pub mod lent;
pub mod replacement;
pub mod schedule;
pub mod shared_value;
