//! A participant of epoch-based memory reclamation: the machine that makes all its decisions.
#![tactic(auto)]

mod laws;
mod machine;

pub use laws::asks_follow_the_table;
pub use machine::{Action, Answer, Ask, Machine, PINS_BETWEEN_COLLECTIONS, Sizes, Stage, holds_up};
