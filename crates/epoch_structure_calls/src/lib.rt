//! A push, a pop, a look-up and the like on threads, over any accesses to the nodes.
#![tactic(auto)]

pub mod links;
pub mod map;
pub mod phases;
pub mod queue;
pub mod stack;
