//! A stack and a queue for threads, whose nodes are lent: a look at a node writes nothing.
#![tactic(auto)]

mod owned;
pub mod queue;
mod root;
pub mod stack;

pub use epoch_lend_nodes::{Gathers, LentNode, Link, ListNode};
pub use owned::{MovesValue, OwnedNode};
pub use queue::LendingQueue;
pub use stack::LendingStack;
