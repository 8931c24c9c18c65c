//! What structures have in common whose nodes are lent: their nodes, the accesses to them, and how a writer keeps their
//! removals.
#![tactic(auto)]

mod finding;
mod gathering;
mod link;
mod node;
mod placing;
mod points;
mod serving;
mod spots;

pub use finding::node_named;
pub use gathering::Gathers;
pub use link::{Changing, Link};
pub use node::{LentNode, ListNode};
pub use placing::{Standing, begin_call, begin_placing, place_node, placed_in};
pub use points::{ptr_of, write_at};
pub use serving::{give_back, is_writer_of, without_bags};
pub use spots::{CallNodes, NodeSpots};
