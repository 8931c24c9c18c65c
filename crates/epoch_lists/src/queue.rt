//! A queue for threads, after Michael and Scott, whose nodes are lent: a look at the one in front writes nothing.
mod owned;
mod queue;

pub use epoch_structure_laws::queue::{QueueAnswer, QueuePhase, QueueWork};
pub use queue::LendingQueue;
