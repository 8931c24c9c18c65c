//! Epochs, jobs, bags of jobs and stores of bags, whose steps are taken one at a time.
#![tactic(auto)]

mod bag;
mod epoch;
mod job;
pub mod queue;
mod shown;

pub use bag::{BAG_JOBS, Bag, SealedBag};
pub use epoch::{Epoch, FREE, GREATEST_EPOCH, UNPINNED, pinned_word};
pub use job::{Called, FromCells, Job, Remove, Run, Work};
pub use queue::{
    BagQueue, BagStore, MOST_BAGS, Places, PutCursor, PutStep, TakeCursor, TakeStep, take_some,
};
