//! Values behind pointers that are read by plain loads, under the guards of a domain.
#![tactic(auto)]

mod cached;
mod placing;
pub mod pointers;
mod retiring;
pub mod scoped;
pub mod steps;
pub mod store;
mod taking;
pub mod writer;

pub use cached::Cached;
pub use epoch_atomic::atomic::{Atomic, Shared};
pub use epoch_atomic::{Plain, Pointable};
pub use epoch_cells::{Fault, Refused};
pub use epoch_lend::domain::{Domain, DomainWork, with_domain};
pub use epoch_lend::readers::posts::{Made, PostSet, Posts};
pub use epoch_lend::session::{LendingGuard, Session};
pub use scoped::{ScopedSession, pinned, staying};
pub use store::Store;
pub use store::lent_cells::LentCells;
pub use writer::Writer;
