//! Calls of a structure's program by threads, whatever keeps the removals that they defer, and reads that go ahead.
mod driver;
mod ending;
mod keeping;
mod reading;
mod replies;
mod spots;

pub use driver::{Outcome, drive};
pub use ending::Ends;
pub use keeping::Keeps;
pub use reading::{GoesAhead, read_on};
pub use replies::{as_reply, newest};
pub use spots::Spots;
