//! Calls of a map by its program, over any spots, whatever keeps their removals; and look-ups that only read.
mod calls;
mod comparing;
mod laws;
mod looks;
mod spots;
mod walk;

pub use calls::{get_over, insert_over, remove_over};
pub use comparing::coded;
pub use laws::every_coded_call_goes_as_one_with_entries;
pub use looks::look_over;
pub use spots::MapSpots;
