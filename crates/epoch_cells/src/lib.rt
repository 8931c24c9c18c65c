//! Numbered cells for values that are read while others remove them, and the faults that calls answer.
#![tactic(auto)]

pub mod backoff;
mod cells;
mod claims;
mod emptied;
mod fault;
mod kept;
mod notes;
mod shown;
pub mod take_once;

pub use cells::{
    CELL_TRIES, Cells, Freed, HasPuts, Held, IntoSlots, MOST_ROOMS, MOST_SLOT, Name, PlainCells,
    Puts, Reading, Removal, Room, Rooms, Writing,
};
pub use claims::replace;
pub use emptied::{Emptied, empty};
pub use fault::{Fault, Refused};
pub use kept::Kept;
pub use notes::{Notes, SPANS, Span};
