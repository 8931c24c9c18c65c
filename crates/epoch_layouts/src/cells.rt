//! What a run tells of its cells: how long each stands, what points to it, and which participants read it.
mod cells;
mod run;
mod shown;

pub use cells::{FilledCell, FilledCells};
pub use shown::{CellLook, Shown, shown_of};
