//! A fixed number of cells that lend: values are placed, looked at by names that are plain numbers, and taken back
//! together.
pub mod cells;
pub mod growing;
pub mod room;
pub mod set_once;
pub mod slot;
