//! Room in the held bag for the removal of a value, made before the value is unlinked, and the removal itself.
mod room;

pub use room::{defer_removal, make_room};
