//! Collectors, handles and guards: participants on real threads, each driven by its machine.
#![tactic(auto)]

mod collector;
mod guard;
mod handle;
mod home;
mod interlude;
pub mod laws;
mod local;
mod paused;
mod pointable;
mod released;
mod rooms;
pub mod structures;

pub use collector::{Capacities, Collector};
pub use guard::{Guard, unprotected};
pub use handle::LocalHandle;
pub use home::{HasPlacing, Home, InCells, Placing, boxed_under, home_of, place_under, take_under};
pub use interlude::{DirectInterlude, HasInterlude, Interlude};
pub use paused::Paused;
pub use pointable::{Pointable, tag_of};
pub use released::Released;
