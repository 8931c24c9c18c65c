//! Numbered places for sealed bags, which threads share: a word and a slot for each.
//!
//! A thread takes its steps through a *seat*. What the seat knows is its *view*, which only contracts see.
mod closed;
mod cursors;
mod laws;
mod places;
mod plays;
mod steps;
mod view;

pub use closed::{ClosedPlaces, UnsharedPlaces};
pub use laws::{closed_places_hold_the_rest, no_bag_is_lost};
pub use places::{MOST_PLACES, PlaceRule, PlaceSeat, SharedPlaces};
pub use view::PlaceView;
