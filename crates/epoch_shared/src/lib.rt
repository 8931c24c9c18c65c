//! A value, a map, a cache, a channel and a stack that threads share, each ready to use.
#![tactic(auto)]

mod channel;
mod crew;
mod hashed;
mod leaving;
mod map;
mod sharing;
mod sharing_map;
mod sharing_stack;
mod sharing_three;
mod sizes;
mod stack;
mod start;
mod value;

pub use channel::SharedChannel;
pub use crew::{Crew, MapCrew, StackCrew, ValueCrew};
pub use epoch_cells::{Fault, Refused};
pub use epoch_map::{MapKey, Seeks};
pub use hashed::Hashed;
pub use map::{MapInserts, MapReads, MapRemovals, SharedMap};
pub use sharing::share_value;
pub use sharing_map::{share_cache, share_map};
pub use sharing_stack::share_stack;
pub use sharing_three::share;
pub use sizes::SharedSizes;
pub use stack::SharedStack;
pub use value::SharedValue;
