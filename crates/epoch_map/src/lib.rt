//! Two maps for threads, one that grows and one whose number of buckets is chosen, whose nodes are lent: a look-up
//! writes nothing.
#![tactic(auto)]

mod growing;
mod iter;
mod map;
mod node;
mod seeks;
mod spots;

pub use epoch_lend_nodes::{Gathers, LentNode, Link};
pub use epoch_structure_laws::map::{MapAnswer, MapWork};
pub use growing::{GrowingIter, GrowingMap};
pub use iter::MapIter;
pub use map::LendingMap;
pub use node::{LentEntry, MapKey, MapNode};
pub use seeks::Seeks;
pub use spots::{LentSpots, MapCallNodes};
