//! Recorded histories: what the entries tell, as events, and plain checkers of lists of steps with their replies.
//!
//! A world keeps no history. A caller that has recorded one, as steps with their replies from a new world on, checks
//! here that it is lawful, that it keeps grace, and that no ticket is called twice, by the very definitions that the
//! laws of every run speak of. The checkers take no memory.
mod events;
mod fits;
mod grace;
mod guards;
mod known;
mod lawful;
mod phase;
mod tickets;

pub use events::Event;
pub use grace::keeps_grace;
pub use lawful::is_lawful;
pub use tickets::calls_none_twice;
