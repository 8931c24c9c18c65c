//! Values that are lent to guards for as long as the guards live, by plain loads. A caller that marks a value gets the
//! whole value back.
#![tactic(auto)]

pub mod array;
pub mod cells;
pub mod domain;
pub mod grace;
pub mod lending;
pub mod part;
pub mod post;
pub mod readers;
pub mod session;
pub mod steps;
pub mod watch;
