//! Tests of the stacks, the queue and the maps for threads.
#![tactic(auto)]

#[cfg(test)]
mod calls;
#[cfg(test)]
mod counts;
mod growing;
#[cfg(test)]
mod lending;
mod lists;
mod map;
mod moved;
#[cfg(test)]
mod shown;
mod stack;
#[cfg(test)]
mod wants;
