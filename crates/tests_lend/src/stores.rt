//! Tests of `epoch_lend_pointers` by its public calls.
#[cfg(test)]
pub(crate) mod calls;
#[cfg(test)]
mod guards;
#[cfg(test)]
mod memory;
#[cfg(test)]
mod refusals;
pub mod shares;
#[cfg(test)]
mod shop;
#[cfg(test)]
mod stage;
#[cfg(test)]
mod stalled;
#[cfg(test)]
mod threads;
#[cfg(test)]
mod writers;
