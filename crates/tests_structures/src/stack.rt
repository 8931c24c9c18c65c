//! Tests of the stack of `epoch_stack` by its public calls, on one thread, with others in the middle of a call, and on
//! several threads.
#[cfg(test)]
mod calls;
#[cfg(test)]
mod meetings;
#[cfg(test)]
mod memory;
#[cfg(test)]
mod plays;
#[cfg(test)]
mod program;
#[cfg(test)]
mod refusals;
#[cfg(test)]
mod rows;
#[cfg(test)]
mod threads;
