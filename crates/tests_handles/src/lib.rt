//! Tests of `epoch` by its public calls: handles, guards, jobs, a collector's end, pointers, cells and memory that
//! participants keep, removals that are deferred, and handles on several threads.
#![tactic(auto)]

#[cfg(test)]
mod calls;
#[cfg(test)]
mod counts;
#[cfg(test)]
mod ends;
#[cfg(test)]
mod guards;
#[cfg(test)]
mod jobs;
#[cfg(test)]
mod keeping;
mod memory;
#[cfg(test)]
mod pointers;
#[cfg(test)]
mod removals;
#[cfg(test)]
mod repins;
#[cfg(test)]
mod seats;
#[cfg(test)]
mod threads;
#[cfg(test)]
mod wants;
