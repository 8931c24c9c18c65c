//! Tests of whole worlds by their public calls, over three stores of bags: what steps tell, alone and where a
//! participant stalls, what the checkers of histories answer, what is left where memory is refused, and scripts.
#![tactic(auto)]

#[cfg(test)]
mod cell_calls;
#[cfg(test)]
mod deeds;
#[cfg(test)]
mod histories;
#[cfg(test)]
mod memory;
mod pile;
#[cfg(test)]
mod rows;
#[cfg(test)]
mod runs;
#[cfg(test)]
mod script;
#[cfg(test)]
mod sharp;
#[cfg(test)]
mod sizes;
#[cfg(test)]
mod stalls;
#[cfg(test)]
mod told;
#[cfg(test)]
mod wants;
