//! Tests of structures in worlds, by their public calls: rows of steps, random runs beside lists and tables, and what
//! debug shows of structures and of worlds.
#![tactic(auto)]

#[cfg(test)]
mod calls;
#[cfg(test)]
mod courses;
#[cfg(test)]
mod lines;
#[cfg(test)]
mod listed;
#[cfg(test)]
mod maps;
#[cfg(test)]
mod orders;
#[cfg(test)]
mod programs;
#[cfg(test)]
mod random;
#[cfg(test)]
mod shown;
#[cfg(test)]
mod structures;
#[cfg(test)]
mod wants;
