//! Tests of `epoch_script` by its public calls: random lines, and a script of which a read, a write or an allocation is
//! refused. What scripts print, and what is told of bad lines, stands in the `runs.txt` of the programs.
#[cfg(test)]
mod memory;
#[cfg(test)]
mod refusals;
#[cfg(test)]
mod thrown;
