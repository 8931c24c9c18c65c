//! Tests of values that stacks and a queue move: what is pushed comes off itself, on one thread and on eight.
#[cfg(test)]
mod lists;
#[cfg(test)]
mod seats;
#[cfg(test)]
mod stacks;
#[cfg(test)]
mod values;
