//! Tests of what threads share: cells, values behind pointers, slots of values that are taken once, bags, places, the
//! participants' table, and how these are shown.
#![tactic(auto)]

#[cfg(test)]
mod cells;
#[cfg(test)]
mod jobs;
#[cfg(test)]
mod kinds;
#[cfg(test)]
mod queues;
#[cfg(test)]
mod shared_places;
#[cfg(test)]
mod shown;
#[cfg(test)]
mod slots;
#[cfg(test)]
mod tables;
#[cfg(test)]
mod tables_in_threads;
#[cfg(test)]
mod threads;
#[cfg(test)]
mod wants;
