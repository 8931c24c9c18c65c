//! Tests of the map that grows, by its public calls: on one thread, beside a map of std, and on several.
#[cfg(test)]
mod beside_std;
#[cfg(test)]
mod calls;
#[cfg(test)]
mod threads;
