//! Tests of the map whose nodes are lent, by its public calls: on one thread, beside a map of std, and on several.
#[cfg(test)]
mod alone;
#[cfg(test)]
mod beside_std;
#[cfg(test)]
mod books;
#[cfg(test)]
pub(crate) mod calls;
#[cfg(test)]
mod scenes;
#[cfg(test)]
mod threads;
