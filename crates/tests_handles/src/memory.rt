//! Tests of memory: which calls take none.
#[cfg(test)]
mod handles;
#[cfg(test)]
mod made;
#[cfg(test)]
mod pointers;
#[cfg(test)]
mod stores;
