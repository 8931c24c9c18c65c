//! Tests of values that are lent to readers: in cells, in stores, and in an ordered map. And runs of the pages to copy.
#![tactic(auto)]

#[cfg(test)]
mod ordered;
#[cfg(test)]
mod pages;
#[cfg(test)]
mod probes;
#[cfg(test)]
mod race;
#[cfg(test)]
mod readers;
#[cfg(test)]
mod sessions;
mod stores;
#[cfg(test)]
mod wants;
