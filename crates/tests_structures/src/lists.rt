//! Tests of the stack and the queue whose nodes are lent, by their public calls: on one thread, beside a deque of std,
//! and on several.
#[cfg(test)]
mod alone;
#[cfg(test)]
mod beside_std;
#[cfg(test)]
mod pile;
#[cfg(test)]
mod scenes;
#[cfg(test)]
mod threads;
