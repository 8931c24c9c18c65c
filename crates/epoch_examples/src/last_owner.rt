//! A stack taken apart by its last owner, when no other thread uses it any more.
use epoch::{Collector, unprotected};
use epoch_stack::{Node, Stack};

/// Takes all values off the stack, destroys their nodes at once, and returns the values' sum.
///
/// An unprotected guard holds nothing back, and its calls don't wait for the epoch. That is right if no other thread
/// can reach the structure, as here, where the stack itself was given away.
pub fn take_apart(collector: &Collector<Node<u64>>, stack: Stack<'_, u64>) -> u64 {
    let guard = unprotected(collector);
    let mut sum: u64 = 0;
    for _ in 0..u64::MAX {
        match stack.pop_alone(&guard, 1) {
            Ok(Some(value)) => sum = sum.wrapping_add(value),
            // Nothing is left. With no other thread there, no try is lost.
            Ok(None) | Err(_) => break,
        }
    }
    if let Err(_guard) = guard.let_go() {
        unreachable!();
    }
    sum
}
