//! Values that aren't copied, and what they count.
use crate::counts::{counts_of, note};
use crate::wants::{want, want_ok};
use epoch::{Fault, Refused};
use std::alloc::Global;
use std::process::Abort;
use std::sync::Arc;
use std::sync::atomic::AtomicU64;
use std::sync::atomic::Ordering::SeqCst;

/// How often each value was dropped.
pub(crate) type Drops = Arc<Vec<AtomicU64>>;

/// A value with its number in memory of its own. It counts its drop.
pub(crate) struct Token {
    number: Box<u64>,
    drops: Drops,
}

impl Token {
    /// The value of this number. Its drop is counted there.
    pub(crate) fn new(rt: &impl Abort, alloc: Global, number: u64, drops: &Drops) -> Token {
        let number = want_ok(rt, "memory for a number", Box::new(alloc, number));
        let drops = want_ok(rt, "room for one more owner", drops.clone());
        Token { number, drops }
    }
}

impl Drop for Token {
    fn drop(self) {
        let Token { number, drops } = self;
        if let Some(count) = drops.get(*number as usize) {
            count.fetch_add(1, SeqCst);
        }
    }
}

/// The number of the value, which is dropped.
pub(crate) fn number_of(found: Option<Token>) -> Option<u64> {
    let token = found?;
    Some(*token.number)
}

/// What a pop answered, with the number of the value in its place.
pub(crate) fn told_of_pop(popped: Result<Option<Token>, Fault>) -> Result<Option<u64>, Fault> {
    let found = popped?;
    Ok(number_of(found))
}

/// What a push answered: its fault, and the number of the value that it handed back, which is dropped.
pub(crate) fn told_of_push(pushed: Result<(), Refused<Token>>) -> Result<(), (Fault, u64)> {
    let Err(Refused { fault, value }) = pushed else {
        return Ok(());
    };
    Err((fault, *value.number))
}

/// The value of this number, if it came back. A pause helps.
pub(crate) fn back_of(
    rt: &impl Abort,
    pushed: Result<(), Refused<Token>>,
    number: u64,
) -> Option<Token> {
    let Err(Refused { fault, value }) = pushed else {
        return None;
    };
    want(rt, "memory is there", fault == Fault::NoMemory, false);
    want(rt, "the value that comes back", *value.number, number);
    Some(value)
}

/// This many counts of drops, which stand at 0.
pub(crate) fn drops_of(rt: &impl Abort, alloc: Global, values: u64) -> Drops {
    let counts = counts_of(rt, alloc, values);
    want_ok(rt, "memory for the counts", Arc::new(alloc, counts))
}

/// Counts that the value came off, and drops it.
pub(crate) fn count(rt: &impl Abort, counts: &[AtomicU64], popped: Option<Token>) {
    if let Some(number) = number_of(popped) {
        note(rt, counts, number);
    }
}

/// Of the values that count their drops there, those that came off and those from `room` on were dropped once, and no
/// others.
pub(crate) fn want_dropped(
    rt: &impl Abort,
    drops: &[AtomicU64],
    room: u64,
    popped: &[Option<u64>],
) {
    for (value, count) in drops.iter().enumerate() {
        let value = value as u64;
        let is_off = value >= room || popped.contains(&Some(value));
        let wanted = if is_off { 1 } else { 0 };
        assert_eq!(rt; count.load(SeqCst), wanted, "drops of value {value}");
    }
}
