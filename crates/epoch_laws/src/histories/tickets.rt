//! How often each ticket is called, and whether it was deferred before.
ghost use Rattle.std.specs.Prelude.{◌↔◌, IsTrue};
ghost use Rattle.epoch_laws.specs.Lawful.{CallsNoneTwice, IsCalledBefore, CallsAfterDeferrals, IsDeferredBefore};

use crate::{Entry, Reply};

/// Returns whether no ticket is called twice. It takes no memory. Its time grows with the square of the number of
/// entries.
pub fn calls_none_twice(entries: &[Entry]) -> bool
    ensures { IsTrue result ↔ CallsNoneTwice entries.now }
{
    for (place, entry) in entries.iter().enumerate() {
        if let Reply::Called(ticket, _) = entry.reply {
            if is_called_before(entries, ticket, place) {
                return false;
            }
        }
    }
    true
}

/// Returns whether each ticket that is called was deferred before.
pub fn calls_after_deferrals(entries: &[Entry]) -> bool
    ensures { IsTrue result ↔ CallsAfterDeferrals entries.now }
{
    for (place, entry) in entries.iter().enumerate() {
        if let Reply::Called(ticket, _) = entry.reply {
            if !is_deferred_before(entries, ticket, place) {
                return false;
            }
        }
    }
    true
}

/// Whether the ticket was called before that place.
fn is_called_before(entries: &[Entry], ticket: u64, place: usize) -> bool
    ensures { IsTrue result ↔ IsCalledBefore entries.now ticket place }
{
    for (other, entry) in entries.iter().enumerate() {
        if let Reply::Called(called, _) = entry.reply {
            if other < place && called == ticket {
                return true;
            }
        }
    }
    false
}

/// Whether the ticket was deferred before that place.
fn is_deferred_before(entries: &[Entry], ticket: u64, place: usize) -> bool
    ensures { IsTrue result ↔ IsDeferredBefore entries.now ticket place }
{
    for (other, entry) in entries.iter().enumerate() {
        if let Reply::Deferred(deferred) = entry.reply {
            if other < place && deferred == ticket {
                return true;
            }
        }
    }
    false
}
