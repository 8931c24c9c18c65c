//! Whether a job is called while a participant that was pinned at its deferral has stayed pinned.
ghost use Rattle.std.specs.Prelude.{◌↔◌, ℕ, ◌<◌, ◌≤◌, IsTrue, length};
ghost use Rattle.epoch_laws.specs.Grace.{WithdrawsAt, StaysPinned, IsBlocked, KeepsGrace};

use crate::{Entry, Reply};

/// Returns whether no job is called while a participant that was pinned at the job's deferral has stayed pinned.
///
/// It takes no memory. Its time grows with the third power of the number of entries if each ticket is deferred once,
/// and with the fourth at worst.
pub fn keeps_grace(entries: &[Entry]) -> bool
    ensures { IsTrue result ↔ KeepsGrace entries.now }
{
    for place in 1..entries.len() {
        if let Reply::Called(ticket, _) = entries[place].reply {
            if is_blocked(entries, ticket, place - 1) {
                return false;
            }
        }
    }
    true
}

/// Whether a participant that was pinned when the ticket was deferred has stayed pinned up to that place.
fn is_blocked(entries: &[Entry], ticket: u64, until: usize) -> bool
    requires { until < length entries.now }
    ensures { IsTrue result ↔ IsBlocked entries.now ticket until }
{
    for (place, entry) in entries.iter().enumerate() {
        if let Reply::Deferred(deferred) = entry.reply {
            if deferred == ticket && somebody_stays_pinned(entries, place, until) {
                return true;
            }
        }
    }
    false
}

/// Whether a participant has been pinned since a place at or before `from`, and withdrew nothing up to `until`.
fn somebody_stays_pinned(entries: &[Entry], from: usize, until: usize) -> bool
    requires from { from < length entries.now }
    requires until { until < length entries.now }
    ensures { IsTrue result ↔ ((who : ℕ) × StaysPinned entries.now who from until) }
{
    for place in 0..from + 1 {
        if let Reply::Pinned(who) | Reply::Repinned(who) = entries[place].reply {
            if !withdraws_between(entries, who, place, until) {
                return true;
            }
        }
    }
    false
}

/// Whether this participant withdraws, after a place and up to another, what it had published.
fn withdraws_between(entries: &[Entry], who: u64, after: usize, until: usize) -> bool
    requires after { after < length entries.now }
    requires until { until < length entries.now }
    ensures { IsTrue result ↔ ((k : ℕ) × (after < k) × (k ≤ until) × WithdrawsAt entries.now k who) }
{
    for place in after + 1..until + 1 {
        if let Reply::Unpinned(other) | Reply::Repinned(other) = entries[place].reply {
            if other == who {
                return true;
            }
        }
    }
    false
}
