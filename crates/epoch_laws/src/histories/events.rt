//! Events: what the replies of a history tell.
ghost use Rattle.std.specs.Prelude.{◌≡◌, ◌↔◌, Some};
ghost use Rattle.epoch_laws.specs.Events.{reply_of};

use crate::{Entry, Reply};
use epoch_bags::Called;

/// What one reply tells. The participant of a job that is deferred or called is that of the step; a call by an end has
/// none.
#[derive(Clone, Copy, Debug, PartialEq, Eq)]
pub enum Event {
    /// This participant took its position.
    Registered(u64),
    /// This participant published an epoch.
    Pinned(u64),
    /// This participant withdrew the epoch that it had published.
    Unpinned(u64),
    /// This participant published another epoch.
    Repinned(u64),
    /// A job was accepted under this ticket.
    Deferred(u64),
    /// The job of this ticket was called.
    Called(u64, Called),
}

impl Event {
    /// Returns what the reply of an entry tells, or `None`. A job called at once, under an unprotected guard, is no
    /// event.
    pub fn of(entry: &Entry) -> Option<Event>
        // An event is what the reply of an entry tells.
        ensures { (event : Event) → (result ≡ Some event) ↔ (entry.now.reply ≡ reply_of event) }
    {
        match entry.reply {
            Reply::Registered(participant) => Some(Event::Registered(participant)),
            Reply::Pinned(participant) => Some(Event::Pinned(participant)),
            Reply::Unpinned(participant) => Some(Event::Unpinned(participant)),
            Reply::Repinned(participant) => Some(Event::Repinned(participant)),
            Reply::Deferred(ticket) => Some(Event::Deferred(ticket)),
            Reply::Called(ticket, outcome) => Some(Event::Called(ticket, outcome)),
            Reply::Began
            | Reply::Stepped
            | Reply::CalledNow(_)
            | Reply::Done(_)
            | Reply::Refused(_) => None,
        }
    }
}
