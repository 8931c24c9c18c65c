//! What a list of entries tells of one participant, its guards aside.
ghost use Rattle.std.specs.Prelude.{◌≡◌, ℕ, Bool, List, Option};
ghost use Rattle.epoch_laws.specs.Lawful.{Told, nothing, told_after, told_of, after_register, after_begin, after_go};
ghost use Rattle.epoch_laws.specs.Lawful.{counted_after, paused_after, registered_after};
ghost use Rattle.epoch_laws.specs.Known.{known_of, changed};

use crate::heap::AccessAnswer;
use crate::{Call, Entry, Reply, Step};

/// What is told of a participant.
#[derive(Clone, Copy)]
pub struct Known {
    /// Whether its position is taken.
    pub registered: bool,
    /// The call under way, if there is one.
    pub call: Option<Call>,
    /// The guard that is paused, if there is one.
    pub paused: Option<u64>,
    pub pinned: bool,
    /// Whether the call under way has told that it pinned; and so on.
    pub did_pin: bool,
    pub did_unpin: bool,
    pub did_repin: bool,
    pub did_defer: bool,
    pub did_call_now: bool,
}

/// What an entry does to the guards counted.
#[derive(Clone, Copy)]
pub enum GuardChange {
    Adds(u64),
    Takes(u64),
    Keeps,
}

impl Known {
    /// Before any entry.
    pub fn nothing() -> Known
        ensures { result ≡ known_of nothing }
    {
        Known {
            registered: false,
            call: None,
            paused: None,
            pinned: false,
            did_pin: false,
            did_unpin: false,
            did_repin: false,
            did_defer: false,
            did_call_now: false,
        }
    }

    /// Returns what these entries tell of this participant.
    pub fn of(entries: &[Entry], participant: u64) -> Known
        ensures { result ≡ known_of (told_of participant entries.now) }
    {
        let mut known = Known::nothing();
        for entry in entries {
            known = known.after(participant, *entry);
        }
        known
    }

    /// Returns what is told of this participant after one more entry.
    pub fn after(self, participant: u64, entry: Entry) -> Known
        ensures { (t : Told) → self ≡ known_of t → result ≡ known_of (told_after participant t entry.step entry.reply) }
    {
        match entry.step {
            Step::Register => self.after_register(participant, entry.reply),
            Step::Begin(other, call) if other == participant => self.after_begin(call, entry.reply),
            Step::Go(other) if other == participant => self.after_go(entry.reply),
            _ => self,
        }
    }

    fn after_register(self, participant: u64, reply: Reply) -> Known
        ensures { (t : Told) → self ≡ known_of t → result ≡ known_of (after_register participant t reply) }
    {
        match reply {
            Reply::Registered(other) if other == participant => Known {
                registered: true,
                ..self
            },
            _ => self,
        }
    }

    fn after_begin(self, call: Call, reply: Reply) -> Known
        ensures { (t : Told) → self ≡ known_of t → result ≡ known_of (after_begin t call reply) }
    {
        match reply {
            Reply::Began => Known {
                call: Some(call),
                did_pin: false,
                did_unpin: false,
                did_repin: false,
                did_defer: false,
                did_call_now: false,
                ..self
            },
            _ => self,
        }
    }

    fn after_go(self, reply: Reply) -> Known
        ensures { (t : Told) → self ≡ known_of t → result ≡ known_of (after_go t reply) }
    {
        match reply {
            Reply::Pinned(_) => Known {
                pinned: true,
                did_pin: true,
                ..self
            },
            Reply::Unpinned(_) => Known {
                pinned: false,
                did_unpin: true,
                ..self
            },
            Reply::Repinned(_) => Known {
                did_repin: true,
                ..self
            },
            Reply::Deferred(_) => Known {
                did_defer: true,
                ..self
            },
            Reply::CalledNow(_) => Known {
                did_call_now: true,
                ..self
            },
            Reply::Done(_) => Known {
                registered: still_registered(self.call, self.registered),
                call: None,
                paused: still_paused(self.call, self.paused),
                ..self
            },
            Reply::Refused(_) => Known { call: None, ..self },
            _ => self,
        }
    }

    /// Returns what one more entry does to the guards counted of this participant.
    pub fn change(self, participant: u64, entry: Entry) -> GuardChange
        ensures { (t : Told) → self ≡ known_of t
            → (told_after participant t entry.step entry.reply).guards ≡ changed result t.guards }
    {
        match (entry.step, entry.reply) {
            (Step::Go(other), Reply::Done(answer)) if other == participant => at_end(
                self.call, answer,
            ),
            _ => GuardChange::Keeps,
        }
    }
}

/// Whether a position is taken after the end of a call, where it was so before.
fn still_registered(call: Option<Call>, registered: bool) -> bool
    ensures { result ≡ registered_after call registered }
{
    match call {
        Some(Call::Release) => false,
        _ => registered,
    }
}

/// Which guard is paused after the end of a call, where this one was before.
fn still_paused(call: Option<Call>, paused: Option<u64>) -> Option<u64>
    ensures { result ≡ paused_after call paused }
{
    match call {
        Some(Call::Pause(Some(guard))) => Some(guard),
        Some(Call::Resume(Some(_)) | Call::Release) => None,
        _ => paused,
    }
}

/// What the end of a call does to the guards counted.
fn at_end(call: Option<Call>, answer: AccessAnswer) -> GuardChange
    ensures { (guards : List ℕ) → counted_after call answer guards ≡ changed result guards }
{
    match (call, answer) {
        (Some(Call::Pin), AccessAnswer::Guard(guard)) => GuardChange::Adds(guard),
        (Some(Call::Resume(Some(guard))), _) => GuardChange::Adds(guard),
        (Some(Call::Unpin(Some(guard)) | Call::Pause(Some(guard))), _) => GuardChange::Takes(guard),
        _ => GuardChange::Keeps,
    }
}
