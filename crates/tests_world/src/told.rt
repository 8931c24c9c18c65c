//! Steps and what they tell, as constant tables hold them: a constant holds no name of a cell yet.

use epoch_bags::Called;
use epoch_cells::Fault;
use epoch_world::{AccessAnswer, Call, Entry, Reply, Step};
use std::alloc::{AllocError, Global};

/// A step with its reply. Where no participant is named it is of the first one, number 0, and where no step is named it
/// is its Go.
#[derive(Clone, Copy)]
pub(crate) enum Told {
    /// A registration that gives this position.
    Registered(u64),
    /// A pin of this participant begins, or a flush under its first guard.
    Pins(u64),
    FlushesFirst(u64),
    /// The first participant's other calls begin, under this guard.
    Unpins(Option<u64>),
    Repins(Option<u64>),
    Pauses(Option<u64>),
    Resumes(Option<u64>),
    Defers(Option<u64>),
    Flushes(Option<u64>),
    Releases,
    /// This participant publishes its pin, withdraws it, or renews it.
    Pinned(u64),
    Unpinned(u64),
    Repinned(u64),
    /// A participant's Go tells the pin of another.
    PinnedFor(u64, u64),
    /// This participant goes on.
    Stepped(u64),
    /// A job gets this ticket, or the one of this ticket is called.
    Deferred(u64),
    Called(u64),
    /// The removal of this ticket finds its value gone.
    CalledGone(u64),
    CalledNow,
    /// A pin is done, with this guard.
    Guard(u64),
    Done,
    Released,
    /// A call is refused at its end, for want of a place for a bag.
    BagsFull,
    /// A registration begins, and a pin is published at its begin.
    RegistrationBegins,
    PinnedAtBegin,
    /// A registration, the Begin of a pin, a Go, an end, or a step of an end is refused with this fault.
    RegistrationRefused(Fault),
    PinRefused(Fault),
    GoRefused(Fault),
    EndRefused(Fault),
    EndGoRefused(Fault),
    /// An end begins, takes a bag, and is done after this many calls.
    EndBegins,
    EndTakes,
    EndDone(u64),
    /// A step of an end calls the job of this ticket, or withdraws a pin.
    CalledByEnd(u64),
    UnpinnedByEnd,
}

impl Told {
    pub(crate) fn step(self) -> Step {
        match self {
            Told::Registered(_) | Told::RegistrationBegins | Told::RegistrationRefused(_) => {
                Step::Register
            }
            Told::Pins(participant) => Step::Begin(participant, Call::Pin),
            Told::FlushesFirst(participant) => Step::Begin(participant, Call::Flush(Some(0))),
            Told::Unpins(guard) => Step::Begin(0, Call::Unpin(guard)),
            Told::Repins(guard) => Step::Begin(0, Call::Repin(guard)),
            Told::Pauses(guard) => Step::Begin(0, Call::Pause(guard)),
            Told::Resumes(guard) => Step::Begin(0, Call::Resume(guard)),
            Told::Defers(guard) => Step::Begin(0, Call::Defer(guard)),
            Told::Flushes(guard) => Step::Begin(0, Call::Flush(guard)),
            Told::Releases => Step::Begin(0, Call::Release),
            Told::PinnedAtBegin | Told::PinRefused(_) => Step::Begin(0, Call::Pin),
            Told::Pinned(participant)
            | Told::Unpinned(participant)
            | Told::Repinned(participant)
            | Told::Stepped(participant)
            | Told::PinnedFor(participant, _) => Step::Go(participant),
            Told::EndBegins | Told::EndRefused(_) => Step::End,
            Told::CalledByEnd(_)
            | Told::UnpinnedByEnd
            | Told::EndTakes
            | Told::EndDone(_)
            | Told::EndGoRefused(_) => Step::EndGo,
            _ => Step::Go(0),
        }
    }

    /// Where nothing else is said, a call begins.
    pub(crate) fn reply(self) -> Reply {
        match self {
            Told::Registered(participant) => Reply::Registered(participant),
            Told::Pinned(participant) | Told::PinnedFor(_, participant) => {
                Reply::Pinned(participant)
            }
            Told::PinnedAtBegin => Reply::Pinned(0),
            Told::Unpinned(participant) => Reply::Unpinned(participant),
            Told::UnpinnedByEnd => Reply::Unpinned(0),
            Told::Repinned(participant) => Reply::Repinned(participant),
            Told::Stepped(_) | Told::EndTakes => Reply::Stepped,
            Told::Deferred(ticket) => Reply::Deferred(ticket),
            Told::Called(ticket) | Told::CalledByEnd(ticket) => Reply::Called(ticket, Called::Ran),
            Told::CalledGone(ticket) => Reply::Called(ticket, Called::Gone),
            Told::CalledNow => Reply::CalledNow(Called::Ran),
            Told::Guard(guard) => Reply::Done(AccessAnswer::Guard(guard)),
            Told::Done => Reply::Done(AccessAnswer::Unit),
            Told::Released => Reply::Done(AccessAnswer::Released),
            Told::BagsFull => Reply::Refused(Fault::BagsFull),
            Told::RegistrationRefused(fault) | Told::PinRefused(fault) => Reply::Refused(fault),
            Told::GoRefused(fault) | Told::EndRefused(fault) | Told::EndGoRefused(fault) => {
                Reply::Refused(fault)
            }
            Told::EndDone(calls) => Reply::Done(AccessAnswer::Count(calls)),
            _ => Reply::Began,
        }
    }
}

/// The entries of this history.
fn entries_of(alloc: Global, history: &[Told]) -> Result<Vec<Entry>, AllocError> {
    let mut entries = Vec::new(alloc);
    for told in history {
        entries.push(Entry {
            step: told.step(),
            reply: told.reply(),
        })?;
    }
    Ok(entries)
}

/// The entries of this history, for which memory is asked once more if it is refused.
pub(crate) fn entries_at_last(alloc: Global, history: &[Told]) -> Result<Vec<Entry>, AllocError> {
    match entries_of(alloc, history) {
        Ok(entries) => Ok(entries),
        Err(_) => entries_of(alloc, history),
    }
}
