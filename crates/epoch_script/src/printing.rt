//! From a reply to the text of its line.

use epoch_bags::Called;
use epoch_cells::Name;
use epoch_laws::Reply;
use epoch_laws::heap::{AccessAnswer, Ptr};
use std::fmt;

/// A reply, printed as its line.
#[derive(Clone, Copy)]
pub struct Printed(pub Reply);

impl fmt::Display for Printed {
    fn fmt<W: fmt::Write>(&self, f: &mut fmt::Formatter<W>) -> fmt::Result {
        match self.0 {
            Reply::Registered(position) => write!(f, "registered {position}"),
            Reply::Began => write!(f, "began"),
            Reply::Stepped => write!(f, "stepped"),
            Reply::Pinned(position) => write!(f, "pinned {position}"),
            Reply::Unpinned(position) => write!(f, "unpinned {position}"),
            Reply::Repinned(position) => write!(f, "repinned {position}"),
            Reply::Deferred(ticket) => write!(f, "deferred {ticket}"),
            Reply::Called(ticket, called) => write!(f, "called {ticket} {}", outcome(called)),
            Reply::CalledNow(called) => write!(f, "called-now {}", outcome(called)),
            Reply::Done(answer) => write!(f, "{}", PrintedAnswer(answer)),
            Reply::Refused(fault) => write!(f, "refused {} {fault:?}", fault.number()),
        }
    }
}

/// What a call answers at its end.
#[derive(Clone, Copy)]
struct PrintedAnswer(AccessAnswer);

impl fmt::Display for PrintedAnswer {
    fn fmt<W: fmt::Write>(&self, f: &mut fmt::Formatter<W>) -> fmt::Result {
        match self.0 {
            AccessAnswer::Guard(guard) => write!(f, "guard {guard}"),
            AccessAnswer::Unit => write!(f, "done"),
            AccessAnswer::Released => write!(f, "released"),
            AccessAnswer::Count(jobs) => write!(f, "ended {jobs}"),
            AccessAnswer::Name(name) => write!(f, "name {}", PrintedName(name)),
            AccessAnswer::Value(value) => write!(f, "value {value}"),
            AccessAnswer::Absent => write!(f, "absent"),
            AccessAnswer::Pointer(ptr) => write!(f, "pointer {}", PrintedPtr(ptr)),
            AccessAnswer::Exchanged(ptr) => write!(f, "exchanged {}", PrintedPtr(ptr)),
            AccessAnswer::Unchanged(ptr) => write!(f, "unchanged {}", PrintedPtr(ptr)),
            AccessAnswer::Updated(ptr) => write!(f, "updated {}", PrintedPtr(ptr)),
            AccessAnswer::Stopped(ptr) => write!(f, "stopped {}", PrintedPtr(ptr)),
            AccessAnswer::RanOut(ptr) => write!(f, "ran-out {}", PrintedPtr(ptr)),
        }
    }
}

/// A name: its slot, a dot, and its turn.
#[derive(Clone, Copy)]
struct PrintedName(Name);

impl fmt::Display for PrintedName {
    fn fmt<W: fmt::Write>(&self, f: &mut fmt::Formatter<W>) -> fmt::Result {
        write!(f, "{}.{}", self.0.slot(), self.0.turn())
    }
}

/// A pointer: null or a name, and its tag where that isn't 0.
#[derive(Clone, Copy)]
struct PrintedPtr(Ptr);

impl fmt::Display for PrintedPtr {
    fn fmt<W: fmt::Write>(&self, f: &mut fmt::Formatter<W>) -> fmt::Result {
        match self.0.name {
            Some(name) => write!(f, "{}", PrintedName(name))?,
            None => write!(f, "null")?,
        }
        match self.0.tag {
            0 => Ok(()),
            tag => write!(f, "+{tag}"),
        }
    }
}

fn outcome(called: Called) -> &'static str {
    match called {
        Called::Ran => "ran",
        Called::Destroyed => "destroyed",
        Called::HeldElsewhere => "held",
        Called::Gone => "gone",
    }
}
