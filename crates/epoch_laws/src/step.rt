//! Steps, replies and what a world is made of.

use crate::heap::{Access, AccessAnswer, Ptr};
use epoch_bags::Called;
use epoch_cells::{Fault, Name};

/// What a participant is asked to do. A guard is its number, or `None` for an unprotected guard.
#[derive(Clone, Copy, Debug, PartialEq, Eq)]
pub enum Call {
    /// Pins, and returns the new guard's number.
    Pin,
    /// Gives the guard back.
    Unpin(Option<u64>),
    /// Publishes the present epoch, if the guard is the only one.
    Repin(Option<u64>),
    /// Gives the guard back until the same one is resumed.
    Pause(Option<u64>),
    /// Pins again under the paused guard.
    Resume(Option<u64>),
    /// Defers a job, or calls it at once under an unprotected guard.
    Defer(Option<u64>),
    /// Puts the held bag into the store, and collects.
    Flush(Option<u64>),
    /// Gives the position up.
    Release,
    /// Defers the removal of the pointer's cell, or removes it at once under an unprotected guard.
    DeferDestroy(Option<u64>, Ptr),
    /// A call on cells and pointers.
    Access(Access),
}

/// One step of the world.
#[derive(Clone, Copy, Debug, PartialEq, Eq)]
pub enum Step {
    /// Takes the lowest free position.
    Register,
    /// Begins a call of the participant at this position. It performs nothing yet.
    Begin(u64, Call),
    /// Performs what the participant's machine asks for next, or ends its call.
    Go(u64),
    /// Begins the end of the collector.
    End,
    /// Takes one bag that is left, or calls the next of its jobs.
    EndGo,
}

/// What a step tells.
#[derive(Clone, Copy, Debug, PartialEq, Eq)]
pub enum Reply {
    Registered(u64),
    Began,
    Stepped,
    Pinned(u64),
    Unpinned(u64),
    Repinned(u64),
    /// A job was accepted under this ticket.
    Deferred(u64),
    /// The job of this ticket was called.
    Called(u64, Called),
    /// A job was called at once, under an unprotected guard. It has no ticket.
    CalledNow(Called),
    Done(AccessAnswer),
    Refused(Fault),
}

/// One step and its reply.
#[derive(Clone, Copy, Debug, PartialEq, Eq)]
pub struct Entry {
    pub step: Step,
    pub reply: Reply,
}

/// A job of the world: its ticket, and the name that it removes, if it is a removal.
#[derive(Clone, Copy, Debug, Default, PartialEq, Eq)]
pub struct Deferral {
    pub ticket: u64,
    pub removes: Option<Name>,
}

/// What a participant's word says.
#[derive(Clone, Copy, Debug, PartialEq, Eq)]
pub enum Word {
    Free,
    Unpinned,
    /// Pinned in this epoch.
    Pinned(u64),
}

/// How far a participant's call is.
#[derive(Clone, Copy, Debug, PartialEq, Eq)]
pub enum Progress {
    /// No call is under way.
    Idle,
    /// The machine's asks are performed one by one.
    Driven(Call),
    /// A job is called at once by the next step: the removal of this name, or work.
    CallsNow(Option<Name>),
    /// The call on cells and pointers has made this many steps, and found this pointer last.
    Accesses(Access, u64, Ptr),
    /// Nothing is left to do but this reply.
    Ends(Reply),
}

/// How far the end of the collector is.
#[derive(Clone, Copy)]
pub enum Phase {
    /// No end was accepted.
    Before,
    /// It is under way.
    During,
    /// It is done.
    After,
}
