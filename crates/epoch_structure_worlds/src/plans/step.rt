//! Steps of a structure's world, and what each tells.

use epoch_laws::Reply;

/// A call of the world that a participant begins by itself. A guard is its number, or `None` for an unprotected guard.
#[derive(Clone, Copy, Debug, PartialEq, Eq)]
pub enum PlainCall {
    Pin,
    Unpin(Option<u64>),
    Repin(Option<u64>),
    Pause(Option<u64>),
    Resume(Option<u64>),
    Defer(Option<u64>),
    Flush(Option<u64>),
    Release,
}

/// One step of a structure's world.
#[derive(Clone, Copy, Debug, PartialEq, Eq)]
pub enum PlanStep<W> {
    /// Takes the lowest free position.
    Register,
    /// Begins a plain call of the participant at this position. It performs nothing yet.
    Begin(u64, PlainCall),
    /// Begins a call of the structure by this participant, under this guard, which is asked for this. It performs
    /// nothing yet.
    Ask(u64, u64, W),
    /// Takes one step of the world for the participant's call. If nothing is left to do, the call of the structure
    /// answers.
    Go(u64),
    /// Begins the end of the collector.
    End,
    /// Takes one bag that is left, or calls the next of its jobs.
    EndGo,
}

/// What a step tells.
#[derive(Clone, Copy, Debug, PartialEq, Eq)]
pub enum PlanReply<A> {
    /// As the world tells: the reply to a step that isn't one of a call of the structure; `Began` or `Refused` at the
    /// first step of such a call; and the event of each further one, or `Stepped`.
    World(Reply),
    /// The call of the structure answers this, and is over.
    Answered(A),
}
