//! How far a call of the queue is. Between any two of its steps, other participants may take steps.

use epoch_cells::Name;

/// What was asked for.
#[derive(Clone, Copy, Debug, PartialEq, Eq)]
pub enum QueueWork {
    /// The placing of the first node, which holds no value, unless some call has placed one.
    Build,
    /// A push of this value, in at most this many tries.
    Push(u64, u64),
    /// A pop, in at most this many tries.
    Pop(u64),
}

/// What a call answers.
#[derive(Clone, Copy, Debug, PartialEq, Eq)]
pub enum QueueAnswer {
    /// The first node is in place.
    Built,
    /// The value is behind the others.
    Pushed,
    /// The front's value, which was taken off.
    Popped(u64),
    /// The front's value, which was taken off. The removal of its node was refused: the cell is never free again.
    PoppedLeaking(u64),
    /// There was no value to pop.
    Empty,
    /// Each try was lost to other participants.
    TriesOut,
    /// Each try was lost to other participants, and the removal of the caller's own node was refused, as above.
    TriesOutLeaking,
    /// No cell was free.
    CellsFull,
    /// No place for a bag was free, so no removal could be deferred.
    BagsFull,
}

/// Which call of the world a call of the queue is at. The number of tries is how many are left after this one. One root
/// is the head, and another is the tail. The first node has no value of the queue.
#[derive(Clone, Copy, Debug, PartialEq, Eq)]
pub enum QueuePhase {
    /// Flushes, so that a removal finds room in the held bag.
    MakingRoom(QueueWork),
    /// Places the first node.
    Founding,
    /// Exchanges the null in the head for this node.
    Crowning(Name),
    /// Then exchanges the null in the tail.
    Seating(Name),
    /// Places this value, to push it in this many tries.
    Placing(u64, u64),
    /// Loads the tail, to push this node.
    LoadingTail(Name, u64),
    /// Loads the next of the tail, which is the second node here.
    LoadingLast(Name, Name, u64),
    /// Exchanges the null of the last one, the second node here, for the node.
    Appending(Name, Name, u64),
    /// Exchanges the tail, if it still is the first node, for the second, which is its next and the caller's own.
    Swinging(Name, Name),
    /// Exchanges the tail, if it still is the second node, for the third, which is its next, and tries again.
    Helping(Name, Name, Name, u64),
    /// Defers the removal of the caller's own node, since each try was lost.
    TakingBack(Name),
    /// Loads the head, to pop what follows it.
    LoadingHead(u64),
    /// Loads the head's next.
    LoadingNext(Name, u64),
    /// Reads the value of the next, which is the second node.
    Reading(Name, Name, u64),
    /// Leaves the reading. The first number is the value, here and below.
    Leaving(Name, Name, u64, u64),
    /// Exchanges the head, if it still is the first node, for its next.
    Taking(Name, Name, u64, u64),
    /// Loads the tail, which may lead to the node that was taken off.
    LookingBack(Name, Name, u64),
    /// Brings the tail past it.
    Advancing(Name, Name, u64),
    /// Defers the removal of the node that was taken off.
    Removing(Name, u64),
    /// No call is left but this answer.
    Answering(QueueAnswer),
}
