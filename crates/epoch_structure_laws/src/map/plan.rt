//! How far a call of the map is. Between any two of its steps others may take theirs.
//!
//! An entry is one number: its key above, the value of that key below, as [`crate::map::key_of`] tells. The moves of a
//! call are how often it may still begin at its bucket's root or go on to a node, so that a call ends whatever others
//! do.

use epoch_cells::Name;
use epoch_laws::heap::Spot;

/// What was asked for. The first number is the bucket's, the last that of the moves.
#[derive(Clone, Copy, Debug, PartialEq, Eq)]
pub enum MapWork {
    /// An insert of this entry, unless one of its key is there.
    Insert(u64, u64, u64),
    /// A removal of the entry of this key.
    Remove(u64, u64, u64),
    /// A look-up of the entry of this key.
    Get(u64, u64, u64),
}

/// What a walk along a bucket is for. The first number is the bucket's.
#[derive(Clone, Copy, Debug, PartialEq, Eq)]
pub enum Aim {
    /// To put this entry there, which this node of the caller's own holds.
    ToInsert(u64, u64, Name),
    /// To remove the entry of this key.
    ToRemove(u64, u64),
    /// To find the entry of this key.
    ToGet(u64, u64),
}

/// What a call answers.
#[derive(Clone, Copy, Debug, PartialEq, Eq)]
pub enum MapAnswer {
    /// The entry is in the map.
    Inserted,
    /// This entry of the same key was in the map, and the other was not put there.
    AlreadyThere(u64),
    /// The same. The removal of the caller's own node was refused: its cell is never free again.
    AlreadyThereLeaking(u64),
    /// This entry was in the map, and is not any more.
    Removed(u64),
    /// The same. The removal of its node was refused: the cell is never free again.
    RemovedLeaking(u64),
    /// This entry is in the map.
    Found(u64),
    /// No entry of the key is in the map.
    NotFound,
    /// All moves were used up, or an exchange was lost with none left.
    MovesOut,
    /// The same, or the call ended early: the removal of a node was refused, whose cell is never free again. That of
    /// the caller's own node isn't either, if it had one.
    MovesOutLeaking,
    /// No cell was free.
    CellsFull,
    /// No place for a bag was free, so that no removal could be deferred.
    BagsFull,
}

/// Which call of the world a call of the map is at. A link is a bucket's root or the field of a node, and leads to a
/// node whose key is higher than that of the node before it. The last number is that of the moves that are left.
#[derive(Clone, Copy, Debug, PartialEq, Eq)]
pub enum MapPhase {
    /// Flushes, so that a removal finds room in the held bag.
    MakingRoom(MapWork),
    /// Places this entry for this bucket, which is the first number.
    Placing(u64, u64, u64),
    /// Loads the bucket's root.
    LoadingFirst(Aim, u64),
    /// Reads the entry of this node, to which the link led.
    Reading(Aim, Spot, Name, u64),
    /// Leaves the reading. The first number is the entry, here and below.
    Leaving(Aim, Spot, Name, u64, u64),
    /// Loads the node's field, which tells whether its entry was removed, and is the next link.
    LoadingNext(Aim, Spot, Name, u64, u64),
    /// Exchanges the link, if it leads to this node still, for the node's next: its entry was removed.
    Unlinking(Aim, Spot, Name, Option<Name>, u64),
    /// Defers the removal of the node, which this call has unlinked and another had marked.
    Burying(Aim, Name, u64),
    /// Points the caller's own node to where the link leads. The numbers are the bucket and the entry.
    Linking(u64, u64, Name, Spot, Option<Name>, u64),
    /// Exchanges the link, if it leads there still, for the own node.
    Inserting(u64, u64, Name, Spot, Option<Name>, u64),
    /// Marks the node's field, if it leads where it led and has no mark: so its entry is removed. The numbers are the
    /// bucket and the key, and then the entry.
    Marking(u64, u64, Spot, Name, u64, Option<Name>, u64),
    /// Exchanges the link, if it leads to the node still, for the node's next.
    Dropping(u64, u64, Spot, Name, u64, Option<Name>),
    /// Defers the removal of the node that this call has marked and unlinked.
    Removing(Name, u64),
    /// Defers the removal of the caller's own node, and then answers this.
    TakingBack(Name, MapAnswer),
    /// No call is left but this answer.
    Answering(MapAnswer),
}
