//! Pointers, the calls on them and on cells, and what calls answer. The calls on pointers are those of
//! crossbeam-epoch's `Atomic`; the calls on cells stand for what `Owned` and `Shared` do there.
ghost use Rattle.std.specs.Prelude.{◌≡◌};
ghost use Rattle.epoch_laws.specs.Heap.{guard_of};

use epoch_cells::Name;

/// A pointer: nothing or the name of a cell, and a tag, which is taken modulo the alignment.
#[derive(Clone, Copy, Debug, PartialEq, Eq)]
pub struct Ptr {
    pub name: Option<Name>,
    pub tag: u64,
}

/// Where a pointer stands.
#[derive(Clone, Copy, Debug, PartialEq, Eq)]
pub enum Spot {
    Root(u64),
    /// A field of a cell.
    Field(Name, u64),
}

/// What the function of an update answers to the pointer that it is given.
#[derive(Clone, Copy, Debug, PartialEq, Eq)]
pub enum Update {
    /// That pointer with this tag.
    Tag(u64),
    /// This pointer.
    To(Ptr),
    /// Nothing: the update ends, and writes nothing.
    Stop,
}

/// What a pointer call does to the pointer at its spot.
#[derive(Clone, Copy, Debug, PartialEq, Eq)]
pub enum Change {
    /// Returns the pointer.
    Load,
    /// Writes this one.
    Store(Ptr),
    /// Writes this one, and returns the one before.
    Swap(Ptr),
    /// Writes the second pointer if the first one stands there, with its tag. Otherwise nothing changes.
    CompareExchange(Ptr, Ptr),
    /// Changes only the tag, by these bits, and returns the pointer before. So do the next two.
    FetchAnd(u64),
    FetchOr(u64),
    FetchXor(u64),
    /// Loads the pointer, and then exchanges what it found for the function's answer, in at most this many tries.
    FetchUpdate(u64, Update),
}

/// A call on cells and pointers. `None` for a guard: the guard is unprotected, or the call has none.
#[derive(Clone, Copy, Debug, PartialEq, Eq)]
pub enum Access {
    /// Places this value in the first cell that is free.
    Place(u64),
    /// Begins a reading of the pointer's cell, and returns its value.
    Read(Option<u64>, Ptr),
    /// Ends the reading.
    Leave(Ptr),
    /// Writes the value of the pointer's cell, if no participant reads it.
    Write(Option<u64>, Ptr, u64),
    /// Takes the value out of the pointer's cell, if no participant reads it.
    Take(Option<u64>, Ptr),
    /// One or more steps on the pointer at this spot.
    Point(Option<u64>, Spot, Change),
}

impl Access {
    /// Returns the guard that the call names, if it is a protecting one. A `Place` and a `Leave` name none.
    pub fn guard(self) -> Option<u64>
        ensures { result ≡ guard_of self }
    {
        match self {
            Access::Read(guard, _) | Access::Write(guard, _, _) => guard,
            Access::Take(guard, _) | Access::Point(guard, _, _) => guard,
            Access::Place(_) | Access::Leave(_) => None,
        }
    }
}

/// What a call answers at its end.
#[derive(Clone, Copy, Debug, PartialEq, Eq)]
pub enum AccessAnswer {
    /// A pin: the number of the guard, from 0 to 63.
    Guard(u64),
    /// The call is done, and returns nothing else.
    Unit,
    /// A release: the position is free.
    Released,
    /// An end: how many jobs it called.
    Count(u64),
    /// A value was placed under this name.
    Name(Name),
    /// The value that was read or taken.
    Value(u64),
    /// The cell is gone, or is read when it may not be. Nothing was done.
    Absent,
    /// The pointer that stood there.
    Pointer(Ptr),
    /// The pointer written.
    Exchanged(Ptr),
    /// The pointer that was found, which isn't the one expected.
    Unchanged(Ptr),
    /// The pointer before the update.
    Updated(Ptr),
    /// The pointer for which the update's function answered nothing. Nothing was written.
    Stopped(Ptr),
    /// The pointer that stands there when the update has no try left. Nothing was written.
    RanOut(Ptr),
}

/// What comes of one step of a call on cells and pointers.
#[derive(Clone, Copy, Debug, PartialEq, Eq)]
pub enum Accessed {
    /// A further step follows. This pointer was found.
    Again(Ptr),
    Answers(AccessAnswer),
    /// No slot was left to look at.
    NoSlot,
}
