//! Calls of one participant on two cells and a root, with what each tells, worked out by hand.

use epoch_cells::{Fault, Name};
use epoch_laws::heap::{Access, AccessAnswer, Change, Ptr, Spot, Update};
use epoch_world::{Call, Reply};
use std::process::Abort;

/// A call, its last reply, and how many jobs it calls.
pub(crate) type Told = (Call, Reply, u64);

const UNIT: Reply = Reply::Done(AccessAnswer::Unit);

const ABSENT: Reply = Reply::Done(AccessAnswer::Absent);

const FLUSH: Call = Call::Flush(Some(0));

const PIN: Told = (Call::Pin, Reply::Done(AccessAnswer::Guard(0)), 0);

const UNPIN: Told = (Call::Unpin(Some(0)), UNIT, 0);

/// A pointer to the value of this slot and turn.
pub(crate) fn cell(slot: u32, turn: u32) -> Ptr {
    Ptr {
        name: Name::new(slot, turn),
        tag: 0,
    }
}

/// Null with this tag.
fn null(tag: u64) -> Ptr {
    Ptr { name: None, tag }
}

/// The value is placed in this slot, at this turn.
fn places(rt: &impl Abort, value: u64, slot: u32, turn: u32) -> Told {
    let name = Name::new(slot, turn).expect(rt, "a name");
    let place = Call::Access(Access::Place(value));
    (place, Reply::Done(AccessAnswer::Name(name)), 0)
}

/// A call on this cell or its value tells this last.
fn tells(access: Access, last: Reply) -> Told {
    (Call::Access(access), last, 0)
}

/// A call on the pointer at this spot answers so.
fn points(spot: Spot, change: Change, answer: AccessAnswer) -> Told {
    tells(Access::Point(Some(0), spot, change), Reply::Done(answer))
}

/// Two values are placed, and no third one. The first one is linked, with the second one in its field, which is read.
pub(crate) fn links(rt: &impl Abort) -> [Told; 13] {
    let (first, second) = (cell(1, 0), cell(2, 0));
    let (root, field) = (Spot::Root(0), Spot::Field(Name::first(), 0));
    [
        PIN,
        places(rt, 7, 1, 0),
        places(rt, 8, 2, 0),
        tells(Access::Place(9), Reply::Refused(Fault::CellsFull)),
        points(field, Change::Store(second), AccessAnswer::Unit),
        points(root, Change::Store(first), AccessAnswer::Unit),
        points(root, Change::Load, AccessAnswer::Pointer(first)),
        points(field, Change::Load, AccessAnswer::Pointer(second)),
        tells(
            Access::Read(Some(0), second),
            Reply::Done(AccessAnswer::Value(8)),
        ),
        tells(Access::Read(Some(0), second), Reply::Refused(Fault::Busy)),
        tells(Access::Write(Some(0), second, 5), ABSENT),
        tells(Access::Leave(second), UNIT),
        tells(Access::Write(Some(0), second, 5), UNIT),
    ]
}

/// The root is exchanged, and its tag changed; the second value is taken.
pub(crate) fn moves() -> [Told; 10] {
    let (first, second, root) = (cell(1, 0), cell(2, 0), Spot::Root(0));
    let exchange = Change::CompareExchange(first, null(2));
    [
        points(root, exchange, AccessAnswer::Exchanged(null(2))),
        points(root, exchange, AccessAnswer::Unchanged(null(2))),
        points(root, Change::FetchOr(1), AccessAnswer::Pointer(null(2))),
        points(root, Change::FetchAnd(1), AccessAnswer::Pointer(null(3))),
        points(root, Change::FetchXor(3), AccessAnswer::Pointer(null(1))),
        points(
            root,
            Change::FetchUpdate(3, Update::Tag(1)),
            AccessAnswer::Updated(null(2)),
        ),
        points(
            root,
            Change::FetchUpdate(3, Update::Stop),
            AccessAnswer::Stopped(null(1)),
        ),
        points(
            root,
            Change::FetchUpdate(0, Update::Stop),
            AccessAnswer::RanOut(null(1)),
        ),
        points(root, Change::Swap(null(0)), AccessAnswer::Pointer(null(1))),
        tells(
            Access::Take(Some(0), second),
            Reply::Done(AccessAnswer::Value(5)),
        ),
    ]
}

/// The removal of the first value is deferred twice and called two epochs later. Its slot takes a further value, which
/// is removed at once.
pub(crate) fn removals(rt: &impl Abort) -> [Told; 13] {
    let (first, next) = (cell(1, 0), cell(1, 1));
    let stranger = Reply::Refused(Fault::StrangerPointer);
    [
        (Call::DeferDestroy(Some(0), first), UNIT, 0),
        (Call::DeferDestroy(Some(0), first), UNIT, 0),
        (Call::DeferDestroy(Some(0), null(0)), stranger, 0),
        (FLUSH, UNIT, 0),
        UNPIN,
        PIN,
        (FLUSH, UNIT, 0),
        UNPIN,
        PIN,
        (FLUSH, UNIT, 2),
        points(
            Spot::Field(Name::first(), 0),
            Change::Load,
            AccessAnswer::Absent,
        ),
        places(rt, 6, 1, 1),
        (Call::DeferDestroy(None, next), UNIT, 0),
    ]
}
