//! Calls on a map of numbers as the tests make them, and what they have to answer.
use crate::lending::{Part, Told, pin, rounds};
use crate::wants::want;
use epoch_cells::{Fault, Refused};
use epoch_lend::readers::posts::PostSet;
use epoch_lend::session::LendingGuard;
use epoch_lend_pointers::Writer;
use epoch_map::{LendingMap, LentEntry};
use std::process::Abort;

/// A node of the maps.
pub(crate) type Node = LentEntry<u64, u64>;

/// A map of such nodes.
pub(crate) type Map<'q, 's, J> = LendingMap<'q, 's, J, Node>;

/// A call on a map, with a key, and a value for an insert.
#[derive(Clone, Copy)]
pub(crate) enum Call {
    Insert(u64, u64),
    Remove(u64),
    Get(u64),
    GetHelping(u64),
}

/// A call in at most this many moves, and what it answers.
pub(crate) type Row = (Call, u32, Told);

/// Calls under one guard, and how many flushes are made after its unpin.
pub(crate) type Pinned = (&'static [Row], u32);

/// What a call answered that lends a node: the node's value.
pub(crate) fn value_of<K>(found: Result<Option<&LentEntry<K, u64>>, Fault>) -> Told {
    match found {
        Ok(Some(node)) => Ok(Some(*node.value())),
        Ok(None) => Ok(None),
        Err(fault) => Err(fault),
    }
}

/// What an insert of this value answered. A refused one hands the node back, unless all moves were used up.
pub(crate) fn told<K: Drop>(
    rt: &impl Abort,
    value: u64,
    inserted: Result<Option<&LentEntry<K, u64>>, Refused<Option<LentEntry<K, u64>>>>,
) -> Told {
    match inserted {
        Ok(there) => value_of(Ok(there)),
        Err(Refused { fault, value: back }) => {
            let wanted = if fault == Fault::TriesOut {
                None
            } else {
                Some(value)
            };
            let back = back.map(|node| node.into_parts().1);
            want(rt, "the value that comes back", back, wanted);
            Err(fault)
        }
    }
}

/// What the call answers in at most this many moves.
pub(crate) fn answer<'s, J: PostSet>(
    rt: &impl Abort,
    map: &Map<'_, 's, J>,
    writer: &mut Writer<'_, 's, J, Node>,
    guard: &LendingGuard<'_, J>,
    (call, moves): (Call, u32),
) -> Told {
    match call {
        Call::Insert(key, value) => {
            let inserted = map.insert(writer, guard, LentEntry::new(key, value), moves);
            told(rt, value, inserted)
        }
        Call::Remove(key) => value_of(map.remove(writer, guard, &key, moves)),
        Call::Get(key) => value_of(map.get(guard, &key, moves)),
        Call::GetHelping(key) => value_of(map.get_helping(writer, guard, &key, moves)),
    }
}

/// What `contains` says where a look-up answers this.
fn is_there(wanted: Told) -> Result<bool, Fault> {
    match wanted {
        Ok(found) => Ok(found.is_some()),
        Err(fault) => Err(fault),
    }
}

/// The call answers so. A look-up that helps does too, and what `contains` says agrees.
pub(crate) fn want_row<'s, J: PostSet>(
    rt: &impl Abort,
    map: &Map<'_, 's, J>,
    writer: &mut Writer<'_, 's, J, Node>,
    guard: &LendingGuard<'_, J>,
    (call, moves, wanted): Row,
) {
    let seen = answer(rt, map, writer, guard, (call, moves));
    want(rt, "a call on a map", seen, wanted);
    if let Call::Get(key) = call {
        let helping = (Call::GetHelping(key), moves);
        let helped = answer(rt, map, writer, guard, helping);
        want(rt, "a look-up that helps", helped, wanted);
        let there = map.contains(guard, &key, moves);
        want(rt, "whether the key is there", there, is_there(wanted));
    }
}

/// These calls under a pin of their own answer so.
pub(crate) fn want_rows<'s, J: PostSet>(
    rt: &impl Abort,
    map: &Map<'_, 's, J>,
    part: &mut Part<'_, 's, J, Node>,
    rows: &[Row],
) {
    let guard = pin(rt, &mut part.session);
    for row in rows {
        want_row(rt, map, &mut part.writer, &guard, *row);
    }
    part.session.unpin(guard);
}

/// All these calls answer so.
pub(crate) fn want_pins<'s, J: PostSet>(
    rt: &impl Abort,
    map: &Map<'_, 's, J>,
    part: &mut Part<'_, 's, J, Node>,
    pins: &[Pinned],
) {
    for (rows, count) in pins {
        want_rows(rt, map, part, rows);
        rounds(rt, part, *count);
    }
}
