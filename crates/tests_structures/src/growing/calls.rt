//! Calls on a growing map as the tests make them, and what they answer.
ghost use Rattle.std.proofs.Common.{rules};
ghost use Rattle.std.specs.Cmp.Rules.{comparing};

use crate::lending::{Part, Told, pin};
use crate::map::calls::{told, value_of};
use crate::wants::want;
use epoch_cells::Fault;
use epoch_lend::readers::posts::PostSet;
use epoch_map::{GrowingMap, LentEntry, MapKey};
use std::process::Abort;

/// A key. All of a group have one number.
#[derive(Clone, Copy, Debug, PartialEq, Eq, PartialOrd, Ord)]
pub(crate) struct Label {
    pub(crate) place: u64,
    pub(crate) group: u64,
}

impl MapKey for Label {
    ghost number = { λ label. label.group };

    ghost same_number = { λ a b same. Prim.search (comparing, rules) };

    fn number(&self) -> u64 {
        self.group
    }
}

pub(crate) type Node = LentEntry<Label, u64>;

pub(crate) type Map<'q, 's, J> = GrowingMap<'q, 's, J, Node>;

/// A call on a map, with a key, and a value for a node that may be inserted.
#[derive(Clone, Copy)]
pub(crate) enum Call {
    Insert(Label, u64),
    Put(Label, u64),
    /// Looks the key up, and inserts the value if it is missing.
    Make(Label, u64),
    /// Puts the value in the place of an odd one.
    ReplaceOdd(Label, u64),
    Remove(Label),
    /// Removes the key if its value is odd.
    RemoveOdd(Label),
    Get(Label),
}

/// Returns whether the node's value is odd.
pub(crate) fn is_odd(node: &Node) -> bool {
    node.value() % 2 == 1
}

/// What the call answers under a pin of its own.
pub(crate) fn answer<'s, J: PostSet>(
    rt: &impl Abort,
    map: &Map<'_, 's, J>,
    part: &mut Part<'_, 's, J, Node>,
    call: Call,
) -> Told {
    let guard = pin(rt, &mut part.session);
    let writer = &mut part.writer;
    let seen = match call {
        Call::Insert(key, value) => {
            let inserted = map.insert(writer, &guard, LentEntry::new(key, value));
            told(rt, value, inserted)
        }
        Call::Put(key, value) => {
            let replaced = map.put(writer, &guard, LentEntry::new(key, value));
            told(rt, value, replaced)
        }
        Call::Make(key, value) => {
            match map.get_or_insert_with(writer, &guard, &key, || LentEntry::new(key, value)) {
                Ok(node) => Ok(Some(*node.value())),
                Err(refused) if refused.fault == Fault::StrangerGuard => {
                    want(rt, "nothing is made", refused.value.is_none(), true);
                    Err(refused.fault)
                }
                Err(refused) => told(rt, value, Err(refused)),
            }
        }
        Call::ReplaceOdd(key, value) => {
            match map.replace_if(writer, &guard, LentEntry::new(key, value), is_odd) {
                Ok(Ok(before)) => Ok(Some(*before.value())),
                Ok(Err((there, back))) => {
                    let there = value_of(Ok(there));
                    want(rt, "what stays", there, value_of(Ok(map.get(&guard, &key))));
                    let back = back.map(|node| node.into_parts().1);
                    want(rt, "the value that comes back", back, Some(value));
                    Ok(None)
                }
                Err(refused) => told(rt, value, Err(refused)),
            }
        }
        Call::Remove(key) => value_of(map.remove(writer, &guard, &key)),
        Call::RemoveOdd(key) => value_of(map.remove_if(writer, &guard, &key, is_odd)),
        Call::Get(key) => value_of(Ok(map.get(&guard, &key))),
    };
    let _ = part.writer.flush();
    part.session.unpin(guard);
    seen
}
