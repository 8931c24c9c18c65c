//! Calls on an ordered map of numbers as the tests make them, and what they answer.
use crate::sessions::{pin, session};
use crate::stores::calls::{flush, release, writer};
use crate::wants::want;
use epoch_cells::{Fault, Refused};
use epoch_lend_pointers::{LendingGuard, PostSet, Session, Store, Writer};
use epoch_ordered_map::{OrderedEntry, OrderedMap};
use std::alloc::Global;
use std::process::Abort;

pub(crate) type Node = OrderedEntry<u64, u64>;

pub(crate) type Map<'q, 's, J> = OrderedMap<'q, 's, J, Node>;

/// What a call answers: the value of a node, or none, or a fault.
pub(crate) type Told = Result<Option<u64>, Fault>;

/// A call on a map, with a key, and a value for a node that may be inserted.
#[derive(Clone, Copy)]
pub(crate) enum Call {
    Insert(u64, u64),
    Put(u64, u64),
    /// Looks the key up, and inserts the value if it is missing.
    Make(u64, u64),
    /// Puts the value in the place of an odd one.
    ReplaceOdd(u64, u64),
    Remove(u64),
    /// Removes the key if its value is odd.
    RemoveOdd(u64),
    Get(u64),
    PopFirst,
}

/// A thread's part: a session, and a writer of a store.
pub(crate) struct Part<'q, 's, J: PostSet> {
    pub(crate) session: Session<'s, J>,
    pub(crate) writer: Writer<'q, 's, J, Node>,
}

/// A new part, for which a post is free.
pub(crate) fn join<'q, 's, J: PostSet>(
    rt: &impl Abort,
    alloc: Global,
    store: &'q Store<'s, J, Node>,
) -> Part<'q, 's, J> {
    let session = session(rt, store.domain());
    let writer = writer(rt, alloc, store);
    Part { session, writer }
}

/// Has all that was retired be dropped, and gives the post and the writer's cells back.
pub(crate) fn leave<J: PostSet>(rt: &impl Abort, part: Part<'_, '_, J>, flushes: u64) {
    let Part { session, writer } = part;
    session.release();
    let mut writer = writer;
    flush(&mut writer, flushes);
    release(rt, writer);
}

fn value_of(found: Result<Option<&Node>, Fault>) -> Told {
    Ok(found?.map(|node| *node.value()))
}

/// What a call that was given this value answered. A refused one hands the node back.
fn told(rt: &impl Abort, value: u64, answer: Result<Option<&Node>, Refused<Option<Node>>>) -> Told {
    match answer {
        Ok(there) => value_of(Ok(there)),
        Err(Refused { fault, value: back }) => {
            let back = back.map(|node| node.into_parts().1);
            want(rt, "the value that comes back", back, Some(value));
            Err(fault)
        }
    }
}

/// Returns whether the node's value is odd.
pub(crate) fn is_odd(node: &Node) -> bool {
    node.value() % 2 == 1
}

/// What a replacement of an odd value by this one answered. The value comes back if another stays.
fn replace_odd<'s, J: PostSet>(
    rt: &impl Abort,
    map: &Map<'_, 's, J>,
    writer: &mut Writer<'_, 's, J, Node>,
    guard: &LendingGuard<'_, J>,
    (key, value): (u64, u64),
) -> Told {
    match map.replace_if(writer, guard, OrderedEntry::new(key, value), is_odd) {
        Ok(Ok(before)) => Ok(Some(*before.value())),
        Ok(Err((there, back))) => {
            let there = there.map(|node| *node.value());
            let now = map.get(guard, &key).map(|node| *node.value());
            want(rt, "the value that stays", there, now);
            let back = back.map(|node| node.into_parts().1);
            want(rt, "the value that comes back", back, Some(value));
            Ok(None)
        }
        Err(refused) => told(rt, value, Err(refused)),
    }
}

/// What the call answers under a pin of its own.
pub(crate) fn answer<'s, J: PostSet>(
    rt: &impl Abort,
    map: &Map<'_, 's, J>,
    part: &mut Part<'_, 's, J>,
    call: Call,
) -> Told {
    let guard = pin(rt, &mut part.session);
    let writer = &mut part.writer;
    let seen = match call {
        Call::Insert(key, value) => {
            let inserted = map.insert(writer, &guard, OrderedEntry::new(key, value));
            told(rt, value, inserted)
        }
        Call::Put(key, value) => {
            let replaced = map.put(writer, &guard, OrderedEntry::new(key, value));
            told(rt, value, replaced)
        }
        Call::Make(key, value) => {
            let make = || OrderedEntry::new(key, value);
            let lent = map.get_or_insert_with(writer, &guard, &key, make);
            told(rt, value, lent.map(|node| Some(node)))
        }
        Call::ReplaceOdd(key, value) => replace_odd(rt, map, writer, &guard, (key, value)),
        Call::Remove(key) => value_of(map.remove(writer, &guard, &key)),
        Call::RemoveOdd(key) => value_of(map.remove_if(writer, &guard, &key, is_odd)),
        Call::Get(key) => value_of(Ok(map.get(&guard, &key))),
        Call::PopFirst => value_of(map.pop_first(writer, &guard)),
    };
    flush(&mut part.writer, 1);
    part.session.unpin(guard);
    seen
}
