//! Calls of stores and writers. None has a clause, so that a test that makes many is quick to prove.
use crate::probes::{Counts, Probe};
use crate::sessions::pin;
use epoch_atomic::atomic::{Atomic, Pointable, Shared};
use epoch_cells::{Fault, Name, Refused};
use epoch_lend::readers::posts::PostSet;
use epoch_lend::session::{LendingGuard, Session};
use epoch_lend_pointers::{Store, Writer};
use std::alloc::Global;
use std::process::Abort;
use std::sync::atomic::Ordering::SeqCst;

/// A writer of this store, for which there is memory.
pub(crate) fn writer<'q, 's, J: PostSet, T: Drop>(
    rt: &impl Abort,
    alloc: Global,
    store: &'q Store<'s, J, T>,
) -> Writer<'q, 's, J, T> {
    Writer::new(alloc, store).expect(rt, "memory for a writer")
}

/// Releases the writer. There is memory to hand over what it has gathered.
pub(crate) fn release<J: PostSet, T: Drop>(rt: &impl Abort, writer: Writer<'_, '_, J, T>) {
    if let Err((_back, fault)) = writer.release() {
        panic!(rt; "{fault}");
    }
}

/// The value that the pointer leads to.
pub(crate) fn at<'g, J: PostSet, T: Pointable + Drop>(
    store: &'g Store<'_, J, T>,
    pointer: &Atomic<T>,
    guard: &'g LendingGuard<'_, J>,
) -> Option<&'g T> {
    store.get(store.load(pointer, SeqCst, guard), guard)
}

/// The name that the pointer has, which isn't null.
pub(crate) fn name_at<J: PostSet, T: Pointable>(
    rt: &impl Abort,
    store: &Store<'_, J, T>,
    pointer: &Atomic<T>,
    guard: &LendingGuard<'_, J>,
) -> Name {
    store
        .load(pointer, SeqCst, guard)
        .name()
        .expect(rt, "a name")
}

/// The number of the value, or 99 if there is none.
pub(crate) fn number_of(found: Option<&Probe>) -> usize {
    match found {
        Some(probe) => probe.number,
        None => 99,
    }
}

/// The number of the value that the pointer leads to, or 99.
pub(crate) fn number_at<J: PostSet>(
    store: &Store<'_, J, Probe>,
    pointer: &Atomic<Probe>,
    guard: &LendingGuard<'_, J>,
) -> usize {
    number_of(at(store, pointer, guard))
}

/// Places a value and puts it behind the pointer. The value before is retired. Returns why that was refused.
pub(crate) fn replace<J: PostSet, T: Pointable + Drop>(
    writer: &mut Writer<'_, '_, J, T>,
    pointer: &Atomic<T>,
    guard: &LendingGuard<'_, J>,
    value: T,
) -> Option<Fault> {
    if let Err(fault) = writer.make_room() {
        return Some(fault);
    }
    let placed = match writer.place(guard, value) {
        Ok(placed) => placed,
        Err(refused) => return Some(refused.fault),
    };
    let store = writer.store();
    let before = store.swap(pointer, placed, SeqCst, guard);
    if before.is_null() {
        return None;
    }
    fault_of(writer.retire(before))
}

/// Why it was refused.
pub(crate) fn fault_of<X: Drop>(told: Result<(), Refused<X>>) -> Option<Fault> {
    match told {
        Ok(()) => None,
        Err(refused) => Some(refused.fault),
    }
}

/// Takes the value out of the pointer and retires it. Returns why that was refused.
pub(crate) fn clear<J: PostSet, T: Pointable + Drop>(
    writer: &mut Writer<'_, '_, J, T>,
    pointer: &Atomic<T>,
    guard: &LendingGuard<'_, J>,
) -> Option<Fault> {
    let before = writer.store().swap(pointer, Shared::null(), SeqCst, guard);
    fault_of(writer.retire(before))
}

/// Replaces the value under a pin of its own.
pub(crate) fn replace_once<J: PostSet>(
    rt: &impl Abort,
    session: &mut Session<'_, J>,
    writer: &mut Writer<'_, '_, J, Probe>,
    pointer: &Atomic<Probe>,
    value: Probe,
) -> Option<Fault> {
    let guard = pin(rt, session);
    let fault = replace(writer, pointer, &guard, value);
    session.unpin(guard);
    fault
}

/// Replaces the value by those of these numbers, one after another, until one is refused. Returns how many were placed.
pub(crate) fn replace_all<J: PostSet>(
    rt: &impl Abort,
    session: &mut Session<'_, J>,
    writer: &mut Writer<'_, '_, J, Probe>,
    pointer: &Atomic<Probe>,
    (first, behind): (usize, usize),
    counts: &Counts,
) -> usize {
    let mut placed: usize = 0;
    for number in first..behind {
        if replace_once(rt, session, writer, pointer, Probe::new(number, counts)).is_some() {
            break;
        }
        placed = placed.wrapping_add(1);
    }
    placed
}

/// Takes the value out and retires it, under a pin of its own.
pub(crate) fn clear_once<J: PostSet>(
    rt: &impl Abort,
    session: &mut Session<'_, J>,
    writer: &mut Writer<'_, '_, J, Probe>,
    pointer: &Atomic<Probe>,
) -> Option<Fault> {
    let guard = pin(rt, session);
    let fault = clear(writer, pointer, &guard);
    session.unpin(guard);
    fault
}

/// Flushes this often.
pub(crate) fn flush<J: PostSet, T: Drop>(writer: &mut Writer<'_, '_, J, T>, times: u64) {
    for _ in 0..times {
        let _ = writer.flush();
    }
}
