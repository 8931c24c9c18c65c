//! What writers refuse, on one thread.
use crate::probes::{Counts, Probe, counts_for, dropped_once};
use crate::sessions::{pin, session};
use crate::stores::calls::{fault_of, release, writer};
use crate::stores::stage::{Scene, play};
use crate::wants::want;
use epoch_atomic::atomic::Shared;
use epoch_cells::Fault;
use epoch_lend::readers::posts::PostSet;
use epoch_lend::session::LendingGuard;
use epoch_lend_pointers::{Store, Writer};
use std::alloc::Global;
use std::process::Abort;
use std::test::Fail;

/// Places a value. Returns the number of one that is handed back, and why, or 0.
fn handed_back<J: PostSet>(
    writer: &mut Writer<'_, '_, J, Probe>,
    guard: &LendingGuard<'_, J>,
    probe: Probe,
) -> (usize, Option<Fault>) {
    match writer.place(guard, probe) {
        Ok(_) => (0, None),
        Err(refused) => (refused.value.number, Some(refused.fault)),
    }
}

/// Retires null, and places one value more than there are cells, by two writers.
pub(crate) fn refuses<J: PostSet>(
    rt: &impl Abort,
    alloc: Global,
    store: &Store<'_, J, Probe>,
    counts: &Counts,
) {
    let mut session = session(rt, store.domain());
    let mut one = writer(rt, alloc, store);
    let mut other = writer(rt, alloc, store);
    let fault = fault_of(one.retire(Shared::null()));
    want(rt, "null is refused", fault, Some(Fault::StrangerPointer));
    let guard = pin(rt, &mut session);
    let full = Some(Fault::CellsFull);
    for (number, back) in [(1, (0, None)), (2, (0, None)), (3, (3, full))] {
        let seen = handed_back(&mut one, &guard, Probe::new(number, counts));
        want(rt, "two cells take two values", seen, back);
    }
    let seen = handed_back(&mut other, &guard, Probe::new(4, counts));
    want(rt, "no writer finds a third", seen, (4, full));
    session.unpin(guard);
    release(rt, other);
    release(rt, one);
}

#[test]
fn full_cells_and_null_are_refused(rt: HostRuntime) -> Result<(), Fail> {
    let counts = counts_for(rt.alloc(), 8)?;
    let left = play(&rt, rt.alloc(), 2, Scene::Refuses, &counts);
    want(&rt, "two values are left", left, Some(2));
    want(&rt, "each is dropped once", dropped_once(&counts), 4);
    Ok(())
}
