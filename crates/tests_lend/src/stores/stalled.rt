//! A reader that stays pinned, and a writer that goes on until the cells are full, on one thread.
use crate::probes::{Counts, Probe, counts_for, dropped_once};
use crate::sessions::{pin, session};
use crate::stores::calls::{clear_once, flush, release, replace_all, replace_once, writer};
use crate::stores::stage::{Scene, play};
use crate::wants::want;
use epoch_atomic::atomic::Atomic;
use epoch_cells::Fault;
use epoch_lend::readers::posts::PostSet;
use epoch_lend::session::Session;
use epoch_lend_pointers::{Store, Writer};
use std::alloc::Global;
use std::process::Abort;
use std::test::Fail;

/// How many cells there are: more than a batch for each place in which batches wait.
const CELLS: usize = 6_000;

/// How many values are made at most.
const VALUES: usize = 20_000;

/// Replaces the value again and again, until that isn't refused. Returns how often it was.
fn refused_before<J: PostSet>(
    rt: &impl Abort,
    session: &mut Session<'_, J>,
    writer: &mut Writer<'_, '_, J, Probe>,
    pointer: &Atomic<Probe>,
    first: usize,
    counts: &Counts,
) -> usize {
    for times in 0..100usize {
        let probe = Probe::new(first.wrapping_add(times), counts);
        if replace_once(rt, session, writer, pointer, probe).is_none() {
            return times;
        }
    }
    100
}

/// Fills the cells with values that wait for a reader. When it is back, the writer goes on without a flush.
pub(crate) fn stalls<J: PostSet>(
    rt: &impl Abort,
    alloc: Global,
    store: &Store<'_, J, Probe>,
    counts: &Counts,
) {
    let (mut reader, mut own) = (session(rt, store.domain()), session(rt, store.domain()));
    let mut writer = writer(rt, alloc, store);
    let pointer = Atomic::null();
    let reading = pin(rt, &mut reader);
    let placed = replace_all(rt, &mut own, &mut writer, &pointer, (0, VALUES), counts);
    want(rt, "each cell has a value", placed, CELLS);
    // The one that was refused was dropped by its caller.
    want(rt, "none was dropped but one", dropped_once(counts), 1);
    let again = replace_once(
        rt,
        &mut own,
        &mut writer,
        &pointer,
        Probe::new(6_001, counts),
    );
    want(rt, "no cell is free", again, Some(Fault::CellsFull));
    reader.unpin(reading);
    let times = refused_before(rt, &mut own, &mut writer, &pointer, 7_000, counts);
    want(rt, "a retry gets through at last", times < 10, true);
    let placed = replace_all(rt, &mut own, &mut writer, &pointer, (8_000, 18_000), counts);
    want(rt, "and none is refused any more", placed, 10_000);
    let fault = clear_once(rt, &mut own, &mut writer, &pointer);
    want(rt, "the last value is retired", fault, None);
    flush(&mut writer, 400);
    want(rt, "nothing waits in the end", store.waiting(), 0);
    release(rt, writer);
}

#[test]
fn a_reader_that_stays_holds_back_what_the_cells_have(rt: HostRuntime) -> Result<(), Fail> {
    let counts = counts_for(rt.alloc(), VALUES)?;
    let left = play(&rt, rt.alloc(), CELLS as u32, Scene::Stalls, &counts);
    want(&rt, "no value is left", left, Some(0));
    Ok(())
}
