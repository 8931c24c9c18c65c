//! Memory that is refused: `rt try --test --fail-alloc N` refuses the Nth allocation of each test, and this one passes
//! whichever that is. In a plain run no allocation is refused.
use crate::probes::{Counts, Probe, counts_for, dropped_once};
use crate::sessions::{pin, session};
use crate::stores::calls::{fault_of, flush, release};
use crate::stores::stage::{Scene, play};
use crate::wants::want;
use epoch_atomic::atomic::{Atomic, Shared};
use epoch_cells::{Fault, Refused};
use epoch_lend::readers::posts::PostSet;
use epoch_lend::session::{LendingGuard, Session};
use epoch_lend_pointers::{Store, Writer};
use std::alloc::Global;
use std::process::Abort;
use std::sync::atomic::Ordering::SeqCst;
use std::test::Fail;

/// A writer, for which memory is asked once more if it is refused.
fn made<'q, 's, J: PostSet>(
    rt: &impl Abort,
    alloc: Global,
    store: &'q Store<'s, J, Probe>,
) -> Writer<'q, 's, J, Probe> {
    match Writer::new(alloc, store) {
        Ok(writer) => writer,
        Err(fault) => {
            want(rt, "why there is no writer", fault, Fault::NoMemory);
            Writer::new(alloc, store).expect(rt, "memory at the second try")
        }
    }
}

/// Retires the value, at the second try if memory is refused.
fn retire<'g, J: PostSet>(
    rt: &impl Abort,
    writer: &mut Writer<'_, '_, J, Probe>,
    pointer: Shared<'g, Probe>,
) {
    if let Err(Refused { fault, value }) = writer.retire(pointer) {
        want(rt, "why it isn't retired", fault, Fault::NoMemory);
        let again = fault_of(writer.retire(value));
        want(rt, "it is at the second try", again, None);
    }
}

/// Places a value, and retires it at once. A value that finds no cell is dropped by its caller.
fn place_and_retire<J: PostSet>(
    rt: &impl Abort,
    session: &mut Session<'_, J>,
    writer: &mut Writer<'_, '_, J, Probe>,
    probe: Probe,
) {
    let guard = pin(rt, session);
    if let Ok(pointer) = writer.place(&guard, probe) {
        retire(rt, writer, pointer);
    }
    session.unpin(guard);
}

/// Releases the writer, at the second try if memory is refused.
fn leave<J: PostSet>(rt: &impl Abort, writer: Writer<'_, '_, J, Probe>) {
    if let Err((writer, fault)) = writer.release() {
        want(rt, "why it isn't released", fault, Fault::NoMemory);
        release(rt, writer);
    }
}

/// Places and retires 200 values.
pub(crate) fn asks_for_memory<J: PostSet>(
    rt: &impl Abort,
    alloc: Global,
    store: &Store<'_, J, Probe>,
    counts: &Counts,
) {
    let mut session = session(rt, store.domain());
    let mut writer = made(rt, alloc, store);
    for number in 0..200usize {
        place_and_retire(rt, &mut session, &mut writer, Probe::new(number, counts));
    }
    flush(&mut writer, 8);
    leave(rt, writer);
}

#[test]
fn no_value_is_lost_where_memory_is_refused(rt: HostRuntime) -> Result<(), Fail> {
    // Memory is refused once at most.
    let Ok(counts) = counts_for(rt.alloc(), 200) else {
        return Ok(());
    };
    if play(&rt, rt.alloc(), 512, Scene::AsksForMemory, &counts).is_some() {
        want(
            &rt,
            "each value is dropped once",
            dropped_once(&counts),
            200,
        );
    }
    Ok(())
}
