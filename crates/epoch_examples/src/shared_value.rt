//! A value that many threads read while another thread replaces it.
ghost use Rattle.epoch.specs.Handles.{Owns};

use epoch::{Atomic, DeferDestroy, Fault, Guard, LocalHandle, Owned};
use std::alloc::Global;
use std::sync::atomic::Ordering::{AcqRel, Acquire};

/// Reads the value that the pointer leads to.
///
/// `None`: the pointer is null, or each try to read was lost to other threads.
pub fn read(pointer: &Atomic<u64>, guard: &Guard<'_, u64>) -> Option<u64> {
    let reading = pointer.load(Acquire, guard).deref()?;
    let value = *reading.get();
    reading.leave();
    Some(value)
}

/// Puts a new value in place of the present one, and defers the destruction of the value before.
///
/// `NoMemory`, `CellsFull` or `BagsFull`: the present value stays.
pub fn replace(
    alloc: Global,
    pointer: &Atomic<u64>,
    value: u64,
    handle: &mut LocalHandle<'_, u64>,
    guard: &Guard<'_, u64>,
) -> Result<(), Fault>
    requires { Owns handle.old guard.now }
    ensures owns { Owns handle.new guard.now }
{
    // Room for the deferral comes first: a value that no thread can reach any more, and whose destruction was refused,
    // would keep its cell until the end.
    if !handle.has_room() {
        handle.flush(guard)?;
    }
    let owned = Owned::new(alloc, value)?;
    let before = pointer
        .swap(owned, AcqRel, guard)
        .map_err(|_back| Fault::CellsFull)?;
    // From here on no thread finds the value before. Those that found it earlier may still read it.
    if !before.is_null() {
        handle
            .defer_destroy(guard, before)
            .map_err(|refused| refused.fault)?;
    }
    Ok(())
}
