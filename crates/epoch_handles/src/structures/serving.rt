//! Whether a handle, a guard and a structure are of one collector. A structure keeps its collector's number.
ghost use Rattle.std.specs.Prelude.{◌≡◌, ◌↔◌, IsTrue};
ghost use Rattle.epoch_handles.specs.Handles.{IsReady};
ghost use Rattle.epoch_handles.specs.Serving.{ServesUnder};

use crate::{Guard, LocalHandle, home_of};

/// Returns whether the guard is of the collector with this number, also if the guard is unprotected.
///
/// A read-only call of a structure is given a guard and no handle. By this it can tell a guard of another collector.
#[inline(always)]
pub fn is_under<T, W>(id: u64, guard: &Guard<'_, T, W>) -> bool
    // Whether a guard, even an unprotected one, is of the collector with this number.
    ensures { IsTrue result ↔ (guard.now.collector.now.id ≡ id) }
{
    home_of(guard).id == id
}

/// Returns whether the guard is one that the handle has out, and both are of the collector with this number.
///
/// The answer is `false` for an unprotected guard, which no handle has out.
#[inline(always)]
pub fn serves<T, W>(id: u64, handle: &LocalHandle<'_, T, W>, guard: &Guard<'_, T, W>) -> bool
    // Whether a guard is one that the handle has out, and both are of the collector with this number.
    ensures value { IsTrue result ↔ ServesUnder id handle.now guard.now }

    ensures ready { IsReady handle.now }
{
    if handle.collector().id() == id {
        return handle.owns(guard);
    }
    false
}
