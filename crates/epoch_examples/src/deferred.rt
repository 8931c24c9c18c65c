//! A function that is called later, at the earliest when every participant that was pinned at its deferral has unpinned
//! or repinned.
ghost use Rattle.std.specs.Prelude.{◌≡◌, IfErr};
ghost use Rattle.epoch.specs.Handles.{Owns};

use epoch::{Guard, Job, LocalHandle, Refused};

/// Defers the job, and puts the bag that has it where the collections of all threads find it.
///
/// A refused call hands the job back: the handle's bag was full, and there was no place for it. If only the flush finds
/// no place, the job waits in the handle's bag.
pub fn call_soon(
    job: Job,
    handle: &mut LocalHandle<'_, u64>,
    guard: &Guard<'_, u64>,
) -> Result<(), Refused<Job>>
    requires { Owns handle.old guard.now }
    ensures owns { Owns handle.new guard.now }
    ensures handed_back { IfErr result (λ refused. refused.value ≡ job) }
{
    handle.defer(guard, job)?;
    let _ = handle.flush(guard);
    Ok(())
}
