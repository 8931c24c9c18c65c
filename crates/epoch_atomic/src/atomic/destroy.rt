//! The removal of the value that a pointer names.
ghost use Rattle.std.specs.Prelude.{◌≡◌, ◌≢◌, ◌↔◌, ◌<◌, [], ◌∷◌, ◌++◌, ◌⊎◌, true, IsOk, IsErr, IsNone, IsSome, IfOk};
ghost use Rattle.std.specs.Prelude.{IfErr, IfSome, Some, None, length};
ghost use Rattle.epoch_cells.specs.declared.cells.name.Name.{Name};
ghost use Rattle.epoch_cells.specs.declared.fault.Fault.TheVariants.{StrangerGuard, StrangerPointer, BagsFull};
ghost use Rattle.epoch_bags.specs.declared.job.Job.TheVariants.{Remove};
ghost use Rattle.epoch_bags.specs.declared.job.Called.TheVariants.{Ran};
ghost use Rattle.epoch_handles.specs.Handles.{IsReady, IsSame, Owns, Does};
ghost use Rattle.epoch_atomic.specs.Pointers.{IsUnder, Names};
ghost use Rattle.epoch_machine.specs.declared.machine.Action.TheVariants.{Defer};

use crate::atomic::shared::Shared;
use epoch_bags::{Called, Job, Run};
use epoch_cells::{Fault, Name, Refused};
use epoch_handles::{Guard, LocalHandle, home_of};

impl<'g, T> Shared<'g, T> {
    // The name, where the pointer was got under a guard of the collector with this number.
    #[inline(always)]
    pub(crate) fn name_under(&self, id: u64) -> Option<Name>
        ensures some { IsSome result ↔ (IsSome self.now.name × IsUnder id self.now.home) }
        ensures name { IfSome result (λ name. self.now.name ≡ Some name) }
    {
        let home = self.home?;
        if home.id == id { self.name } else { None }
    }
}

/// Gives a [`Guard`] the call `destroy_now`.
pub trait DestroyNow<T> {
    /// Destroys the value at once, under an unprotected guard, and returns what that did: a value that another thread
    /// reads or writes stays.
    ///
    /// No other thread may use the structure. If the guard is protecting, or the pointer is null or was loaded under a
    /// guard of another collector, the pointer comes back, and nothing was done.
    fn destroy_now<'g>(&self, shared: Shared<'g, T>) -> Result<Called, Shared<'g, T>>;
}

/// Gives a [`LocalHandle`] the call `defer_destroy`.
pub trait DeferDestroy<T, W> {
    /// Defers the removal of the value that the pointer names: a later collection destroys it, at the earliest when
    /// every participant pinned now has unpinned or repinned. Under an unprotected guard it is destroyed at once. If it
    /// is read or written then, it stays in its cell until a further removal of it is called, or until the end.
    ///
    /// The value must be out of reach: unlink it first, so that no pointer in the structure leads to it any more. A
    /// thread that pins after this call, and still finds a pointer to the value, may find the value gone. Defer each
    /// value once.
    ///
    /// The removal is kept as the job of [`LocalHandle::defer`] is, and no clause says when it is called. The faults,
    /// in the order in which they are looked for: `StrangerGuard`: the guard isn't one that this handle has out.
    /// `StrangerPointer`: the pointer is null, whatever its tag is, or was loaded under a guard of another collector.
    /// `BagsFull`: the held bag was full, and each place was seen occupied; this doesn't come if
    /// [`LocalHandle::has_room`] holds, so make room before you unlink. A refused call hands the pointer back, and
    /// leaves the held bag as it was. As `Guard::defer_destroy` of crossbeam-epoch, which is unsafe to call and refuses
    /// nothing.
    fn defer_destroy<'g>(
        &mut self,
        guard: &Guard<'_, T, W>,
        shared: Shared<'g, T>,
    ) -> Result<(), Refused<Shared<'g, T>>>;
}

impl<'c, T: Drop, W: Run> DestroyNow<T> for Guard<'c, T, W> {
    fn destroy_now<'g>(&self, shared: Shared<'g, T>) -> Result<Called, Shared<'g, T>>
        ensures ok { IsOk result ↔ (IsNone self.now.position × IsSome shared.entry.name
            × IsUnder self.now.collector.now.id shared.entry.home) }
        ensures called { IfOk result (λ called. called ≢ Ran) }
        ensures tried { IsOk result → IfSome shared.entry.name (λ name. W.Removing.tried name) }
        ensures handed_back { IfErr result (λ back. back ≡ shared.entry) }
    {
        let Some(name) = shared.name_under(home_of(self).id) else {
            return Err(shared);
        };
        match self.call_now(Job::Remove(name)) {
            Ok(called) => Ok(called),
            Err(_job) => Err(shared),
        }
    }
}

impl<'c, T: Drop, W: Run> DeferDestroy<T, W> for LocalHandle<'c, T, W> {
    #[inline(always)]
    fn defer_destroy<'g>(
        &mut self,
        guard: &Guard<'_, T, W>,
        shared: Shared<'g, T>,
    ) -> Result<(), Refused<Shared<'g, T>>>
        ensures same { IsSame self.old self.new }
        ensures ready { IsReady self.new }
        ensures counted { self.new.machine.guards ≡ self.old.machine.guards }
        ensures unprotected { guard.now.position ≡ None → self.new ≡ self.old }
        ensures at_once { (name : Name) → guard.now.position ≡ None → Names self.old shared.entry name → IsOk result }
        ensures tried { (name : Name) → guard.now.position ≡ None → Names self.old shared.entry name
            → W.Removing.tried name }
        ensures stranger { IsSome guard.now.position → ¬ Owns self.old guard.now
            → IfErr result (λ refused. refused.fault ≡ StrangerGuard) × IsErr result × (self.new ≡ self.old) }
        ensures pointer { (guard.now.position ≡ None) ⊎ Owns self.old guard.now
            → ((name : Name) → ¬ Names self.old shared.entry name)
            → IfErr result (λ refused. refused.fault ≡ StrangerPointer) × IsErr result × (self.new ≡ self.old) }
        ensures does { (name : Name) → Owns self.old guard.now → Names self.old shared.entry name
            → Does self.old Defer self.new × IfErr result (λ refused. refused.fault ≡ BagsFull) }
        ensures room { (name : Name) → Owns self.old guard.now → Names self.old shared.entry name
            → length self.old.machine.held < self.old.machine.sizes.bag_jobs
            → IsOk result × (self.new.machine.held ≡ self.old.machine.held ++ Remove name ∷ []) }
        ensures kept { (name : Name) → Owns self.old guard.now → Names self.old shared.entry name
            → IsOk result → (self.new.machine.held ≡ self.old.machine.held ++ Remove name ∷ [])
            ⊎ (self.new.machine.held ≡ Remove name ∷ []) }
        ensures err { IsErr result → self.new.machine.held ≡ self.old.machine.held }
        ensures found { (name : Name) → Owns self.old guard.now → Names self.old shared.entry name
            → IsErr result ↔ (self.new.machine.full ≡ true) }
        ensures handed_back { IfErr result (λ refused. refused.value ≡ shared.entry) }
    {
        if guard.is_protecting() && !self.owns(guard) {
            return Err(Refused {
                fault: Fault::StrangerGuard,
                value: shared,
            });
        }
        let Some(name) = shared.name_under(self.collector().id()) else {
            return Err(Refused {
                fault: Fault::StrangerPointer,
                value: shared,
            });
        };
        if let Err(Refused { fault, value: _ }) = self.defer(guard, Job::Remove(name)) {
            return Err(Refused {
                fault,
                value: shared,
            });
        }
        Ok(())
    }
}
