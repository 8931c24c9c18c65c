//! Handles: a thread takes part through its handle.
ghost use Rattle.std.specs.Prelude.{◌≡◌, true, ℕ, ◌+◌, ◌<◌, ◌^◌, ◌↔◌, ◌≢◌, [], ◌∷◌, ◌++◌, ◌⊎◌, IsTrue, IsSome, IsOk};
ghost use Rattle.std.specs.Prelude.{IsErr, Err, IfOk, IfErr, Some, None, length};
ghost use Rattle.epoch_cells.specs.declared.fault.Fault.TheVariants.{StrangerGuard, BagsFull};
ghost use Rattle.epoch_bags.specs.Jobs.{IsCalled};
ghost use Rattle.epoch_handles.specs.Handles.{IsReady, IsSame, IsBetween, Owns, IsPausedBy, Does, DoesAndCalls};
ghost use Rattle.epoch_handles.specs.Releases.{IsReleased};
ghost use Rattle.epoch_machine.specs.declared.machine.Action.TheVariants.{Pin, Unpin, Repin, Defer, Flush, Release};

use crate::collector::Collector;
use crate::guard::Guard;
use crate::interlude::{HasInterlude, Interlude};
use crate::local::Local;
use crate::paused::Paused;
use crate::released::Released;
use crate::rooms::{GuardRooms, OwnRooms};
use epoch_bags::{Job, Run, Work};
use epoch_cells::{Fault, Refused};
use std::fmt;
use std::marker::Model;

/// A participant, for one thread at a time. It must be given back, by [`LocalHandle::release`], or by
/// [`LocalHandle::leave`], whose result is then spent.
pub struct LocalHandle<'c, T, W = Work> {
    pub(crate) local: Local<'c, T, W>,
    // No clause speaks of them.
    pub(crate) rooms: OwnRooms<'c, T>,
}

impl<'c, T, W> Model for LocalHandle<'c, T, W> {
    ghost use Rattle.epoch_handles.specs.declared.local.Local.{Local};
    ghost use Rattle.epoch_handles.specs.Handles.{IsReady};

    ghost Value = { Local T W };

    ghost view = { λ h. h.local };

    ghost invariant = { λ h. IsReady h.local };
}

impl<'c, T, W> fmt::Debug for LocalHandle<'c, T, W> {
    fn fmt<F: fmt::Write>(&self, f: &mut fmt::Formatter<F>) -> fmt::Result {
        f.pad("LocalHandle { .. }")
    }
}

impl<'c, T, W> LocalHandle<'c, T, W> {
    /// Returns the collector that it is a participant of.
    pub fn collector(&self) -> &'c Collector<T, W>
        ensures value { result.now ≡ self.now.collector.now }
        ensures ready { IsReady self.now }
    {
        self.local.collector
    }

    /// Returns how many of its guards are out.
    pub fn guards_out(&self) -> u32
        ensures { result ≡ self.now.machine.guards }
    {
        self.local.machine.guards()
    }

    /// Returns whether it is pinned: whether one of its guards is out.
    pub fn is_pinned(&self) -> bool
        ensures { IsTrue result ↔ (0 < self.now.machine.guards) }
    {
        self.local.machine.guards() > 0
    }

    /// Returns whether a further guard can be counted. At most `2^32 - 1` guards can be out.
    pub fn can_pin(&self) -> bool
        ensures { IsTrue result ↔ (self.now.machine.guards + 1 < 2 ^ 32) }
    {
        self.guards_out() < u32::MAX
    }

    /// Returns whether the held bag takes a further job without being put into a place first.
    pub fn has_room(&self) -> bool
        ensures value { IsTrue result ↔ (length self.now.machine.held < self.now.machine.sizes.bag_jobs) }
        ensures ready { IsReady self.now }
    {
        self.local.machine.has_room()
    }

    /// Returns whether this is a guard of this participant. The answer is `false` if none of its guards is out.
    ///
    /// Two collectors with the same number aren't told apart.
    #[inline(always)]
    pub fn owns(&self, guard: &Guard<'_, T, W>) -> bool
        // A guard belongs to a handle exactly when their positions and the numbers of their collectors agree, and a
        // guard is out. `is_pinned`, `guards_out`, `can_pin` and `has_room` return what their names say.
        ensures value { IsTrue result ↔ Owns self.now guard.now }

        ensures ready { IsReady self.now }
    {
        if self.local.machine.guards() == 0 {
            return false;
        }
        if guard.collector.id != self.local.collector.id {
            return false;
        }
        match guard.position {
            Some(position) => position == self.local.position,
            None => false,
        }
    }

    /// Repins the participant, if this is its only guard: its word gets the present epoch, and no value that was found
    /// under the guard before is protected any more. With more guards out, and under an unprotected guard, nothing
    /// happens.
    ///
    /// The guard must be this handle's, or unprotected. A participant that stays pinned in an old epoch keeps jobs from
    /// being called, so a loop that stays pinned for long calls this at a point where it holds no pointer. As
    /// `Guard::repin` of crossbeam-epoch.
    #[inline]
    pub fn repin(&mut self, guard: &mut Guard<'c, T, W>)
        requires { guard.old.position ≡ None ⊎ Owns self.old guard.old }
        ensures guard { guard.new ≡ guard.old }
        ensures same { IsSame self.old self.new }
        ensures ready { IsReady self.new }
        ensures counted { self.new.machine.guards ≡ self.old.machine.guards }
        ensures unprotected { guard.old.position ≡ None → self.new ≡ self.old }
        ensures does { IsSome guard.old.position → Does self.old Repin self.new }
    {
        if guard.is_protecting() {
            self.local.repin();
        }
    }

    /// Returns whether this is a guard that this participant paused. Like [`LocalHandle::owns`], it doesn't tell two
    /// collectors with the same number apart.
    #[inline]
    pub fn has_paused(&self, paused: &Paused<'_, T, W>) -> bool
        ensures value { IsTrue result ↔ IsPausedBy self.now paused.now }
        ensures ready { IsReady self.now }
    {
        if paused.guard.collector.id != self.local.collector.id {
            return false;
        }
        let Some(position) = paused.guard.position else {
            return false;
        };
        position == self.local.position
    }
}

impl<'c, T: Drop, W> LocalHandle<'c, T, W> {
    /// Unpins the participant until [`LocalHandle::resume`] pins it again under the same guard. No value that was found
    /// under the guard before is protected any more. With more guards out the participant stays pinned.
    ///
    /// The guard must be this handle's. The result keeps it, so no call can be made under it meanwhile; the handle can
    /// make every other call. This is the first half of [`LocalHandle::repin_after`].
    #[inline]
    pub fn pause(&mut self, guard: Guard<'c, T, W>) -> Paused<'c, T, W>
        requires { Owns self.old guard }
        ensures guard { result.guard ≡ guard.entry }
        ensures own { IsPausedBy self.new result }
        ensures same { IsSame self.old self.new }
        ensures does { Does self.old Unpin self.new }
        ensures ready { IsReady self.new }
        ensures counted { self.new.machine.guards + 1 ≡ self.old.machine.guards }
    {
        self.rooms.take_back(guard.rooms.take());
        Local::unpin(&mut self.local);
        Paused { guard }
    }

    /// Takes a guard of this handle back. When the last one is back, the participant isn't pinned any more.
    ///
    /// The guard must be this handle's: [`LocalHandle::owns`]. In crossbeam-epoch a guard does this when it is dropped.
    #[inline]
    pub fn unpin(&mut self, guard: Guard<'c, T, W>)
        requires { Owns self.old guard }
        ensures same { IsSame self.old self.new }
        ensures does { Does self.old Unpin self.new }
        ensures ready { IsReady self.new }
        ensures counted { self.new.machine.guards + 1 ≡ self.old.machine.guards }
    {
        let Guard {
            collector: _,
            position: _,
            rooms,
        } = guard;
        self.rooms.take_back(rooms.into_list());
        self.local.unpin();
    }
}

impl<'c, T: Drop, W: Run> LocalHandle<'c, T, W> {
    /// Defers the job: a later collection calls it, at the earliest when every participant that is pinned now has
    /// unpinned or repinned. Under an unprotected guard the job is called at once.
    ///
    /// Otherwise no clause says when the job is called, or by which thread. It waits while a participant stays pinned,
    /// and while no participant pins or flushes; at the latest, the end of the collector calls it.
    /// [`LocalHandle::flush`] hurries it, since no collection finds the jobs of a held bag.
    ///
    /// The job is kept in the held bag. A full one is first sealed and put into a place.
    ///
    /// `StrangerGuard`: the guard isn't one that this handle has out. `BagsFull`: the held bag was full, and each place
    /// was seen occupied. A refused call hands the job back, and leaves the held bag as it was. As `Guard::defer` of
    /// crossbeam-epoch, which is never refused.
    #[inline(always)]
    pub fn defer(&mut self, guard: &Guard<'_, T, W>, job: Job<W>) -> Result<(), Refused<Job<W>>>
        ensures same { IsSame self.old self.new }
        ensures ready { IsReady self.new }
        ensures counted { self.new.machine.guards ≡ self.old.machine.guards }
        ensures unprotected { guard.now.position ≡ None → IsOk result × (self.new ≡ self.old) }
        ensures at_once { guard.now.position ≡ None → IsCalled W.done W.Removing.tried job }
        ensures stranger { IsSome guard.now.position → ¬ Owns self.old guard.now
            → IfErr result (λ refused. refused.fault ≡ StrangerGuard) × IsErr result × (self.new ≡ self.old) }
        ensures does { IsSome guard.now.position → Owns self.old guard.now
            → Does self.old Defer self.new × IfErr result (λ refused. refused.fault ≡ BagsFull) }
        // A deferral under a guard of its handle, with room in the bag, is always accepted. A job that is kept is
        // behind the others, or alone in a new bag.
        ensures room { Owns self.old guard.now → length self.old.machine.held < self.old.machine.sizes.bag_jobs
            → IsOk result × (self.new.machine.held ≡ self.old.machine.held ++ job ∷ []) }
        ensures kept { Owns self.old guard.now → IsOk result
            → (self.new.machine.held ≡ self.old.machine.held ++ job ∷ []) ⊎ (self.new.machine.held ≡ job ∷ []) }

        // A deferral that is refused hands the job back with `StrangerGuard` or `BagsFull`, and the bag is as it was.
        ensures err { IsErr result → self.new.machine.held ≡ self.old.machine.held }

        ensures found { Owns self.old guard.now → IsErr result ↔ (self.new.machine.full ≡ true) }
        ensures handed_back { IfErr result (λ refused. refused.value ≡ job) }
    {
        if !self.owns(guard) {
            return self.defer_unowned(guard, job);
        }
        if self.local.machine.has_room() {
            self.local.keep_at_once(job);
            return Ok(());
        }
        self.defer_with_full_bag(job)
    }

    /// A deferral under a guard that isn't one of this handle's: an unprotected one, or a stranger's.
    #[inline(never)]
    fn defer_unowned(&self, guard: &Guard<'_, T, W>, job: Job<W>) -> Result<(), Refused<Job<W>>>
        ensures unprotected { guard.now.position ≡ None → IsOk result }
        ensures at_once { guard.now.position ≡ None → IsCalled W.done W.Removing.tried job }
        ensures stranger { IsSome guard.now.position
            → IfErr result (λ refused. refused.fault ≡ StrangerGuard) × IsErr result }
        ensures handed_back { IfErr result (λ refused. refused.value ≡ job) }
    {
        if guard.is_protecting() {
            return Err(Refused {
                fault: Fault::StrangerGuard,
                value: job,
            });
        }
        let _ = self.local.collector.call(job);
        Ok(())
    }

    /// A deferral whose held bag is full.
    #[inline(never)]
    fn defer_with_full_bag(&mut self, job: Job<W>) -> Result<(), Refused<Job<W>>>
        requires out { 0 < self.old.machine.guards }
        requires full { length self.old.machine.held ≡ self.old.machine.sizes.bag_jobs }
        ensures same { IsSame self.old self.new }
        ensures ready { IsReady self.new }
        ensures counted { self.new.machine.guards ≡ self.old.machine.guards }
        ensures does { Does self.old Defer self.new }
        ensures full { IfErr result (λ refused. refused.fault ≡ BagsFull) }
        ensures kept { IsOk result → self.new.machine.held ≡ job ∷ [] }
        ensures err { IsErr result → self.new.machine.held ≡ self.old.machine.held }
        ensures found { IsErr result ↔ (self.new.machine.full ≡ true) }
        ensures handed_back { IfErr result (λ refused. refused.value ≡ job) }
    {
        match self.local.defer_after_a_put(job) {
            Ok(()) => Ok(()),
            Err(value) => Err(Refused {
                fault: Fault::BagsFull,
                value,
            }),
        }
    }

    /// Puts the held bag into a place, if it has a job, and then collects: tries to advance the epoch, takes expired
    /// bags, at most as many as one collection takes, and calls their jobs. Under an unprotected guard nothing happens.
    ///
    /// From then on the collections of every participant can call the jobs that this one has deferred. Its own pin
    /// holds the epoch back, so to see the jobs called, flush again under a new pin.
    ///
    /// `StrangerGuard`: the guard isn't one that this handle has out, and nothing was done. `BagsFull`: each place was
    /// seen occupied; the held bag is as it was, and the collection was made. As `Guard::flush` of crossbeam-epoch,
    /// whose queue is never full.
    #[inline(always)]
    pub fn flush(&mut self, guard: &Guard<'_, T, W>) -> Result<(), Fault>
        ensures same { IsSame self.old self.new }
        ensures ready { IsReady self.new }
        ensures counted { self.new.machine.guards ≡ self.old.machine.guards }
        ensures unprotected { guard.now.position ≡ None → IsOk result × (self.new ≡ self.old) }
        ensures stranger { IsSome guard.now.position → ¬ Owns self.old guard.now
            → (result ≡ Err StrangerGuard) × (self.new ≡ self.old) }
        ensures does { Owns self.old guard.now → Does self.old Flush self.new }
        ensures called { Owns self.old guard.now → DoesAndCalls W.done W.Removing.tried self.old Flush self.new }
        ensures full { Owns self.old guard.now → IsErr result
            → (result ≡ Err BagsFull) × (self.old.machine.held ≢ []) × (self.new.machine.held ≡ self.old.machine.held) }
        // A flush leaves an empty bag, or says `BagsFull` and leaves the bag as it was.
        ensures empty { Owns self.old guard.now → IsOk result → self.new.machine.held ≡ [] }

        ensures found { Owns self.old guard.now → IsErr result ↔ (self.new.machine.full ≡ true) }
    {
        if !guard.is_protecting() {
            // For the prover: a field read shows what a handle keeps between two calls.
            let _ = &self.local;
            return Ok(());
        }
        if !self.owns(guard) {
            return Err(Fault::StrangerGuard);
        }
        if self.local.flush(&mut self.rooms) {
            return Err(Fault::BagsFull);
        }
        Ok(())
    }

    /// Unpins the participant, calls `f`, and pins again, if this is its only guard. The new pin counts as one, and may
    /// collect. With more guards out the participant stays pinned, and under an unprotected guard `f` is only called.
    ///
    /// The guard must be this handle's, or unprotected. The call is for work that takes long and needs no protection.
    /// It is a [`LocalHandle::pause`], the call of `f`, and a [`LocalHandle::resume`]. The clauses tell by
    /// [`Interlude`] that `f` was called between these two. As `Guard::repin_after` of crossbeam-epoch.
    pub fn repin_after<F: FnOnce() -> X + HasInterlude<M>, X, M: Interlude<W, F, X>>(
        &mut self,
        guard: &mut Guard<'c, T, W>,
        f: F,
    ) -> X
        requires guard { guard.old.position ≡ None ⊎ Owns self.old guard.old }
        requires f { F.pre f }
        // What `repin_after` returns is something that its function may return.
        ensures f { F.post f result }

        ensures guard { guard.new ≡ guard.old }
        ensures same { IsSame self.old self.new }
        ensures ready { IsReady self.new }
        ensures counted { self.new.machine.guards ≡ self.old.machine.guards }
        ensures unprotected { guard.old.position ≡ None → self.new ≡ self.old }
        // `repin_after` is an unpin, the call of its function, and then a pin. The unpin and the pin are as above. The
        // function is called while the handle is the same participant of the same collector, with one guard fewer.
        // After each call the handle's word says what its machine says. While guards are out, it is pinned in the
        // published epoch, which was read again; while none is, it is not pinned. Each call keeps the position and the
        // collector. It keeps the number of guards, unless it pins or unpins.
        ensures does { IsSome guard.old.position → (between : _) × IsBetween self.old between
            × Does self.old Unpin between × Does between Pin self.new
            × DoesAndCalls W.done W.Removing.tried between Pin self.new
            × M.ran between.seat.me.0 between.machine f result }
    {
        if !guard.is_protecting() {
            // For the prover, as in `flush`: a field read shows what a handle keeps between two calls.
            let _ = &self.local;
            return self.local.run::<F, X, M>(f);
        }
        let _guards = self.local.machine.guards();
        let paused = self.pause(guard.taken());
        let answer = self.local.run::<F, X, M>(f);
        guard.give_back(self.resume(paused));
        answer
    }

    /// Pins the participant again under the guard that was paused, and returns that guard. The new pin counts as one,
    /// and may collect. With more guards out the participant is pinned already.
    ///
    /// This handle must have paused the guard, and be able to count one more: [`LocalHandle::has_paused`],
    /// [`LocalHandle::can_pin`].
    #[inline]
    pub fn resume(&mut self, paused: Paused<'c, T, W>) -> Guard<'c, T, W>
        requires own { IsPausedBy self.old paused }
        requires fits { self.old.machine.guards + 1 < 2 ^ 32 }
        ensures guard { result ≡ paused.entry.guard }
        ensures own { Owns self.new result }
        ensures same { IsSame self.old self.new }
        // A pause of a guard is an unpin, and its resume is a pin, each as above. The guard comes back as it was, and
        // is its handle's again.
        ensures does { Does self.old Pin self.new }

        ensures called { DoesAndCalls W.done W.Removing.tried self.old Pin self.new }
        ensures ready { IsReady self.new }
        ensures counted { self.new.machine.guards ≡ self.old.machine.guards + 1 }
    {
        let first = self.local.machine.guards() == 0;
        self.local.pin_and_collect(&mut self.rooms);
        let Paused { guard } = paused;
        guard.rooms.put(self.rooms.give(first));
        guard
    }

    /// Gives the position up: the participant pins, puts its held bag if it has a job, unpins, and frees its position.
    ///
    /// None of its guards may be out. The result is the state after the release, and can only be spent: the word is 0,
    /// the machine is that of a free position, and the held bag, if it had a job, was put whole. `BagsFull`: each place
    /// was seen occupied. The handle comes back unpinned, with its bag as it was.
    #[inline(always)]
    pub fn leave(self) -> Result<Released<'c, T, W>, (LocalHandle<'c, T, W>, Fault)>
        requires { self.machine.guards ≡ 0 }
        ensures full { IfErr result (λ back. back.1 ≡ BagsFull) }
        ensures same { IfErr result (λ back. IsSame self.entry back.0) }
        ensures does { IfErr result (λ back. Does self.entry Release back.0) }
        ensures called { IfErr result (λ back. DoesAndCalls W.done W.Removing.tried self.entry Release back.0) }
        ensures ready { IfErr result (λ back. IsReady back.0) }
        ensures held { IfErr result
            (λ back. (self.entry.machine.held ≢ []) × (back.0.machine.held ≡ self.entry.machine.held)) }
        ensures counted { IfErr result (λ back. back.0.machine.guards ≡ 0) }
        ensures found { IfErr result (λ back. back.0.machine.full ≡ true) }
        // An accepted `leave` returns the state after the release. The word is 0, the machine is that of a free
        // position, no place is claimed, and the held bag, if it had a job, was put whole. `release` makes the same
        // release, and returns no state.
        ensures frees { IfOk result (λ released. IsReleased W.done W.Removing.tried self.entry released.local) }
    {
        let LocalHandle {
            mut local,
            mut rooms,
        } = self;
        let freed = local.release(&mut rooms);
        if freed {
            return Ok(Released { local });
        }
        Err((LocalHandle { local, rooms }, Fault::BagsFull))
    }

    /// Ends the participant, as [`LocalHandle::leave`] and then [`Released::spend`](crate::Released::spend) do, but
    /// returns no state: the clause `frees` says only that there is one.
    ///
    /// None of its guards may be out. `BagsFull`: each place was seen occupied. The handle comes back unpinned, with
    /// its bag as it was. In crossbeam-epoch a handle does this when it is dropped, and is never refused.
    pub fn release(self) -> Result<(), (LocalHandle<'c, T, W>, Fault)>
        requires { self.machine.guards ≡ 0 }
        // A handle whose release is refused comes back unpinned, with its bag. The only fault is `BagsFull`.
        ensures full { IfErr result (λ back. back.1 ≡ BagsFull) }

        ensures same { IfErr result (λ back. IsSame self.entry back.0) }
        // Each call performs its machine's action from the beginning to the end. It takes one step on the tables for
        // each thing that the machine asks for. The machine goes on by what the steps found. In these calls the epochs
        // that are read never fall. In these calls a pin or a repin publishes the epoch that it loaded immediately
        // before. In these calls a bag that is put is sealed with the epoch loaded after its last job, and is left
        // whole in its place. In these calls a bag whose jobs are called has a seal at least two below the epoch of the
        // scan.
        ensures does { IfErr result (λ back. Does self.entry Release back.0) }

        // For each job that the machine gave to be called in a pin, a resume, a flush or a release, the work was
        // called, or the removal attempted.
        ensures called { IfErr result (λ back. DoesAndCalls W.done W.Removing.tried self.entry Release back.0) }

        ensures ready { IfErr result (λ back. IsReady back.0) }
        ensures held { IfErr result
            (λ back. (self.entry.machine.held ≢ []) × (back.0.machine.held ≡ self.entry.machine.held)) }
        ensures counted { IfErr result (λ back. back.0.machine.guards ≡ 0) }
        // A deferral, a flush and a `defer_destroy` (of `epoch_atomic`) are refused for lack of a place exactly when
        // the machine found the store full. A release is refused only then.
        ensures found { IfErr result (λ back. back.0.machine.full ≡ true) }

        ensures frees { IsOk result → (last : _) × IsReleased W.done W.Removing.tried self.entry last }
    {
        let LocalHandle {
            mut local,
            mut rooms,
        } = self;
        if local.release(&mut rooms) {
            Local::spend(local);
            return Ok(());
        }
        Err((LocalHandle { local, rooms }, Fault::BagsFull))
    }

    /// Does what [`LocalHandle::defer`] does. A job is the caller's box, so no call has to trust its caller more, as
    /// the unsafe call of this name in crossbeam-epoch does.
    pub fn defer_unchecked(
        &mut self,
        guard: &Guard<'_, T, W>,
        job: Job<W>,
    ) -> Result<(), Refused<Job<W>>>
        ensures same { IsSame self.old self.new }
        ensures ready { IsReady self.new }
        ensures counted { self.new.machine.guards ≡ self.old.machine.guards }
        ensures unprotected { guard.now.position ≡ None → IsOk result × (self.new ≡ self.old) }
        // A deferral under an unprotected guard has called the work or tried the removal.
        ensures at_once { guard.now.position ≡ None → IsCalled W.done W.Removing.tried job }

        ensures stranger { IsSome guard.now.position → ¬ Owns self.old guard.now
            → IfErr result (λ refused. refused.fault ≡ StrangerGuard) × IsErr result × (self.new ≡ self.old) }
        ensures does { IsSome guard.now.position → Owns self.old guard.now
            → Does self.old Defer self.new × IfErr result (λ refused. refused.fault ≡ BagsFull) }
        ensures room { Owns self.old guard.now → length self.old.machine.held < self.old.machine.sizes.bag_jobs
            → IsOk result × (self.new.machine.held ≡ self.old.machine.held ++ job ∷ []) }
        ensures kept { Owns self.old guard.now → IsOk result
            → (self.new.machine.held ≡ self.old.machine.held ++ job ∷ []) ⊎ (self.new.machine.held ≡ job ∷ []) }
        ensures err { IsErr result → self.new.machine.held ≡ self.old.machine.held }
        ensures found { Owns self.old guard.now → IsErr result ↔ (self.new.machine.full ≡ true) }
        ensures handed_back { IfErr result (λ refused. refused.value ≡ job) }
    {
        self.defer(guard, job)
    }

    /// Pins the participant, and returns a guard. Of the pins that are made with no guard out, the first one collects,
    /// and so does each 128th after it. Such a guard gets free cells that the participant keeps, for the values that
    /// are placed under it.
    ///
    /// If the participant is pinned already, this only counts one more guard, and makes no atomic step. At most
    /// `2^32 - 1` guards can be out: [`LocalHandle::can_pin`] must hold. Keep pins short: while a participant stays
    /// pinned, the epoch advances at most once, and deferred jobs wait. As `LocalHandle::pin` of crossbeam-epoch.
    #[inline(always)]
    pub fn pin(&mut self) -> Guard<'c, T, W>
        requires { self.old.machine.guards + 1 < 2 ^ 32 }
        ensures own { Owns self.new result }
        ensures of { result.collector.now ≡ self.old.collector.now }
        ensures same { IsSame self.old self.new }
        ensures does { Does self.old Pin self.new }
        ensures called { DoesAndCalls W.done W.Removing.tried self.old Pin self.new }
        ensures ready { IsReady self.new }
        ensures counted { self.new.machine.guards ≡ self.old.machine.guards + 1 }
    {
        let first = self.local.machine.guards() == 0;
        self.local.pin_and_collect(&mut self.rooms);
        Guard {
            collector: self.local.collector,
            position: Some(self.local.position),
            rooms: GuardRooms::new(self.rooms.give(W::HAS_CELLS && first)),
        }
    }
}
