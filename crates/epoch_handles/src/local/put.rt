//! Puts of the held bag into a place that participants share, and the deferrals and flushes that make them.
ghost use Rattle.std.specs.Prelude.{◌≡◌, ◌≢◌, ◌↔◌, ℕ, ◌<◌, true, false, [], ◌∷◌, ◌++◌, length, IsOk, IsErr, IfErr};
ghost use Rattle.epoch_tables.specs.SharedSteps.{RestsAt};
ghost use Rattle.epoch_handles.specs.Handles.{IsSeated, IsReady, IsSame, IsPinned, Puts, Does, DoesAndCalls};
ghost use Rattle.epoch_machine.specs.declared.machine.Action.TheVariants.{Defer, Flush};
ghost use Rattle.epoch_machine.specs.declared.machine.Stage.TheVariants.{LoadSeal};

use crate::local::Local;
use crate::rooms::OwnRooms;
use epoch_bags::{Job, PutStep, Run};
use epoch_machine::{Action, Answer};

impl<'c, T: Drop, W: Run> Local<'c, T, W> {
    /// Seals the held bag with the epoch that it loads now, and puts it into a place. The bag stays held where
    /// each place was seen occupied, and the machine says so: `found_full`.
    #[inline(never)]
    pub(crate) fn put(&mut self)
        requires seated { IsSeated self.old }
        requires rests { RestsAt self.old.claimer.me }
        requires pinned { IsPinned self.old.seat.me.0 }
        requires begins { self.old.machine.stage ≡ LoadSeal }
        ensures { Puts self.old self.new }
    {
        let seal = self.load_epoch();
        self.machine.sealed(seal);
        // Anew for each put: `BagsFull` tells that this very put saw each place occupied, after its load of the seal.
        let mut cursor = self.collector.places.start_put();
        loop {
            let step = self
                .machine
                .put_shared(&self.collector.places, &mut self.claimer, &mut cursor);
            if step != PutStep::Again {
                return;
            }
        }
    }

    /// A deferral into a bag with room.
    #[inline]
    pub(crate) fn keep_at_once(&mut self, job: Job<W>)
        requires ready { IsReady self.old }
        requires out { 0 < self.old.machine.guards }
        requires room { length self.old.machine.held < self.old.machine.sizes.bag_jobs }
        ensures same { IsSame self.old self.new }
        ensures does { Does self.old Defer self.new }
        ensures ready { IsReady self.new }
        ensures counted { self.new.machine.guards ≡ self.old.machine.guards }
        ensures kept { self.new.machine.held ≡ self.old.machine.held ++ job ∷ [] }
        ensures found { self.new.machine.full ≡ false }
    {
        self.machine.keep_with_room(job);
    }

    /// A deferral into a full bag: the bag is put first. Hands the job back where each place was seen occupied.
    #[inline(never)]
    pub(crate) fn defer_after_a_put(&mut self, job: Job<W>) -> Result<(), Job<W>>
        requires ready { IsReady self.old }
        requires out { 0 < self.old.machine.guards }
        requires full { length self.old.machine.held ≡ self.old.machine.sizes.bag_jobs }
        ensures same { IsSame self.old self.new }
        ensures does { Does self.old Defer self.new }
        ensures ready { IsReady self.new }
        ensures counted { self.new.machine.guards ≡ self.old.machine.guards }
        ensures kept { IsOk result → self.new.machine.held ≡ job ∷ [] }
        ensures err { IsErr result → self.new.machine.held ≡ self.old.machine.held }
        ensures found { IsErr result ↔ (self.new.machine.full ≡ true) }
        ensures handed_back { IfErr result (λ back. back ≡ job) }
    {
        // Its range shows that the count at the end fits.
        let _guards = self.machine.guards();
        self.machine.begin(Action::Defer);
        self.put();
        if self.machine.found_full() {
            self.machine.end();
            return Err(job);
        }
        self.machine.take(Answer::Job(job));
        self.machine.end();
        Ok(())
    }

    /// A flush: the held bag is put, if it has a job, and bags are collected. Returns whether the put saw each
    /// place occupied.
    #[inline(always)]
    pub(crate) fn flush(&mut self, rooms: &mut OwnRooms<'c, T>) -> bool
        requires ready { IsReady self.old }
        requires out { 0 < self.old.machine.guards }
        ensures same { IsSame self.old self.new }
        ensures does { Does self.old Flush self.new }
        ensures called { DoesAndCalls W.done W.Removing.tried self.old Flush self.new }
        ensures ready { IsReady self.new }
        ensures counted { self.new.machine.guards ≡ self.old.machine.guards }
        ensures full { result ≡ true → (self.old.machine.held ≢ []) × (self.new.machine.held ≡ self.old.machine.held) }
        ensures not { result ≡ false → self.new.machine.held ≡ [] }
        ensures found { result ≡ self.new.machine.full }
    {
        let none = self.machine.holds_none();
        self.machine.begin(Action::Flush);
        if none {
            self.collect(rooms);
            self.machine.end_uncounted();
            return false;
        }
        self.put();
        self.collect(rooms);
        self.machine.end_uncounted();
        self.machine.found_full()
    }
}
