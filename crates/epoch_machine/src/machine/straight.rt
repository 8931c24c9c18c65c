//! What a machine is after all asks of an action at once, for the actions that are written out step by step.
ghost use Rattle.std.specs.Prelude.{◌≡◌, ◌≢◌, ℕ, true, false, ◌+◌, ◌^◌, ◌<◌, length};
ghost use Rattle.epoch_machine.specs.Machine.{begun, heard, ended, with_stage, after_collect, guards_after, StageFits};
ghost use Rattle.epoch_machine.specs.declared.machine.Answer.TheVariants.{Epoch, Stored, Job};
ghost use Rattle.epoch_machine.specs.declared.machine.Action.TheVariants.{Pin, Unpin, Repin, Defer, Release};
ghost use Rattle.epoch_machine.specs.declared.machine.Stage.TheVariants.{Idle, LoadScan, LoadSeal, Put, Take, End};

use super::{Action, Machine, PINS_BETWEEN_COLLECTIONS, Stage};

/// Stores that hardly ever change anything look first: the exchange of a pin or an unpin waits for each store before
/// it.
impl<J> Machine<J> {
    /// No put of this action was refused so far.
    #[inline]
    fn clear_full(&mut self)
        ensures { self.new ≡ record self.old { full = false } }
    {
        if self.full {
            self.full = false;
        }
    }

    /// This epoch was published.
    #[inline]
    fn note_published(&mut self, epoch: u64)
        requires { epoch < 2 ^ 63 }
        ensures { self.new ≡ record self.old { published = epoch } }
    {
        if self.published != epoch {
            self.published = epoch;
        }
    }
}

impl<J> Machine<J> {
    /// Becomes the machine after a pin with no guard counted, which published this epoch. Returns whether a collection
    /// follows; if not, the pin has ended.
    #[inline]
    pub fn pin_first(&mut self, epoch: u64) -> bool
        requires idle { self.old.stage ≡ Idle }
        requires first { self.old.guards ≡ 0 }
        requires within { epoch < 2 ^ 63 }
        ensures collects { result ≡ true → (again : ℕ)
            → self.new ≡ heard (heard (heard (begun Pin self.old) (Epoch epoch)) Stored) (Epoch again) }
        ensures scans { result ≡ true → self.new.stage ≡ LoadScan }
        ensures stops { result ≡ false → (again : ℕ)
            → (heard (heard (heard (begun Pin self.old) (Epoch epoch)) Stored) (Epoch again)).stage ≡ End }
        ensures ends { result ≡ false → (again : ℕ)
            → self.new ≡ ended (heard (heard (heard (begun Pin self.old) (Epoch epoch)) Stored) (Epoch again)) }
    {
        let pins = (self.pins + 1) % PINS_BETWEEN_COLLECTIONS;
        self.action = Action::Pin;
        self.clear_full();
        self.note_published(epoch);
        self.pins = pins;
        if pins == 1 {
            self.stage = Stage::LoadScan;
            true
        } else {
            self.guards = 1;
            false
        }
    }

    /// Becomes the machine after a pin with guards counted, which asks for nothing.
    #[inline]
    pub fn pin_again(&mut self)
        requires idle { self.old.stage ≡ Idle }
        requires again { self.old.guards ≢ 0 }
        requires fits { self.old.guards + 1 < 2 ^ 32 }
        ensures { self.new ≡ ended (begun Pin self.old) }
    {
        self.action = Action::Pin;
        self.clear_full();
        self.guards += 1;
    }

    /// Becomes the machine after the unpin of the only guard.
    #[inline]
    pub fn unpin_last(&mut self)
        requires idle { self.old.stage ≡ Idle }
        requires last { self.old.guards ≡ 1 }
        ensures { self.new ≡ ended (heard (begun Unpin self.old) Stored) }
    {
        self.action = Action::Unpin;
        self.clear_full();
        self.guards = 0;
    }

    /// Becomes the machine after the unpin of one guard of several, which asks for nothing.
    #[inline]
    pub fn unpin_one(&mut self)
        requires idle { self.old.stage ≡ Idle }
        requires more { 1 < self.old.guards }
        ensures { self.new ≡ ended (begun Unpin self.old) }
    {
        self.action = Action::Unpin;
        self.clear_full();
        self.guards -= 1;
    }

    /// Becomes the machine after a repin with no guard or with several, which asks for nothing.
    #[inline]
    pub fn repin_none(&mut self)
        requires idle { self.old.stage ≡ Idle }
        requires not { self.old.guards ≢ 1 }
        ensures { self.new ≡ ended (begun Repin self.old) }
    {
        self.action = Action::Repin;
        self.full = false;
    }

    /// Becomes the machine after a repin that found this epoch. If that was published already, nothing follows the
    /// repin's first load.
    #[inline]
    pub fn repin_only(&mut self, epoch: u64)
        requires idle { self.old.stage ≡ Idle }
        requires only { self.old.guards ≡ 1 }
        requires within { epoch < 2 ^ 63 }
        ensures same { self.old.published ≡ epoch → self.new ≡ ended (heard (begun Repin self.old) (Epoch epoch)) }
        ensures moved { self.old.published ≢ epoch → (again : ℕ)
            → self.new ≡ ended (heard (heard (heard (begun Repin self.old) (Epoch epoch)) Stored) (Epoch again)) }
    {
        self.action = Action::Repin;
        self.full = false;
        self.published = epoch;
    }

    /// Becomes the machine after a scan that gave this epoch.
    #[inline]
    pub fn scanned(&mut self, epoch: u64)
        requires scans { self.old.stage ≡ LoadScan }
        requires within { epoch < 2 ^ 63 }
        ensures { self.new ≡ with_stage self.old (Take epoch 0) }
    {
        self.stage = Stage::Take(epoch, 0);
    }

    /// Becomes the machine after the load of the epoch that the held bag is sealed with.
    #[inline]
    pub fn sealed(&mut self, seal: u64)
        requires loads { self.old.stage ≡ LoadSeal }
        requires within { seal < 2 ^ 63 }
        ensures { self.new ≡ with_stage self.old (Put seal) }
    {
        self.stage = Stage::Put(seal);
    }

    /// Ends an action that leaves as many guards counted as before.
    #[inline]
    pub fn end_uncounted(&mut self)
        requires ended { self.old.stage ≡ End }
        requires same { guards_after self.old.action self.old.guards ≡ self.old.guards }
        ensures { self.new ≡ ended self.old }
    {
        self.stage = Stage::Idle;
    }
}

impl<J: Drop> Machine<J> {
    /// Becomes the machine after a deferral into a bag with room, which kept this job.
    #[inline]
    pub fn keep_with_room(&mut self, job: J)
        requires idle { self.old.stage ≡ Idle }
        requires room { length self.old.held < self.old.sizes.bag_jobs }
        ensures { self.new ≡ ended (heard (begun Defer self.old) (Job job)) }
    {
        self.action = Action::Defer;
        self.clear_full();
        self.held.push(job);
    }

    /// Becomes the machine after the pin of a release, which published this epoch. Returns whether a collection
    /// follows.
    #[inline]
    pub fn release_pinned(&mut self, epoch: u64) -> bool
        requires idle { self.old.stage ≡ Idle }
        requires within { epoch < 2 ^ 63 }
        ensures after { (again : ℕ)
            → self.new ≡ heard (heard (heard (begun Release self.old) (Epoch epoch)) Stored) (Epoch again) }
        ensures scans { result ≡ true → self.new.stage ≡ LoadScan }
        ensures leaves { result ≡ false → self.new.stage ≡ after_collect Release self.old.held }
    {
        let pins = (self.pins + 1) % PINS_BETWEEN_COLLECTIONS;
        self.action = Action::Release;
        self.full = false;
        self.published = epoch;
        self.pins = pins;
        if pins == 1 {
            self.stage = Stage::LoadScan;
            return true;
        }
        self.stage = self.after_collect();
        false
    }
}
