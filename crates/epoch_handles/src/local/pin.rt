//! Pins, unpins and repins, written out as the steps that they are.
ghost use Rattle.std.specs.Prelude.{◌≡◌, ℕ, ◌+◌, ◌<◌, ◌≤◌, ◌^◌, true, false, Some};
ghost use Rattle.epoch_handles.specs.Handles.{IsSeated, IsReady, IsSame, IsPinned, PublishSteps, PinSteps, IsDrivenTo};
ghost use Rattle.epoch_handles.specs.Handles.{Does, DoesStraight, DoesAndCalls};
ghost use Rattle.epoch_tables.specs.SharedSteps.{RestsAt};
ghost use Rattle.epoch_handles.specs.Drives.{NoJob};
ghost use Rattle.epoch_machine.specs.Machine.{begun};
ghost use Rattle.epoch_machine.specs.declared.machine.Action.TheVariants.{Pin, Unpin, Repin};
ghost use Rattle.epoch_machine.specs.declared.machine.Stage.TheVariants.{LoadScan};

use crate::local::Local;
use crate::rooms::OwnRooms;
use epoch_bags::Run;

impl<'c, T, W> Local<'c, T, W> {
    /// The steps of a pin after its first load: publishes the epoch found, and loads the epoch again.
    #[inline]
    fn publish_steps(&mut self, epoch: u64)
        requires seated { IsSeated self.old }
        requires read { epoch ≤ self.old.seat.me.0.seen }
        requires within { epoch < 2 ^ 63 }
        ensures { PublishSteps self.old epoch self.new }
    {
        // Read once: a field is read again after each atomic step.
        let (collector, position) = (self.collector, self.position);
        let participants = &collector.participants;
        participants.publish(&mut self.seat, position, epoch);
        let _again = participants.load_epoch_word(&mut self.seat);
    }

    /// The steps of a pin. Returns the epoch that was published.
    #[inline]
    pub(crate) fn pin_steps(&mut self) -> u64
        requires { IsSeated self.old }
        ensures within { result < 2 ^ 63 }
        ensures steps { PinSteps self.old result self.new }
    {
        let epoch = self.load_epoch();
        self.publish_steps(epoch);
        epoch
    }

    /// A pin as far as its collection. Returns whether one follows; if not, the pin has ended.
    #[inline]
    pub(crate) fn pin(&mut self) -> bool
        requires ready { IsReady self.old }
        requires fits { self.old.machine.guards + 1 < 2 ^ 32 }
        ensures same { IsSame self.old self.new }
        ensures ends { result ≡ false → DoesStraight self.old Pin self.new }
        ensures ready { result ≡ false → IsReady self.new }
        ensures counted { result ≡ false → self.new.machine.guards ≡ self.old.machine.guards + 1 }
        ensures drives { result ≡ true
            → IsDrivenTo NoJob (record self.old { machine = begun Pin self.old.machine }) self.new }
        ensures seated { result ≡ true → IsSeated self.new }
        ensures rests { result ≡ true → RestsAt self.new.claimer.me }
        ensures pinned { result ≡ true → IsPinned self.new.seat.me.0 }
        ensures scans { result ≡ true → self.new.machine.stage ≡ LoadScan }
        ensures leaves { result ≡ true → (self.new.machine.guards ≡ self.old.machine.guards)
            × (self.new.machine.action ≡ Pin) × (self.new.seat.me.0.published ≡ Some self.new.machine.published) }
        ensures first { result ≡ true → self.old.machine.guards ≡ 0 }
    {
        if self.machine.guards() != 0 {
            self.machine.pin_again();
            return false;
        }
        let epoch = self.load_epoch();
        // Before the publish, since an exchange waits for the stores before it: after the publish there is nothing
        // left to store, and the exchange of the unpin comes soon.
        let collects = self.machine.pin_first(epoch);
        self.publish_steps(epoch);
        collects
    }

    /// An unpin of one guard.
    #[inline]
    pub(crate) fn unpin(&mut self)
        requires ready { IsReady self.old }
        requires out { 0 < self.old.machine.guards }
        ensures same { IsSame self.old self.new }
        ensures does { Does self.old Unpin self.new }
        ensures ready { IsReady self.new }
        ensures counted { self.new.machine.guards + 1 ≡ self.old.machine.guards }
    {
        if self.machine.guards() == 1 {
            self.store_unpinned();
            self.machine.unpin_last();
        } else {
            self.machine.unpin_one();
        }
    }

    /// A repin.
    #[inline]
    pub(crate) fn repin(&mut self)
        requires { IsReady self.old }
        ensures same { IsSame self.old self.new }
        ensures does { Does self.old Repin self.new }
        ensures ready { IsReady self.new }
        ensures counted { self.new.machine.guards ≡ self.old.machine.guards }
    {
        let published = self.machine.published();
        if self.machine.guards() != 1 {
            self.machine.repin_none();
            return;
        }
        let epoch = self.load_epoch();
        if published == epoch {
            self.machine.repin_only(epoch);
            return;
        }
        self.publish(epoch);
        let _ = self.load_epoch();
        self.machine.repin_only(epoch);
    }
}

impl<'c, T: Drop, W: Run> Local<'c, T, W> {
    /// A pin, with the collection that follows the first one and each 128th.
    #[inline(always)]
    pub(crate) fn pin_and_collect(&mut self, rooms: &mut OwnRooms<'c, T>)
        requires ready { IsReady self.old }
        requires fits { self.old.machine.guards + 1 < 2 ^ 32 }
        ensures same { IsSame self.old self.new }
        ensures does { Does self.old Pin self.new }
        ensures called { DoesAndCalls W.done W.Removing.tried self.old Pin self.new }
        ensures ready { IsReady self.new }
        ensures counted { self.new.machine.guards ≡ self.old.machine.guards + 1 }
    {
        if !self.pin() {
            return;
        }
        self.collect(rooms);
        if W::HAS_CELLS {
            rooms.begin(&self.collector.cells);
        }
        self.machine.end();
    }
}
