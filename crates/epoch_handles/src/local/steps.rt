//! The steps of a participant on its table, each one atomic instruction.
ghost use Rattle.std.specs.Prelude.{◌≡◌, ℕ, ◌*◌, ◌/◌, ◌+◌, ◌<◌, ◌≤◌, ◌^◌, Some, None};
ghost use Rattle.epoch_tables.specs.Table.{IsWord, LetsPass};
ghost use Rattle.epoch_tables.specs.TableSteps.{after_epoch, after_own, after_word, after_pass, after_advance};
ghost use Rattle.epoch_handles.specs.Handles.{IsSeated, Steps};

use crate::local::Local;
use epoch_bags::GREATEST_EPOCH;

impl<'c, T, W> Local<'c, T, W> {
    /// Loads the epoch.
    #[inline]
    pub(crate) fn load_epoch(&mut self) -> u64
        requires seated { IsSeated self.old }
        ensures within { result < 2 ^ 63 }
        ensures rises { self.old.seat.me.0.seen ≤ result }
        ensures steps { Steps self.old self.new (after_epoch self.old.seat.me.0 result) }
    {
        self.collector.participants.load_epoch_word(&mut self.seat) / 2
    }

    /// Stores the own word: pinned in this epoch.
    #[inline]
    pub(crate) fn publish(&mut self, epoch: u64)
        requires seated { IsSeated self.old }
        requires read { epoch ≤ self.old.seat.me.0.seen }
        requires within { epoch < 2 ^ 63 }
        ensures { Steps self.old self.new (after_own self.old.seat.me.0 (Some epoch)) }
    {
        self.collector
            .participants
            .publish(&mut self.seat, self.position, epoch);
    }

    /// Stores the own word: not pinned.
    #[inline]
    pub(crate) fn store_unpinned(&mut self)
        requires { IsSeated self.old }
        ensures { Steps self.old self.new (after_own self.old.seat.me.0 None) }
    {
        self.collector
            .participants
            .unpin(&mut self.seat, self.position);
    }

    /// Loads the word of the position that the scan of the seat is at.
    #[inline]
    pub(crate) fn load_word(&mut self, position: usize) -> u64
        requires seated { IsSeated self.old }
        requires within { position < self.old.collector.now.participants.positions }
        requires scanning { (epoch : ℕ) × (self.old.seat.me.0.scan ≡ Some (epoch, position)) }
        ensures answer { IsWord result }
        ensures steps { (epoch : ℕ) → self.old.seat.me.0.scan ≡ Some (epoch, position)
            → (LetsPass epoch result → Steps self.old self.new (after_pass self.old.seat.me.0 epoch position result))
            × (¬ LetsPass epoch result → Steps self.old self.new (after_word self.old.seat.me.0 position result)) }
    {
        self.collector
            .participants
            .load_word(&mut self.seat, position)
    }

    /// Stores the epoch after this one, for which the scan has passed all positions.
    #[inline]
    pub(crate) fn advance(&mut self, epoch: u64)
        requires seated { IsSeated self.old }
        requires scanned { self.old.seat.me.0.scan ≡ Some (epoch, self.old.collector.now.participants.positions) }
        requires within { epoch < GREATEST_EPOCH }
        ensures ahead { self.old.seat.me.0.seen ≤ epoch + 1 }
        ensures steps { Steps self.old self.new (after_advance self.old.seat.me.0 (epoch + 1)) }
    {
        self.collector.participants.advance(&mut self.seat, epoch);
    }
}
