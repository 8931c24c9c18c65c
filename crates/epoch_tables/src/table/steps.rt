//! The steps on the participants' table, each one atomic instruction.
ghost use Rattle.std.specs.Prelude.{◌≡◌, ◌≢◌, ℕ, ◌+◌, ◌*◌, ◌/◌, ◌<◌, ◌≤◌, Some, None};
ghost use Rattle.epoch_tables.specs.Table.{IsWord, LetsPass, IsOf, IsSameSeat};
ghost use Rattle.epoch_tables.specs.TableSteps.{after_epoch, after_own, after_free, after_word, after_pass};
ghost use Rattle.epoch_tables.specs.TableSteps.{after_advance, after_claim};

use crate::table::participants::{ParticipantSeat, Participants};
use crate::table::plays::{Free, LoadEpoch, LoadWord, PositionClaim, Publish, StoreEpoch, Unpin};
use epoch_bags::{FREE, GREATEST_EPOCH, UNPINNED, pinned_word};

/// Where the word of a position stands.
///
/// The words are 128 bytes apart: neighbours in one line of the cache, or in two that are fetched
/// together, would slow each other's threads down.
fn word_index(position: usize) -> usize
    requires { position < 4096 }
    ensures { result ≡ 16 * position + 16 }
{
    16 * position + 16
}

impl<J> Participants<J> {
    /// Loads the epoch's word, which is twice the epoch, and no lower than any that this seat has seen.
    pub fn load_epoch_word(&self, seat: &mut ParticipantSeat) -> u64
        requires of { IsOf self.now seat.old }
        ensures kept { IsSameSeat seat.old seat.new }
        ensures answer { result ≡ 2 * (result / 2) }
        ensures rises { seat.old.me.0.seen ≤ result / 2 }
        ensures view { seat.new.me.0 ≡ after_epoch seat.old.me.0 (result / 2) }
    {
        self.table.shared.load::<LoadEpoch>(seat, 0)
    }

    /// Stores the participant's own word: pinned in the epoch of this number, which this seat has read or gone past.
    pub fn publish(&self, seat: &mut ParticipantSeat, position: usize, epoch: u64)
        requires of { IsOf self.now seat.old }
        requires own { (seat.old.me.0.position ≡ Some position) × (position < self.now.positions) }
        requires read { epoch ≤ seat.old.me.0.seen }
        requires within { epoch ≤ GREATEST_EPOCH }
        ensures kept { IsSameSeat seat.old seat.new }
        ensures view { seat.new.me.0 ≡ after_own seat.old.me.0 (Some epoch) }
    {
        self.table
            .shared
            .store::<Publish>(seat, word_index(position), pinned_word(epoch));
    }

    /// Stores the participant's own word: registered, and not pinned.
    pub fn unpin(&self, seat: &mut ParticipantSeat, position: usize)
        requires of { IsOf self.now seat.old }
        requires own { (seat.old.me.0.position ≡ Some position) × (position < self.now.positions) }
        ensures kept { IsSameSeat seat.old seat.new }
        ensures view { seat.new.me.0 ≡ after_own seat.old.me.0 None }
    {
        self.table
            .shared
            .store::<Unpin>(seat, word_index(position), UNPINNED);
    }

    /// Stores the participant's own word: free. From then on the seat has no position.
    pub fn free(&self, seat: &mut ParticipantSeat, position: usize)
        requires of { IsOf self.now seat.old }
        requires own { (seat.old.me.0.position ≡ Some position) × (position < self.now.positions) }
        ensures kept { IsSameSeat seat.old seat.new }
        ensures view { seat.new.me.0 ≡ after_free seat.old.me.0 }
    {
        self.table
            .shared
            .store::<Free>(seat, word_index(position), FREE);
    }

    /// Loads the word of the position that this seat's scan is at, and passes that position if the word allows it.
    pub fn load_word(&self, seat: &mut ParticipantSeat, position: usize) -> u64
        requires of { IsOf self.now seat.old }
        requires within { position < self.now.positions }
        requires scanning { (epoch : ℕ) × (seat.old.me.0.scan ≡ Some (epoch, position)) }
        ensures kept { IsSameSeat seat.old seat.new }
        ensures answer { IsWord result }
        ensures view { (epoch : ℕ) → seat.old.me.0.scan ≡ Some (epoch, position)
            → (LetsPass epoch result → seat.new.me.0 ≡ after_pass seat.old.me.0 epoch position result)
            × (¬ LetsPass epoch result → seat.new.me.0 ≡ after_word seat.old.me.0 position result) }
    {
        self.table
            .shared
            .load::<LoadWord>(seat, word_index(position))
    }

    /// Stores the epoch after this one, for which this seat's scan has passed all positions.
    ///
    /// The store is a plain one. It never lowers the epoch: see `store_never_lowers`.
    pub fn advance(&self, seat: &mut ParticipantSeat, epoch: u64)
        requires of { IsOf self.now seat.old }
        requires scanned { seat.old.me.0.scan ≡ Some (epoch, self.now.positions) }
        requires within { epoch < GREATEST_EPOCH }
        ensures kept { IsSameSeat seat.old seat.new }
        ensures ahead { seat.old.me.0.seen ≤ epoch + 1 }
        ensures view { seat.new.me.0 ≡ after_advance seat.old.me.0 (epoch + 1) }
    {
        self.table
            .shared
            .store::<StoreEpoch>(seat, 0, 2 * (epoch + 1));
    }

    /// Tries to claim a position, and returns the word that it found there: [`FREE`] exactly if the seat has it now.
    pub fn claim(&self, seat: &mut ParticipantSeat, position: usize) -> u64
        requires of { IsOf self.now seat.old }
        requires free { (seat.old.me.0.position ≡ None) × (position < self.now.positions) }
        ensures kept { IsSameSeat seat.old seat.new }
        ensures answer { IsWord result }
        ensures won { result ≡ FREE → seat.new.me.0 ≡ after_claim seat.old.me.0 position 0 }
        ensures lost { result ≢ FREE → seat.new.me.0 ≡ after_word seat.old.me.0 position result }
    {
        self.table
            .shared
            .compare_exchange::<PositionClaim>(seat, word_index(position), FREE, UNPINNED)
    }
}
