//! The stages: where an action begins, and where it goes on after each of its parts.
ghost use Rattle.std.specs.Prelude.{◌≡◌, ℕ, false, ◌+◌, ◌^◌, ◌<◌, not, ◌==◌, if◌then◌else◌, length};
ghost use Rattle.epoch_machine.specs.Machine.{after_collect, after_pin, after_put, after_unpin, holds_up, past_word};
ghost use Rattle.epoch_machine.specs.Machine.{first_stage, StageFits, is_calling};
ghost use Rattle.epoch_machine.specs.declared.machine.Stage.TheVariants.{End};
ghost use Rattle.epoch_machine.specs.declared.machine.Sizes.{Sizes};

use super::{Action, Machine, Stage};
use epoch_bags::{GREATEST_EPOCH, pinned_word};

impl<J: Drop> Machine<J> {
    pub(super) fn first_stage(&self, action: Action) -> Stage
        ensures value { result ≡ first_stage action self.now }
        ensures fits { StageFits self.now.sizes (length self.now.held) result }
        ensures calls_nothing { is_calling result ≡ false }
    {
        // For the prover: a field read shows that no more jobs are held than a bag takes.
        let _within = &self.held;
        match action {
            Action::Pin => {
                if self.guards == 0 {
                    Stage::LoadPin
                } else {
                    Stage::End
                }
            }
            Action::Unpin => {
                if self.guards == 1 {
                    Stage::StoreUnpinned
                } else {
                    Stage::End
                }
            }
            Action::Repin => {
                if self.guards == 1 {
                    Stage::LoadRepin
                } else {
                    Stage::End
                }
            }
            Action::Defer => {
                if self.held.len() as u64 == self.sizes.bag_jobs {
                    Stage::LoadSeal
                } else {
                    Stage::Keep
                }
            }
            Action::Flush => {
                if self.held.is_empty() {
                    Stage::LoadScan
                } else {
                    Stage::LoadSeal
                }
            }
            Action::Release => Stage::LoadPin,
        }
    }

    pub(super) fn after_collect(&self) -> Stage
        ensures value { result ≡ after_collect self.now.action self.now.held }
        ensures fits { StageFits self.now.sizes (length self.now.held) result }
        ensures calls_nothing { is_calling result ≡ false }
    {
        match self.action {
            Action::Release => {
                if self.held.is_empty() {
                    Stage::StoreUnpinned
                } else {
                    Stage::LoadSeal
                }
            }
            _ => Stage::End,
        }
    }

    pub(super) fn after_pin(&self) -> Stage
        ensures value { result ≡ after_pin self.now }
        ensures fits { StageFits self.now.sizes (length self.now.held) result }
        ensures calls_nothing { is_calling result ≡ false }
    {
        if self.pins == 1 {
            Stage::LoadScan
        } else {
            self.after_collect()
        }
    }

    pub(super) fn after_put(&self, full: bool) -> Stage
        ensures value { result ≡ after_put self.now.action full }
        ensures fits { (full ≡ false → length self.now.held < self.now.sizes.bag_jobs)
            → StageFits self.now.sizes (length self.now.held) result }
        ensures calls_nothing { is_calling result ≡ false }
    {
        match self.action {
            Action::Flush => Stage::LoadScan,
            Action::Defer => { if full { Stage::End } else { Stage::Keep } }
            Action::Release => Stage::StoreUnpinned,
            Action::Pin | Action::Unpin | Action::Repin => Stage::End,
        }
    }

    pub(super) fn after_unpin(&self) -> Stage
        ensures value { result ≡ after_unpin self.now.action self.now.full }
        ensures fits { StageFits self.now.sizes (length self.now.held) result }
        ensures calls_nothing { is_calling result ≡ false }
    {
        match self.action {
            Action::Release => {
                if self.full {
                    Stage::End
                } else {
                    Stage::StoreFree
                }
            }
            _ => Stage::End,
        }
    }
}

impl<J: Default + Drop> Machine<J> {
    /// A repin stores only where the published epoch isn't the present one.
    pub(super) fn after_reading(&self, epoch: u64) -> Stage
        requires { epoch < 2 ^ 63 }
        ensures value { result ≡ (if self.now.published == epoch then End else Stage.StoreRepin epoch) }
        ensures fits { StageFits self.now.sizes (length self.now.held) result }
        ensures calls_nothing { is_calling result ≡ false }
    {
        if self.published == epoch {
            Stage::End
        } else {
            Stage::StoreRepin(epoch)
        }
    }
}

/// The stage after a bag taken or a job called: `after` follows the collection, which takes `most` bags.
pub(super) fn after_job(most: u64, after: Stage, expiry: u64, taken: u64, none_left: bool) -> Stage
    requires { taken < most }
    ensures value { result ≡ (if none_left then (if taken + 1 == most then after else Stage.Take expiry (taken + 1))
        else Stage.Calling expiry taken) }
    ensures fits { (sizes : Sizes) (held : ℕ) → sizes.collect_bags ≡ most → expiry < 2 ^ 63 → StageFits sizes held after
        → StageFits sizes held result }
    ensures calls { is_calling after ≡ false → is_calling result ≡ not none_left }
{
    if !none_left {
        Stage::Calling(expiry, taken)
    } else if taken + 1 == most {
        after
    } else {
        Stage::Take(expiry, taken + 1)
    }
}

/// Returns whether a participant's word is pinned in another epoch than this one, and so ends a scan for it.
#[inline]
pub fn holds_up(epoch: u64, word: u64) -> bool
    requires { epoch < 2 ^ 63 }
    ensures { result ≡ holds_up epoch word }
{
    word % 2 == 1 && word != pinned_word(epoch)
}

/// The stage after a word that the scan of `epoch` has looked at.
pub(super) fn past_word(positions: u64, epoch: u64, next: u64, word: u64) -> Stage
    requires epoch { epoch < 2 ^ 63 }
    requires next { next < positions }
    ensures value { result ≡ past_word positions epoch next word }
    ensures fits { (sizes : Sizes) (held : ℕ) → sizes.positions ≡ positions → 0 < sizes.collect_bags
        → StageFits sizes held result }
    ensures calls_nothing { is_calling result ≡ false }
{
    if holds_up(epoch, word) {
        Stage::Take(epoch, 0)
    } else if next + 1 == positions {
        if epoch == GREATEST_EPOCH {
            Stage::Take(epoch, 0)
        } else {
            Stage::Advance(epoch)
        }
    } else {
        Stage::Scan(epoch, next + 1)
    }
}
