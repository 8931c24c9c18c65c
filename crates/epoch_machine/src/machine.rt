//! A participant's machine. It makes all decisions of one participant, and touches nothing shared itself: it says what
//! it asks for next, and goes on by the answer.
ghost use Rattle.std.specs.Prelude.{◌≡◌, false, ◌^◌, ◌<◌, ◌↔◌, IsTrue, IfSome, length};
ghost use Rattle.epoch_machine.specs.Machine.{AskFits, asks, begun, ended, fresh, guards_after, is_empty, is_taking};
ghost use Rattle.epoch_machine.specs.Machine.{IsSized};
ghost use Rattle.epoch_machine.specs.declared.machine.Stage.TheVariants.{Idle, End};

mod hearing;
mod shared;
mod shown;
mod stages;
mod stepping;
mod straight;

use epoch_bags::{Bag, Epoch, SealedBag};
pub use stages::holds_up;
use std::marker::Model;

/// How many pins lie between two that collect: `PINNINGS_BETWEEN_COLLECT` of crossbeam-epoch.
pub const PINS_BETWEEN_COLLECTIONS: u64 = 128;

/// What a participant does as one call.
#[derive(Clone, Copy, Debug, PartialEq, Eq)]
pub enum Action {
    Pin,
    Unpin,
    Repin,
    Defer,
    Flush,
    Release,
}

/// The numbers that a machine is made for.
#[derive(Clone, Copy, Debug, PartialEq, Eq)]
pub struct Sizes {
    /// How many participants' words there are, at least 1.
    pub positions: u64,
    /// How many jobs a bag takes, from 1 to 64.
    pub bag_jobs: u64,
    /// How many bags a collection takes at most, from 1 to 64.
    pub collect_bags: u64,
}

/// How far the action under way is, named by what is asked for next.
#[derive(Clone, Copy, Debug, PartialEq, Eq)]
pub enum Stage {
    /// No action is under way.
    Idle,
    LoadPin,
    StorePin(u64),
    ReloadPin,
    LoadScan,
    /// The scan of this epoch goes on at this position.
    Scan(u64, u64),
    Advance(u64),
    /// A collection for this epoch, which has taken this many bags.
    Take(u64, u64),
    Calling(u64, u64),
    LoadSeal,
    Put(u64),
    Keep,
    LoadRepin,
    StoreRepin(u64),
    ReloadRepin,
    StoreUnpinned,
    StoreFree,
    /// Nothing is left to ask for.
    End,
}

/// What a machine asks for: one step on what participants share, or one step of a job.
#[derive(Clone, Copy, Debug, PartialEq, Eq)]
pub enum Ask {
    /// Load the epoch.
    LoadEpoch,
    /// Load the word of the participant at this position.
    LoadWord(u64),
    /// Store the participant's own word, pinned in this epoch: a pin.
    StorePinned(u64),
    /// Store the participant's own word, pinned in this epoch: a repin.
    StoreRepinned(u64),
    /// Store the participant's own word, not pinned.
    StoreUnpinned,
    /// Store the participant's own word, free.
    StoreFree,
    /// Store the word of this epoch.
    StoreEpoch(u64),
    /// One step of the put of the held bag, sealed with this epoch.
    PutBag(u64),
    /// One step of a collection of bags that are expired for this epoch.
    TakeBag(u64),
    /// Keep the job that is deferred.
    KeepJob,
    /// Call the next job of the bag in hand.
    CallJob,
}

/// What the performance of an ask found. A put or a take of a bag is answered by
/// [`Machine::put_step`] and [`Machine::take_step`], and a call by [`Machine::give`].
#[derive(Drop)]
pub enum Answer<J> {
    /// The epoch loaded, at most [`GREATEST_EPOCH`].
    Epoch(u64),
    /// The word loaded.
    Word(u64),
    /// The store was made.
    Stored,
    /// The job to keep.
    Job(J),
}

/// The machine of one participant.
///
/// It counts guards, and doesn't know which ones are out: the caller keeps their numbers.
#[derive(Drop)]
pub struct Machine<J> {
    stage: Stage,
    action: Action,
    guards: u32,
    published: u64,
    pins: u64,
    sizes: Sizes,
    full: bool,
    held: Bag<J>,
    hand: SealedBag<J>,
}

impl<J> Model for Machine<J> {
    ghost use Rattle.std.specs.Prelude.{◌≡◌, ◌<◌, ◌≤◌, length, not};
    ghost use Rattle.epoch_machine.specs.Machine.{Machine as Plan, StageFits, IsSized, is_empty, is_calling};

    ghost Value = { Plan J };

    ghost view = { λ a. record {
      stage = a.stage;
      action = a.action;
      guards = a.guards;
      published = a.published;
      pins = a.pins;
      sizes = a.sizes;
      full = a.full;
      held = a.held.jobs;
      hand = a.hand.jobs;
    } };

    ghost invariant = { λ a. record {
      sized : IsSized a.sizes;
      limit : a.held.limit ≡ a.sizes.bag_jobs;
      within : length a.held.jobs ≤ a.sizes.bag_jobs;
      pins : a.pins < 128;
      stage : StageFits a.sizes (length a.held.jobs) a.stage;
      hand : is_empty a.hand.jobs ≡ not (is_calling a.stage);
    } };
}

impl<J: Default + Drop> Machine<J> {
    /// Returns the machine of a new participant: no guard out, an empty bag and no pin so far.
    pub fn new(sizes: Sizes) -> Machine<J>
        requires { IsSized sizes }
        ensures { result ≡ fresh sizes }
    {
        Machine {
            stage: Stage::Idle,
            action: Action::Pin,
            guards: 0,
            published: 0,
            pins: 0,
            sizes,
            full: false,
            held: Bag::with_limit(sizes.bag_jobs as usize),
            hand: Bag::new().seal(Epoch::starting()),
        }
    }
}

impl<J> Machine<J> {
    /// Returns how many guards are counted.
    pub fn guards(&self) -> u32
        ensures { result ≡ self.now.guards }
    {
        self.guards
    }

    /// Returns the number that was published last.
    pub fn published(&self) -> u64
        ensures { result ≡ self.now.published }
    {
        self.published
    }

    /// Returns whether the bag takes a further job without a put.
    pub fn has_room(&self) -> bool
        ensures room { IsTrue result ↔ (length self.now.held < self.now.sizes.bag_jobs) }
        ensures full { result ≡ false → length self.now.held ≡ self.now.sizes.bag_jobs }
    {
        !self.held.is_full()
    }

    /// Returns whether the put of the action under way, or of the last one, found every place occupied.
    pub fn found_full(&self) -> bool
        ensures { result ≡ self.now.full }
    {
        self.full
    }

    /// Returns whether the held bag has no job.
    #[inline(always)]
    pub fn holds_none(&self) -> bool
        ensures { result ≡ is_empty self.now.held }
    {
        self.held.is_empty()
    }

    /// Returns whether a step of a collection is asked for.
    #[inline(always)]
    pub fn is_taking(&self) -> bool
        ensures { result ≡ is_taking self.now.stage }
    {
        match self.stage {
            Stage::Take(_, _) => true,
            _ => false,
        }
    }
}

impl<J: Drop> Machine<J> {
    /// Returns what is asked next: `None` where no action is under way, and at an action's end.
    pub fn ask(&self) -> Option<Ask>
        // The next ask is the one that the definition gives, with its numbers in their ranges.
        ensures value { result ≡ asks self.now }
        ensures within { IfSome result (AskFits self.now.sizes) }
    {
        match self.stage {
            Stage::Idle | Stage::End => None,
            Stage::LoadPin
            | Stage::ReloadPin
            | Stage::LoadScan
            | Stage::LoadSeal
            | Stage::LoadRepin
            | Stage::ReloadRepin => Some(Ask::LoadEpoch),
            Stage::StorePin(epoch) => Some(Ask::StorePinned(epoch)),
            Stage::Scan(_, next) => Some(Ask::LoadWord(next)),
            Stage::Advance(epoch) => Some(Ask::StoreEpoch(epoch + 1)),
            Stage::Take(expiry, _) => Some(Ask::TakeBag(expiry)),
            Stage::Calling(_, _) => Some(Ask::CallJob),
            Stage::Put(seal) => Some(Ask::PutBag(seal)),
            Stage::Keep => Some(Ask::KeepJob),
            Stage::StoreRepin(epoch) => Some(Ask::StoreRepinned(epoch)),
            Stage::StoreUnpinned => Some(Ask::StoreUnpinned),
            Stage::StoreFree => Some(Ask::StoreFree),
        }
    }

    /// Begins an action, where none is under way.
    pub fn begin(&mut self, action: Action)
        requires { self.old.stage ≡ Idle }
        ensures { self.new ≡ begun action self.old }
    {
        self.stage = self.first_stage(action);
        self.action = action;
        self.full = false;
    }
}

impl<J: Default + Drop> Machine<J> {
    fn guards_after(&self) -> u32
        requires { guards_after self.now.action self.now.guards < 2 ^ 32 }
        ensures { result ≡ guards_after self.now.action self.now.guards }
    {
        match self.action {
            Action::Pin => self.guards + 1,
            Action::Unpin => { if self.guards == 0 { 0 } else { self.guards - 1 } }
            Action::Repin | Action::Defer | Action::Flush | Action::Release => self.guards,
        }
    }

    /// Ends an action that has nothing left to ask: its guard is counted, or no longer counted, from now on.
    pub fn end(&mut self)
        requires ended { self.old.stage ≡ End }
        requires fits { guards_after self.old.action self.old.guards < 2 ^ 32 }
        ensures { self.new ≡ ended self.old }
    {
        self.guards = self.guards_after();
        self.stage = Stage::Idle;
    }
}
