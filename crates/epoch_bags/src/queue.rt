//! Stores of sealed bags, in which bags are put and from which they are taken one atomic step at a time.
//!
//! A put and a collection each keep a cursor, which says how far they have come. A store holds its bags at
//! *places*. A collection *claims* a place before it takes the bag that stands there, and a claimed bag counts
//! as being in the store until it is taken.
ghost use Rattle.std.specs.Prelude.{◌≡◌, ◌≢◌, ℕ, ◌+◌, ◌*◌, ◌<◌, ◌≤◌, List, Bool, true, false, Some, [], IfOk, IfErr};
ghost use Rattle.std.specs.Prelude.{length, min, slice_get, ◌⊎◌};
ghost use Rattle.epoch_bags.specs.Bags.{Sealed};
ghost use Rattle.epoch_bags.specs.declared.queue.PutStep.{PutStep};
ghost use Rattle.epoch_bags.specs.declared.queue.TakeStep.{TakeStep};
ghost use Rattle.epoch_bags.specs.Stores.{AllExpired, how_many, PutsBag, FindsRoom, TakesBag, FindsBag, TakesAny};

mod bag_queue;
mod collection;
pub mod places;
mod size;

use crate::{Bag, Epoch, SealedBag};
pub use bag_queue::BagQueue;
pub use collection::take_some;
use epoch_cells::Fault;
pub use places::{Places, PutCursor, TakeCursor};
use std::alloc::Global;

/// How many bags a store has room for at most.
pub const MOST_BAGS: usize = 4096;

/// What one step of a put returns.
#[derive(Clone, Copy, Debug, PartialEq, Eq)]
pub enum PutStep {
    /// The put goes on.
    Again,
    /// The bag is in the store.
    Done,
    /// Each place was seen occupied since the put began, and the bag was not put.
    Full,
}

/// What one step of a collection returns.
#[derive(Clone, Copy, Debug, PartialEq, Eq)]
pub enum TakeStep {
    /// The collection goes on.
    Again,
    /// The collection finds no further bag.
    Empty,
    /// A bag was taken.
    Got,
}

/// A store of bags. Each step is one atomic step. Only a step that moves a bag costs more if the bag is larger.
pub trait BagStore: Drop {
    type Job: Default + Drop;

    /// How far a put has come.
    type Putting: Copy + Drop;

    /// How far a collection has come.
    type Taking: Copy + Drop;

    /// The bags in it, claimed ones too.
    ghost queued: { Self → List (Sealed Self.Job) };

    /// How many bags it has room for.
    ghost capacity: { Self → ℕ };

    /// For each place, whether it has no room now.
    ghost occupied: { Self → List Bool };

    /// For each place, whether a bag stands there.
    ghost standing: { Self → List Bool };

    /// The bag at this place is claimed.
    ghost Claimed: { Self → ℕ → Type 0 };

    /// The place is claimed, and no bag stands there.
    ghost Reserved: { Self → ℕ → Type 0 };

    /// How many places the put has seen occupied.
    ghost passed: { Self.Putting → ℕ };

    /// Whether a put will find a place if no other participant is at work.
    ghost has_room: { Self → Self.Putting → Bool };

    /// It is this put that claims the place.
    ghost Reserves: { Self.Putting → ℕ → Type 0 };

    /// It is this collection that claims the place.
    ghost Claims: { Self.Taking → ℕ → Type 0 };

    /// How many steps a put takes at most in a store of this capacity, before one that returns `Full` at once.
    ghost puts_left: { ℕ → Self.Putting → ℕ };

    /// How many steps a collection takes at most in a store of this capacity, before one that returns `Empty` at once.
    ghost takes_left: { ℕ → Self.Taking → ℕ };

    /// How many bags a collection for this epoch will still take if no other participant is at work and nothing stops
    /// it.
    ghost ahead: { ℕ → Self → Self.Taking → ℕ };

    /// What one step of a put of this bag does to the store and to the cursor, beyond what is said of every store.
    ghost PutMoves: { Self → Self → Sealed Self.Job → Self.Putting → PutStep → Self.Putting → Type 0 };

    /// What one step of a collection for this epoch does, which leaves this bag in the hand, beyond what is said of
    /// every store.
    ghost TakeMoves: { ℕ → Self → Self → Sealed Self.Job → Self.Taking → TakeStep → Self.Taking → Type 0 };

    /// Makes an empty store with room for `bags` bags, from 1 to [`MOST_BAGS`].
    ///
    /// `NoMemory`: an allocation was refused, and nothing was made.
    fn with_room(alloc: Global, bags: usize) -> Result<Self, Fault>
        requires some { 0 < bags }
        requires most { bags ≤ MOST_BAGS }
        ensures empty { IfOk result (λ store. queued store ≡ []) }
        ensures capacity { IfOk result (λ store. capacity store ≡ bags) }
        ensures unclaimed { IfOk result (λ store. (place : ℕ) → ¬ (Claimed store place)) }
        ensures unreserved { IfOk result (λ store. (place : ℕ) → ¬ (Reserved store place)) }
        ensures no_memory { IfErr result (λ fault. fault ≡ Fault.NoMemory) };

    /// Returns how many bags it has room for, from 1 to [`MOST_BAGS`].
    fn capacity(&self) -> usize
        ensures value { result ≡ capacity self.now }
        ensures within { length (queued self.now) ≤ capacity self.now }

        // As many bags stand as are queued, and an occupied place without one is claimed.
        ensures standing { how_many (standing self.now) ≡ length (queued self.now) }
        // A place is occupied only if a bag stands there or a participant has claimed it.
        ensures occupied { (place : ℕ) → slice_get (occupied self.now) place ≡ Some true
            → (slice_get (standing self.now) place ≡ Some true) ⊎ Reserved self.now place }

        ensures some { 0 < result }
        ensures most { result ≤ MOST_BAGS };

    /// Returns the cursor of a put that has taken no step.
    fn start_put(&self) -> Self::Putting
        ensures passed { passed result ≡ 0 }
        ensures few { puts_left (capacity self.now) result ≤ 3 * capacity self.now + 65 }
        ensures reserves { (place : ℕ) → ¬ (Reserves result place) }
        ensures room { (place : ℕ) → slice_get (occupied self.now) place ≡ Some false
            → has_room self.now result ≡ true };

    /// Takes one step of a put of the bag `held`, to be sealed with `seal`.
    ///
    /// `Done`: its jobs are in the store, in a bag with that seal, and `held` is left empty. Otherwise nothing has
    /// moved.
    fn put_step(
        &mut self,
        cursor: &mut Self::Putting,
        seal: Epoch,
        held: &mut Bag<Self::Job>,
    ) -> PutStep
        // A put that is done has added exactly the held jobs under their seal, and left the held bag empty. Every other
        // answer leaves the bags and the held bag as they are.
        ensures bag { PutsBag seal.number (queued self.old) held.old result (queued self.new) held.new }

        ensures capacity { capacity self.new ≡ capacity self.old }

        // It is one atomic step, as the store says of its own.
        ensures moves { PutMoves self.old self.new
            (record { seal = seal.number; jobs = held.old.jobs }) cursor.old result cursor.new }

        // Full comes exactly where each place was seen occupied by some step of this put, which isn't done.
        ensures occupied { result ≢ PutStep.Done → (place : ℕ) → passed cursor.old ≤ place → place < passed cursor.new
            → slice_get (occupied self.old) place ≡ Some true }
        // A put that isn't done returns `Full` exactly when it has passed every place.
        ensures full { result ≡ PutStep.Full → capacity self.old ≤ passed cursor.new }
        ensures again { result ≡ PutStep.Again → passed cursor.new < capacity self.old }

        ensures onward { result ≢ PutStep.Done → passed cursor.old ≤ passed cursor.new }

        // If no other participant is at work, it is done exactly if it finds a place.
        ensures room { FindsRoom (has_room self.old cursor.old) result (has_room self.new cursor.new) }

        // Its number falls with each step.
        ensures fewer { 0 < puts_left (capacity self.old) cursor.old
            → puts_left (capacity self.old) cursor.new < puts_left (capacity self.old) cursor.old }
        ensures last { puts_left (capacity self.old) cursor.old ≡ 0 → result ≡ PutStep.Full }
        ensures claims { (place : ℕ) → Claimed self.new place → Claimed self.old place }

        // It claims places only for itself, and only between its steps that answer `Again`.
        ensures reserves { (place : ℕ) → Reserved self.new place
            → Reserves cursor.new place ⊎ (Reserved self.old place × (¬ (Reserves cursor.old place))) }
        ensures lets_go { result ≢ PutStep.Again → (place : ℕ) → ¬ (Reserves cursor.new place) };

    /// Returns the cursor of a collection that has taken no step.
    fn start_take(&self) -> Self::Taking
        ensures few { takes_left (capacity self.now) result ≤ 3 * capacity self.now + 65 }
        ensures claims { (place : ℕ) → ¬ (Claims result place) }

        // Where no bag is claimed and all are expired, all are ahead, or as many as a collection ever takes.
        ensures ahead { (epoch : ℕ) → ((place : ℕ) → ¬ (Claimed self.now place)) → AllExpired epoch (queued self.now)
            → min 64 (ahead epoch self.now result) ≡ min 64 (length (queued self.now)) };

    /// Takes one step of a collection of bags that are expired for `expiry`. The bag `hand` must have no jobs left.
    ///
    /// `Got`: one such bag has left the store, and `hand` is that bag. Otherwise nothing has moved.
    fn take_step(
        &mut self,
        cursor: &mut Self::Taking,
        expiry: Epoch,
        hand: &mut SealedBag<Self::Job>,
    ) -> TakeStep
        requires { hand.old.jobs ≡ [] }
        // A collection that gets a bag has taken out exactly that bag, which is expired. Every other answer leaves
        // everything as it is.
        ensures bag { TakesBag expiry.number (queued self.old) hand.old result (queued self.new) hand.new }

        ensures capacity { capacity self.new ≡ capacity self.old }

        // It is one atomic step, as the store says of its own.
        ensures moves { TakeMoves expiry.number self.old self.new hand.new cursor.old result cursor.new }

        // Its number falls with each step.
        ensures fewer { 0 < takes_left (capacity self.old) cursor.old
            → takes_left (capacity self.old) cursor.new < takes_left (capacity self.old) cursor.old }
        ensures last { takes_left (capacity self.old) cursor.old ≡ 0 → result ≡ TakeStep.Empty }

        // It claims places only for itself, and only between its steps that answer `Again`.
        ensures claims { (place : ℕ) → Claimed self.new place
            → Claims cursor.new place ⊎ (Claimed self.old place × (¬ (Claims cursor.old place))) }
        ensures reserves { (place : ℕ) → Reserved self.new place
            → Claims cursor.new place ⊎ (Reserved self.old place × (¬ (Claims cursor.old place))) }
        ensures lets_go { result ≢ TakeStep.Again → (place : ℕ) → ¬ (Claims cursor.new place) }
        // At each moment there is a number of bags that a collection will still take if no other participant is at
        // work. A step that gets a bag lowers this number by one, and every other step leaves it the same. This number
        // is 0 when the collection ends. If no bag is claimed and all are expired when the collection begins, it is the
        // number of bags in the store, or 64 if there are more.
        ensures ahead { FindsBag (ahead expiry.number self.old cursor.old) result
            (ahead expiry.number self.new cursor.new) };

    /// Takes out one bag, whatever its seal is. `None`: the store has no bag.
    ///
    /// It is for an end, when no other participant is at work: it is no atomic step.
    fn take_any(&mut self) -> Option<SealedBag<Self::Job>>
        // A bag is taken out whatever its seal is. The answer is `None` exactly when the store has no bag.
        ensures bag { TakesAny (queued self.old) result (queued self.new) }

        ensures capacity { capacity self.new ≡ capacity self.old }
        ensures claims { (place : ℕ) → Claimed self.new place → Claimed self.old place }
        ensures reserves { (place : ℕ) → Reserved self.new place → Reserved self.old place };

    ghost place_for_each: { (store : Self) → length (occupied store) ≡ capacity store };
}
