//! A step of a put, and of a collection, over a store of bags.
ghost use Rattle.std.specs.Prelude.{◌≡◌, ◌≢◌, ℕ, true, ◌<◌, ◌≤◌, Some, slice_get, length, ◌⊎◌};
ghost use Rattle.epoch_bags.specs.Bags.{Sealed};
ghost use Rattle.epoch_bags.specs.Stores.{FindsBag, FindsRoom};
ghost use Rattle.epoch_machine.specs.Machine.{asks, put_heard, took_heard, StageFits, PutsHeld, TakesHand};
ghost use Rattle.epoch_machine.specs.declared.machine.Ask.TheVariants.{PutBag, TakeBag};

use super::stages::after_job;
use super::{Machine, Stage};
use epoch_bags::{BagStore, Epoch, PutStep, TakeStep};

impl<J: Default + Drop> Machine<J> {
    /// Takes one step of the put that is asked for. The bag stays held unless the answer is `Done`.
    pub fn put_step<S: BagStore<Job = J>>(
        &mut self,
        store: &mut S,
        cursor: &mut S::Putting,
    ) -> PutStep
        requires { (seal : ℕ) × (asks self.old ≡ Some (PutBag seal)) }
        // A step of a put or of a collection does to the store's bags what the store's contract says, and the machine
        // goes on by its answer.
        ensures put { (seal : ℕ) → asks self.old ≡ Some (PutBag seal)
            → PutsHeld seal self.old (S.queued store.old) result (S.queued store.new) }
        ensures after { self.new ≡ put_heard self.old result }

        // It is one step of the store, as the store says of its own.
        ensures moves { (seal : ℕ) → asks self.old ≡ Some (PutBag seal) → S.PutMoves store.old store.new
            (record { seal = seal; jobs = self.old.held }) cursor.old result cursor.new }
        ensures capacity { S.capacity store.new ≡ S.capacity store.old }
        // A put passes only occupied places, and is full exactly after the last one.
        ensures occupied { result ≢ PutStep.Done → (place : ℕ) → S.passed cursor.old ≤ place
            → place < S.passed cursor.new → slice_get (S.occupied store.old) place ≡ Some true }
        ensures full { result ≡ PutStep.Full → S.capacity store.old ≤ S.passed cursor.new }
        ensures again { result ≡ PutStep.Again → S.passed cursor.new < S.capacity store.old }
        ensures onward { result ≢ PutStep.Done → S.passed cursor.old ≤ S.passed cursor.new }

        // The store says whether a put has room, what is ahead of a collection, and which places each claims.
        ensures room { FindsRoom (S.has_room store.old cursor.old) result (S.has_room store.new cursor.new) }

        ensures fewer { 0 < S.puts_left (S.capacity store.old) cursor.old
            → S.puts_left (S.capacity store.old) cursor.new < S.puts_left (S.capacity store.old) cursor.old }
        ensures last { S.puts_left (S.capacity store.old) cursor.old ≡ 0 → result ≡ PutStep.Full }
        ensures claims { (place : ℕ) → S.Claimed store.new place → S.Claimed store.old place }
        ensures reserves { (place : ℕ) → S.Reserved store.new place
            → S.Reserves cursor.new place ⊎ (S.Reserved store.old place × (¬ (S.Reserves cursor.old place))) }
        ensures lets_go { result ≢ PutStep.Again → (place : ℕ) → ¬ (S.Reserves cursor.new place) }
    {
        let Stage::Put(seal) = self.stage else {
            unreachable!()
        };
        let step = store.put_step(cursor, Epoch::new(seal), &mut self.held);
        match step {
            PutStep::Again => {}
            PutStep::Done => {
                self.stage = self.after_put(false);
                self.full = false;
            }
            PutStep::Full => {
                self.stage = self.after_put(true);
                self.full = true;
            }
        }
        step
    }

    /// Takes one step of the collection that is asked for. A bag that it gets is in hand.
    pub fn take_step<S: BagStore<Job = J>>(
        &mut self,
        store: &mut S,
        cursor: &mut S::Taking,
    ) -> TakeStep
        requires { (expiry : ℕ) × (asks self.old ≡ Some (TakeBag expiry)) }
        ensures taken { (expiry : ℕ) → asks self.old ≡ Some (TakeBag expiry)
            → TakesHand expiry (S.queued store.old) result (S.queued store.new) self.new.hand }
        ensures within { StageFits self.old.sizes (length self.old.held) self.old.stage }
        ensures few { result ≡ TakeStep.Got → length self.new.hand ≤ 64 }
        ensures after { self.new ≡ took_heard self.old self.old.stage result self.new.hand }

        // It is one step of the store, as the store says of its own; the bag is the one in hand.
        ensures moves { (expiry : ℕ) → asks self.old ≡ Some (TakeBag expiry) → (bag : Sealed J)
            × (bag.jobs ≡ self.new.hand)
            × S.TakeMoves expiry store.old store.new bag cursor.old result cursor.new }
        ensures capacity { S.capacity store.new ≡ S.capacity store.old }
        ensures fewer { 0 < S.takes_left (S.capacity store.old) cursor.old
            → S.takes_left (S.capacity store.old) cursor.new < S.takes_left (S.capacity store.old) cursor.old }
        ensures last { S.takes_left (S.capacity store.old) cursor.old ≡ 0 → result ≡ TakeStep.Empty }
        ensures claims { (place : ℕ) → S.Claimed store.new place
            → S.Claims cursor.new place ⊎ (S.Claimed store.old place × (¬ (S.Claims cursor.old place))) }
        ensures reserves { (place : ℕ) → S.Reserved store.new place
            → S.Claims cursor.new place ⊎ (S.Reserved store.old place × (¬ (S.Claims cursor.old place))) }
        ensures lets_go { result ≢ TakeStep.Again → (place : ℕ) → ¬ (S.Claims cursor.new place) }
        ensures ahead { (expiry : ℕ) → asks self.old ≡ Some (TakeBag expiry)
            → FindsBag (S.ahead expiry store.old cursor.old) result (S.ahead expiry store.new cursor.new) }
    {
        let Stage::Take(expiry, taken) = self.stage else {
            unreachable!()
        };
        let after = self.after_collect();
        let step = store.take_step(cursor, Epoch::new(expiry), &mut self.hand);
        match step {
            TakeStep::Again => {}
            TakeStep::Empty => self.stage = after,
            TakeStep::Got => {
                // For the prover: its range shows that the bag has at most 64 jobs.
                let _few = self.hand.len();
                let none_left = self.hand.is_empty();
                self.stage = after_job(self.sizes.collect_bags, after, expiry, taken, none_left);
            }
        }
        step
    }
}
