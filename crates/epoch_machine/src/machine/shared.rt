//! A put and a collection over the places that participants share.
ghost use Rattle.std.specs.Prelude.{◌≡◌, ◌≢◌, ℕ, [], Some, length, ◌<◌, ◌≤◌};
ghost use Rattle.epoch_bags.specs.Bags.{Sealed};
ghost use Rattle.epoch_tables.specs.SharedPlaces.{IsPlaceSeatOf, IsSamePlaceSeat};
ghost use Rattle.epoch_bags.specs.Places.{put_left, take_left};
ghost use Rattle.epoch_tables.specs.SharedSteps.{RestsAt, PutsAt, TakesAt, PutMoves, TakeMoves};
ghost use Rattle.epoch_machine.specs.Machine.{asks, put_heard, took_heard, with_stage, after_collect};
ghost use Rattle.epoch_machine.specs.declared.machine.Ask.TheVariants.{PutBag, TakeBag};
ghost use Rattle.epoch_machine.specs.declared.machine.Stage.TheVariants.{Take};

use super::stages::after_job;
use super::{Machine, Stage};
use epoch_bags::{Epoch, PutCursor, PutStep, TakeCursor, TakeStep};
use epoch_tables::shared_places::{PlaceSeat, SharedPlaces};

impl<J: Default + Drop> Machine<J> {
    /// Takes one step of the put that is asked for. The bag stays held unless the answer is `Done`.
    #[inline(always)]
    pub fn put_shared(
        &mut self,
        places: &SharedPlaces<J>,
        seat: &mut PlaceSeat<J>,
        cursor: &mut PutCursor,
    ) -> PutStep
        requires asked { (seal : ℕ) × (asks self.old ≡ Some (PutBag seal)) }
        requires of { IsPlaceSeatOf places.now seat.old }
        requires at { PutsAt places.now.capacity cursor.old seat.old.me }
        ensures after { self.new ≡ put_heard self.old result }
        ensures kept { IsSamePlaceSeat seat.old seat.new }
        ensures at { result ≡ PutStep.Again → PutsAt places.now.capacity cursor.new seat.new.me }
        ensures rests { result ≢ PutStep.Again → RestsAt seat.new.me }
        ensures fewer { result ≡ PutStep.Again
            → put_left places.now.capacity cursor.new < put_left places.now.capacity cursor.old }
        ensures moves { (seal : ℕ) → asks self.old ≡ Some (PutBag seal) → PutMoves places.now.capacity cursor.old
            seat.old.me (record { seal = seal; jobs = self.old.held }) result cursor.new seat.new.me }
    {
        let Stage::Put(seal) = self.stage else {
            unreachable!()
        };
        let step = places.put_step(seat, cursor, Epoch::new(seal), &mut self.held);
        match step {
            PutStep::Again => {}
            PutStep::Done => {
                self.stage = self.after_put(false);
                self.full = false;
            }
            PutStep::Full => {
                self.stage = self.after_put(true);
                self.full = true;
            }
        }
        step
    }

    /// Becomes the machine after a collection that finds no further bag.
    #[inline]
    pub fn found_no_bag(&mut self)
        requires takes { (expiry taken : ℕ) × (self.old.stage ≡ Take expiry taken) }
        ensures { self.new ≡ with_stage self.old (after_collect self.old.action self.old.held) }
    {
        self.stage = self.after_collect();
    }

    /// Takes one step of the collection that is asked for. A bag that it gets is in hand.
    #[inline(always)]
    pub fn take_shared(
        &mut self,
        places: &SharedPlaces<J>,
        seat: &mut PlaceSeat<J>,
        cursor: &mut TakeCursor,
    ) -> TakeStep
        requires asked { (expiry : ℕ) × (asks self.old ≡ Some (TakeBag expiry)) }
        requires of { IsPlaceSeatOf places.now seat.old }
        requires at { (expiry : ℕ) → asks self.old ≡ Some (TakeBag expiry)
            → TakesAt places.now.capacity expiry cursor.old seat.old.me }
        ensures after { self.new ≡ took_heard self.old self.old.stage result self.new.hand }
        ensures few { result ≡ TakeStep.Got → length self.new.hand ≤ 64 }
        ensures kept { IsSamePlaceSeat seat.old seat.new }
        ensures at { (expiry : ℕ) → asks self.old ≡ Some (TakeBag expiry)
            → TakesAt places.now.capacity expiry cursor.new seat.new.me }
        ensures rests { result ≢ TakeStep.Again → RestsAt seat.new.me }
        ensures fewer { result ≢ TakeStep.Empty
            → take_left places.now.capacity cursor.new < take_left places.now.capacity cursor.old }
        ensures moves { (expiry : ℕ) → asks self.old ≡ Some (TakeBag expiry)
            → (bag : Sealed J) × (result ≡ TakeStep.Got → self.new.hand ≡ bag.jobs)
            × TakeMoves places.now.capacity expiry cursor.old seat.old.me result cursor.new seat.new.me bag }
    {
        let Stage::Take(expiry, taken) = self.stage else {
            unreachable!()
        };
        let after = self.after_collect();
        let step = places.take_step(seat, cursor, Epoch::new(expiry), &mut self.hand);
        match step {
            TakeStep::Again => {}
            TakeStep::Empty => self.stage = after,
            TakeStep::Got => {
                // For the prover: its range shows that the bag has at most 64 jobs.
                let _few = self.hand.len();
                let none_left = self.hand.is_empty();
                self.stage = after_job(self.sizes.collect_bags, after, expiry, taken, none_left);
            }
        }
        step
    }
}
