//! Puts and collections over the shared places, one atomic step at a time.
//!
//! The cursors are those of the plain store of places, and say how far a put or a collection has come. A put goes
//! from place 0 to the last: it looks at the word, claims an empty place and fills it. A collection goes over the
//! places once: it looks, claims the very word that tells of an expired bag, and empties the place.
ghost use Rattle.std.specs.Prelude.{◌≡◌, ◌≢◌, ℕ, ◌<◌, [], ◌∷◌, Some, None};
ghost use Rattle.epoch_bags.specs.Bags.{Sealed, IsExpired};
ghost use Rattle.epoch_tables.specs.SharedPlaces.{PlaceMe, IsPlaceSeatOf, IsSamePlaceSeat, after_store};
ghost use Rattle.epoch_bags.specs.Places.{put_left, take_left};
ghost use Rattle.epoch_tables.specs.SharedSteps.{RestsAt, HoldsAt, PutsAt, TakesAt, PutMoves, TakeMoves};

use crate::shared_places::places::{PlaceSeat, SharedPlaces};
use crate::shared_places::plays::PlaceStore;
use crate::shared_places::steps::word_index;
use epoch_bags::queue::places::{EMPTY, is_expired_word, place_word, put_further, take_further};
use epoch_bags::{Bag, Epoch, PutCursor, PutStep, SealedBag, TakeCursor, TakeStep};
use std::mem;

impl<J: Default + Drop> SharedPlaces<J> {
    /// Returns the cursor of a put that has taken no step: it looks at place 0 first.
    #[inline(always)]
    pub fn start_put(&self) -> PutCursor
        ensures first { result ≡ PutCursor.Look 0 }
        ensures at { (me : PlaceMe J) → RestsAt me → PutsAt self.now.capacity result me }
    {
        // For the prover: a field read shows that there is a place at all.
        let _ = &self.table;
        PutCursor::Look(0)
    }

    /// Takes one step of a put of the bag `held`, to be sealed with `seal`. It is one atomic instruction.
    ///
    /// `Done`: its jobs are in a place, in a bag with that seal, and `held` is left empty. Otherwise nothing has moved.
    /// `Full`: each place was seen occupied by some step of this put. A place whose claim was lost is passed.
    #[inline(always)]
    pub fn put_step(
        &self,
        seat: &mut PlaceSeat<J>,
        cursor: &mut PutCursor,
        seal: Epoch,
        held: &mut Bag<J>,
    ) -> PutStep
        requires of { IsPlaceSeatOf self.now seat.old }
        requires at { PutsAt self.now.capacity cursor.old seat.old.me }
        ensures kept { IsSamePlaceSeat seat.old seat.new }
        ensures at { result ≡ PutStep.Again → PutsAt self.now.capacity cursor.new seat.new.me }
        ensures rests { result ≢ PutStep.Again → RestsAt seat.new.me }
        ensures moves { PutMoves self.now.capacity cursor.old seat.old.me
            (record { seal = seal.number; jobs = held.old.jobs }) result cursor.new seat.new.me }
        ensures fewer { result ≡ PutStep.Again
            → put_left self.now.capacity cursor.new < put_left self.now.capacity cursor.old }
        ensures done { result ≡ PutStep.Done → held.new.jobs ≡ [] }
        ensures not { result ≢ PutStep.Done → held.new ≡ held.old }
        ensures limit { held.new.limit ≡ held.old.limit }
    {
        let places = self.capacity();
        match *cursor {
            PutCursor::Look(place) => {
                if self.look(seat, place) == EMPTY {
                    *cursor = PutCursor::Claim(place);
                    return PutStep::Again;
                }
                put_further(cursor, place, places)
            }
            PutCursor::Claim(place) => {
                if self.claim(seat, place, EMPTY) == EMPTY {
                    *cursor = PutCursor::Fill(place);
                    return PutStep::Again;
                }
                put_further(cursor, place, places)
            }
            PutCursor::Fill(place) => {
                self.fill_with(seat, place, seal, held);
                *cursor = PutCursor::Look(place + 1);
                PutStep::Done
            }
        }
    }

    /// Seals what is held, and moves it into the claimed place.
    #[inline(never)]
    fn fill_with(&self, seat: &mut PlaceSeat<J>, place: usize, seal: Epoch, held: &mut Bag<J>)
        requires of { IsPlaceSeatOf self.now seat.old }
        requires within { place < self.now.capacity }
        requires holds { HoldsAt place None seat.old.me }
        ensures kept { IsSamePlaceSeat seat.old seat.new }
        ensures view { seat.new.me
            ≡ (after_store seat.old.me.0 (Some (record { seal = seal.number; jobs = held.old.jobs })), []) }
        ensures empty { held.new.jobs ≡ [] }
        ensures limit { held.new.limit ≡ held.old.limit }
    {
        held.seal_into(seal, seat.slot_mut(&self.table.shared, place));
        self.table
            .shared
            .store::<PlaceStore>(seat, word_index(place), place_word(seal.number()));
    }

    /// Returns the cursor of a collection that has taken no step: it looks at place 0 first.
    #[inline(always)]
    pub fn start_take(&self) -> TakeCursor
        ensures first { result ≡ TakeCursor.Look 0 }
        ensures at { (x : ℕ) (me : PlaceMe J) → RestsAt me → TakesAt self.now.capacity x result me }
    {
        TakeCursor::Look(0)
    }

    /// Takes one step of a collection of bags that are expired for `expiry`. It is one atomic instruction, or none past
    /// the last place. The bag `hand` must have no jobs left.
    ///
    /// `Got`: one such bag has left its place, and `hand` is that bag; the collection can go on with the next place.
    /// `Empty`: the last place is passed. Otherwise nothing has moved. A place whose claim was lost is passed.
    #[inline(always)]
    pub fn take_step(
        &self,
        seat: &mut PlaceSeat<J>,
        cursor: &mut TakeCursor,
        expiry: Epoch,
        hand: &mut SealedBag<J>,
    ) -> TakeStep
        requires of { IsPlaceSeatOf self.now seat.old }
        requires at { TakesAt self.now.capacity expiry.number cursor.old seat.old.me }
        requires empty { hand.old.jobs ≡ [] }
        ensures kept { IsSamePlaceSeat seat.old seat.new }
        ensures at { TakesAt self.now.capacity expiry.number cursor.new seat.new.me }
        ensures rests { result ≢ TakeStep.Again → RestsAt seat.new.me }
        // One step of a put or of a collection looks at one place, claims it, fills it or empties it, or goes on to the
        // next one. After the last one the answer is `Full` or `Empty`. A look and a lost claim leave what the seat has
        // in hand as it is. A won claim puts there what stood in the place, and that is the bag that a collection gets.
        ensures moves { TakeMoves self.now.capacity expiry.number cursor.old seat.old.me result
            cursor.new seat.new.me hand.new }

        ensures fewer { result ≢ TakeStep.Empty
            → take_left self.now.capacity cursor.new < take_left self.now.capacity cursor.old }
        ensures not { result ≢ TakeStep.Got → hand.new ≡ hand.old }
    {
        let places = self.capacity();
        match *cursor {
            TakeCursor::Look(place) => {
                if place >= places {
                    return TakeStep::Empty;
                }
                let word = self.look(seat, place);
                if is_expired_word(word, expiry) {
                    *cursor = TakeCursor::Claim(place, word);
                    return TakeStep::Again;
                }
                take_further(cursor, place, places)
            }
            TakeCursor::Claim(place, word) => {
                if self.claim(seat, place, word) == word {
                    *cursor = TakeCursor::Empty(place);
                    return TakeStep::Again;
                }
                take_further(cursor, place, places)
            }
            TakeCursor::Empty(place) => {
                self.empty_into(seat, place, hand);
                *cursor = TakeCursor::Look(place + 1);
                TakeStep::Got
            }
        }
    }

    /// Moves the bag of the claimed place into the hand, which has no jobs left.
    #[inline(never)]
    fn empty_into(&self, seat: &mut PlaceSeat<J>, place: usize, hand: &mut SealedBag<J>)
        requires of { IsPlaceSeatOf self.now seat.old }
        requires within { place < self.now.capacity }
        requires holds { (bag : Sealed J) × HoldsAt place (Some bag) seat.old.me }
        requires empty { hand.old.jobs ≡ [] }
        ensures kept { IsSamePlaceSeat seat.old seat.new }
        ensures hand { seat.old.me.1 ≡ (place, Some hand.new) ∷ [] }
        ensures view { seat.new.me ≡ (after_store seat.old.me.0 None, []) }
    {
        let Some(taken) = seat.slot_mut(&self.table.shared, place).take() else {
            unreachable!()
        };
        // A plain assignment would copy the blanks of the hand, so as to drop them one by one.
        mem::forget(mem::replace(hand, taken));
        self.table
            .shared
            .store::<PlaceStore>(seat, word_index(place), EMPTY);
    }
}
