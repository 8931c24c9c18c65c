//! The steps on the shared places, each one atomic instruction.
ghost use Rattle.std.specs.Prelude.{◌≡◌, ◌≢◌, ℕ, ◌*◌, ◌<◌, ◌∷◌, [], Option, Some, None};
ghost use Rattle.epoch_bags.specs.Bags.{Sealed};
ghost use Rattle.epoch_tables.specs.SharedPlaces.{IsPlaceWord, IsAtHome, IsPlaceSeatOf, IsSamePlaceSeat, after_look};
ghost use Rattle.epoch_tables.specs.SharedPlaces.{after_place_claim, after_store};

use crate::shared_places::places::{PlaceSeat, SharedPlaces};
use crate::shared_places::plays::{PlaceClaim, PlaceLook, PlaceStore};
use epoch_bags::SealedBag;
use epoch_bags::queue::places::{CLAIMED, EMPTY, place_word};
use std::mem;

/// Where the word of a place stands.
///
/// The words are 128 bytes apart: neighbours in one line of the cache, or in two that are fetched
/// together, would slow each other's threads down.
#[inline(always)]
pub(crate) fn word_index(place: usize) -> usize
    requires { place < 4096 }
    ensures { result ≡ 16 * place }
{
    16 * place
}

impl<J> SharedPlaces<J> {
    /// Loads a place's word: [`EMPTY`], [`CLAIMED`], or the [`place_word`] of the seal of the bag that it holds.
    /// No bag is moved.
    #[inline(always)]
    pub fn look(&self, seat: &mut PlaceSeat<J>, place: usize) -> u64
        requires of { IsPlaceSeatOf self.now seat.old }
        requires within { place < self.now.capacity }
        ensures kept { IsSamePlaceSeat seat.old seat.new }
        ensures answer { IsPlaceWord result }
        // A look and a claim find a word at exactly the place asked for. A seat that wins a claim has the bag in hand.
        ensures view { seat.new.me ≡ (after_look seat.old.me.0 place result, seat.old.me.1) }
    {
        self.table.shared.load::<PlaceLook>(seat, word_index(place))
    }

    /// Tries to claim a place whose word is `word`, and returns the word that it found. If that is `word`, and only
    /// then, the seat has claimed the place, and has in hand what stood there.
    #[inline(always)]
    pub fn claim(&self, seat: &mut PlaceSeat<J>, place: usize, word: u64) -> u64
        requires of { IsPlaceSeatOf self.now seat.old }
        requires within { place < self.now.capacity }
        requires free { seat.old.me.0.claimed ≡ None }
        requires word { word ≢ CLAIMED }
        ensures kept { IsSamePlaceSeat seat.old seat.new }
        ensures answer { IsPlaceWord result }
        ensures won { result ≡ word → (bag : Option (Sealed J)) × IsAtHome word bag
            × (seat.new.me ≡ (after_place_claim seat.old.me.0 place word bag, (place, bag) ∷ seat.old.me.1)) }
        ensures lost { result ≢ word → seat.new.me ≡ (after_look seat.old.me.0 place result, seat.old.me.1) }
    {
        self.table
            .shared
            .compare_exchange::<PlaceClaim>(seat, word_index(place), word, CLAIMED)
    }

    /// Moves `bag` into the claimed place, which has none, and stores its seal. `bag` is left `None`.
    #[inline(never)]
    pub fn fill(&self, seat: &mut PlaceSeat<J>, place: usize, bag: &mut Option<SealedBag<J>>)
        requires of { IsPlaceSeatOf self.now seat.old }
        requires claimed { (place < self.now.capacity) × (seat.old.me.0.claimed ≡ Some place) }
        requires hand { seat.old.me.1 ≡ (place, None) ∷ [] }
        requires bag { (put : Sealed J) × (bag.old ≡ Some put) }
        ensures kept { IsSamePlaceSeat seat.old seat.new }
        ensures bag { bag.new ≡ None }
        ensures view { seat.new.me ≡ (after_store seat.old.me.0 bag.old, []) }
    {
        let Some(put) = &*bag else { unreachable!() };
        let seal = put.seal();
        mem::swap(bag, seat.slot_mut(&self.table.shared, place));
        self.table
            .shared
            .store::<PlaceStore>(seat, word_index(place), place_word(seal));
    }

    /// Moves what the claimed place holds into `bag`, which is `None` before, and stores [`EMPTY`].
    #[inline(never)]
    pub fn empty(&self, seat: &mut PlaceSeat<J>, place: usize, bag: &mut Option<SealedBag<J>>)
        requires of { IsPlaceSeatOf self.now seat.old }
        requires claimed { (place < self.now.capacity) × (seat.old.me.0.claimed ≡ Some place) }
        requires hand { (held : Option (Sealed J)) × (seat.old.me.1 ≡ (place, held) ∷ []) }
        requires none { bag.old ≡ None }
        ensures kept { IsSamePlaceSeat seat.old seat.new }
        // A fill moves the bag into the place, and an empty moves it out.
        ensures bag { seat.old.me.1 ≡ (place, bag.new) ∷ [] }
        ensures view { seat.new.me ≡ (after_store seat.old.me.0 None, []) }
    {
        mem::swap(seat.slot_mut(&self.table.shared, place), bag);
        self.table
            .shared
            .store::<PlaceStore>(seat, word_index(place), EMPTY);
    }
}
