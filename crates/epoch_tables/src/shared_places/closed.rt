//! Places that no thread shares any more.
ghost use Rattle.std.specs.Prelude.{◌≡◌, ◌<◌, ◌≤◌, ◌∷◌, length};
ghost use Rattle.std.specs.Mem.{type_size};
ghost use Rattle.epoch_bags.specs.contracts.bag.SealedBag.{the_row as bag_row};
ghost use Rattle.epoch_tables.specs.ClosedPlaces.{AreLast};

use crate::shared_places::places::{MOST_PLACES, SharedPlaces};
use atomic_table::Closed;
use epoch_bags::SealedBag;
use std::alloc::Global;
use std::marker::Model;

/// What is left in places that were closed, one place after another. It must be given back, by [`ClosedPlaces::free`].
pub struct ClosedPlaces<J> {
    closed: Closed<Option<SealedBag<J>>, Global>,
    next: usize,
}

impl<J> Model for ClosedPlaces<J> {
    ghost use Rattle.std.specs.Prelude.{◌≡◌, ℕ, ◌<◌, ◌≤◌, List, Option, drop, false, true, slice_index_or};
    ghost use Rattle.std.specs.Slots.{slots_items, slots_filled, slots_len};
    ghost use Rattle.epoch_bags.specs.Bags.{Sealed};

    ghost Value = { List (Option (Sealed J)) };

    ghost view = { λ a. drop a.next (slots_items a.closed.slots) };

    ghost invariant = { λ a. record {
      most : slots_len a.closed.slots ≤ 4096;
      within : a.next ≤ slots_len a.closed.slots;
      taken : (place : ℕ) → place < a.next → slice_index_or (slots_filled a.closed.slots) place false ≡ false;
      left : (place : ℕ) → a.next ≤ place → place < slots_len a.closed.slots
          → slice_index_or (slots_filled a.closed.slots) place false ≡ true;
    } };
}

/// Places that no thread shares any more, whose contents are as they were. They can only be closed.
pub struct UnsharedPlaces<J> {
    places: SharedPlaces<J>,
}

impl<J> Model for UnsharedPlaces<J> {
    ghost use Rattle.epoch_tables.specs.SharedPlaces.{PlaceBoard};

    ghost Value = { PlaceBoard };

    ghost view = { λ a. a.places };
}

impl<J> SharedPlaces<J> {
    /// Ends the sharing. No further step is taken at the places.
    pub fn unshare(self) -> UnsharedPlaces<J>
        ensures { result ≡ self }
    {
        UnsharedPlaces { places: self }
    }
}

impl<J> UnsharedPlaces<J> {
    /// Returns what is left in the places.
    ///
    /// A caller that names the type of its jobs has nothing to show: the checker shows by itself that their bags fit in
    /// memory.
    pub fn close(self) -> ClosedPlaces<J>
        requires room { type_size (bag_row J.row) < 9223372036854775808 }
        // What is left in closed places is, place by place, what stood there in a last state, which meets the rule.
        ensures { AreLast self.capacity result }
    {
        let UnsharedPlaces { places } = self;
        let SharedPlaces { table, capacity: _ } = places;
        ClosedPlaces {
            closed: table.close(),
            next: 0,
        }
    }
}

impl<J> ClosedPlaces<J> {
    /// Returns how many places are left, at most [`MOST_PLACES`].
    pub fn len(&self) -> usize
        ensures value { result ≡ length self.now }
        ensures most { result ≤ MOST_PLACES }
    {
        self.closed.slot_count() - self.next
    }

    /// Takes out what is left in the next place.
    pub fn take_next(&mut self) -> Option<SealedBag<J>>
        requires some { 0 < length self.old }
        requires room { type_size (bag_row J.row) < 9223372036854775808 }
        ensures { self.old ≡ result ∷ self.new }
    {
        let place = self.next;
        self.next = place + 1;
        self.closed.take(place)
    }

    /// Frees the memory of the places. Each place must have been emptied: [`ClosedPlaces::take_next`].
    pub fn free(self)
    where
        J: Drop,
        requires { length self ≡ 0 }
    {
        let ClosedPlaces { closed, next: _ } = self;
        closed.free();
    }
}
