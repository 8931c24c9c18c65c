//! The store of numbered places, each of which has a word and room for a bag.
//!
//! A word is 0 for an empty place, 2 for a claimed one, and `2s + 1` for one that holds a bag sealed with `s`.
//! A put goes from place 0 to the last: it looks at the word, claims an empty place and fills it. A collection
//! goes over the places once: it looks, claims the very word that tells of an expired bag, and empties the place.
ghost use Rattle.std.specs.Prelude.{◌≡◌, ◌≢◌, ℕ, ◌+◌, ◌-◌, ◌*◌, ◌<◌, ◌≤◌, ◌↔◌, ◌%◌, ◌/◌, List, [], ◌∷◌, ◌++◌, Option};
ghost use Rattle.std.specs.Prelude.{None, Some, IsSome, length, IfOk, IfErr, IsTrue, true, false, ◌==◌, if◌then◌else◌};
ghost use Rattle.std.specs.Prelude.{slice_index_or, slice_get, slice_set, min, vec_capacity};
ghost use Rattle.epoch_bags.specs.Bags.{Sealed, IsExpired};
ghost use Rattle.epoch_bags.specs.Stores.{AllExpired, PutsBag, FindsRoom, PutsJobs, TakesBag, TakesExpired, FindsBag};
ghost use Rattle.epoch_bags.specs.Stores.{TakesAny};
ghost use Rattle.epoch_bags.specs.Places.{has_empty};
ghost use Rattle.epoch_bags.specs.PlaceLists.{ArePlaces, bags_in, taken_places, homes_taken, IsClaimedAt, IsReservedAt};
ghost use Rattle.epoch_bags.specs.PlaceLists.{Fills, Empties, LeavesPlace};

use super::size::tell_size;
use crate::{Bag, BagStore, Epoch, GREATEST_EPOCH, MOST_BAGS, PutStep, SealedBag, TakeStep};
use epoch_cells::Fault;
use std::alloc::Global;
use std::marker::Model;

/// The word of an empty place.
pub const EMPTY: u64 = 0;

/// The word of a claimed place.
pub const CLAIMED: u64 = 2;

/// Returns the word of a place that holds a bag with this seal. It is odd, as no other one is.
#[inline(always)]
pub fn place_word(seal: u64) -> u64
    requires { seal ≤ GREATEST_EPOCH }
    ensures { result ≡ 2 * seal + 1 }
{
    2 * seal + 1
}

/// The next step of a put, and its place.
#[derive(Clone, Copy, Debug, PartialEq, Eq)]
pub enum PutCursor {
    Look(usize),
    Claim(usize),
    Fill(usize),
}

/// The next step of a collection, its place, and the word that it claims there.
#[derive(Clone, Copy, Debug, PartialEq, Eq)]
pub enum TakeCursor {
    Look(usize),
    Claim(usize, u64),
    Empty(usize),
}

/// A plain list of numbered places. Its memory has room for one bag more, which its drop needs.
pub struct Places<J> {
    words: Vec<u64>,
    bags: Vec<Option<SealedBag<J>>>,
    ghost room: { length bags.items < vec_capacity bags },
}

impl<J> Model for Places<J> {
    ghost use Rattle.epoch_bags.specs.PlaceLists.{PlaceList, ArePlaces};

    ghost Value = { PlaceList J };

    ghost view = { λ a. record { words = a.words.items; bags = a.bags.items } };

    ghost invariant = { λ a. ArePlaces a.words.items a.bags.items };
}

impl<J: Drop> Drop for Places<J> {
    /// Drops the bags in it; their jobs are not called.
    fn drop(self) {
        let Places { words: _, mut bags } = self;
        bags.push_reserved(None);
        tell_size(bags.as_slice());
        drop(bags);
    }
}

impl<J: Drop> Places<J> {
    /// Makes `capacity` empty places, from 1 to [`MOST_BAGS`].
    ///
    /// `NoMemory`: an allocation was refused, and nothing was made.
    pub fn new(alloc: Global, capacity: usize) -> Result<Places<J>, Fault>
        requires some { 0 < capacity }
        requires most { capacity ≤ MOST_BAGS }
        // In a new store of places, all words are 0.
        ensures empty { IfOk result (λ places. bags_in places.bags ≡ []) }
        ensures capacity { IfOk result (λ places. length places.words ≡ capacity) }
        ensures words { IfOk result (λ places. (place : ℕ) → slice_index_or places.words place 0 ≡ 0) }

        ensures no_memory { IfErr result (λ fault. fault ≡ Fault.NoMemory) }
    {
        let Ok(mut words) = Vec::with_capacity(alloc, capacity) else {
            return Err(Fault::NoMemory);
        };
        let Ok(mut bags) = Vec::with_capacity(alloc, capacity + 1) else {
            return Err(Fault::NoMemory);
        };
        for _ in 0..capacity {
            words.push_reserved(EMPTY);
            bags.push_reserved(None);
        }
        Ok(Places { words, bags })
    }
}

impl<J> Places<J> {
    /// Returns the word of this place; `None` past the last one.
    pub fn word(&self, place: usize) -> Option<u64>
        ensures { result ≡ slice_get self.now.words place }
    {
        self.words.get(place).copied()
    }
}

/// How many places there are.
fn count<J>(places: &Places<J>) -> usize
    ensures value { result ≡ length places.now.words }
    ensures agrees { ArePlaces places.now.words places.now.bags }
{
    places.words.len()
}

/// Finds the word of this place.
fn look<J>(places: &Places<J>, place: usize) -> u64
    requires { place < length places.now.words }
    ensures { result ≡ slice_index_or places.now.words place 0 }
{
    places.words[place]
}

/// Exchanges exactly this word for the claimed one.
#[inline(never)]
fn claim<J>(places: &mut Places<J>, place: usize, expected: u64) -> bool
    requires { place < length places.old.words }
    ensures won { IsTrue result → (slice_index_or places.old.words place 0 ≡ expected)
        × (places.new.words ≡ slice_set places.old.words place 2) }
    ensures lost { result ≡ false
        → (slice_index_or places.old.words place 0 ≢ expected) × (places.new.words ≡ places.old.words) }
    ensures bags { places.new.bags ≡ places.old.bags }
{
    if places.words[place] != expected {
        return false;
    }
    places.words[place] = CLAIMED;
    true
}

/// Seals what is held and moves it into the place, unless a bag stands there.
#[inline(never)]
fn fill<J: Default + Drop>(
    places: &mut Places<J>,
    place: usize,
    seal: Epoch,
    held: &mut Bag<J>,
) -> bool
    requires { place < length places.old.words }
    ensures done { IsTrue result
        → Fills places.old place (record { seal = seal.number; jobs = held.old.jobs }) places.new }
    ensures empty { IsTrue result → held.new.jobs ≡ [] }
    ensures limit { held.new.limit ≡ held.old.limit }
    ensures not { result ≡ false → (places.new ≡ places.old) × (held.new ≡ held.old) }
    ensures there { result ≡ false → slice_index_or places.old.words place 0 ≢ 0 }
    ensures home { result ≡ false → IsSome (slice_index_or places.old.bags place None) }
{
    if places.bags[place].is_some() {
        return false;
    }
    let seal = seal.number();
    places.words[place] = place_word(seal);
    // `Bag::seal` would ask of each caller that a sealed bag's size is in range, which a generic `J` leaves open.
    places.bags[place] = Some(SealedBag {
        seal,
        next: 0,
        jobs: held.take().jobs,
    });
    true
}

/// Takes out the bag that stands there, even if the place is claimed.
fn clear<J: Drop>(places: &mut Places<J>, place: usize) -> Option<SealedBag<J>>
    requires { place < length places.old.words }
    ensures bag { result ≡ slice_index_or places.old.bags place None }
    ensures words { places.new.words ≡ slice_set places.old.words place 0 }
    ensures bags { places.new.bags ≡ slice_set places.old.bags place None }
{
    places.words[place] = EMPTY;
    places.bags[place].take()
}

/// Moves the bag that stands there into the hand, if it is expired. Otherwise the place is let go with its bag.
#[inline(never)]
fn empty<J: Drop>(
    places: &mut Places<J>,
    place: usize,
    expiry: Epoch,
    hand: &mut SealedBag<J>,
) -> bool
    requires { place < length places.old.words }
    ensures done { IsTrue result → Empties places.old place hand.new places.new }
    ensures expired { IsTrue result → IsExpired expiry.number hand.new }
    ensures not { result ≡ false → LeavesPlace expiry.number places.old place places.new }
    ensures hand { result ≡ false → hand.new ≡ hand.old }
{
    let Some(bag) = &places.bags[place] else {
        places.words[place] = EMPTY;
        return false;
    };
    if !bag.is_expired(expiry) {
        places.words[place] = place_word(bag.seal());
        return false;
    }
    if let Some(bag) = clear(places, place) {
        *hand = bag;
    }
    true
}

/// Goes on to the place after this one, which was seen occupied.
#[inline(always)]
pub fn put_further(cursor: &mut PutCursor, place: usize, places: usize) -> PutStep
    requires { place < places }
    ensures cursor { cursor.new ≡ PutCursor.Look (place + 1) }
    ensures result { result ≡ (if place + 1 == places then PutStep.Full else PutStep.Again) }
{
    *cursor = PutCursor::Look(place + 1);
    if place + 1 < places {
        PutStep::Again
    } else {
        PutStep::Full
    }
}

/// Goes on to the place after this one.
#[inline(always)]
pub fn take_further(cursor: &mut TakeCursor, place: usize, places: usize) -> TakeStep
    requires { place < places }
    ensures cursor { cursor.new ≡ TakeCursor.Look (place + 1) }
    ensures result { result ≡ (if place + 1 == places then TakeStep.Empty else TakeStep.Again) }
{
    *cursor = TakeCursor::Look(place + 1);
    if place + 1 == places {
        TakeStep::Empty
    } else {
        TakeStep::Again
    }
}

/// Returns whether the word tells of a bag whose seal is two epochs or more behind this one: its jobs may be called.
///
/// Why two: an advance needs every pinned participant to be pinned in the present epoch, so the epoch rises at most
/// once past a participant that stays pinned. One that was pinned, and had read the epoch again, when the bag was
/// sealed had read an epoch no later than the seal. So while it stays pinned the epoch is at most one past the seal,
/// and no thread finds the bag expired. One epoch is too few: the first advance may come while that one is pinned.
#[inline(always)]
pub fn is_expired_word(word: u64, expiry: Epoch) -> bool
    ensures { IsTrue result ↔ ((word % 2 ≡ 1) × (word / 2 + 2 ≤ expiry.number)) }
{
    word % 2 == 1 && word / 2 + 2 <= expiry.number()
}

/// Whether a bag stands at this place.
fn has_bag<J>(places: &Places<J>, place: usize) -> bool
    requires { place < length places.now.words }
    ensures { IsTrue result ↔ IsSome (slice_index_or places.now.bags place None) }
{
    places.bags[place].is_some()
}

impl<J: Default + Drop> BagStore for Places<J> {
    ghost use Rattle.epoch_bags.specs.Places.{put_passed, put_left, take_left, ReservesAt, ClaimsAt, has_room};
    ghost use Rattle.epoch_bags.specs.Places.{bags_ahead};
    ghost use Rattle.epoch_bags.specs.CursorSteps.{PutStands, TakeStands, PutsInList, TakesFromList};

    type Job = J;

    type Putting = PutCursor;

    type Taking = TakeCursor;

    ghost queued = { λ places. bags_in places.bags };

    ghost capacity = { λ places. length places.words };

    ghost occupied = { λ places. taken_places places.words };

    ghost standing = { λ places. homes_taken places.bags };

    ghost Claimed = { λ places place. IsClaimedAt places place };

    ghost Reserved = { λ places place. IsReservedAt places place };

    ghost passed = { λ cursor. put_passed cursor };

    ghost has_room = { λ places cursor. has_room places cursor };

    ghost Reserves = { λ cursor place. ReservesAt cursor place };

    ghost Claims = { λ cursor place. ClaimsAt cursor place };

    ghost puts_left = { λ places cursor. put_left places cursor };

    ghost takes_left = { λ places cursor. take_left places cursor };

    ghost ahead = { λ epoch places cursor. bags_ahead epoch places cursor };

    ghost PutMoves = { λ old new bag cursor step next. PutStands old cursor → PutsInList old new bag cursor step next };

    ghost TakeMoves = { λ epoch old new hand cursor step next. TakeStands epoch old cursor
        → TakesFromList old new hand epoch cursor step next };

    fn with_room(alloc: Global, bags: usize) -> Result<Places<J>, Fault> {
        Places::new(alloc, bags)
    }

    fn capacity(&self) -> usize {
        count(self)
    }

    fn start_put(&self) -> PutCursor
        ensures start { result ≡ PutCursor.Look 0 }
        ensures room { (place : ℕ) → slice_get (taken_places self.now.words) place ≡ Some false
            → has_empty self.now.words ≡ true }
    {
        PutCursor::Look(0)
    }

    fn put_step(&mut self, cursor: &mut PutCursor, seal: Epoch, held: &mut Bag<J>) -> PutStep {
        let places = count(self);
        match *cursor {
            PutCursor::Look(place) => {
                if place >= places {
                    return PutStep::Full;
                }
                if look(self, place) == EMPTY {
                    *cursor = PutCursor::Claim(place);
                    return PutStep::Again;
                }
                put_further(cursor, place, places)
            }
            PutCursor::Claim(place) => {
                if place >= places {
                    return PutStep::Full;
                }
                if claim(self, place, EMPTY) {
                    *cursor = PutCursor::Fill(place);
                    return PutStep::Again;
                }
                put_further(cursor, place, places)
            }
            PutCursor::Fill(place) => {
                if place >= places {
                    *cursor = PutCursor::Look(place);
                    return PutStep::Full;
                }
                if fill(self, place, seal, held) {
                    *cursor = PutCursor::Look(place + 1);
                    return PutStep::Done;
                }
                put_further(cursor, place, places)
            }
        }
    }

    fn start_take(&self) -> TakeCursor {
        // Counting tells that each word agrees with what is at home.
        let _agrees = count(self);
        TakeCursor::Look(0)
    }

    fn take_step(
        &mut self,
        cursor: &mut TakeCursor,
        expiry: Epoch,
        hand: &mut SealedBag<J>,
    ) -> TakeStep {
        let places = count(self);
        match *cursor {
            TakeCursor::Look(place) => {
                if place >= places {
                    return TakeStep::Empty;
                }
                let word = look(self, place);
                if is_expired_word(word, expiry) {
                    *cursor = TakeCursor::Claim(place, word);
                    return TakeStep::Again;
                }
                take_further(cursor, place, places)
            }
            TakeCursor::Claim(place, word) => {
                if place >= places {
                    return TakeStep::Empty;
                }
                if claim(self, place, word) {
                    *cursor = TakeCursor::Empty(place);
                    return TakeStep::Again;
                }
                take_further(cursor, place, places)
            }
            TakeCursor::Empty(place) => {
                if place >= places {
                    *cursor = TakeCursor::Look(place);
                    return TakeStep::Empty;
                }
                if empty(self, place, expiry, hand) {
                    *cursor = TakeCursor::Look(place + 1);
                    return TakeStep::Got;
                }
                take_further(cursor, place, places)
            }
        }
    }

    fn take_any(&mut self) -> Option<SealedBag<J>> {
        for place in 0..count(self) {
            if has_bag(self, place) {
                return clear(self, place);
            }
        }
        None
    }

    ghost use Rattle.epoch_bags.specs.PlaceLists.{length-taken_places};

    ghost place_for_each = { λ places. length-taken_places places.words };
}
