//! The word of a place that values take turns at.
ghost use Rattle.std.specs.Prelude.{◌≡◌, ◌≢◌, ℕ, ◌+◌, ◌*◌, ◌^◌, [], Option, Some};
ghost use Rattle.std.specs.Coded.{coded_option};
ghost use Rattle.std.specs.Ptr.{Ptr};
ghost use Rattle.epoch_lend.specs.Posts.{IsAmong, logs_of};
ghost use Rattle.epoch_lend.specs.Loans.{Within};
ghost use Rattle.epoch_lend.specs.Turning.{TurnNames, turn_names_coded, turns_own, turns_share, turn_room_of};
ghost use Rattle.epoch_lend.specs.Turning.{turn_is, turn_shares, claim_of, filled_has, vacancy_of, found_of};
ghost use Rattle.epoch_lend.specs.Turning.{Awaits, turn_word, vacant, claimed, shown, removed};

use crate::lending::{Glance, Marked};
use crate::part::Part;
use crate::post::{Post, PostGuard};
use atomic_table::exchange;
use std::marker::{Brand, Model, Move, Owns, PhantomData};
use std::sync::atomic::Ordering::SeqCst;
use std::sync::atomic::raw;

/// The greatest last turn of a cell: the word of the turn after it is the greatest multiple of 4 that fits.
pub const GREATEST_TURN: u64 = 0x3fff_ffff_ffff_fffe;

/// The memory of a cell: its word, and room for a value beside it. There is no value of this type.
pub struct Space<T> {
    word: u64,
    value: T,
}

/// Where the memory of a cell is.
pub type CellAt<T> = *const Space<T>;

/// The turns of a cell. It has no bytes: clauses tell where the cell's word and its value lie.
///
/// The word is four times the turn, and the state. 0: vacant. 1: claimed, while a value is placed. 2: shown to guards.
/// 3: removed, until the value is out.
#[derive(Drop)]
pub struct Turns<T> {
    marker: PhantomData<T>,
}

impl<T> Owns for Turns<T> {
    ghost Value = { TurnNames };

    ghost coded = { turn_names_coded };

    ghost shr_at = { λ d p κ. turns_share T.row d κ };
}

impl<T> Move for Turns<T> {
    ghost own_val = { λ d vs. turns_own T.row d (Fields.own_val (record { marker = record {} }) vs) };
}

/// A place in memory with room for one value.
#[derive(Drop)]
pub struct Place<T> {
    pub(crate) at: *const T,
}

impl<T> Model for Place<T> {
    ghost also_owns = { λ h. turn_room_of T.row h.at };
}

/// What a claim gained: nothing, or the place with no value in it. No other thread reaches it until it is given back.
#[derive(Drop)]
pub struct TurnClaim<T> {
    pub(crate) at: *const T,
    pub ghost right: { ℕ },
    pub ghost state: { ℕ },
    pub ghost word: { ℕ },
}

impl<T> Model for TurnClaim<T> {
    ghost also_owns = { λ h. claim_of T.row h.at h.state h.word h.right };
}

/// A claimed place with a value in it. It can't be dropped: its value is shown, or taken out.
pub struct Filled<T> {
    pub(crate) at: *const T,
    pub ghost state: { ℕ },
    pub ghost word: { ℕ },
    pub ghost value: { T },
}

impl<T> Model for Filled<T> {
    ghost also_owns = { λ h. filled_has T.row h.at h.state h.word h.value };
}

/// What a mark gained beside what was lent: nothing, or the place, once the value's lifetime is over. It can't be
/// dropped, so that what gained a place gives the value back that is in it.
pub struct Vacancy<T> {
    pub(crate) at: *const T,
    pub ghost right: { ℕ },
    pub ghost state: { ℕ },
    pub ghost word: { ℕ },
    pub ghost value: { T },
    pub ghost lifetime: { ℕ },
}

impl<T> Model for Vacancy<T> {
    ghost also_owns = { λ h. vacancy_of T.row h.at h.state h.word (h.value, h.lifetime) h.right };
}

/// The name of a value: its turn. It shows which value was placed at this turn.
#[derive(Drop)]
pub struct TurnName<T> {
    pub turn: u64,
    marker: PhantomData<T>,
    pub ghost log: { ℕ },
    pub ghost value: { T },
    pub ghost lifetime: { ℕ },
}

impl<T> Model for TurnName<T> {
    ghost also_owns = { λ h. turn_is T.row h.log h.turn (h.value, h.lifetime) };

    ghost also_shares = { λ h _ κ. turn_shares T.row h.log h.turn (h.value, h.lifetime) κ };
}

/// What a look for a turn found: nothing, or which value was placed at this turn.
#[derive(Drop)]
pub struct Found<T> {
    pub(crate) turn: u64,
    pub(crate) marker: PhantomData<T>,
    pub ghost right: { ℕ },
    pub ghost log: { ℕ },
    pub ghost value: { Option T } by { coded_option T.code },
    pub ghost lifetime: { ℕ },
}

impl<T> Model for Found<T> {
    ghost also_owns = { λ h. found_of T.row h.log h.turn h.lifetime h.value h.right };
}

impl<T> Turns<T> {
    /// Makes the place vacant at turn 0. Guards of these posts may look at its values.
    pub fn new(place: Place<Space<T>>, posts: &[Post]) -> Turns<T>
        ensures { (result.posts ≡ logs_of posts.now) × (result.at ≡ place.at) }
    {
        let _ = posts;
        let Place { at } = place;
        unsafe {
            let word = &raw const (*at).word as *mut u64;
            word.write(0);
        }
        Turns {
            marker: PhantomData,
        }
    }

    /// Claims the place at this turn, by one exchange. Of several claims one succeeds, and none if the word is another.
    pub fn claim(&self, at: CellAt<T>, turn: u64, before: u64, after: u64) -> (u64, TurnClaim<T>)
        requires { (at ≡ self.now.at) × (before ≡ turn_word (vacant turn)) × (after ≡ turn_word (claimed turn)) }
        ensures { (result.0 ≡ before → result.1.right ≡ 1) × (result.0 ≢ before → result.1.right ≡ 0)
            × (result.1.state ≡ self.now.state) × (result.1.word ≡ after) × (result.1.at ≡ self.now.value) }
    {
        let _ = turn;
        let found = unsafe { exchange::<Brand>(&raw const (*at).word, before, after) };
        let at = unsafe { &raw const (*at).value };
        let claim = TurnClaim { at };
        (found, claim)
    }

    /// Shows the value of a place to guards, by one store of the word, and returns its name. The caller has claimed the
    /// place at this turn, or has taken the value of the turn before out of it.
    pub fn show(&self, at: CellAt<T>, filled: Filled<T>, turn: u64, word: u64) -> TurnName<T>
        requires at { at ≡ self.now.at }
        requires of_place { (filled.state ≡ self.now.state) × (filled.at ≡ self.now.value) }
        requires of_turn { Awaits turn filled.word × (word ≡ turn_word (shown turn)) }
        ensures { (result.turn ≡ turn) × (result.log ≡ self.now.log) × (result.value ≡ filled.value) }
    {
        let Filled { at: _ } = filled;
        unsafe { raw::store::<Brand>(&raw const (*at).word, word, SeqCst) };
        TurnName {
            turn,
            marker: PhantomData,
        }
    }

    /// Looks at the word, by one plain load. If it is that of a value shown at this turn, returns which value that is.
    pub fn find(&self, at: CellAt<T>, turn: u64, word: u64) -> (u64, Found<T>)
        requires { (at ≡ self.now.at) × (word ≡ turn_word (shown turn)) }
        // A load that finds the word of a value shown at a turn tells which value was placed at this turn.
        ensures { (result.0 ≡ word → result.1.right ≡ 1) × (result.0 ≢ word → result.1.right ≡ 0)
            × (result.1.log ≡ self.now.log) × (result.1.turn ≡ turn) }
    {
        let _ = word;
        let found = unsafe { raw::load::<Brand>(&raw const (*at).word, SeqCst) };
        let which = Found {
            turn,
            marker: PhantomData,
        };
        (found, which)
    }

    /// Looks at the value, by one plain load. If it finds the word of a value shown at this turn, returns which value
    /// that is, and the value may be read for as long as the guard is lent. The guard must be of one of the place's
    /// posts.
    pub fn look<'g>(
        &self,
        turn: u64,
        guard: &'g PostGuard,
        at: CellAt<T>,
        word: u64,
    ) -> (u64, Found<T>, Glance<'g, T>)
        requires { (at ≡ self.now.at) × (word ≡ turn_word (shown turn)) × IsAmong guard.now.log self.now.posts }
        ensures { (result.0 ≡ word → (result.1.right ≡ 1) × (result.2.right ≡ 1))
            × (result.0 ≢ word → (result.1.right ≡ 0) × (result.2.right ≡ 0))
            × (result.1.log ≡ self.now.log) × (result.1.turn ≡ turn) × (result.2.value ≡ result.1.value) }
    {
        let _ = guard;
        let _ = word;
        let found = unsafe { raw::load::<Brand>(&raw const (*at).word, SeqCst) };
        let which = Found {
            turn,
            marker: PhantomData,
        };
        let at = unsafe { &raw const (*at).value };
        let glance = Glance {
            at,
            marker: PhantomData,
        };
        (found, which, glance)
    }

    /// Marks the value of the name's turn, by one exchange: no look finds it from then on, and guards that have found
    /// it keep it. Returns the word that it found and, only if that was the word of its turn, what the mark took out.
    pub fn mark(
        &self,
        name: &TurnName<T>,
        at: CellAt<T>,
        before: u64,
        after: u64,
    ) -> (u64, Marked<T>, Vacancy<T>)
        requires { (at ≡ self.now.at) × (name.now.log ≡ self.now.log)
            × (before ≡ turn_word (shown name.now.turn)) × (after ≡ turn_word (removed name.now.turn)) }
        // Of all marks of a value, only one gets the value with all of its loans. Once these are over, the same mark
        // has the value's place in memory. Each loan went to a guard of one of the cell's posts.
        ensures gained { (result.0 ≡ before → (result.1.right ≡ 1) × (result.2.right ≡ 1))
            × (result.0 ≢ before → (result.1.right ≡ 0) × (result.2.right ≡ 0)) }
        ensures marked { (result.1.value ≡ name.now.value) × (result.1.lifetime ≡ name.now.lifetime)
            × (result.1.seen ≡ []) × Within self.now.posts result.1.loans }
        ensures vacancy { (result.2.value ≡ name.now.value) × (result.2.lifetime ≡ name.now.lifetime)
            × (result.2.state ≡ self.now.state) × (result.2.word ≡ after)
            × (result.2.at ≡ self.now.value) }
    {
        let _ = name;
        let found = unsafe { exchange::<Brand>(&raw const (*at).word, before, after) };
        let at = unsafe { &raw const (*at).value };
        (found, Marked { at }, Vacancy { at })
    }

    /// Makes the place vacant at this turn, by one store of the word. The caller has claimed the place at this turn, or
    /// has taken the value of the turn before out of it.
    pub fn release(&self, at: CellAt<T>, claim: TurnClaim<T>, turn: u64, word: u64)
        requires at { at ≡ self.now.at }
        requires of_place { (claim.right ≡ 1) × (claim.state ≡ self.now.state)
            × (claim.at ≡ self.now.value) }
        requires of_turn { Awaits turn claim.word × (word ≡ turn_word (vacant turn)) }
    {
        let TurnClaim { at: _ } = claim;
        let _ = turn;
        unsafe { raw::store::<Brand>(&raw const (*at).word, word, SeqCst) };
    }

    /// Ends the word, which nobody shares any more. Returns it and, if it is that of a vacant place, the place.
    pub fn end(self, at: CellAt<T>) -> (u64, TurnClaim<Space<T>>)
        requires { at ≡ self.at }
        ensures vacant { (turn : ℕ) → result.0 ≡ turn_word (vacant turn) → result.1.right ≡ 1 }
        ensures at { result.1.at ≡ self.at }
    {
        let Self { marker: _ } = self;
        let word = unsafe { (*at).word };
        (word, TurnClaim { at })
    }
}

/// Gives a marked value up where it is, if a guard is out that may have it. Only an end of cells does this.
pub fn abandon<T>(marked: Marked<T>, vacancy: Vacancy<T>) {
    let (Marked { at: _ }, Vacancy { at: _ }) = (marked, vacancy);
}

impl<T> Found<T> {
    /// Returns the name of the value that was found.
    pub fn name(self) -> TurnName<T>
        requires { self.right ≡ 1 }
        ensures { (result.turn ≡ self.turn) × (result.log ≡ self.log) × (Some result.value ≡ self.value)
            × (result.lifetime ≡ self.lifetime) }
    {
        let Found { turn, marker: _ } = self;
        TurnName {
            turn,
            marker: PhantomData,
        }
    }

    /// Ends what found nothing, or what isn't needed.
    pub fn done(self) {
        let Found { turn: _, marker: _ } = self;
    }
}

impl<T> TurnName<T> {
    /// Shows that two names of one turn of one place are of one value. It does nothing when it runs.
    pub fn agree(&self, other: &TurnName<T>)
        requires { (self.now.log ≡ other.now.log) × (self.now.turn ≡ other.now.turn) }
        // Two names of one turn of one cell are of one value, whichever threads placed it or found it.
        ensures { (self.now.value ≡ other.now.value) × (self.now.lifetime ≡ other.now.lifetime) }
    {
        let _ = other;
    }
}

impl<T> Vacancy<T> {
    /// Returns the place with its value, once all parts of the value are back.
    pub fn reclaim(self, all: Part<T>) -> Filled<T>
        requires { (self.right ≡ 1) × (all.lifetime ≡ self.lifetime) × (all.count ≡ 2 ^ 63) }
        ensures { (result.value ≡ self.value) × (result.state ≡ self.state) × (result.word ≡ self.word)
            × (result.at ≡ self.at) }
    {
        let Vacancy { at } = self;
        let Part { ptr: _ } = all;
        Filled { at }
    }

    /// Ends what gained nothing.
    pub fn done(self)
        requires { self.right ≡ 0 }
    {
        let Vacancy { at: _ } = self;
    }
}

impl<T> TurnClaim<T> {
    /// Puts a value into the place.
    pub fn fill(self, value: T) -> Filled<T>
        requires { self.right ≡ 1 }
        ensures { (result.value ≡ value) × (result.state ≡ self.state) × (result.word ≡ self.word)
            × (result.at ≡ self.at) }
    {
        let TurnClaim { at } = self;
        unsafe {
            let place = at as *mut T;
            place.write(value);
        }
        Filled { at }
    }

    /// Ends what gained nothing.
    pub fn done(self)
        requires { self.right ≡ 0 }
    {
        let TurnClaim { at: _ } = self;
    }
}

impl<T> Filled<T> {
    /// Takes the value out of the place.
    pub fn take(self) -> (TurnClaim<T>, T)
        ensures value { result.1 ≡ self.value }
        // An empty cell has no value in its place. A claim gets room for one, and the place is given back with its
        // value taken out.
        ensures claim { (result.0.right ≡ 1) × (result.0.state ≡ self.state) × (result.0.word ≡ self.word)
            × (result.0.at ≡ self.at) }
    {
        let Filled { at } = self;
        let value = unsafe { at.read() };
        (TurnClaim { at }, value)
    }
}

unsafe impl<T: Send + Sync> Send for Turns<T> {}

unsafe impl<T: Send + Sync> Sync for Turns<T> {}

unsafe impl<T: Send> Send for TurnClaim<T> {}

unsafe impl<T: Send> Sync for TurnClaim<T> {}

unsafe impl<T: Send> Send for Filled<T> {}

unsafe impl<T: Send> Send for Vacancy<T> {}

unsafe impl<T: Send> Sync for Vacancy<T> {}

unsafe impl<T> Send for TurnName<T> {}

unsafe impl<T> Sync for TurnName<T> {}
