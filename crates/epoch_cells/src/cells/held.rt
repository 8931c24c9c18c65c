//! What stands in a cell, and the claims to read and to write it.
ghost use Rattle.std.specs.Prelude.{ℕ, ◌≡◌, ◌≢◌, ◌+◌, ◌*◌, ◌/◌, ◌%◌, ◌<◌, ◌≤◌, IsSomeAnd, IfSome, IfOk, IfErr, []};
ghost use Rattle.std.specs.Borrow.{Lends, sem};
ghost use mir.Syntax.{named};
ghost use Rattle.epoch_cells.specs.declared.cells.name.Name.{Name};
ghost use Rattle.counted_slot.specs.Counting.{readers, IsTurn, Gains};

use crate::cells::name::Name;
use crate::cells::word::{readers_of, state_of, turn_of, vacant, word_of};
use crate::{Kept, replace};
use counted_slot::{Claim, Counted, FREE, Fits, MOST_READERS, ONE_READER, PRESENT, TAKEN};
use std::marker::Model;

/// A value's box beside its own name: what stands in a cell, and what is taken out of one.
#[derive(Drop)]
pub struct Held<T> {
    name: Name,
    value: Box<T>,
}

impl<T> Held<T> {
    ghost use Rattle.epoch_cells.specs.contracts.cells.held.Held.{the_row};
    ghost use Rattle.epoch_cells.specs.LentCells.{with_held};

    /// Returns the name under which the value stood.
    pub fn name(&self) -> Name
        ensures { result ≡ self.now.name }
    {
        self.name
    }

    /// Returns the value without its name.
    #[inline(always)]
    pub fn into_value(self) -> Box<T>
        ensures { result ≡ self.value }
    {
        let Held { name: _, value } = self;
        value
    }

    // The value, to be changed. The name stays beside it.
    fn value_mut(&mut self) -> &mut T
        ensures* writes_back { sem 𝓛 (Lends (the_row T.row) T.row self.entry result (with_held self.old)) }
        ensures value { result.now ≡ self.old.value.value }
    {
        &mut self.value
    }
}

// The tag of a slot is its number, which is the slot of each name that stands in it.
impl<T> Fits for Held<T> {
    type Tag = u32;

    ghost fits = { λ number held. held.name.slot ≡ number };
}

/// A slot: `None` if it has no value. A clause sees a slot as its number.
pub type Slot<T> = Counted<Option<Held<T>>>;

/// A slot, and what keeps the next one out of its cache line of 64 bytes, so that threads at neighbouring slots don't
/// slow each other down.
#[derive(Drop)]
#[repr(C)]
pub struct Line<T> {
    slot: Slot<T>,
    after: [u64; 4],
}

// A clause sees it as its slot.
impl<T> Model for Line<T> {
    ghost Value = { ℕ };

    ghost view = { λ line. line.slot };
}

impl<T> Line<T> {
    /// Returns the slot.
    #[inline(always)]
    pub fn slot(&self) -> &Slot<T>
        ensures { result.now ≡ self.now }
    {
        &self.slot
    }
}

/// How values are put into slots that were claimed for it, and taken out of them.
pub trait Puts<T> {
    /// The value was put into a slot beside this name. If the type is a parameter, nothing but `put` shows it.
    ghost placed: { T → Name → Type 0 };

    /// The value stood in a slot beside this name. If the type is a parameter, nothing but `take_out` shows it.
    ghost stood: { T → Name → Type 0 };

    /// Puts the value and its name into the claimed slot, whose word is this one from then on.
    fn put(claim: Claim<'_, Option<Held<T>>>, held: Held<T>, word: u64)
        requires claimed { claim.right ≡ 2 }
        requires word { word ≡ held.name.turn * 4294967296 + 1 }
        requires fits { held.name.slot ≡ claim.tag }
        ensures placed { placed held.value.value held.name };

    /// Takes what stands in the claimed slot out of it. The claim goes on.
    fn take_out<'a>(
        claim: Claim<'a, Option<Held<T>>>,
    ) -> (Claim<'a, Option<Held<T>>>, Option<Held<T>>)
        requires { claim.right ≡ 2 }
        ensures claim { (result.0.right ≡ 2) × (result.0.tag ≡ claim.entry.tag) }
        ensures fits { IfSome result.1 (λ held. held.name.slot ≡ claim.entry.tag) }
        // A value that is taken out of a slot, or lent for writing, stood there beside its name. Nothing but the taking
        // out shows this, so no value gets another name.
        ensures stood { IfSome result.1 (λ held. stood held.value.value held.name) };
}

/// Values are put into the slots themselves. There is no other way. No value of this type is made.
pub struct IntoSlots;

impl<T: Drop> Puts<T> for IntoSlots {
    ghost placed = { λ _ _. Unit {0} };

    ghost stood = { λ _ _. Unit {0} };

    #[inline(always)]
    fn put(claim: Claim<'_, Option<Held<T>>>, held: Held<T>, word: u64)
        requires claimed { claim.right ≡ 2 }
        requires word { word ≡ held.name.turn * 4294967296 + 1 }
        requires fits { held.name.slot ≡ claim.tag }
        ensures placed { Unit {0} }
    {
        let _ = claim.put(Some(held), word);
    }

    #[inline(always)]
    fn take_out<'a>(
        claim: Claim<'a, Option<Held<T>>>,
    ) -> (Claim<'a, Option<Held<T>>>, Option<Held<T>>)
        requires { claim.right ≡ 2 }
        ensures claim { (result.0.right ≡ 2) × (result.0.tag ≡ claim.entry.tag) }
        ensures fits { IfSome result.1 (λ held. held.name.slot ≡ claim.entry.tag) }
        ensures stood { IfSome result.1 (λ held. Unit {0}) }
    {
        replace(claim, None)
    }
}

/// Tells which [`Puts`] puts a value back that was lent for writing. There is only this impl, so no caller names it.
pub trait HasPuts<P> {}

impl<T> HasPuts<IntoSlots> for T {}

/// Why a try to claim a cell gave nothing.
#[derive(Clone, Copy, PartialEq, Eq)]
pub enum Miss {
    /// The exchange was lost to another thread.
    Lost,
    /// The value is there, and another thread reads or writes it.
    Held,
    /// No value of that name is there.
    Gone,
}

/// A claim to read a cell. It lends the value, which stands beside its own name: the one asked for.
///
/// While it is kept, no thread writes, takes or removes the value. It must be given back, by [`Reading::leave`].
pub struct Reading<'a, T> {
    claim: Claim<'a, Option<Held<T>>>,
    name: Name,
    pub ghost reads: { claim.right ≡ 1 },
    pub ghost named: { ∥ IsSomeAnd claim.value (λ cell. IsSomeAnd cell (λ held. held.name ≡ name)) ∥₁ },
}

impl<'a, T: Drop> Reading<'a, T> {
    /// Returns the name under which the value was asked for.
    pub fn name(&self) -> Name
        ensures { result ≡ self.now.name }
    {
        self.name
    }

    /// Lends the value for reading.
    pub fn get(&self) -> &T
        // A value that is lent for reading or for writing stands under the name that was asked for. What is written
        // keeps that name.
        ensures named { ∥ IsSomeAnd self.now.claim.value
            (λ cell. IsSomeAnd cell (λ held. held.name ≡ self.now.name)) ∥₁ }
        ensures value { IfSome self.now.claim.value (λ cell. IfSome cell (λ held. result.now ≡ held.value.value)) }
    {
        match self.claim.get() {
            Some(held) => &held.value,
            None => unreachable!(),
        }
    }

    /// Ends the reading. From then on the value can be written, taken and removed again.
    pub fn leave(self) {
        let Self { claim, name: _ } = self;
        claim.leave();
    }
}

/// A claim to write a cell. It lends the value, which stood beside its own name: the one asked for.
///
/// The value is out of its cell, which no other thread can enter meanwhile. It must be given back, by
/// [`Writing::leave`].
pub struct Writing<'a, T> {
    claim: Claim<'a, Option<Held<T>>>,
    // What stood in the cell, the value beside its name.
    held: Held<T>,
    name: Name,
    pub ghost writes: { claim.right ≡ 2 },
    pub ghost named: { held.name ≡ name },
    pub ghost fits: { name.slot ≡ claim.tag },
}

impl<'a, T: Drop> Writing<'a, T> {
    ghost use Rattle.epoch_cells.specs.contracts.cells.held.Writing.{the_row};
    ghost use Rattle.epoch_cells.specs.LentCells.{with_written};

    /// Returns the name under which the value was asked for.
    pub fn name(&self) -> Name
        ensures { result ≡ self.now.name }
    {
        self.name
    }

    /// Lends the value for reading.
    pub fn get(&self) -> &T
        ensures named { self.now.held.name ≡ self.now.name }
        ensures value { result.now ≡ self.now.held.value.value }
    {
        &self.held.value
    }

    /// Lends the value for changes. Its name stays.
    pub fn get_mut(&mut self) -> &mut T
        ensures* writes_back { sem 𝓛 (Lends (the_row (record { mir = named 1; lft = [] }) T.row) T.row self.entry result
            (with_written self.old)) }
        ensures named { self.old.held.name ≡ self.old.name }
        ensures value { result.now ≡ self.old.held.value.value }
    {
        self.held.value_mut()
    }

    /// Puts the value back beside its own name, and ends the writing.
    pub fn leave<P: Puts<T>>(self)
    where
        T: HasPuts<P>,
        // A value that was lent for writing, and may have been changed, is put back beside the name that was asked for.
        ensures { P.placed self.entry.held.value.value self.entry.name }
    {
        let Self {
            claim,
            held,
            name: _,
        } = self;
        let word = word_of(held.name.turn(), PRESENT);
        P::put(claim, held, word);
    }
}

/// Returns the line with the slot of this number, which begins at this turn.
pub fn started<T: Drop>(number: u32, start_turn: u32) -> Line<T>
    ensures { result ≡ number }
{
    let slot = Counted::new(None, &number);
    let (found, claim) = slot.turn(FREE, TAKEN);
    if found == FREE {
        let _ = claim.put(None, word_of(start_turn, FREE));
    } else {
        claim.done();
    }
    Line {
        slot,
        after: [0; 4],
    }
}

/// Returns whether a value can be placed there.
pub fn is_free<T>(slot: &Slot<T>) -> bool {
    state_of(slot.load()) == FREE
}

/// Tries once to place the value in the slot of this number, at the slot's turn.
#[inline(always)]
pub fn try_place<T: Drop, P: Puts<T>>(
    slot: &Slot<T>,
    number: u32,
    value: Box<T>,
) -> Result<Name, (Miss, Box<T>)>
    requires some { 0 < number }
    requires within { number ≤ 16777215 }
    requires numbered { slot.now ≡ number }
    ensures ok { IfOk result (λ name. name.slot ≡ number) }
    ensures placed { IfOk result (λ name. P.placed value.value name) }
    ensures handed_back { IfErr result (λ back. back.1 ≡ value) }
{
    let seen = slot.load();
    if state_of(seen) != FREE {
        return Err((Miss::Held, value));
    }
    let turn = turn_of(seen);
    let (found, claim) = slot.turn(seen, word_of(turn, TAKEN));
    if found != seen {
        claim.done();
        return Err((Miss::Lost, value));
    }
    let name = Name::at(number, turn);
    P::put(claim, Held { name, value }, word_of(turn, PRESENT));
    Ok(name)
}

// Why the value of this name can't be claimed in its slot, which had this word.
fn miss_of(word: u64, name: Name) -> Miss {
    if turn_of(word) != name.turn() || state_of(word) == FREE {
        Miss::Gone
    } else {
        Miss::Held
    }
}

/// Tries once to claim the value of this name for reading.
#[inline(always)]
pub fn try_read<'a, T: Drop>(slot: &'a Slot<T>, name: Name) -> Result<Reading<'a, T>, Miss>
    ensures { IfOk result (λ reading. reading.name ≡ name) }
{
    let seen = slot.load();
    // An exchange waits for all that comes before it: so the word without a reader, which is met most, is told by one
    // comparison.
    if seen != word_of(name.turn(), PRESENT) {
        if turn_of(seen) != name.turn()
            || state_of(seen) != PRESENT
            || readers_of(seen) == MOST_READERS
        {
            return Err(miss_of(seen, name));
        }
    }
    let (found, claim) = slot.turn(seen, seen + ONE_READER);
    if found != seen {
        claim.done();
        return Err(Miss::Lost);
    }
    let is_it = match claim.get() {
        Some(held) => held.name == name,
        None => false,
    };
    if is_it {
        Ok(Reading { claim, name })
    } else {
        claim.leave();
        Err(Miss::Gone)
    }
}

// Tries once to claim the slot of the value of this name, whose word is `taken` from then on, and takes the value out.
// The claim goes on.
#[inline(always)]
fn try_claim<'a, T: Drop, P: Puts<T>>(
    slot: &'a Slot<T>,
    name: Name,
    taken: u64,
) -> Result<(Claim<'a, Option<Held<T>>>, Held<T>), Miss>
    requires { taken % 4 ≡ 3 }
    ensures claim { IfOk result (λ claimed. (claimed.0.right ≡ 2) × (claimed.0.tag ≡ slot.now)) }
    ensures named { IfOk result (λ claimed. claimed.1.name ≡ name) }
    ensures stood { IfOk result (λ claimed. P.stood claimed.1.value.value name) }
{
    // The word isn't looked at first: the exchange would wait for that, and a value is seldom held or gone.
    let present = word_of(name.turn(), PRESENT);
    let (found, claim) = slot.turn(present, taken);
    if found != present {
        claim.done();
        return Err(miss_of(found, name));
    }
    let (claim, content) = P::take_out(claim);
    match content {
        Some(held) => {
            if held.name == name {
                return Ok((claim, held));
            }
            let _ = claim.put(Some(held), present);
        }
        None => {
            let _ = claim.put(None, present);
        }
    }
    Err(Miss::Gone)
}

/// Tries once to take the value of this name out. Its slot comes as a room for the next value, or is retired if this
/// was its last turn.
#[inline(always)]
pub fn try_take<'a, T: Drop, P: Puts<T>>(
    slot: &'a Slot<T>,
    name: Name,
) -> Result<(Held<T>, Option<Room<'a, T>>), Miss>
    requires numbered { slot.now ≡ name.slot }
    ensures named { IfOk result (λ taken. taken.0.name ≡ name) }
    ensures stood { IfOk result (λ taken. P.stood taken.0.value.value name) }
    ensures next { IfOk result (λ taken. IfSome taken.1
        (λ room. (room.name.slot ≡ name.slot) × (room.name.turn ≡ name.turn + 1))) }
{
    // At once of the next turn, so that from here on the value is gone for all callers.
    match try_claim::<T, P>(slot, name, word_of(name.turn().wrapping_add(1), TAKEN)) {
        Ok((claim, held)) => Ok((held, room_after(claim, name))),
        Err(miss) => Err(miss),
    }
}

/// A free slot that its owner keeps for its next value: no other call finds it free. If it is dropped, the slot is free
/// for all callers.
pub struct Room<'a, T> {
    kept: Kept<'a, Option<Held<T>>>,
    // The name of the next value.
    name: Name,
    pub ghost fits: { name.slot ≡ kept.claim.tag },
}

impl<'a, T> Room<'a, T> {
    /// Returns the name of the next value.
    #[inline(always)]
    pub fn name(&self) -> Name
        ensures { result ≡ self.now.name }
    {
        self.name
    }
}

impl<'a, T: Drop> Room<'a, T> {
    /// Places the value here, by one store, beside its name, and returns that name.
    #[inline(always)]
    pub fn place<P: Puts<T>>(self, value: Box<T>) -> Name
        // A value that is placed in a room was put into a slot with the room's name.
        ensures name { result ≡ self.entry.name }
        ensures placed { P.placed value.value result }
    {
        let Room { kept, name } = self;
        let word = word_of(name.turn(), PRESENT);
        P::put(kept.into_claim(), Held { name, value }, word);
        name
    }
}

impl<'a, T: Drop> Drop for Room<'a, T> {
    fn drop(self) {
        let Self { kept, name } = self;
        let _ = kept.into_claim().put(None, word_of(name.turn(), FREE));
    }
}

// The room of a slot from which the value of this name was taken out. `None`: it was the last one, and the slot is
// retired.
#[inline(always)]
fn room_after<'a, T: Drop>(claim: Claim<'a, Option<Held<T>>>, name: Name) -> Option<Room<'a, T>>
    requires { (claim.right ≡ 2) × (claim.tag ≡ name.slot) }
    ensures { IfSome result (λ room. (room.name.slot ≡ name.slot) × (room.name.turn ≡ name.turn + 1)) }
{
    if name.turn() == u32::MAX {
        let _ = claim.put(None, vacant(name.turn()));
        return None;
    }
    let name = Name::at(name.slot(), name.turn() + 1);
    Some(Room {
        kept: Kept::new(claim),
        name,
    })
}

/// Tries once to claim the value of this name for writing.
#[inline(always)]
pub fn try_write<'a, T: Drop, P: Puts<T>>(
    slot: &'a Slot<T>,
    name: Name,
) -> Result<Writing<'a, T>, Miss>
    requires numbered { slot.now ≡ name.slot }
    ensures named { IfOk result (λ writing. writing.name ≡ name) }
    ensures stood { IfOk result (λ writing. P.stood writing.held.value.value name) }
{
    match try_claim::<T, P>(slot, name, word_of(name.turn(), TAKEN)) {
        Ok((claim, held)) => Ok(Writing { claim, held, name }),
        Err(miss) => Err(miss),
    }
}
