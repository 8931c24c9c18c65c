//! One cell of an array, which holds one value after another, each at a turn of its own.
ghost use Rattle.std.specs.Prelude.{◌≡◌, ◌+◌, ◌*◌, ◌≤◌, ◌++◌, [], Some, map, IfSome, IfOk, IfErr};
ghost use Rattle.std.specs.List.{slice_get};
ghost use Rattle.epoch_lend.specs.Posts.{logs_of};
ghost use Rattle.epoch_lend.specs.Loans.{Within, AreShown};
ghost use Rattle.epoch_lend.specs.Watching.{AreWatched};
ghost use Rattle.epoch_lend.specs.Turning.{Awaits, turn_word, removed};
ghost use Rattle.epoch_lend.specs.declared.cells.turns.TheConstants.{GREATEST_TURN};

use crate::array::cells::LendingCells;
use crate::array::room::LentRoom;
use crate::cells::turns::{
    CellAt, GREATEST_TURN, Place, Space, TurnClaim, TurnName, Turns, Vacancy, abandon,
};
use crate::cells::word::{claimed_word, removed_word, shown_word, turn_of, vacant_word};
use crate::lending::Marked;
use crate::readers::posts::{Of, PostSet, Posts};
use crate::watch::Watch;
use std::marker::PhantomData;

/// A cell whose values are lent to readers pinned at the posts of a set. Each value has a turn of its own, and no turn
/// comes twice. Where its values lie is known to the array that it is of.
#[derive(Drop)]
pub struct LentSlot<J: PostSet, T> {
    pub(crate) turns: Turns<T>,
    set: Of<J>,
    pub ghost of_posts: { turns.posts ≡ logs_of J.posts },
}

/// A value that a mark took out of its slot, with what was lent of it, and its name.
///
/// It can't be dropped: its value comes back, by [`SlotRemoval::take`] or [`SlotRemoval::take_back`], and only once; or
/// it stays where it is after an end, by [`SlotRemoval::abandon`].
pub struct SlotRemoval<'c, J: PostSet, T> {
    cells: &'c LendingCells<J, T>,
    slot: &'c LentSlot<J, T>,
    index: usize,
    position: usize,
    pub marked: Marked<T>,
    vacancy: Vacancy<T>,
    pub name: TurnName<T>,
    turn: u64,
    pub ghost rights: { (marked.right ≡ 1) × (vacancy.right ≡ 1) },
    pub ghost alike: { (vacancy.value ≡ marked.value) × (vacancy.lifetime ≡ marked.lifetime) },
    pub ghost of_slot: { (vacancy.state ≡ slot.now.turns.state) × (vacancy.at ≡ slot.now.turns.value) },
    pub ghost of_turn: { (vacancy.word ≡ turn_word (removed turn)) × (turn ≤ GREATEST_TURN) },
    pub ghost lent: { Within (logs_of J.posts) marked.loans },
    pub ghost named: { (name.log ≡ slot.now.turns.log) × (name.turn ≡ turn) × (name.value ≡ marked.value) },
    pub ghost of_cells: { slice_get (map (λ s. s.turns.log) cells.now.slots.items) index
        ≡ Some slot.now.turns.log },
    pub ghost of_place: { slice_get (map (λ s. s.turns.at) cells.now.slots.items) index
        ≡ Some slot.now.turns.at },
}

/// A value that came back, and its name. The room is that of the cell that it was in.
#[derive(Drop)]
pub struct Returned<'c, J: PostSet, T> {
    pub value: T,
    pub name: TurnName<T>,
    pub room: LentRoom<'c, J, T>,
    pub ghost named: { value ≡ name.value },
    pub ghost of_room: { room.slot.now.turns.log ≡ name.log },
}

impl<J: PostSet, T> LentSlot<J, T> {
    /// Makes an empty cell at turn 0, whose values lie in this place.
    pub(crate) fn new(place: Place<Space<T>>, posts: &Posts<J>) -> LentSlot<J, T>
        ensures { result.turns.at ≡ place.at }
    {
        let turns = Turns::new(place, posts.as_slice());
        let set = Of(PhantomData);
        LentSlot { turns, set }
    }

    // Claims the cell at its turn, if it is empty and not past `last_turn`, by one plain load and one exchange.
    pub(crate) fn claim(&self, at: CellAt<T>, last_turn: u64) -> Option<(u64, TurnClaim<T>)>
        requires { at ≡ self.now.turns.at }
        ensures of_place { IfSome result (λ gained. (gained.1.right ≡ 1) × (gained.1.state ≡ self.now.turns.state)
            × (gained.1.at ≡ self.now.turns.value)) }
        ensures of_turn { IfSome result (λ gained. Awaits gained.0 gained.1.word × (gained.0 ≤ GREATEST_TURN)) }
        ensures within { IfSome result (λ gained. gained.0 ≤ last_turn) }
    {
        let (found, which) = self.turns.find(at, 0, 2);
        which.done();
        let turn = turn_of(found);
        let vacant = vacant_word(turn);
        if found != vacant || turn > last_turn || turn > GREATEST_TURN {
            return None;
        }
        let (again, claim) = self.turns.claim(at, turn, vacant, claimed_word(turn));
        if again != vacant {
            claim.done();
            return None;
        }
        Some((turn, claim))
    }

    /// Marks the value of this turn, by a plain load and one exchange, so that no look finds it from then on. The
    /// caller that marks it gets what was lent of it, and no other caller does. `None`: the cell has no value of this
    /// turn. It is this one of these cells, and others know it under this position.
    pub(crate) fn mark<'c>(
        &'c self,
        at: CellAt<T>,
        turn: u64,
        cells: &'c LendingCells<J, T>,
        index: usize,
        position: usize,
    ) -> Option<SlotRemoval<'c, J, T>>
        requires at { at ≡ self.now.turns.at }
        requires of_cells { slice_get (map (λ s. s.turns.log) cells.now.slots.items) index
            ≡ Some self.now.turns.log }
        requires of_place { slice_get (map (λ s. s.turns.at) cells.now.slots.items) index
            ≡ Some self.now.turns.at }
        ensures { IfSome result (λ removal. (removal.name.log ≡ self.now.turns.log) × (removal.name.turn ≡ turn)) }
    {
        if turn > GREATEST_TURN {
            return None;
        }
        let shown = shown_word(turn);
        let (found, which) = self.turns.find(at, turn, shown);
        if found != shown {
            which.done();
            return None;
        }
        let name = which.name();
        let (again, marked, vacancy) = self.turns.mark(&name, at, shown, removed_word(turn));
        if again != shown {
            marked.done();
            vacancy.done();
            return None;
        }
        Some(SlotRemoval {
            cells,
            slot: self,
            index,
            position,
            marked,
            vacancy,
            name,
            turn,
        })
    }

    // Ends the cell, which nobody shares any more, and returns the room of its place. `None`: a value is in it, or room
    // that was taken has not come back.
    pub(crate) fn end(self, at: CellAt<T>) -> Option<TurnClaim<Space<T>>>
        requires { at ≡ self.turns.at }
        ensures { IfSome result (λ claim. (claim.right ≡ 1) × (claim.at ≡ at)) }
    {
        let Self { turns, set: _ } = self;
        let (word, claim) = turns.end(at);
        if word != vacant_word(turn_of(word)) {
            return None;
        }
        Some(claim)
    }
}

impl<'c, J: PostSet, T> SlotRemoval<'c, J, T> {
    /// Has its loans watched, too. No post may have been looked at before.
    pub fn watched(self, watch: &mut Watch) -> SlotRemoval<'c, J, T>
        requires { watch.old.seen ≡ [] }
        ensures watched { (watch.new.loans ≡ self.entry.marked.loans ++ watch.old.loans) × (watch.new.seen ≡ []) }
        ensures same { (result.marked ≡ self.entry.marked) × (result.name ≡ self.entry.name) }
    {
        let mut removal = self;
        removal.marked = watch.add(removal.marked);
        removal
    }

    /// Looks at each post once. If none is pinned, no guard has the value, and it comes back. Else the removal does.
    pub fn take_back(self, posts: &Posts<J>) -> Result<Returned<'c, J, T>, SlotRemoval<'c, J, T>>
        // A removal gives its value back alone only if each post was seen unpinned after the mark. Otherwise the
        // removal comes back. What comes back has the removal's name.
        ensures back { IfOk result (λ back. back.name ≡ self.entry.name) }
        ensures again { IfErr result (λ removal. removal.name ≡ self.entry.name) }
    {
        let mut watch = Watch::new();
        let removal = self.watched(&mut watch);
        let (is_clear, watch) = watch.unpinned(posts.as_slice());
        if !is_clear {
            return Err(removal);
        }
        let mut watch = watch;
        Ok(removal.take(&mut watch))
    }

    /// Takes the value out of its slot. The watch must have seen that each guard with a loan is over.
    pub fn take(self, watch: &mut Watch) -> Returned<'c, J, T>
        requires watched { AreWatched self.marked.loans watch.old.loans }
        requires shown { AreShown watch.old.seen watch.old.loans }
        ensures name { result.name ≡ self.entry.name }
        ensures same { watch.new ≡ watch.old }
    {
        let SlotRemoval {
            cells,
            slot,
            index,
            position,
            marked,
            vacancy,
            name,
            turn,
        } = self;
        let all = watch.collect(marked);
        let (claim, value) = vacancy.reclaim(all).take();
        let room = LentRoom {
            cells,
            slot,
            index,
            position,
            next_turn: turn + 1,
            claim,
        };
        Returned { value, name, room }
    }

    /// Gives the value up where it is: nothing drops it any more. Only an end of a store does this.
    pub fn abandon(self) {
        let SlotRemoval {
            cells: _,
            slot: _,
            index: _,
            position: _,
            marked,
            vacancy,
            name: _,
            turn: _,
        } = self;
        abandon(marked, vacancy);
    }
}

unsafe impl<J: PostSet, T: Send + Sync> Send for LentSlot<J, T> {}

unsafe impl<J: PostSet, T: Send + Sync> Sync for LentSlot<J, T> {}
