//! Places that get a value once. Every look at a place lends the same value, for as long as the places are borrowed.
ghost use Rattle.std.specs.Prelude.{◌≡◌, ◌<◌, ◌^◌, ◌∷◌, [], Some, length, map, IfSome, IfErr};
ghost use Rattle.std.specs.List.{slice_get};
ghost use Rattle.epoch_lend.specs.Blocks.{places_in};

use crate::cells::block::Block;
use crate::cells::sight::Sight;
use crate::cells::turns::{CellAt, Place, Space, TurnClaim, Turns, abandon};
use crate::cells::word::{claimed_word, removed_word, shown_word, vacant_word};
use crate::post::{Pin, Post, PostGuard};
use crate::watch::Watch;
use std::alloc::{AllocError, Global};
use std::slice;

/// A place for one value. Its own guard is out as long as the place is there, so whoever borrows it may look at it.
#[derive(Drop)]
pub struct OncePlace<T> {
    turns: Turns<T>,
    post: Post,
    pin: Pin,
    guard: PostGuard,
    pub ghost of_turns: { turns.posts ≡ post.log ∷ [] },
    pub ghost of_post: { (pin.log ≡ post.log) × (pin.state ≡ post.state) },
    pub ghost all_here: { (guard.atom ≡ pin.atom) × (guard.count ≡ 2 ^ 63) × (guard.log ≡ post.log) },
}

/// A fixed number of places, each of which gets a value once. Threads share it by `&`. Dropped, it drops the values.
pub struct SetOnce<T> {
    places: Vec<OncePlace<T>>,
    base: CellAt<T>,
    block: Block<Space<T>, Global>,
    alloc: Global,
    pub ghost laid: { map (λ p. p.turns.at) places.items ≡ places_in base block.stride (length places.items) },
    pub ghost of_block: { (block.heap ≡ alloc) × (block.at ≡ base) × (block.taken ≡ length places.items)
        × (block.left ≡ 0) },
}

impl<T> OncePlace<T> {
    // Makes a place with no value.
    fn new(place: Place<Space<T>>) -> OncePlace<T>
        ensures { result.turns.at ≡ place.at }
    {
        let (post, unpinned) = Post::new();
        let turns = Turns::new(place, slice::from_ref(&post));
        let (pin, guard) = post.pin(unpinned, 0);
        OncePlace {
            turns,
            post,
            pin,
            guard,
        }
    }

    // Sets the value, by one exchange and one store. It is handed back if another caller sets one or has set one.
    fn set(&self, at: CellAt<T>, value: T) -> Result<(), T>
        requires { at ≡ self.now.turns.at }
        ensures { IfErr result (λ back. back ≡ value) }
    {
        let vacant = vacant_word(0);
        let (found, claim) = self.turns.claim(at, 0, vacant, claimed_word(0));
        if found != vacant {
            claim.done();
            return Err(value);
        }
        let _ = self.turns.show(at, claim.fill(value), 0, shown_word(0));
        Ok(())
    }

    // Ends the place, which nobody shares any more. Returns its memory, and the value that it had.
    fn end(self, at: CellAt<T>) -> (Option<TurnClaim<Space<T>>>, Option<T>)
        requires { at ≡ self.turns.at }
        ensures { IfSome result.0 (λ claim. (claim.right ≡ 1) × (claim.at ≡ at)) }
    {
        let OncePlace {
            turns,
            post,
            pin,
            guard,
        } = self;
        let _ = post.unpin(pin, guard);
        let shown = shown_word(0);
        let (found, which) = turns.find(at, 0, shown);
        if found != shown {
            which.done();
            let (word, claim) = turns.end(at);
            if word != vacant_word(0) {
                return (None, None);
            }
            return (Some(claim), None);
        }
        let name = which.name();
        let (again, marked, vacancy) = turns.mark(&name, at, shown, removed_word(0));
        if again != shown {
            marked.done();
            vacancy.done();
            return (None, None);
        }
        let mut watch = Watch::new();
        let marked = watch.add(marked);
        let (is_clear, mut watch) = watch.unpinned(slice::from_ref(&post));
        if !is_clear {
            abandon(marked, vacancy);
            return (None, None);
        }
        let (claim, value) = vacancy.reclaim(watch.collect(marked)).take();
        turns.release(at, claim, 1, vacant_word(1));
        let (word, claim) = turns.end(at);
        if word != vacant_word(1) {
            return (None, Some(value));
        }
        (Some(claim), Some(value))
    }
}

impl<T> SetOnce<T> {
    /// Makes this many places. It fails only if memory is refused.
    pub fn new(alloc: Global, count: usize) -> Result<SetOnce<T>, AllocError> {
        let mut places = Vec::with_capacity(alloc, count)?;
        let (base, mut block) = Block::new(&alloc, count)?;
        for position in 0..count {
            let at = block.place(base, position);
            let (rest, place) = block.take(at);
            block = rest;
            places.push(OncePlace::new(place)).map_err(|_| AllocError)?;
        }
        Ok(SetOnce {
            places,
            base,
            block,
            alloc,
        })
    }

    // Where the value of this place lies.
    #[inline(always)]
    fn place_of(&self, index: usize) -> CellAt<T>
        requires { index < length self.now.places.items }
        ensures { slice_get (map (λ p. p.turns.at) self.now.places.items) index ≡ Some result }
    {
        self.block.place(self.base, index)
    }

    /// Lends the value of this place, by one plain load. `None`: it has none yet, or there is no such place.
    #[inline(always)]
    pub fn get(&self, index: usize) -> Option<Sight<'_, T>>
        // Every look at a place lends the value that was set there, of which there is one: its name is that of turn 0.
        ensures place { IfSome result (λ sight. slice_get (map (λ p. p.turns.log) self.now.places.items) index
            ≡ Some sight.name.log) }
        ensures turn { IfSome result (λ sight. sight.name.turn ≡ 0) }
    {
        let place = self.places.get(index)?;
        place.turns.sight(self.place_of(index), 0, &place.guard)
    }

    /// Sets the value of this place, by an exchange and a store. It is handed back if one is there, or no such place.
    pub fn set(&self, index: usize, value: T) -> Result<(), T>
        ensures { IfErr result (λ back. back ≡ value) }
    {
        if index >= self.places.len() {
            return Err(value);
        }
        self.places[index].set(self.place_of(index), value)
    }
}

impl<T: Drop> Drop for SetOnce<T> {
    fn drop(self) {
        let Self {
            places,
            base,
            block,
            alloc,
        } = self;
        let count = places.len();
        let (mut places, mut block) = (places, block);
        'places: while let Some(place) = places.pop() {
            let index = places.len();
            let (claim, value) = place.end(block.place(base, index));
            drop(value);
            match claim {
                Some(claim) => block = block.put_back(index, claim),
                None => return,
            }
        }
        block.free(&alloc, base, count);
    }
}

unsafe impl<T: Send + Sync> Send for OncePlace<T> {}

unsafe impl<T: Send + Sync> Sync for OncePlace<T> {}

unsafe impl<T: Send + Sync> Send for SetOnce<T> {}

unsafe impl<T: Send + Sync> Sync for SetOnce<T> {}
