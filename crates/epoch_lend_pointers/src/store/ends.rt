//! The end of a store.

use crate::store::batch::{ClearBatch, SealedBatch};
use crate::store::lent_cells::LentCells;
use crate::store::piles::{Pile, Piles};
use crate::store::{LentRooms, Store, Waiting};
use epoch_lend::array::cells::SlotTurn;
use epoch_lend::readers::posts::{PostSet, Posts};

impl<'s, J: PostSet, T: Drop> Store<'s, J, T> {
    /// Drops the values that wait, and those that are still in the cells, and leaves each cell empty, so that its
    /// memory is freed when the cells are dropped. Returns how many values there were.
    ///
    /// No call gets a value of the store any more. While a guard of the domain is out, values that it may have are left
    /// where they are. Their memory is never freed.
    pub fn end(self) -> usize {
        let Store {
            domain,
            cells,
            number: _,
            none: _,
            waiting,
            rooms,
            together: _,
            fresh: _,
            loose: _,
            alloc: _,
        } = self;
        let posts = domain.posts();
        let mut dropped = end_all(waiting, posts);
        for slot in 0..cells.array().reached() {
            if let Some(spot) = cells.array().shown(slot) {
                dropped = dropped.wrapping_add(drop_at(cells, spot, posts));
            }
        }
        release_all(rooms);
        dropped
    }
}

// Drops the values that wait, but for those that a guard may have. Returns how many it dropped.
fn end_all<J: PostSet, T: Drop>(waiting: Piles<Waiting<'_, J, T>>, posts: &Posts<J>) -> usize {
    let mut dropped: usize = 0;
    let mut places = waiting.into_places();
    while let Some(place) = places.pop() {
        if let Some(pile) = place.into_inner() {
            dropped = dropped.wrapping_add(end_pile(pile, posts));
        }
    }
    places.destroy_empty();
    dropped
}

fn end_pile<J: PostSet, T: Drop>(pile: Pile<Waiting<'_, J, T>>, posts: &Posts<J>) -> usize {
    match pile {
        Pile::One(waiting) => end_one(waiting, posts),
        Pile::Many(others) => {
            let mut dropped: usize = 0;
            let mut many = others;
            while let Some(waiting) = many.pop_front() {
                dropped = dropped.wrapping_add(end_one(waiting, posts));
            }
            many.destroy_empty();
            dropped
        }
    }
}

fn end_one<J: PostSet, T: Drop>(waiting: Waiting<'_, J, T>, posts: &Posts<J>) -> usize {
    match waiting {
        // (its values aren't marked, and are dropped with those that are still in the cells)
        Waiting::Ripening(ripening) => {
            ripening.into_retired().abandon();
            0
        }
        Waiting::Sealed(batch) => end_batch(batch, posts),
    }
}

fn end_batch<J: PostSet, T: Drop>(batch: SealedBatch<'_, J, T>, posts: &Posts<J>) -> usize {
    match batch.take_back(posts) {
        Ok(clear) => drop_each(clear),
        Err(batch) => {
            batch.abandon();
            0
        }
    }
}

// Drops the values that came back, and leaves their cells empty.
fn drop_each<J: PostSet, T: Drop>(clear: ClearBatch<'_, J, T>) -> usize {
    let mut dropped: usize = 0;
    let mut rest = clear;
    while let Some((value, _)) = rest.next() {
        drop(value);
        dropped = dropped.wrapping_add(1);
    }
    rest.finish();
    dropped
}

// Drops the value at this spot, if it is there and no guard is out. Returns how many it dropped.
fn drop_at<J: PostSet, T: Drop>(
    cells: &LentCells<J, T>,
    spot: SlotTurn,
    posts: &Posts<J>,
) -> usize {
    let Some(marked) = cells.mark(spot) else {
        return 0;
    };
    match marked.found.take_back(posts) {
        Ok(returned) => {
            drop(returned.value);
            returned.room.release();
            1
        }
        Err(removal) => {
            removal.abandon();
            0
        }
    }
}

// Leaves the cells empty whose rooms wait for a writer.
fn release_all<J: PostSet, T>(rooms: Piles<LentRooms<'_, J, T>>) {
    let mut places = rooms.into_places();
    while let Some(place) = places.pop() {
        if let Some(pile) = place.into_inner() {
            pile.abandon();
        }
    }
}
