//! What a store does with batches that wait, and with the rooms of values that came back.
ghost use Rattle.std.specs.Prelude.{ℕ, ◌≤◌, length};
ghost use Rattle.epoch_lend.specs.Grace.{PassesAll};

use crate::store::batch::{ClearBatch, SealedBatch};
use crate::store::piles::PLACES;
use crate::store::{LentRooms, Store, Waiting};
use epoch_lend::array::room::LentRoom;
use epoch_lend::array::slot::Returned;
use epoch_lend::domain::PostsSeen;
use epoch_lend::readers::posts::PostSet;
use epoch_lend::steps::{HasPinSteps, PinSteps};
use std::mem;
use std::sync::atomic::Ordering::SeqCst;

/// How many of the batches that wait one call tries at most.
pub const BATCHES_TRIED: usize = 4;

// After how many batches that go on waiting a call tries no more.
const MOST_IN_VAIN: usize = 2;

// What became of a batch that was tried.
enum Tried<'s, J: PostSet, T> {
    Marked(Waiting<'s, J, T>),
    // It waits on, until each post is unpinned, or pinned in this epoch or a later one.
    InVain(Waiting<'s, J, T>, u64),
    Clear(ClearBatch<'s, J, T>),
}

/// What a writer knows of the batches that wait, from the last time that it tried some.
#[derive(Drop)]
pub(crate) struct LastTry {
    // How many batches had left the store by then.
    gone: usize,
    // As long as no other one leaves, trying is in vain until each post is unpinned, or pinned in this epoch or a later
    // one.
    until: u64,
}

impl LastTry {
    /// Says that nothing is known.
    pub(crate) fn none() -> LastTry {
        LastTry { gone: 0, until: 0 }
    }
}

impl<'s, J: PostSet, T: Drop> Store<'s, J, T> {
    // Takes rooms of free cells for a writer that has none: those that another one left, or else those of the next
    // cells that no writer has taken yet. The list is empty if there are none.
    pub(crate) fn take_rooms(&self) -> LentRooms<'s, J, T> {
        match self.rooms.take() {
            Some(rooms) => rooms,
            None => self.fresh_rooms(),
        }
    }

    fn fresh_rooms(&self) -> LentRooms<'s, J, T> {
        let cells = self.cells.limit() + 1;
        if self.fresh.load(SeqCst) >= cells {
            return LentRooms::none(self.alloc);
        }
        let mut rooms = self.empty_list();
        let block = self.together.max(1);
        for _ in 0..cells {
            if rooms.len() > 0 || self.fresh.load(SeqCst) >= cells {
                break;
            }
            let first = self.fresh.fetch_add(block, SeqCst);
            for slot in first..first.saturating_add(block).min(cells) {
                if !self.cells.array().reach(slot, self.domain.posts()) {
                    // Its cells are looked at again.
                    self.loose.fetch_add(1, SeqCst);
                    return rooms;
                }
                if let Some(fresh) = self.cells.array().fresh_room(slot) {
                    self.keep_in(&mut rooms, fresh.found);
                }
            }
        }
        rooms
    }

    // Lets writers take all cells once more that are empty, if some were released that no list has.
    pub(crate) fn look_again(&self) {
        if self.loose.load(SeqCst) > 0 {
            self.loose.store(0, SeqCst);
            self.fresh.store(1, SeqCst);
        }
    }

    // An empty list, with memory for the rooms that a writer takes together, if there is some.
    fn empty_list(&self) -> LentRooms<'s, J, T> {
        match LentRooms::with_capacity(self.alloc, self.together.max(1)) {
            Ok(rooms) => rooms,
            Err(_) => LentRooms::none(self.alloc),
        }
    }

    // Adds a room to a list. If there is no memory for it, its cell is left to all; and if the cell has had its last
    // turn, no value is placed there any more.
    fn keep_in(&self, rooms: &mut LentRooms<'s, J, T>, room: LentRoom<'s, J, T>) {
        if !room.has_turn() {
            room.release();
            return;
        }
        if let Err(room) = rooms.keep(room) {
            self.let_loose(room);
        }
    }

    // Leaves a cell to all, which no list has.
    fn let_loose(&self, room: LentRoom<'s, J, T>) {
        room.release();
        self.loose.fetch_add(1, SeqCst);
    }

    // Leaves rooms for any writer's next values.
    pub(crate) fn leave_rooms(&self, rooms: LentRooms<'s, J, T>) {
        if rooms.len() == 0 {
            return;
        }
        if let Err(rooms) = self.rooms.put(rooms) {
            let mut rest = rooms;
            while let Some(room) = rest.next() {
                self.let_loose(room);
            }
        }
    }

    // Keeps a room among those of a writer, or leaves it for others if the writer has as many as it may have.
    #[inline(always)]
    pub(crate) fn keep_room(&self, rooms: &mut LentRooms<'s, J, T>, room: LentRoom<'s, J, T>) {
        if rooms.len() < self.together {
            self.keep_in(rooms, room);
        } else {
            self.leave_room(room);
        }
    }

    #[cold]
    #[inline(never)]
    fn leave_room(&self, room: LentRoom<'s, J, T>) {
        let mut alone = LentRooms::none(self.alloc);
        self.keep_in(&mut alone, room);
        self.leave_rooms(alone);
    }

    // Drops the values of a clear batch. Their rooms are a writer's own, up to as many as it may have, and else are
    // left for others. Returns how many values there were.
    pub(crate) fn drop_all(
        &self,
        clear: ClearBatch<'s, J, T>,
        own: &mut LentRooms<'s, J, T>,
    ) -> usize {
        let mut rest = clear;
        let mut dropped: usize = 0;
        let mut others = LentRooms::none(self.alloc);
        while let Some(
            Returned {
                value,
                name: _,
                room,
            },
        ) = rest.next_with_room()
        {
            drop(value);
            dropped = dropped.wrapping_add(1);
            if own.len() < self.together {
                self.keep_in(own, room);
                continue;
            }
            if others.len() == 0 || others.len() >= self.together {
                self.leave_rooms(mem::replace(&mut others, self.empty_list()));
            }
            self.keep_in(&mut others, room);
        }
        rest.finish();
        self.leave_rooms(others);
        dropped
    }

    // Tries some of the batches that wait, unless a look at the posts tells that it is in vain, as the last time.
    #[cold]
    #[inline(never)]
    pub(crate) fn try_some<S: PinSteps>(&self, last: &mut LastTry, rooms: &mut LentRooms<'s, J, T>)
    where
        J: HasPinSteps<S>,
    {
        let standing = self.waiting.len();
        if standing == 0 {
            return;
        }
        let gone = self.waiting.gone();
        let seen = self.domain().least_pinned::<S>();
        if gone == last.gone && seen.least < last.until {
            return;
        }
        let until = self.try_oldest::<S>(gone, standing, seen, rooms);
        *last = LastTry { gone, until };
    }

    // Tries some of the batches that wait, the oldest first: each that no pin from before can find any more is marked,
    // and the values of each that no guard may have are dropped. Returns the least epoch for which one waits on, or 0
    // if some went on.
    fn try_oldest<S: PinSteps>(
        &self,
        first: usize,
        standing: usize,
        seen: PostsSeen,
        rooms: &mut LentRooms<'s, J, T>,
    ) -> u64
    where
        J: HasPinSteps<S>,
        requires { (epoch : ℕ) → epoch ≤ seen.clock → epoch ≤ seen.least
            → PassesAll (S.did J.posts) epoch (length J.posts) }
    {
        let mut until = u64::MAX;
        let mut tried: usize = 0;
        let mut in_vain: usize = 0;
        let most = standing.min(BATCHES_TRIED);
        for step in 0..PLACES {
            if tried >= most || in_vain >= MOST_IN_VAIN {
                break;
            }
            let Some((waiting, rest)) = self.waiting.take_out(first.wrapping_add(step)) else {
                continue;
            };
            tried = tried.wrapping_add(1);
            match self.try_one::<S>(waiting, seen) {
                Tried::Marked(waiting) => {
                    until = 0;
                    self.waiting.put_back(rest, waiting);
                }
                Tried::InVain(waiting, epoch) => {
                    in_vain = in_vain.wrapping_add(1);
                    until = until.min(epoch);
                    self.waiting.put_back(rest, waiting);
                }
                Tried::Clear(clear) => {
                    until = 0;
                    self.waiting.remove(rest);
                    self.drop_all(clear, rooms);
                }
            }
        }
        // (another thread has those that weren't tried)
        if tried < most && in_vain < MOST_IN_VAIN {
            return 0;
        }
        until
    }

    // Marks the values of a batch, if the look at the posts shows that no pin from before can find them any more. Takes
    // them back, if they were marked, and no guard may have them.
    fn try_one<S: PinSteps>(&self, waiting: Waiting<'s, J, T>, seen: PostsSeen) -> Tried<'s, J, T>
    where
        J: HasPinSteps<S>,
        requires { (epoch : ℕ) → epoch ≤ seen.clock → epoch ≤ seen.least
            → PassesAll (S.did J.posts) epoch (length J.posts) }
    {
        match waiting {
            // The look has found a post that holds it back, so its own look would be in vain.
            Waiting::Sealed(batch) if batch.seal() > seen.least => {
                let epoch = batch.seal();
                Tried::InVain(Waiting::Sealed(batch), epoch)
            }
            Waiting::Sealed(batch) => self.settle(batch),
            Waiting::Ripening(ripening) => {
                let epoch = ripening.epoch();
                if epoch > seen.clock || epoch > seen.least {
                    return Tried::InVain(Waiting::Ripening(ripening), epoch);
                }
                let batch = ripening.mark::<S>(self.cells).seal(self.domain().posts());
                if seen.least == u64::MAX {
                    return self.settle(batch);
                }
                // Pins that begin from now on mustn't hold it back.
                if batch.seal() > seen.clock {
                    self.domain().tick::<S>();
                }
                Tried::Marked(Waiting::Sealed(batch))
            }
        }
    }

    fn settle(&self, batch: SealedBatch<'s, J, T>) -> Tried<'s, J, T> {
        match batch.take_back(self.domain().posts()) {
            Ok(clear) => Tried::Clear(clear),
            Err(batch) => {
                let epoch = batch.seal();
                Tried::InVain(Waiting::Sealed(batch), epoch)
            }
        }
    }
}
