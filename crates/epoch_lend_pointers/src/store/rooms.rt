//! Free cells of one owner, for its next values.
ghost use Rattle.std.specs.Prelude.{◌≡◌, ◌+◌, length, IfErr, IfSome};

use crate::store::piles::Abandon;
use epoch_lend::array::room::LentRoom;
use epoch_lend::readers::posts::PostSet;
use std::alloc::{AllocError, Global};

/// Rooms of cells, which no other caller can use. A cell whose room is dropped takes no value any more.
#[derive(Drop)]
pub(crate) struct LentRooms<'s, J: PostSet, T> {
    list: Vec<LentRoom<'s, J, T>>,
}

impl<'s, J: PostSet, T> LentRooms<'s, J, T> {
    /// Makes a list with no room in it.
    pub(crate) fn none(alloc: Global) -> LentRooms<'s, J, T> {
        LentRooms {
            list: Vec::new(alloc),
        }
    }

    /// Makes a list with memory for this many rooms. It fails only if memory is refused.
    pub(crate) fn with_capacity(
        alloc: Global,
        capacity: usize,
    ) -> Result<LentRooms<'s, J, T>, AllocError> {
        let list = Vec::with_capacity(alloc, capacity)?;
        Ok(LentRooms { list })
    }

    /// Returns how many there are.
    #[inline(always)]
    pub(crate) fn len(&self) -> usize {
        self.list.len()
    }

    /// Adds a room. It is handed back if there is no memory for it.
    #[inline(always)]
    pub(crate) fn keep(&mut self, room: LentRoom<'s, J, T>) -> Result<(), LentRoom<'s, J, T>>
        ensures { IfErr result (λ back. back ≡ room.entry) }
    {
        match self.list.push(room) {
            Ok(()) => Ok(()),
            Err(failed) => Err(failed.value),
        }
    }

    /// Leaves all of its cells to all callers, empty.
    pub(crate) fn release(self) {
        let mut rest = self;
        while let Some(room) = rest.next() {
            room.release();
        }
    }

    /// Takes a room out of the list.
    #[inline(always)]
    pub(crate) fn next(&mut self) -> Option<LentRoom<'s, J, T>>
        ensures { IfSome result (λ room. length self.new.list.items + 1 ≡ length self.old.list.items) }
    {
        self.list.pop()
    }
}

impl<'s, J: PostSet, T> Abandon for LentRooms<'s, J, T> {
    fn abandon(self) {
        self.release();
    }
}
