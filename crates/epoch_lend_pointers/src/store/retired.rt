//! Retired values: they are marked once no guard from before can find them, and wait then for guards that have them.
ghost use Rattle.std.specs.Prelude.{◌≡◌, ◌≤◌, ◌<◌, ◌++◌, ◌∷◌, [], length, IfOk, vec_len, vec_capacity};
ghost use Rattle.epoch_lend.specs.Grace.{PassesAll};
ghost use Rattle.epoch_lend.specs.Grace.PinStep.{Ticks};

use crate::store::batch::Batch;
use crate::store::lent_cells::LentCells;
use epoch_lend::array::cells::SlotTurn;
use epoch_lend::domain::Domain;
use epoch_lend::readers::posts::PostSet;
use epoch_lend::steps::{HasPinSteps, PinSteps};
use std::alloc::{AllocError, Global};

/// How many values are retired together.
pub const RETIRED_TOGETHER: usize = 64;

// What `Retired` has in a box.
struct Lists<'s, J: PostSet, T> {
    spots: Vec<SlotTurn>,
    // Room for the removals, taken beforehand: so no value is kept back because memory is refused later.
    batch: Batch<'s, J, T>,
}

/// Where values are that were retired, and will be marked together. It can't be dropped, unless it has no value.
pub struct Retired<'s, J: PostSet, T> {
    // In a box, since it is moved from hand to hand.
    lists: Box<Lists<'s, J, T>>,
    ghost for_spots: { 64 ≤ vec_capacity lists.value.spots },
    ghost for_removals: { 64 ≤ vec_capacity lists.value.batch.removals },
    ghost few: { vec_len lists.value.spots ≤ 64 },
    ghost unmarked: { vec_len lists.value.batch.removals ≡ 0 },
}

/// Retired values, which were out of reach when the clock came to this epoch. They ripen until each pin that began
/// before is over.
pub struct Ripening<'s, J: PostSet, T> {
    epoch: u64,
    retired: Retired<'s, J, T>,
}

impl<'s, J: PostSet, T> Retired<'s, J, T> {
    /// Makes an empty list, with room for [`RETIRED_TOGETHER`] values. It fails only if memory is refused.
    pub fn new(alloc: Global) -> Result<Retired<'s, J, T>, AllocError>
        ensures { IfOk result (λ retired. retired.lists.value.spots.items ≡ []) }
    {
        let spots = Vec::with_capacity(alloc, RETIRED_TOGETHER)?;
        let batch = Batch::with_capacity(alloc, RETIRED_TOGETHER)?;
        match Box::new(alloc, Lists { spots, batch }) {
            Ok(lists) => Ok(Retired { lists }),
            Err(failed) => {
                let Lists { spots: _, batch } = failed.value;
                batch.finish();
                Err(AllocError)
            }
        }
    }

    /// Returns how many there are.
    #[inline(always)]
    pub fn len(&self) -> usize
        ensures { result ≡ vec_len self.now.lists.value.spots }
    {
        self.lists.spots.len()
    }

    /// Adds the value at this spot. There must be fewer than [`RETIRED_TOGETHER`].
    #[inline(always)]
    pub fn keep(&mut self, spot: SlotTurn)
        requires { vec_len self.old.lists.value.spots < 64 }
        ensures { self.new.lists.value.spots.items ≡ self.old.lists.value.spots.items ++ spot ∷ [] }
    {
        self.lists.spots.push_reserved(spot);
    }

    /// Ends a list that has no value.
    pub fn finish(self)
        requires { vec_len self.lists.value.spots ≡ 0 }
    {
        self.abandon();
    }

    /// Gives the list up. Its values stay in their cells, where the end of their store finds them.
    pub fn abandon(self) {
        let Retired { lists } = self;
        let Lists { spots: _, batch } = Box::into_inner(lists);
        batch.finish();
    }
}

impl<'s, J: PostSet, T> Ripening<'s, J, T> {
    /// Moves the clock on, and lets the values wait with the epoch that begins. They must be out of reach.
    pub fn begin<S: PinSteps>(domain: &Domain<J>, retired: Retired<'s, J, T>) -> Ripening<'s, J, T>
    where
        J: HasPinSteps<S>,
        ensures ticks { S.did J.posts (Ticks result.epoch) }
        ensures values { result.retired ≡ retired.entry }
    {
        Ripening {
            epoch: domain.tick::<S>(),
            retired,
        }
    }

    /// Returns the epoch that began when the values were out of reach.
    #[inline(always)]
    pub fn epoch(&self) -> u64
        ensures { result ≡ self.now.epoch }
    {
        self.epoch
    }

    /// Returns the values, which wait with no epoch any more.
    pub fn into_retired(self) -> Retired<'s, J, T>
        ensures { result ≡ self.entry.retired }
    {
        let Ripening { epoch: _, retired } = self;
        retired
    }

    /// Marks the values, so that no look finds them any more. After the clock had come to the epoch, a look at each
    /// post must have found it unpinned, or pinned in the epoch or a later one: so each pin is over that began when
    /// the values were in reach.
    pub fn mark<S: PinSteps>(self, cells: &'s LentCells<J, T>) -> Batch<'s, J, T>
    where
        J: HasPinSteps<S>,
        requires { PassesAll (S.did J.posts) self.epoch (length J.posts) }
    {
        let Ripening { epoch: _, retired } = self;
        let Retired { lists } = retired;
        let Lists { spots, batch } = Box::into_inner(lists);
        let mut removals = batch;
        for position in 0..spots.len() {
            if let Some(marked) = cells.mark(spots[position]) {
                removals.push(marked.found);
            }
        }
        removals
    }
}
