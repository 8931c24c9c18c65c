//! The pile: it looks first at the bag that was put last.
ghost use Rattle.std.specs.Prelude.{◌≡◌, ◌≢◌, ℕ, ◌+◌, ◌-◌, ◌*◌, ◌<◌, ◌≤◌, List, [], ◌++◌, IfOk, IfErr, OnErr, Some};
ghost use Rattle.std.specs.Prelude.{true, false, nat_lt, ◌&&◌, length, min, take, slice_get, vec_capacity};
ghost use Rattle.epoch_bags.specs.Stores.{AllExpired, PutsBag, FindsRoom, TakesBag, FindsBag, TakesAny};
ghost use Rattle.epoch_bags.specs.Queues.{first_occupied};
ghost use Rattle.tests_world.specs.Piles.{expired_count};

use epoch_bags::{Bag, BagStore, Epoch, MOST_BAGS, PutStep, SealedBag, TakeStep};
use epoch_cells::Fault;
use epoch_laws::Deferral;
use std::alloc::Global;

/// A pile of bags, the last one on top. A put takes one step. A collection goes down the pile once, one bag a step,
/// and takes those that are expired.
#[derive(Drop)]
pub struct Pile {
    capacity: usize,
    bags: Vec<SealedBag<Deferral>>,
    ghost some: { 0 < capacity },
    ghost most: { capacity ≤ 4096 },
    ghost room: { capacity ≤ vec_capacity bags },
    ghost within: { length bags.items ≤ capacity },
}

impl BagStore for Pile {
    type Job = Deferral;

    /// How many places the put has seen occupied.
    type Putting = usize;

    /// How many bags, from the bottom on, are still to be looked at.
    type Taking = usize;

    ghost queued = { λ pile. pile.bags.items };

    ghost capacity = { λ pile. pile.capacity };

    ghost occupied = { λ pile. first_occupied pile.capacity (length pile.bags.items) };

    ghost standing = { λ pile. first_occupied pile.capacity (length pile.bags.items) };

    ghost Claimed = { λ pile place. ⊥ };

    ghost Reserved = { λ pile place. ⊥ };

    ghost passed = { λ cursor. cursor };

    ghost has_room = { λ pile cursor. nat_lt cursor pile.capacity && nat_lt (length pile.bags.items) pile.capacity };

    ghost Reserves = { λ cursor place. ⊥ };

    ghost Claims = { λ cursor place. ⊥ };

    ghost puts_left = { λ capacity cursor. min 1 (capacity - cursor) };

    ghost takes_left = { λ capacity cursor. cursor };

    ghost ahead = { λ epoch pile cursor. expired_count epoch (take cursor pile.bags.items) };

    ghost PutMoves = { λ old new bag cursor step next. Unit {0} };

    ghost TakeMoves = { λ epoch old new hand cursor step next. Unit {0} };

    fn with_room(alloc: Global, bags: usize) -> Result<Pile, Fault> {
        match Vec::with_capacity(alloc, bags) {
            Ok(pile) => Ok(Pile {
                capacity: bags,
                bags: pile,
            }),
            Err(_) => Err(Fault::NoMemory),
        }
    }

    fn capacity(&self) -> usize {
        self.capacity
    }

    fn start_put(&self) -> usize {
        0
    }

    fn put_step(&mut self, cursor: &mut usize, seal: Epoch, held: &mut Bag<Deferral>) -> PutStep {
        if *cursor >= self.capacity {
            return PutStep::Full;
        }
        *cursor = self.capacity;
        if self.bags.len() >= self.capacity {
            return PutStep::Full;
        }
        self.bags.push_reserved(held.take().seal(seal));
        PutStep::Done
    }

    /// All bags are still to be looked at.
    fn start_take(&self) -> usize {
        self.bags.len()
    }

    fn take_step(
        &mut self,
        cursor: &mut usize,
        expiry: Epoch,
        hand: &mut SealedBag<Deferral>,
    ) -> TakeStep {
        let left = (*cursor).min(self.bags.len());
        if left == 0 {
            *cursor = 0;
            return TakeStep::Empty;
        }
        *cursor = left - 1;
        if self.bags[left - 1].is_expired(expiry) {
            *hand = self.bags.remove(left - 1);
            return TakeStep::Got;
        }
        if left == 1 {
            TakeStep::Empty
        } else {
            TakeStep::Again
        }
    }

    fn take_any(&mut self) -> Option<SealedBag<Deferral>> {
        self.bags.pop()
    }

    ghost use Rattle.epoch_bags.specs.Queues.{length-first_occupied};

    ghost place_for_each = { λ pile. length-first_occupied pile.capacity (length pile.bags.items) };
}
