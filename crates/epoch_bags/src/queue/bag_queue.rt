//! The plain store: a queue of bags with a bound, which puts and takes in one step each.
ghost use Rattle.std.specs.Prelude.{◌≡◌, ◌≢◌, ℕ, ◌+◌, ◌-◌, ◌*◌, ◌<◌, ◌≤◌, ◌↔◌, List, [], ◌∷◌, ◌++◌, Option, None, Some};
ghost use Rattle.std.specs.Prelude.{length, IfOk, IfErr, IsErr, OnOk, OnErr, IsTrue, nat_lt, ◌&&◌, true, false, min};
ghost use Rattle.std.specs.Prelude.{slice_get, vec_len, vec_capacity};
ghost use Rattle.std.specs.Fn.{FnReturnsAt};
ghost use Rattle.epoch_bags.specs.Bags.{Sealed, IsExpired};
ghost use Rattle.epoch_bags.specs.Stores.{AllExpired, PutsBag, FindsRoom, PutsJobs, TakesBag, TakesExpired, FindsBag};
ghost use Rattle.epoch_bags.specs.Stores.{TakesAny};
ghost use Rattle.epoch_bags.specs.Queues.{first_occupied, first_expired, PopsFrontWhere};

use super::size::tell_size;
use crate::{Bag, BagStore, Epoch, MOST_BAGS, PutStep, SealedBag, TakeStep};
use epoch_cells::Fault;
use std::alloc::Global;
use std::collections::VecDeque;
use std::marker::Model;

/// A queue of bags, the oldest first. The first places are those that are occupied.
pub struct BagQueue<J> {
    capacity: usize,
    bags: VecDeque<SealedBag<J>>,
    // Memory for two bags, which are never put there. The drop looks at it to be told that bags fit in memory.
    two: Vec<Option<SealedBag<J>>>,
    ghost room: { vec_len two + 2 ≤ vec_capacity two },
}

impl<J> Model for BagQueue<J> {
    ghost use Rattle.std.specs.Prelude.{◌<◌, ◌≤◌, length};
    ghost use Rattle.std.specs.VecDeque.{deque_capacity};
    ghost use Rattle.epoch_bags.specs.Queues.{Bounded};

    ghost Value = { Bounded J };

    ghost view = { λ a. record { capacity = a.capacity; bags = a.bags.items } };

    ghost invariant = { λ a. record {
      some : 0 < a.capacity;
      most : a.capacity ≤ 4096;
      room : a.capacity ≤ deque_capacity a.bags;
      within : length a.bags.items ≤ a.capacity;
    } };
}

impl<J: Drop> Drop for BagQueue<J> {
    /// Drops the bags in it; their jobs are not called.
    fn drop(self) {
        let BagQueue {
            capacity: _,
            bags,
            mut two,
        } = self;
        two.push_reserved(None);
        two.push_reserved(None);
        tell_size(two.as_slice());
        drop(two);
        drop(bags);
    }
}

impl<J: Drop> BagQueue<J> {
    /// Makes an empty queue for `capacity` bags, from 1 to [`MOST_BAGS`].
    ///
    /// `NoMemory`: an allocation was refused, and nothing was made.
    pub fn new(alloc: Global, capacity: usize) -> Result<BagQueue<J>, Fault>
        requires some { 0 < capacity }
        requires most { capacity ≤ MOST_BAGS }
        ensures empty { IfOk result (λ queue. queue.bags ≡ []) }
        ensures capacity { IfOk result (λ queue. queue.capacity ≡ capacity) }
        ensures no_memory { IfErr result (λ fault. fault ≡ Fault.NoMemory) }
    {
        let Ok(two) = Vec::with_capacity(alloc, 2) else {
            return Err(Fault::NoMemory);
        };
        let Ok(bags) = VecDeque::with_capacity(alloc, capacity) else {
            two.destroy_empty();
            return Err(Fault::NoMemory);
        };
        Ok(BagQueue {
            capacity,
            bags,
            two,
        })
    }

    /// Returns whether it has no bag.
    pub fn is_empty(&self) -> bool
        ensures { IsTrue result ↔ (self.now.bags ≡ []) }
    {
        self.bags.is_empty()
    }

    /// Puts `bag` behind the others. `Err`: the queue is full, and stays as it was; the bag comes back.
    pub fn push(&mut self, bag: SealedBag<J>) -> Result<(), SealedBag<J>>
        // A queue of bags pushes a bag behind the others, and is full exactly at its capacity. It pops the front
        // exactly when the condition holds for the front.
        ensures full { IsErr result ↔ (self.old.capacity ≤ length self.old.bags) }
        ensures ok { OnOk result (self.new.bags ≡ self.old.bags ++ bag ∷ []) }
        ensures err { OnErr result (self.new ≡ self.old) }
        ensures handed_back { IfErr result (λ back. back ≡ bag) }

        ensures capacity { self.new.capacity ≡ self.old.capacity }
    {
        if self.bags.len() >= self.capacity {
            return Err(bag);
        }
        self.bags.push_back_reserved(bag);
        Ok(())
    }

    /// Takes the front out, if there is one and the condition holds of it. Otherwise nothing changes.
    pub fn try_pop_if<F: Fn(&SealedBag<J>) -> bool + Drop>(
        &mut self,
        condition: F,
    ) -> Option<SealedBag<J>>
        requires { F.IsAlwaysCallable condition }
        ensures front { PopsFrontWhere (FnReturnsAt F.Fn condition) self.old.bags result self.new.bags }
        ensures capacity { self.new.capacity ≡ self.old.capacity }
    {
        let holds = match self.bags.front() {
            Some(bag) => condition(bag),
            None => false,
        };
        if holds { self.bags.pop_front() } else { None }
    }
}

/// Seals what is held and puts it after the other bags.
#[inline(never)]
fn push_held<J: Default + Drop>(queue: &mut BagQueue<J>, seal: Epoch, held: &mut Bag<J>)
    requires { length queue.old.bags < queue.old.capacity }
    ensures bag { PutsJobs seal.number queue.old.bags held.old queue.new.bags held.new }
    ensures capacity { queue.new.capacity ≡ queue.old.capacity }
{
    // `Bag::seal` would ask of each caller that a sealed bag's size is in range, which a generic `J` leaves open.
    queue.bags.push_back_reserved(SealedBag {
        seal: seal.number(),
        next: 0,
        jobs: held.take().jobs,
    });
}

/// Moves the front into the hand.
#[inline(never)]
fn take_front<J: Drop>(queue: &mut BagQueue<J>, hand: &mut SealedBag<J>)
    requires { queue.old.bags ≢ [] }
    ensures front { queue.old.bags ≡ hand.new ∷ queue.new.bags }
    ensures capacity { queue.new.capacity ≡ queue.old.capacity }
{
    if let Some(bag) = queue.bags.pop_front() {
        *hand = bag;
    }
}

impl<J: Default + Drop> BagStore for BagQueue<J> {
    type Job = J;

    type Putting = usize;

    type Taking = u32;

    ghost queued = { λ queue. queue.bags };

    ghost capacity = { λ queue. queue.capacity };

    ghost occupied = { λ queue. first_occupied queue.capacity (length queue.bags) };

    ghost standing = { λ queue. first_occupied queue.capacity (length queue.bags) };

    ghost Claimed = { λ queue place. ⊥ };

    ghost Reserved = { λ queue place. ⊥ };

    ghost passed = { λ cursor. cursor };

    ghost has_room = { λ queue cursor. nat_lt cursor queue.capacity && nat_lt (length queue.bags) queue.capacity };

    ghost Reserves = { λ cursor place. ⊥ };

    ghost Claims = { λ cursor place. ⊥ };

    ghost puts_left = { λ capacity cursor. min 1 (capacity - cursor) };

    ghost takes_left = { λ capacity cursor. cursor };

    ghost ahead = { λ epoch queue cursor. min cursor (first_expired epoch queue.bags) };

    ghost PutMoves = { λ old new bag cursor step next. Unit {0} };

    ghost TakeMoves = { λ epoch old new hand cursor step next. Unit {0} };

    fn with_room(alloc: Global, bags: usize) -> Result<BagQueue<J>, Fault> {
        BagQueue::new(alloc, bags)
    }

    fn capacity(&self) -> usize {
        self.capacity
    }

    /// No place was passed yet.
    fn start_put(&self) -> usize {
        0
    }

    fn put_step(&mut self, cursor: &mut usize, seal: Epoch, held: &mut Bag<J>) -> PutStep {
        if *cursor >= self.capacity {
            return PutStep::Full;
        }
        *cursor = self.capacity;
        if self.bags.len() >= self.capacity {
            return PutStep::Full;
        }
        push_held(self, seal, held);
        PutStep::Done
    }

    /// How many bags may still be taken.
    fn start_take(&self) -> u32 {
        64
    }

    #[tactic(auto, using(crate::proofs::BagLists::inserted_first))]
    fn take_step(&mut self, cursor: &mut u32, expiry: Epoch, hand: &mut SealedBag<J>) -> TakeStep {
        if *cursor == 0 {
            return TakeStep::Empty;
        }
        *cursor -= 1;
        let expired = match self.bags.front() {
            Some(bag) => bag.is_expired(expiry),
            None => false,
        };
        if expired {
            take_front(self, hand);
            TakeStep::Got
        } else {
            TakeStep::Empty
        }
    }

    fn take_any(&mut self) -> Option<SealedBag<J>> {
        self.bags.pop_front()
    }

    ghost use Rattle.epoch_bags.specs.Queues.{length-first_occupied};

    ghost place_for_each = { λ queue. length-first_occupied queue.capacity (length queue.bags) };
}
