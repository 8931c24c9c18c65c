//! Bags: jobs gathered by one participant, and then sealed with an epoch.
ghost use Rattle.std.specs.Prelude.{◌≡◌, ◌<◌, ◌≤◌, ◌↔◌, List, [], ◌∷◌, ◌++◌, None, Some, length, IsTrue, IsErr, IfErr};
ghost use Rattle.std.specs.Prelude.{OnOk, OnErr, MatchOption};
ghost use Rattle.epoch_bags.specs.Bags.{IsExpired, is_empty};

use crate::{Epoch, GREATEST_EPOCH};
use arrayvec::ArrayVec;
use std::marker::Model;
use std::mem;

/// How many jobs a bag holds at most: `MAX_OBJECTS` of crossbeam-epoch.
pub const BAG_JOBS: usize = 64;

/// A bag of at most `limit` jobs, the oldest first.
///
/// `J::default()` stands where there is no job; it is never handed out.
#[derive(Drop)]
pub struct Bag<J> {
    limit: usize,
    pub(crate) jobs: ArrayVec<J, 64>,
}

impl<J> Model for Bag<J> {
    ghost use Rattle.std.specs.Prelude.{◌<◌, ◌≤◌, length};
    ghost use Rattle.epoch_bags.specs.Bags.{Unsealed};

    ghost Value = { Unsealed J };

    ghost view = { λ a. record { limit = a.limit; jobs = a.jobs.items } };

    ghost invariant = { λ a.
        record { some : 0 < a.limit; most : a.limit ≤ 64; within : length a.jobs.items ≤ a.limit } };
}

impl<J: Default + Drop> Bag<J> {
    /// Makes an empty bag for [`BAG_JOBS`] jobs.
    pub fn new() -> Bag<J>
        ensures limit { result.limit ≡ 64 }
        ensures empty { result.jobs ≡ [] }
    {
        Bag::with_limit(BAG_JOBS)
    }

    /// Makes an empty bag that takes `limit` jobs, from 1 to [`BAG_JOBS`].
    pub fn with_limit(limit: usize) -> Bag<J>
        requires some { 0 < limit }
        requires most { limit ≤ BAG_JOBS }
        ensures limit { result.limit ≡ limit }
        ensures empty { result.jobs ≡ [] }
    {
        Bag {
            limit,
            jobs: ArrayVec::new(),
        }
    }

    /// Leaves an empty bag of the same limit, and returns the one that was here.
    pub fn take(&mut self) -> Bag<J>
        ensures taken { result ≡ self.old }
        ensures limit { self.new.limit ≡ self.old.limit }
        ensures empty { self.new.jobs ≡ [] }
    {
        let limit = self.limit;
        mem::replace(self, Bag::with_limit(limit))
    }

    /// Seals what it holds with this epoch, straight into `place`, and leaves an empty bag of the same limit.
    ///
    /// It doesn't return the sealed bag, since each caller would then have to show that the size of one is in range,
    /// and for a generic `J` that isn't known.
    #[inline(always)]
    pub fn seal_into(&mut self, epoch: Epoch, place: &mut Option<SealedBag<J>>)
        ensures sealed { place.new ≡ Some (record { seal = epoch.number; jobs = self.old.jobs }) }
        ensures limit { self.new.limit ≡ self.old.limit }
        ensures empty { self.new.jobs ≡ [] }
    {
        if place.is_some() {
            *place = None;
        }
        // A plain assignment would copy the room of a bag that isn't there, so as to drop it.
        mem::forget(mem::replace(
            place,
            Some(SealedBag {
                seal: epoch.number(),
                next: 0,
                jobs: mem::replace(&mut self.jobs, ArrayVec::new()),
            }),
        ));
    }
}

impl<J: Drop> Bag<J> {
    /// Puts `job` behind the others. `Err`: the bag is full, and stays as it was; the job comes back.
    pub fn try_push(&mut self, job: J) -> Result<(), J>
        // A bag takes a job behind the others, up to its limit, which is from 1 to 64. A full bag hands the job back
        // and stays as it was.
        ensures full { IsErr result ↔ (self.old.limit ≤ length self.old.jobs) }
        ensures ok { OnOk result (self.new.jobs ≡ self.old.jobs ++ job ∷ []) }
        ensures err { OnErr result (self.new ≡ self.old) }
        ensures handed_back { IfErr result (λ back. back ≡ job) }
        ensures limit { self.new.limit ≡ self.old.limit }
    {
        if self.is_full() {
            return Err(job);
        }
        self.push(job);
        Ok(())
    }

    /// Puts `job` behind the others. The bag must have room.
    #[inline]
    pub fn push(&mut self, job: J)
        requires { length self.old.jobs < self.old.limit }
        ensures jobs { self.new.jobs ≡ self.old.jobs ++ job ∷ [] }
        ensures limit { self.new.limit ≡ self.old.limit }
    {
        self.jobs.push(job);
    }

    /// Drops the jobs. An empty bag stays as it is.
    pub fn clear(&mut self)
    where
        J: Default,
        ensures limit { self.new.limit ≡ self.old.limit }
        ensures empty { self.new.jobs ≡ [] }
    {
        if !self.jobs.is_empty() {
            self.jobs = ArrayVec::new();
        }
    }

    /// Seals the bag with this epoch: the one that was read after its last job went in.
    pub fn seal(self, epoch: Epoch) -> SealedBag<J>
        // A sealed bag has the epoch that it is given, and all jobs.
        ensures seal { result.seal ≡ epoch.number }
        ensures jobs { result.jobs ≡ self.jobs }
    {
        let Bag { limit: _, jobs } = self;
        SealedBag {
            seal: epoch.number(),
            next: 0,
            jobs,
        }
    }
}

impl<J> Bag<J> {
    /// Returns how many jobs it has.
    pub fn len(&self) -> usize
        ensures value { result ≡ length self.now.jobs }
        ensures within { result ≤ self.now.limit }
    {
        self.jobs.len()
    }

    /// Returns whether it has no job.
    pub fn is_empty(&self) -> bool
        ensures test { result ≡ is_empty self.now.jobs }
        ensures none { IsTrue result ↔ (self.now.jobs ≡ []) }
    {
        self.jobs.is_empty()
    }

    /// Returns how many jobs it takes at most, from 1 to [`BAG_JOBS`].
    pub fn limit(&self) -> usize
        ensures value { result ≡ self.now.limit }
        ensures some { 0 < result }
        ensures most { result ≤ BAG_JOBS }
    {
        self.limit
    }

    /// Returns whether it takes no further job.
    pub fn is_full(&self) -> bool
        ensures { IsTrue result ↔ (self.now.limit ≤ length self.now.jobs) }
    {
        self.jobs.len() >= self.limit
    }
}

/// A bag with the epoch that seals it. Its jobs are taken out, the oldest first.
#[derive(Drop)]
pub struct SealedBag<J> {
    pub(crate) seal: u64,
    pub(crate) next: usize,
    pub(crate) jobs: ArrayVec<J, 64>,
}

impl<J> Model for SealedBag<J> {
    ghost use Rattle.std.specs.Prelude.{◌≤◌, drop, length};
    ghost use Rattle.epoch_bags.specs.Bags.{Sealed};

    ghost Value = { Sealed J };

    ghost view = { λ a. record { seal = a.seal; jobs = drop a.next a.jobs.items } };

    ghost invariant = { λ a. record {
      within : a.seal ≤ 9223372036854775807;
      inside : a.next ≤ length a.jobs.items;
      most : length a.jobs.items ≤ 64;
    } };
}

impl<J> SealedBag<J> {
    /// Returns the number of the epoch that seals it, from 0 to [`GREATEST_EPOCH`].
    pub fn seal(&self) -> u64
        ensures value { result ≡ self.now.seal }
        ensures within { result ≤ GREATEST_EPOCH }
    {
        self.seal
    }

    /// Returns whether `epoch` is ahead of the seal by two or more.
    pub fn is_expired(&self, epoch: Epoch) -> bool
        // A bag is expired exactly when the epoch is at least two past its seal.
        ensures { IsTrue result ↔ IsExpired epoch.number self.now }
    {
        // A participant that is pinned stays within one epoch of the global one, so none that is pinned
        // at an epoch two past the seal was pinned when the bag was sealed.
        self.seal + 2 <= epoch.number()
    }

    /// Returns how many jobs are left, at most [`BAG_JOBS`].
    pub fn len(&self) -> usize
        ensures value { result ≡ length self.now.jobs }
        ensures within { result ≤ BAG_JOBS }
    {
        self.jobs.len() - self.next
    }

    /// Returns whether no job is left.
    pub fn is_empty(&self) -> bool
        ensures test { result ≡ is_empty self.now.jobs }
        ensures none { IsTrue result ↔ (self.now.jobs ≡ []) }
    {
        self.len() == 0
    }

    /// Lends the oldest job, and leaves it in the bag. `None`: no job is left.
    #[inline(always)]
    pub fn first(&self) -> Option<&J>
        ensures { MatchOption result (self.now.jobs ≡ [])
            (λ job. (later : List J) × (self.now.jobs ≡ job.now ∷ later)) }
    {
        self.jobs.as_slice().get(self.next)
    }
}

impl<J: Default + Drop> SealedBag<J> {
    /// Drops the jobs that are left. An empty bag stays as it is.
    pub fn clear(&mut self)
        ensures empty { self.new.jobs ≡ [] }
        ensures seal { self.new.seal ≡ self.old.seal }
    {
        if !self.is_empty() {
            self.next = 0;
            self.jobs = ArrayVec::new();
        }
    }

    /// Takes the oldest job out, and doesn't call it. `None`: no job is left.
    pub fn take_next(&mut self) -> Option<J>
        // Jobs are taken out oldest first. The one that comes next can be looked at before.
        ensures job { MatchOption result (self.old.jobs ≡ []) (λ job. self.old.jobs ≡ job ∷ self.new.jobs) }
        ensures none { result ≡ None → self.new ≡ self.old }
        ensures seal { self.new.seal ≡ self.old.seal }
    {
        let at = self.next;
        if at >= self.jobs.len() {
            return None;
        }
        self.next = at + 1;
        let place = &mut self.jobs.as_mut_slice()[at];
        Some(mem::replace(place, J::default()))
    }
}
