//! Removals that go back together: posts are looked at once for all of them.
ghost use Rattle.std.specs.Prelude.{◌≡◌, ◌+◌, ◌<◌, ◌≤◌, List, [], ◌∷◌, ◌++◌, length, map, vec_len, vec_capacity};
ghost use Rattle.std.specs.Prelude.{◌↔◌, IsTrue, IfOk, IfErr, MatchOption};
ghost use Rattle.epoch_lend.specs.Posts.{logs_of};
ghost use Rattle.epoch_lend.specs.Loans.{Within, AreShown, EachSeen, is_sealed};
ghost use Rattle.epoch_lend.specs.Bags.{EachWatched};

use epoch_lend::array::slot::{Returned, SlotRemoval};
use epoch_lend::cells::turns::TurnName;
use epoch_lend::readers::posts::{PostSet, Posts};
use epoch_lend::watch::Watch;
use std::alloc::{AllocError, Global};

/// Values that were marked, and go back together. No batch can be dropped: its values come back, from a [`ClearBatch`],
/// or are given up by an end.
pub struct Batch<'c, J: PostSet, T> {
    removals: Vec<SlotRemoval<'c, J, T>>,
    watch: Watch,
    pub ghost watched: { EachWatched (λ r. r.marked.loans) removals.items watch.loans },
    pub ghost lent: { Within (logs_of J.posts) watch.loans },
    pub ghost fresh: { watch.seen ≡ [] },
}

/// A batch whose posts were looked at once: each guard that had a loan is over, or is of an epoch before the seal.
pub struct SealedBatch<'c, J: PostSet, T> {
    removals: Vec<SlotRemoval<'c, J, T>>,
    watch: Watch,
    seal: u64,
    pub ghost watched: { EachWatched (λ r. r.marked.loans) removals.items watch.loans },
    pub ghost lent: { Within (logs_of J.posts) watch.loans },
    pub ghost sealed: { EachSeen (is_sealed seal) (logs_of J.posts) watch.seen },
}

/// A batch whose values come back: each guard that one of them was lent to is over.
pub struct ClearBatch<'c, J: PostSet, T> {
    removals: Vec<SlotRemoval<'c, J, T>>,
    watch: Watch,
    pub ghost watched: { EachWatched (λ r. r.marked.loans) removals.items watch.loans },
    pub ghost shown: { AreShown watch.seen watch.loans },
}

impl<'c, J: PostSet, T> Batch<'c, J, T> {
    /// Makes an empty batch with room for this many removals. It fails only if memory is refused.
    pub fn with_capacity(alloc: Global, capacity: usize) -> Result<Batch<'c, J, T>, AllocError>
        ensures empty { IfOk result (λ batch. vec_len batch.removals ≡ 0) }
        ensures room { IfOk result (λ batch. capacity ≤ vec_capacity batch.removals) }
    {
        let removals = Vec::with_capacity(alloc, capacity)?;
        Ok(Batch {
            removals,
            watch: Watch::new(),
        })
    }

    /// Makes a batch of this removal alone. It is handed back if memory is refused.
    pub fn of(
        alloc: Global,
        removal: SlotRemoval<'c, J, T>,
    ) -> Result<Batch<'c, J, T>, SlotRemoval<'c, J, T>>
        ensures alone { IfOk result (λ batch. map (λ r. r.name) batch.removals.items ≡ removal.entry.name ∷ []) }
        ensures handed_back { IfErr result (λ back. back ≡ removal.entry) }
    {
        let Ok(empty) = Batch::with_capacity(alloc, 1) else {
            return Err(removal);
        };
        let mut alone = empty;
        alone.push(removal);
        Ok(alone)
    }

    /// Returns how many removals are in the batch.
    pub fn len(&self) -> usize
        ensures { result ≡ length self.now.removals.items }
    {
        self.removals.len()
    }

    /// Returns whether there is room for a further removal.
    #[inline(always)]
    pub fn has_room(&self) -> bool
        ensures { IsTrue result ↔ (vec_len self.now.removals < vec_capacity self.now.removals) }
    {
        self.removals.len() < self.removals.capacity()
    }

    /// Puts a removal into the batch, behind the others. The batch must have room for it.
    pub fn push(&mut self, removal: SlotRemoval<'c, J, T>)
        requires { vec_len self.old.removals < vec_capacity self.old.removals }
        // A batch with room takes a removal, behind those that it has.
        ensures names { map (λ r. r.name) self.new.removals.items
            ≡ map (λ r. r.name) self.old.removals.items ++ removal.entry.name ∷ [] }
        ensures len { vec_len self.new.removals ≡ vec_len self.old.removals + 1 }
        ensures capacity { vec_capacity self.new.removals ≡ vec_capacity self.old.removals }
    {
        let removal = removal.watched(&mut self.watch);
        self.removals.push_reserved(removal);
    }

    /// Ends a batch that has no removal.
    pub fn finish(self)
        requires { vec_len self.removals ≡ 0 }
    {
        let Batch { removals, watch: _ } = self;
        removals.destroy_empty();
    }

    /// Looks at each post once, for all removals of the batch.
    pub fn seal(self, posts: &Posts<J>) -> SealedBatch<'c, J, T>
        ensures { result.removals.items ≡ self.entry.removals.items }
    {
        let Batch { removals, watch } = self;
        let (seal, watch) = watch.seal(posts.as_slice());
        SealedBatch {
            removals,
            watch,
            seal,
        }
    }
}

impl<'c, J: PostSet, T> SealedBatch<'c, J, T> {
    /// Gives its values up: they stay where they are, and nothing drops them any more. Only an end of a store does
    /// this, if a guard is out that may have one of them.
    pub fn abandon(self) {
        let SealedBatch {
            removals,
            watch: _,
            seal: _,
        } = self;
        let mut rest = removals;
        while let Some(removal) = rest.pop() {
            removal.abandon();
        }
        rest.destroy_empty();
    }

    /// Returns its seal: it comes back once each post is unpinned, or pinned in this epoch or a later one.
    pub fn seal(&self) -> u64
        ensures { result ≡ self.now.seal }
    {
        self.seal
    }

    /// Returns how many removals are in the batch.
    pub fn len(&self) -> usize
        ensures { result ≡ length self.now.removals.items }
    {
        self.removals.len()
    }

    /// Looks at each post once more, for all removals of the batch. If none is pinned in an epoch before the seal, the
    /// values come back. Otherwise the batch does, to be tried again, since a guard that has one of the values may
    /// still live. Readers that go on must pin in later epochs.
    pub fn take_back(self, posts: &Posts<J>) -> Result<ClearBatch<'c, J, T>, SealedBatch<'c, J, T>>
        // A batch looks at each post once when it is sealed, and once more at each try to take its values back. Each
        // look serves all removals of the batch. No value that was lent under a guard is destroyed while that guard
        // lives.
        ensures clear { IfOk result (λ batch. batch.removals.items ≡ self.entry.removals.items) }
        ensures again { IfErr result (λ batch. batch.removals.items ≡ self.entry.removals.items) }
    {
        let SealedBatch {
            removals,
            watch,
            seal,
        } = self;
        let (is_clear, watch) = watch.scan(posts.as_slice(), seal);
        if is_clear {
            Ok(ClearBatch { removals, watch })
        } else {
            Err(SealedBatch {
                removals,
                watch,
                seal,
            })
        }
    }
}

impl<'c, J: PostSet, T> ClearBatch<'c, J, T> {
    /// Takes the value of the last removal out of its slot, which is empty at its next turn from then on, and returns
    /// the value with its name. `None`: each value was taken out.
    pub fn next(&mut self) -> Option<(T, TurnName<T>)>
        ensures which { MatchOption result ((self.old.removals.items ≡ []) × (vec_len self.new.removals ≡ 0))
            (λ back. map (λ r. r.name) self.old.removals.items
            ≡ map (λ r. r.name) self.new.removals.items ++ back.1 ∷ []) }
        ensures value { MatchOption result (Unit {0}) (λ back. back.0 ≡ back.1.value) }
    {
        match self.next_with_room() {
            Some(Returned { value, name, room }) => {
                room.release();
                Some((value, name))
            }
            None => None,
        }
    }

    /// Takes the value of the last removal out of its slot, and returns it with its name and with the room in which it
    /// was. `None`: each value was taken out.
    pub fn next_with_room(&mut self) -> Option<Returned<'c, J, T>>
        // A clear batch gives back each value once, with its name, and with the *room* in which it was: the place of
        // its cell, which no other caller can use. A store drops only the values of a batch that gave them back: each
        // guard that one of them was lent to is over. What is clear ends only once it has given all back.
        ensures which { MatchOption result ((self.old.removals.items ≡ []) × (vec_len self.new.removals ≡ 0))
            (λ back. map (λ r. r.name) self.old.removals.items
            ≡ map (λ r. r.name) self.new.removals.items ++ back.name ∷ []) }
    {
        match self.removals.pop() {
            Some(removal) => Some(removal.take(&mut self.watch)),
            None => None,
        }
    }

    /// Ends a clear batch that has given all of its values back.
    pub fn finish(self)
        requires { vec_len self.removals ≡ 0 }
    {
        let ClearBatch { removals, watch: _ } = self;
        removals.destroy_empty();
    }
}
