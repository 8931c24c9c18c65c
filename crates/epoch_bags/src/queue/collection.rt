//! What one collection takes if no other participant is at work.
ghost use Rattle.std.specs.Prelude.{◌≡◌, ℕ, ◌+◌, ◌≤◌, [], length, min};
ghost use Rattle.epoch_bags.specs.Stores.{AllExpired};

use crate::{BagStore, Epoch, SealedBag, TakeStep};

/// Takes the bags that one collection gets if no other participant is at work, at most `most` of them. Drops their jobs
/// uncalled, and returns how many bags it took: `most`, or all of them if there are fewer and all are expired.
pub fn take_some<S: BagStore>(
    store: &mut S,
    expiry: Epoch,
    most: u64,
    hand: &mut SealedBag<S::Job>,
) -> u64
    requires few { most ≤ 64 }
    requires hand { hand.old.jobs ≡ [] }
    // If no other participant is at work, no place is claimed and all bags are expired, a collection gets its bound of
    // bags, or all bags if there are fewer.
    ensures least { ((place : ℕ) → ¬ (S.Claimed store.old place)) → AllExpired expiry.number (S.queued store.old)
        → result ≡ min most (length (S.queued store.old)) }
    ensures most { result ≤ most }
    ensures left { length (S.queued store.new) + result ≡ length (S.queued store.old) }

    ensures hand { hand.new.jobs ≡ [] }
{
    let mut cursor = store.start_take();
    let mut taken = 0;
    while taken < most {
        match store.take_step(&mut cursor, expiry, hand) {
            TakeStep::Again => {}
            TakeStep::Empty => return taken,
            TakeStep::Got => {
                drop_jobs(hand);
                taken += 1;
            }
        }
    }
    taken
}

/// Drops the jobs left in the bag, uncalled.
fn drop_jobs<J: Default + Drop>(bag: &mut SealedBag<J>)
    ensures { bag.new.jobs ≡ [] }
{
    while let Some(_) = bag.take_next() {}
}
