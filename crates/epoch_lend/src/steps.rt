//! The steps that pins and looks at posts are made of. Clauses tell by them which steps a call made.
ghost use Rattle.std.specs.Prelude.{◌≡◌, ◌<◌, ◌^◌, List, length};
ghost use Rattle.epoch_lend.specs.Posts.{PostNames};
ghost use Rattle.epoch_lend.specs.Grace.{PinStep, Repins};
ghost use Rattle.epoch_lend.specs.Grace.PinStep.{LoadsClock, Publishes, Unpins, Ticks, Looks};

use crate::domain::Domain;
use crate::readers::posts::PostSet;
use crate::readers::reader::{Pinned, Reader};
use crate::watch::Watch;
use std::sync::atomic::Ordering::SeqCst;

/// How the steps of a domain are made. There is one way, and no caller names it: [`HasPinSteps`].
pub trait PinSteps {
    /// This step was made in the domain of these posts. If the type is a parameter, only the calls below show it.
    ghost did: { List PostNames → PinStep → Type 0 };

    /// Loads the epoch that the clock shows.
    fn load_clock<J: PostSet>(domain: &Domain<J>) -> u64
        ensures within { result < 2 ^ 63 }
        ensures did { did J.posts (LoadsClock result) };

    /// Pins the reader in this epoch, which was loaded from the clock, by one store to its post.
    fn publish<'d, J: PostSet>(reader: Reader<'d, J>, epoch: u64) -> Pinned<'d, J>
        requires loaded { did J.posts (LoadsClock epoch) }
        requires within { epoch < 2 ^ 63 }
        ensures epoch { result.guard.epoch ≡ epoch }
        ensures position { result.position ≡ reader.entry.right.position }
        ensures did { did J.posts (Publishes result.position epoch) };

    /// Ends the pin, by one store to its post.
    fn unpin<'d, J: PostSet>(pinned: Pinned<'d, J>) -> Reader<'d, J>
        ensures position { result.right.position ≡ pinned.entry.position }
        ensures did { did J.posts (Unpins pinned.entry.position) };

    /// Ends the pin, and pins anew in this epoch, which was loaded from the clock, by two stores to its post.
    fn repin<'d, J: PostSet>(pinned: Pinned<'d, J>, epoch: u64) -> Pinned<'d, J>
        requires loaded { did J.posts (LoadsClock epoch) }
        requires within { epoch < 2 ^ 63 }
        ensures epoch { result.guard.epoch ≡ epoch }
        ensures position { result.position ≡ pinned.entry.position }
        ensures did { Repins (did J.posts) result.position epoch };

    /// Moves the clock on, and returns the epoch that it shows from then on.
    fn tick<J: PostSet>(domain: &Domain<J>) -> u64
        ensures did { did J.posts (Ticks result) };

    /// Looks at the post at this position, by one plain load, after the clock showed this epoch. Returns the word.
    fn look<J: PostSet>(domain: &Domain<J>, clock: u64, position: usize) -> u64
        requires loaded { did J.posts (LoadsClock clock) }
        requires stands { position < length J.posts }
        ensures did { did J.posts (Looks clock position result) };
}

/// The one [`PinSteps`]: the steps are made, and nothing else is done. No value of this type is made.
pub struct Performed;

impl PinSteps for Performed {
    ghost did = { λ _ _. Unit {0} };

    #[inline(always)]
    fn load_clock<J: PostSet>(domain: &Domain<J>) -> u64 {
        domain.clock.load(SeqCst) / 2
    }

    #[inline(always)]
    fn publish<'d, J: PostSet>(reader: Reader<'d, J>, epoch: u64) -> Pinned<'d, J> {
        reader.pin(epoch)
    }

    #[inline(always)]
    fn unpin<'d, J: PostSet>(pinned: Pinned<'d, J>) -> Reader<'d, J> {
        pinned.unpin()
    }

    #[inline(always)]
    fn repin<'d, J: PostSet>(pinned: Pinned<'d, J>, epoch: u64) -> Pinned<'d, J> {
        pinned.repin(epoch)
    }

    #[inline(always)]
    fn tick<J: PostSet>(domain: &Domain<J>) -> u64 {
        domain.clock.fetch_add(2, SeqCst) / 2 + 1
    }

    #[inline(always)]
    fn look<J: PostSet>(domain: &Domain<J>, clock: u64, position: usize) -> u64 {
        let _ = clock;
        let (word, _) = domain.posts.as_slice()[position].look_for(Watch::new());
        word
    }
}

/// Tells which [`PinSteps`] makes the steps. There is only this impl, so no caller names it.
pub trait HasPinSteps<S> {}

impl<J: PostSet> HasPinSteps<Performed> for J {}
