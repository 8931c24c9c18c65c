//! Posts: a participant's word, which says in which epoch it is pinned, and its guards, to which values are lent.
ghost use Rattle.std.specs.Prelude.{◌≡◌, ℕ, ◌+◌, ◌*◌, ◌^◌, ◌<◌, ◌∷◌};
ghost use Rattle.epoch_lend.specs.Posts.{PostNames, post_coded, posted, post_owns};
ghost use Rattle.epoch_lend.specs.Posts.{post_shares, unpinned_owns, pin_owns, guard_owns, guard_shares};

use crate::watch::Watch;
use std::marker::{Brand, Model, Move, Owns, PhantomData};
use std::sync::atomic::Ordering::SeqCst;
use std::sync::atomic::raw;

/// A participant's word: 0 while it isn't pinned, and `2e + 1` while it is, in epoch `e`.
pub struct Post {
    word: u64,
    marker: PhantomData<()>,
}

impl Owns for Post {
    ghost Value = { PostNames };

    ghost coded = { post_coded };

    ghost shr_at = { λ d p κ. post_shares d p κ };
}

impl Move for Post {
    ghost own_val = { λ d vs. post_owns d (λ n. Fields.own_val (record { word = n; marker = record {} }) vs) };
}

/// The right to pin at a post. It has no bytes.
#[derive(Drop)]
pub struct Unpinned {
    pub(crate) marker: PhantomData<()>,
    pub ghost log: { ℕ },
    pub ghost state: { ℕ },
}

impl Model for Unpinned {
    ghost also_owns = { λ p. unpinned_owns p.state };
}

/// The right to end a pin. It has no bytes.
#[derive(Drop)]
pub struct Pin {
    pub(crate) marker: PhantomData<()>,
    pub ghost atom: { ℕ },
    pub ghost log: { ℕ },
    pub ghost state: { ℕ },
}

impl Model for Pin {
    ghost also_owns = { λ p. pin_owns p.atom p.state };
}

/// A guard of a pin, without bytes. All guards of a pin share a lifetime, `atom`, of whose 2^63 parts it has `count`.
#[derive(Drop)]
pub struct PostGuard {
    pub(crate) marker: PhantomData<()>,
    pub ghost atom: { ℕ },
    pub ghost epoch: { ℕ },
    pub ghost log: { ℕ },
    pub ghost count: { ℕ },
}

impl Model for PostGuard {
    ghost also_owns = { λ g. guard_owns g.atom g.epoch g.log g.count };

    ghost also_shares = { λ g _ κ. guard_shares g.atom g.epoch g.log κ };
}

impl Post {
    /// Makes a post whose participant isn't pinned, and the right to pin there.
    pub fn new() -> (Post, Unpinned)
        ensures { (result.1.log ≡ result.0.log) × (result.1.state ≡ result.0.state) }
    {
        (
            Post {
                word: 0,
                marker: PhantomData,
            },
            Unpinned {
                marker: PhantomData,
            },
        )
    }

    /// Pins, by one store of the word of this epoch.
    pub(crate) fn publish(&self, unpinned: Unpinned, epoch: u64, word: u64) -> (Pin, PostGuard)
        requires { (unpinned.log ≡ self.now.log) × (unpinned.state ≡ self.now.state) × (word ≡ posted epoch) }
        ensures pin { (result.0.log ≡ self.now.log) × (result.0.state ≡ self.now.state)
            × (result.0.atom ≡ result.1.atom) }
        ensures guard { (result.1.log ≡ self.now.log) × (result.1.epoch ≡ epoch) × (result.1.count ≡ 2 ^ 63) }
    {
        let Unpinned { marker: _ } = unpinned;
        let _ = epoch;
        unsafe { raw::store::<Brand>(&raw const self.word, word, SeqCst) };
        (
            Pin {
                marker: PhantomData,
            },
            PostGuard {
                marker: PhantomData,
            },
        )
    }

    /// Pins in this epoch, by one store. The right to pin must be that of this post, and the epoch less than 2^63.
    /// Returns the right to end the pin, and all of its guards as one.
    pub fn pin(&self, unpinned: Unpinned, epoch: u64) -> (Pin, PostGuard)
        requires of_post { (unpinned.log ≡ self.now.log) × (unpinned.state ≡ self.now.state) }
        requires within { epoch < 2 ^ 63 }
        // All guards of one pin share one lifetime, a pin ends only with all of them, and a post's word is `2e + 1`
        // from the pin to its end, and otherwise 0.
        ensures pin { (result.0.log ≡ self.now.log) × (result.0.state ≡ self.now.state)
            × (result.0.atom ≡ result.1.atom) }
        ensures guard { (result.1.log ≡ self.now.log) × (result.1.epoch ≡ epoch) × (result.1.count ≡ 2 ^ 63) }
    {
        self.publish(unpinned, epoch, 2 * epoch + 1)
    }

    /// Ends the pin, by one store. All of its guards must be here again as one. Returns the right to pin again.
    pub fn unpin(&self, pin: Pin, guard: PostGuard) -> Unpinned
        requires of_post { (pin.log ≡ self.now.log) × (pin.state ≡ self.now.state) }
        requires all_here { (guard.atom ≡ pin.atom) × (guard.count ≡ 2 ^ 63) }
        ensures { (result.log ≡ self.now.log) × (result.state ≡ self.now.state) }
    {
        let Pin { marker: _ } = pin;
        let PostGuard { marker: _ } = guard;
        unsafe { raw::store::<Brand>(&raw const self.word, 0, SeqCst) };
        Unpinned {
            marker: PhantomData,
        }
    }

    /// Ends the pin, and pins anew in this epoch, by two stores. All it takes has no bytes but the epoch, so a caller
    /// that seldom comes here keeps nothing in memory for it.
    #[cold]
    #[inline(never)]
    pub fn repin(&self, pin: Pin, guard: PostGuard, epoch: u64) -> (Pin, PostGuard)
        requires of_post { (pin.log ≡ self.now.log) × (pin.state ≡ self.now.state) }
        requires all_here { (guard.atom ≡ pin.atom) × (guard.count ≡ 2 ^ 63) }
        requires within { epoch < 2 ^ 63 }
        ensures pin { (result.0.log ≡ self.now.log) × (result.0.state ≡ self.now.state)
            × (result.0.atom ≡ result.1.atom) }
        ensures guard { (result.1.log ≡ self.now.log) × (result.1.epoch ≡ epoch) × (result.1.count ≡ 2 ^ 63) }
    {
        self.pin(self.unpin(pin, guard), epoch)
    }

    /// Looks at the post for all loans of a watch, by one plain load. It shows that each guard of this post with one is
    /// over, except those of the epoch found. Returns the word found, and the watch with this look added.
    pub fn look_for(&self, watch: Watch) -> (u64, Watch)
        // A load of a post shows, for all loans of a watch at once, which of the post's guards are over.
        ensures seen { result.1.seen ≡ (self.now.log, result.0) ∷ watch.seen }
        ensures same { result.1.loans ≡ watch.loans }
    {
        let Watch { marker: _ } = watch;
        let found = unsafe { raw::load::<Brand>(&raw const self.word, SeqCst) };
        let told = Watch {
            marker: PhantomData,
        };
        (found, told)
    }
}

impl Drop for Post {
    fn drop(self) {
        let Self { word: _, marker: _ } = self;
    }
}

unsafe impl Send for Post {}

unsafe impl Sync for Post {}

unsafe impl Send for Unpinned {}

unsafe impl Sync for Unpinned {}

unsafe impl Send for Pin {}

unsafe impl Sync for Pin {}

unsafe impl Send for PostGuard {}

unsafe impl Sync for PostGuard {}
