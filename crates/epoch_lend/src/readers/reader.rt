//! A reader, and its pin.
ghost use Rattle.std.specs.Prelude.{◌≡◌, ◌<◌, ◌^◌};
ghost use Rattle.epoch_lend.specs.Posts.{IsAmong, logs_of};
ghost use Rattle.epoch_lend.specs.Sets.{StandsAt};

use crate::post::{Pin, Post, PostGuard};
use crate::readers::posts::{Of, PostSet, Posts, Right};
use std::marker::PhantomData;

/// A reader that isn't pinned. It has a post of its own until it is dropped.
pub struct Reader<'p, J: PostSet> {
    pub(crate) posts: &'p Posts<J>,
    pub(crate) right: Right<J>,
}

/// A pinned reader. Values that are lent to a reference to it are there for as long as that reference is: the pin
/// can't end before. Nested reads share the reference, which is `Copy`.
pub struct Pinned<'p, J: PostSet> {
    posts: &'p Posts<J>,
    post: &'p Post,
    pub(crate) position: usize,
    home: usize,
    epoch: u64,
    pin: Pin,
    pub(crate) guard: PostGuard,
    ghost of_epoch: { guard.epoch ≡ epoch },
    ghost within: { epoch < 2 ^ 63 },
    ghost of_post: { (pin.log ≡ post.now.log) × (pin.state ≡ post.now.state) },
    ghost all_here: { (guard.atom ≡ pin.atom) × (guard.count ≡ 2 ^ 63) },
    ghost stands: { StandsAt J.posts position post.now.log post.now.state },
    pub(crate) ghost among: { IsAmong guard.log (logs_of J.posts) },
}

impl<'p, J: PostSet> Reader<'p, J> {
    /// Pins the reader in this epoch, by one store to its post.
    #[inline(always)]
    pub fn pin(self, epoch: u64) -> Pinned<'p, J>
        requires { epoch < 2 ^ 63 }
        // A pinned reader's guard is the whole guard of its own pin, at a post of the set, in the epoch that it was
        // given.
        ensures epoch { result.guard.epoch ≡ epoch }
        ensures position { result.position ≡ self.entry.right.position }
    {
        let Reader { posts, right } = self;
        let post = &posts.as_slice()[right.position];
        let (pin, guard) = post.pin(right.unpinned, epoch);
        Pinned {
            posts,
            post,
            position: right.position,
            home: right.home,
            epoch,
            pin,
            guard,
        }
    }

    /// Gives the post back, for another reader.
    pub fn release(self) {
        let Reader { posts, right } = self;
        posts.give_back(right);
    }
}

impl<'p, J: PostSet> Pinned<'p, J> {
    /// Returns the guard of the pin, which is of one of the set's posts.
    #[inline(always)]
    pub fn guard(&self) -> &PostGuard
        ensures { (result.now ≡ self.now.guard) × IsAmong result.now.log (logs_of J.posts) }
    {
        &self.guard
    }

    /// The place of its post among those of the set. No other reader is pinned there.
    pub fn position(&self) -> usize
        ensures { result ≡ self.now.position }
    {
        self.position
    }

    /// Returns the epoch of the pin.
    #[inline(always)]
    pub fn epoch(&self) -> u64
        ensures value { result ≡ self.now.guard.epoch }
        ensures within { result < 2 ^ 63 }
    {
        self.epoch
    }

    /// Ends the pin, and pins anew in this epoch, by two stores to its post. What was lent can't be used any more.
    #[inline(always)]
    pub fn repin(self, epoch: u64) -> Pinned<'p, J>
        requires { epoch < 2 ^ 63 }
        ensures epoch { result.guard.epoch ≡ epoch }
        ensures position { result.position ≡ self.entry.position }
    {
        let Pinned {
            posts,
            post,
            position,
            home,
            epoch: _,
            pin,
            guard,
        } = self;
        let (pin, guard) = post.repin(pin, guard, epoch);
        Pinned {
            posts,
            post,
            position,
            home,
            epoch,
            pin,
            guard,
        }
    }

    /// Ends the pin, by one store to its post.
    #[inline(always)]
    pub fn unpin(self) -> Reader<'p, J>
        // An unpin gives the reader back with the right to pin at its own post.
        ensures { result.right.position ≡ self.entry.position }
    {
        let Pinned {
            posts,
            post,
            position,
            home,
            epoch: _,
            pin,
            guard,
        } = self;
        let unpinned = post.unpin(pin, guard);
        Reader {
            posts,
            right: Right {
                position,
                home,
                unpinned,
                set: Of(PhantomData),
            },
        }
    }
}

impl<J: PostSet> Drop for Reader<'_, J> {
    /// Gives the post back.
    fn drop(self) {
        self.release();
    }
}

impl<J: PostSet> Drop for Pinned<'_, J> {
    /// Ends the pin, and gives the post back.
    fn drop(self) {
        self.unpin().release();
    }
}
