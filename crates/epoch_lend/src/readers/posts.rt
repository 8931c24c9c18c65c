//! A fixed set of posts, and the rights to pin at them, which readers take and give back.
ghost use Rattle.std.specs.Prelude.{◌≡◌, ◌<◌, List, [], length, map};
ghost use Rattle.epoch_lend.specs.Posts.{PostNames};
ghost use Rattle.epoch_lend.specs.Sets.{StandsAt, names_of};

use crate::post::{Post, Unpinned};
use crate::readers::reader::Reader;
use counted_slot::{Counted, FREE, Fits, PRESENT, TAKEN};
use std::alloc::{AllocError, Global};
use std::marker::{Brand, PhantomData};

/// How many posts, of 8 bytes each, take 128 bytes. Words that are nearer slow each other's threads down.
const APART: usize = 16;

/// Which posts a set has. Each call of a program that makes a set picks it.
pub trait PostSet {
    ghost posts: { List PostNames };
}

impl PostSet for Brand {
    ghost posts = { [] };
}

/// Posts that are no set yet, with the rights to pin at them.
#[derive(Drop)]
pub struct Made {
    posts: Vec<Post>,
    rights: Vec<Unpinned>,
    pub ghost in_order: { map names_of rights.items ≡ posts.items },
}

impl Made {
    /// Makes this many posts, at which no reader is pinned. It fails only if memory is refused.
    pub fn new(alloc: Global, count: usize) -> Result<Made, AllocError> {
        let mut posts = Vec::with_capacity(alloc, count)?;
        let mut rights = Vec::with_capacity(alloc, count)?;
        for _ in 0..count {
            let (post, unpinned) = Post::new();
            posts.push(post).map_err(|_| AllocError)?;
            rights.push(unpinned).map_err(|_| AllocError)?;
        }
        Ok(Made { posts, rights })
    }
}

/// Says of a type which set it is of, and no more: it has no value of `J`.
#[derive(Drop)]
pub struct Of<J: PostSet>(pub PhantomData<*const J>);

unsafe impl<J: PostSet> Send for Of<J> {}

unsafe impl<J: PostSet> Sync for Of<J> {}

/// The right to pin at one post of a set.
#[derive(Drop)]
pub(crate) struct Right<J: PostSet> {
    pub(crate) position: usize,
    // The place that it is taken from, and given back to.
    pub(crate) home: usize,
    pub(crate) unpinned: Unpinned,
    pub(crate) set: Of<J>,
    pub(crate) ghost stands: { StandsAt J.posts position unpinned.log unpinned.state },
}

impl<J: PostSet> Fits for Right<J> {
    type Tag = ();

    ghost fits = { λ _ _. Unit {0} };
}

/// A fixed set of posts. Threads share it by `&`, and register at it to read.
#[derive(Drop)]
pub struct Posts<J: PostSet> {
    posts: Vec<Post>,
    places: Vec<Counted<Option<Right<J>>>>,
    pub ghost named: { posts.items ≡ J.posts },
}

impl<J: PostSet> Posts<J> {
    /// Makes the set of these posts. They must be those of `J`, which the call of a function over `J` picks: at
    /// `Brand`, any posts that the call is given. It fails only if memory is refused.
    pub fn of(alloc: Global, made: Made) -> Result<Posts<J>, AllocError>
        requires { made.posts.items ≡ J.posts }
    {
        let Made { posts, rights } = made;
        let mut rest = rights;
        let mut places = Vec::with_capacity(alloc, rest.len())?;
        while let Some(unpinned) = rest.pop() {
            let right = Right {
                position: rest.len(),
                home: places.len(),
                unpinned,
                set: Of(PhantomData),
            };
            places.push(holding(right)).map_err(|_| AllocError)?;
        }
        Ok(Posts { posts, places })
    }

    /// Returns how many posts there are, which is how many readers may be registered at a time.
    pub fn len(&self) -> usize
        ensures { result ≡ length J.posts }
    {
        self.posts.len()
    }

    /// Returns the posts, in their order.
    pub fn as_slice(&self) -> &[Post]
        ensures { result.now ≡ J.posts }
    {
        self.posts.as_slice()
    }

    /// Registers a reader at a post that no reader has. `None`: each post was seen with a reader.
    ///
    /// Of 16 neighbours one is tried first, so readers have posts 128 bytes apart where a set has 16 posts for each.
    pub fn register(&self) -> Option<Reader<'_, J>> {
        let rows = self.places.len() / APART;
        for first in 0..APART {
            for row in 0..rows + 1 {
                let index = row.wrapping_mul(APART).wrapping_add(first);
                if let Some(reader) = self.register_at(index) {
                    return Some(reader);
                }
            }
        }
        None
    }

    // Registers a reader with the right of this place, unless that was taken.
    fn register_at(&self, index: usize) -> Option<Reader<'_, J>> {
        let place = self.places.get(index)?;
        if place.load() != PRESENT {
            return None;
        }
        let (found, claim) = place.turn(PRESENT, TAKEN);
        if found != PRESENT {
            claim.done();
            return None;
        }
        let right = claim.put(None, FREE)?;
        Some(Reader { posts: self, right })
    }

    // Puts the right back where it was taken from.
    pub(crate) fn give_back(&self, right: Right<J>) {
        if let Some(place) = self.places.get(right.home) {
            put(place, right);
        }
    }
}

// Puts the right into the place, if it is free.
fn put<J: PostSet>(place: &Counted<Option<Right<J>>>, right: Right<J>) {
    let (found, claim) = place.turn(FREE, TAKEN);
    if found == FREE {
        let _ = claim.put(Some(right), PRESENT);
    } else {
        claim.done();
    }
}

// A place from which this right may be taken.
fn holding<J: PostSet>(right: Right<J>) -> Counted<Option<Right<J>>> {
    let place = Counted::new(None, &());
    put(&place, right);
    place
}

unsafe impl<J: PostSet> Send for Posts<J> {}

unsafe impl<J: PostSet> Sync for Posts<J> {}
