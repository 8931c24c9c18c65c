//! A domain: posts, at which sessions pin, and the clock that says in which epoch they do.
ghost use Rattle.std.specs.Prelude.{◌≡◌, ℕ, ◌≤◌, length, IsSome, IfSome, IfOk};
ghost use Rattle.epoch_lend.specs.Grace.{Passes, PassesAll};
ghost use Rattle.epoch_lend.specs.Grace.PinStep.{LoadsClock, Ticks};

use crate::readers::posts::{Made, PostSet, Posts};
use crate::session::Session;
use crate::steps::{HasPinSteps, PinSteps};
use std::alloc::{AllocError, Global};
use std::marker::Brand;
use std::sync::atomic::AtomicU64;
use std::sync::atomic::Ordering::SeqCst;

/// Posts and a clock, for stores of values of any types. One guard of a session lends the values of all of them.
///
/// Threads share it by `&`.
#[derive(Drop)]
pub struct Domain<J: PostSet> {
    pub(crate) posts: Posts<J>,
    // Twice an epoch: that of a pin which begins now.
    pub(crate) clock: AtomicU64,
    // The number of the next store.
    numbers: AtomicU64,
}

/// A look at each post of a domain, once.
#[derive(Clone, Copy, Debug)]
pub struct PostsSeen {
    /// The clock's epoch before the first post was looked at.
    pub clock: u64,
    /// The least epoch of those that were found pinned, or `u64::MAX` if none was.
    pub least: u64,
}

/// What one thread does with a domain, whichever its posts are.
pub trait DomainWork {
    type Answer;

    /// What the answer says of the work.
    ghost answers: { Self → Self.Answer → Type 0 } = { λ _ _. Unit {0} };

    /// Does it in this domain.
    fn run<J: PostSet + Send + Sync>(self, domain: &Domain<J>) -> Self::Answer
        ensures { answers self result };
}

impl<J: PostSet> Domain<J> {
    /// Makes a domain of these posts, whose clock shows epoch 1.
    pub fn new(posts: Posts<J>) -> Domain<J> {
        Domain {
            posts,
            clock: AtomicU64::new(2),
            numbers: AtomicU64::new(0),
        }
    }

    /// Takes a post that no session has. `None`: each post was seen with a session.
    pub fn session(&self) -> Option<Session<'_, J>>
        // A session that a domain gives can be pinned, and so can one that took its guard back.
        ensures free { IfSome result (λ session. IsSome session.reader) }
    {
        let reader = self.posts.register()?;
        Some(Session {
            reader: Some(reader),
            domain: self,
        })
    }

    /// Returns how many sessions there may be at a time.
    pub fn sessions(&self) -> usize
        // There may be as many sessions at a time as there are posts.
        ensures { result ≡ length J.posts }
    {
        self.posts.len()
    }

    /// Returns the posts.
    #[inline(always)]
    pub fn posts(&self) -> &Posts<J>
        ensures { result.now ≡ self.now.posts }
    {
        &self.posts
    }

    /// Returns a number for a store: each of the first 2^64 calls returns another one.
    pub fn next_number(&self) -> u64 {
        self.numbers.fetch_add(1, SeqCst)
    }

    /// Moves the clock on, and returns its new epoch, in which pins from then on begin. It wraps after 2^63 calls.
    pub fn tick<S: PinSteps>(&self) -> u64
    where
        J: HasPinSteps<S>,
        // The clock moves on to the epoch that the call returns.
        ensures { S.did J.posts (Ticks result) }
    {
        S::tick(self)
    }

    /// Loads the clock, and then looks at each post once. Values that were out of reach when the clock came to an
    /// epoch may be marked once that is neither past the clock nor past the least epoch found.
    pub fn least_pinned<S: PinSteps>(&self) -> PostsSeen
    where
        J: HasPinSteps<S>,
        // A look at the posts loads the clock first, and then looks at each post. For each epoch that is neither past
        // the clock nor past the least epoch found, each post was found unpinned, or pinned in that epoch or a later
        // one.
        ensures loads { S.did J.posts (LoadsClock result.clock) }
        ensures passes { (epoch : ℕ) → epoch ≤ result.clock → epoch ≤ result.least
            → PassesAll (S.did J.posts) epoch (length J.posts) }
    {
        let clock = S::load_clock(self);
        let mut least = u64::MAX;
        for position in 0..self.posts.len() {
            let word = S::look(self, clock, position);
            least = least_with(least, word);
        }
        PostsSeen { clock, least }
    }
}

// The lesser one of an epoch and that of a post with this word, if it is pinned.
fn least_with(least: u64, word: u64) -> u64
    ensures lesser { result ≤ least }
    ensures passes { Passes result word }
{
    if word == 0 {
        least
    } else {
        least.min(word / 2)
    }
}

/// Has the work done in a new domain with this many posts, and returns its answer. It fails only if memory is refused.
pub fn with_domain<W: DomainWork + Drop>(
    alloc: Global,
    posts: usize,
    work: W,
) -> Result<W::Answer, AllocError>
    // The work for which a domain is made returns what it says of itself.
    ensures { IfOk result (W.answers work) }
{
    let made = Made::new(alloc, posts)?;
    begin::<Brand, W>(alloc, made, work)
}

fn begin<J: PostSet + Send + Sync, W: DomainWork + Drop>(
    alloc: Global,
    made: Made,
    work: W,
) -> Result<W::Answer, AllocError>
    requires { made.posts.items ≡ J.posts }
    ensures { IfOk result (W.answers work) }
{
    let domain = Domain::new(Posts::<J>::of(alloc, made)?);
    Ok(work.run(&domain))
}
