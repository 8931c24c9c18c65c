//! Posts are looked at once for many marked values, and not once for each.
ghost use Rattle.std.specs.Prelude.{◌≡◌, ◌≢◌, ℕ, ◌*◌, ◌≤◌, ◌^◌, List, [], ◌++◌, true};
ghost use base.Stored.{coded_list, coded×, coded_ℕ};
ghost use Rattle.epoch_lend.specs.Posts.{logs_of};
ghost use Rattle.epoch_lend.specs.Loans.{Loan, loan_coded, SeenPost, Within, EachSeen, is_sealed, AreShown};
ghost use Rattle.epoch_lend.specs.Watching.{AreWatched, watch_owns};

use crate::lending::Marked;
use crate::part::Part;
use crate::post::Post;
use std::marker::{Model, PhantomData};

/// What is known of the loans of some marked values, and what looks at posts told of them. It has no bytes.
#[derive(Drop)]
pub struct Watch {
    pub(crate) marker: PhantomData<()>,
    pub ghost loans: { List Loan } by { coded_list loan_coded },
    pub ghost seen: { List SeenPost } by { coded_list (coded× coded_ℕ coded_ℕ) },
}

impl Model for Watch {
    ghost also_owns = { λ w. watch_owns w.loans w.seen };
}

// The seal, or the epoch after the one of this word, whichever is later.
fn sealed_past(seal: u64, word: u64) -> u64
    ensures { (seal ≤ result) × (word ≤ 2 * result) }
{
    let least = word / 2 + word % 2;
    if seal < least { least } else { seal }
}

// Whether it was clear, and a post with this word is unpinned, or in the seal's epoch or a later one.
fn stays_clear(clear: bool, seal: u64, word: u64) -> bool
    ensures { result ≡ true → (clear ≡ true) × (word ≢ 0 → 2 * seal ≤ word) }
{
    clear && (word == 0 || seal <= word / 2)
}

impl Watch {
    /// Makes a watch of no loans.
    pub fn new() -> Watch
        // A watch has the loans of each value that was added to it. The values stay as they were.
        ensures { (result.loans ≡ []) × (result.seen ≡ []) }
    {
        Watch {
            marker: PhantomData,
        }
    }

    /// Watches the loans of this value, too. No post may have been looked at before.
    pub fn add<T>(&mut self, marked: Marked<T>) -> Marked<T>
        requires { (marked.right ≡ 1) × (self.old.seen ≡ []) }
        ensures { (self.new.loans ≡ marked.loans ++ self.old.loans) × (self.new.seen ≡ []) × (result ≡ marked) }
    {
        let Marked { at } = marked;
        Marked { at }
    }

    /// Returns all parts of a value whose loans are watched. Looks must have shown that each guard with a loan is over.
    pub fn collect<T>(&mut self, marked: Marked<T>) -> Part<T>
        requires marked { marked.right ≡ 1 }
        requires watched { AreWatched marked.loans self.old.loans }
        requires shown { AreShown self.old.seen self.old.loans }
        // A watch gives back all parts of a value only if it has the value's loans, and each guard that had one of them
        // was shown to be over.
        ensures { (self.new ≡ self.old) × (result.value ≡ marked.value) × (result.lifetime ≡ marked.lifetime)
            × (result.count ≡ 2 ^ 63) }
    {
        let Marked { at } = marked;
        Part { ptr: at }
    }

    /// Looks at each post once. Returns a seal: each guard that had a loan is over, or is of an epoch before it.
    pub fn seal(self, posts: &[Post]) -> (u64, Watch)
        // One look at each post gives one seal for all these loans. One more look at each post says whether every guard
        // that had one of them is over.
        ensures sealed { EachSeen (is_sealed result.0) (logs_of posts.now) result.1.seen }

        ensures same { result.1.loans ≡ self.loans }
    {
        let mut watch = self;
        let mut seal = 0;
        for position in 0..posts.len() {
            let (word, told) = posts[position].look_for(watch);
            watch = told;
            let later = sealed_past(seal, word);
            seal = later;
        }
        (seal, watch)
    }

    /// Looks at each post once more. `true`: each is unpinned, or not before the seal, so guards with loans are over.
    pub fn scan(self, posts: &[Post], seal: u64) -> (bool, Watch)
        requires lent { Within (logs_of posts.now) self.loans }
        requires sealed { EachSeen (is_sealed seal) (logs_of posts.now) self.seen }
        ensures clear { result.0 ≡ true → AreShown result.1.seen result.1.loans }
        ensures sealed { EachSeen (is_sealed seal) (logs_of posts.now) result.1.seen }
        ensures same { result.1.loans ≡ self.loans }
    {
        let mut watch = self;
        let mut clear = true;
        for position in 0..posts.len() {
            let (word, told) = posts[position].look_for(watch);
            watch = told;
            let next = stays_clear(clear, seal, word);
            clear = next;
        }
        (clear, watch)
    }

    /// Looks at each post, up to the first that is pinned. `true`: none is, and each guard that had a loan is over.
    #[inline(always)]
    pub fn unpinned(self, posts: &[Post]) -> (bool, Watch)
        requires lent { Within (logs_of posts.now) self.loans }
        ensures clear { result.0 ≡ true → AreShown result.1.seen result.1.loans }
        ensures same { result.1.loans ≡ self.loans }
    {
        let mut watch = self;
        for position in 0..posts.len() {
            let (word, told) = posts[position].look_for(watch);
            watch = told;
            if word != 0 {
                return (false, watch);
            }
        }
        (true, watch)
    }
}

unsafe impl Send for Watch {}

unsafe impl Sync for Watch {}
