//! A claim to write that may go to another thread.
ghost use Rattle.std.specs.Prelude.{◌≡◌};
ghost use base.Fml.{ftrue};

use counted_slot::{Claim, Fits};
use std::marker::Model;

/// A claim to write that its owner keeps, also if the owner goes to another thread.
///
/// A [`Claim`] itself stays on its thread.
pub struct Kept<'a, X: Fits> {
    pub claim: Claim<'a, X>,
    pub ghost writes: { claim.right ≡ 2 },
}

// It owns no more than the claim. With this its `Send` is a law of its own, which is proved once.
impl<'a, X: Fits> Model for Kept<'a, X> {
    ghost also_owns = { λ _. ftrue };
}

impl<'a, X: Fits> Kept<'a, X> {
    /// Keeps a claim to write.
    #[inline(always)]
    pub fn new(claim: Claim<'a, X>) -> Kept<'a, X>
        requires { claim.right ≡ 2 }
        // A claim that is kept can go to another thread with its owner, and is the same claim afterwards.
        ensures { result.claim ≡ claim.entry }
    {
        Kept { claim }
    }

    /// Returns the claim, which may then exchange or put a value.
    #[inline(always)]
    pub fn into_claim(self) -> Claim<'a, X>
        ensures { (result ≡ self.entry.claim) × (result.right ≡ 2) }
    {
        let Kept { claim } = self;
        claim
    }
}

unsafe impl<'a, X: Fits + Send + Sync> Send for Kept<'a, X> {}
