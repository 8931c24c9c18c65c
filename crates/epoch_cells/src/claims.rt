//! An exchange of the value of a slot, by the writer that has claimed it.
ghost use Rattle.std.specs.Prelude.{◌≡◌};

use counted_slot::{Claim, Fits};

/// A slot, as it lies in memory.
struct Laid<X> {
    word: u64,
    value: X,
}

/// Puts `value` into the claimed slot, and returns what was there. The claim goes on: no other thread enters the slot
/// until it ends.
///
/// It must be a claim to write. A [`Claim`] itself puts a value only as it ends.
#[inline(always)]
pub fn replace<'a, X: Fits>(claim: Claim<'a, X>, value: X) -> (Claim<'a, X>, X)
    requires { (claim.right ≡ 2) × X.fits claim.tag value }
    // A claim to write is still one after the value of its slot was exchanged, and is of the same slot's tag. The value
    // that comes out fits that tag.
    ensures claim { (result.0.right ≡ 2) × (result.0.tag ≡ claim.entry.tag) }
    ensures value { X.fits claim.entry.tag result.1 }
{
    let old = unsafe {
        let slot = *(&raw const claim as *const *const Laid<X>);
        let at = &raw const (*slot).value as *mut X;
        let old = at.read();
        at.write(value);
        old
    };
    (claim, old)
}
