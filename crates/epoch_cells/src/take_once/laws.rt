//! That a value comes out at most once.
ghost use Rattle.std.specs.Prelude.{◌≡◌, ◌<◌, IsSome, IfSome};

use crate::take_once::take_once::TakeOnce;
use std::sync::ledger::{Ledger, Share};

/// Takes twice from a slot whose value is all parts of a ledger, and returns what the takes gave.
///
/// A ledger's parts exist only once, so two values that have all of them can't both be there. This shows that no two
/// takes give a value: `take` treats every type of value alike.
pub fn take_twice<L: Ledger>(slot: &TakeOnce<Share<L>>) -> (Option<Share<L>>, Option<Share<L>>)
    requires parts { 0 < L.parts }
    requires all { IfSome slot.now (λ share. share.parts ≡ L.parts) }
    // A value is taken at most once: of two takes, at least one returns `None`. This is proved for one kind of value,
    // all shares of a ledger, of which two can't exist at once. `take` is the same code for every type of value.
    ensures once { ¬ (IsSome result.0 × IsSome result.1) }
{
    let Some(mut first) = slot.take() else {
        return (None, slot.take());
    };
    let Some(second) = slot.take() else {
        return (Some(first), None);
    };
    first.merge(second);
    unreachable!()
}
