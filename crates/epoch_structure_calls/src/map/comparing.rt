//! How a key compares with the one that is sought, as a number of the map's program.
ghost use Rattle.std.specs.Prelude.{◌≡◌};
ghost use Rattle.std.specs.declared.cmp.Ordering.TheVariants.{Equal};
ghost use Rattle.epoch_structure_calls.specs.MapCalls.{coded};

use std::cmp::Ordering;

/// The entry by which the map's program knows a node of the key that is sought.
pub(crate) const SOUGHT: u64 = 4_294_967_296;

/// The number of the key that is sought, in the map's program.
pub(crate) const KEY: u64 = 1;

/// Returns the entry by which the map's program knows a node whose key compares so with the one that is sought.
#[inline(always)]
pub fn coded(order: Ordering) -> u64
    ensures { result ≡ coded order }
{
    match order {
        Ordering::Less => 0,
        Ordering::Equal => SOUGHT,
        Ordering::Greater => 8_589_934_592,
    }
}
