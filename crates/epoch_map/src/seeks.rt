//! What a map is asked for: a key, or what stands for one.
ghost use Rattle.std.specs.Prelude.{◌≡◌, ℕ};
ghost use Rattle.std.specs.declared.cmp.Ordering.{Ordering};
ghost use Rattle.std.specs.declared.cmp.Ordering.TheVariants.{Equal};

use crate::node::MapKey;
use std::cmp::Ordering;

/// What an entry of a [`GrowingMap`](crate::GrowingMap) is looked for by: a key is, and so is what can be compared with
/// keys, as a `&str` with keys that have a `String`.
pub trait Seeks<K: MapKey> {
    /// How a key compares with what is sought.
    ghost compared: { K → Self → Ordering };

    /// The number of the keys that are sought.
    ghost sought: { Self → ℕ };

    /// Returns the number of the keys that are sought, which is what [`MapKey::number`] returns at each of them.
    fn sought_number(&self) -> u64
        ensures { result ≡ sought self.now };

    /// Compares a key with what is sought, as the keys' order does.
    fn compare_with(&self, key: &K) -> Ordering
        ensures { result ≡ compared key.now self.now };

    ghost same_number: { (key : K) (seeker : Self) → compared key seeker ≡ Equal → K.number key ≡ sought seeker };
}

impl<K: MapKey> Seeks<K> for K {
    ghost compared = { λ key seeker. K.cmp key seeker };

    ghost sought = { λ seeker. K.number seeker };

    ghost same_number = { λ key seeker same. K.same_number key seeker same };

    #[inline(always)]
    fn sought_number(&self) -> u64 {
        self.number()
    }

    #[inline(always)]
    fn compare_with(&self, key: &K) -> Ordering {
        key.cmp(self)
    }
}
