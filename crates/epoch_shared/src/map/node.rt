//! The nodes of a map that threads share.
ghost use Rattle.std.specs.Prelude.{◌≡◌};
ghost use Rattle.epoch_map.specs.Entries.{lent_key, lent_value};

use epoch_map::{LentEntry, MapKey, MapNode};

/// A type of nodes that have a key and a value each, as [`Wraps`] of the module `value` is of those with a value.
pub(crate) trait KeepsEntry: MapNode {
    /// What a key is given.
    type Value: Drop;

    /// The key and the value of a node.
    ghost entry: { Self → Self.Key × Self.Value };

    /// Makes a node of this key with this value.
    fn with(key: Self::Key, value: Self::Value) -> Self
        ensures key { Self.key result ≡ key }
        ensures entry { entry result ≡ (key, value) };

    /// Returns the value.
    fn value(&self) -> &Self::Value
        ensures { result.now ≡ (entry self.now).1 };

    /// Returns the key and the value of a node that isn't in a map.
    fn into_pair(self) -> (Self::Key, Self::Value)
        ensures { result ≡ entry self };

    /// Drops a key.
    fn drop_key(key: Self::Key);
}

impl<K: MapKey + Drop, V: Drop> KeepsEntry for LentEntry<K, V> {
    type Value = V;

    ghost entry = { λ entry. (lent_key entry, lent_value entry) };

    fn with(key: K, value: V) -> LentEntry<K, V> {
        LentEntry::new(key, value)
    }

    fn value(&self) -> &V {
        self.value()
    }

    fn into_pair(self) -> (K, V) {
        self.into_parts()
    }

    fn drop_key(_key: K) {}
}
