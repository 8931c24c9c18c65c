//! The keys and the nodes of a map.
ghost use Rattle.std.specs.Prelude.{◌≡◌, ℕ, refl};
ghost use Rattle.std.specs.declared.cmp.Ordering.TheVariants.{Equal};
ghost use Rattle.std.proofs.Common.{lit≤, rules};
ghost use Rattle.epoch_map.specs.Entries.{lent_key, lent_value};

use epoch_atomic::atomic::Pointable;
use epoch_cells::Fault;
use epoch_lend_nodes::{LentNode, Link};
use std::alloc::Global;

/// Keys of a map: they have an order, and each has a number that chooses its bucket.
pub trait MapKey: Ord {
    /// The number of a key.
    ghost number: { Self → ℕ };

    /// Returns the number whose lowest bits choose the key's bucket. Equal keys have the same number. Keys that are not
    /// equal should differ in it, and best in its lowest bits: a call walks along the entries of a bucket. A
    /// [`LendingMap`](crate::LendingMap) of one bucket needs none: then this may be 0 for all keys.
    fn number(&self) -> u64
        ensures { result ≡ number self.now };

    ghost same_number: { (a b : Self) → Self.cmp a b ≡ Equal → number a ≡ number b };
}

impl MapKey for u64 {
    ghost number = { λ key. key };

    ghost same_number = { λ a b same. Prim.search rules };

    #[inline(always)]
    fn number(&self) -> u64 {
        *self
    }
}

impl MapKey for u32 {
    ghost number = { λ key. key };

    ghost same_number = { λ a b same. Prim.search rules };

    #[inline(always)]
    fn number(&self) -> u64 {
        *self as u64
    }
}

/// A type of nodes of a map. [`LentEntry`] has a key and a value of any types, and a type of your own has what you like
/// beside the key and the pointer.
pub trait MapNode: LentNode {
    /// What its nodes are found by.
    type Key: MapKey;

    /// The key of a node.
    ghost key: { Self → Self.Key };

    /// Returns the key, which stays the same as long as the node is in a map.
    fn key(&self) -> &Self::Key
        ensures { result.now ≡ key self.now };
}

/// A key with its value, and the pointer to the node behind it. That pointer has tag 1 as soon as the entry is removed
/// or replaced.
#[derive(Drop)]
pub struct LentEntry<K, V> {
    key: K,
    next: Link<LentEntry<K, V>>,
    value: V,
}

impl<K: Drop, V: Drop> LentEntry<K, V> {
    /// Makes an entry of this key with this value.
    pub fn new(key: K, value: V) -> LentEntry<K, V>
        ensures key { lent_key result ≡ key }
        // An entry has the key and the value that it was made with.
        ensures value { lent_value result ≡ value }
    {
        let next = Link::null();
        LentEntry { key, next, value }
    }

    /// Returns the key and the value of an entry that isn't in a map.
    pub fn into_parts(self) -> (K, V)
        ensures { (result.0 ≡ lent_key self) × (result.1 ≡ lent_value self) }
    {
        let LentEntry {
            key,
            next: _,
            value,
        } = self;
        (key, value)
    }
}

impl<K, V> LentEntry<K, V> {
    /// Returns the value.
    #[inline(always)]
    pub fn value(&self) -> &V
        ensures { result.now ≡ lent_value self.now }
    {
        &self.value
    }
}

impl<K, V> Pointable for LentEntry<K, V> {
    ghost ALIGN = { 8 };

    ghost log = { 3 };

    ghost is_power = { refl };

    ghost is_small = { lit≤ tt };

    const ALIGN: usize = 8;

    type Init = LentEntry<K, V>;

    ghost init_gives = { λ init entry. entry ≡ init };

    fn init(_alloc: Global, init: LentEntry<K, V>) -> Result<LentEntry<K, V>, Fault> {
        Ok(init)
    }
}

impl<K: Drop, V: Drop> LentNode for LentEntry<K, V> {
    #[inline(always)]
    fn next(&self) -> &Link<LentEntry<K, V>> {
        &self.next
    }

    #[inline(always)]
    fn set_next(&mut self, next: Link<LentEntry<K, V>>) {
        self.next = next;
    }
}

impl<K: MapKey + Drop, V: Drop> MapNode for LentEntry<K, V> {
    type Key = K;

    ghost key = { lent_key };

    #[inline(always)]
    fn key(&self) -> &K {
        &self.key
    }
}
