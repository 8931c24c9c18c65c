//! Keys of a map with their hashes.
ghost use Rattle.std.specs.Prelude.{◌≡◌, string_bytes};
ghost use Rattle.std.specs.Ordering.{nat_cmp, ordering_then};
ghost use Rattle.std.specs.Cmp.Lexicographic.{slice_cmp};
ghost use Rattle.std.proofs.Common.{rules};
ghost use Rattle.std.specs.Cmp.Rules.{comparing};
ghost use Rattle.std.specs.Hash.DefaultHasher as sip;
ghost use Rattle.epoch_shared.specs.Keys.{hash_by, hash_in, key_in};

use epoch_map::{MapKey, Seeks};
use std::cmp::Ordering;
use std::hash::{BuildHasher, DefaultHasher, Hash, Hasher};

/// A key of any type, such as `String`, beside its hash, which comes first in the order and chooses the bucket.
#[derive(Debug, PartialEq, Eq, PartialOrd, Ord, Drop)]
pub struct Hashed<K> {
    hash: u64,
    key: K,
}

impl<K: Hash> Hashed<K> {
    /// Makes a key of this value. Its hash is always the same one, so where strangers choose the keys, take
    /// [`Hashed::with_hasher`].
    pub fn new(key: K) -> Hashed<K>
        // A key with a hash has the value that it was made of, and the hash that its hasher makes of that.
        ensures key { key_in result ≡ key }
        ensures hash { hash_in result ≡ hash_by sip.write sip.finish sip.initial (K.hash_input key) }
    {
        Hashed::of(key, DefaultHasher::new())
    }

    /// Makes a key of this value, and takes its hash from a hasher of `state`. With a `RandomState`, nobody who doesn't
    /// know it can choose keys that share a bucket.
    ///
    /// All keys of a map need hashers of one state: with another one, a key isn't found.
    pub fn with_hasher<S: BuildHasher>(key: K, state: &S) -> Hashed<K>
        ensures key { key_in result ≡ key }
        ensures hash { hash_in result
            ≡ hash_by S.Hasher.write S.Hasher.finish (S.build_hasher state.now) (K.hash_input key) }
    {
        Hashed::of(key, state.build_hasher())
    }

    // Makes a key of this value, with this hasher.
    fn of<H: Hasher + Drop>(key: K, hasher: H) -> Hashed<K>
        ensures key { key_in result ≡ key }
        ensures hash { hash_in result ≡ hash_by H.write H.finish hasher (K.hash_input key) }
    {
        let mut hasher = hasher;
        key.hash(&mut hasher);
        let hash = hasher.finish();
        Hashed { hash, key }
    }
}

impl<K> Hashed<K> {
    /// Returns the value.
    pub fn key(&self) -> &K
        ensures { result.now ≡ key_in self.now }
    {
        &self.key
    }
}

impl<K: Ord> MapKey for Hashed<K> {
    ghost number = { λ key. key.hash };

    ghost same_number = { λ a b same. Prim.search (comparing, rules) };

    fn number(&self) -> u64 {
        self.hash
    }
}

// A text stands for a key that has it as a `String`.
impl Seeks<Hashed<String>> for Hashed<&str> {
    ghost compared = { λ key seeker. ordering_then (nat_cmp key.hash seeker.hash)
        (slice_cmp nat_cmp (string_bytes key.key) seeker.key.now) };

    ghost sought = { λ seeker. seeker.hash };

    ghost same_number = { λ key seeker same. Prim.search (comparing, rules) };

    fn sought_number(&self) -> u64 {
        let Hashed { hash, key: _ } = self;
        *hash
    }

    fn compare_with(&self, key: &Hashed<String>) -> Ordering {
        match key.hash.cmp(&self.hash) {
            Ordering::Equal => key.key.as_str().cmp(self.key),
            other => other,
        }
    }
}
