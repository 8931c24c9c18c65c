//! A map, whose entries are read all the time, inserted, replaced and removed; or a cache, which has so many at most.
ghost use Rattle.std.specs.Prelude.{◌≡◌, ◌⊎◌, ℕ, true, false, None, Some, Ok, IsOk, IsTrue, IfErr, IfOk, IfSome, ◌↔◌};
ghost use Rattle.std.specs.Fn.{FnOnceReturnsAt, FnReturnsAt};
ghost use Rattle.std.specs.declared.cmp.Ordering.TheVariants.{Equal};
ghost use Rattle.epoch_map.specs.Placing.{KeepsOrRetires};
ghost use Rattle.epoch_cells.specs.declared.fault.Fault.TheVariants.{CellsFull, NoMemory, TriesOut};
ghost use Rattle.epoch_shared.specs.Contents.{HasEntry};

pub(crate) mod calls;
pub(crate) mod hold;
pub(crate) mod inserting;
pub(crate) mod node;
pub(crate) mod parts;
pub(crate) mod removing;

use epoch_cells::{Fault, Refused};
use epoch_map::{MapKey, Seeks};

/// One thread's look-ups in a map that threads share. A call pins for as long as it lasts, and for no longer.
pub trait MapReads<K: MapKey, V> {
    /// An entry has this key and this value.
    ghost is_entry: { K → V → Type 0 };

    /// So many entries were counted. If the type is a parameter, nothing but [`MapReads::len`] shows it.
    ghost has_counted: { Self → ℕ → Type 0 };

    /// Looks at the value of this key, and returns what `look` makes of it. `None`: the key was seen missing.
    ///
    /// A map of `Hashed<String>` is also asked by `Hashed::new("text")`, for which no `String` is made.
    ///
    /// It writes nothing that threads share, except that the thread is pinned. The value stays as it is until `look`
    /// returns, whatever other threads do.
    fn get<Q: Seeks<K>, R: Drop, F: FnOnce(&V) -> R + Drop>(
        &mut self,
        key: &Q,
        look: F,
    ) -> Option<R>
        requires { F.IsAlwaysCallable look }
        // What a look-up returns is what its closure returned at the value of an entry whose key compares as equal to
        // what was asked for.
        ensures given { IfSome result (λ made. (there : K) × (value : V) × is_entry there value
            × (Q.compared there key.now ≡ Equal) × FnOnceReturnsAt F.FnOnce look value made) };

    /// Returns whether the key has a value.
    fn contains<Q: Seeks<K>>(&mut self, key: &Q) -> bool
        // A key is there only if an entry was found whose key compares as equal.
        ensures found { IsTrue result → (there : K) × (value : V) × is_entry there value
            × (Q.compared there key.now ≡ Equal) };

    /// Calls `each` with the key and the value of each entry, in no order of the keys.
    ///
    /// An entry that is there from the beginning to the end is shown once. One that is inserted or removed meanwhile
    /// may be shown or not. The thread is pinned until all were shown, so what any thread removes meanwhile, from this
    /// map or from what is shared with it, stays in memory until then.
    fn for_each<F: FnMut(&K, &V) + Drop>(&mut self, each: F)
        requires { F.IsAlwaysCallable each };

    /// Returns how many entries there are: exactly, while no other thread inserts or removes any.
    fn len(&self) -> usize
        // The number of entries is one that was counted, and a map is empty exactly if none were.
        ensures { has_counted self.now result };

    /// Returns whether there are none, as [`MapReads::len`] does.
    fn is_empty(&self) -> bool
        ensures { (count : ℕ) × has_counted self.now count × (IsTrue result ↔ (count ≡ 0)) }
    {
        self.len() == 0
    }
}

/// One thread's calls that give keys of a map values. A call pins for as long as it lasts, and for no longer.
///
/// `TriesOut` says that other threads were first 2^64 times.
pub trait MapInserts<K: MapKey, V> {
    /// An entry has this key and this value.
    ghost is_entry: { K → V → Type 0 };

    /// An entry was made of this key and this value.
    ghost is_made: { K → V → Type 0 };

    /// Gives the key this value, unless it has one. Returns whether it did; if the key has a value, the new one is
    /// dropped.
    ///
    /// `CellsFull`: there are about 16 million entries, or so many that were removed are looked at still. `NoMemory`:
    /// an allocation was refused. The key and the value come back, unless their entry was placed.
    fn insert(&mut self, key: K, value: V) -> Result<bool, Refused<Option<(K, V)>>>
        // Of a key and a value that are inserted, an entry was made. A key is refused as being there only if an entry
        // was found whose key compares as equal.
        ensures inserted { result ≡ Ok true → is_made key value }
        ensures found { result ≡ Ok false → HasEntry is_entry (λ there. K.cmp there key ≡ Equal) }
        // An insert or a put that is refused hands its key and value back, or says with `TriesOut` that their entry was
        // placed, and is dropped. It is refused only with `NoMemory`, `CellsFull` or `TriesOut`.
        ensures handed_back { IfErr result (λ back. KeepsOrRetires (key, value) back) }
        ensures refused { IfErr result (λ back. (back.fault ≡ NoMemory) ⊎ (back.fault ≡ CellsFull)
            ⊎ (back.fault ≡ TriesOut)) };

    /// Gives the key this value. If it has one, that is replaced in one step, so that no look-up sees the key missing,
    /// and dropped once no thread looks at it any more. Returns whether there was one.
    ///
    /// The faults are those of [`MapInserts::insert`], and hand back the same. Nothing was replaced.
    fn put(&mut self, key: K, value: V) -> Result<bool, Refused<Option<(K, V)>>>
        // Of a key and a value that are put, an entry was made. One is told as replaced only if it was found, and its
        // key compares as equal.
        ensures put { IsOk result → is_made key value }
        ensures replaced { result ≡ Ok true → HasEntry is_entry (λ there. K.cmp there key ≡ Equal) }
        ensures handed_back { IfErr result (λ back. KeepsOrRetires (key, value) back) }
        ensures refused { IfErr result (λ back. (back.fault ≡ NoMemory) ⊎ (back.fault ≡ CellsFull)
            ⊎ (back.fault ≡ TriesOut)) };

    /// Looks at the value of this key. If it has none, it is given what `make` returns first, which may be looked at,
    /// too, if another thread gives the key a value meanwhile. `None`: `make` returned `None`.
    ///
    /// The faults are those of [`MapInserts::insert`], and hand back the same.
    fn get_or_insert_with<R: Drop, M: FnOnce() -> Option<V> + Drop, F: Fn(&V) -> R + Drop>(
        &mut self,
        key: K,
        make: M,
        look: F,
    ) -> Result<Option<R>, Refused<Option<(K, V)>>>
        requires make { M.IsAlwaysCallable make }
        requires look { F.IsAlwaysCallable look }
        // A look-up that inserts returns what `look` returned at what `make` made, or at the value of an entry whose
        // key compares as equal; or `None` only if `make` did. If it is refused, it hands back its key and what `make`
        // made, or says with `TriesOut` that their entry was placed, and is dropped.
        ensures given { IfOk result (λ seen. IfSome seen (λ made. (value : V) × FnReturnsAt F.Fn look value made
            × (M.post make (Some value)
            ⊎ ((there : K) × is_entry there value × (K.cmp there key ≡ Equal))))) }
        ensures none { result ≡ Ok None → M.post make None }
        ensures handed_back { IfErr result
            (λ back. (value : V) × M.post make (Some value) × KeepsOrRetires (key, value) back) }
        ensures refused { IfErr result (λ back. (back.fault ≡ NoMemory) ⊎ (back.fault ≡ CellsFull)
            ⊎ (back.fault ≡ TriesOut)) };
}

/// One thread's calls that remove entries of a map. A call pins for as long as it lasts, and for no longer.
///
/// `TriesOut` says that other threads were first 2^64 times.
pub trait MapRemovals<K: MapKey, V> {
    /// An entry has this key and this value.
    ghost is_entry: { K → V → Type 0 };

    /// Removes the key, which is given as to [`MapReads::get`]. Returns whether this call did: of several threads that
    /// remove a key at once, one does. Its value is dropped once no thread looks at it any more.
    ///
    /// `NoMemory`: an allocation was refused. Nothing was removed.
    fn remove<Q: Seeks<K>>(&mut self, key: &Q) -> Result<bool, Fault>
        // A key is told as removed only if an entry was found whose key compares as equal. A removal is refused only
        // with `NoMemory` or `TriesOut`.
        ensures removed { result ≡ Ok true → HasEntry is_entry (λ there. Q.compared there key.now ≡ Equal) }
        ensures refused { IfErr result (λ fault. (fault ≡ NoMemory) ⊎ (fault ≡ TriesOut)) };

    /// Removes the entries for which `keep` returns `false`. It goes over the entries as [`MapReads::for_each`] does,
    /// and removes each by its key: a value that another thread put there since `keep` was called goes, too.
    ///
    /// `NoMemory`: an allocation was refused, and the entry that was shown last stays, with those that weren't shown.
    fn retain<F: FnMut(&K, &V) -> bool + Drop>(&mut self, keep: F) -> Result<(), Fault>
        requires { F.IsAlwaysCallable keep }
        ensures refused { IfErr result (λ fault. (fault ≡ NoMemory) ⊎ (fault ≡ TriesOut)) };

    /// Removes the entries one by one until the map is seen empty. As long as other threads insert, it goes on.
    ///
    /// `NoMemory`: an allocation was refused, and some of the entries stay.
    fn clear(&mut self) -> Result<(), Fault>
        ensures refused { IfErr result (λ fault. (fault ≡ NoMemory) ⊎ (fault ≡ TriesOut)) };
}

/// One thread's calls of a map that threads share: those of [`MapReads`], [`MapInserts`] and [`MapRemovals`].
///
/// A map that was made with a capacity is a cache: where there are too many entries, the call that inserted one takes
/// others out. The first to go is the one behind the new entry in the list of all entries, whose order is that of the
/// hashes, so it is as good as one by chance. Once no call that inserts is under way, there are never more entries than
/// the capacity says, unless memory was refused: then one too many may stay until the next insert.
pub trait SharedMap<K: MapKey, V>: MapReads<K, V> + MapInserts<K, V> + MapRemovals<K, V> {}

// The calls stand in three traits, since the checker has a limit for what it compares where a type is passed for one:
// all that is known of a store, once for each call.
impl<K: MapKey, V, M: MapReads<K, V> + MapInserts<K, V> + MapRemovals<K, V>> SharedMap<K, V>
    for M {}
