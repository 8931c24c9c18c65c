//! What one thread has for its calls of a map, as one.
ghost use Rattle.std.specs.Prelude.{◌≡◌, ℕ};

use crate::map::{MapInserts, MapReads, MapRemovals};
use epoch_cells::{Fault, Refused};
use epoch_map::{MapKey, Seeks};

// What a thread has for each of the three kinds of calls. It is over any types with these calls, since all that is
// known of a store and of all calls at once would be more than the checker compares.
#[derive(Drop)]
pub(crate) struct MapParts<'l, 'i, 'r, L, I, R> {
    pub(crate) looks: &'l mut L,
    pub(crate) inserts: &'i mut I,
    pub(crate) removals: &'r mut R,
}

impl<K: MapKey, V, L: MapReads<K, V>, I, R> MapReads<K, V> for MapParts<'_, '_, '_, L, I, R> {
    ghost is_entry = { L.is_entry };

    ghost has_counted = { λ parts count. L.has_counted parts.looks.now count };

    fn get<Q: Seeks<K>, A: Drop, F: FnOnce(&V) -> A + Drop>(
        &mut self,
        key: &Q,
        look: F,
    ) -> Option<A> {
        self.looks.get(key, look)
    }

    fn contains<Q: Seeks<K>>(&mut self, key: &Q) -> bool {
        self.looks.contains(key)
    }

    fn for_each<F: FnMut(&K, &V) + Drop>(&mut self, each: F) {
        self.looks.for_each(each);
    }

    fn len(&self) -> usize {
        self.looks.len()
    }
}

impl<K: MapKey, V, L, I: MapInserts<K, V>, R> MapInserts<K, V> for MapParts<'_, '_, '_, L, I, R> {
    ghost is_entry = { I.is_entry };

    ghost is_made = { I.is_made };

    fn insert(&mut self, key: K, value: V) -> Result<bool, Refused<Option<(K, V)>>> {
        self.inserts.insert(key, value)
    }

    fn put(&mut self, key: K, value: V) -> Result<bool, Refused<Option<(K, V)>>> {
        self.inserts.put(key, value)
    }

    fn get_or_insert_with<A: Drop, M: FnOnce() -> Option<V> + Drop, F: Fn(&V) -> A + Drop>(
        &mut self,
        key: K,
        make: M,
        look: F,
    ) -> Result<Option<A>, Refused<Option<(K, V)>>> {
        self.inserts.get_or_insert_with(key, make, look)
    }
}

impl<K: MapKey, V, L, I, R: MapRemovals<K, V>> MapRemovals<K, V> for MapParts<'_, '_, '_, L, I, R> {
    ghost is_entry = { R.is_entry };

    fn remove<Q: Seeks<K>>(&mut self, key: &Q) -> Result<bool, Fault> {
        self.removals.remove(key)
    }

    fn retain<F: FnMut(&K, &V) -> bool + Drop>(&mut self, keep: F) -> Result<(), Fault> {
        self.removals.retain(keep)
    }

    fn clear(&mut self) -> Result<(), Fault> {
        self.removals.clear()
    }
}
