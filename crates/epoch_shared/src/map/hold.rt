//! A map that threads share, and what one thread has for its look-ups.
ghost use Rattle.std.specs.Prelude.{◌≡◌, IsSome, IfErr};
ghost use Rattle.epoch_cells.specs.declared.fault.Fault.TheVariants.{NoMemory, TableFull};
ghost use Rattle.epoch_shared.specs.Contents.{IsOfNode};

use crate::map::MapReads;
use crate::map::calls::{go_over, is_there, look_up};
use crate::map::node::KeepsEntry;
use epoch_cells::Fault;
use epoch_lend::readers::posts::PostSet;
use epoch_lend::session::Session;
use epoch_lend_pointers::Store;
use epoch_map::{GrowingMap, Seeks};
use std::alloc::Global;

// A map that threads share, and the store in which its entries stand.
#[derive(Drop)]
pub(crate) struct MapRoot<'q, 's, J: PostSet, N> {
    pub(crate) store: &'q Store<'s, J, N>,
    pub(crate) map: GrowingMap<'q, 's, J, N>,
    // How many entries it has at most.
    pub(crate) most: usize,
    pub(crate) ghost own: { store.now.number ≡ map.number },
}

unsafe impl<J: PostSet, N: Send + Sync> Sync for MapRoot<'_, '_, J, N> {}

impl<'q, 's, J: PostSet, N: KeepsEntry> MapRoot<'q, 's, J, N> {
    // Makes an empty map in this store, or a cache of this capacity.
    pub(crate) fn new(
        alloc: Global,
        store: &'q Store<'s, J, N>,
        capacity: Option<u32>,
    ) -> Result<MapRoot<'q, 's, J, N>, Fault>
        ensures refused { IfErr result (λ fault. fault ≡ NoMemory) }
    {
        let map = GrowingMap::new(alloc, store)?;
        let most = match capacity {
            Some(most) => most as usize,
            None => usize::MAX,
        };
        Ok(MapRoot { store, map, most })
    }
}

// What one thread has for its look-ups.
#[derive(Drop)]
pub(crate) struct LookHold<'a, 'q, 's, J: PostSet, N> {
    session: Session<'s, J>,
    map: &'a GrowingMap<'q, 's, J, N>,
    // No guard of the session is out.
    ghost free: { IsSome session.reader },
}

impl<'a, 'q, 's, J: PostSet, N: KeepsEntry> LookHold<'a, 'q, 's, J, N> {
    // Takes a post.
    pub(crate) fn join(root: &'a MapRoot<'q, 's, J, N>) -> Result<LookHold<'a, 'q, 's, J, N>, Fault>
        ensures refused { IfErr result (λ fault. fault ≡ TableFull) }
    {
        let map = &root.map;
        match root.store.domain().session() {
            Some(session) => Ok(LookHold { session, map }),
            None => Err(Fault::TableFull),
        }
    }
}

impl<J: PostSet, N: KeepsEntry> MapReads<N::Key, N::Value> for LookHold<'_, '_, '_, J, N> {
    ghost is_entry = { IsOfNode N.key N.entry };

    ghost has_counted = { λ _ _. Unit {0} };

    fn get<Q: Seeks<N::Key>, R: Drop, F: FnOnce(&N::Value) -> R + Drop>(
        &mut self,
        key: &Q,
        look: F,
    ) -> Option<R> {
        let map = self.map;
        let guard = self.session.pin();
        let seen = look_up(map, &guard, key, look);
        self.session.unpin(guard);
        seen
    }

    fn contains<Q: Seeks<N::Key>>(&mut self, key: &Q) -> bool {
        let map = self.map;
        let guard = self.session.pin();
        let is_there = is_there(map, &guard, key);
        self.session.unpin(guard);
        is_there
    }

    fn for_each<F: FnMut(&N::Key, &N::Value) + Drop>(&mut self, each: F) {
        let mut each = each;
        let map = self.map;
        let guard = self.session.pin();
        go_over(map, &guard, &mut each);
        self.session.unpin(guard);
    }

    fn len(&self) -> usize {
        self.map.len()
    }
}
