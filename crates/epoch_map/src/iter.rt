//! Going over the entries of a map.
ghost use Rattle.std.specs.Prelude.{IfSome};
ghost use Rattle.std.specs.Iterator.{at_most};
ghost use Rattle.epoch_lend_nodes.specs.Finding.{IsFound};

use crate::map::LendingMap;
use crate::node::MapNode;
use epoch_cells::Name;
use epoch_lend::readers::posts::PostSet;
use epoch_lend::session::LendingGuard;
use epoch_lend_nodes::{Link, node_named};
use epoch_lend_pointers::Store;
use epoch_lend_pointers::steps::{HasStoreSteps, InStores, StoreSteps};
use std::marker::PhantomData;

/// The entries of a map, bucket by bucket, and in each in the order of their keys: [`LendingMap::iter`]. Each is lent
/// for as long as the guard is borrowed. It writes nothing that threads share.
///
/// An entry that is in the map from the beginning to the end is given once; one that is inserted or removed meanwhile
/// may be given or not.
#[derive(Drop)]
pub struct MapIter<'g, 'd, 's, J: PostSet, N, M = InStores> {
    buckets: &'g [Link<N>],
    store: &'g Store<'s, J, N>,
    guard: &'g LendingGuard<'d, J>,
    at: At,
    // How many more it gives at most, so that it comes to an end while other threads insert.
    left: u64,
    // No value: only how the store's steps are made.
    steps: PhantomData<M>,
}

// Where an iterator goes on: at the node of this name, and behind its bucket's last one at this bucket.
#[derive(Clone, Copy, Default, Drop)]
struct At {
    next: Option<Name>,
    bucket: usize,
}

impl<'g, 'd, 's, J: PostSet, N: MapNode, M> MapIter<'g, 'd, 's, J, N, M> {
    /// Goes over the nodes of these buckets, which are in this store.
    pub(crate) fn of(
        buckets: &'g [Link<N>],
        store: &'g Store<'s, J, N>,
        guard: &'g LendingGuard<'d, J>,
    ) -> MapIter<'g, 'd, 's, J, N, M> {
        MapIter {
            buckets,
            store,
            guard,
            at: At::default(),
            left: u64::MAX,
            steps: PhantomData,
        }
    }
}

impl<'g, 'd, 's, J: PostSet, N: MapNode + HasStoreSteps<M>, M: StoreSteps<N>> Iterator
    for MapIter<'g, 'd, 's, J, N, M> {
    type Item = &'g N;

    ghost remaining = { λ iter. at_most iter.left };

    // Each entry that an iterator over a map gives was found in the map's store, under its name.
    ghost next_gives = { λ old result new.
        IfSome result (λ node. IsFound (M.did J.posts old.store.now.number) node.now) };

    /// Lends the next entry. `None`: there is none behind the last one.
    fn next(&mut self) -> Option<&'g N> {
        if self.left == 0 {
            return None;
        }
        self.left -= 1;
        let (entry, at) = entry_from(self.buckets, self.store, self.guard, self.at)?;
        self.at = at;
        Some(entry)
    }
}

// The first entry from there on, and where it goes on behind it.
fn entry_from<'g, J: PostSet, N: MapNode, M: StoreSteps<N>>(
    buckets: &[Link<N>],
    store: &Store<'_, J, N>,
    guard: &'g LendingGuard<'_, J>,
    at: At,
) -> Option<(&'g N, At)>
where
    N: HasStoreSteps<M>,
    ensures { IfSome result (λ given. IsFound (M.did J.posts store.now.number) given.0.now) }
{
    let mut next = at.next;
    for bucket in at.bucket..=buckets.len() {
        if let Some((node, next)) = entry_in_bucket(store, guard, next) {
            return Some((node, At { next, bucket }));
        }
        let first = buckets.get(bucket)?;
        next = first.load(store).name();
    }
    None
}

// The first entry from the node of this name on, and the name of the node behind it.
fn entry_in_bucket<'g, J: PostSet, N: MapNode, M: StoreSteps<N>>(
    store: &Store<'_, J, N>,
    guard: &'g LendingGuard<'_, J>,
    next: Option<Name>,
) -> Option<(&'g N, Option<Name>)>
where
    N: HasStoreSteps<M>,
    ensures { IfSome result (λ given. IsFound (M.did J.posts store.now.number) given.0.now) }
{
    let mut next = next;
    for _ in 0..u64::MAX {
        let node = node_named(store, guard, next)?;
        let after = node.next().load(store);
        next = after.name();
        // A node whose entry was removed has a pointer with tag 1, and leads on all the same.
        if after.tag() == 0 {
            return Some((node, next));
        }
    }
    None
}
