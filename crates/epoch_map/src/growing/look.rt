//! Look-ups in a growing map, which write nothing that threads share.
ghost use Rattle.std.specs.Prelude.{◌≡◌, map, Option, IfSome, IsSomeAnd};
ghost use Rattle.epoch_cells.specs.declared.cells.name.Name.{Name};
ghost use Rattle.std.specs.declared.cmp.Ordering.TheVariants.{Equal};

use crate::growing::GrowingMap;
use crate::growing::hints::compare;
use crate::growing::table::Bucket;
use crate::node::MapNode;
use crate::seeks::Seeks;
use epoch_lend::readers::posts::PostSet;
use epoch_lend::session::LendingGuard;
use epoch_lend_pointers::steps::{HasStoreSteps, StoreSteps};
use std::cmp::Ordering;

impl<'q, 's, J: PostSet, N: MapNode> GrowingMap<'q, 's, J, N> {
    // Looks for the node of this key from the one to which its bucket's hint leads, or from an earlier bucket on, and
    // passes by nodes whose entries are removed. The walk goes from link to link: what it carries on is one address.
    #[inline(never)]
    fn seek_further<'g, Q: Seeks<N::Key>, M: StoreSteps<N>>(
        &self,
        guard: &'g LendingGuard<'_, J>,
        key: &Q,
        bucket: Bucket,
        hinted: Option<&'g N>,
    ) -> Option<&'g N>
    where
        N: HasStoreSteps<M>,
        ensures found { IfSome result (λ node. Q.compared (N.key node.now) key.now ≡ Equal) }
        ensures lent { IfSome result (λ node. (name : Option Name) × IsSomeAnd name
            (λ name. M.lent (map (λ s. s.turns.log) self.now.cells.now.cells.first.slots.items) name node.now)) }
    {
        let order = match hinted {
            Some(node) => self.order(node, key, bucket.number),
            None => None,
        };
        let mut link = match (hinted, order) {
            (Some(node), Some(Ordering::Less)) => node.next(),
            _ => match self.hinted_before(guard, key, bucket, true) {
                Some(hinted) if hinted.found => return Some(hinted.node),
                Some(hinted) => hinted.node.next(),
                None => &self.head,
            },
        };
        for _ in 0..u64::MAX {
            let node = self.named(link.load(self.store).name(), guard)?;
            link = node.next();
            if link.load(self.store).tag() == 0 {
                match compare(node.key(), key, bucket.number) {
                    Ordering::Less => {}
                    Ordering::Equal => return Some(node),
                    Ordering::Greater => return None,
                }
            }
        }
        None
    }

    /// Looks for the entry of this key, and lends it for as long as the guard is borrowed. `None`: the key was seen
    /// missing.
    #[inline(always)]
    pub fn get<'g, Q: Seeks<N::Key>, M: StoreSteps<N>>(
        &self,
        guard: &'g LendingGuard<'_, J>,
        key: &Q,
    ) -> Option<&'g N>
    where
        N: HasStoreSteps<M>,
        ensures found { IfSome result (λ node. Q.compared (N.key node.now) key.now ≡ Equal) }
        // What a look-up in a growing map lends is a node that the map's cells lent under its name.
        ensures lent { IfSome result (λ node. (name : Option Name) × IsSomeAnd name
            (λ name. M.lent (map (λ s. s.turns.log) self.now.cells.now.cells.first.slots.items) name node.now)) }
    {
        let (bucket, hint) = self.table.find(key.sought_number());
        let hinted = self.named(hint, guard);
        if let Some(node) = hinted {
            // A node whose pointer has no tag is in the map. Mostly it is the one that is looked for.
            if self.behind(node).tag() == 0 {
                if let Ordering::Equal = key.compare_with(node.key()) {
                    return Some(node);
                }
            }
        }
        self.seek_further(guard, key, bucket, hinted)
    }

    /// Returns whether the key is there.
    #[inline]
    pub fn contains<Q: Seeks<N::Key>>(&self, guard: &LendingGuard<'_, J>, key: &Q) -> bool {
        self.get(guard, key).is_some()
    }
}
