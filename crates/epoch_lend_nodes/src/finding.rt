//! Nodes that are found by their names.
ghost use Rattle.std.specs.Prelude.{IfSome};
ghost use Rattle.epoch_lend_nodes.specs.Finding.{IsFound};

use epoch_cells::Name;
use epoch_lend::readers::posts::PostSet;
use epoch_lend::session::LendingGuard;
use epoch_lend_pointers::Store;
use epoch_lend_pointers::steps::{HasStoreSteps, StoreSteps};

/// Lends the node of this name for as long as the guard is borrowed, as [`Store::get_named`] does. `None`: no name is
/// given, or the node was retired, and each pin from before is over.
#[inline(always)]
pub fn node_named<'g, J: PostSet, N: Drop, M: StoreSteps<N>>(
    store: &Store<'_, J, N>,
    guard: &'g LendingGuard<'_, J>,
    name: Option<Name>,
) -> Option<&'g N>
where
    N: HasStoreSteps<M>,
    // A node that is lent by its name was found in the store, under some name.
    ensures { IfSome result (λ node. IsFound (M.did J.posts store.now.number) node.now) }
{
    let node = store.get_named(name?, guard)?;
    Some(node)
}
