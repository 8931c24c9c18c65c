//! What one thread has to remove entries of a map.
ghost use Rattle.std.specs.Prelude.{◌≡◌, ◌⊎◌, IsSome, IfErr};
ghost use Rattle.epoch_cells.specs.declared.fault.Fault.TheVariants.{NoMemory, TableFull};
ghost use Rattle.epoch_shared.specs.Contents.{IsOfNode};

use crate::leaving::leave;
use crate::map::MapRemovals;
use crate::map::calls::{remove_in, retain_in};
use crate::map::hold::MapRoot;
use crate::map::node::KeepsEntry;
use epoch_cells::Fault;
use epoch_lend::readers::posts::PostSet;
use epoch_lend::session::Session;
use epoch_lend_pointers::Writer;
use epoch_map::{GrowingMap, Seeks};
use std::alloc::Global;

// What one thread has for its calls that remove entries.
pub(crate) struct RemoveHold<'a, 'q, 's, J: PostSet, N> {
    session: Session<'s, J>,
    writer: Writer<'q, 's, J, N>,
    map: &'a GrowingMap<'q, 's, J, N>,
    // No guard of the session is out, and the map is in the writer's store.
    ghost free: { IsSome session.reader },
    ghost own: { writer.store.now.number ≡ map.now.number },
}

impl<'a, 'q, 's, J: PostSet, N: KeepsEntry> RemoveHold<'a, 'q, 's, J, N> {
    // Takes a post and makes a writer.
    pub(crate) fn join(
        alloc: Global,
        root: &'a MapRoot<'q, 's, J, N>,
    ) -> Result<RemoveHold<'a, 'q, 's, J, N>, Fault>
        ensures refused { IfErr result (λ fault. (fault ≡ NoMemory) ⊎ (fault ≡ TableFull)) }
    {
        let Some(session) = root.store.domain().session() else {
            return Err(Fault::TableFull);
        };
        let writer = Writer::new(alloc, root.store)?;
        let map = &root.map;
        Ok(RemoveHold {
            session,
            writer,
            map,
        })
    }

    // Gives the post and the writer back.
    pub(crate) fn leave(self) {
        let RemoveHold {
            session: _,
            writer,
            map: _,
        } = self;
        leave(writer);
    }
}

impl<J: PostSet, N: KeepsEntry> MapRemovals<N::Key, N::Value> for RemoveHold<'_, '_, '_, J, N> {
    ghost is_entry = { IsOfNode N.key N.entry };

    fn remove<Q: Seeks<N::Key>>(&mut self, key: &Q) -> Result<bool, Fault> {
        let map = self.map;
        let guard = self.session.pin();
        let removed = remove_in(map, &mut self.writer, &guard, key);
        self.session.unpin(guard);
        removed
    }

    fn retain<F: FnMut(&N::Key, &N::Value) -> bool + Drop>(
        &mut self,
        keep: F,
    ) -> Result<(), Fault> {
        let mut keep = keep;
        let map = self.map;
        let guard = self.session.pin();
        let retained = retain_in(map, &mut self.writer, &guard, &mut keep);
        self.session.unpin(guard);
        retained
    }

    fn clear(&mut self) -> Result<(), Fault> {
        let map = self.map;
        let guard = self.session.pin();
        let cleared = map.clear(&mut self.writer, &guard);
        self.session.unpin(guard);
        cleared
    }
}
