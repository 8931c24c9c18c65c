//! What one thread has to give keys of a map values.
ghost use Rattle.std.specs.Prelude.{◌≡◌, ◌⊎◌, None, Some, Ok, IsSome, IfErr, IfOk, IfSome};
ghost use Rattle.std.specs.Fn.{FnReturnsAt};
ghost use Rattle.std.specs.declared.cmp.Ordering.TheVariants.{Equal};
ghost use Rattle.epoch_map.specs.Placing.{KeepsOrRetires};
ghost use Rattle.epoch_cells.specs.declared.fault.Fault.TheVariants.{CellsFull, NoMemory, TableFull, TriesOut};
ghost use Rattle.epoch_shared.specs.Contents.{IsInNode, IsOfNode, SeesAt};

use crate::leaving::leave;
use crate::map::MapInserts;
use crate::map::calls::{insert_in, put_in, see_in};
use crate::map::hold::MapRoot;
use crate::map::node::KeepsEntry;
use epoch_cells::{Fault, Refused};
use epoch_lend::readers::posts::PostSet;
use epoch_lend::session::Session;
use epoch_lend_pointers::Writer;
use epoch_map::GrowingMap;
use std::alloc::Global;

// What one thread has for its calls that insert entries.
pub(crate) struct InsertHold<'a, 'q, 's, J: PostSet, N> {
    session: Session<'s, J>,
    writer: Writer<'q, 's, J, N>,
    map: &'a GrowingMap<'q, 's, J, N>,
    most: usize,
    // No guard of the session is out, and the map is in the writer's store.
    ghost free: { IsSome session.reader },
    ghost own: { writer.store.now.number ≡ map.now.number },
}

impl<'a, 'q, 's, J: PostSet, N: KeepsEntry> InsertHold<'a, 'q, 's, J, N> {
    // Takes a post and makes a writer.
    pub(crate) fn join(
        alloc: Global,
        root: &'a MapRoot<'q, 's, J, N>,
    ) -> Result<InsertHold<'a, 'q, 's, J, N>, Fault>
        ensures refused { IfErr result (λ fault. (fault ≡ NoMemory) ⊎ (fault ≡ TableFull)) }
    {
        let Some(session) = root.store.domain().session() else {
            return Err(Fault::TableFull);
        };
        let writer = Writer::new(alloc, root.store)?;
        let map = &root.map;
        let most = root.most;
        Ok(InsertHold {
            session,
            writer,
            map,
            most,
        })
    }

    // Gives the post and the writer back.
    pub(crate) fn leave(self) {
        let InsertHold {
            session: _,
            writer,
            map: _,
            most: _,
        } = self;
        leave(writer);
    }

    // Gives the key what `make` returns; or, if it has a value meanwhile, looks at that.
    fn make_entry<R: Drop, M: FnOnce() -> Option<N::Value> + Drop, F: Fn(&N::Value) -> R>(
        &mut self,
        key: N::Key,
        make: M,
        look: &F,
    ) -> Result<Option<R>, Refused<Option<(N::Key, N::Value)>>>
        requires make { M.IsAlwaysCallable make }
        requires look { F.IsAlwaysCallable look.now }
        ensures given { IfOk result (λ seen. IfSome seen
            (λ made. (value : N.Value) × FnReturnsAt F.Fn look.now value made
            × (M.post make (Some value)
            ⊎ ((there : N.Key) × IsOfNode N.key N.entry there value × (N.Key.cmp there key ≡ Equal))))) }
        ensures none { result ≡ Ok None → M.post make None }
        ensures handed_back { IfErr result
            (λ back. (value : N.Value) × M.post make (Some value) × KeepsOrRetires (key, value) back) }
        ensures refused { IfErr result (λ back. (back.fault ≡ NoMemory) ⊎ (back.fault ≡ CellsFull)
            ⊎ (back.fault ≡ TriesOut)) }
    {
        let Some(value) = make() else {
            N::drop_key(key);
            return Ok(None);
        };
        let own = look(&value);
        match self.insert_or_see((key, value), look) {
            Ok(Some(there)) => Ok(Some(there)),
            Ok(None) => Ok(Some(own)),
            Err(refused) => Err(refused),
        }
    }

    // Looks at the value of this key, with a closure that may be called again.
    fn see<R: Drop, F: Fn(&N::Value) -> R>(&mut self, key: &N::Key, look: &F) -> Option<R>
        requires { F.IsAlwaysCallable look.now }
        ensures given { IfSome result
            (SeesAt (IsOfNode N.key N.entry) (λ there. N.Key.cmp there key.now ≡ Equal) (FnReturnsAt F.Fn look.now)) }
    {
        let map = self.map;
        let guard = self.session.pin();
        let seen = see_in(map, &guard, key, look);
        self.session.unpin(guard);
        seen
    }

    // Gives the key this value; or, if it has one, looks at that.
    fn insert_or_see<R: Drop, F: Fn(&N::Value) -> R>(
        &mut self,
        pair: (N::Key, N::Value),
        look: &F,
    ) -> Result<Option<R>, Refused<Option<(N::Key, N::Value)>>>
        requires { F.IsAlwaysCallable look.now }
        ensures inserted { result ≡ Ok None → IsInNode N.entry pair }
        ensures given { IfOk result (λ seen. IfSome seen
            (SeesAt (IsOfNode N.key N.entry) (λ there. N.Key.cmp there pair.0 ≡ Equal) (FnReturnsAt F.Fn look.now))) }
        ensures handed_back { IfErr result (λ back. KeepsOrRetires pair back) }
        ensures refused { IfErr result (λ back. (back.fault ≡ NoMemory) ⊎ (back.fault ≡ CellsFull)
            ⊎ (back.fault ≡ TriesOut)) }
    {
        let map = self.map;
        let most = self.most;
        let guard = self.session.pin();
        let inserted = insert_in(map, most, &mut self.writer, &guard, pair, look);
        self.session.unpin(guard);
        inserted
    }
}

impl<J: PostSet, N: KeepsEntry> MapInserts<N::Key, N::Value> for InsertHold<'_, '_, '_, J, N> {
    ghost is_entry = { IsOfNode N.key N.entry };

    ghost is_made = { λ key value. IsInNode N.entry (key, value) };

    fn insert(
        &mut self,
        key: N::Key,
        value: N::Value,
    ) -> Result<bool, Refused<Option<(N::Key, N::Value)>>> {
        match self.insert_or_see((key, value), &|_there| true) {
            Ok(Some(_)) => Ok(false),
            Ok(None) => Ok(true),
            Err(refused) => Err(refused),
        }
    }

    fn put(
        &mut self,
        key: N::Key,
        value: N::Value,
    ) -> Result<bool, Refused<Option<(N::Key, N::Value)>>> {
        let map = self.map;
        let most = self.most;
        let guard = self.session.pin();
        let put = put_in(map, most, &mut self.writer, &guard, (key, value));
        self.session.unpin(guard);
        put
    }

    fn get_or_insert_with<
        R: Drop,
        M: FnOnce() -> Option<N::Value> + Drop,
        F: Fn(&N::Value) -> R + Drop,
    >(
        &mut self,
        key: N::Key,
        make: M,
        look: F,
    ) -> Result<Option<R>, Refused<Option<(N::Key, N::Value)>>> {
        match self.see(&key, &look) {
            Some(seen) => {
                N::drop_key(key);
                Ok(Some(seen))
            }
            None => self.make_entry(key, make, &look),
        }
    }
}
