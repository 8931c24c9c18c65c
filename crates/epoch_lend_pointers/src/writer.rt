//! Writers: what one thread has of a store for itself.
ghost use Rattle.std.specs.Prelude.{◌≡◌, [], IsOk, IfOk, IfErr, IsOkUnless};
ghost use Rattle.epoch_cells.specs.declared.fault.Fault.TheVariants.{NoMemory};
ghost use Rattle.epoch_lend_pointers.specs.Steps.{HandsOverAll, StaysOrWaits};

use crate::steps::{HasStoreSteps, StoreSteps};
use crate::store::retired::Retired;
use crate::store::settling::LastTry;
use crate::store::{Held, LentRooms, Store};
use epoch_cells::Fault;
use epoch_lend::readers::posts::PostSet;
use epoch_lend::steps::{HasPinSteps, PinSteps};
use std::alloc::Global;
use std::fmt;

/// One thread's own half of a store: free cells for its next values, and the values that it has retired and gathers.
/// It must be given back, by [`Writer::release`].
///
/// A thread may have several writers of one store.
pub struct Writer<'q, 's, J: PostSet, T> {
    pub(crate) store: &'q Store<'s, J, T>,
    // What was retired, and doesn't wait in the store yet.
    pub(crate) kept: Retired<'s, J, T>,
    // Free cells, for the next values.
    pub(crate) rooms: LentRooms<'s, J, T>,
    // What found no place to wait in the store.
    pub(crate) held: Option<Held<'s, J, T>>,
    pub(crate) last_try: LastTry,
    pub(crate) alloc: Global,
}

impl<J: PostSet, T> fmt::Debug for Writer<'_, '_, J, T> {
    fn fmt<F: fmt::Write>(&self, f: &mut fmt::Formatter<F>) -> fmt::Result {
        f.pad("Writer { .. }")
    }
}

impl<'q, 's, J: PostSet, T> Writer<'q, 's, J, T> {
    /// Returns the store.
    #[inline(always)]
    pub fn store(&self) -> &'q Store<'s, J, T>
        ensures { result.now ≡ self.now.store.now }
    {
        self.store
    }
}

impl<'q, 's, J: PostSet, T: Drop> Writer<'q, 's, J, T> {
    /// Makes a writer of this store.
    ///
    /// `NoMemory`: an allocation was refused.
    pub fn new(alloc: Global, store: &'q Store<'s, J, T>) -> Result<Writer<'q, 's, J, T>, Fault>
        ensures memory { IsOkUnless result NoMemory }
        ensures store { IfOk result (λ writer. writer.store.now ≡ store.now) }
        ensures none { IfOk result (λ writer. writer.kept.lists.value.spots.items ≡ []) }
    {
        match Retired::new(alloc) {
            Ok(kept) => Ok(Writer {
                store,
                kept,
                rooms: LentRooms::none(alloc),
                held: None,
                last_try: LastTry::none(),
                alloc,
            }),
            Err(_) => Err(Fault::NoMemory),
        }
    }

    /// Gives the writer up. The values that it has gathered wait in the store, as after a flush, and its free cells are
    /// left for other writers.
    ///
    /// `NoMemory`: an allocation was refused, or no place to wait was seen, and the writer comes back.
    pub fn release<S: PinSteps, M: StoreSteps<T>>(self) -> Result<(), (Writer<'q, 's, J, T>, Fault)>
    where
        J: HasPinSteps<S>,
        T: HasStoreSteps<M>,
        ensures ok { IsOk result → HandsOverAll (S.did J.posts) (M.did J.posts self.entry.store.now.number)
            self.entry.kept.lists.value.spots.items }
        ensures err { IfErr result (λ back. (back.0.store ≡ self.entry.store)
            × StaysOrWaits (S.did J.posts) (M.did J.posts self.entry.store.now.number)
            self.entry.kept.lists.value.spots.items
            back.0.kept.lists.value.spots.items) }
        ensures fault { IfErr result (λ back. back.1 ≡ NoMemory) }
    {
        let mut staying = self;
        if let Err(fault) = staying.flush() {
            return Err((staying, fault));
        }
        if let Err(fault) = staying.put_held() {
            return Err((staying, fault));
        }
        let Writer {
            store,
            kept,
            rooms,
            held,
            last_try: _,
            alloc: _,
        } = staying;
        kept.finish();
        match held {
            None => {}
            Some(_) => unreachable!(),
        }
        store.leave_rooms(rooms);
        Ok(())
    }
}
