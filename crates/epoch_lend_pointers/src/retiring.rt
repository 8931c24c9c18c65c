//! What a writer does with retired values: it gathers them, and lets them wait together in the store.
ghost use Rattle.std.specs.Prelude.{◌≡◌, ◌<◌, ◌≤◌, ◌⊎◌, [], length, vec_len, None, Some, IsOk, IsErr, IfErr};
ghost use Rattle.std.specs.Prelude.{IfSome, IsNone};
ghost use Rattle.epoch_cells.specs.declared.fault.Fault.TheVariants.{NoMemory, StrangerPointer};
ghost use Rattle.epoch_atomic.specs.Pointers.{IsUnder};
ghost use Rattle.epoch_lend_pointers.specs.Retiring.{KeepsSpot};
ghost use Rattle.epoch_lend_pointers.specs.Steps.{HandsOver, HandsOverAll, StaysOrWaits, GathersOn};

use crate::steps::{HasStoreSteps, StoreSteps};
use crate::store::Held;
use crate::store::retired::{RETIRED_TOGETHER, Retired, Ripening};
use crate::store::spots::spot_of;
use crate::writer::Writer;
use epoch_atomic::atomic::Shared;
use epoch_cells::{Fault, Name, Refused};
use epoch_lend::readers::posts::PostSet;
use epoch_lend::steps::{HasPinSteps, PinSteps};
use std::mem;

impl<'q, 's, J: PostSet, T: Drop> Writer<'q, 's, J, T> {
    // Moves the clock on, and lets the values that are gathered wait in the store, with the epoch that begins. Before
    // they do, what waits is tried: so these aren't, which no look can have passed yet. If they are refused, they are
    // kept as before.
    #[cold]
    #[inline(never)]
    fn hand_over<S: PinSteps, M: StoreSteps<T>>(&mut self) -> Result<(), Fault>
    where
        J: HasPinSteps<S>,
        T: HasStoreSteps<M>,
        ensures store { self.new.store ≡ self.old.store }
        ensures ok { IsOk result → self.new.kept.lists.value.spots.items ≡ [] }
        // Values that are handed over wait with the epoch to which the clock moved for them. If that is refused, for
        // want of memory, they stay gathered as before.
        ensures waits { IsOk result
            → HandsOver (S.did J.posts) (M.did J.posts self.old.store.now.number)
            self.old.kept.lists.value.spots.items }
        ensures err { IsErr result → self.new.kept.lists.value.spots.items ≡ self.old.kept.lists.value.spots.items }
        ensures fault { IfErr result (λ fault. fault ≡ NoMemory) }
    {
        let Ok(fresh) = Retired::new(self.alloc) else {
            return Err(Fault::NoMemory);
        };
        let retired = mem::replace(&mut self.kept, fresh);
        let ripening = Ripening::begin::<S>(self.store.domain(), retired);
        self.help::<S>();
        match M::let_wait(self.store, ripening) {
            Ok(()) => Ok(()),
            Err(back) => {
                mem::replace(&mut self.kept, back.into_retired()).finish();
                Err(Fault::NoMemory)
            }
        }
    }

    // Puts what found no place in the store there, if there is such a batch.
    pub(crate) fn put_held(&mut self) -> Result<(), Fault>
        ensures store { self.new.store ≡ self.old.store }
        ensures kept { self.new.kept ≡ self.old.kept }
        ensures none { IsOk result → self.new.held ≡ None }
        ensures fault { IfErr result (λ fault. fault ≡ NoMemory) }
    {
        let Some(held) = self.held.take() else {
            return Ok(());
        };
        match self.store.put_held(held) {
            Ok(()) => Ok(()),
            Err(held) => {
                self.hold(held);
                Err(Fault::NoMemory)
            }
        }
    }

    // Keeps what found no place in the store, if there is nothing else.
    pub(crate) fn hold(&mut self, held: Held<'s, J, T>)
        requires { self.old.held ≡ None }
        ensures store { self.new.store ≡ self.old.store }
        ensures kept { self.new.kept ≡ self.old.kept }
    {
        match self.held.replace(held) {
            None => {}
            Some(_) => unreachable!(),
        }
    }

    // Tries some of what waits in the store, and puts what found no place there before.
    fn help<S: PinSteps>(&mut self)
    where
        J: HasPinSteps<S>,
        ensures store { self.new.store ≡ self.old.store }
        ensures kept { self.new.kept ≡ self.old.kept }
    {
        let _ = self.put_held();
        self.store
            .try_some::<S>(&mut self.last_try, &mut self.rooms);
    }

    /// Retires the value that the pointer names: no call gets it any more once each pin is over that began before, and
    /// it is dropped once no guard may have it. Guards that are out now still get it.
    ///
    /// The value must be out of reach: unlink it first. Values are gathered, and each 64 of them wait together, so
    /// nothing is stored that other threads see but at each 64th call. [`Writer::flush`] hurries them.
    ///
    /// `StrangerPointer`: the pointer is null, or of another store of the domain. `NoMemory` comes only if 64 values
    /// are gathered, and can't wait in the store: see [`Writer::make_room`]. The pointer is handed back.
    #[inline(always)]
    pub fn retire<'g, S: PinSteps, M: StoreSteps<T>>(
        &mut self,
        pointer: Shared<'g, T>,
    ) -> Result<(), Refused<Shared<'g, T>>>
    where
        J: HasPinSteps<S>,
        T: HasStoreSteps<M>,
        ensures store { self.new.store ≡ self.old.store }
        ensures null { pointer.entry.name ≡ None
            → IfErr result (λ refused. refused.fault ≡ StrangerPointer) × IsErr result × (self.new ≡ self.old) }
        ensures stranger { ¬ IsUnder self.old.store.now.number pointer.entry.home
            → IfErr result (λ refused. refused.fault ≡ StrangerPointer) × IsErr result × (self.new ≡ self.old) }
        // A value that is retired is gathered, behind the values gathered before, or as the first of new ones, and then
        // those before wait. A refused call hands the pointer back. With null, or a pointer of another store, nothing
        // is done.
        ensures ok { IsOk result → KeepsSpot pointer.entry.name self.old.kept.lists.value.spots.items
            self.new.kept.lists.value.spots.items }
        ensures waits { IsOk result → GathersOn (S.did J.posts) (M.did J.posts self.old.store.now.number)
            pointer.entry.name self.old.kept.lists.value.spots.items self.new.kept.lists.value.spots.items }
        ensures handed_back { IfErr result (λ refused. refused.value ≡ pointer.entry) }
    {
        let Some(name) = self.own_name(pointer) else {
            return Err(Refused {
                fault: Fault::StrangerPointer,
                value: pointer,
            });
        };
        match self.gather::<S, M>(name) {
            Ok(()) => Ok(()),
            Err(fault) => Err(Refused {
                fault,
                value: pointer,
            }),
        }
    }

    // The name of a pointer of this store.
    #[inline(always)]
    pub(crate) fn own_name(&self, pointer: Shared<'_, T>) -> Option<Name>
        ensures own { IfSome result (λ name. (pointer.entry.name ≡ Some name)
            × IsUnder self.now.store.now.number pointer.entry.home) }
        ensures none { IsNone result
            → (pointer.entry.name ≡ None) ⊎ ¬ IsUnder self.now.store.now.number pointer.entry.home }
    {
        match pointer.home_id() {
            Some(id) if id == self.store.number() => pointer.name(),
            _ => None,
        }
    }

    /// Retires the value of this name, as [`Writer::retire`] does. The name must be of the writer's store.
    ///
    /// `NoMemory`: the value is not retired.
    #[inline(always)]
    pub fn gather<S: PinSteps, M: StoreSteps<T>>(&mut self, name: Name) -> Result<(), Fault>
    where
        J: HasPinSteps<S>,
        T: HasStoreSteps<M>,
        ensures store { self.new.store ≡ self.old.store }
        ensures ok { IsOk result → KeepsSpot (Some name) self.old.kept.lists.value.spots.items
            self.new.kept.lists.value.spots.items }
        ensures waits { IsOk result → GathersOn (S.did J.posts) (M.did J.posts self.old.store.now.number)
            (Some name) self.old.kept.lists.value.spots.items self.new.kept.lists.value.spots.items }
        ensures fault { IfErr result (λ fault. fault ≡ NoMemory) }
    {
        self.make_room::<S, M>()?;
        self.kept.keep(spot_of(name));
        Ok(())
    }

    /// Makes room for a value that is retired next, so that it is unlinked only if it can be retired. If 64 values are
    /// gathered, the clock moves on, some of what waits in the store is tried, and then they wait there, too: they are
    /// marked once each post is unpinned, or pinned in the epoch that begins now or a later one.
    ///
    /// `NoMemory`: an allocation was refused, or no place to wait was seen. What was gathered is as before.
    #[inline(always)]
    pub fn make_room<S: PinSteps, M: StoreSteps<T>>(&mut self) -> Result<(), Fault>
    where
        J: HasPinSteps<S>,
        T: HasStoreSteps<M>,
        ensures store { self.new.store ≡ self.old.store }
        // Room for one more is refused only if 64 values are gathered.
        ensures ok { IsOk result
            → StaysOrWaits (S.did J.posts) (M.did J.posts self.old.store.now.number)
            self.old.kept.lists.value.spots.items
            self.new.kept.lists.value.spots.items }
        ensures err { IsErr result → (self.new.kept.lists.value.spots.items ≡ self.old.kept.lists.value.spots.items)
            × (64 ≤ length self.old.kept.lists.value.spots.items) }
        ensures room { IsOk result → vec_len self.new.kept.lists.value.spots < 64 }
        ensures fault { IfErr result (λ fault. fault ≡ NoMemory) }
    {
        if self.kept.len() < RETIRED_TOGETHER {
            return Ok(());
        }
        self.hand_over::<S, M>()
    }

    /// Lets the values that are gathered wait in the store, however few they are, and then tries some of what waits:
    /// values are marked that no pin from before can find any more, and values are dropped that no guard may have.
    ///
    /// `NoMemory`: an allocation was refused, or no place to wait was seen. What was gathered is as before; what waits
    /// was tried.
    pub fn flush<S: PinSteps, M: StoreSteps<T>>(&mut self) -> Result<(), Fault>
    where
        J: HasPinSteps<S>,
        T: HasStoreSteps<M>,
        ensures store { self.new.store ≡ self.old.store }
        // After a flush that returns `Ok`, and after a release, all that was gathered waits.
        ensures ok { IsOk result → (self.new.kept.lists.value.spots.items ≡ [])
            × HandsOverAll (S.did J.posts) (M.did J.posts self.old.store.now.number)
            self.old.kept.lists.value.spots.items }
        ensures err { IsErr result → self.new.kept.lists.value.spots.items ≡ self.old.kept.lists.value.spots.items }
        ensures fault { IfErr result (λ fault. fault ≡ NoMemory) }
    {
        let given = if self.kept.len() > 0 {
            self.hand_over::<S, M>()
        } else {
            Ok(())
        };
        self.help::<S>();
        given
    }
}
