//! A sorted list of numbers. Any thread looks through it by plain loads, and one thread at a time changes it.
ghost use Rattle.std.specs.Prelude.{◌≡◌, refl};
ghost use Rattle.std.proofs.Common.{lit≤};

use epoch_lend_pointers::{Atomic, Fault, LendingGuard, Pointable, PostSet, Shared, Store, Writer};
use std::alloc::Global;
use std::sync::atomic::Ordering::SeqCst;

/// A key, and the pointer to the entry behind it, whose key is greater.
#[derive(Drop)]
pub struct SortedEntry {
    next: Atomic<SortedEntry>,
    key: u64,
}

impl Pointable for SortedEntry {
    ghost ALIGN = { 8 };

    ghost log = { 3 };

    ghost is_power = { refl };

    ghost is_small = { lit≤ tt };

    const ALIGN: usize = 8;

    type Init = SortedEntry;

    ghost init_gives = { λ init entry. entry ≡ init };

    fn init(_alloc: Global, init: SortedEntry) -> Result<SortedEntry, Fault> {
        Ok(init)
    }
}

/// The list, of entries in a store.
#[derive(Drop)]
pub struct SortedList<'q, 's, J: PostSet> {
    store: &'q Store<'s, J, SortedEntry>,
    first: Atomic<SortedEntry>,
}

/// A place in the list: the pointer that leads there, what it leads to, and the entry there, if its key is the one that
/// was looked for.
#[derive(Drop)]
struct Place<'g> {
    link: &'g Atomic<SortedEntry>,
    at: Shared<'g, SortedEntry>,
    found: Option<&'g SortedEntry>,
}

impl<'q, 's, J: PostSet> SortedList<'q, 's, J> {
    /// Makes an empty list of entries in this store.
    pub fn new(store: &'q Store<'s, J, SortedEntry>) -> SortedList<'q, 's, J> {
        let first = Atomic::null();
        SortedList { store, first }
    }

    /// Returns whether the key is in the list, by looking at no more than `steps` entries. It writes nothing.
    ///
    /// `TriesOut`: the list is longer.
    #[inline]
    pub fn contains(
        &self,
        key: u64,
        guard: &LendingGuard<'_, J>,
        steps: u32,
    ) -> Result<bool, Fault> {
        Ok(self.find(key, guard, steps)?.found.is_some())
    }

    /// Inserts the key, and returns whether it is new. No other thread may change the list meanwhile. The writer must
    /// be one of the list's store.
    ///
    /// `CellsFull`, `TriesOut`: nothing was inserted.
    pub fn insert(
        &self,
        key: u64,
        writer: &mut Writer<'_, 's, J, SortedEntry>,
        guard: &LendingGuard<'_, J>,
        steps: u32,
    ) -> Result<bool, Fault> {
        let place = self.find(key, guard, steps)?;
        if place.found.is_some() {
            return Ok(false);
        }
        let next = Atomic::from(place.at);
        let entry = writer
            .place(guard, SortedEntry { key, next })
            .map_err(|refused| refused.fault)?;
        self.store.store(place.link, entry, SeqCst, guard);
        Ok(true)
    }

    /// Removes the key, and returns whether it was there. No other thread may change the list meanwhile. A reader that
    /// stands at the entry goes on from there, and has it for as long as its guard is out. The writer must be one of
    /// the list's store.
    ///
    /// `NoMemory`, `TriesOut`: nothing was removed.
    pub fn remove(
        &self,
        key: u64,
        writer: &mut Writer<'_, 's, J, SortedEntry>,
        guard: &LendingGuard<'_, J>,
        steps: u32,
    ) -> Result<bool, Fault> {
        // Room comes first: what was unlinked can then be retired.
        writer.make_room()?;
        let place = self.find(key, guard, steps)?;
        let Some(entry) = place.found else {
            return Ok(false);
        };
        let next = self.store.load(&entry.next, SeqCst, guard);
        self.store.store(place.link, next, SeqCst, guard);
        let _ = writer.retire(place.at);
        Ok(true)
    }

    // Where the key is, or where it would be. The walk goes from link to link, and not from pointer to pointer: what
    // it carries on is then one address.
    #[inline(always)]
    fn find<'g>(
        &'g self,
        key: u64,
        guard: &'g LendingGuard<'_, J>,
        steps: u32,
    ) -> Result<Place<'g>, Fault> {
        let mut link = &self.first;
        for _ in 0..steps {
            let at = self.store.load(link, SeqCst, guard);
            if at.is_null() {
                return Ok(Place {
                    link,
                    at,
                    found: None,
                });
            }
            let Some(entry) = self.store.get(at, guard) else {
                return Err(Fault::TriesOut);
            };
            if entry.key >= key {
                let found = if entry.key == key { Some(entry) } else { None };
                return Ok(Place { link, at, found });
            }
            link = &entry.next;
        }
        Err(Fault::TriesOut)
    }
}
