//! Values with names, which guards of a domain get by plain loads, and the way back for those that are retired.
ghost use Rattle.std.specs.Prelude.{◌≡◌, Some, IfOk, IsOkUnless};
ghost use Rattle.epoch_cells.specs.declared.fault.Fault.TheVariants.{NoMemory};

pub mod batch;
mod ends;
pub mod lent_cells;
mod piles;
pub mod retired;
mod rooms;
pub(crate) mod settling;
pub mod spots;

use crate::store::batch::{Batch, SealedBatch};
use crate::store::lent_cells::LentCells;
use crate::store::piles::{Abandon, Piles};
use crate::store::retired::Ripening;
pub(crate) use crate::store::rooms::LentRooms;
use epoch_cells::{Cells, Fault};
use epoch_handles::Home;
use epoch_lend::array::slot::SlotRemoval;
use epoch_lend::domain::Domain;
use epoch_lend::readers::posts::PostSet;
use std::alloc::{AllocError, Global};
use std::fmt;
use std::sync::atomic::AtomicUsize;

/// How many rooms of free cells are together in one writer's hands, at most.
pub const ROOMS_TOGETHER: usize = 64;

/// A batch of retired values that waits.
pub(crate) enum Waiting<'s, J: PostSet, T> {
    /// It isn't marked: a guard from before it was retired may look for its values.
    Ripening(Ripening<'s, J, T>),
    /// It is marked: a guard may have its values.
    Sealed(SealedBatch<'s, J, T>),
}

/// What a writer has that is to wait in the store.
pub(crate) enum Held<'s, J: PostSet, T> {
    /// It has found no place there.
    Batch(Waiting<'s, J, T>),
    /// It was taken back alone, and a guard may have it.
    Alone(SlotRemoval<'s, J, T>),
}

impl<'s, J: PostSet, T> Abandon for Waiting<'s, J, T> {
    fn abandon(self) {
        match self {
            Waiting::Ripening(ripening) => ripening.into_retired().abandon(),
            Waiting::Sealed(batch) => batch.abandon(),
        }
    }
}

/// A store of values of one type, in cells, which are lent to guards of its domain.
///
/// Threads share it by `&`. Each of them places and retires values by a [`Writer`](crate::Writer) of its own, and loads
/// pointers and gets values with any guard of the domain. It must be given back, by [`Store::end`], which drops the
/// values that are left.
///
/// What waits is bounded by the cells alone. While a guard stays out, values that are retired keep their cells; once
/// all cells are in use, no value is placed until that guard is given back or renewed.
pub struct Store<'s, J: PostSet, T> {
    domain: &'s Domain<J>,
    pub(crate) cells: &'s LentCells<J, T>,
    // No other store of the domain has this number.
    number: u64,
    // Cells without a slot: the home of the store's pointers names some.
    none: Cells<T>,
    pub(crate) waiting: Piles<Waiting<'s, J, T>>,
    // Free cells for any writer's next values, some in each list; and of how many cells a writer takes rooms together.
    rooms: Piles<LentRooms<'s, J, T>>,
    together: usize,
    // The first cell that no writer has taken yet, since the last time that all were looked at again.
    fresh: AtomicUsize,
    // How many rooms were released since then, which no list has.
    loose: AtomicUsize,
    alloc: Global,
}

impl<J: PostSet, T> fmt::Debug for Store<'_, J, T> {
    fn fmt<F: fmt::Write>(&self, f: &mut fmt::Formatter<F>) -> fmt::Result {
        f.pad("Store { .. }")
    }
}

// Of how many cells a writer takes rooms together, where there are this many cells and sessions: with a writer for each
// session, all together have at most half of the cells.
fn together_of(cells: usize, sessions: usize) -> usize {
    (cells / 2 / sessions.max(1)).min(ROOMS_TOGETHER)
}

impl<'s, J: PostSet, T: Drop> Store<'s, J, T> {
    /// Makes the store of these cells. They have no other one: they are borrowed for themselves alone.
    ///
    /// `NoMemory`: an allocation was refused.
    pub fn new(
        alloc: Global,
        domain: &'s Domain<J>,
        cells: &'s mut LentCells<J, T>,
    ) -> Result<Store<'s, J, T>, Fault>
        ensures memory { IsOkUnless result NoMemory }
        // A store is one of the domain that it was made for, and a writer one of its store. Making them fails only if
        // memory is refused, and a new writer has gathered nothing.
        ensures domain { IfOk result (λ store. store.domain.now ≡ domain.now) }
    {
        let none = Cells::new(alloc, 0, 0)?;
        match Store::of(alloc, domain, cells, none) {
            Ok(store) => Ok(store),
            Err(_) => Err(Fault::NoMemory),
        }
    }

    fn of(
        alloc: Global,
        domain: &'s Domain<J>,
        cells: &'s LentCells<J, T>,
        none: Cells<T>,
    ) -> Result<Store<'s, J, T>, AllocError>
        ensures { IfOk result (λ store. store.domain.now ≡ domain.now) }
    {
        let rooms = Piles::new(alloc)?;
        let waiting = Piles::new(alloc)?;
        Ok(Store {
            domain,
            cells,
            number: domain.next_number(),
            none,
            waiting,
            rooms,
            together: together_of(cells.limit(), domain.sessions()),
            fresh: AtomicUsize::new(1),
            loose: AtomicUsize::new(0),
            alloc,
        })
    }
}

impl<'s, J: PostSet, T> Store<'s, J, T> {
    /// Returns its number: no other store of the domain has it.
    #[inline(always)]
    pub fn number(&self) -> u64
        ensures { result ≡ self.now.number }
    {
        self.number
    }

    /// Returns the domain, whose guards get its values.
    #[inline(always)]
    pub fn domain(&self) -> &'s Domain<J>
        ensures { result.now ≡ self.now.domain.now }
    {
        self.domain
    }

    /// Returns the cells.
    #[inline(always)]
    pub fn cells(&self) -> &'s LentCells<J, T>
        ensures { result.now ≡ self.now.cells.now }
    {
        self.cells
    }

    /// Returns the home of its pointers, which tells them from those of other stores.
    #[inline(always)]
    pub fn home(&self) -> Home<'_, T>
        ensures id { result.id ≡ self.now.number }
    {
        Home::of(&self.none, self.number)
    }
}

impl<'s, J: PostSet, T: Drop> Store<'s, J, T> {
    // Lets this wait, too. It is handed back if there is no place for it, or no memory.
    pub(crate) fn put_held(&self, held: Held<'s, J, T>) -> Result<(), Held<'s, J, T>> {
        let waiting = match held {
            Held::Batch(waiting) => waiting,
            Held::Alone(removal) => match Batch::of(self.alloc, removal) {
                Ok(batch) => Waiting::Sealed(batch.seal(self.domain.posts())),
                Err(removal) => return Err(Held::Alone(removal)),
            },
        };
        match self.waiting.put(waiting) {
            Ok(()) => Ok(()),
            Err(waiting) => Err(Held::Batch(waiting)),
        }
    }

    /// Returns how many batches of retired values wait for guards. Another thread may change this at once.
    pub fn waiting(&self) -> usize {
        self.waiting.len()
    }
}

unsafe impl<J: PostSet, T: Send + Sync> Send for Store<'_, J, T> {}

unsafe impl<J: PostSet, T: Send + Sync> Sync for Store<'_, J, T> {}
