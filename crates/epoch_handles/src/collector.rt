//! The collector: what all participants have in common.
ghost use Rattle.std.specs.Prelude.{◌≡◌, ℕ, ◌<◌, ◌≤◌, ◌↔◌, ◌==◌, IsTrue, IfOk, IsOkUnless, vec_len};
ghost use Rattle.std.proofs.Common.{rules};
ghost use Rattle.std.specs.Cmp.Rules.{comparing};
ghost use Rattle.std.specs.Ordering.{on};
ghost use Rattle.epoch_cells.specs.declared.fault.Fault.TheVariants.{NoMemory};
ghost use Rattle.epoch_machine.specs.Machine.{IsSized};
ghost use Rattle.epoch_tables.specs.Ends.{CallsAllLeft};
ghost use Rattle.epoch_handles.specs.Capacities.{AreValid, sizes_for};

use crate::home::CollectorCells;
use epoch_bags::{BAG_JOBS, Job, Work};
use epoch_cells::{Cells, Fault, MOST_SLOT};
use epoch_machine::Sizes;
use epoch_tables::ends::{AtEnd, end_left};
use epoch_tables::shared_places::{MOST_PLACES, SharedPlaces};
use epoch_tables::table::{MOST_POSITIONS, Participants};
use std::alloc::Global;
use std::fmt;

mod register;

/// How much a collector has room for. Nothing of it grows later.
#[derive(Clone, Copy, Debug, PartialEq, Eq)]
pub struct Capacities {
    /// How many participants can be registered at a time, from 1 to 4096.
    pub participants: u32,
    /// How many cells there are, from 0 to `2^24 - 1`.
    pub cells: u32,
    /// How many sealed bags can wait at a time, from 1 to 4096.
    pub bags: u32,
    /// How many jobs a bag takes, from 1 to 64.
    pub bag_jobs: u32,
    /// How many bags a collection takes at most, from 1 to 64.
    pub collect_bags: u32,
}

/// How many bags a collection usually takes at most: `COLLECT_STEPS` of crossbeam-epoch.
const USUAL_COLLECT_BAGS: u32 = 8;

impl Capacities {
    /// Returns capacities with bags of 64 jobs, of which a collection takes at most 8, as in crossbeam-epoch.
    pub fn usual(participants: u32, cells: u32, bags: u32) -> Capacities
        ensures { result
            ≡ (record { participants = participants; cells = cells; bags = bags; bag_jobs = 64; collect_bags = 8 }) }
    {
        Capacities {
            participants,
            cells,
            bags,
            bag_jobs: BAG_JOBS as u32,
            collect_bags: USUAL_COLLECT_BAGS,
        }
    }

    /// Returns whether each number is in its range.
    pub fn is_valid(&self) -> bool
        // Capacities are valid exactly when each number is in its range.
        ensures { IsTrue result ↔ AreValid self.now }
    {
        (1..=MOST_POSITIONS as u32).contains(&self.participants)
            && self.cells <= MOST_SLOT
            && (1..=MOST_PLACES as u32).contains(&self.bags)
            && (1..=BAG_JOBS as u32).contains(&self.bag_jobs)
            && (1..=BAG_JOBS as u32).contains(&self.collect_bags)
    }
}

/// What all participants share: the table of their words, the places for sealed bags, and the cells.
///
/// Threads share it by `&`. It must be given back, by [`Collector::end`]. Collectors are told apart by the numbers with
/// which they were made: if two have the same number, a guard of one is taken for a guard of the other.
#[repr(C)]
pub struct Collector<T, W = Work> {
    // Each call reads the fields below. With this, and what comes last, no word of the owner's is in their cache lines,
    // such as a pointer that threads exchange, if the collector begins at a multiple of 16 bytes. One word more, and
    // the places' address would be beyond the first 128 bytes, where a load of it is three bytes longer.
    before: [u64; 6],
    pub(crate) participants: Participants<Job<W>>,
    pub(crate) places: SharedPlaces<Job<W>>,
    pub(crate) id: u64,
    pub(crate) cells: CollectorCells<T>,
    pub(crate) sizes: Sizes,
    after: [u64; 8],
    pub(crate) ghost sized: { IsSized sizes },
    pub(crate) ghost positions: { sizes.positions ≡ participants.positions },
}

impl<T, W> Collector<T, W> {
    /// Returns the number with which it was made.
    #[inline(always)]
    pub fn id(&self) -> u64
        ensures { result ≡ self.now.id }
    {
        self.id
    }
}

impl<T, W> fmt::Debug for Collector<T, W> {
    fn fmt<F: fmt::Write>(&self, f: &mut fmt::Formatter<F>) -> fmt::Result {
        f.pad("Collector { .. }")
    }
}

impl<T, W> PartialEq for Collector<T, W> {
    ghost eq = { on (λ c. c.id) ◌==◌ };

    ghost laws = { Prim.search (comparing, rules) };

    /// Returns whether both were made with the same number.
    fn eq(&self, other: &Collector<T, W>) -> bool {
        self.id == other.id
    }
}

impl<T, W> Eq for Collector<T, W> {
    ghost laws = { Prim.search (comparing, rules) };
}

impl<T: Drop, W: Drop> Collector<T, W> {
    /// Makes a collector with these capacities and this number, in epoch 0, with no participant.
    ///
    /// The capacities must be valid: [`Capacities::is_valid`]. `NoMemory`: an allocation was refused, and nothing was
    /// made. After that only a handle takes memory, for lists of the free cells that it keeps. If that is refused, it
    /// keeps none.
    pub fn new(alloc: Global, capacities: Capacities, id: u64) -> Result<Collector<T, W>, Fault>
        requires { AreValid capacities }
        // A new collector has the capacities and the number that it was given. Making it fails only if memory is
        // refused.
        ensures memory { IsOkUnless result NoMemory }
        ensures id { IfOk result (λ collector. collector.id ≡ id) }
        ensures participants { IfOk result (λ collector. collector.participants.positions ≡ capacities.participants) }
        ensures bags { IfOk result (λ collector. collector.places.capacity ≡ capacities.bags) }
        ensures cells { IfOk result (λ collector. vec_len collector.cells.store.slots ≡ capacities.cells) }
        ensures sizes { IfOk result (λ collector. collector.sizes ≡ sizes_for capacities) }
    {
        let participants = Participants::new(alloc, capacities.participants as usize)?;
        let cells = CollectorCells::of(Cells::with_positions(
            alloc,
            capacities.cells,
            0,
            capacities.participants as usize,
        )?);
        let sizes = Sizes {
            positions: capacities.participants as u64,
            bag_jobs: capacities.bag_jobs as u64,
            collect_bags: capacities.collect_bags as u64,
        };
        // The places come last: to drop them again would ask that their bags' size be known.
        let places = SharedPlaces::new(alloc, capacities.bags as usize)?;
        Ok(Collector {
            before: [0; 6],
            id,
            participants,
            places,
            cells,
            sizes,
            after: [0; 8],
        })
    }
}

impl<T: Drop, W: AtEnd<T>> Collector<T, W> {
    /// Ends the collector: closes its places, calls every job that is left in them, drops the values that are left in
    /// its cells, and returns how many jobs it called.
    ///
    /// Every handle must have been given back, since handles borrow the collector. In crossbeam-epoch the last owner of
    /// a collector does this by dropping it.
    pub fn end(self) -> u64
        // The end of a collector closes its places, and calls each job of each bag that they had then: the work was
        // called, or the removal attempted. It returns how many jobs these are.
        ensures called { CallsAllLeft W.closed W.done W.Removing.tried self.places result }
    {
        let Collector {
            before: _,
            id: _,
            participants: _,
            places,
            cells,
            sizes: _,
            after: _,
        } = self;
        let store = cells.into_store();
        let mut left = W::close(places.unshare());
        let count = end_left(&store, &mut left);
        left.free();
        count
    }
}
