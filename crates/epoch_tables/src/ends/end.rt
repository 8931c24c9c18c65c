//! What is left in the places of a collector that ends, and its calls.
ghost use Rattle.std.specs.Prelude.{◌≡◌, ℕ, ◌*◌, ◌<◌, ◌≤◌, List, Option, None, length, slice_index_or, All};
ghost use Rattle.epoch_bags.specs.Bags.{Sealed};
ghost use Rattle.std.specs.Mem.{type_size};
ghost use Rattle.epoch_bags.specs.contracts.bag.SealedBag.{the_row as bag_row};
ghost use Rattle.epoch_bags.specs.contracts.job.Job.{the_row as job_row};
ghost use Rattle.epoch_bags.specs.Jobs.{IsCalled};
ghost use Rattle.epoch_bags.specs.declared.job.Job.{Job};
ghost use Rattle.epoch_tables.specs.SharedPlaces.{PlaceBoard};
ghost use Rattle.epoch_tables.specs.ClosedPlaces.{AreLast};
ghost use Rattle.epoch_tables.specs.Ends.{jobs_in, jobs_of, IsBagCalled, EndsNext};

use crate::shared_places::{ClosedPlaces, UnsharedPlaces};
use epoch_bags::{FromCells, Job, Remove, Run, SealedBag, Work};
use epoch_cells::Cells;
use std::mem;

/// What a kind of work does at the end of a collector of `T`s. A generic caller can't do it, since values of the kind
/// of work must be known to fit in memory. Each of its two calls takes a line, as for [`Work`].
pub trait AtEnd<T>: Run {
    /// The places had these contents when they were closed. If the type is a parameter, nothing but `close` shows it.
    ghost closed: { PlaceBoard → List (Option (Sealed (Job Self))) → Type 0 };

    /// Closes the places, by [`UnsharedPlaces::close`].
    fn close(places: UnsharedPlaces<Job<Self>>) -> ClosedPlaces<Job<Self>>
    where
        Self: Sized,
        // The end of a collector holds for every work type that implements `AtEnd`. Nothing but the close shows what
        // the places had.
        ensures closed { closed places result };

    /// Takes out what is left in the next place, and calls its jobs, by [`end_next`]. Returns how many jobs it called.
    fn next(cells: &Cells<T>, left: &mut ClosedPlaces<Job<Self>>) -> u64
    where
        Self: Sized,
        requires more { 0 < length left.old }
        ensures next { EndsNext (IsCalled ⟦<Self as Run>⟧.done ⟦<Self::Removing as Remove>⟧.tried) left.old result
            left.new };
}

impl<T: Drop> AtEnd<T> for Work {
    ghost closed = { λ board left. AreLast board.capacity left };

    fn close(places: UnsharedPlaces<Job>) -> ClosedPlaces<Job>
        ensures closed { AreLast places.capacity result }
    {
        places.close()
    }

    fn next(cells: &Cells<T>, left: &mut ClosedPlaces<Job>) -> u64
        requires more { 0 < length left.old }
        ensures next { EndsNext (IsCalled ⟦<Work as Run>⟧.done ⟦<FromCells as Remove>⟧.tried) left.old result left.new }
    {
        end_next(cells, left)
    }
}

/// Calls every job that is left in closed places, place after place, and leaves none. Returns how many jobs it called.
pub fn end_left<T: Drop, W: AtEnd<T>>(cells: &Cells<T>, left: &mut ClosedPlaces<Job<W>>) -> u64
    // For each job that is left in closed places, `end_left` has called the work or tried the removal. It leaves no
    // place, and returns how many jobs these were.
    ensures called { All (IsBagCalled (IsCalled W.done W.Removing.tried)) left.old }
    ensures count { result ≡ jobs_in left.old }
    ensures none { length left.new ≡ 0 }
{
    let mut count = 0;
    for taken in 0..left.len() {
        count += W::next(cells, left);
        // Named here so that the loop's invariant can count by it.
        let _ = taken;
    }
    count
}

/// Takes out what is left in the next place, and calls its jobs, the oldest of a bag first. Returns how many jobs it
/// called.
///
/// A place must be left. A caller that names its kind of work has nothing else to show.
pub fn end_next<T: Drop, W: Run>(cells: &Cells<T>, left: &mut ClosedPlaces<Job<W>>) -> u64
    requires more { 0 < length left.old }
    requires room { type_size (bag_row (job_row W.row)) < 9223372036854775808 }
    ensures next { EndsNext (IsCalled W.done W.Removing.tried) left.old result left.new }
{
    let mut bag = left.take_next();
    let count = end_bag(cells, &mut bag);
    let None = bag else { unreachable!() };
    count
}

/// Tells that 64 jobs for each of the bags are fewer than 2^64, since their number of bytes is a `usize`.
fn tell_few<W>(bags: &[Option<SealedBag<Job<W>>>])
    ensures { 64 * length bags.now < 18446744073709551616 }
{
    let _bytes = mem::size_of_val(bags);
}

/// Calls every job of each bag, the oldest of a bag first, and leaves each place `None`. Returns how many jobs it
/// called.
pub fn end_bags<T: Drop, W: Run>(cells: &Cells<T>, bags: &mut [Option<SealedBag<Job<W>>>]) -> u64
    ensures count { result ≡ jobs_in bags.old }
    // For each job of each bag, `end_bags` has called the work or tried the removal. It leaves every place of the slice
    // `None`, and returns how many jobs the bags had.
    ensures called { (place : ℕ) → place < length bags.old
        → IsBagCalled (IsCalled W.done W.Removing.tried) (slice_index_or bags.old place None) }

    ensures few { result ≤ 64 * length bags.old }
    ensures none { (place : ℕ) → place < length bags.old → slice_index_or bags.new place None ≡ None }
{
    tell_few(bags);
    let mut count = 0;
    for place in 0..bags.len() {
        count += end_bag(cells, &mut bags[place]);
    }
    count
}

/// Calls every job of the bag, if there is one, and leaves none. Returns how many jobs.
fn end_bag<T: Drop, W: Run>(cells: &Cells<T>, place: &mut Option<SealedBag<Job<W>>>) -> u64
    ensures count { result ≡ jobs_of place.old }
    ensures called { IsBagCalled (IsCalled W.done W.Removing.tried) place.old }
    ensures few { result ≤ 64 }
    ensures none { place.new ≡ None }
{
    let Some(bag) = place else {
        return 0;
    };
    let count = bag.len();
    while let Some(_) = bag.call_next(cells) {}
    *place = None;
    count as u64
}
