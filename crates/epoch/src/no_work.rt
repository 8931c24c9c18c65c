//! The work of a collector that defers no function.
ghost use Rattle.std.specs.Prelude.{◌<◌, length};
ghost use Rattle.epoch_bags.specs.Jobs.{IsCalled};
ghost use Rattle.epoch_tables.specs.ClosedPlaces.{AreLast};
ghost use Rattle.epoch_tables.specs.Ends.{EndsNext};

use epoch_bags::{FromCells, Job, Remove, Run};
use epoch_cells::Cells;
use epoch_tables::Seated;
use epoch_tables::ends::{AtEnd, end_next};
use epoch_tables::shared_places::{ClosedPlaces, UnsharedPlaces};

/// The work of a collector that defers the removal of values, and no function. No value of this type is made.
///
/// The type of a `Collector<T, NoWork>` has no boxed function in it. So it can stand in a struct beside stores and maps
/// of lent values, which a `Collector<T>` can't.
#[derive(Drop)]
pub struct NoWork {
    // Private, so no other module makes one.
    nothing: (),
}

impl Run for NoWork {
    type Removing = FromCells;

    const HAS_CELLS: bool = true;

    ghost done = { λ _. Unit {0} };

    fn call(self) {
        let NoWork { nothing: () } = self;
    }
}

impl Seated for NoWork {}

impl<T: Drop> AtEnd<T> for NoWork {
    ghost closed = { λ board left. AreLast board.capacity left };

    fn close(places: UnsharedPlaces<Job<NoWork>>) -> ClosedPlaces<Job<NoWork>>
        ensures closed { AreLast places.capacity result }
    {
        places.close()
    }

    fn next(cells: &Cells<T>, left: &mut ClosedPlaces<Job<NoWork>>) -> u64
        requires more { 0 < length left.old }
        ensures next { EndsNext (IsCalled ⟦<NoWork as Run>⟧.done ⟦<FromCells as Remove>⟧.tried) left.old result
            left.new }
    {
        end_next(cells, left)
    }
}
