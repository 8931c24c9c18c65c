//! Jobs: what is called once, at the earliest when every participant that was pinned at its deferral has unpinned.
ghost use Rattle.std.specs.Prelude.{◌≡◌, ◌≢◌, [], ◌∷◌, None, MatchOption, IfSome};
ghost use Rattle.epoch_cells.specs.declared.cells.name.Name.{Name};
ghost use Rattle.epoch_bags.specs.Jobs.{AnswersJob, IsCalled};
ghost use Rattle.epoch_bags.specs.declared.job.Called.TheVariants.{Ran};

use crate::bag::SealedBag;
use epoch_cells::{Cells, Freed, Name, Removal};

/// How values are removed by their names.
pub trait Remove {
    /// A removal of the name was tried. If the type is a parameter, nothing but `remove` shows it.
    ghost tried: { Name → Type 0 };

    /// Tries to remove the value of this name, as [`Cells::remove`] does.
    fn remove<T: Drop>(cells: &Cells<T>, name: Name) -> Removal
        // A call of a removal attempts it. Nothing but the attempt itself shows this.
        ensures tried { tried name };

    /// Tries the same, as [`Cells::remove_near`] does, which adds the slot to those that were given free.
    fn remove_near<'a, T: Drop>(
        cells: &'a Cells<T>,
        freed: &mut Freed<'_, 'a, T>,
        name: Name,
    ) -> Removal
        ensures tried { tried name };
}

/// Values are removed by their cells. There is no other way. No value of this type is made.
pub struct FromCells;

impl Remove for FromCells {
    ghost tried = { λ _. Unit {0} };

    #[inline(always)]
    fn remove<T: Drop>(cells: &Cells<T>, name: Name) -> Removal {
        cells.remove(name)
    }

    #[inline(always)]
    fn remove_near<'a, T: Drop>(
        cells: &'a Cells<T>,
        freed: &mut Freed<'_, 'a, T>,
        name: Name,
    ) -> Removal {
        cells.remove_near(freed, name)
    }
}

/// What can be called once.
pub trait Run: Drop {
    /// How the values are removed whose removal is deferred: [`FromCells`].
    type Removing: Remove;

    /// Whether the collectors of such work have cells. If not, their participants keep no free ones.
    const HAS_CELLS: bool;

    /// It was called. If the type is a parameter, nothing but a call shows it.
    ghost done: { Self → Type 0 };

    /// Calls it.
    fn call(self)
    where
        Self: Sized,
        // The call of a job calls the caller's work, and returns `Ran` for work and for nothing else. Nothing but its
        // own call shows that work was called.
        ensures done { done self };
}

/// A caller's function, which is called once. The type keeps the fact that it can be called.
///
/// The boxed function doesn't wait for other threads, and can't reach the handle that calls it.
#[derive(Drop)]
pub struct Work {
    pub run: Box<dyn FnOnce() + Send>,
    pub ghost ready: { pre run },
}

impl Run for Work {
    type Removing = FromCells;

    const HAS_CELLS: bool = true;

    ghost done = { λ work. post work.run tt };

    #[inline(always)]
    fn call(self) {
        let Work { run } = self;
        run()
    }
}

/// A deferred job: a cell's removal, or a call of work of the caller's.
#[derive(Drop)]
pub enum Job<W = Work> {
    /// Removes the value of this name, unless it is held elsewhere or gone.
    Remove(Name),
    /// Calls the work.
    Call(W),
}

/// The blank that stands in a bag where there is no job. It is never handed out.
impl<W> Default for Job<W> {
    fn default() -> Job<W> {
        Job::Remove(Name::first())
    }
}

/// What the call of a job did.
#[derive(Clone, Copy, Debug, PartialEq, Eq)]
pub enum Called {
    /// The caller's work was called.
    Ran,
    /// The removal dropped the value.
    Destroyed,
    /// The removal met a value that is read or written, or lost each try to other threads. The value stays.
    HeldElsewhere,
    /// The removal met no value of its name.
    Gone,
}

impl<W: Run> Job<W> {
    /// Calls the job, and returns what that did.
    #[inline(always)]
    pub fn call<T: Drop>(self, cells: &Cells<T>) -> Called
        ensures answers { AnswersJob self result }
        ensures called { IsCalled W.done W.Removing.tried self }
    {
        match self {
            Job::Call(work) => {
                work.call();
                Called::Ran
            }
            Job::Remove(name) => called_for(W::Removing::remove(cells, name)),
        }
    }

    /// Calls the job, and returns what that did. A removal adds its slot to those that were given free.
    #[inline(always)]
    pub fn call_near<'a, T: Drop>(self, cells: &'a Cells<T>, freed: &mut Freed<'_, 'a, T>) -> Called
        ensures answers { AnswersJob self result }
        ensures called { IsCalled W.done W.Removing.tried self }
    {
        match self {
            Job::Call(work) => {
                work.call();
                Called::Ran
            }
            Job::Remove(name) => called_for(remove_apart::<T, W::Removing>(cells, freed, name)),
        }
    }
}

// Tries the removal. It stands out of line, since a collection calls removals as they lie in their bag, and takes only
// other jobs out of it.
#[cold]
#[inline(never)]
fn remove_apart<'a, T: Drop, R: Remove>(
    cells: &'a Cells<T>,
    freed: &mut Freed<'_, 'a, T>,
    name: Name,
) -> Removal
    ensures { R.tried name }
{
    R::remove_near(cells, freed, name)
}

// What the call of a removal did that met this.
#[inline(always)]
fn called_for(removal: Removal) -> Called
    ensures { result ≢ Ran }
{
    match removal {
        Removal::Destroyed => Called::Destroyed,
        Removal::HeldElsewhere => Called::HeldElsewhere,
        Removal::Gone => Called::Gone,
    }
}

impl<W: Run> SealedBag<Job<W>> {
    /// Takes the oldest job out, calls it, and returns what that did. `None`: no job is left.
    pub fn call_next<T: Drop>(&mut self, cells: &Cells<T>) -> Option<Called>
        // `call_next` takes the oldest job out of a bag and calls it.
        ensures called { MatchOption result (self.old.jobs ≡ []) (λ called. (job : _) × (self.old.jobs ≡ job
            ∷ self.new.jobs) × AnswersJob job called × IsCalled W.done W.Removing.tried job) }
        ensures none { result ≡ None → self.new ≡ self.old }
        ensures seal { self.new.seal ≡ self.old.seal }
    {
        let job = self.take_next()?;
        Some(job.call(cells))
    }
}
