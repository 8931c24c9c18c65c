//! Calls of jobs, at the cells of the collector that they were deferred to.
ghost use Rattle.std.specs.Prelude.{◌≡◌, ◌≢◌, ◌<◌, ◌∷◌, true, false, Some, length};
ghost use Rattle.epoch_bags.specs.Jobs.{AnswersJob, IsCalled};
ghost use Rattle.epoch_bags.specs.declared.job.Job.{Job};
ghost use Rattle.epoch_machine.specs.Machine.{asks, gives, rest};
ghost use Rattle.epoch_machine.specs.declared.machine.Ask.TheVariants.{CallJob};

use crate::collector::Collector;
use epoch_bags::{Called, Job, Remove, Run};
use epoch_cells::Freed;
use epoch_machine::Machine;

impl<T: Drop, W: Run> Collector<T, W> {
    /// Calls the job, and returns what that did.
    #[inline(always)]
    pub(crate) fn call(&self, job: Job<W>) -> Called
        ensures answers { AnswersJob job result }
        ensures called { IsCalled W.done W.Removing.tried job }
    {
        job.call(&self.cells.store)
    }
}

/// Calls the next job of the bag in hand. Returns whether there was one.
///
/// A removal is told where it lies, and called by its name: a job that is taken out and then told apart goes through
/// memory several times.
#[inline(always)]
pub(crate) fn call_next<'a, T: Drop, W: Run>(
    machine: &mut Machine<Job<W>>,
    collector: &'a Collector<T, W>,
    freed: &mut Freed<'_, 'a, T>,
) -> bool
    ensures called { result ≡ true → (job : Job W) × IsCalled W.done W.Removing.tried job
        × (machine.old.hand ≡ job ∷ rest machine.old.hand) }
    ensures fewer { result ≡ true → length machine.new.hand < length machine.old.hand }
    ensures none { result ≡ false → asks machine.old ≢ Some CallJob }
    ensures after { machine.new ≡ gives machine.old machine.old.stage (rest machine.old.hand) }
{
    let Some(next) = machine.next_job() else {
        // For the prover: its clause tells that nothing is done then.
        let _ = machine.give();
        return false;
    };
    if let Job::Remove(name) = next {
        let name = *name;
        let _ = machine.give();
        let _ = W::Removing::remove_near(&collector.cells.store, freed, name);
        return true;
    }
    let Some(job) = machine.give() else {
        return false;
    };
    let _ = job.call_near(&collector.cells.store, freed);
    true
}
