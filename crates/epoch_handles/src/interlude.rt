//! How a repin calls its function, between its unpin and its pin.
use crate::local::Local;
use epoch_bags::Job;
use epoch_machine::Machine;
use epoch_tables::table::ParticipantSeat;

/// How [`LocalHandle::repin_after`](crate::LocalHandle::repin_after) calls its function. There is one way, and no
/// caller names it: [`HasInterlude`].
pub trait Interlude<W, F, X> {
    ghost use Rattle.epoch_bags.specs.declared.job.Job.{Job};
    ghost use Rattle.epoch_tables.specs.declared.table.view.ParticipantView.{ParticipantView};
    ghost use Rattle.epoch_machine.specs.Machine.{Machine};

    /// The function was called while the participant's seat knew this and its machine was so, and gave this answer. If
    /// the type is a parameter, nothing but `run` shows it.
    ghost ran: { ParticipantView → Machine (Job W) → F → X → Type 0 };

    /// Calls the function.
    fn run(seat: &ParticipantSeat, machine: &Machine<Job<W>>, f: F) -> X
    where
        F: FnOnce() -> X,
        requires f { F.pre f }
        ensures f { F.post f result }
        ensures ran { ran seat.now.me.0 machine.now f result };
}

/// The one [`Interlude`]: the function is called, and nothing else is done.
pub struct DirectInterlude;

impl<W, F, X> Interlude<W, F, X> for DirectInterlude {
    ghost ran = { λ _ _ _ _. Unit {0} };

    #[inline(always)]
    fn run(_seat: &ParticipantSeat, _machine: &Machine<Job<W>>, f: F) -> X
    where
        F: FnOnce() -> X,
        requires f { F.pre f }
        ensures f { F.post f result }
        ensures ran { Unit {0} }
    {
        f()
    }
}

/// Tells which [`Interlude`] calls a function. There is only this impl, so no caller names it.
pub trait HasInterlude<M> {}

impl<F> HasInterlude<DirectInterlude> for F {}

impl<'c, T, W> Local<'c, T, W> {
    /// Calls the function while the participant is as it is here.
    #[inline(always)]
    pub(crate) fn run<F: FnOnce() -> X, X, M: Interlude<W, F, X>>(&self, f: F) -> X
        requires f { F.pre f }
        ensures f { F.post f result }
        ensures ran { M.ran self.now.seat.me.0 self.now.machine f result }
    {
        M::run(&self.seat, &self.machine, f)
    }
}
