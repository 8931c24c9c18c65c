//! Guards: tokens of a pin, and guards that protect nothing.
ghost use Rattle.std.specs.Prelude.{◌≡◌, ◌↔◌, IsTrue, IsSome, IsNone, None, IsOk, IfOk, IfErr, MatchOption};
ghost use Rattle.epoch_bags.specs.Jobs.{AnswersJob, IsCalled};

use crate::collector::Collector;
use crate::rooms::GuardRooms;
use epoch_bags::{Called, Job, Run, Work};
use epoch_tables::Seated;
use std::{fmt, mem};

/// A guard, under which pointers are loaded. It must be given back.
///
/// A *protecting* guard is a token of a pin. While it is out, its participant stays pinned, and no job that is deferred
/// meanwhile is called. So a value that was found under it stays until the handle takes the guard back, by
/// [`LocalHandle::unpin`](crate::LocalHandle::unpin), or repins; this needs every thread to take values out of reach
/// before it defers their destruction. Guards of one handle can be given back in any order: the last one unpins.
///
/// An *unprotected* guard, from [`unprotected`], serves where a call asks for a guard and nothing needs protection.
///
/// # Examples
///
/// A pointer is loaded, and its value read, under one pin:
///
/// ```
/// let guard = handle.pin();
/// if let Some(reading) = pointer.load(Acquire, &guard).deref() {
///     total += *reading.get();
///     reading.leave();
/// }
/// handle.unpin(guard);
/// ```
pub struct Guard<'c, T, W = Work> {
    pub(crate) collector: &'c Collector<T, W>,
    pub(crate) position: Option<usize>,
    // Free cells for the values that are placed under it, which its handle gave to it. No clause speaks of them.
    pub(crate) rooms: GuardRooms<'c, T>,
}

/// Returns a guard of this collector that protects nothing: a job that is deferred under it is called at once.
///
/// Use it only while no other thread can use the structure: to make a structure before it is shared, and to take one
/// apart when only its owner is left. It needs no handle, and each call returns one more guard, which is given back to
/// [`Guard::let_go`]. As `unprotected` of crossbeam-epoch, which is unsafe to call. Here every call under the guard is
/// safe, but a value that another thread still wants to read may be gone.
///
/// Code that is generic over its kind of work needs the bound [`Seated`] for this. Calls of handles and of structures
/// don't have it: they can't make such a guard, and have a job called early by it.
pub fn unprotected<T, W: Seated>(collector: &Collector<T, W>) -> Guard<'_, T, W>
    ensures protects { result.position ≡ None }
    ensures of { result.collector.now ≡ collector.now }
{
    Guard {
        collector,
        position: None,
        rooms: GuardRooms::new(None),
    }
}

impl<'c, T, W> Guard<'c, T, W> {
    /// Returns whether it is a token of a pin.
    pub fn is_protecting(&self) -> bool
        ensures { IsTrue result ↔ IsSome self.now.position }
    {
        self.position.is_some()
    }

    /// Returns the collector of a protecting guard, and `None` for an unprotected one, as in crossbeam-epoch.
    pub fn collector(&self) -> Option<&'c Collector<T, W>>
        ensures { MatchOption result (self.now.position ≡ None)
            (λ collector. IsSome self.now.position × (collector.now ≡ self.now.collector.now)) }
    {
        match self.position {
            Some(_) => Some(self.collector),
            None => None,
        }
    }
}

impl<'c, T: Drop, W> Guard<'c, T, W> {
    /// Takes an unprotected guard back. A protecting guard comes back, since its handle has to take it: `unpin`.
    pub fn let_go(self) -> Result<(), Guard<'c, T, W>>
        // `let_go` spends an unprotected guard, and hands a protecting one back.
        ensures ok { IsOk result ↔ IsNone self.entry.position }
        ensures handed_back { IfErr result (λ guard. guard ≡ self.entry) }
    {
        if self.position.is_some() {
            return Err(self);
        }
        let Guard {
            collector: _,
            position: _,
            rooms,
        } = self;
        drop(rooms.into_list());
        Ok(())
    }
}

impl<'c, T: Drop, W: Run> Guard<'c, T, W> {
    /// Calls the job at once, under an unprotected guard, and returns what that did. Under a protecting guard the job
    /// comes back uncalled.
    pub fn call_now(&self, job: Job<W>) -> Result<Called, Job<W>>
        // `call_now` is refused exactly under a protecting guard, and hands the job back then. Otherwise it has called
        // the work or tried the removal, and returns `Ran` for work and for nothing else.
        ensures ok { IsOk result ↔ IsNone self.now.position }
        ensures called { IfOk result (λ called. AnswersJob job called × IsCalled W.done W.Removing.tried job) }
        ensures handed_back { IfErr result (λ back. back ≡ job) }
    {
        if self.position.is_some() {
            return Err(job);
        }
        Ok(self.collector.call(job))
    }
}

impl<'c, T: Drop, W> Guard<'c, T, W> {
    /// Takes the guard out, and leaves one that protects nothing until it is given back.
    pub(crate) fn taken(&mut self) -> Guard<'c, T, W>
        ensures taken { result ≡ self.old }
        ensures left { self.new.position ≡ None }
    {
        let (collector, position) = (self.collector, None);
        let rooms = GuardRooms::new(None);
        let none = Guard {
            collector,
            position,
            rooms,
        };
        mem::replace(self, none)
    }

    /// Puts the guard back that was taken out.
    pub(crate) fn give_back(&mut self, guard: Guard<'c, T, W>)
        ensures { self.new ≡ guard.entry }
    {
        let Guard {
            collector: _,
            position: _,
            rooms,
        } = mem::replace(self, guard);
        drop(rooms.into_list());
    }
}

impl<'c, T, W> fmt::Debug for Guard<'c, T, W> {
    fn fmt<F: fmt::Write>(&self, f: &mut fmt::Formatter<F>) -> fmt::Result {
        f.pad("Guard { .. }")
    }
}
