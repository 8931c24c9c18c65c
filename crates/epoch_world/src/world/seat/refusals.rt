//! Which fault refuses a call of a participant.
ghost use Rattle.std.specs.Prelude.{◌≡◌, Option, Some, if◌then◌else◌};
ghost use Rattle.epoch_laws.specs.Run.{refusal, waits, call_refusal, guard_refusal, resume_refusal, under_guard};
ghost use Rattle.epoch_laws.specs.Run.{access_refusal, reading_refusal};

use crate::world::guards::is_out;
use crate::world::readings::reads;
use crate::world::seat::{GUARDS, Seat};
use epoch_cells::{Fault, Name};
use epoch_laws::heap::{Access, Heap};
use epoch_laws::{Call, Progress, Word};

/// How many of the greatest tickets are never given: one may be asked for by each participant under way.
const TICKETS_ASIDE: u64 = 4096;

impl Seat {
    /// Returns the fault that refuses a call now, where `tickets` were given so far, or `None`.
    pub fn refusal(&self, call: Call, tickets: u64, heap: &Heap) -> Option<Fault>
        ensures { result ≡ refusal call self.now tickets heap.now }
    {
        if let Word::Free = self.word {
            return Some(Fault::NotRegistered);
        }
        let Progress::Idle = self.progress else {
            return Some(Fault::Busy);
        };
        if self.waits(call) {
            return Some(Fault::Busy);
        }
        self.own_refusal(call, tickets, heap)
    }

    /// A paused participant may only resume.
    fn waits(&self, call: Call) -> bool
        ensures { result ≡ waits call self.now.paused }
    {
        match call {
            Call::Resume(_) => false,
            _ => self.paused.is_some(),
        }
    }

    fn own_refusal(&self, call: Call, tickets: u64, heap: &Heap) -> Option<Fault>
        ensures { result ≡ call_refusal call self.now tickets heap.now }
    {
        match call {
            Call::Pin => {
                if self.guards.len() >= GUARDS {
                    Some(Fault::TooManyGuards)
                } else {
                    None
                }
            }
            Call::Unpin(None) => Some(Fault::StrangerGuard),
            Call::Unpin(Some(guard)) => self.guard_refusal(Some(guard)),
            Call::Repin(guard) | Call::Pause(guard) | Call::Flush(guard) => self.guard_refusal(
                guard,
            ),
            Call::Resume(guard) => self.resume_refusal(guard),
            Call::Defer(None) => None,
            Call::Defer(Some(guard)) => {
                if !is_out(self.guards.as_slice(), guard) {
                    Some(Fault::StrangerGuard)
                } else if tickets >= u64::MAX - TICKETS_ASIDE {
                    Some(Fault::TicketsOut)
                } else {
                    None
                }
            }
            Call::Release => {
                if self.guards.len() == 0 && self.readings.is_empty() {
                    None
                } else {
                    Some(Fault::GuardsOut)
                }
            }
            Call::DeferDestroy(None, ptr) => {
                if heap.is_removable(ptr.name) {
                    None
                } else {
                    Some(Fault::StrangerPointer)
                }
            }
            Call::DeferDestroy(Some(guard), ptr) => {
                if !is_out(self.guards.as_slice(), guard) {
                    Some(Fault::StrangerGuard)
                } else if !heap.is_removable(ptr.name) {
                    Some(Fault::StrangerPointer)
                } else if tickets >= u64::MAX - TICKETS_ASIDE {
                    Some(Fault::TicketsOut)
                } else {
                    None
                }
            }
            Call::Access(access) => {
                if !self.has_guard(access.guard()) {
                    return Some(Fault::StrangerGuard);
                }
                self.access_refusal(access, heap)
            }
        }
    }

    /// Whether the guard is out, or an unprotected one.
    fn has_guard(&self, guard: Option<u64>) -> bool
        ensures { (fault : Option Fault)
            → under_guard guard self.now.guards fault ≡ (if result then fault else Some Fault.StrangerGuard) }
    {
        match guard {
            None => true,
            Some(number) => is_out(self.guards.as_slice(), number),
        }
    }

    fn access_refusal(&self, access: Access, heap: &Heap) -> Option<Fault>
        ensures { result ≡ access_refusal access self.now.readings heap.now }
    {
        if !heap.has_place(access) {
            return Some(Fault::NoSuchPlace);
        }
        if !heap.knows_names(access) {
            return Some(Fault::StrangerPointer);
        }
        reading_refusal(access, self.readings.as_slice())
    }

    fn guard_refusal(&self, guard: Option<u64>) -> Option<Fault>
        ensures { result ≡ guard_refusal guard self.now.guards }
    {
        match guard {
            None => None,
            Some(number) => {
                if is_out(self.guards.as_slice(), number) {
                    None
                } else {
                    Some(Fault::StrangerGuard)
                }
            }
        }
    }

    fn resume_refusal(&self, guard: Option<u64>) -> Option<Fault>
        ensures { result ≡ resume_refusal guard self.now.paused }
    {
        match guard {
            None => None,
            Some(number) => match self.paused {
                None => Some(Fault::Idle),
                Some(paused) => {
                    if number == paused {
                        None
                    } else {
                        Some(Fault::StrangerGuard)
                    }
                }
            },
        }
    }
}

/// What is wrong with the readings: a second one, or none.
fn reading_refusal(access: Access, readings: &[Name]) -> Option<Fault>
    ensures { result ≡ reading_refusal access readings.now }
{
    match access {
        Access::Read(_, ptr) => {
            if reads(ptr.name, readings) {
                Some(Fault::Busy)
            } else {
                None
            }
        }
        Access::Leave(ptr) => {
            if reads(ptr.name, readings) {
                None
            } else {
                Some(Fault::StrangerPointer)
            }
        }
        _ => None,
    }
}
