//! Whether each reply of a history fits what the entries before it tell of all participants.
ghost use Rattle.std.specs.Prelude.{◌≡◌, ◌↔◌, ℕ, ◌<◌, true, IsTrue, ◌⊎◌};
ghost use Rattle.epoch_laws.specs.Heap.{guard_of};
ghost use Rattle.epoch_laws.specs.Lawful.{told_of};
ghost use Rattle.epoch_laws.specs.Fits.{EachFits, Fits, EachHasLeft, EndFits, EndGoFits, RegisterFits, BeginFits};
ghost use Rattle.epoch_laws.specs.Fits.{IsStranger, ResumeFault, HeapFault, AccessFault, CallFault};
ghost use Rattle.epoch_laws.specs.Fits.{GoFits, BeginFault, IsGivenGuard, go_fault as fault_of_go};
ghost use Rattle.epoch_laws.specs.Run.{is_out};

use crate::heap::{Access, AccessAnswer};
use crate::histories::guards::{has_out, has_room, lowest};
use crate::histories::known::Known;
use crate::histories::lawful::waits;
use crate::histories::phase::phase_of;
use crate::{Call, Entry, Phase, Reply, Step};
use epoch_cells::Fault;

/// Returns whether each reply fits what the entries before it tell.
pub fn each_fits(entries: &[Entry]) -> bool
    ensures { IsTrue result ↔ EachFits entries.now }
{
    for (place, entry) in entries.iter().enumerate() {
        if !fits(&entries[..place], *entry) {
            return false;
        }
    }
    true
}

/// Whether this reply fits what the entries before it tell.
fn fits(before: &[Entry], entry: Entry) -> bool
    ensures { IsTrue result ↔ Fits before.now entry.step entry.reply }
{
    match entry.step {
        Step::Register => register_fits(before, entry.reply, phase_of(before)),
        Step::Begin(participant, call) => begin_fits(before, participant, call, entry.reply),
        Step::Go(participant) => go_fits(before, participant, entry.reply),
        Step::End => end_fits(before, entry.reply, phase_of(before)),
        Step::EndGo => end_go_fits(entry.reply, phase_of(before)),
    }
}

fn register_fits(before: &[Entry], reply: Reply, phase: Phase) -> bool
    ensures { IsTrue result ↔ RegisterFits before.now reply phase }
{
    match (reply, phase) {
        (Reply::Registered(position), Phase::Before) => all_taken_below(before, position),
        (Reply::Registered(_), _) => false,
        (Reply::Refused(fault), Phase::Before) => matches!(fault, Fault::TableFull),
        (Reply::Refused(fault), _) => matches!(fault, Fault::Ended),
        _ => true,
    }
}

/// Whether each position below this one is taken.
fn all_taken_below(before: &[Entry], position: u64) -> bool
    ensures { IsTrue result ↔ ((k : ℕ) → k < position → (told_of k before.now).registered ≡ true) }
{
    for other in 0..position {
        if !Known::of(before, other).registered {
            return false;
        }
    }
    true
}

fn end_fits(before: &[Entry], reply: Reply, phase: Phase) -> bool
    ensures { IsTrue result ↔ EndFits before.now reply phase }
{
    match (reply, phase) {
        (Reply::Began, Phase::Before) => each_has_left(before),
        (Reply::Began, _) => false,
        (Reply::Refused(fault), Phase::Before) => {
            matches!(fault, Fault::ParticipantsLeft) && !each_has_left(before)
        }
        (Reply::Refused(fault), _) => matches!(fault, Fault::Ended),
        _ => true,
    }
}

/// Whether each participant that has registered has left since.
fn each_has_left(entries: &[Entry]) -> bool
    ensures { IsTrue result ↔ EachHasLeft entries.now }
{
    for place in 0..entries.len() {
        if let Reply::Registered(participant) = entries[place].reply {
            if Known::of(entries, participant).registered {
                return false;
            }
        }
    }
    true
}

fn end_go_fits(reply: Reply, phase: Phase) -> bool
    ensures { IsTrue result ↔ EndGoFits reply phase }
{
    match (reply, phase) {
        (Reply::Refused(_), Phase::During) => false,
        (Reply::Refused(fault), _) => matches!(fault, Fault::Idle),
        (_, Phase::During) => true,
        _ => false,
    }
}

fn begin_fits(before: &[Entry], participant: u64, call: Call, reply: Reply) -> bool
    ensures { IsTrue result ↔ BeginFits (told_of participant before.now) call reply }
{
    match reply {
        Reply::Refused(fault) => {
            let known = Known::of(before, participant);
            begin_fault(
                before,
                participant,
                known,
                waits(call, known.paused),
                call,
                fault,
            )
        }
        _ => true,
    }
}

/// Whether a Begin of this call, by a participant of which this is known, may be refused with this fault.
fn begin_fault(
    before: &[Entry],
    participant: u64,
    known: Known,
    waiting: bool,
    call: Call,
    fault: Fault,
) -> bool
    ensures { IsTrue result ↔ BeginFault known.registered known.call waiting call
        (told_of participant before.now).guards known.paused fault }
{
    if !known.registered {
        return matches!(fault, Fault::NotRegistered);
    }
    if known.call.is_some() || waiting {
        return matches!(fault, Fault::Busy);
    }
    call_fault(before, participant, call, known.paused, fault)
}

/// Whether this is a fault of the call itself.
fn call_fault(
    before: &[Entry],
    participant: u64,
    call: Call,
    paused: Option<u64>,
    fault: Fault,
) -> bool
    ensures { IsTrue result ↔ CallFault call (told_of participant before.now).guards paused fault }
{
    match call {
        Call::Pin => !has_room(before, participant) && matches!(fault, Fault::TooManyGuards),
        Call::Unpin(None) => matches!(fault, Fault::StrangerGuard),
        Call::Unpin(Some(guard)) | Call::Repin(Some(guard)) | Call::Pause(Some(guard)) => {
            is_stranger(before, participant, guard, fault)
        }
        Call::Flush(Some(guard)) => is_stranger(before, participant, guard, fault),
        Call::Resume(Some(guard)) => resume_fault(guard, paused, fault),
        Call::Defer(Some(guard)) => {
            let tickets = matches!(fault, Fault::TicketsOut);
            is_stranger_or(before, participant, guard, fault, tickets)
        }
        Call::Release => matches!(fault, Fault::GuardsOut),
        Call::DeferDestroy(None, _) => matches!(fault, Fault::StrangerPointer),
        Call::DeferDestroy(Some(guard), _) => {
            let removal = matches!(fault, Fault::StrangerPointer | Fault::TicketsOut);
            is_stranger_or(before, participant, guard, fault, removal)
        }
        Call::Access(access) => access_fault(before, participant, access, fault),
        _ => false,
    }
}

/// Whether this is the fault of a guard that isn't counted.
fn is_stranger(before: &[Entry], participant: u64, guard: u64, fault: Fault) -> bool
    ensures { IsTrue result ↔ IsStranger guard (told_of participant before.now).guards fault }
{
    !has_out(before, participant, guard) && matches!(fault, Fault::StrangerGuard)
}

/// Whether this is the fault of a guard that isn't counted or, under one that is, another one that may be.
fn is_stranger_or(before: &[Entry], participant: u64, guard: u64, fault: Fault, other: bool) -> bool
    ensures { IsTrue result ↔ (IsStranger guard (told_of participant before.now).guards fault
        ⊎ ((is_out guard (told_of participant before.now).guards ≡ true) × (other ≡ true))) }
{
    if has_out(before, participant, guard) {
        other
    } else {
        matches!(fault, Fault::StrangerGuard)
    }
}

fn resume_fault(guard: u64, paused: Option<u64>, fault: Fault) -> bool
    ensures { IsTrue result ↔ ResumeFault guard paused fault }
{
    match paused {
        None => matches!(fault, Fault::Idle),
        Some(other) => guard != other && matches!(fault, Fault::StrangerGuard),
    }
}

fn access_fault(before: &[Entry], participant: u64, access: Access, fault: Fault) -> bool
    ensures { IsTrue result ↔ AccessFault (guard_of access) access (told_of participant before.now).guards fault }
{
    let heap = heap_fault(access, fault);
    match access.guard() {
        Some(guard) => is_stranger_or(before, participant, guard, fault, heap),
        None => heap,
    }
}

/// Whether the cells may refuse this call with this fault.
fn heap_fault(access: Access, fault: Fault) -> bool
    ensures { IsTrue result ↔ HeapFault access fault }
{
    match (access, fault) {
        (Access::Place(_), _) => false,
        (Access::Read(_, _), Fault::Busy) => true,
        (Access::Point(_, _, _), Fault::NoSuchPlace) => true,
        (_, Fault::StrangerPointer) => true,
        _ => false,
    }
}

fn go_fits(before: &[Entry], participant: u64, reply: Reply) -> bool
    ensures { IsTrue result ↔ GoFits (told_of participant before.now) reply }
{
    let known = Known::of(before, participant);
    match reply {
        Reply::Done(AccessAnswer::Guard(guard)) => is_given(before, participant, known.call, guard),
        Reply::Refused(fault) => go_fault(known, fault),
        _ => true,
    }
}

/// Whether a pin, if it is one, may answer this guard.
fn is_given(before: &[Entry], participant: u64, call: Option<Call>, guard: u64) -> bool
    ensures { IsTrue result ↔ IsGivenGuard call guard (told_of participant before.now).guards }
{
    match call {
        Some(Call::Pin) => guard == lowest(before, participant),
        _ => true,
    }
}

/// Whether a Go, of a participant of which this is known, may be refused with this fault.
fn go_fault(known: Known, fault: Fault) -> bool
    ensures { IsTrue result ↔ (fault ≡ fault_of_go known.registered known.call) }
{
    match (known.call, known.registered) {
        (Some(Call::Access(_)), _) => matches!(fault, Fault::CellsFull),
        (Some(_), _) => matches!(fault, Fault::BagsFull),
        (None, true) => matches!(fault, Fault::Idle),
        (None, false) => matches!(fault, Fault::NotRegistered),
    }
}
