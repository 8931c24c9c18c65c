//! Whether each event of a history stands only where it may.
ghost use Rattle.std.specs.Prelude.{◌≡◌, ◌↔◌, IsTrue, Some};
ghost use Rattle.epoch_laws.specs.Lawful.{nothing, told_of, MayPin, MayUnpin, MayRepin, MayDefer, MayCall};
ghost use Rattle.epoch_laws.specs.Lawful.{MayCallNow, Told, HasTold, HasToldRefused, IsValue, IsPointer, IsWritten};
ghost use Rattle.epoch_laws.specs.Lawful.{IsExchange, IsUpdate, ChangeAnswers, AccessAnswers, AnswerFits, MayTell};
ghost use Rattle.epoch_laws.specs.Lawful.{MayRegister, GuardAllows, GuardsAllow, MayAccept, MayBegin, MayEnd, MayEndGo};
ghost use Rattle.epoch_laws.specs.Lawful.{MayReply, MayReplyAll};
ghost use Rattle.epoch_laws.specs.Fits.{IsLawful};
ghost use Rattle.epoch_laws.specs.Known.{known_of};
ghost use Rattle.epoch_laws.specs.Run.{waits as call_waits};

use crate::heap::{Access, AccessAnswer, Change};
use crate::histories::fits::each_fits;
use crate::histories::guards::{has_none, has_one, has_only, has_out, has_room};
use crate::histories::known::Known;
use crate::histories::tickets::{calls_after_deferrals, calls_none_twice};
use crate::{Call, Entry, Reply, Step};

/// Returns whether a recorded list is lawful:
///
/// - Each event stands only in a call that may tell it, and as often as it should.
/// - Each call begins only for a participant that is registered, has no call under way, and whose guards allow it. It
///   is done with its own kind of answer.
/// - Each job is called at most once, after it was deferred.
/// - Each position that is given is the lowest free one, and each guard the lowest that isn't counted.
/// - Each refusal is one that a world may give then.
/// - An end is accepted once, when each participant has left, and takes its steps from then until it is done.
///
/// It takes no memory. Its time grows with the third power of the number of entries at worst.
pub fn is_lawful(entries: &[Entry]) -> bool
    // The checkers check a recorded list by the definitions of the laws: each says yes exactly when the definition
    // holds for the list.
    ensures { IsTrue result ↔ IsLawful entries.now }
{
    all_stand_in_calls(entries)
        && each_fits(entries)
        && calls_none_twice(entries)
        && calls_after_deferrals(entries)
}

/// Whether each reply may be that of its step.
fn all_stand_in_calls(entries: &[Entry]) -> bool
    ensures { IsTrue result ↔ MayReplyAll (λ p. nothing) entries.now }
{
    for (place, entry) in entries.iter().enumerate() {
        if !may_reply(&entries[..place], *entry) {
            return false;
        }
    }
    true
}

/// Whether the reply may be that of its step, after these entries.
fn may_reply(before: &[Entry], entry: Entry) -> bool
    ensures { IsTrue result ↔ MayReply (λ p. told_of p before.now) entry.step entry.reply }
{
    match entry.step {
        Step::Register => may_register(before, entry.reply),
        Step::Begin(participant, call) => may_begin(before, participant, call, entry.reply),
        Step::End => may_end(entry.reply),
        Step::Go(participant) => may_tell(before, participant, entry.reply),
        Step::EndGo => may_end_go(entry.reply),
    }
}

fn may_register(before: &[Entry], reply: Reply) -> bool
    ensures { IsTrue result ↔ MayRegister (λ p. told_of p before.now) reply }
{
    match reply {
        Reply::Registered(participant) => !Known::of(before, participant).registered,
        Reply::Refused(_) => true,
        _ => false,
    }
}

fn may_begin(before: &[Entry], participant: u64, call: Call, reply: Reply) -> bool
    ensures { IsTrue result ↔ MayBegin (told_of participant before.now) call reply }
{
    match reply {
        Reply::Began => may_accept(before, participant, call),
        Reply::Refused(_) => true,
        _ => false,
    }
}

/// Whether this call of this participant may be accepted, after these entries.
fn may_accept(before: &[Entry], participant: u64, call: Call) -> bool
    ensures { IsTrue result ↔ MayAccept (told_of participant before.now) call }
{
    let known = Known::of(before, participant);
    known.registered
        && known.call.is_none()
        && !waits(call, known.paused)
        && guards_allow(before, participant, call, known.paused)
}

/// Returns whether this call has to wait for the guard that is paused.
pub fn waits(call: Call, paused: Option<u64>) -> bool
    ensures { result ≡ call_waits call paused }
{
    match call {
        Call::Resume(_) => false,
        _ => paused.is_some(),
    }
}

/// Whether the guards of this participant allow this call.
fn guards_allow(before: &[Entry], participant: u64, call: Call, paused: Option<u64>) -> bool
    ensures { IsTrue result ↔ GuardsAllow call (told_of participant before.now).guards paused }
{
    match call {
        Call::Pin => has_room(before, participant),
        Call::Unpin(None) => false,
        Call::Resume(Some(guard)) => is_same(paused, guard),
        Call::Unpin(Some(guard)) | Call::Repin(Some(guard)) | Call::Pause(Some(guard)) => {
            has_out(before, participant, guard)
        }
        Call::Defer(Some(guard)) | Call::Flush(Some(guard)) => has_out(before, participant, guard),
        Call::Release => has_none(before, participant),
        Call::DeferDestroy(Some(guard), _) => has_out(before, participant, guard),
        Call::Access(access) => guard_allows(before, participant, access.guard()),
        _ => true,
    }
}

/// Whether the guard, if it is a protecting one, is counted.
fn guard_allows(before: &[Entry], participant: u64, guard: Option<u64>) -> bool
    ensures { IsTrue result ↔ GuardAllows guard (told_of participant before.now).guards }
{
    match guard {
        Some(guard) => has_out(before, participant, guard),
        None => true,
    }
}

fn is_same(paused: Option<u64>, guard: u64) -> bool
    ensures { IsTrue result ↔ (paused ≡ Some guard) }
{
    match paused {
        Some(other) => other == guard,
        None => false,
    }
}

fn may_end(reply: Reply) -> bool
    ensures { IsTrue result ↔ MayEnd reply }
{
    matches!(reply, Reply::Began | Reply::Refused(_))
}

fn may_end_go(reply: Reply) -> bool
    ensures { IsTrue result ↔ MayEndGo reply }
{
    matches!(
        reply,
        Reply::Stepped
            | Reply::Called(_, _)
            | Reply::Done(AccessAnswer::Count(_))
            | Reply::Refused(_)
    )
}

/// Whether a Go of this participant may have that reply, after these entries.
fn may_tell(before: &[Entry], participant: u64, reply: Reply) -> bool
    ensures { IsTrue result ↔ MayTell participant (told_of participant before.now) reply }
{
    let known = Known::of(before, participant);
    match reply {
        Reply::Stepped => true,
        Reply::Pinned(other) => {
            other == participant && may_pin(before, participant, known.call) && !known.did_pin
        }
        Reply::Unpinned(other) => {
            other == participant && may_unpin(before, participant, known) && !known.did_unpin
        }
        Reply::Repinned(other) => {
            other == participant && may_repin(before, participant, known.call) && !known.did_repin
        }
        Reply::Deferred(_) => may_defer(known.call) && !known.did_defer,
        Reply::Called(_, _) => may_call(known.call) && known.pinned,
        Reply::CalledNow(_) => may_call_now(known.call) && !known.did_call_now,
        Reply::Done(answer) => {
            has_told(before, participant, known) && answer_fits(known.call, answer)
        }
        Reply::Refused(_) => has_told_refused(known),
        Reply::Registered(_) | Reply::Began => false,
    }
}

fn may_pin(before: &[Entry], participant: u64, call: Option<Call>) -> bool
    ensures { IsTrue result ↔ MayPin call (told_of participant before.now).guards }
{
    match call {
        Some(Call::Pin) | Some(Call::Resume(Some(_))) => has_none(before, participant),
        Some(Call::Release) => true,
        _ => false,
    }
}

fn may_unpin(before: &[Entry], participant: u64, known: Known) -> bool
    ensures { IsTrue result ↔ MayUnpin known.call (told_of participant before.now).guards known.did_pin }
{
    match known.call {
        Some(Call::Unpin(Some(guard))) | Some(Call::Pause(Some(guard))) => {
            has_only(before, participant, guard)
        }
        Some(Call::Release) => known.did_pin,
        _ => false,
    }
}

fn may_repin(before: &[Entry], participant: u64, call: Option<Call>) -> bool
    ensures { IsTrue result ↔ MayRepin call (told_of participant before.now).guards }
{
    match call {
        Some(Call::Repin(Some(_))) => has_one(before, participant),
        _ => false,
    }
}

fn may_defer(call: Option<Call>) -> bool
    ensures { IsTrue result ↔ MayDefer call }
{
    matches!(
        call,
        Some(Call::Defer(Some(_)) | Call::DeferDestroy(Some(_), _))
    )
}

fn may_call(call: Option<Call>) -> bool
    ensures { IsTrue result ↔ MayCall call }
{
    matches!(
        call,
        Some(Call::Pin | Call::Resume(Some(_)) | Call::Flush(Some(_)) | Call::Release)
    )
}

fn may_call_now(call: Option<Call>) -> bool
    ensures { IsTrue result ↔ MayCallNow call }
{
    matches!(call, Some(Call::Defer(None) | Call::DeferDestroy(None, _)))
}

/// Whether the call under way, which is done, has told what it should.
fn has_told(before: &[Entry], participant: u64, known: Known) -> bool
    requires { known ≡ known_of (told_of participant before.now) }
    ensures { IsTrue result ↔ HasTold known.call (told_of participant before.now) }
{
    match known.call {
        Some(Call::Pin) | Some(Call::Resume(Some(_))) => {
            known.did_pin || !has_none(before, participant)
        }
        Some(Call::Unpin(Some(guard))) | Some(Call::Pause(Some(guard))) => {
            known.did_unpin || !has_only(before, participant, guard)
        }
        Some(Call::Defer(Some(_)) | Call::DeferDestroy(Some(_), _)) => known.did_defer,
        Some(Call::Defer(None) | Call::DeferDestroy(None, _)) => known.did_call_now,
        Some(Call::Release) => known.did_pin && known.did_unpin,
        Some(_) => true,
        None => false,
    }
}

/// Whether this call, which is done, may have that answer.
fn answer_fits(call: Option<Call>, answer: AccessAnswer) -> bool
    ensures { IsTrue result ↔ AnswerFits call answer }
{
    match call {
        Some(Call::Pin) => matches!(answer, AccessAnswer::Guard(_)),
        Some(Call::Release) => matches!(answer, AccessAnswer::Released),
        Some(Call::Access(access)) => access_answers(access, answer),
        Some(_) => matches!(answer, AccessAnswer::Unit),
        None => false,
    }
}

/// Whether this call on cells and pointers may have that answer.
fn access_answers(access: Access, answer: AccessAnswer) -> bool
    ensures { IsTrue result ↔ AccessAnswers access answer }
{
    match access {
        Access::Place(_) => matches!(answer, AccessAnswer::Name(_)),
        Access::Read(_, _) | Access::Take(_, _) => is_value(answer),
        Access::Leave(_) => matches!(answer, AccessAnswer::Unit),
        Access::Write(_, _, _) => is_written(answer),
        Access::Point(_, _, change) => change_answers(change, answer),
    }
}

/// Whether a call on a pointer may have that answer.
fn change_answers(change: Change, answer: AccessAnswer) -> bool
    ensures { IsTrue result ↔ ChangeAnswers change answer }
{
    match change {
        Change::Load | Change::Swap(_) => is_pointer(answer),
        Change::Store(_) => is_written(answer),
        Change::CompareExchange(_, _) => is_exchange(answer),
        Change::FetchAnd(_) | Change::FetchOr(_) | Change::FetchXor(_) => is_pointer(answer),
        Change::FetchUpdate(_, _) => is_update(answer),
    }
}

fn is_value(answer: AccessAnswer) -> bool
    ensures { IsTrue result ↔ IsValue answer }
{
    matches!(answer, AccessAnswer::Value(_) | AccessAnswer::Absent)
}

fn is_pointer(answer: AccessAnswer) -> bool
    ensures { IsTrue result ↔ IsPointer answer }
{
    matches!(answer, AccessAnswer::Pointer(_) | AccessAnswer::Absent)
}

fn is_written(answer: AccessAnswer) -> bool
    ensures { IsTrue result ↔ IsWritten answer }
{
    matches!(answer, AccessAnswer::Unit | AccessAnswer::Absent)
}

fn is_exchange(answer: AccessAnswer) -> bool
    ensures { IsTrue result ↔ IsExchange answer }
{
    matches!(
        answer,
        AccessAnswer::Exchanged(_) | AccessAnswer::Unchanged(_) | AccessAnswer::Absent
    )
}

fn is_update(answer: AccessAnswer) -> bool
    ensures { IsTrue result ↔ IsUpdate answer }
{
    matches!(
        answer,
        AccessAnswer::Updated(_)
            | AccessAnswer::Stopped(_)
            | AccessAnswer::RanOut(_)
            | AccessAnswer::Absent
    )
}

/// Whether the call under way, which is refused at its end, has told what it should.
fn has_told_refused(known: Known) -> bool
    ensures { (t : Told) → known ≡ known_of t → (IsTrue result ↔ HasToldRefused known.call t) }
{
    match known.call {
        Some(Call::Defer(Some(_)) | Call::DeferDestroy(Some(_), _)) => !known.did_defer,
        Some(Call::Flush(Some(_))) => true,
        Some(Call::Release) => known.did_pin && known.did_unpin,
        Some(Call::Access(Access::Place(_))) => true,
        Some(_) => false,
        None => true,
    }
}
