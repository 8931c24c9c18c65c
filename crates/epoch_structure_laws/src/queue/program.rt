//! The queue's program as code: what each phase asks for, and which phase follows from each reply.
ghost use Rattle.std.specs.Prelude.{◌≡◌, ℕ};
ghost use Rattle.epoch_structure_laws.specs.declared.machine.Wish.TheVariants.{Touch};
ghost use Rattle.epoch_structure_laws.specs.Asks.{wish_of};
ghost use Rattle.epoch_structure_laws.specs.Plans.{done_by, ptr_to, refused_by};
ghost use Rattle.epoch_structure_laws.specs.QueueProgram.{QueueStarts, begin_queue_work, queue_deed_of, queue_exchange};
ghost use Rattle.epoch_structure_laws.specs.QueueProgram.{queue_load, looked_back, retry_pop, retry_push};
ghost use Rattle.epoch_structure_laws.specs.QueueProgram.{start_queue_work, to_append, to_last, to_next, to_read};

use crate::queue::plan::{QueueAnswer, QueuePhase, QueueWork};
use crate::{PhaseMachine, Wish, Works};
use epoch_cells::Name;
use epoch_laws::Reply;
use epoch_laws::heap::{Access, AccessAnswer, Change, Ptr, Spot, is_name};

const HEAD: Spot = Spot::Root(0);

const TAIL: Spot = Spot::Root(1);

const NULL: Ptr = Ptr { name: None, tag: 0 };

#[inline(always)]
fn to(node: Name) -> Ptr
    ensures { result ≡ ptr_to node }
{
    Ptr {
        name: Some(node),
        tag: 0,
    }
}

// CALLS ON POINTERS

#[inline(always)]
fn load(guard: u64, spot: Spot) -> Wish<QueueAnswer>
    ensures { result ≡ Touch (queue_load guard spot) }
{
    Wish::Touch(Access::Point(Some(guard), spot, Change::Load))
}

/// Exchanges the pointer there, if it is this one still, for the one to the node.
#[inline(always)]
fn exchange(guard: u64, spot: Spot, current: Ptr, node: Name) -> Wish<QueueAnswer>
    ensures { result ≡ Touch (queue_exchange guard spot current node) }
{
    let change = Change::CompareExchange(current, to(node));
    Wish::Touch(Access::Point(Some(guard), spot, change))
}

// WHAT FOLLOWS

/// One more try to push the node, if one is left; else the node is taken back.
#[inline(always)]
fn retry_push(node: Name, tries: u64) -> QueuePhase
    ensures { result ≡ retry_push node tries }
{
    if tries == 0 {
        QueuePhase::TakingBack(node)
    } else {
        QueuePhase::LoadingTail(node, tries - 1)
    }
}

/// One more try to pop, if one is left.
#[inline(always)]
fn retry_pop(tries: u64) -> QueuePhase
    ensures { result ≡ retry_pop tries }
{
    if tries == 0 {
        QueuePhase::Answering(QueueAnswer::TriesOut)
    } else {
        QueuePhase::LoadingHead(tries - 1)
    }
}

/// Returns the first phase of a call, where the held bag has room.
#[inline(always)]
pub fn start_work(work: QueueWork) -> QueuePhase
    ensures { result ≡ start_queue_work work }
{
    match work {
        QueueWork::Build => QueuePhase::Founding,
        QueueWork::Push(value, tries) => QueuePhase::Placing(value, tries),
        QueueWork::Pop(tries) => retry_pop(tries),
    }
}

/// What follows for a push from the tail that it loaded.
#[inline(always)]
fn to_last(node: Name, tries: u64, tail: Option<Name>) -> QueuePhase
    ensures { result ≡ to_last node tries tail }
{
    match tail {
        Some(last) => QueuePhase::LoadingLast(node, last, tries),
        None => retry_push(node, tries),
    }
}

/// What follows for a push from the tail's next: the tail is the last one, or lags behind it.
#[inline(always)]
fn to_append(node: Name, last: Name, tries: u64, next: Option<Name>) -> QueuePhase
    ensures { result ≡ to_append node last tries next }
{
    match next {
        None => QueuePhase::Appending(node, last, tries),
        Some(next) => QueuePhase::Helping(node, last, next, tries),
    }
}

/// What follows for a pop from the head that it loaded.
#[inline(always)]
fn to_next(tries: u64, head: Option<Name>) -> QueuePhase
    ensures { result ≡ to_next tries head }
{
    match head {
        Some(head) => QueuePhase::LoadingNext(head, tries),
        None => retry_pop(tries),
    }
}

/// What follows for a pop from the head's next.
#[inline(always)]
fn to_read(head: Name, tries: u64, next: Option<Name>) -> QueuePhase
    ensures { result ≡ to_read head tries next }
{
    match next {
        Some(next) => QueuePhase::Reading(head, next, tries),
        None => QueuePhase::Answering(QueueAnswer::Empty),
    }
}

/// What follows from the answer to the look at the tail: it is brought past the node that was taken off, if it leads
/// there.
#[inline(always)]
fn looked_back(head: Name, next: Name, value: u64, answer: AccessAnswer) -> QueuePhase
    ensures { result ≡ looked_back head next value answer }
{
    match answer {
        AccessAnswer::Pointer(tail) => {
            let leads = match tail.name {
                Some(tail) => is_name(tail, head),
                None => false,
            };
            if leads {
                QueuePhase::Advancing(head, next, value)
            } else {
                QueuePhase::Removing(head, value)
            }
        }
        _ => QueuePhase::Advancing(head, next, value),
    }
}

/// The phase after this one, whose call gave this answer.
#[inline(always)]
fn answered(phase: QueuePhase, answer: AccessAnswer) -> QueuePhase
    ensures { (guard : ℕ) → result ≡ done_by phase (queue_deed_of guard phase) answer }
{
    match (phase, answer) {
        (QueuePhase::MakingRoom(work), _) => start_work(work),
        (QueuePhase::Founding, AccessAnswer::Name(node)) => QueuePhase::Crowning(node),
        (QueuePhase::Founding, _) => QueuePhase::Answering(QueueAnswer::CellsFull),
        (QueuePhase::Crowning(node), AccessAnswer::Exchanged(_)) => QueuePhase::Seating(node),
        (QueuePhase::Crowning(node), _) => QueuePhase::TakingBack(node),
        (QueuePhase::Seating(_), _) => QueuePhase::Answering(QueueAnswer::Built),
        (QueuePhase::Placing(_, tries), AccessAnswer::Name(node)) => retry_push(node, tries),
        (QueuePhase::Placing(_, _), _) => QueuePhase::Answering(QueueAnswer::CellsFull),
        (QueuePhase::LoadingTail(node, tries), AccessAnswer::Pointer(tail)) => to_last(
            node, tries, tail.name,
        ),
        (QueuePhase::LoadingLast(node, last, tries), AccessAnswer::Pointer(next)) => {
            to_append(node, last, tries, next.name)
        }
        (QueuePhase::Appending(node, last, _), AccessAnswer::Exchanged(_)) => QueuePhase::Swinging(
            last, node,
        ),
        (QueuePhase::LoadingTail(node, tries), _)
        | (QueuePhase::LoadingLast(node, _, tries), _)
        | (QueuePhase::Appending(node, _, tries), _)
        | (QueuePhase::Helping(node, _, _, tries), _) => retry_push(node, tries),
        (QueuePhase::Swinging(_, _), _) => QueuePhase::Answering(QueueAnswer::Pushed),
        (QueuePhase::TakingBack(_), _) => QueuePhase::Answering(QueueAnswer::TriesOut),
        (QueuePhase::LoadingHead(tries), AccessAnswer::Pointer(head)) => to_next(tries, head.name),
        (QueuePhase::LoadingNext(head, tries), AccessAnswer::Pointer(next)) => to_read(
            head, tries, next.name,
        ),
        (QueuePhase::Reading(head, next, tries), AccessAnswer::Value(value)) => {
            QueuePhase::Leaving(head, next, value, tries)
        }
        (QueuePhase::Leaving(head, next, value, tries), _) => QueuePhase::Taking(
            head, next, value, tries,
        ),
        (QueuePhase::Taking(head, next, value, _), AccessAnswer::Exchanged(_)) => {
            QueuePhase::LookingBack(head, next, value)
        }
        (QueuePhase::LoadingHead(tries), _)
        | (QueuePhase::LoadingNext(_, tries), _)
        | (QueuePhase::Reading(_, _, tries), _)
        | (QueuePhase::Taking(_, _, _, tries), _) => retry_pop(tries),
        (QueuePhase::LookingBack(head, next, value), answer) => looked_back(
            head, next, value, answer,
        ),
        (QueuePhase::Advancing(head, _, value), _) => QueuePhase::Removing(head, value),
        (QueuePhase::Removing(_, value), _) => QueuePhase::Answering(QueueAnswer::Popped(value)),
        (QueuePhase::Answering(answer), _) => QueuePhase::Answering(answer),
    }
}

/// The phase after this one, whose call was refused.
#[inline(always)]
fn refused(phase: QueuePhase) -> QueuePhase
    ensures { (guard : ℕ) → result ≡ refused_by phase (queue_deed_of guard phase) }
{
    match phase {
        QueuePhase::MakingRoom(_) => QueuePhase::Answering(QueueAnswer::BagsFull),
        QueuePhase::Founding | QueuePhase::Placing(_, _) => QueuePhase::Answering(
            QueueAnswer::CellsFull,
        ),
        QueuePhase::Crowning(node) => QueuePhase::TakingBack(node),
        QueuePhase::Seating(_) => QueuePhase::Answering(QueueAnswer::Built),
        QueuePhase::LoadingTail(node, tries)
        | QueuePhase::LoadingLast(node, _, tries)
        | QueuePhase::Appending(node, _, tries)
        | QueuePhase::Helping(node, _, _, tries) => retry_push(node, tries),
        QueuePhase::Swinging(_, _) => QueuePhase::Answering(QueueAnswer::Pushed),
        QueuePhase::TakingBack(_) => QueuePhase::Answering(QueueAnswer::TriesOutLeaking),
        QueuePhase::LoadingHead(tries)
        | QueuePhase::LoadingNext(_, tries)
        | QueuePhase::Reading(_, _, tries)
        | QueuePhase::Taking(_, _, _, tries) => retry_pop(tries),
        QueuePhase::Leaving(head, next, value, tries) => QueuePhase::Taking(
            head, next, value, tries,
        ),
        QueuePhase::LookingBack(head, next, value) => QueuePhase::Advancing(head, next, value),
        QueuePhase::Advancing(_, _, value) | QueuePhase::Removing(_, value) => {
            QueuePhase::Answering(QueueAnswer::PoppedLeaking(value))
        }
        QueuePhase::Answering(answer) => QueuePhase::Answering(answer),
    }
}

impl PhaseMachine for QueuePhase {
    type Answer = QueueAnswer;

    ghost deed = { queue_deed_of };

    #[inline(always)]
    fn wish(self, guard: u64) -> Wish<QueueAnswer> {
        match self {
            QueuePhase::MakingRoom(_) => Wish::Flush,
            QueuePhase::Founding => Wish::Touch(Access::Place(0)),
            QueuePhase::Crowning(node) => exchange(guard, HEAD, NULL, node),
            QueuePhase::Seating(node) => exchange(guard, TAIL, NULL, node),
            QueuePhase::Placing(value, _) => Wish::Touch(Access::Place(value)),
            QueuePhase::LoadingTail(_, _) | QueuePhase::LookingBack(_, _, _) => load(guard, TAIL),
            QueuePhase::LoadingLast(_, last, _) => load(guard, Spot::Field(last, 0)),
            QueuePhase::Appending(node, last, _) => exchange(
                guard,
                Spot::Field(last, 0),
                NULL,
                node,
            ),
            QueuePhase::Swinging(last, node) => exchange(guard, TAIL, to(last), node),
            QueuePhase::Helping(_, last, next, _) => exchange(guard, TAIL, to(last), next),
            QueuePhase::LoadingHead(_) => load(guard, HEAD),
            QueuePhase::LoadingNext(head, _) => load(guard, Spot::Field(head, 0)),
            QueuePhase::Reading(_, next, _) => Wish::Touch(Access::Read(Some(guard), to(next))),
            QueuePhase::Leaving(_, next, _, _) => Wish::Touch(Access::Leave(to(next))),
            QueuePhase::Taking(head, next, _, _) => exchange(guard, HEAD, to(head), next),
            QueuePhase::Advancing(head, next, _) => exchange(guard, TAIL, to(head), next),
            QueuePhase::TakingBack(node) | QueuePhase::Removing(node, _) => Wish::Defer(node),
            QueuePhase::Answering(answer) => Wish::Answer(answer),
        }
    }

    #[inline(always)]
    fn hear(self, reply: Reply) -> QueuePhase {
        match reply {
            Reply::Done(answer) => answered(self, answer),
            _ => refused(self),
        }
    }
}

impl Works for QueuePhase {
    type Work = QueueWork;

    ghost starts = { QueueStarts };

    ghost first = { begin_queue_work };

    #[inline(always)]
    fn first(work: QueueWork, has_room: bool) -> QueuePhase {
        if has_room {
            start_work(work)
        } else {
            QueuePhase::MakingRoom(work)
        }
    }
}
