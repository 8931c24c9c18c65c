//! A stack or a queue, by calls that both have, and what the calls have to answer.
use crate::lending::{Part, Told, flush_if, pin};
use crate::wants::want;
use epoch_cells::{Fault, Refused};
use epoch_lend::readers::posts::PostSet;
use epoch_lend::session::LendingGuard;
use epoch_lend_pointers::Writer;
use epoch_lists::{LendingQueue, LendingStack, ListNode};
use std::process::Abort;

/// A node of the stacks and queues.
pub(crate) type Link = ListNode<u64>;

/// A stack or a queue.
#[derive(Drop)]
pub(crate) enum Pile<'q, 's, J: PostSet> {
    Stack(LendingStack<'q, 's, J, Link>),
    Queue(LendingQueue<'q, 's, J, Link>),
}

/// A call on a pile.
#[derive(Clone, Copy)]
pub(crate) enum Call {
    Push(u64),
    Pop,
    Peek,
}

/// A call in at most this many tries, and what it answers.
pub(crate) type Row = (Call, u32, Told);

/// What a push of this value in at most this many tries answered. A refused one hands the node back, unless it lost all
/// its tries.
fn pushed<'g>(
    rt: &impl Abort,
    value: u64,
    tries: u32,
    answer: Result<(), Refused<Option<Link>>>,
) -> Result<Option<&'g Link>, Fault> {
    match answer {
        Ok(()) => Ok(None),
        Err(Refused { fault, value: back }) => {
            if fault != Fault::TriesOut || tries == 0 {
                let back = back.map(|node| node.into_value());
                want(rt, "the value that comes back", back, Some(value));
            }
            Err(fault)
        }
    }
}

/// The value of the node that a call lent.
pub(crate) fn value_of(lent: Result<Option<&Link>, Fault>) -> Told {
    match lent {
        Ok(Some(node)) => Ok(Some(*node.value())),
        Ok(None) => Ok(None),
        Err(fault) => Err(fault),
    }
}

impl<'q, 's, J: PostSet> Pile<'q, 's, J> {
    /// Makes the call, in at most this many tries. A push lends none.
    fn call<'g>(
        &'g self,
        rt: &impl Abort,
        writer: &mut Writer<'_, 's, J, Link>,
        guard: &'g LendingGuard<'_, J>,
        (call, tries): (Call, u32),
    ) -> Result<Option<&'g Link>, Fault> {
        match (self, call) {
            (Pile::Stack(stack), Call::Push(value)) => {
                let answer = stack.push(writer, guard, ListNode::new(value), tries);
                pushed(rt, value, tries, answer)
            }
            (Pile::Queue(queue), Call::Push(value)) => {
                let answer = queue.push(writer, guard, ListNode::new(value), tries);
                pushed(rt, value, tries, answer)
            }
            (Pile::Stack(stack), Call::Pop) => stack.pop(writer, guard, tries),
            (Pile::Queue(queue), Call::Pop) => queue.pop(writer, guard, tries),
            (_, Call::Peek) => self.peek(guard),
        }
    }

    /// Looks at the node that comes off next.
    pub(crate) fn peek<'g>(
        &'g self,
        guard: &'g LendingGuard<'_, J>,
    ) -> Result<Option<&'g Link>, Fault> {
        match self {
            Pile::Stack(stack) => stack.peek(guard),
            Pile::Queue(queue) => queue.peek(guard),
        }
    }

    /// Whether it is empty.
    fn is_empty(&self, guard: &LendingGuard<'_, J>) -> bool {
        match self {
            Pile::Stack(stack) => stack.is_empty(guard),
            Pile::Queue(queue) => queue.is_empty(guard),
        }
    }
}

/// Makes the call under a pin of its own, and flushes if that is wanted. What the call lent is read before the flush,
/// and once more behind it, and is the same.
pub(crate) fn call_once<'s, J: PostSet>(
    rt: &impl Abort,
    pile: &Pile<'_, 's, J>,
    part: &mut Part<'_, 's, J, Link>,
    row: (Call, u32),
    flushes: bool,
) -> Told {
    let guard = pin(rt, &mut part.session);
    let lent = pile.call(rt, &mut part.writer, &guard, row);
    let told = value_of(lent);
    flush_if(&mut part.writer, flushes);
    want(rt, "a value that is read once more", value_of(lent), told);
    part.session.unpin(guard);
    told
}

/// Whether the pile says that it is empty.
fn want_emptiness<'s, J: PostSet>(
    rt: &impl Abort,
    pile: &Pile<'_, 's, J>,
    part: &mut Part<'_, 's, J, Link>,
    wanted: bool,
) {
    let guard = pin(rt, &mut part.session);
    let is_empty = pile.is_empty(&guard);
    part.session.unpin(guard);
    want(rt, "whether it is empty", is_empty, wanted);
}

/// The call answers so. Where a look does, whether the pile is empty agrees.
pub(crate) fn want_call<'s, J: PostSet>(
    rt: &impl Abort,
    pile: &Pile<'_, 's, J>,
    part: &mut Part<'_, 's, J, Link>,
    (call, tries, wanted): Row,
) {
    let told = call_once(rt, pile, part, (call, tries), false);
    let what = match call {
        Call::Push(_) => "a push",
        Call::Pop => "a pop",
        Call::Peek => "a look",
    };
    want(rt, what, told, wanted);
    if let (Call::Peek, Ok(found)) = (call, wanted) {
        want_emptiness(rt, pile, part, found.is_none());
    }
}

/// These calls answer so, one after the other.
pub(crate) fn want_rows<'s, J: PostSet>(
    rt: &impl Abort,
    pile: &Pile<'_, 's, J>,
    part: &mut Part<'_, 's, J, Link>,
    rows: &[Row],
) {
    for row in rows {
        want_call(rt, pile, part, *row);
    }
}
