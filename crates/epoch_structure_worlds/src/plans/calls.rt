//! Which call of the world a phase makes, and what follows from its reply.
ghost use Rattle.std.specs.Prelude.{◌≡◌};
ghost use Rattle.epoch_structure_laws.specs.Plans.{plan_begun, plan_gone, ptr_to};
ghost use Rattle.epoch_structure_worlds.specs.PlanWorlds.{call_wished, plain_call, reply_told};

use crate::plans::step::PlainCall;
use epoch_cells::Name;
use epoch_laws::heap::Ptr;
use epoch_laws::{Call, Reply};
use epoch_structure_laws::{PhaseMachine, Plan, Wish};

/// Returns the call of the world that a participant begins by itself.
pub fn plain_call(call: PlainCall) -> Call
    ensures { result ≡ plain_call call }
{
    match call {
        PlainCall::Pin => Call::Pin,
        PlainCall::Unpin(guard) => Call::Unpin(guard),
        PlainCall::Repin(guard) => Call::Repin(guard),
        PlainCall::Pause(guard) => Call::Pause(guard),
        PlainCall::Resume(guard) => Call::Resume(guard),
        PlainCall::Defer(guard) => Call::Defer(guard),
        PlainCall::Flush(guard) => Call::Flush(guard),
        PlainCall::Release => Call::Release,
    }
}

fn to(node: Name) -> Ptr
    ensures { result ≡ ptr_to node }
{
    Ptr {
        name: Some(node),
        tag: 0,
    }
}

/// Returns the call of the world that is wished for, under this guard. An answer is none.
pub fn call_wished<A: Copy>(guard: u64, wish: Wish<A>) -> Call
    ensures { result ≡ call_wished guard wish }
{
    let under = Some(guard);
    match wish {
        Wish::Flush => Call::Flush(under),
        Wish::Touch(access) => Call::Access(access),
        Wish::Defer(node) => Call::DeferDestroy(under, to(node)),
        Wish::Answer(_) => Call::Pin,
    }
}

/// Returns what follows from the reply to the begin of a phase's call.
pub fn plan_begun<P: PhaseMachine>(guard: u64, phase: P, reply: Reply) -> Plan<P>
    ensures { result ≡ plan_begun guard phase (P.deed guard phase) reply }
{
    match reply {
        Reply::Refused(_) => Plan::Under(guard, phase.hear(reply), false),
        _ => Plan::Under(guard, phase, true),
    }
}

/// Returns what follows from the reply to a further step of a phase's call.
pub fn plan_gone<P: PhaseMachine>(guard: u64, phase: P, reply: Reply) -> Plan<P>
    ensures { result ≡ plan_gone guard phase (P.deed guard phase) reply }
{
    match reply {
        Reply::Done(_) | Reply::Refused(_) => Plan::Under(guard, phase.hear(reply), false),
        _ => Plan::Under(guard, phase, true),
    }
}

/// Returns what is told of a step of a structure's call: its event, or `Stepped`.
pub fn told(reply: Reply) -> Reply
    ensures { result ≡ reply_told reply }
{
    match reply {
        Reply::Began | Reply::Done(_) | Reply::Refused(_) => Reply::Stepped,
        _ => reply,
    }
}
