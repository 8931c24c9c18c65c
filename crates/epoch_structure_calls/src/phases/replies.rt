//! What accesses give, as replies, and what replies tell of refusals.
ghost use Rattle.std.specs.Prelude.{◌≡◌};
ghost use Rattle.epoch_structure_calls.specs.Paths.{fault_after, reply_given};

use epoch_cells::Fault;
use epoch_laws::Reply;
use epoch_laws::heap::AccessAnswer;

/// Returns what an access gave, as a reply.
#[inline(always)]
pub fn as_reply(told: Result<AccessAnswer, Fault>) -> Reply
    ensures { result ≡ reply_given told }
{
    match told {
        Ok(answer) => Reply::Done(answer),
        Err(fault) => Reply::Refused(fault),
    }
}

/// Returns the newest fault, after this reply.
#[inline(always)]
pub fn newest(before: Option<Fault>, reply: Reply) -> Option<Fault>
    ensures { result ≡ fault_after before reply }
{
    match reply {
        Reply::Refused(fault) => Some(fault),
        _ => before,
    }
}
