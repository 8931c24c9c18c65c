//! A thread's call: the phases of its program, one after the other.
ghost use Rattle.std.specs.Prelude.{◌≡◌, IsErr, IfOk, IfErr};
ghost use Rattle.epoch_structure_laws.specs.Plans.{Answers};
ghost use Rattle.epoch_structure_calls.specs.Paths.{PerformsBy, DoesBy};

use crate::phases::ending::Ends;
use crate::phases::keeping::Keeps;
use crate::phases::reading::GoesAhead;
use crate::phases::replies::{as_reply, newest};
use crate::phases::spots::Spots;
use epoch_cells::Fault;
use epoch_laws::Reply;
use epoch_structure_laws::{PhaseMachine, Wish};

/// What a call came to.
#[derive(Clone, Copy, Debug, PartialEq, Eq)]
pub struct Outcome<A> {
    /// Its answer.
    pub answer: A,
    /// The fault of the newest refusal on its way, if anything was refused.
    pub refused: Option<Fault>,
}

// Makes the one call that this phase asks for. `Err`: it asks for none, and this is the answer.
#[inline(always)]
fn perform<P: PhaseMachine, K: Keeps<H, G>, H, G, L: Spots>(
    phase: P,
    spots: &mut L,
    handle: &mut H,
    guard: &G,
) -> Result<Reply, P::Answer>
    requires { K.serves handle.old guard.now }
    ensures stays { K.stays handle.old handle.new }
    ensures performs { IfOk result
        (λ reply. PerformsBy L.does K.keeping (P.deed 0 phase) handle.old spots.old reply handle.new spots.new) }
    ensures answers { IfErr result (λ answer. P.deed 0 phase ≡ Answers answer) }
    ensures over { IsErr result → (handle.new ≡ handle.old) × (spots.new ≡ spots.old) }
{
    match phase.wish(0) {
        Wish::Flush => Ok(K::make_room(handle, guard)),
        Wish::Touch(access) => Ok(as_reply(spots.touch(access))),
        Wish::Defer(name) => Ok(K::keep(handle, name, guard)),
        Wish::Answer(answer) => Err(answer),
    }
}

/// Goes over the phases of a program from this one on: makes the one call that each asks for, and goes on as the
/// program says of its reply, until a phase answers. Where phases only read, `C` goes ahead over them.
///
/// It ends, as `C` says. The phases of a program name guards by their numbers. Here they know only one, the number 0,
/// which stands for the guard that is given.
#[inline(always)]
pub fn drive<P: PhaseMachine, C: Ends<P> + GoesAhead<P, L>, K: Keeps<H, G>, H, G, L: Spots>(
    first: P,
    spots: &mut L,
    handle: &mut H,
    guard: &G,
) -> Outcome<P::Answer>
    requires { K.serves handle.old guard.now }
    // What the participant keeps stays as `Keeps` says, over the whole call.
    ensures stays { K.stays handle.old handle.new }

    // A call takes a path of its program: it makes one call for each phase, and no other. A phase that asks for room,
    // for an access or for a removal is served by exactly that call, and the next phase is the one that the program
    // says for its reply.
    ensures does { DoesBy L.does K.keeping (P.deed 0) first handle.old spots.old result.answer result.refused
        handle.new spots.new }
{
    let mut phase = first;
    let mut refused = None;
    loop {
        let there = C::ahead(phase, spots);
        match perform::<P, K, H, G, L>(there, spots, handle, guard) {
            Ok(reply) => {
                refused = newest(refused, reply);
                phase = there.hear(reply);
            }
            Err(answer) => return Outcome { answer, refused },
        }
    }
}
