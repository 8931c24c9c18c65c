//! How far a call goes on by accesses that write nothing.
ghost use Rattle.std.specs.Prelude.{◌≡◌, None};
ghost use Rattle.epoch_structure_laws.specs.Asks.{wish_of};
ghost use Rattle.epoch_structure_calls.specs.Paths.{ReadsOn, read_only, reading_of};

use crate::phases::ending::Ends;
use crate::phases::replies::as_reply;
use crate::phases::spots::Spots;
use epoch_laws::heap::{Access, Change};
use epoch_structure_laws::{PhaseMachine, Wish};

/// How the calls of a program go ahead over those phases that only read. No value of it is made.
pub trait GoesAhead<P: PhaseMachine, L: Spots> {
    /// Goes from this phase on by accesses that write nothing, as far as it likes, and returns the phase that it has
    /// come to.
    fn ahead(first: P, spots: &mut L) -> P
        ensures { ReadsOn L.does (P.deed 0) first spots.old result spots.new };
}

// The access itself, where it writes nothing.
#[inline(always)]
fn read_only(access: Access) -> Option<Access>
    ensures { result ≡ read_only access }
{
    match access {
        Access::Read(_, _) | Access::Leave(_) | Access::Point(_, _, Change::Load) => Some(access),
        _ => None,
    }
}

// The access that is asked for, where it writes nothing.
#[inline(always)]
fn reading_of<A: Copy>(wish: Wish<A>) -> Option<Access>
    ensures { result ≡ reading_of wish }
{
    match wish {
        Wish::Touch(access) => read_only(access),
        _ => None,
    }
}

/// Goes over the phases of a program from this one on, as long as they ask for accesses that write nothing, and returns
/// the first phase that asks for something else.
#[inline(always)]
pub fn read_on<P: PhaseMachine, E: Ends<P>, L: Spots>(first: P, spots: &mut L) -> P
    // A call that goes ahead makes one access for each phase, and each of these accesses writes nothing.
    ensures reads { ReadsOn L.does (P.deed 0) first spots.old result spots.new }

    // Such a call stops at the first phase that asks for something else.
    ensures stops { reading_of (wish_of (P.deed 0 result)) ≡ None }
{
    let mut phase = first;
    loop {
        let Some(access) = reading_of(phase.wish(0)) else {
            return phase;
        };
        phase = phase.hear(as_reply(spots.touch(access)));
    }
}
