//! Why a call may be told how keys compare, and not the keys: laws of the definitions.
ghost use Rattle.std.specs.Prelude.{◌≡◌, ℕ, ◌<◌, ◌+◌, ◌*◌};
ghost use Rattle.std.specs.Ordering.{nat_cmp};
ghost use Rattle.std.specs.declared.cmp.Ordering.{Ordering};
ghost use Rattle.epoch_laws.specs.declared.step.Reply.{Reply};
ghost use Rattle.epoch_structure_calls.specs.MapCalls.{coded, first_of};
ghost use Rattle.epoch_structure_calls.specs.Ranks.{AsksAlike, PhaseIsFor, WorkIsFor, code_of, coded_phase};
ghost use Rattle.epoch_structure_calls.specs.Ranks.{coded_reply};
ghost use Rattle.epoch_structure_calls.specs.Ranks.{coded_work};
ghost use Rattle.epoch_structure_laws.specs.declared.map.plan.MapPhase.{MapPhase};
ghost use Rattle.epoch_structure_laws.specs.declared.map.plan.MapWork.{MapWork};
ghost use Rattle.epoch_structure_laws.specs.MapProgram.{map_deed_of};
ghost use Rattle.epoch_structure_laws.specs.Plans.{after_by};

/// A call that is told only how keys compare with the one that it seeks goes hand in hand with a call that is told the
/// entries themselves: it begins alike, each of its phases asks for the same call, and is followed by the same phase if
/// the replies are the same. What it answers is the entry that the other call answers, as it is told.
///
/// The entries themselves may have any numbers for their keys that are in the keys' order: then each entry is told as
/// its key compares.
pub fn every_coded_call_goes_as_one_with_entries()
    // A call that is told only how keys compare goes hand in hand with one that is told entries: both begin alike, each
    // phase asks for the same call, and the next phases are the same if the replies are. The keys of these entries may
    // be any numbers that are in the keys' order.
    ensures begins { (key : ℕ) (work : MapWork) → WorkIsFor key work
        → (coded_phase key (first_of work) ≡ first_of (coded_work key work)) × PhaseIsFor key (first_of work) }
    ensures asks_alike { (key guard : ℕ) (phase : MapPhase)
        → AsksAlike key (map_deed_of guard phase) (map_deed_of guard (coded_phase key phase)) }
    ensures goes_on { (key guard : ℕ) (phase : MapPhase) (reply : Reply) → PhaseIsFor key phase
        → (coded_phase key (after_by phase (map_deed_of guard phase) reply)
        ≡ after_by (coded_phase key phase) (map_deed_of guard (coded_phase key phase)) (coded_reply key reply))
        × PhaseIsFor key (after_by phase (map_deed_of guard phase) reply) }
    ensures by_order { (order : Ordering) (rank sought value : ℕ) → nat_cmp rank sought ≡ order → value < 4294967296
        → code_of sought (rank * 4294967296 + value) ≡ coded order }
{}
