//! Why the calls of a program end.
ghost use Rattle.std.specs.Prelude.{ℕ};
ghost use Rattle.epoch_structure_laws.specs.Plans.{IsLowered};

use epoch_structure_laws::PhaseMachine;

/// Why the calls of a program end. No value of it is made.
pub trait Ends<P: PhaseMachine> {
    /// How many calls on cells and pointers, or of what keeps removals, are left from a phase on, at most.
    ghost calls_left: { P → ℕ };

    // Each reply lowers it.
    ghost lowered: { IsLowered (record { Phase = P; Answer = P.Answer; deed = P.deed }) calls_left };
}
