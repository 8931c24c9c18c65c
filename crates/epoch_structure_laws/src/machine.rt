//! A program as code: the phases of a structure's calls, of which each asks for one call of the world.
ghost use Rattle.std.specs.Prelude.{◌≡◌, ℕ, Bool};
ghost use Rattle.epoch_structure_laws.specs.Plans.{Deed, after_by};
ghost use Rattle.epoch_structure_laws.specs.Asks.{wish_of};

use epoch_cells::Name;
use epoch_laws::Reply;
use epoch_laws::heap::Access;

/// What a phase asks for, under the guard of its call.
#[derive(Clone, Copy, Debug, PartialEq, Eq)]
pub enum Wish<A> {
    /// A flush of the held bag, so that a removal finds room there.
    Flush,
    /// A call on cells and pointers.
    Touch(Access),
    /// A deferral of the removal of this node.
    Defer(Name),
    /// Nothing more: this is the answer.
    Answer(A),
}

/// The phases of a structure's calls.
///
/// The program that the laws speak of is `deed`, with the values of this type as its phases. So what is proved of every
/// run of that program holds of all code that asks for what `wish` says and goes on as `hear` says.
pub trait PhaseMachine: Copy {
    /// What a call answers.
    type Answer: Copy;

    /// What each phase does under a guard, and which phase follows from each reply.
    ghost deed: { ℕ → Self → Deed Self Self.Answer };

    /// Returns what this phase asks for under this guard.
    fn wish(self, guard: u64) -> Wish<Self::Answer>
        // Code that meets the trait is its program: what a phase asks for, and which phase follows from each reply, are
        // what the program says.
        ensures { result ≡ wish_of (deed guard self) };

    /// Returns the phase after this one, whose call ended with this reply. It is the same under every guard.
    fn hear(self, reply: Reply) -> Self
        ensures { (guard : ℕ) → result ≡ after_by self (deed guard self) reply };
}

/// A structure's calls, as they are asked for.
pub trait Works: PhaseMachine {
    /// What is asked for.
    type Work: Copy;

    /// A call may begin in this phase.
    ghost starts: { Self → Type 0 };

    /// The phase in which a call begins, which depends on whether the held bag has room for a further job.
    ghost first: { Self.Work → Bool → Self };

    /// Returns the phase in which a call begins.
    fn first(work: Self::Work, has_room: bool) -> Self
        // The phase in which a call begins is the one that the program says.
        ensures first { result ≡ first work has_room }

        ensures starts { starts result };
}
