//! The cells and pointers of a structure, as the phases of its program access them.
ghost use Rattle.epoch_laws.specs.declared.heap.access.Access.{Access};
ghost use Rattle.epoch_laws.specs.declared.step.Reply.{Reply};
ghost use Rattle.epoch_structure_calls.specs.Paths.{IsTold, reply_given};

use epoch_cells::Fault;
use epoch_laws::heap::{Access, AccessAnswer};

/// The cells and pointers of a structure, which threads share, as one call of it accesses them.
pub trait Spots {
    /// This access, with this reply, leads from one to the other. Where the type is a parameter, nothing but the call
    /// below shows it.
    ghost does: { Self → Access → Reply → Self → Type 0 };

    /// Makes this access, and returns what it gave. The guard that the access names is the one of the call.
    ///
    /// Only a placing is refused. `NoMemory`: an allocation was refused. `CellsFull`: every slot was seen used or
    /// retired.
    fn touch(&mut self, access: Access) -> Result<AccessAnswer, Fault>
        ensures does { does self.old access (reply_given result) self.new }
        // Only a placing is refused, with `NoMemory` or `CellsFull`.
        ensures told { IsTold access (reply_given result) };
}
