//! The roots of a structure and its nodes, as the code of its calls accesses them.
ghost use Rattle.std.specs.Prelude.{◌≡◌, Some};
ghost use Rattle.epoch_laws.specs.declared.heap.access.Access.TheVariants.{Place, Read, Leave, Point};
ghost use Rattle.epoch_laws.specs.declared.heap.access.AccessAnswer.TheVariants.{Unit as Nothing};
ghost use Rattle.epoch_laws.specs.declared.heap.access.Change.TheVariants.{Load, Store};
ghost use Rattle.epoch_laws.specs.declared.heap.access.Spot.TheVariants.{Root, Field};
ghost use Rattle.epoch_laws.specs.declared.step.Reply.TheVariants.{Done};
ghost use Rattle.epoch_structure_laws.specs.Plans.{ptr_to};
ghost use Rattle.epoch_structure_calls.specs.Paths.{IsTold};
ghost use Rattle.epoch_structure_calls.specs.Linking.{placed, loaded, value_read, stored, ExchangesAt};

use crate::phases::Spots;
use epoch_cells::{Fault, Name};
use epoch_laws::heap::Ptr;

/// The roots of a structure, and nodes that have a value and a pointer each.
///
/// Each access has a call of its own here, so that names stand in registers: an access and its answer, as
/// [`Spots::touch`] takes and returns them, would be stored in memory, and loaded again in other pieces.
pub trait LinkSpots: Spots {
    /// Places a node with this value. `None`: there is no node to place.
    ///
    /// `NoMemory`: an allocation was refused. `CellsFull`: every cell was seen in use.
    fn place_node(&mut self, value: u64) -> Result<Option<Name>, Fault>
        // A load, a read, a store and a placing make one access, and return its answer.
        ensures does { Self.does self.old (Place value) (placed result) self.new }
        ensures told { IsTold (Place value) (placed result) };

    /// Loads this root. `None`: there is no such root.
    fn load_root(&mut self, root: u64) -> Option<Ptr>
        ensures { Self.does self.old (Point (Some 0) (Root root) Load) (Done (loaded result)) self.new };

    /// Exchanges this root, if it is `current` still, for `new`, and returns whether it did.
    fn exchange_root(&mut self, root: u64, current: Ptr, new: Ptr) -> bool
        // An exchange makes one access, and returns whether its answer says that it was made.
        ensures { ExchangesAt Self.does self.old (Root root) current new result self.new };

    /// Reads the value of this node. `None`: it can't be read.
    fn read_node(&mut self, node: Name) -> Option<u64>
        ensures { Self.does self.old (Read (Some 0) (ptr_to node)) (Done (value_read result)) self.new };

    /// Leaves this node, which was read.
    fn leave_node(&mut self, node: Name)
        ensures { Self.does self.old (Leave (ptr_to node)) (Done Nothing) self.new };

    /// Loads the pointer in this node. `None`: it can't be loaded.
    fn load_next(&mut self, node: Name) -> Option<Ptr>
        ensures { Self.does self.old (Point (Some 0) (Field node 0) Load) (Done (loaded result)) self.new };

    /// Stores the pointer in this node. `false`: it can't be stored there.
    fn store_next(&mut self, node: Name, next: Ptr) -> bool
        ensures { Self.does self.old (Point (Some 0) (Field node 0) (Store next)) (Done (stored result)) self.new };

    /// Exchanges the pointer in this node, if it is `current` still, for `new`, and returns whether it did.
    fn exchange_next(&mut self, node: Name, current: Ptr, new: Ptr) -> bool
        ensures { ExchangesAt Self.does self.old (Field node 0) current new result self.new };
}

/// Returns the pointer to this node, with tag 0.
#[inline(always)]
pub fn ptr_to(node: Name) -> Ptr
    ensures { result ≡ ptr_to node }
{
    Ptr {
        name: Some(node),
        tag: 0,
    }
}
