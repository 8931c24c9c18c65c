//! The nodes of a map, as a walk along a bucket reads them.
ghost use Rattle.std.specs.Prelude.{◌≡◌, Some, None, IfSome};
ghost use Rattle.epoch_laws.specs.declared.heap.access.Access.TheVariants.{Read, Leave, Point};
ghost use Rattle.epoch_laws.specs.declared.heap.access.AccessAnswer.TheVariants.{Unit as Nothing, Value, Pointer};
ghost use Rattle.epoch_laws.specs.declared.heap.access.AccessAnswer.TheVariants.{Absent};
ghost use Rattle.epoch_laws.specs.declared.heap.access.Change.TheVariants.{Load};
ghost use Rattle.epoch_laws.specs.declared.heap.access.Spot.TheVariants.{Root, Field};
ghost use Rattle.epoch_laws.specs.declared.step.Reply.TheVariants.{Done};
ghost use Rattle.epoch_structure_laws.specs.Plans.{ptr_to};
ghost use Rattle.epoch_structure_calls.specs.MapCalls.{coded};

use crate::phases::Spots;
use epoch_cells::Name;
use epoch_laws::heap::Ptr;
use std::cmp::Ordering;

/// The spots of a map, along whose nodes a call walks that seeks one key.
///
/// A walk makes three accesses at each node. They have calls of their own here, with names as they stand in registers:
/// an access and an answer would be stored at each node, and loaded again in other pieces. Where a call returns `None`,
/// its access was answered `Absent`.
pub trait MapSpots: Spots {
    /// What a walk keeps of a node while it stands there, so that it finds the node's pointer.
    type Node: Copy;

    /// Loads the root of this bucket. `None`: there is no such bucket.
    fn first(&mut self, bucket: u64) -> Option<Ptr>
        ensures some { IfSome result
            (λ ptr. Self.does self.old (Point (Some 0) (Root bucket) Load) (Done (Pointer ptr)) self.new) }
        ensures none { result ≡ None
            → Self.does self.old (Point (Some 0) (Root bucket) Load) (Done Absent) self.new };

    /// Reads this node, and returns how its key compares with the one that is sought, and what the walk keeps of the
    /// node. `None`: it can't be read.
    fn entry(&mut self, node: Name) -> Option<(Ordering, Self::Node)>
        ensures some { IfSome result
            (λ read. Self.does self.old (Read (Some 0) (ptr_to node)) (Done (Value (coded read.0))) self.new) }
        ensures none { result ≡ None → Self.does self.old (Read (Some 0) (ptr_to node)) (Done Absent) self.new };

    /// Leaves this node, which was read.
    fn leave(&mut self, node: Name)
        ensures { Self.does self.old (Leave (ptr_to node)) (Done Nothing) self.new };

    /// Loads the pointer in this node, of which the walk has kept this. `None`: it can't be loaded.
    fn next(&mut self, node: Name, kept: Self::Node) -> Option<Ptr>
        // A read of a node and a load of a pointer by `MapSpots` is that access of `Spots`, and `None` stands for the
        // answer `Absent`. A read of a node is told as how its key compares with the one that is sought. To leave a
        // node is that access.
        ensures some { IfSome result
            (λ ptr. Self.does self.old (Point (Some 0) (Field node 0) Load) (Done (Pointer ptr)) self.new) }
        ensures none { result ≡ None → Self.does self.old (Point (Some 0) (Field node 0) Load) (Done Absent) self.new };
}
