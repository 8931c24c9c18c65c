//! The buckets of a map that threads share, and its nodes, which are lent.
ghost use Rattle.std.specs.Prelude.{◌≡◌, ℕ, map, Option, Some, None, IfSome, IfOk, IfErr};
ghost use Rattle.epoch_cells.specs.declared.fault.Fault.TheVariants.{CellsFull};
ghost use Rattle.epoch_laws.specs.declared.heap.access.Access.TheVariants.{Place, Read, Point};
ghost use Rattle.epoch_laws.specs.declared.heap.access.AccessAnswer.TheVariants.{Value, Pointer, Absent};
ghost use Rattle.epoch_laws.specs.declared.heap.access.Change.TheVariants.{Load};
ghost use Rattle.epoch_laws.specs.declared.heap.access.Spot.TheVariants.{Root, Field};
ghost use Rattle.epoch_laws.specs.declared.step.Reply.TheVariants.{Done};
ghost use Rattle.epoch_map.specs.Moving.{MovesMapNodes, ReadsNode};
ghost use Rattle.epoch_structure_calls.specs.MapCalls.{coded};
ghost use Rattle.epoch_structure_laws.specs.Plans.{ptr_to};
ghost use Rattle.epoch_structure_calls.specs.Paths.{IsTold, reply_given};

use crate::node::MapNode;
use epoch_cells::{Fault, Name};
use epoch_handles::Home;
use epoch_laws::heap::{Access, AccessAnswer, Change, Ptr, Spot};
use epoch_lend::array::room::LentRoom;
use epoch_lend::readers::posts::PostSet;
use epoch_lend::readers::reader::Pinned;
use epoch_lend_nodes::{Changing, Link, placed_in, ptr_of, write_at};
use epoch_lend_pointers::LentCells;
use epoch_lend_pointers::steps::{HasStoreSteps, StoreSteps};
use epoch_structure_calls::map::{MapSpots, coded};
use epoch_structure_calls::phases::Spots;
use std::cmp::Ordering;

/// The nodes of one call, and the key that it seeks.
#[derive(Drop)]
pub struct MapCallNodes<'g, 'k, N, K> {
    /// The node that an insert places.
    pub own: Option<N>,
    /// The key that is sought. `None`: it is that of a node which isn't placed yet.
    pub key: Option<&'k K>,
    /// The node that was read last.
    pub lent: Option<&'g N>,
}

/// The buckets of a map, and its nodes, under the pin of one call's guard.
///
/// The program speaks of entries as numbers. Here each is the number of how the node's key compares with the one that
/// is sought, and the node itself is lent.
#[derive(Drop)]
pub struct LentSpots<'g, 'k, 'd, 's, J: PostSet, N: MapNode> {
    buckets: &'g [Link<N>],
    cells: &'g LentCells<J, N>,
    // The home of the map's pointers.
    home: Home<'g, N>,
    // `None`: the call only reads.
    changing: Option<Changing<'g, N>>,
    pinned: &'g Pinned<'d, J>,
    nodes: MapCallNodes<'g, 'k, N, N::Key>,
    // A free cell for the node that the call places.
    room: Option<LentRoom<'s, J, N>>,
}

// Stores or exchanges the pointer there. It stands out of line, as `place` does: a function that holds all accesses
// isn't inlined if it holds these, too, and then a walk that only loads doesn't know its accesses.
#[inline(never)]
fn write_out_of_line<N: MapNode>(
    at: &Link<N>,
    change: Change,
    changing: Option<Changing<'_, N>>,
) -> AccessAnswer {
    match changing {
        Some(changing) => write_at(at.to_change(changing), change, changing.home()),
        None => AccessAnswer::Absent,
    }
}

// Loads, stores or exchanges the pointer there. The phases of a map ask for no other change.
#[inline(always)]
fn change_at<N: MapNode>(
    at: &Link<N>,
    change: Change,
    home: Home<'_, N>,
    changing: Option<Changing<'_, N>>,
) -> AccessAnswer {
    match change {
        Change::Load => AccessAnswer::Pointer(ptr_of(at.load_at(home))),
        _ => write_out_of_line(at, change, changing),
    }
}

impl<'g, 'k, 'd, 's, J: PostSet, N: MapNode> LentSpots<'g, 'k, 'd, 's, J, N> {
    /// Makes the spots of one call under this pin, which seeks this key. The nodes are in these cells, which are those
    /// of the store. Unless it is permitted to change pointers, the call only reads.
    #[inline(always)]
    pub fn new(
        buckets: &'g [Link<N>],
        cells: &'g LentCells<J, N>,
        home: Home<'g, N>,
        changing: Option<Changing<'g, N>>,
        pinned: &'g Pinned<'d, J>,
        key: &'k N::Key,
    ) -> LentSpots<'g, 'k, 'd, 's, J, N>
        ensures own { result.nodes.own ≡ None }
        ensures key { IfSome result.nodes.key (λ k. k.now ≡ key.now) }
    {
        let nodes = MapCallNodes {
            own: None,
            key: Some(key),
            lent: None,
        };
        LentSpots {
            buckets,
            cells,
            home,
            changing,
            pinned,
            nodes,
            room: None,
        }
    }

    /// Ends the call, and returns its nodes, and the free cell if it hasn't used that.
    #[inline(always)]
    pub fn close(self) -> (MapCallNodes<'g, 'k, N, N::Key>, Option<LentRoom<'s, J, N>>)
        ensures { result.0 ≡ self.entry.nodes }
    {
        let LentSpots {
            buckets: _,
            cells: _,
            home: _,
            changing: _,
            pinned: _,
            nodes,
            room,
        } = self;
        (nodes, room)
    }

    // The node of this name, which is lent for as long as the pin is borrowed.
    #[inline(always)]
    fn node_of<M: StoreSteps<N>>(&self, name: Name) -> Option<&'g N>
    where
        N: HasStoreSteps<M>,
        ensures { IfSome result (λ node. M.lent (map (λ s. s.turns.log) self.now.cells.now.cells.first.slots.items)
            name node.now) }
    {
        M::look_in(self.cells, name, self.pinned)
    }

    // Changes or loads a root, which is a bucket's, or the pointer in a node, which has one. `Absent`: there is no such
    // bucket, or the node isn't lent.
    #[inline(always)]
    fn point(&self, spot: Spot, change: Change) -> AccessAnswer {
        let at = match spot {
            Spot::Root(bucket) => self.buckets.get(bucket as usize),
            Spot::Field(name, _) => match self.node_of(name) {
                Some(node) => Some(node.next()),
                None => None,
            },
        };
        match at {
            Some(at) => change_at(at, change, self.home, self.changing),
            None => AccessAnswer::Absent,
        }
    }

    // Reads the node of this name, and compares its key with the one that is sought. `None`: it isn't lent.
    #[inline(always)]
    fn compare<M: StoreSteps<N>>(&mut self, name: Name) -> Option<(Ordering, &'g N)>
    where
        N: HasStoreSteps<M>,
        // A node that a walk along a bucket compares is the one that the map's cells lent under its name.
        ensures lent { IfSome result
            (λ read. M.lent (map (λ s. s.turns.log) self.old.cells.now.cells.first.slots.items) name read.1.now) }
        ensures some { IfSome result
            (λ read. ReadsNode N.key N.Key.cmp self.old.nodes (coded read.0) self.new.nodes) }
        ensures none { result ≡ None → self.new ≡ self.old }
    {
        let Some(key) = self.nodes.key else {
            return None;
        };
        match self.node_of(name) {
            Some(node) => {
                self.nodes.lent = Some(node);
                Some((node.key().cmp(key), node))
            }
            None => None,
        }
    }

    // Reads the node to which the pointer leads. `Absent`: it isn't lent.
    #[inline(always)]
    fn read(&mut self, ptr: Ptr) -> AccessAnswer
        ensures { (guard : Option ℕ)
            → MovesMapNodes N.key N.Key.cmp self.old.nodes (Read guard ptr) (Done result) self.new.nodes }
    {
        let Some(name) = ptr.name else {
            return AccessAnswer::Absent;
        };
        match self.compare(name) {
            Some((order, _)) => AccessAnswer::Value(coded(order)),
            None => AccessAnswer::Absent,
        }
    }
}

impl<'g: 'k, 'k, 'd, 's, J: PostSet, N: MapNode> LentSpots<'g, 'k, 'd, 's, J, N> {
    /// Makes the spots of an insert of this node under this pin, with a free cell for it if there is one. It seeks the
    /// key of its node, once that is placed.
    #[inline(always)]
    pub fn with_node(
        buckets: &'g [Link<N>],
        cells: &'g LentCells<J, N>,
        changing: Changing<'g, N>,
        pinned: &'g Pinned<'d, J>,
        node: N,
        room: Option<LentRoom<'s, J, N>>,
    ) -> LentSpots<'g, 'k, 'd, 's, J, N>
        ensures own { result.nodes.own ≡ Some node }
        ensures key { result.nodes.key ≡ None }
    {
        let nodes = MapCallNodes {
            own: Some(node),
            key: None,
            lent: None,
        };
        LentSpots {
            buckets,
            cells,
            home: changing.home(),
            changing: Some(changing),
            pinned,
            nodes,
            room,
        }
    }

    // Places the call's own node in its free cell. If there is none, or the cell has had its last turn, it is refused,
    // and the node is there again.
    #[inline(never)]
    fn place(&mut self) -> Result<AccessAnswer, Fault>
        ensures moves { (number : ℕ)
            → MovesMapNodes N.key N.Key.cmp self.old.nodes (Place number) (reply_given result) self.new.nodes }
        ensures full { IfErr result (λ fault. fault ≡ CellsFull) }
    {
        let Some(node) = self.nodes.own.take() else {
            return Ok(AccessAnswer::Absent);
        };
        let Some(room) = self.room.take() else {
            self.nodes.own = Some(node);
            return Err(Fault::CellsFull);
        };
        match placed_in(room, node, self.pinned) {
            Ok((name, lent)) => {
                self.nodes.key = match lent {
                    Some(node) => Some(node.key()),
                    None => None,
                };
                Ok(AccessAnswer::Name(name))
            }
            Err(back) => {
                self.nodes.own = Some(back);
                Err(Fault::CellsFull)
            }
        }
    }
}

impl<'g: 'k, 'k, 'd, 's, J: PostSet, N: MapNode> MapSpots for LentSpots<'g, 'k, 'd, 's, J, N> {
    type Node = &'g N;

    #[inline(always)]
    fn first(&mut self, bucket: u64) -> Option<Ptr> {
        match self.buckets.get(bucket as usize) {
            Some(at) => Some(ptr_of(at.load_at(self.home))),
            None => None,
        }
    }

    #[inline(always)]
    fn entry(&mut self, node: Name) -> Option<(Ordering, &'g N)> {
        self.compare(node)
    }

    // What is lent need not be given back.
    #[inline(always)]
    fn leave(&mut self, _node: Name) {}

    #[inline(always)]
    fn next(&mut self, _node: Name, lent: &'g N) -> Option<Ptr> {
        Some(ptr_of(lent.next().load_at(self.home)))
    }
}

impl<'g: 'k, 'k, 'd, 's, J: PostSet, N: MapNode> Spots for LentSpots<'g, 'k, 'd, 's, J, N> {
    ghost does = { λ old access reply new. MovesMapNodes N.key N.Key.cmp old.nodes access reply new.nodes };

    #[inline(always)]
    fn touch(&mut self, access: Access) -> Result<AccessAnswer, Fault>
        ensures does { MovesMapNodes N.key N.Key.cmp self.old.nodes access (reply_given result) self.new.nodes }
        ensures told { IsTold access (reply_given result) }
    {
        match access {
            Access::Place(_) => self.place(),
            Access::Read(_, ptr) => Ok(self.read(ptr)),
            // What is lent need not be given back.
            Access::Leave(_) => Ok(AccessAnswer::Unit),
            Access::Point(_, spot, change) => Ok(self.point(spot, change)),
            Access::Write(..) | Access::Take(..) => Ok(AccessAnswer::Absent),
        }
    }
}
