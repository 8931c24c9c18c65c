//! The roots of a structure that threads share, and its nodes, which are lent.
ghost use Rattle.std.specs.Prelude.{◌≡◌, ◌≤◌, ◌⊎◌, ℕ, map, Option, Some, None, IfSome};
ghost use Rattle.epoch_cells.specs.declared.fault.Fault.TheVariants.{CellsFull};
ghost use Rattle.epoch_laws.specs.declared.heap.access.Access.TheVariants.{Place, Read, Leave, Point};
ghost use Rattle.epoch_laws.specs.declared.heap.access.AccessAnswer.TheVariants.{Unit as Nothing};
ghost use Rattle.epoch_laws.specs.declared.heap.access.Change.TheVariants.{Load, Store};
ghost use Rattle.epoch_laws.specs.declared.heap.access.Spot.TheVariants.{Root, Field};
ghost use Rattle.epoch_laws.specs.declared.step.Reply.TheVariants.{Done};
ghost use Rattle.epoch_lend_nodes.specs.Moving.{MovesNodes};
ghost use Rattle.epoch_structure_calls.specs.Linking.{placed, loaded, value_read, stored, ExchangesAt};
ghost use Rattle.epoch_structure_calls.specs.Paths.{IsTold, reply_given};
ghost use Rattle.epoch_structure_laws.specs.Plans.{ptr_to};

use crate::link::{Changing, Link};
use crate::node::LentNode;
use crate::points::{change_at, ptr_of, shared};
use epoch_atomic::atomic::Atomic;
use epoch_cells::{Fault, Name};
use epoch_laws::heap::{Access, AccessAnswer, Change, Ptr, Spot};
use epoch_lend::array::room::LentRoom;
use epoch_lend::readers::posts::PostSet;
use epoch_lend::readers::reader::Pinned;
use epoch_lend_pointers::LentCells;
use epoch_lend_pointers::steps::{HasStoreSteps, StoreSteps};
use epoch_lend_pointers::store::spots::next_name;
use epoch_structure_calls::links::LinkSpots;
use epoch_structure_calls::phases::Spots;
use std::sync::atomic::Ordering::SeqCst;

/// The nodes of one call.
#[derive(Drop)]
pub struct CallNodes<'g, V> {
    /// The node that a push places.
    pub own: Option<V>,
    /// The name of the node that was read last.
    pub name: Option<Name>,
    /// The node that was read last.
    pub lent: Option<&'g V>,
    /// The name of the node that was placed.
    pub placed: Option<Name>,
}

/// A node that was placed and that no look finds yet: its name, and the free cell in which it will be shown.
#[derive(Drop)]
struct Unshown<'s, J: PostSet, V> {
    name: Name,
    node: V,
    room: LentRoom<'s, J, V>,
    ghost fits: { room.next_turn ≤ room.cells.now.last_turn },
}

/// The roots of a structure, and its nodes, under the pin of one call's guard.
///
/// The program speaks of values as numbers. No value of a node is one: each is read as 0, and the node itself is lent.
#[derive(Drop)]
pub struct NodeSpots<'g, 'd, 's, J: PostSet, V> {
    head: &'g Atomic<V>,
    // `None`: the structure has one root.
    tail: Option<&'g Atomic<V>>,
    cells: &'g LentCells<J, V>,
    // The call has a writer of the structure's store.
    changing: Changing<'g, V>,
    pinned: &'g Pinned<'d, J>,
    nodes: CallNodes<'g, V>,
    // A free cell for the node that the call places.
    room: Option<LentRoom<'s, J, V>>,
    // That node, until the first exchange or store by which others may find it.
    unshown: Option<Unshown<'s, J, V>>,
}

impl<'g, 'd, 's, J: PostSet, V: LentNode> NodeSpots<'g, 'd, 's, J, V> {
    /// Makes the spots of one call under this pin: root 0, root 1 if there is one, and the node that the call places,
    /// with a free cell for it if there is one. The nodes are in these cells.
    #[inline(always)]
    pub fn new(
        head: &'g Atomic<V>,
        tail: Option<&'g Atomic<V>>,
        cells: &'g LentCells<J, V>,
        changing: Changing<'g, V>,
        pinned: &'g Pinned<'d, J>,
        own: Option<V>,
        room: Option<LentRoom<'s, J, V>>,
    ) -> NodeSpots<'g, 'd, 's, J, V>
        ensures own { result.nodes.own ≡ own }
        ensures lent { result.nodes.lent ≡ None }
    {
        let nodes = CallNodes {
            own,
            name: None,
            lent: None,
            placed: None,
        };
        NodeSpots {
            head,
            tail,
            cells,
            changing,
            pinned,
            nodes,
            room,
            unshown: None,
        }
    }

    /// Ends the call, and returns its nodes, and the free cell if it hasn't used that. A node that has a name is shown
    /// under it, so that no other value gets this name.
    #[inline(always)]
    pub fn close(self) -> (CallNodes<'g, V>, Option<LentRoom<'s, J, V>>)
        ensures { result.0 ≡ self.entry.nodes }
    {
        let mut spots = self;
        spots.show();
        let NodeSpots {
            head: _,
            tail: _,
            cells: _,
            changing: _,
            pinned: _,
            nodes,
            room,
            unshown: _,
        } = spots;
        (nodes, room)
    }

    // Has the node be the call's own again, since there is no cell for it.
    #[inline(always)]
    fn refuse(&mut self, node: V) -> Fault
        ensures fault { result ≡ CellsFull }
        ensures own { self.new.nodes.own ≡ Some node }
        ensures others { (self.new.nodes.name ≡ self.old.nodes.name) × (self.new.nodes.lent ≡ self.old.nodes.lent) }
    {
        self.nodes.own = Some(node);
        Fault::CellsFull
    }

    // Shows the node that was placed, from now on, by one store.
    #[inline(always)]
    fn show(&mut self)
        ensures { self.new.nodes ≡ self.old.nodes }
    {
        if let Some(
            Unshown {
                name: _,
                node,
                room,
            },
        ) = self.unshown.take()
        {
            if room.place(node).is_err() {
                unreachable!()
            }
        }
    }

    // Stores the pointer in the node that was placed, if that has this name and isn't shown yet.
    #[inline(always)]
    fn lead_to(&mut self, name: Name, next: Ptr) -> bool
        ensures { self.new.nodes ≡ self.old.nodes }
    {
        let home = self.changing.home();
        match &mut self.unshown {
            Some(unshown) if unshown.name == name => {
                unshown.node.set_next(Link::to(shared(next, home)));
                true
            }
            _ => false,
        }
    }

    // Looks at the node of this name, which is lent for as long as the pin is borrowed.
    #[inline(always)]
    fn look<M: StoreSteps<V>>(&self, name: Name) -> Option<&'g V>
    where
        V: HasStoreSteps<M>,
        // A node that an access looks at is one that the structure's cells lent under the name that was asked for.
        ensures { IfSome result (λ node. M.lent (map (λ s. s.turns.log) self.now.cells.now.cells.first.slots.items)
            name node.now) }
    {
        M::look_in(self.cells, name, self.pinned)
    }

    // The node of this name, with no look if it was read last.
    #[inline(always)]
    fn node_of<M: StoreSteps<V>>(&self, name: Name) -> Option<&'g V>
    where
        V: HasStoreSteps<M>,
        ensures { (result ≡ self.now.nodes.lent) ⊎ IfSome result
            (λ node. M.lent (map (λ s. s.turns.log) self.now.cells.now.cells.first.slots.items) name node.now) }
    {
        if let Some(read) = self.nodes.name {
            if read == name {
                return self.nodes.lent;
            }
        }
        self.look(name)
    }

    // The root of this number.
    #[inline(always)]
    fn at_root(&self, root: u64) -> Option<&'g Atomic<V>> {
        if root == 0 {
            Some(self.head)
        } else {
            self.tail
        }
    }

    // The pointer in the node of this name. `None`: the node isn't lent.
    #[inline(always)]
    fn at_node(&self, name: Name) -> Option<&'g Atomic<V>> {
        match self.node_of(name) {
            Some(node) => Some(node.next().to_change(self.changing)),
            None => None,
        }
    }

    // The pointer at this spot.
    #[inline(always)]
    fn at(&self, spot: Spot) -> Option<&'g Atomic<V>> {
        match spot {
            Spot::Root(root) => self.at_root(root),
            Spot::Field(name, _) => self.at_node(name),
        }
    }

    // Loads the pointer there.
    #[inline(always)]
    fn load_at(&self, at: Option<&'g Atomic<V>>) -> Option<Ptr> {
        match at {
            Some(at) => Some(ptr_of(at.load_at(SeqCst, self.changing.home()))),
            None => None,
        }
    }

    // Exchanges the pointer there, if it is `current` still, for `new`.
    #[inline(always)]
    fn exchange_at(&self, at: Option<&'g Atomic<V>>, current: Ptr, new: Ptr) -> bool {
        let Some(at) = at else {
            return false;
        };
        let home = self.changing.home();
        let (current, new) = (shared(current, home), shared(new, home));
        at.compare_exchange_at(current, new, SeqCst, SeqCst, home)
            .is_ok()
    }

    // Reads the node of this name, and keeps it. `None`: it isn't lent.
    #[inline(always)]
    fn read_named<M: StoreSteps<V>>(&mut self, name: Name) -> Option<u64>
    where
        V: HasStoreSteps<M>,
        // A node that is read is kept under its name, and is the one that the structure's cells lent under it.
        ensures does { MovesNodes self.old.nodes (Read (Some 0) (ptr_to name)) (Done (value_read result))
            self.new.nodes }
        ensures lent { IfSome result (λ number. IfSome self.new.nodes.lent
            (λ node. M.lent (map (λ s. s.turns.log) self.old.cells.now.cells.first.slots.items) name node.now)) }
    {
        match self.look(name) {
            Some(node) => {
                self.nodes.name = Some(name);
                self.nodes.lent = Some(node);
                Some(0)
            }
            None => None,
        }
    }

    // Reads the node to which the pointer leads. `Absent`: it isn't lent.
    fn read(&mut self, ptr: Ptr) -> AccessAnswer
        ensures { (guard : Option ℕ) → MovesNodes self.old.nodes (Read guard ptr) (Done result) self.new.nodes }
    {
        let Some(name) = ptr.name else {
            return AccessAnswer::Absent;
        };
        match self.read_node(name) {
            Some(value) => AccessAnswer::Value(value),
            None => AccessAnswer::Absent,
        }
    }

    // Changes or loads a root, or the pointer in a node. `Absent`: there is no such root, or the node isn't lent. The
    // node that was placed is shown before anything is changed by which others may find it.
    #[inline(always)]
    fn point(&mut self, spot: Spot, change: Change) -> AccessAnswer
        ensures { self.new.nodes ≡ self.old.nodes }
    {
        if let (Spot::Field(name, _), Change::Store(next)) = (spot, change) {
            if self.lead_to(name, next) {
                return AccessAnswer::Unit;
            }
        }
        if !matches!(change, Change::Load) {
            self.show();
        }
        match self.at(spot) {
            Some(at) => change_at(at, change, self.changing.home()),
            None => AccessAnswer::Absent,
        }
    }
}

impl<'g, 'd, 's, J: PostSet, V: LentNode> LinkSpots for NodeSpots<'g, 'd, 's, J, V> {
    // In its free cell the node has a name at once, and is shown later. It is refused if there is none, or the cell has
    // had its last turn.
    #[inline(always)]
    fn place_node(&mut self, value: u64) -> Result<Option<Name>, Fault>
        ensures does { MovesNodes self.old.nodes (Place value) (placed result) self.new.nodes }
        ensures told { IsTold (Place value) (placed result) }
    {
        let Some(node) = self.nodes.own.take() else {
            return Ok(None);
        };
        let Some(room) = self.room.take() else {
            return Err(self.refuse(node));
        };
        match next_name(&room) {
            Some(name) => {
                self.nodes.placed = Some(name);
                self.unshown = Some(Unshown { name, node, room });
                Ok(Some(name))
            }
            None => {
                room.release();
                Err(self.refuse(node))
            }
        }
    }

    #[inline(always)]
    fn load_root(&mut self, root: u64) -> Option<Ptr>
        ensures { MovesNodes self.old.nodes (Point (Some 0) (Root root) Load) (Done (loaded result)) self.new.nodes }
    {
        self.load_at(self.at_root(root))
    }

    // The node that was placed is shown before anything is changed by which others may find it, here and below.
    #[inline(always)]
    fn exchange_root(&mut self, root: u64, current: Ptr, new: Ptr) -> bool
        ensures { ExchangesAt (λ old access reply new. MovesNodes old.nodes access reply new.nodes) self.old (Root root)
            current new result self.new }
    {
        self.show();
        self.exchange_at(self.at_root(root), current, new)
    }

    #[inline(always)]
    fn read_node(&mut self, node: Name) -> Option<u64>
        ensures { MovesNodes self.old.nodes (Read (Some 0) (ptr_to node)) (Done (value_read result)) self.new.nodes }
    {
        self.read_named(node)
    }

    // What is lent need not be given back.
    #[inline(always)]
    fn leave_node(&mut self, node: Name)
        ensures { MovesNodes self.old.nodes (Leave (ptr_to node)) (Done Nothing) self.new.nodes }
    {
        let _ = node;
    }

    #[inline(always)]
    fn load_next(&mut self, node: Name) -> Option<Ptr>
        ensures { MovesNodes self.old.nodes (Point (Some 0) (Field node 0) Load) (Done (loaded result)) self.new.nodes }
    {
        self.load_at(self.at_node(node))
    }

    #[inline(always)]
    fn store_next(&mut self, node: Name, next: Ptr) -> bool
        ensures { MovesNodes self.old.nodes (Point (Some 0) (Field node 0) (Store next)) (Done (stored result))
            self.new.nodes }
    {
        if self.lead_to(node, next) {
            return true;
        }
        self.show();
        let Some(at) = self.at_node(node) else {
            return false;
        };
        at.store_at(shared(next, self.changing.home()), SeqCst);
        true
    }

    #[inline(always)]
    fn exchange_next(&mut self, node: Name, current: Ptr, new: Ptr) -> bool
        ensures { ExchangesAt (λ old access reply new. MovesNodes old.nodes access reply new.nodes) self.old
            (Field node 0) current new result self.new }
    {
        self.show();
        self.exchange_at(self.at_node(node), current, new)
    }
}

impl<'g, 'd, 's, J: PostSet, V: LentNode> Spots for NodeSpots<'g, 'd, 's, J, V> {
    ghost does = { λ old access reply new. MovesNodes old.nodes access reply new.nodes };

    #[inline(always)]
    fn touch(&mut self, access: Access) -> Result<AccessAnswer, Fault>
        // A call's own node leaves the call only where it is placed. After a read, a node is lent, and the name by
        // which it was read is noted. No other access changes either of them. A placing that is refused is refused with
        // `CellsFull`, and the node is the call's own again.
        ensures does { MovesNodes self.old.nodes access (reply_given result) self.new.nodes }
        ensures told { IsTold access (reply_given result) }
    {
        match access {
            Access::Place(value) => match self.place_node(value)? {
                Some(name) => Ok(AccessAnswer::Name(name)),
                None => Ok(AccessAnswer::Absent),
            },
            Access::Read(_, ptr) => Ok(self.read(ptr)),
            // What is lent need not be given back.
            Access::Leave(_) => Ok(AccessAnswer::Unit),
            Access::Point(_, spot, change) => Ok(self.point(spot, change)),
            Access::Write(..) | Access::Take(..) => Ok(AccessAnswer::Absent),
        }
    }
}
