//! The nodes of a structure, which point to one another.
ghost use Rattle.std.specs.Prelude.{◌≡◌, refl};
ghost use Rattle.std.proofs.Common.{lit≤};
ghost use Rattle.epoch_lend_nodes.specs.Nodes.{value_of};

use crate::link::Link;
use epoch_atomic::atomic::Pointable;
use epoch_cells::Fault;
use std::alloc::Global;

/// A type of nodes. [`ListNode`] has a value of any type, and a type of your own has what you like beside the pointer.
pub trait LentNode: Pointable + Drop + Sized {
    /// Returns the pointer to the node behind this one. It is null where the node is made, and then only a call that
    /// has a writer can change it.
    fn next(&self) -> &Link<Self>;

    /// Has this node, which no other thread has, point to the node behind it.
    fn set_next(&mut self, next: Link<Self>);
}

/// A value, and the pointer to the node behind it.
#[derive(Drop)]
pub struct ListNode<V> {
    value: V,
    next: Link<ListNode<V>>,
}

impl<V: Drop> ListNode<V> {
    /// Makes a node with this value.
    pub fn new(value: V) -> ListNode<V>
        // A node has the value that it was made with.
        ensures { value_of result ≡ value }
    {
        let next = Link::null();
        ListNode { value, next }
    }

    /// Returns the value of a node that isn't in a structure.
    pub fn into_value(self) -> V
        ensures { result ≡ value_of self }
    {
        let ListNode { value, next: _ } = self;
        value
    }
}

impl<V> ListNode<V> {
    /// Returns the value.
    #[inline(always)]
    pub fn value(&self) -> &V
        ensures { result.now ≡ value_of self.now }
    {
        &self.value
    }
}

impl<V> Pointable for ListNode<V> {
    ghost ALIGN = { 8 };

    ghost log = { 3 };

    ghost is_power = { refl };

    ghost is_small = { lit≤ tt };

    const ALIGN: usize = 8;

    type Init = ListNode<V>;

    ghost init_gives = { λ init node. node ≡ init };

    fn init(_alloc: Global, init: ListNode<V>) -> Result<ListNode<V>, Fault> {
        Ok(init)
    }
}

impl<V: Drop> LentNode for ListNode<V> {
    #[inline(always)]
    fn next(&self) -> &Link<ListNode<V>> {
        &self.next
    }

    #[inline(always)]
    fn set_next(&mut self, next: Link<ListNode<V>>) {
        self.next = next;
    }
}
