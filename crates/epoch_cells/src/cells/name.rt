//! Names of cells.
ghost use Rattle.std.specs.Prelude.{◌≡◌, ◌<◌, ◌≤◌, ◌↔◌, IsSome, IfSome};
ghost use Rattle.std.proofs.Common.{rules};
ghost use Rattle.std.specs.Cmp.{partial_order_from_own_ties};
ghost use Rattle.std.specs.Cmp.Rules.{comparing};
ghost use Rattle.std.specs.Ordering.{nat_cmp, on, then_cmp, as_partial_cmp};

use std::cmp::Ordering;

/// The greatest number of a slot: 24 bits of a pointer's word, beside 8 for the tag and 32 for the turn.
pub const MOST_SLOT: u32 = 16_777_215;

/// The name of a value in a cell: the slot, from 1 to [`MOST_SLOT`], and the turn at which the value
/// came in. Each placing uses the slot's next turn, so no name is given twice.
///
/// Names are in the order of their pointers' words: by the turn first, and then by the slot.
#[derive(Clone, Copy, Debug, PartialEq, Eq, Hash)]
pub struct Name {
    // The slot comes first, so that it is the lower half of a name's eight bytes: each read of a value takes it from
    // there.
    slot: u32,
    turn: u32,
    pub ghost some: { 0 < slot },
    pub ghost within: { slot ≤ 16777215 },
}

impl Name {
    /// Returns the first name of the first slot.
    pub fn first() -> Name
        ensures slot { result.slot ≡ 1 }
        ensures turn { result.turn ≡ 0 }
    {
        Name { slot: 1, turn: 0 }
    }

    /// Returns the name of this slot and turn; `None` exactly where the slot is 0 or above [`MOST_SLOT`].
    pub fn new(slot: u32, turn: u32) -> Option<Name>
        // A name has a slot from 1 to `2^24 - 1`.
        ensures some { IsSome result ↔ ((0 < slot) × (slot ≤ MOST_SLOT)) }
        ensures slot { IfSome result (λ name. name.slot ≡ slot) }
        ensures turn { IfSome result (λ name. name.turn ≡ turn) }
    {
        if slot == 0 || slot > MOST_SLOT {
            return None;
        }
        Some(Name { slot, turn })
    }

    // The name of this slot and turn.
    pub fn at(slot: u32, turn: u32) -> Name
        requires some { 0 < slot }
        requires within { slot ≤ MOST_SLOT }
        ensures slot { result.slot ≡ slot }
        ensures turn { result.turn ≡ turn }
    {
        Name { slot, turn }
    }

    /// Returns the number of the slot, from 1 to [`MOST_SLOT`].
    pub fn slot(self) -> u32
        ensures value { result ≡ self.slot }
        ensures some { 0 < result }
        ensures within { result ≤ MOST_SLOT }
    {
        self.slot
    }

    /// Returns the turn of the slot.
    pub fn turn(self) -> u32
        ensures { result ≡ self.turn }
    {
        self.turn
    }
}

impl Ord for Name {
    ghost cmp = { then_cmp (on (λ name. name.turn) nat_cmp) (on (λ name. name.slot) nat_cmp) };

    ghost total = { Prim.search (comparing, rules) };

    ghost matches_partial_cmp = { Prim.search (comparing, rules) };

    ghost matches_eq = { Prim.search (comparing, rules) };

    fn cmp(&self, other: &Name) -> Ordering {
        self.turn.cmp(&other.turn).then(self.slot.cmp(&other.slot))
    }
}

impl PartialOrd for Name {
    ghost partial_cmp = { as_partial_cmp (then_cmp (on (λ name. name.turn) nat_cmp) (on (λ name. name.slot) nat_cmp)) };

    ghost laws = { partial_order_from_own_ties (Prim.search (comparing, rules)) (Prim.search (comparing, rules)) };

    fn partial_cmp(&self, other: &Name) -> Option<Ordering> {
        Some(self.cmp(other))
    }
}
