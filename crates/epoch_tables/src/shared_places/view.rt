//! What a seat at the shared places knows.
use epoch_bags::SealedBag;
use std::marker::Model;

/// A list of bags, each there or not. It is only for contracts: no value of it is made.
///
/// They stand behind a pointer, so that the size of a view is known for every `J`.
pub struct LeftBags<J> {
    // A clause reads an array as a list of any length.
    bags: Box<[Option<SealedBag<J>>; 0]>,
}

impl<J> Model for LeftBags<J> {
    ghost use Rattle.std.specs.Prelude.{List, Option};
    ghost use Rattle.epoch_bags.specs.Bags.{Sealed};

    ghost Value = { List (Option (Sealed J)) };

    ghost view = { λ a. a.bags.value };
}

/// The view of one seat. It is only for contracts: no value of it is made.
pub struct PlaceView<J> {
    /// The place that the seat has claimed, and not yet filled or emptied.
    pub claimed: Option<u64>,
    /// The places whose words its steps found, the oldest first. A clause reads an array as a list of any length.
    pub looked: [u64; 0],
    /// The words found there, in the same order.
    pub found: [u64; 0],
    /// What each of its fills and empties left in the place, the oldest first.
    pub left: LeftBags<J>,
    /// What stood in each place that it claimed, the oldest first.
    pub won: LeftBags<J>,
}
