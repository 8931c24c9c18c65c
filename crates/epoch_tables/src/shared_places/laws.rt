//! What the rule of the shared places means for bags.
//!
//! Each function here does nothing: its contract is a law about any places that keep the rule.
ghost use Rattle.epoch_tables.specs.SharedPlaces.{LosesNoBag};
ghost use Rattle.epoch_tables.specs.ClosedPlaces.{LastHaveTheRest};

/// No bag is lost, and none is got twice. Give each bag any weight: then all bags that seats have left in places weigh
/// as much together as all that seats have won there and those that stand there now.
pub fn no_bag_is_lost<J>()
    // No bag is lost, and none is taken twice. At any moment, the bags that all seats have left in places have the same
    // weight as those that they have won there and those that stand there.
    ensures { LosesNoBag J }
{}

/// Nothing is lost at the end. Give each bag any weight. If no seat has claimed a place when the places are closed, all
/// bags that seats have left in places weigh as much together as all that seats have won there and those that are left
/// in the closed places.
pub fn closed_places_hold_the_rest<J>()
    // If no seat has claimed a place in that last state, the bags that all seats have left in places have the same
    // weight as those that they have won there and those that are left.
    ensures { LastHaveTheRest J }
{}
