//! What holds of every machine's asks: a law of the definitions.
ghost use Rattle.epoch_machine.specs.declared.machine.Action.{Action};
ghost use Rattle.epoch_machine.specs.Machine.{Machine, IsSized, begun};
ghost use Rattle.epoch_machine.specs.Asks.{Log, Asked, AsksOf, asks_more};

/// From the beginning of an action on, a machine asks for what the table of asks says, in that order. The log of its
/// asks follows the table: it breaks off only if more is asked for, and ends only if nothing more is.
pub fn asks_follow_the_table<J>()
    // From the beginning of an action on, a machine asks for what the table of asks says, in that order, whatever the
    // machine and the answers are.
    ensures { (m n : Machine J) (action : Action) (log : Log J) → IsSized m.sizes → Asked (begun action m) log n
        → AsksOf action m (asks_more n) log }
{}
