//! What holds of every run of a world, whatever its store of bags: laws of the definitions.
ghost use Rattle.std.specs.Prelude.{◌≡◌, ℕ, List};
ghost use Rattle.epoch_laws.specs.declared.step.Entry.{Entry};
ghost use Rattle.epoch_laws.specs.Run.{State, IsFresh, Runs, Over, seat_of};
ghost use Rattle.epoch_laws.specs.Grace.{KeepsGrace};
ghost use Rattle.epoch_laws.specs.Tickets.{HoldsEachTicketOnce, NumbersTickets, times_called, times_deferred};
ghost use Rattle.epoch_laws.specs.Ends.{EndsAtCount};
ghost use Rattle.epoch_laws.specs.Fits.{IsLawful};
ghost use Rattle.epoch_laws.specs.Full.{FullWhereFound};
ghost use Rattle.epoch_laws.specs.Refusals.{RefusedAlong, all_quiet, none_collected};

/// No job is called while a participant that was pinned at the job's deferral has stayed pinned.
pub fn every_run_keeps_grace()
    // No job is called while a participant that was pinned at its deferral has stayed pinned without repinning.
    ensures { (s new : State) (log : List Entry) → IsFresh s → Runs s log new → KeepsGrace log }
{}

/// Each accepted job is in exactly one bag, or was called exactly once.
pub fn every_run_holds_each_ticket_once()
    // Each accepted job is in exactly one bag, or has been called exactly once.
    ensures { (s new : State) (log : List Entry) → IsFresh s → Runs s log new → HoldsEachTicketOnce log new }
{}

/// The ticket of an accepted job is the number of those accepted before it.
pub fn every_run_numbers_tickets()
    // The ticket of an accepted job is the number of those accepted before it.
    ensures { (s new : State) (log : List Entry) → IsFresh s → Runs s log new → NumbersTickets log }
{}

/// When an end is over, every accepted job was called.
pub fn every_end_calls_all()
    // Once an end is over, every accepted job has been called.
    ensures { (s new : State) (log : List Entry) → IsFresh s → Runs s log new → new.ending ≡ Over → (t : ℕ)
        → times_called t log ≡ times_deferred t log }
{}

/// An end that answers how many jobs it called has called exactly that many. By then every accepted job was called.
pub fn every_end_answers_its_calls()
    // An end that answers how many jobs it called has called exactly that many. By then every accepted job has been
    // called.
    ensures { (s new : State) (log : List Entry) → IsFresh s → Runs s log new → EndsAtCount log }
{}

/// Every event stands only where it may.
pub fn every_run_is_lawful()
    // Each event stands only in a call that may tell it. A call tells a pin, an unpin, a repin and a deferral at most
    // once each. When it is done, it has told each of them that such a call makes. A call begins only for a participant
    // that is registered, has no call under way and isn't paused, and whose guards allow the call. A call is done with
    // its own kind of answer. By then a deferral under an unprotected guard has called its job, once. A position that
    // is taken isn't taken again before it is free. A job is called at most once, after its deferral. An end is
    // accepted once, when each participant that has registered has left. It takes its steps from then until it is done;
    // at every other time each of these steps is refused. A registration gets the lowest free position, and none after
    // an end began. A pin answers the lowest number that no guard has. A step is refused only with a fault that such a
    // step can have. What was told before it of registrations, calls, guards and ends gives a reason for that fault.
    ensures { (s new : State) (log : List Entry) → IsFresh s → Runs s log new → IsLawful log }
{}

/// A call is refused with `BagsFull` at its end exactly if its put found each place of the store occupied, each at a
/// step of its own since the call began: one that looked at the place and didn't put the bag.
pub fn every_full_reply_found_each_place()
    // A call is told `BagsFull` exactly when its put found each place of the store occupied, each by a step of its own
    // that looked at that place. In a store that has a place, the call is told that it is done exactly when its put
    // hasn't found this.
    ensures { (s new : State) (log : List Entry) → IsFresh s → FullWhereFound s log new }
{}

/// A `Begin`, a `Register` or an `End` that is refused changes nothing. A call that is refused with `BagsFull` leaves
/// its guards and its held bag as they were when it began. A deferral has changed no word, epoch, bag or ticket; a
/// flush has collected; and a release leaves its position taken and unpinned. No other call is refused with that fault.
/// A `Place` that is refused with `CellsFull` has changed nothing, and no other call is refused with that fault.
pub fn every_refusal_leaves_what_it_must()
    // A `Begin`, a `Register` or an `End` that is refused changes nothing. So does a `place` that is refused with
    // `CellsFull`. A call that is refused with `BagsFull` leaves the participant's guards, readings and held bag as
    // they were when it began. A deferral that is refused with `BagsFull` has changed no word, epoch, bag, ticket or
    // cell. A refused flush has collected, and a refused release leaves its position taken and unpinned.
    ensures { (s new : State) (log : List Entry) → IsFresh s → (run : Runs s log new)
        → RefusedAlong (seat_of s) all_quiet none_collected s new log run }
{}
