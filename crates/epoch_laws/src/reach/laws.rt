//! What holds of every run of cells and pointers. Some of these laws hold only if cells leave as they must.
ghost use Rattle.std.specs.Prelude.{◌≡◌, ℕ, List};
ghost use Rattle.epoch_cells.specs.declared.cells.name.Name.{Name};
ghost use Rattle.epoch_laws.specs.declared.step.Entry.{Entry};
ghost use Rattle.epoch_laws.specs.Run.{State, IsFresh, Runs};
ghost use Rattle.epoch_laws.specs.Reach.{IsReachable, Meets, LeavesOnce, KeepsLoaded, LosesLoaded, past_of};
ghost use Rattle.epoch_laws.specs.Meeting.{usage, follows_all, LeavesWell, met_past_of};
ghost use Rattle.epoch_laws.specs.Given.{GivesNoNameTwice};
ghost use Rattle.epoch_laws.specs.Removals.{CallsWhatWasDeferred};
ghost use Rattle.epoch_laws.specs.Readings.{KeepsReadings, HasCellsToRead};
ghost use Rattle.epoch_laws.specs.Standing.{StandsOrDestroyed, given_of, LoadedStand};

/// If each cell leaves once and out of reach, and no field changes of a cell that has fallen out of reach, then no cell
/// is destroyed whose name a participant has loaded from a root, or from a field of a name so loaded, under a guard
/// that it still holds and has not repinned.
pub fn every_run_keeps_reach()
    // In a run in which cells leave as they must, no name is destroyed while a participant that has loaded it still
    // holds the guard of that load and has not repinned. The load is from a root, or from a field of a name that was
    // loaded in this way.
    ensures { (s new : State) (log : List Entry) → IsFresh s → (run : Runs s log new) → LeavesOnce s log new run
        → KeepsLoaded (past_of s log new run) }
{}

/// What a structure says of its own cells: which names are in, and which of them its calls meet.
///
/// A name that a pointer leads to need not be in, as where a ring still leads to a task that was taken out of it. Then
/// no call meets the name by that pointer.
pub trait Uses {
    /// Which names are in.
    ghost is_in: { State → Name → Type 0 };

    /// Which name a participant's pointer step meets under a guard, where it has met these under that guard before.
    ghost met: { (Name → Type 0) → State → Entry → State → ℕ → ℕ → Name → Type 0 };
}

/// If each name leaves only by a deferred removal, or by a Take before it ever was in, and is not in from then on, and
/// if each name that is met under a guard was in at some moment since the participant published, then no cell is
/// destroyed that a participant has met under a guard that it still holds and has not repinned.
pub fn every_run_keeps_met<C: Uses>()
    // A structure says which names are in, and which a pointer step meets under its guard. In a run in which a name
    // leaves only by a deferred removal, or by a Take before it ever was in, and is not in from then on, and in which
    // each name that is met was in at some moment since the participant published, no name is destroyed while a
    // participant that has met it still holds the guard and has not repinned.
    ensures { (s new : State) (log : List Entry) → IsFresh s → (run : Runs s log new)
        → LeavesWell (usage C.is_in C.met) s log new run
        → KeepsLoaded (met_past_of (usage C.is_in C.met) s log new run) }
{}

/// Calls that follow every field, where what is in reach is in. No value of it is made.
pub struct FollowsAll;

impl Uses for FollowsAll {
    ghost is_in = { λ s x. IsReachable s.heap x };

    ghost met = { λ earlier s entry new p g x. Meets earlier s entry new p g x };
}

/// The law of reach follows from that of what is met, where what is in reach is in, and calls follow every field.
pub fn the_law_of_reach_follows()
    // Where what is in reach is in, and calls follow every field, cells that leave as the law of reach asks leave as
    // the law of what is met asks. So the law of reach follows from it.
    ensures leaves { (s new : State) (log : List Entry) → IsFresh s → (run : Runs s log new) → LeavesOnce s log new run
        → LeavesWell follows_all s log new run }
    ensures reach { (s new : State) (log : List Entry) → IsFresh s → (run : Runs s log new) → LeavesOnce s log new run
        → KeepsLoaded (past_of s log new run) }
{
    every_run_keeps_met::<FollowsAll>();
}

/// No name is given twice.
pub fn every_run_gives_no_name_twice()
    // No name is given twice.
    ensures { (s new : State) (log : List Entry) → IsFresh s → (run : Runs s log new) → GivesNoNameTwice s log new run }
{}

/// A job in a bag is work, or removes the name that its deferral named. Its call does exactly that.
pub fn every_run_calls_what_was_deferred()
    // A job in a bag is work, or removes the name that its deferral named. Its call does exactly that, and says so.
    ensures { (s new : State) (log : List Entry) → IsFresh s → (run : Runs s log new)
        → CallsWhatWasDeferred s log new run }
{}

/// If cells leave in another way, a name that is loaded under a guard still held can be destroyed.
pub fn some_run_loses_reach()
    // If cells leave in another way, this can fail: some run shows it.
    ensures { (s : State) × (log : List Entry) × (new : State) × IsFresh s × (run : Runs s log new)
        × LosesLoaded (past_of s log new run) }
{}

/// Each name that was given either has its cell or is destroyed.
pub fn every_name_stands_or_is_destroyed()
    // Each name that was given either has its cell or is destroyed.
    ensures { (s new : State) (log : List Entry) → IsFresh s → (run : Runs s log new)
        → StandsOrDestroyed (given_of s log new run) (past_of s log new run) new.heap }
{}

/// If each cell leaves once and out of reach, and no field changes of a cell that has fallen out of reach, then each
/// name that is loaded under a guard still held has its cell.
pub fn every_loaded_name_stands()
    // In a run in which cells leave as they must, each name that is loaded under a guard that is still held has its
    // cell.
    ensures { (s new : State) (log : List Entry) → IsFresh s → (run : Runs s log new) → LeavesOnce s log new run
        → LoadedStand (past_of s log new run) new.heap }
{}

/// Each cell counts the participants that read it, each of them once, so a value that is read stays. A participant that
/// can begin to read one more cell reads fewer cells than there are.
pub fn every_cell_counts_its_readers()
    // Each cell counts the participants that read it, each of them once. A participant that can begin to read one more
    // cell reads fewer cells than there are.
    ensures counted { (s new : State) (log : List Entry) → IsFresh s → Runs s log new → KeepsReadings new }
    ensures room { (s new : State) (log : List Entry) → IsFresh s → Runs s log new → HasCellsToRead new }
{}
