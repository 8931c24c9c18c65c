//! What holds of every run of a map, in any interleaving: laws of the definitions.
ghost use Rattle.std.specs.Prelude.{◌≡◌, ◌∷◌, ℕ, List, []};
ghost use Rattle.epoch_laws.specs.Heap.{Heap};
ghost use Rattle.epoch_laws.specs.declared.step.Entry.{Entry};
ghost use Rattle.epoch_laws.specs.declared.step.Reply.{Reply};
ghost use Rattle.epoch_laws.specs.Run.{State, TakesStep};
ghost use Rattle.epoch_laws.specs.Reach.{LeavesOnce, KeepsLoaded, past_of};
ghost use Rattle.epoch_structure_laws.specs.Plans.{AllPlans, IsLowered, after_by, world_log, run_of_world};
ghost use Rattle.epoch_structure_laws.specs.declared.map.plan.MapAnswer.{MapAnswer};
ghost use Rattle.epoch_structure_laws.specs.declared.map.plan.MapAnswer.TheVariants.{Inserted, NotFound};
ghost use Rattle.epoch_structure_laws.specs.declared.map.plan.MapAnswer.TheVariants.{Found, Removed};
ghost use Rattle.epoch_structure_laws.specs.declared.map.plan.MapPhase.{MapPhase};
ghost use Rattle.epoch_structure_laws.specs.declared.map.plan.MapPhase.TheVariants.{Answering};
ghost use Rattle.epoch_structure_laws.specs.MapProgram.{map, map_calls_left, map_deed_of, MapStarts, MapLog, MapRuns};
ghost use Rattle.epoch_structure_laws.specs.MapProgram.{IsNewMap};
ghost use Rattle.epoch_structure_laws.specs.MapDeeds.{DidNothing, deed_answered, deed_done, deed_then};
ghost use Rattle.epoch_structure_laws.specs.MapAnswers.{AnswersNoneAsFound, map_answers_in};
ghost use Rattle.epoch_structure_laws.specs.MapEntries.{Item, BucketHolds, Ascends, MapHolds, Has, Lacks};
ghost use Rattle.epoch_structure_laws.specs.MapEntries.{StepOnEntries, FindsNoEntry, FindsEntry};

/// In the run of the world that a map makes cells leave as they have to: once, by a deferred removal, and for good.
/// That also holds where another call unlinks the node that a removal has marked.
pub fn every_map_run_leaves_cells_once()
    // In the run of the world that a run of the map makes, cells leave once, by a deferred removal, and for good. A
    // node leaves only when no link leads to it any more, even if another call has unlinked the node that a removal has
    // marked.
    ensures { (world world' : State) (plans plans' : AllPlans MapPhase) (log : MapLog) → IsNewMap world plans
        → (run : MapRuns world plans log world' plans')
        → LeavesOnce world (world_log log) world' (run_of_world map MapStarts world plans log world' plans' run) }
{}

/// So no name that is loaded under a guard still held is destroyed.
pub fn every_map_run_keeps_reach()
    // So no name that is loaded under a guard that is still held is destroyed.
    ensures { (world world' : State) (plans plans' : AllPlans MapPhase) (log : MapLog) → IsNewMap world plans
        → (run : MapRuns world plans log world' plans')
        → KeepsLoaded (past_of world (world_log log) world'
        (run_of_world map MapStarts world plans log world' plans' run)) }
{}

/// Every reply to a call of the world that a phase makes, also a refusal, lowers the number of calls that are left. A
/// call of the map answers when none is left.
pub fn every_map_reply_comes_nearer_the_answer()
    // Every reply that a phase gets, even a refusal, lowers the number of calls that are left. When none is left, the
    // phase answers.
    ensures { IsLowered map map_calls_left }
{}

/// By its phase a call has done nothing yet, has added its entry, has taken one out, has found an entry of its key, or
/// has found none. It begins with nothing done. Each reply passes on what was done, and few add to it: an insert's
/// exchange that is won, a removal's that marks, and what a link or the field of a node tells of the key. So a call
/// answers `Inserted` and `Removed` exactly where it has won its exchange, `AlreadyThere` and `Found` exactly where it
/// found that entry of its key, `NotFound` exactly where it found none, and anything else where it did none of these.
pub fn every_map_answer_tells_what_was_done()
    // A call begins with nothing done. Besides these steps, no reply and no refusal changes what was done.
    ensures begins { (phase : MapPhase) → MapStarts phase → deed_done phase ≡ DidNothing }
    ensures passes_on { (guard : ℕ) (phase : MapPhase) (reply : Reply)
        → deed_done (after_by phase (map_deed_of guard phase) reply) ≡ deed_then phase reply }

    // A call's answer says what the call did: `Inserted`, `Removed` or `RemovedLeaking` exactly when it won its
    // exchange, and `NotFound` exactly when it found no entry. `AlreadyThere` and `Found` have the entry that the call
    // found. Every other answer says that the call did none of these.
    ensures answers { (answer : MapAnswer) → deed_done (Answering answer) ≡ deed_answered answer }
{}

/// Each bucket of a new map is empty, and at each moment of a run its nodes are a list of ascending keys: it is sorted,
/// and no key is there twice.
pub fn every_map_run_holds_sorted_lists()
    // Each bucket of a new map is empty. At each moment of a run the nodes of a bucket have ascending keys: it is
    // sorted, and no key is there twice.
    ensures { (world world' : State) (plans plans' : AllPlans MapPhase) (log : MapLog) → IsNewMap world plans
        → MapRuns world plans log world' plans' → (i : ℕ)
        → MapHolds world.heap i [] × ((xs : List Item) × BucketHolds world'.heap i xs × Ascends 0 xs) }
{}

/// Only two kinds of steps change the entries of a bucket. The won exchange of an insert adds the insert's entry, whose
/// key none of the entries had. The exchange by which a removal marks a node takes out the entry of the removal's key,
/// which is the one that the removal has read. At the step at which a call finds no entry of its key, there is none,
/// and at the step at which it finds an entry of its key, that one is there.
pub fn every_map_run_is_a_map()
    // Only two kinds of steps change the entries of a bucket. The won exchange of an insert adds the entry of its node,
    // whose key none of the entries had. The exchange by which a removal marks a node takes out the entry that the
    // removal has read, which is of its key. At the step at which a call finds no entry of its key, there is none. At
    // the step at which it finds one, this entry is there.
    ensures { (world world' new : State) (plans plans' : AllPlans MapPhase) (log : MapLog) (x : Entry)
        → IsNewMap world plans → MapRuns world plans log world' plans'
        → TakesStep world' x.step x.reply new → (i : ℕ) (vs : List ℕ) → MapHolds world'.heap i vs
        → StepOnEntries world' plans' x new i vs × ((key : ℕ) → FindsNoEntry world' plans' x new i key → Lacks key vs)
        × ((v : ℕ) → FindsEntry world' plans' x new i v → Has v vs) }
{}

/// The cells hold the entries of one map at most.
pub fn every_heap_holds_one_map()
    // The cells hold the entries of at most one map.
    ensures { (heap : Heap) (i : ℕ) (vs ws : List ℕ) → MapHolds heap i vs → MapHolds heap i ws → vs ≡ ws }
{}

/// A call that answers `NotFound` has found that there is no entry of its key: since it was asked for, it has made a
/// step at which the link that it looked at led past the key that it was asked for.
pub fn every_not_found_found_none()
    // A call answers `NotFound` only if it made a step, since it was asked for, at which it found no entry of the key
    // that it was asked for: the link that it looked at led nowhere, or to an entry of a higher key.
    ensures { (world world' : State) (plans plans' : AllPlans MapPhase) (log : MapLog) → IsNewMap world plans
        → (run : MapRuns world plans log world' plans') → AnswersNoneAsFound world plans log world' plans' run }
{}

/// Some run inserts an entry of key 1, looks for key 0 and for key 1, removes the entry, and looks for key 1 in vain:
/// it meets what the laws ask of a run. The number 4294967303 is the entry, whose value is 7.
pub fn some_map_run_inserts_and_removes()
    // The premises of these laws can be met: some run inserts an entry of key 1, finds none of key 0 where the entry is
    // one of a higher key, finds the entry, removes it, and then finds none of key 1.
    ensures { (world : State) × (plans : AllPlans MapPhase) × (log : MapLog) × (world' : State)
        × (plans' : AllPlans MapPhase) × IsNewMap world plans × MapRuns world plans log world' plans'
        × (map_answers_in log ≡ Inserted ∷ NotFound ∷ Found 4294967303 ∷ Removed 4294967303 ∷ NotFound ∷ []) }
{}
