//! What holds of every run of a queue, in any interleaving: laws of the definitions.
ghost use Rattle.std.specs.Prelude.{◌≡◌, ℕ, List, []};
ghost use Rattle.epoch_laws.specs.Heap.{Heap};
ghost use Rattle.epoch_laws.specs.declared.step.Entry.{Entry};
ghost use Rattle.epoch_laws.specs.declared.step.Reply.{Reply};
ghost use Rattle.epoch_laws.specs.Run.{State, TakesStep};
ghost use Rattle.epoch_laws.specs.Reach.{LeavesOnce, KeepsLoaded, past_of};
ghost use Rattle.epoch_structure_laws.specs.Plans.{AllPlans, IsLowered, after_by, world_log, run_of_world};
ghost use Rattle.epoch_structure_laws.specs.declared.queue.plan.QueuePhase.{QueuePhase};
ghost use Rattle.epoch_structure_laws.specs.declared.queue.plan.QueuePhase.TheVariants.{Answering};
ghost use Rattle.epoch_structure_laws.specs.declared.queue.plan.QueueAnswer.{QueueAnswer};
ghost use Rattle.epoch_structure_laws.specs.QueueProgram.{queue, queue_calls_left, queue_deed_of, QueueStarts};
ghost use Rattle.epoch_structure_laws.specs.QueueProgram.{QueueLog, QueueRuns, IsNewQueue};
ghost use Rattle.epoch_structure_laws.specs.QueueDeeds.{DidNothing, queue_deed_answered, queue_deed_done};
ghost use Rattle.epoch_structure_laws.specs.QueueDeeds.{queue_deed_then};
ghost use Rattle.epoch_structure_laws.specs.QueueValues.{QueueHolds, StepOnValues, FindsNoValue};

/// In the run of the world that a queue makes, cells leave as they must: once, by a deferred removal, and for good.
pub fn every_queue_run_leaves_cells_once()
    // In the run of the world that a run of the queue makes, cells leave once, by a deferred removal, and for good: a
    // node only when neither the head nor the tail leads to it any more.
    ensures { (world world' : State) (plans plans' : AllPlans QueuePhase) (log : QueueLog) → IsNewQueue world plans
        → (run : QueueRuns world plans log world' plans')
        → LeavesOnce world (world_log log) world' (run_of_world queue QueueStarts world plans log world' plans' run) }
{}

/// So no name that is loaded under a guard still held is destroyed.
pub fn every_queue_run_keeps_reach()
    // So no name that is loaded under a guard that is still held is destroyed.
    ensures { (world world' : State) (plans plans' : AllPlans QueuePhase) (log : QueueLog) → IsNewQueue world plans
        → (run : QueueRuns world plans log world' plans')
        → KeepsLoaded (past_of world (world_log log) world'
        (run_of_world queue QueueStarts world plans log world' plans' run)) }
{}

/// Every reply to a call of the world that a phase makes, also a refusal, lowers the number of calls that are left. A
/// call of the queue answers when none is left.
pub fn every_queue_reply_comes_nearer_the_answer()
    // Every reply that a phase gets, even a refusal, lowers the number of calls that are left. A push in k tries starts
    // with at most `3k + 3` calls left, and a pop with at most `5k + 4`. When none is left, the phase answers.
    ensures { IsLowered queue queue_calls_left }
{}

/// A call's phase tells what the call has done to the list: nothing yet, added its node at the back, taken a value from
/// the front, or found nothing behind the head. A call begins with nothing done. Each reply passes on what was done,
/// and only three add to it: an exchange that a push wins, one that a pop wins, and a null pointer behind the head. So
/// a call answers `Pushed` exactly if it has won its exchange; `Popped` or `PoppedLeaking` with the value that the
/// exchange it won took; `Empty` exactly if it found nothing behind the head; and anything else if it did none of
/// these.
pub fn every_queue_answer_tells_what_was_done()
    // A call begins with nothing done. Besides these steps, no reply and no refusal changes what was done.
    ensures begins { (phase : QueuePhase) → QueueStarts phase → queue_deed_done phase ≡ DidNothing }
    ensures passes_on { (guard : ℕ) (phase : QueuePhase) (reply : Reply)
        → queue_deed_done (after_by phase (queue_deed_of guard phase) reply) ≡ queue_deed_then phase reply }

    // A call's answer says what the call did: `Pushed` exactly when it won the exchange that adds its node, and `Empty`
    // exactly when it found nothing behind the head. `Popped` and `PoppedLeaking` have the value that was taken by the
    // exchange that the call won. Every other answer says that the call did none of these.
    ensures answers { (answer : QueueAnswer) → queue_deed_done (Answering answer) ≡ queue_deed_answered answer }
{}

/// A new queue holds no value, and at each moment of a run its cells hold a list of values, the front's first.
pub fn every_queue_run_holds_a_list()
    // A new queue holds no value, and at each moment of a run its cells hold a list of values, the front's first.
    ensures { (world world' : State) (plans plans' : AllPlans QueuePhase) (log : QueueLog) → IsNewQueue world plans
        → QueueRuns world plans log world' plans'
        → QueueHolds world.heap [] × ((vs : List ℕ) × QueueHolds world'.heap vs) }
{}

/// First in, first out: only two kinds of steps change that list. The exchange that a push wins adds the value of its
/// node at the back. The exchange that a pop wins takes the value in front, which is the one that the pop has read. At
/// the step at which a pop finds nothing behind the head, the list is empty.
pub fn every_queue_run_is_a_queue()
    // First in, first out: only two kinds of steps change that list. The exchange that a push wins adds the value of
    // its node at the back. The exchange that a pop wins takes the value in front, which is the one that the pop has
    // read. At the step at which a pop finds nothing behind the head, the list is empty.
    ensures { (world world' new : State) (plans plans' : AllPlans QueuePhase) (log : QueueLog) (x : Entry)
        → IsNewQueue world plans → QueueRuns world plans log world' plans'
        → TakesStep world' x.step x.reply new → (vs : List ℕ) → QueueHolds world'.heap vs
        → StepOnValues world' plans' x new vs × (FindsNoValue world' plans' x new → vs ≡ []) }
{}

/// The cells hold the values of at most one list.
pub fn every_heap_holds_one_queue()
    // The cells hold the values of at most one list, so this list is the queue's.
    ensures { (heap : Heap) (vs ws : List ℕ) → QueueHolds heap vs → QueueHolds heap ws → vs ≡ ws }
{}
