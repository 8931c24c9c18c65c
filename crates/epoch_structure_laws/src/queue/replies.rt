//! Which replies the calls of a queue may get: laws of the definitions.
ghost use Rattle.std.specs.Prelude.{◌≡◌, ◌∷◌, [], ℕ, Bool};
ghost use Rattle.epoch_laws.specs.Run.{State};
ghost use Rattle.epoch_structure_laws.specs.Plans.{AllPlans, Asked};
ghost use Rattle.epoch_structure_laws.specs.QueueProgram.{QueueLog, QueueRuns, begin_queue_work};
ghost use Rattle.epoch_structure_laws.specs.declared.queue.plan.QueuePhase.{QueuePhase};
ghost use Rattle.epoch_structure_laws.specs.declared.queue.plan.QueueWork.{QueueWork};
ghost use Rattle.epoch_structure_laws.specs.declared.queue.plan.QueueAnswer.TheVariants.{Built, Empty, Popped, Pushed};
ghost use Rattle.epoch_structure_laws.specs.QueueReplies.{IsUsualQueue, AllQueueAsksReady, AllQueueCallsServed};
ghost use Rattle.epoch_structure_laws.specs.QueueReplies.{queue_answers_in};
ghost use Rattle.epoch_structure_laws.specs.QueueAlone.{AllOwn, HasTries, IsBuilt, NeverOut};

/// Each call of the world that a phase makes is replied to as expected: none is refused for a guard, a name, a place or
/// a reading, and none finds nothing there, so that no access answers `Absent`. A flush that makes room may be refused
/// `BagsFull`, a placing `CellsFull`, and a removal `TicketsOut`, but never for lack of room. So a push or a pop
/// answers `BagsFull` and `CellsFull` only where the world has refused that.
///
/// This is of calls that are asked for by a participant that is registered and not paused, under a guard that is out,
/// and that begin with a flush where the held bag has no room. A world of the queue asks for no others.
pub fn every_queue_call_is_served()
    // Each call of the world that a phase makes is replied to as expected: none is refused for a guard, a name, a place
    // or a reading, and none comes upon something that is gone. A flush that makes room may be refused with `BagsFull`,
    // a placing with `CellsFull`, and a removal with `TicketsOut`, but never for lack of room. So a push or a pop
    // answers `BagsFull` or `CellsFull` only if the world has told exactly that.
    ensures { (world world' : State) (plans plans' : AllPlans QueuePhase) (log : QueueLog) → IsUsualQueue world plans
        → (run : QueueRuns world plans log world' plans')
        → AllQueueAsksReady world plans log world' plans' run → AllQueueCallsServed world plans log world' plans' run }
{}

/// A push or a pop of a queue that is built, with no step of others in its midst, never answers that each try was lost,
/// where a pop has one try and a push two: a push may find a tail that lags, and its first try then goes to helping it.
pub fn no_lone_queue_call_runs_out_of_tries()
    // A pop with at least one try, and a push with at least two, never answer that each try was lost if no other
    // participant takes a step meanwhile. The first try of a push may go to a tail that lags.
    ensures { (world world' world'' : State) (plans plans' plans'' : AllPlans QueuePhase) (earlier steps : QueueLog)
        (p g : ℕ) (work : QueueWork) (has_room : Bool) → IsUsualQueue world plans
        → (run : QueueRuns world plans earlier world' plans')
        → AllQueueAsksReady world plans earlier world' plans' run → IsBuilt world' → HasTries work
        → (lone : QueueRuns world' plans' (Asked p g (begin_queue_work work has_room) ∷ steps) world'' plans'')
        → AllQueueAsksReady world' plans' (Asked p g (begin_queue_work work has_room) ∷ steps) world'' plans'' lone
        → AllOwn p steps → NeverOut steps }
{}

/// Some run builds the queue, pushes 7, pops 7 and finds the queue empty: what the laws ask of a run is met.
pub fn some_queue_run_pushes_and_pops()
    // The premises of these laws can be met: some run builds the queue, pushes 7, pops 7 and finds the queue empty.
    ensures { (world : State) × (plans : AllPlans QueuePhase) × (log : QueueLog) × (world' : State)
        × (plans' : AllPlans QueuePhase) × IsUsualQueue world plans
        × (run : QueueRuns world plans log world' plans') × AllQueueAsksReady world plans log world' plans' run
        × (queue_answers_in log ≡ Built ∷ Pushed ∷ Popped 7 ∷ Empty ∷ []) }
{}
