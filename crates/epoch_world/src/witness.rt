//! Two runs of a world: one that the law of rounds speaks of, and one that shows how long a bag has to wait.
ghost use Rattle.std.specs.Prelude.{ℕ, List};
ghost use Rattle.epoch_laws.specs.declared.step.Entry.{Entry};
ghost use Rattle.epoch_laws.specs.Run.{State};
ghost use Rattle.epoch_world.specs.Met.{MeetsRounds};

mod sharp;

pub use sharp::sharp_steps;

/// Some run of a world meets all premises of the law of rounds, `quiet_rounds_call_all` of `epoch_laws`, with a
/// bag in the store whose job its rounds have to call.
pub fn some_run_empties_its_store()
    // The premises of `quiet_rounds_call_all` can be met: a run of one participant meets them. It is three rounds long,
    // and its first flush puts a bag with a job.
    ensures { (fresh s put new : State) × (p : ℕ) × (earlier before after others : List Entry)
        × MeetsRounds fresh s put new p earlier before after others }
{}
