//! A list of steps that shows how long a bag has to wait.
ghost use Rattle.std.specs.Prelude.{◌≡◌, [], ◌∷◌, ◌++◌, IfOk, IfErr};
ghost use Rattle.epoch_cells.specs.declared.fault.Fault.TheVariants.{NoMemory};
ghost use Rattle.epoch_laws.specs.Sharp.{LeadsToSharp};
ghost use Rattle.epoch_world.specs.Listed.{ListsStep, ListsCall};

use crate::World;
use epoch_bags::BagStore;
use epoch_cells::Fault;
use epoch_laws::{Call, Deferral, Step};
use std::alloc::Global;

/// Takes steps in a world, and returns them.
///
/// If the world is new, in epoch 0, and has the sizes of `Shape::usual` for two participants, the steps end with a
/// whole collection for an epoch one past the seal of a bag. In that bag is a job that a participant other than the one
/// that deferred it still blocks. If a bag were expired one epoch after its seal, that job would be called too early.
/// So a bag waits two epochs.
///
/// `NoMemory`: an allocation was refused. The world may have taken some of the steps.
pub fn sharp_steps<S: BagStore<Job = Deferral>>(
    alloc: Global,
    world: &mut World<S>,
) -> Result<Vec<Step>, Fault>
    // `sharp_steps` takes a list of steps in a world over any store, and returns the list: the steps lead from the
    // world's state before to the state after. The only error is `NoMemory`. If that world was new, in epoch 0, and had
    // the sizes of `Shape::usual` for two participants, the steps end with a whole collection, which leaves a bag whose
    // seal is one below the collection's epoch. Meanwhile a participant that did not defer the bag's job has stayed
    // pinned since the deferral.
    ensures sharp { IfOk result (λ steps. LeadsToSharp world.old steps.items world.new) }
    ensures no_memory { IfErr result (λ fault. fault ≡ NoMemory) }
{
    let mut steps = Vec::new(alloc);
    list_step(world, &mut steps, Step::Register)?;
    list_step(world, &mut steps, Step::Register)?;
    // The first pin of each collects, and advances the epoch: to 1, and to 2.
    list_call(world, &mut steps, 0, Call::Pin)?;
    list_call(world, &mut steps, 0, Call::Unpin(Some(0)))?;
    list_call(world, &mut steps, 1, Call::Pin)?;
    list_call(world, &mut steps, 1, Call::Unpin(Some(0)))?;
    // Both are pinned in epoch 2 when the job is deferred and sealed, and so the flush advances the epoch to 3.
    list_call(world, &mut steps, 0, Call::Pin)?;
    list_call(world, &mut steps, 1, Call::Pin)?;
    list_call(world, &mut steps, 1, Call::Defer(Some(0)))?;
    list_call(world, &mut steps, 1, Call::Flush(Some(0)))?;
    Ok(steps)
}

/// Takes a step, and writes it down.
fn list_step<S: BagStore<Job = Deferral>>(
    world: &mut World<S>,
    steps: &mut Vec<Step>,
    step: Step,
) -> Result<(), Fault>
    ensures ok { IfOk result (λ done. ListsStep step world.old steps.old.items world.new steps.new.items) }
    ensures no_memory { IfErr result (λ fault. fault ≡ NoMemory) }
{
    let _reply = world.step(step);
    add(steps, step)
}

/// Begins a call and goes on until it ends, and writes its steps down.
fn list_call<S: BagStore<Job = Deferral>>(
    world: &mut World<S>,
    steps: &mut Vec<Step>,
    participant: u64,
    call: Call,
) -> Result<(), Fault>
    ensures ok { IfOk result (λ done. ListsCall participant call world.old steps.old.items world.new steps.new.items) }
    ensures no_memory { IfErr result (λ fault. fault ≡ NoMemory) }
{
    let replies = world.call(participant, call)?;
    add(steps, Step::Begin(participant, call))?;
    for _ in 1..replies.len() {
        add(steps, Step::Go(participant))?;
    }
    Ok(())
}

fn add(steps: &mut Vec<Step>, step: Step) -> Result<(), Fault>
    ensures ok { IfOk result (λ done. steps.new.items ≡ steps.old.items ++ step ∷ []) }
    ensures no_memory { IfErr result (λ fault. fault ≡ NoMemory) }
{
    match steps.push(step) {
        Ok(()) => Ok(()),
        Err(_) => Err(Fault::NoMemory),
    }
}
