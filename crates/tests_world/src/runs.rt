//! What holds of runs over any store holds over a pile, which has no proof about worlds of its own.
ghost use Rattle.std.specs.Prelude.{IfOk};
ghost use Rattle.epoch_laws.specs.Run.{Runs, entries_of};
ghost use Rattle.epoch_laws.specs.Grace.{KeepsGrace};
ghost use Rattle.epoch_laws.specs.Tickets.{HoldsEachTicketOnce};
ghost use Rattle.epoch_laws.specs.Fits.{IsLawful};
ghost use Rattle.epoch_laws.specs.Rounds.{RoundsCallAll};
ghost use Rattle.epoch_laws.specs.Collected.{CollectsFew};
ghost use Rattle.epoch_world.specs.Earlier.{AlongSteps, SinceEachState};

use crate::memory::world_at_last;
use crate::pile::Pile;
use crate::wants::want;
use epoch_cells::Fault;
use epoch_world::{Call, Reply, Shape, Step, World};

/// A list of steps.
const LIST: [Step; 6] = [
    Step::Register,
    Step::Begin(0, Call::Pin),
    Step::Go(0),
    Step::Go(0),
    Step::Begin(0, Call::Unpin(Some(0))),
    Step::Go(1),
];

/// Its replies.
const TOLD: [Reply; 6] = [
    Reply::Registered(0),
    Reply::Began,
    Reply::Stepped,
    Reply::Pinned(0),
    Reply::Refused(Fault::Busy),
    Reply::Refused(Fault::NotRegistered),
];

/// Takes these steps over a pile. What holds of runs over any store holds of these, with no proof about this one.
fn run_over_pile(world: &mut World<Pile>, steps: &[Step]) -> Result<Vec<Reply>, Fault>
    ensures runs { IfOk result (λ replies. Runs world.old (entries_of steps.now replies.items) world.new) }
    ensures grace { IfOk result (AlongSteps world.old steps.now (λ fresh log. KeepsGrace log)) }
    ensures once { IfOk result (AlongSteps world.old steps.now (λ fresh log. HoldsEachTicketOnce log world.new)) }
    ensures lawful { IfOk result (AlongSteps world.old steps.now (λ fresh log. IsLawful log)) }
    ensures rounds { IfOk result (λ replies. SinceEachState world.old (entries_of steps.now replies.items)
        (λ start log. RoundsCallAll start log world.new)) }
    ensures few { IfOk result (AlongSteps world.old steps.now
        (λ fresh log. (run : Runs fresh log world.new) → CollectsFew fresh log world.new run)) }
{
    world.run(steps)
}

#[test]
fn a_list_over_a_pile_tells_one_reply_a_step(rt: HostRuntime) -> Result<(), Fault> {
    let mut world = world_at_last(&rt, rt.alloc(), Shape::usual(1, 0, 0, 0));
    let replies = run_over_pile(&mut world, &LIST)?;
    want(&rt, "the replies", replies.as_slice(), &TOLD[..]);
    Ok(())
}
