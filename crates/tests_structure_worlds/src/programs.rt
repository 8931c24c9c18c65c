//! A structure's program in a world, without the structure's own code: each step of a call makes a whole call of the
//! world, and tells at which step the call takes effect.
use crate::structures::{
    Asked, Effect, Sizes, Structure, Told, map_told, map_work, queue_told, queue_work, shape_of,
};
use epoch_bags::Places;
use epoch_cells::Fault;
use epoch_laws::{Deferral, Reply};
use epoch_structure_laws::map::MapPhase as MapPhase;
use epoch_structure_laws::queue::QueuePhase as QueuePhase;
use epoch_structure_laws::{PhaseMachine, Wish, Works};
use epoch_structure_worlds::plans::{PlainCall, PlanReply, PlanStep};
use epoch_world::{Call, Ptr, Step, World};
use std::alloc::Global;
use std::process::Abort;

/// Phases that are known to a test by name.
pub(crate) trait Named: Works {
    fn work_of(asked: Asked) -> Self::Work;

    fn told_of(answer: Self::Answer) -> Told;

    /// What was done by the step of this phase which this one followed.
    fn effect_of(self, next: Self) -> Effect;
}

impl Named for QueuePhase {
    fn work_of(asked: Asked) -> Self::Work {
        queue_work(asked)
    }

    fn told_of(answer: Self::Answer) -> Told {
        queue_told(answer)
    }

    // A push puts its value there by its won exchange of the last link, and a pop takes one by that of the head. A pop
    // that finds no next of the head finds the queue empty.
    fn effect_of(self, next: QueuePhase) -> Effect {
        match (self, next) {
            (QueuePhase::Appending(_, _, _), QueuePhase::Swinging(_, _))
            | (QueuePhase::Taking(_, _, _, _), QueuePhase::LookingBack(_, _, _))
            | (QueuePhase::LoadingNext(_, _), QueuePhase::Answering(_)) => Effect::Decided,
            _ => Effect::Untold,
        }
    }
}

impl Named for MapPhase {
    fn work_of(asked: Asked) -> Self::Work {
        map_work(asked)
    }

    fn told_of(answer: Self::Answer) -> Told {
        map_told(answer)
    }

    // An insert puts its entry there by its won exchange of a link, and a removal takes it out by the mark. What else a
    // call answers, it has found at its last load of a link.
    fn effect_of(self, next: MapPhase) -> Effect {
        match (self, next) {
            (MapPhase::LoadingFirst(_, _), _)
            | (MapPhase::LoadingNext(_, _, _, _, _), _)
            | (MapPhase::Inserting(_, _, _, _, _, _), MapPhase::Answering(_))
            | (MapPhase::Marking(_, _, _, _, _, _, _), MapPhase::Dropping(_, _, _, _, _, _)) =>
                Effect::Decided,
            (MapPhase::Unlinking(_, _, _, _, _), MapPhase::Burying(_, _, _)) => Effect::Helped,
            _ => Effect::Untold,
        }
    }
}

/// A world of three participants, and the phase of each one's call.
#[derive(Drop)]
pub(crate) struct Program<P: Named> {
    world: World<Places<Deferral>>,
    phases: [Option<P>; 3],
    effect: Effect,
}

/// The call of the world that a participant begins by itself.
fn plain_call(call: PlainCall) -> Call {
    match call {
        PlainCall::Pin => Call::Pin,
        PlainCall::Unpin(guard) => Call::Unpin(guard),
        PlainCall::Repin(guard) => Call::Repin(guard),
        PlainCall::Pause(guard) => Call::Pause(guard),
        PlainCall::Resume(guard) => Call::Resume(guard),
        PlainCall::Defer(guard) => Call::Defer(guard),
        PlainCall::Flush(guard) => Call::Flush(guard),
        PlainCall::Release => Call::Release,
    }
}

/// The call of the world that is wished for, under the guard 0.
fn call_wished<A: Copy>(wish: Wish<A>) -> Result<Call, A> {
    match wish {
        Wish::Flush => Ok(Call::Flush(Some(0))),
        Wish::Touch(access) => Ok(Call::Access(access)),
        Wish::Defer(node) => {
            let name = Some(node);
            Ok(Call::DeferDestroy(Some(0), Ptr { name, tag: 0 }))
        }
        Wish::Answer(answer) => Err(answer),
    }
}

/// The last of the replies to a call of the world.
fn last_reply(replies: Result<Vec<Reply>, Fault>) -> Reply {
    match replies {
        Ok(replies) => replies.last().copied().unwrap_or(Reply::Began),
        Err(fault) => Reply::Refused(fault),
    }
}

impl<P: Named> Program<P> {
    fn put(&mut self, participant: u64, phase: Option<P>) {
        if let Some(place) = self.phases.get_mut(participant as usize) {
            *place = phase;
        }
    }

    /// Begins a call of the structure. Room is made first, where the held bag has none.
    fn begin(&mut self, participant: u64, work: P::Work) -> PlanReply<P::Answer> {
        let room = self.world.has_room(participant).unwrap_or(false);
        self.put(participant, Some(P::first(work, room)));
        PlanReply::World(Reply::Began)
    }

    /// Makes the call of the world that the phase wishes for, or answers.
    fn go(&mut self, participant: u64, phase: P) -> PlanReply<P::Answer> {
        match call_wished(phase.wish(0)) {
            Err(answer) => {
                self.put(participant, None);
                PlanReply::Answered(answer)
            }
            Ok(call) => {
                let next = phase.hear(last_reply(self.world.call(participant, call)));
                self.effect = phase.effect_of(next);
                self.put(participant, Some(next));
                PlanReply::World(Reply::Stepped)
            }
        }
    }
}

impl<P: Named> Structure for Program<P> {
    type Work = P::Work;

    type Answer = P::Answer;

    fn made(rt: &impl Abort, alloc: Global, sizes: Sizes) -> Result<Program<P>, Fault> {
        let world = World::new(alloc, shape_of(rt, sizes, 2, 2))?;
        Ok(Program {
            world,
            phases: [None; 3],
            effect: Effect::Untold,
        })
    }

    fn work(asked: Asked) -> P::Work {
        P::work_of(asked)
    }

    fn told(answer: P::Answer) -> Told {
        P::told_of(answer)
    }

    fn take(&mut self, step: PlanStep<P::Work>) -> PlanReply<P::Answer> {
        self.effect = Effect::Untold;
        let step = match step {
            PlanStep::Ask(participant, _, work) => return self.begin(participant, work),
            PlanStep::Go(participant) => {
                match self.phases.get(participant as usize).copied().flatten() {
                    Some(phase) => return self.go(participant, phase),
                    None => Step::Go(participant),
                }
            }
            PlanStep::Register => Step::Register,
            PlanStep::Begin(participant, call) => Step::Begin(participant, plain_call(call)),
            PlanStep::End => Step::End,
            PlanStep::EndGo => Step::EndGo,
        };
        PlanReply::World(self.world.step(step))
    }

    fn effect(&self) -> Effect {
        self.effect
    }
}
