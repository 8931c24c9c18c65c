//! A list of steps of a stack or of a queue, which is taken one by one or not at all.
use crate::calls::{Act, BUILT, FIRST, Row, made, play_on, sizes, told, want_told};
use crate::structures::{Asked, Queue, Sizes, Stack, Structure, Told};
use crate::wants::want;
use epoch_cells::Fault;
use epoch_structure_laws::queue::QueueWork as QueueWork;
use epoch_structure_worlds::plans::{PlanReply, PlanStep};
use epoch_structure_worlds::stack::StackWork as StackWork;
use std::alloc::Global;
use std::process::Abort;

/// A structure that takes lists of steps.
trait Listed: Structure {
    fn take_all(
        &mut self,
        steps: &[PlanStep<Self::Work>],
    ) -> Result<Vec<PlanReply<Self::Answer>>, Fault>;
}

impl Listed for Stack {
    fn take_all(
        &mut self,
        steps: &[PlanStep<Self::Work>],
    ) -> Result<Vec<PlanReply<Self::Answer>>, Fault> {
        self.run(steps)
    }
}

impl Listed for Queue {
    fn take_all(
        &mut self,
        steps: &[PlanStep<Self::Work>],
    ) -> Result<Vec<PlanReply<Self::Answer>>, Fault> {
        self.run(steps)
    }
}

/// A structure, for which memory is asked once more if it is refused.
fn made_at_last<X: Listed>(rt: &impl Abort, alloc: Global, sizes: Sizes) -> X {
    match X::made(rt, alloc, sizes) {
        Ok(structure) => structure,
        Err(fault) => {
            want(rt, "memory is refused", fault, Fault::NoMemory);
            made(rt, alloc, sizes)
        }
    }
}

/// Takes the steps of a push. Where memory is refused for the replies, nothing was pushed, and they are taken again.
fn push_at_last<X: Listed>(
    rt: &impl Abort,
    structure: &mut X,
    steps: &[PlanStep<X::Work>],
) -> Vec<PlanReply<X::Answer>> {
    match structure.take_all(steps) {
        Ok(replies) => replies,
        Err(fault) => {
            want(rt, "memory is refused", fault, Fault::NoMemory);
            let pop = Act::Whole(0, Asked::Take(0, 1));
            want_told(rt, structure, ("nothing was pushed", pop, Told::NoneThere));
            structure
                .take_all(steps)
                .expect(rt, "memory for the replies")
        }
    }
}

/// These are the replies to the steps of a push: it begins, and answers at last.
fn want_replies<X: Listed>(rt: &impl Abort, replies: &[PlanReply<X::Answer>], steps: usize) {
    want(rt, "each step has a reply", replies.len(), steps);
    for (number, reply) in replies.iter().enumerate() {
        let wanted = if number == 0 {
            Told::Began
        } else if number + 1 == steps {
            Told::PutIn
        } else {
            Told::Stepped
        };
        want(rt, "a push alone", told::<X>(*reply), wanted);
    }
}

/// These steps are a push of 5 alone, of which the last answers. It is popped then.
fn push_listed<X: Listed>(
    rt: &impl Abort,
    alloc: Global,
    sizes: Sizes,
    before: &[&[Row]],
    steps: &[PlanStep<X::Work>],
) {
    // One allocation is refused at most, so a further world is made, and a further run is.
    let mut structure: X = made_at_last(rt, alloc, sizes);
    play_on(rt, &mut structure, before);
    let replies = push_at_last(rt, &mut structure, steps);
    want_replies::<X>(rt, &replies, steps.len());
    let pop = Act::Whole(0, Asked::Take(0, 1));
    want_told(rt, &mut structure, ("a pop", pop, Told::TookOut(5)));
}

/// A push on a stack places its value, loads the head, stores it in the node and exchanges the head, each by a begin,
/// one step on cells or pointers, and an end; and then it answers.
///
/// `rt try --test --fail-alloc N` refuses the Nth allocation of a test, and this one passes whichever that is, as does
/// that of a queue. In a plain run none is refused.
#[test]
fn a_list_of_steps_of_a_stack_is_taken_one_by_one_or_not_at_all(rt: HostRuntime) {
    let mut steps = [PlanStep::Go(0); 14];
    steps[0] = PlanStep::Ask(0, 0, StackWork::Push(5, 1));
    push_listed::<Stack>(&rt, rt.alloc(), sizes(1, 1), &[FIRST], &steps);
}

/// A push on a queue places its value, loads the tail and its next, exchanges that and then the tail, each by a begin,
/// one step on cells or pointers, and an end; one step more finds the first node's cell used; and then it answers.
#[test]
fn a_list_of_steps_of_a_queue_is_taken_one_by_one_or_not_at_all(rt: HostRuntime) {
    let mut steps = [PlanStep::Go(0); 18];
    steps[0] = PlanStep::Ask(0, 0, QueueWork::Push(5, 1));
    push_listed::<Queue>(&rt, rt.alloc(), sizes(1, 2), &[FIRST, BUILT], &steps);
}
