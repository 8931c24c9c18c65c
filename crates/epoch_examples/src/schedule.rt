//! A schedule of two participants, chosen step by step: what you would write to test a structure of your own.
use epoch_world::{Call, Deferral, Fault, Places, Reply, Shape, Step, World};
use std::alloc::Global;

/// Pins participant 0, stops participant 1 after the first step of its pin, and returns the world's replies.
///
/// `NoMemory`: an allocation was refused.
pub fn half_a_pin(alloc: Global) -> Result<Vec<Reply>, Fault> {
    let mut world = World::<Places<Deferral>>::new(alloc, Shape::usual(2, 0, 0, 0))?;
    world.run(&[Step::Register, Step::Register])?;
    // A whole call, with as many steps as it takes.
    world.call(0, Call::Pin)?;
    // One step of a call: participant 1 has loaded the epoch, and has stored nothing yet.
    world.run(&[Step::Begin(1, Call::Pin), Step::Go(1)])
}
