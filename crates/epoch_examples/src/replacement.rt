//! A structure of your own in a world: a value that one participant replaces while another is about to read it.
//!
//! You choose after which step of one participant another one goes on, so what threads meet once in a million runs is
//! met in each.
use epoch_world::{
    Access, AccessAnswer, Call, Change, Deferral, Fault, Places, Ptr, Reply, Shape, Spot, Step,
    World,
};
use std::alloc::Global;

/// Where the structure begins.
const ROOT: Spot = Spot::Root(0);

/// The guard of a participant that pins once.
const GUARD: Option<u64> = Some(0);

/// A pointer to a value that can be replaced, in a world of two participants. It is null at first.
#[derive(Drop)]
pub struct Replaceable {
    world: World<Places<Deferral>>,
}

impl Replaceable {
    /// Registers both participants.
    ///
    /// `NoMemory`: an allocation was refused.
    pub fn new(alloc: Global) -> Result<Replaceable, Fault> {
        let mut world = World::new(alloc, Shape::usual(2, 2, 1, 0))?;
        world.run(&[Step::Register, Step::Register])?;
        Ok(Replaceable { world })
    }

    /// Does a whole call of the participant, and returns its last reply.
    ///
    /// `NoMemory`: an allocation was refused.
    fn call(&mut self, participant: u64, call: Call) -> Result<Reply, Fault> {
        let replies = self.world.call(participant, call)?;
        match replies.last() {
            Some(reply) => Ok(*reply),
            None => Ok(Reply::Began),
        }
    }

    /// Loads the pointer under the participant's guard.
    fn load(&mut self, participant: u64) -> Result<Ptr, Fault> {
        let load = Access::Point(GUARD, ROOT, Change::Load);
        Ok(pointer_of(self.call(participant, Call::Access(load))?))
    }

    /// Pins, places a value, puts it in place of the present one, defers the destruction of that one, flushes and
    /// unpins.
    fn replace(&mut self, participant: u64, value: u64) -> Result<(), Fault> {
        self.call(participant, Call::Pin)?;
        let new = pointer_of(self.call(participant, Call::Access(Access::Place(value)))?);
        let swap = Access::Point(GUARD, ROOT, Change::Swap(new));
        let before = pointer_of(self.call(participant, Call::Access(swap))?);
        if before.name.is_some() {
            self.call(participant, Call::DeferDestroy(GUARD, before))?;
        }
        self.call(participant, Call::Flush(GUARD))?;
        self.call(participant, Call::Unpin(GUARD))?;
        Ok(())
    }

    /// Pins, flushes and unpins.
    fn flush(&mut self, participant: u64) -> Result<(), Fault> {
        self.call(participant, Call::Pin)?;
        self.call(participant, Call::Flush(GUARD))?;
        self.call(participant, Call::Unpin(GUARD))?;
        Ok(())
    }

    /// Reads the value that the pointer leads to, under the participant's guard.
    fn read(&mut self, participant: u64, pointer: Ptr) -> Result<Reply, Fault> {
        let read = Call::Access(Access::Read(GUARD, pointer));
        let told = self.call(participant, read)?;
        self.call(participant, Call::Access(Access::Leave(pointer)))?;
        Ok(told)
    }
}

/// The pointer that a call answered, or null.
fn pointer_of(reply: Reply) -> Ptr {
    match reply {
        Reply::Done(AccessAnswer::Pointer(pointer)) => pointer,
        Reply::Done(AccessAnswer::Name(name)) => Ptr {
            name: Some(name),
            tag: 0,
        },
        _ => Ptr { name: None, tag: 0 },
    }
}

/// A schedule: participant 0 loads the pointer, participant 1 replaces the value and does all that it can to have the
/// old one destroyed, and only then participant 0 reads what it loaded. Returns what it read, and what it reads by the
/// same pointer after it has unpinned, participant 1 has flushed, and it has pinned again.
///
/// `NoMemory`: an allocation was refused.
pub fn read_late(alloc: Global) -> Result<(Reply, Reply), Fault> {
    let mut structure = Replaceable::new(alloc)?;
    structure.replace(1, 10)?;
    structure.call(0, Call::Pin)?;
    let loaded = structure.load(0)?;
    structure.replace(1, 20)?;
    for _ in 0..4 {
        structure.flush(1)?;
    }
    let first = structure.read(0, loaded)?;
    structure.call(0, Call::Unpin(GUARD))?;
    for _ in 0..4 {
        structure.flush(1)?;
    }
    structure.call(0, Call::Pin)?;
    let second = structure.read(0, loaded)?;
    Ok((first, second))
}
