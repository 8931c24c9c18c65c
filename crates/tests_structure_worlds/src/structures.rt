//! Structures in the cells of a world, asked and answering in words that are the same for all of them.
ghost use Rattle.std.specs.Prelude.{◌≡◌};
ghost use Rattle.epoch_laws.specs.Shapes.{IsValid};

use epoch_bags::{BagStore, Places};
use epoch_cells::Fault;
use epoch_laws::{Deferral, Shape};
use epoch_structure_laws::map::{MapAnswer, MapWork as MapWork, key_of};
use epoch_structure_laws::queue::{QueueAnswer, QueueWork as QueueWork};
use epoch_structure_worlds::map::MapWorld;
use epoch_structure_worlds::queue::{PlanReply, PlanStep, QueueWorld};
use epoch_structure_worlds::stack::{StackAnswer, StackWork as StackWork, StackWorld};
use std::alloc::Global;
use std::process::Abort;

/// A stack's world over the places of a store.
pub(crate) type Stack = StackWorld<Places<Deferral>>;

/// A queue's world over the places of a store.
pub(crate) type Queue = QueueWorld<Places<Deferral>>;

/// A map's world over the places of a store.
pub(crate) type Map = MapWorld<Places<Deferral>>;

/// What a structure is asked for, in at most so many tries or moves, which are the last number.
#[derive(Clone, Copy)]
pub(crate) enum Asked {
    /// The first node of a queue.
    Build,
    /// A push of this value, or an insert of this entry.
    Put(u64, u64),
    /// A pop, or a removal of the entry of this key. The values of a stack and of a queue have the key 0.
    Take(u64, u64),
    /// A look-up of the entry of this key.
    Find(u64, u64),
}

/// What a step tells.
#[derive(Clone, Copy, Debug, PartialEq)]
pub(crate) enum Told {
    /// A participant got this position.
    Registered(u64),
    Began,
    Stepped,
    /// A removal or another job was called.
    Called,
    /// Another event.
    Event,
    /// A pin is done, whose guard has this number.
    Pinned(u64),
    /// An end is done, which has called this many jobs.
    Ended(u64),
    Released,
    /// Another plain call is done.
    Done,
    /// A step was refused.
    Refused(Fault),
    Built,
    /// The value or entry is in the structure now.
    PutIn,
    /// This value or entry was taken out.
    TookOut(u64),
    /// This entry is in the map.
    Found(u64),
    /// This entry of the same key is in the map, and the other wasn't put there.
    AlreadyThere(u64),
    /// There is no value, or no entry of the key.
    NoneThere,
    /// Nothing was done.
    Failed(Fault),
    /// Some cell is never free again.
    Leaks,
}

/// What a step did to the structure.
#[derive(Clone, Copy)]
pub(crate) enum Effect {
    /// Nothing, or the structure doesn't tell it.
    Untold,
    /// The call took effect, or found what it will answer.
    Decided,
    /// The call took a node out of reach that another call had marked.
    Helped,
}

/// How many participants and cells a world has, and how many bags of how many jobs.
#[derive(Clone, Copy)]
pub(crate) struct Sizes {
    pub participants: u64,
    pub cells: u64,
    pub bags: u64,
    pub bag_jobs: u64,
}

/// A structure in the cells of a world.
pub(crate) trait Structure: Sized + Drop {
    type Work: Copy;

    type Answer: Copy;

    /// A new structure, whose world has these sizes. No participant is registered.
    fn made(rt: &impl Abort, alloc: Global, sizes: Sizes) -> Result<Self, Fault>;

    fn work(asked: Asked) -> Self::Work;

    fn told(answer: Self::Answer) -> Told;

    /// Takes one step.
    fn take(&mut self, step: PlanStep<Self::Work>) -> PlanReply<Self::Answer>;

    /// What the last step did to the structure.
    fn effect(&self) -> Effect {
        Effect::Untold
    }
}

/// The numbers of a world of these sizes with one field a cell.
pub(crate) fn shape_of(rt: &impl Abort, sizes: Sizes, roots: u64, align: u64) -> Shape
    ensures valid { IsValid result }
    ensures roots { result.roots ≡ roots }
    ensures fields { result.fields ≡ 1 }
    ensures align { result.align ≡ align }
{
    let shape = Shape {
        bags: sizes.bags,
        bag_jobs: sizes.bag_jobs,
        align,
        ..Shape::usual(sizes.participants, sizes.cells, roots, 1)
    };
    assert!(rt; shape.is_valid(), "each number is in its range");
    shape
}

impl<S: BagStore<Job = Deferral>> Structure for StackWorld<S> {
    type Work = StackWork;

    type Answer = StackAnswer;

    fn made(rt: &impl Abort, alloc: Global, sizes: Sizes) -> Result<StackWorld<S>, Fault> {
        StackWorld::new(alloc, shape_of(rt, sizes, 1, 8))
    }

    // A stack is asked for pushes and pops alone.
    fn work(asked: Asked) -> StackWork {
        match asked {
            Asked::Put(value, tries) => StackWork::Push(value, tries),
            Asked::Take(_, tries) | Asked::Find(_, tries) => StackWork::Pop(tries),
            Asked::Build => StackWork::Pop(0),
        }
    }

    fn told(answer: StackAnswer) -> Told {
        match answer {
            StackAnswer::Pushed => Told::PutIn,
            StackAnswer::Popped(value) => Told::TookOut(value),
            StackAnswer::Empty => Told::NoneThere,
            StackAnswer::Failed(fault) => Told::Failed(fault),
        }
    }

    fn take(&mut self, step: PlanStep<StackWork>) -> PlanReply<StackAnswer> {
        self.step(step)
    }
}

/// What a queue is asked for: its first node, pushes and pops alone.
pub(crate) fn queue_work(asked: Asked) -> QueueWork {
    match asked {
        Asked::Build => QueueWork::Build,
        Asked::Put(value, tries) => QueueWork::Push(value, tries),
        Asked::Take(_, tries) | Asked::Find(_, tries) => QueueWork::Pop(tries),
    }
}

pub(crate) fn queue_told(answer: QueueAnswer) -> Told {
    match answer {
        QueueAnswer::Built => Told::Built,
        QueueAnswer::Pushed => Told::PutIn,
        QueueAnswer::Popped(value) => Told::TookOut(value),
        QueueAnswer::Empty => Told::NoneThere,
        QueueAnswer::TriesOut => Told::Failed(Fault::TriesOut),
        QueueAnswer::CellsFull => Told::Failed(Fault::CellsFull),
        QueueAnswer::BagsFull => Told::Failed(Fault::BagsFull),
        QueueAnswer::PoppedLeaking(_) | QueueAnswer::TriesOutLeaking => Told::Leaks,
    }
}

impl<S: BagStore<Job = Deferral>> Structure for QueueWorld<S> {
    type Work = QueueWork;

    type Answer = QueueAnswer;

    fn made(rt: &impl Abort, alloc: Global, sizes: Sizes) -> Result<QueueWorld<S>, Fault> {
        QueueWorld::new(alloc, shape_of(rt, sizes, 2, 8))
    }

    fn work(asked: Asked) -> QueueWork {
        queue_work(asked)
    }

    fn told(answer: QueueAnswer) -> Told {
        queue_told(answer)
    }

    fn take(&mut self, step: PlanStep<QueueWork>) -> PlanReply<QueueAnswer> {
        self.step(step)
    }
}

/// The key of what is asked for.
pub(crate) fn key_asked(asked: Asked) -> u64 {
    match asked {
        Asked::Build => 0,
        Asked::Put(entry, _) => key_of(entry),
        Asked::Take(key, _) | Asked::Find(key, _) => key,
    }
}

/// What a map of two buckets is asked for: even keys are in the first, odd ones in the second.
pub(crate) fn map_work(asked: Asked) -> MapWork {
    let key = key_asked(asked);
    match asked {
        Asked::Put(entry, moves) => MapWork::Insert(key % 2, entry, moves),
        Asked::Take(_, moves) => MapWork::Remove(key % 2, key, moves),
        Asked::Find(_, moves) => MapWork::Get(key % 2, key, moves),
        Asked::Build => MapWork::Get(0, 0, 0),
    }
}

pub(crate) fn map_told(answer: MapAnswer) -> Told {
    match answer {
        MapAnswer::Inserted => Told::PutIn,
        MapAnswer::Removed(entry) => Told::TookOut(entry),
        MapAnswer::Found(entry) => Told::Found(entry),
        MapAnswer::AlreadyThere(entry) => Told::AlreadyThere(entry),
        MapAnswer::NotFound => Told::NoneThere,
        MapAnswer::MovesOut => Told::Failed(Fault::TriesOut),
        MapAnswer::CellsFull => Told::Failed(Fault::CellsFull),
        MapAnswer::BagsFull => Told::Failed(Fault::BagsFull),
        _ => Told::Leaks,
    }
}

impl Structure for Map {
    type Work = MapWork;

    type Answer = MapAnswer;

    fn made(rt: &impl Abort, alloc: Global, sizes: Sizes) -> Result<Map, Fault> {
        MapWorld::new(alloc, shape_of(rt, sizes, 2, 2))
    }

    fn work(asked: Asked) -> MapWork {
        map_work(asked)
    }

    fn told(answer: MapAnswer) -> Told {
        map_told(answer)
    }

    fn take(&mut self, step: PlanStep<MapWork>) -> PlanReply<MapAnswer> {
        self.step(step)
    }
}
