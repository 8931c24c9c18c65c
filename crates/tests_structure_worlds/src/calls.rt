//! Steps of a structure, and rows of what they have to tell.
use crate::structures::{Asked, Sizes, Structure, Told};
use crate::wants::want;
use epoch_laws::Reply;
use epoch_laws::heap::AccessAnswer;
use epoch_structure_worlds::plans::{PlainCall, PlanReply, PlanStep};
use std::alloc::Global;
use std::process::Abort;

/// More steps than any call takes.
pub(crate) const MANY: u64 = 10_000;

/// What is done next.
#[derive(Clone, Copy)]
pub(crate) enum Act {
    /// Takes the lowest free position.
    Join,
    /// Begins a call of the structure by this participant, under its guard of this number.
    Begin(u64, u64, Asked),
    /// Begins a plain call of this participant.
    BeginPlain(u64, PlainCall),
    /// Takes one step of this participant.
    Go(u64),
    /// Takes steps of this participant, as many as the second number says. They tell nothing.
    Steps(u64, u64),
    /// Takes the steps that are left of this participant's call.
    Rest(u64),
    /// A call of the structure by this participant under its guard 0, to its end.
    Whole(u64, Asked),
    /// A plain call of this participant, to its end.
    Plain(u64, PlainCall),
    /// The end of the world, to its end.
    EndAll,
}

/// What a row shows, what is done, and what its last step has to tell.
pub(crate) type Row = (&'static str, Act, Told);

/// What a reply of the world tells.
fn told_by_world(reply: Reply) -> Told {
    match reply {
        Reply::Registered(participant) => Told::Registered(participant),
        Reply::Began => Told::Began,
        Reply::Stepped => Told::Stepped,
        Reply::Called(_, _) => Told::Called,
        Reply::Done(AccessAnswer::Guard(guard)) => Told::Pinned(guard),
        Reply::Done(AccessAnswer::Count(count)) => Told::Ended(count),
        Reply::Done(AccessAnswer::Released) => Told::Released,
        Reply::Done(_) => Told::Done,
        Reply::Refused(fault) => Told::Refused(fault),
        _ => Told::Event,
    }
}

/// What a reply tells.
pub(crate) fn told<X: Structure>(reply: PlanReply<X::Answer>) -> Told {
    match reply {
        PlanReply::World(reply) => told_by_world(reply),
        PlanReply::Answered(answer) => X::told(answer),
    }
}

/// Takes one step.
pub(crate) fn step<X: Structure>(structure: &mut X, step: PlanStep<Asked>) -> Told {
    let asked = match step {
        PlanStep::Register => PlanStep::Register,
        PlanStep::Begin(participant, call) => PlanStep::Begin(participant, call),
        PlanStep::Ask(participant, guard, asked) => PlanStep::Ask(
            participant,
            guard,
            X::work(asked),
        ),
        PlanStep::Go(participant) => PlanStep::Go(participant),
        PlanStep::End => PlanStep::End,
        PlanStep::EndGo => PlanStep::EndGo,
    };
    told::<X>(structure.take(asked))
}

/// Whether a call is over that tells this.
pub(crate) fn is_over(told: Told) -> bool {
    match told {
        Told::Began | Told::Stepped | Told::Called | Told::Event => false,
        _ => true,
    }
}

/// Takes the first step, and then the other one until the call is over. Returns what was told last.
fn to_end<X: Structure>(structure: &mut X, first: PlanStep<Asked>, then: PlanStep<Asked>) -> Told {
    let mut told = step(structure, first);
    for _ in 0..MANY {
        if is_over(told) {
            return told;
        }
        told = step(structure, then);
    }
    told
}

/// Takes this many steps of the participant, up to the first that tells something. Returns what was told last.
fn go_on<X: Structure>(structure: &mut X, participant: u64, steps: u64) -> Told {
    for _ in 0..steps {
        let told = step(structure, PlanStep::Go(participant));
        if told != Told::Stepped {
            return told;
        }
    }
    Told::Stepped
}

/// Does this. Returns what was told last.
pub(crate) fn perform<X: Structure>(structure: &mut X, act: Act) -> Told {
    match act {
        Act::Join => step(structure, PlanStep::Register),
        Act::Begin(participant, guard, asked) => step(
            structure,
            PlanStep::Ask(participant, guard, asked),
        ),
        Act::BeginPlain(participant, call) => step(structure, PlanStep::Begin(participant, call)),
        Act::Go(participant) => step(structure, PlanStep::Go(participant)),
        Act::Steps(participant, steps) => go_on(structure, participant, steps),
        Act::Rest(participant) => {
            let go = PlanStep::Go(participant);
            to_end(structure, go, go)
        }
        Act::Whole(participant, asked) => {
            let ask = PlanStep::Ask(participant, 0, asked);
            to_end(structure, ask, PlanStep::Go(participant))
        }
        Act::Plain(participant, call) => {
            let begin = PlanStep::Begin(participant, call);
            to_end(structure, begin, PlanStep::Go(participant))
        }
        Act::EndAll => to_end(structure, PlanStep::End, PlanStep::EndGo),
    }
}

/// This has to be told where this is done.
pub(crate) fn want_told<X: Structure>(rt: &impl Abort, structure: &mut X, (what, done, told): Row) {
    want(rt, what, perform(structure, done), told);
}

/// Goes through the rows of each table.
pub(crate) fn play_on<X: Structure>(rt: &impl Abort, structure: &mut X, tables: &[&[Row]]) {
    for rows in tables {
        for row in *rows {
            want_told(rt, structure, *row);
        }
    }
}

/// The sizes of a world with this many participants and cells, and four bags of 64 jobs.
pub(crate) fn sizes(participants: u64, cells: u64) -> Sizes {
    Sizes {
        participants,
        cells,
        bags: 4,
        bag_jobs: 64,
    }
}

/// A new structure. Memory is there: an error's way out of a test would be proved beside all that it owns.
pub(crate) fn made<X: Structure>(rt: &impl Abort, alloc: Global, sizes: Sizes) -> X {
    X::made(rt, alloc, sizes).expect(rt, "memory for a structure")
}

/// Goes through the rows of each table with a new structure.
pub(crate) fn play<X: Structure>(rt: &impl Abort, alloc: Global, sizes: Sizes, tables: &[&[Row]]) {
    let mut structure: X = made(rt, alloc, sizes);
    play_on(rt, &mut structure, tables);
}

/// A participant gets the position 0, and is pinned by its guard 0.
pub(crate) const FIRST: &[Row] = &[
    ("a registration", Act::Join, Told::Registered(0)),
    ("a pin", Act::Plain(0, PlainCall::Pin), Told::Pinned(0)),
];

/// Another participant gets the position 1, and is pinned by its guard 0.
pub(crate) const SECOND: &[Row] = &[
    ("another registration", Act::Join, Told::Registered(1)),
    (
        "another pin",
        Act::Plain(1, PlainCall::Pin),
        Told::Pinned(0),
    ),
];

/// A third participant gets the position 2, and is pinned by its guard 0.
pub(crate) const THIRD: &[Row] = &[
    ("a third registration", Act::Join, Told::Registered(2)),
    (
        "a third pin",
        Act::Plain(2, PlainCall::Pin),
        Told::Pinned(0),
    ),
];

/// A queue gets its first node.
pub(crate) const BUILT: &[Row] = &[("the first node", Act::Whole(0, Asked::Build), Told::Built)];
