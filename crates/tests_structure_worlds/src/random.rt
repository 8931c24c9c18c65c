//! Random runs of three participants over one structure, step by step, beside a list or a table of entries.
use crate::calls::{Act, MANY, Row, is_over, made, perform, play_on, want_told};
use crate::orders::{Order, Past, fit};
use crate::structures::{Asked, Effect, Sizes, Structure, Told};
use crate::wants::want;
use epoch_structure_worlds::plans::PlainCall;
use std::alloc::Global;
use std::process::Abort;

/// How many participants there are.
const PARTICIPANTS: u64 = 3;

/// What an entry of a key begins with: its key stands above 32 bits of its value.
pub(crate) const KEY: u64 = 4_294_967_296;

/// Numbers that look random: Marsaglia's xorshift with 13, 7 and 17.
#[derive(Drop)]
struct Draws {
    state: u64,
}

impl Draws {
    /// A number below this one, which isn't 0.
    fn below(&mut self, bound: u64) -> u64 {
        self.state ^= self.state.wrapping_shl(13);
        self.state ^= self.state.wrapping_shr(7);
        self.state ^= self.state.wrapping_shl(17);
        self.state.checked_rem(bound).unwrap_or(0)
    }
}

/// What the runs of one kind have in common.
#[derive(Clone, Copy)]
pub(crate) struct Course {
    /// Which of the values of one key a call takes.
    pub order: Order,
    /// What is done before the calls begin.
    pub before: &'static [&'static [Row]],
    /// How many calls a run begins.
    pub calls: u64,
    /// How many keys there are.
    pub keys: u64,
    /// Each call has fewer tries or moves than this.
    pub tries: u64,
    /// Two kinds of calls in this many put something in, and two take something out. A fifth looks it up.
    pub kinds: u64,
    /// The fewest cells of a run, and how many numbers of cells there are.
    pub cells: (u64, u64),
    /// Room for each bag that a run puts, and how many jobs a bag holds.
    pub bags: u64,
    pub bag_jobs: u64,
    /// Whether a participant renews its pin before each call.
    pub renews: bool,
}

/// How often something was seen in runs.
#[derive(Clone, Copy)]
pub(crate) struct Counts {
    /// Calls that have put something in.
    pub put_in: u64,
    /// Calls that have taken something out.
    pub taken_out: u64,
    /// Calls that have done or found something, and how many of them told at which step.
    pub over: u64,
    pub decided: u64,
    /// Nodes that were taken out of reach by calls that hadn't marked them.
    pub helped: u64,
    /// Removals that were called before the end.
    pub removed: u64,
}

/// A call under way: what it is asked for, the number of its first step, and that of the step at which it took effect.
#[derive(Clone, Copy)]
struct UnderWay {
    asked: Asked,
    begun: u64,
    decided: Option<u64>,
}

/// What is known of a run: the calls that are over, those under way, how many steps were taken and calls begun, and
/// what was seen.
#[derive(Drop)]
struct Run {
    past: Vec<Past>,
    under_way: [Option<UnderWay>; 3],
    steps: u64,
    begun: u64,
    counts: Counts,
}

/// One more.
fn count(number: &mut u64) {
    *number = number.wrapping_add(1);
}

/// What a call is asked for that puts in this value, if it puts one in.
fn draw(course: &Course, draws: &mut Draws, value: u64) -> Asked {
    let key = draws.below(course.keys);
    let tries = draws.below(course.tries);
    match draws.below(course.kinds) {
        0 | 1 => Asked::Put(key.wrapping_mul(KEY).wrapping_add(value), tries),
        2 | 3 => Asked::Take(key, tries),
        _ => Asked::Find(key, tries),
    }
}

/// Makes the plain call, to its end. Counts the removals that it calls.
fn call_plain<X: Structure>(
    rt: &impl Abort,
    structure: &mut X,
    counts: &mut Counts,
    participant: u64,
    call: PlainCall,
) {
    let mut told = perform(structure, Act::BeginPlain(participant, call));
    for _ in 0..MANY {
        match told {
            Told::Done | Told::Pinned(_) => return,
            Told::Called => count(&mut counts.removed),
            _ => {}
        }
        told = perform(structure, Act::Go(participant));
    }
    panic!(rt; "a plain call isn't done: {told:?}")
}

/// A participant with no call under way flushes, and leaves its pin for a new one: what was taken out may be destroyed,
/// and its cells taken again, while calls of others are under way.
fn renew_pin<X: Structure>(
    rt: &impl Abort,
    structure: &mut X,
    counts: &mut Counts,
    participant: u64,
) {
    call_plain(
        rt,
        structure,
        counts,
        participant,
        PlainCall::Flush(Some(0)),
    );
    call_plain(
        rt,
        structure,
        counts,
        participant,
        PlainCall::Unpin(Some(0)),
    );
    call_plain(rt, structure, counts, participant, PlainCall::Pin);
}

/// Begins a call of a participant.
fn begin<X: Structure>(
    rt: &impl Abort,
    structure: &mut X,
    begun: u64,
    participant: u64,
    asked: Asked,
) -> UnderWay {
    let row = (
        "a call begins",
        Act::Begin(participant, 0, asked),
        Told::Began,
    );
    want_told(rt, structure, row);
    UnderWay {
        asked,
        begun,
        decided: None,
    }
}

/// Begins another call of a participant, if there is one.
fn begin_next<X: Structure>(
    rt: &impl Abort,
    structure: &mut X,
    course: &Course,
    run: &mut Run,
    draws: &mut Draws,
    participant: u64,
) -> Option<UnderWay> {
    if run.begun >= course.calls {
        return None;
    }
    if course.renews {
        renew_pin(rt, structure, &mut run.counts, participant);
    }
    count(&mut run.begun);
    let asked = draw(course, draws, run.begun);
    Some(begin(rt, structure, run.steps, participant, asked))
}

/// Counts what a call did that is over.
fn count_over(counts: &mut Counts, call: UnderWay, told: Told) {
    match told {
        Told::PutIn => count(&mut counts.put_in),
        Told::TookOut(_) => count(&mut counts.taken_out),
        Told::Failed(_) => return,
        _ => {}
    }
    count(&mut counts.over);
    if call.decided.is_some() {
        count(&mut counts.decided);
    }
}

/// The call is over and tells this. It took effect at one step, if that is known, or else at any of its steps.
fn add_past(rt: &impl Abort, run: &mut Run, call: UnderWay, told: Told) {
    count_over(&mut run.counts, call, told);
    let past = Past {
        asked: call.asked,
        told,
        begun: call.decided.unwrap_or(call.begun),
        ended: call.decided.unwrap_or(run.steps),
    };
    let pushed = run.past.push(past).is_ok();
    want(rt, "memory for a call that is over", pushed, true);
}

/// Takes one step of a call under way. Returns the call, if it goes on.
fn go_on<X: Structure>(
    rt: &impl Abort,
    structure: &mut X,
    run: &mut Run,
    participant: u64,
    mut call: UnderWay,
) -> Option<UnderWay> {
    count(&mut run.steps);
    let told = perform(structure, Act::Go(participant));
    match structure.effect() {
        Effect::Untold => {}
        Effect::Decided => call.decided = Some(run.steps),
        Effect::Helped => count(&mut run.counts.helped),
    }
    if !is_over(told) {
        return Some(call);
    }
    add_past(rt, run, call, told);
    None
}

/// One step of a participant: of its call under way, or the begin of another.
fn take_step<X: Structure>(
    rt: &impl Abort,
    structure: &mut X,
    course: &Course,
    run: &mut Run,
    draws: &mut Draws,
) {
    let participant = draws.below(PARTICIPANTS);
    let index = participant as usize;
    let call = match run.under_way.get(index).copied().flatten() {
        None => begin_next(rt, structure, course, run, draws, participant),
        Some(call) => go_on(rt, structure, run, participant, call),
    };
    if let Some(place) = run.under_way.get_mut(index) {
        *place = call;
    }
}

/// Whether all calls were begun, and none is under way.
fn is_done(course: &Course, run: &Run) -> bool {
    let [first, second, third] = run.under_way;
    run.begun >= course.calls && first.is_none() && second.is_none() && third.is_none()
}

/// Takes steps of participants until all calls are over.
fn take_steps<X: Structure>(
    rt: &impl Abort,
    structure: &mut X,
    course: &Course,
    run: &mut Run,
    draws: &mut Draws,
) {
    for _ in 0..MANY {
        if is_done(course, run) {
            return;
        }
        take_step(rt, structure, course, run, draws);
    }
    panic!(rt; "some call comes to no end")
}

/// A call of the participant 0, with no other one at work. Returns what it tells.
fn call_alone<X: Structure>(
    rt: &impl Abort,
    structure: &mut X,
    run: &mut Run,
    asked: Asked,
) -> Option<Told> {
    count(&mut run.steps);
    let mut under_way = Some(begin(rt, structure, run.steps, 0, asked));
    for _ in 0..MANY {
        let Some(call) = under_way else {
            break;
        };
        under_way = go_on(rt, structure, run, 0, call);
    }
    run.past.last().map(|past| past.told)
}

/// Looks each key up, or takes out what is left and sees that nothing is. No other call meets these, so they need two
/// tries at most, and a walk no more moves than there are nodes.
fn look_at_the_rest<X: Structure>(
    rt: &impl Abort,
    structure: &mut X,
    course: &Course,
    run: &mut Run,
) {
    if course.order == Order::Alone {
        for key in 0..course.keys {
            let _ = call_alone(rt, structure, run, Asked::Find(key, 64));
        }
        return;
    }
    for _ in 0..=course.calls {
        let told = call_alone(rt, structure, run, Asked::Take(0, 2));
        if told == Some(Told::NoneThere) {
            return;
        }
    }
    panic!(rt; "more values come off than were pushed")
}

/// The calls of each key fit the values of the key.
fn want_fit(rt: &impl Abort, course: &Course, past: &[Past]) {
    for key in 0..course.keys {
        let fits = fit(past, course.order, key);
        want(rt, "the calls of a key fit its values", fits, true);
    }
}

/// All participants leave.
const LEFT: &[Row] = &[
    (
        "an unpin",
        Act::Plain(0, PlainCall::Unpin(Some(0))),
        Told::Done,
    ),
    (
        "a release",
        Act::Plain(0, PlainCall::Release),
        Told::Released,
    ),
    (
        "an unpin",
        Act::Plain(1, PlainCall::Unpin(Some(0))),
        Told::Done,
    ),
    (
        "a release",
        Act::Plain(1, PlainCall::Release),
        Told::Released,
    ),
    (
        "an unpin",
        Act::Plain(2, PlainCall::Unpin(Some(0))),
        Told::Done,
    ),
    (
        "a release",
        Act::Plain(2, PlainCall::Release),
        Told::Released,
    ),
];

/// Ends the world, which comes to its end.
fn want_ended<X: Structure>(rt: &impl Abort, structure: &mut X) {
    play_on(rt, structure, &[LEFT]);
    let told = perform(structure, Act::EndAll);
    let ended = matches!(told, Told::Ended(_));
    want(rt, "the end comes to its end", ended, true);
}

/// Takes the steps of a run over a new structure: its calls fit a list or a table, whose values are those that are
/// left.
fn take_all<X: Structure>(
    rt: &impl Abort,
    structure: &mut X,
    course: &Course,
    run: &mut Run,
    draws: &mut Draws,
) {
    play_on(rt, structure, course.before);
    take_steps(rt, structure, course, run, draws);
    look_at_the_rest(rt, structure, course, run);
    want_fit(rt, course, &run.past);
    want_ended(rt, structure);
}

/// One run. Returns what was seen.
fn run_once<X: Structure>(
    rt: &impl Abort,
    alloc: Global,
    course: &Course,
    draws: &mut Draws,
    counts: Counts,
) -> Counts {
    let (fewest, numbers) = course.cells;
    let sizes = Sizes {
        participants: PARTICIPANTS,
        cells: draws.below(numbers).wrapping_add(fewest),
        bags: course.bags,
        bag_jobs: course.bag_jobs,
    };
    let mut run = Run {
        past: Vec::new(alloc),
        under_way: [None; 3],
        steps: 0,
        begun: 0,
        counts,
    };
    let mut structure: X = made(rt, alloc, sizes);
    take_all(rt, &mut structure, course, &mut run, draws);
    run.counts
}

/// This many runs, from this state of the draws on. Returns what was seen in all of them.
pub(crate) fn run_often<X: Structure>(
    rt: &impl Abort,
    alloc: Global,
    course: &Course,
    (state, runs): (u64, u64),
) -> Counts {
    let mut draws = Draws { state };
    let mut counts = Counts {
        put_in: 0,
        taken_out: 0,
        over: 0,
        decided: 0,
        helped: 0,
        removed: 0,
    };
    for _ in 0..runs {
        counts = run_once::<X>(rt, alloc, course, &mut draws, counts);
    }
    counts
}
