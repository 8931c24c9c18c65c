//! A store that begins with 64 cells and grows while threads read: how long each placing takes, call by call.
ghost use Rattle.std.specs.Prelude.{◌≡◌};

use crate::lent::{LentOwn, cells_in, made_for, store_of};
use crate::side::{RoundPart, RoundPlan, Side, all_rounds};
use crate::small::Small;
use crate::stopwatch::{Nanos, since};
use epoch_atomic::atomic::{Atomic, Shared};
use epoch_lend::domain::Domain;
use epoch_lend::readers::posts::{Made, PostSet, Posts};
use epoch_lend::session::LendingGuard;
use epoch_lend_pointers::Store;
use std::alloc::{AllocError, Global};
use std::io;
use std::marker::Brand;
use std::sync::Wait;
use std::sync::atomic::Ordering::SeqCst;
use std::sync::atomic::{AtomicBool, AtomicU64};
use std::thread::Threads;
use std::time::{Clock, Instant};

/// How many of the values that were placed last readers look at.
const SHOWN: u64 = 1_024;

/// How many steps of ten nanoseconds are told apart.
const STEPS: u64 = 10_000;

/// Cells beside those of the values.
const SPARE: u64 = 4_096;

/// How long placings took: how many of them took so many steps of ten nanoseconds.
#[derive(Drop)]
struct Taken {
    steps: Vec<AtomicU64>,
    longest: AtomicU64,
}

impl Taken {
    fn new(alloc: Global) -> Result<Taken, AllocError> {
        let mut steps = Vec::new(alloc);
        for _ in 0..STEPS {
            steps.push(AtomicU64::new(0))?;
        }
        let longest = AtomicU64::new(0);
        Ok(Taken { steps, longest })
    }

    fn note(&self, nanos: u64) {
        self.longest.fetch_max(nanos, SeqCst);
        let step = (nanos / 10).min(STEPS - 1);
        if let Some(count) = self.steps.get(step as usize) {
            count.fetch_add(1, SeqCst);
        }
    }

    /// The nanoseconds that so many of the placings took at most.
    fn of(&self, count: u64) -> u64 {
        let mut seen: u64 = 0;
        let mut nanos: u64 = 0;
        for step in self.steps.as_slice() {
            nanos = nanos.wrapping_add(10);
            seen = seen.saturating_add(step.load(SeqCst));
            if seen >= count {
                break;
            }
        }
        nanos
    }
}

/// A store that grows, and what its threads tell each other.
#[derive(Drop)]
struct Growing<'q, 's, J: PostSet> {
    alloc: Global,
    store: &'q Store<'s, J, Small>,
    shown: Vec<Atomic<Small>>,
    taken: Taken,
    is_over: AtomicBool,
    torn: AtomicU64,
}

impl<'s, J: PostSet> Growing<'_, 's, J> {
    fn new<'q>(
        alloc: Global,
        store: &'q Store<'s, J, Small>,
    ) -> Result<Growing<'q, 's, J>, AllocError> {
        let mut shown = Vec::new(alloc);
        for _ in 0..SHOWN {
            shown.push(Atomic::null()).map_err(|_| AllocError)?;
        }
        Ok(Growing {
            alloc,
            store,
            shown,
            taken: Taken::new(alloc)?,
            is_over: AtomicBool::new(false),
            torn: AtomicU64::new(0),
        })
    }

    /// Looks at all values that are shown, and counts those that aren't whole.
    fn look_at_all(&self, guard: &LendingGuard<'_, J>) {
        let store = self.store;
        for shown in self.shown.as_slice() {
            if let Some(value) = store.get(shown.load_at(SeqCst, store.home()), guard) {
                if !value.is_whole() {
                    self.torn.fetch_add(1, SeqCst);
                }
            }
        }
    }

    fn show(&self, number: u64, pointer: Shared<'_, Small>) {
        if let Some(shown) = self.shown.get((number % SHOWN) as usize) {
            shown.store_at(pointer, SeqCst);
        }
    }
}

impl<'q, 's, J: PostSet> LentOwn<'q, 's, J, Small> {
    fn place_one(&mut self, growing: &Growing<'q, 's, J>, number: u64) -> bool {
        let guard = self.session.pin();
        let is_placed = match self.writer.place(&guard, Small::of(number)) {
            Ok(pointer) => {
                growing.show(number, pointer);
                true
            }
            Err(_) => false,
        };
        self.session.unpin(guard);
        is_placed
    }

    fn place_all<R: Clock>(&mut self, rt: &R, growing: &Growing<'q, 's, J>, turns: u64) -> u64 {
        let mut placed: u64 = 0;
        for number in 0..turns {
            let start = Instant::now(rt);
            let is_placed = self.place_one(growing, number);
            growing.taken.note(since(rt, start));
            placed = placed.wrapping_add(u64::from(is_placed));
        }
        growing.is_over.store(true, SeqCst);
        placed
    }

    fn look_once(&mut self, growing: &Growing<'q, 's, J>) {
        let guard = self.session.pin();
        growing.look_at_all(&guard);
        self.session.unpin(guard);
    }

    fn look_on<R: Wait>(&mut self, rt: &R, growing: &Growing<'q, 's, J>) {
        for _ in rt.forever() {
            if growing.is_over.load(SeqCst) {
                return;
            }
            self.look_once(growing);
        }
        unreachable!()
    }
}

impl<'q, 's, J: PostSet + Send + Sync> Side for Growing<'q, 's, J> {
    type Own = LentOwn<'q, 's, J, Small>;

    fn join(&self) -> Option<LentOwn<'q, 's, J, Small>> {
        LentOwn::join(self.alloc, self.store)
    }

    fn turns<R: Clock + Wait>(
        &self,
        rt: &R,
        own: &mut LentOwn<'q, 's, J, Small>,
        part: RoundPart,
    ) -> u64 {
        if part.thread == 0 {
            return own.place_all(rt, self, part.turns);
        }
        own.look_on(rt, self);
        0
    }

    fn leave<R: Wait>(&self, rt: &R, own: LentOwn<'q, 's, J, Small>) {
        own.leave(rt);
    }
}

fn grow_in<R: Clock + Print + Threads + Wait + Sync, J: PostSet + Send + Sync>(
    rt: &R,
    alloc: Global,
    plan: RoundPlan,
    store: &Store<'_, J, Small>,
) -> io::Result<()> {
    let growing = Growing::new(alloc, store)?;
    let placed = all_rounds(rt, plan, &growing, &mut [Nanos(0)]);
    let torn = growing.torn.load(SeqCst);
    println!(rt; "growth: {placed} of {} placed, {torn} torn", plan.turns)?;
    if plan.threads > 1 {
        let half = growing.taken.of(placed / 2);
        let most = growing.taken.of(placed / 1_000 * 999);
        let longest = growing.taken.longest.load(SeqCst);
        println!(rt; "ns: half within {half}, 999 of 1,000 within {most}, the longest {longest}")?;
    }
    Ok(())
}

fn grow_over<R: Clock + Print + Threads + Wait + Sync, J: PostSet + Send + Sync>(
    rt: &R,
    alloc: Global,
    made: Made,
    plan: RoundPlan,
) -> io::Result<()>
    requires { made.posts.items ≡ J.posts }
{
    let domain = Domain::new(Posts::<J>::of(alloc, made)?);
    let count = u32::try_from(plan.turns.saturating_add(SPARE)).unwrap_or(u32::MAX);
    let mut cells = cells_in(alloc, 0, count, &domain)?;
    let store = store_of(alloc, &domain, &mut cells)?;
    let done = grow_in(rt, alloc, plan, &store);
    let _ = store.end();
    done
}

/// Has one thread place as many values as the plan has turns, while the others look at the last ones. Prints how many
/// were placed and how many were found torn, and, if there are several threads, how long the placings took.
pub fn grow<R: Clock + Print + Threads + Wait + Sync>(
    rt: &R,
    alloc: Global,
    plan: RoundPlan,
) -> io::Result<()> {
    let made = made_for(alloc, plan)?;
    grow_over::<R, Brand>(rt, alloc, made, plan)
}
