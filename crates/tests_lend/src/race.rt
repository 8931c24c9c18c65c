//! Readers on several threads, while a writer takes the values of an array back, one after another.
ghost use Rattle.std.specs.Prelude.{◌≡◌, ◌<◌, ◌^◌};

use crate::probes::{Counts, Probe, counts_for, dropped_once};
use crate::wants::want;
use epoch_lend::array::cells::SlotTurn;
use epoch_lend::array::growing::GrowingCells;
use epoch_lend::readers::posts::{Made, PostSet, Posts};
use epoch_lend::readers::reader::Pinned;
use epoch_lend_pointers::store::batch::{Batch, ClearBatch};
use std::alloc::{AllocError, Global};
use std::marker::Brand;
use std::sync::Wait;
use std::sync::atomic::Ordering::SeqCst;
use std::sync::atomic::{AtomicBool, AtomicU64};
use std::test::Fail;
use std::thread;
use std::thread::Threads;

/// As often as a reader reads at most, and the writer tries.
const MOST: u64 = 10_000_000;

/// How many values the writer places in the array.
const VALUES: usize = 2000;

/// How many cells the array has, and how many removals go back together.
const SLOTS: u64 = 8;

const TOGETHER: usize = 4;

/// The word of a spot: the slot in the low digit of base 8, and the turn above it.
fn word_of(spot: SlotTurn) -> u64 {
    spot.turn.wrapping_mul(SLOTS).wrapping_add(spot.slot as u64)
}

fn spot_of(word: u64) -> SlotTurn {
    SlotTurn {
        slot: (word % SLOTS) as usize,
        turn: word / SLOTS,
    }
}

/// What readers and the writer tell each other.
#[derive(Drop)]
struct Course {
    counts: Counts,
    // The word of the spot that readers look at.
    root: AtomicU64,
    epoch: AtomicU64,
    is_over: AtomicBool,
    // How many values readers found, and how many of them were dropped before, or not as they were made.
    found: AtomicU64,
    torn: AtomicU64,
    // How many values were placed in the array.
    placed: AtomicU64,
}

impl Course {
    fn new(counts: Counts) -> Course {
        Course {
            counts,
            root: AtomicU64::new(0),
            epoch: AtomicU64::new(2),
            is_over: AtomicBool::new(false),
            found: AtomicU64::new(0),
            torn: AtomicU64::new(0),
            placed: AtomicU64::new(0),
        }
    }

    fn epoch(&self) -> u64
        ensures { result < 2 ^ 63 }
    {
        self.epoch.load(SeqCst) / 2
    }

    /// Counts what was found.
    fn tell(&self, found: Option<&Probe>) {
        if let Some(probe) = found {
            self.found.fetch_add(1, SeqCst);
            if !probe.is_whole() {
                self.torn.fetch_add(1, SeqCst);
            }
        }
    }
}

/// Looks at the value of this spot.
fn seen_at<'g, J: PostSet>(
    cells: &GrowingCells<J, Probe>,
    spot: SlotTurn,
    pinned: &'g Pinned<'_, J>,
) -> Option<&'g Probe> {
    match cells.look(spot, pinned) {
        Some(sight) => Some(sight.value),
        None => None,
    }
}

/// Pins, looks at what the root names, reads and unpins, until it is over.
fn read_on<J: PostSet>(posts: &Posts<J>, cells: &GrowingCells<J, Probe>, course: &Course) {
    let Some(first) = posts.register() else {
        return;
    };
    let mut reader = first;
    for _ in 0..MOST {
        if course.is_over.load(SeqCst) {
            break;
        }
        let pinned = reader.pin(course.epoch());
        course.tell(seen_at(cells, spot_of(course.root.load(SeqCst)), &pinned));
        reader = pinned.unpin();
    }
    reader.release();
}

/// Goes on to later epochs and tries to take the values of the batch back, until they come.
fn take_bag_back<J: PostSet>(bag: Batch<'_, J, Probe>, posts: &Posts<J>, course: &Course) {
    let mut kept = bag.seal(posts);
    for _ in 0..MOST {
        course.epoch.fetch_add(2, SeqCst);
        match kept.take_back(posts) {
            Ok(clear) => {
                tell_all(clear, course);
                return;
            }
            Err(again) => kept = again,
        }
        thread::yield_now();
    }
    kept.abandon();
}

/// Counts what came back.
fn tell_all<J: PostSet>(clear: ClearBatch<'_, J, Probe>, course: &Course) {
    let mut rest = clear;
    while let Some((probe, _)) = rest.next() {
        course.tell(Some(&probe));
    }
    rest.finish();
}

/// Marks the value at this spot, and puts it into the batch.
fn retire<'c, J: PostSet>(
    cells: &'c GrowingCells<J, Probe>,
    bag: &mut Batch<'c, J, Probe>,
    old: Option<SlotTurn>,
) {
    let Some(spot) = old else {
        return;
    };
    if bag.has_room() {
        if let Some(marked) = cells.mark(spot) {
            bag.push(marked.found);
        }
    }
}

/// Places one value, and names it in the root. Returns its spot, or the old one if no cell is free.
fn placed<J: PostSet>(
    cells: &GrowingCells<J, Probe>,
    old: Option<SlotTurn>,
    number: usize,
    course: &Course,
) -> Option<SlotTurn> {
    for slot in 0..cells.limit() {
        let Some(fresh) = cells.fresh_room(slot) else {
            continue;
        };
        let Ok(placed) = fresh.found.place(Probe::new(number, &course.counts)) else {
            return old;
        };
        course.placed.fetch_add(1, SeqCst);
        course.root.store(word_of(placed.spot), SeqCst);
        return Some(placed.spot);
    }
    old
}

/// Places all values, one after another, and takes each back while readers go on.
fn replace_all<J: PostSet>(
    alloc: Global,
    posts: &Posts<J>,
    cells: &GrowingCells<J, Probe>,
    course: &Course,
) -> Result<(), AllocError> {
    let mut bag = Batch::with_capacity(alloc, TOGETHER)?;
    let mut old = None;
    for number in 0..VALUES {
        let spot = placed(cells, old, number, course);
        retire(cells, &mut bag, old);
        old = spot;
        if bag.len() >= TOGETHER {
            take_bag_back(bag, posts, course);
            bag = Batch::with_capacity(alloc, TOGETHER)?;
        }
    }
    retire(cells, &mut bag, old);
    take_bag_back(bag, posts, course);
    Ok(())
}

fn run_at_once<J: PostSet + Send + Sync, R: Threads + Wait>(
    rt: &R,
    alloc: Global,
    readers: usize,
    posts: &Posts<J>,
    cells: &GrowingCells<J, Probe>,
    course: &Course,
) {
    thread::scope(thread::scope_env(), rt, |scope| {
        for _ in 0..readers {
            let _ = scope.spawn(move || read_on(posts, cells, course));
        }
        let _ = replace_all(alloc, posts, cells, course);
        course.is_over.store(true, SeqCst);
    });
}

fn start<J: PostSet + Send + Sync, R: Threads + Wait>(
    rt: &R,
    alloc: Global,
    made: Made,
    readers: usize,
    course: &Course,
) -> Result<(), AllocError>
    requires { made.posts.items ≡ J.posts }
{
    let posts = Posts::<J>::of(alloc, made)?;
    let cells = GrowingCells::new(alloc, 8, 8, u64::MAX, &posts)?;
    run_at_once(rt, alloc, readers, &posts, &cells, course);
    Ok(())
}

/// Has this many readers and a writer run.
fn begin<R: Threads + Wait>(
    rt: &R,
    alloc: Global,
    readers: usize,
    course: &Course,
) -> Result<(), AllocError> {
    let made = Made::new(alloc, readers.saturating_add(1))?;
    start::<Brand, R>(rt, alloc, made, readers, course)
}

#[test]
fn each_value_comes_back_once_while_readers_go_on(rt: HostRuntime) -> Result<(), Fail> {
    for readers in 1..5usize {
        let alloc = rt.alloc();
        let course = Course::new(counts_for(alloc, VALUES)?);
        begin(&rt, alloc, readers, &course)?;
        let placed = course.placed.load(SeqCst);
        want(&rt, "all are placed", placed, VALUES as u64);
        let back = dropped_once(&course.counts);
        want(
            &rt,
            "each comes back and is dropped once",
            back,
            VALUES as u64,
        );
        let torn = course.torn.load(SeqCst);
        want(&rt, "readers find whole values alone", torn, 0);
    }
    Ok(())
}
