//! Where lent values are tested: a domain with two stores, and sessions with writers.
ghost use Rattle.std.specs.Prelude.{◌≡◌};

use crate::wants::want;
use epoch_cells::Fault;
use epoch_lend::domain::{Domain, DomainWork, with_domain};
use epoch_lend::readers::posts::{Made, PostSet, Posts};
use epoch_lend::session::{LendingGuard, Session};
use epoch_lend_pointers::{LentCells, Store, Writer};
use std::alloc::Global;
use std::process::Abort;

/// What a call answers: a value, or none, or a fault.
pub(crate) type Told = Result<Option<u64>, Fault>;

/// How many posts there are: one for each of 8 threads, and one more.
const POSTS: usize = 9;

/// As many flushes as drop all that waits after a run of 8 threads. Each tries a few batches, and there are no more
/// batches than cells.
pub(crate) const AFTER_A_RACE: u32 = 400;

/// What is done on one thread with a store of nodes.
pub(crate) trait Scene {
    type Node;

    /// Does it. `others` is another store of the same domain, with two cells.
    fn act<'s, R: Abort, J: PostSet>(
        self,
        rt: &R,
        alloc: Global,
        store: &Store<'s, J, Self::Node>,
        others: &Store<'s, J, Self::Node>,
    );
}

/// A scene, and with how many cells it is played. It leaves this many nodes to the store's end.
#[derive(Drop)]
struct Staged<'t, R, S> {
    rt: &'t R,
    alloc: Global,
    cells: u16,
    left: usize,
    scene: S,
}

impl<R: Abort, S: Scene + Drop> DomainWork for Staged<'_, R, S>
where
    S::Node: Drop,
{
    type Answer = ();

    fn run<J: PostSet + Send + Sync>(self, domain: &Domain<J>) {
        let Staged {
            rt,
            alloc,
            cells,
            left,
            scene,
        } = self;
        let mut cells = cells_in(rt, alloc, domain, cells);
        let mut few = cells_in(rt, alloc, domain, 2);
        let store = store_of(rt, alloc, domain, &mut cells);
        let others = store_of(rt, alloc, domain, &mut few);
        scene.act(rt, alloc, &store, &others);
        want(rt, "nodes of the other store", others.end(), 0);
        want(rt, "how many nodes are left", store.end(), left);
    }
}

/// Plays the scene with a store of this many cells. It leaves this many nodes to the store's end.
pub(crate) fn play<R: Abort, S: Scene + Drop>(
    rt: &R,
    alloc: Global,
    (cells, left): (u16, usize),
    scene: S,
)
where
    S::Node: Drop,
{
    let staged = Staged {
        rt,
        alloc,
        cells,
        left,
        scene,
    };
    with_domain(alloc, POSTS, staged).expect(rt, "memory for posts")
}

/// The posts of a domain in which 8 threads run. They are started in a function over the posts.
pub(crate) fn posts(rt: &impl Abort, alloc: Global) -> Made {
    Made::new(alloc, POSTS).expect(rt, "memory for posts")
}

/// A domain of these posts.
pub(crate) fn domain_over<J: PostSet>(rt: &impl Abort, alloc: Global, made: Made) -> Domain<J>
    requires { made.posts.items ≡ J.posts }
{
    Domain::new(Posts::<J>::of(alloc, made).expect(rt, "memory for posts"))
}

/// This many cells.
pub(crate) fn cells_in<J: PostSet, V: Drop>(
    rt: &impl Abort,
    alloc: Global,
    domain: &Domain<J>,
    cells: u16,
) -> LentCells<J, V> {
    LentCells::new(alloc, u32::from(cells), domain).expect(rt, "memory for cells")
}

/// The store of these cells.
pub(crate) fn store_of<'s, J: PostSet, V: Drop>(
    rt: &impl Abort,
    alloc: Global,
    domain: &'s Domain<J>,
    cells: &'s mut LentCells<J, V>,
) -> Store<'s, J, V> {
    Store::new(alloc, domain, cells).expect(rt, "memory for a store")
}

/// A thread's part: a session, and a writer of a store.
pub(crate) struct Part<'q, 's, J: PostSet, V> {
    pub(crate) session: Session<'s, J>,
    pub(crate) writer: Writer<'q, 's, J, V>,
}

/// A new part, for which a post is free.
pub(crate) fn join<'q, 's, J: PostSet, V: Drop>(
    rt: &impl Abort,
    alloc: Global,
    store: &'q Store<'s, J, V>,
) -> Part<'q, 's, J, V> {
    let session = store.domain().session().expect(rt, "a free post");
    let writer = Writer::new(alloc, store).expect(rt, "memory for a writer");
    Part { session, writer }
}

/// Pins the session.
pub(crate) fn pin<'s, J: PostSet>(
    rt: &impl Abort,
    session: &mut Session<'s, J>,
) -> LendingGuard<'s, J> {
    assert!(rt; session.can_pin(), "no guard of the session is out");
    session.pin()
}

/// Flushes, if that is wanted, whether or not a place to wait is seen.
pub(crate) fn flush_if<J: PostSet, V: Drop>(writer: &mut Writer<'_, '_, J, V>, flushes: bool) {
    if flushes {
        let _ = writer.flush();
    }
}

/// Flushes this many times. By the last of them, all is handed over.
pub(crate) fn rounds<J: PostSet, V: Drop>(
    rt: &impl Abort,
    part: &mut Part<'_, '_, J, V>,
    count: u32,
) {
    let mut flushed = Ok(());
    for _ in 0..count {
        flushed = part.writer.flush();
    }
    want(rt, "the last flush", flushed, Ok(()));
}

/// Gives the post and the writer's cells back. What it gathered finds a place to wait in one of a few tries.
pub(crate) fn leave<J: PostSet, V: Drop>(rt: &impl Abort, part: Part<'_, '_, J, V>) {
    let Part { session, writer } = part;
    session.release();
    let mut staying = writer;
    for _ in 0..1_000_u32 {
        match staying.release() {
            Ok(()) => return,
            Err((back, _)) => staying = back,
        }
    }
    panic!(rt; "no place to wait was seen")
}

/// The next number of a generator modulo 2 to the power of 32, by the multiplier and the increment of Numerical
/// Recipes.
pub(crate) fn next_number(number: u32) -> u32 {
    number.wrapping_mul(1_664_525).wrapping_add(1_013_904_223)
}
