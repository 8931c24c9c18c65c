//! Readers on one thread: the posts of a set, and arrays of cells that are used again.
use crate::sessions::{goes_with_the_clock, pins_for_closures, takes_posts};
use crate::wants::want;
use epoch_lend::array::cells::SlotTurn;
use epoch_lend::array::growing::GrowingCells;
use epoch_lend::domain::{Domain, DomainWork, with_domain};
use epoch_lend::readers::posts::{PostSet, Posts};
use epoch_lend::readers::reader::Pinned;
use epoch_lend_pointers::store::batch::{Batch, SealedBatch};
use std::alloc::Global;
use std::process::Abort;
use std::test::Fail;

/// A spot that there isn't.
const NONE: SlotTurn = SlotTurn { slot: 99, turn: 99 };

fn spot(slot: usize, turn: u64) -> SlotTurn {
    SlotTurn { slot, turn }
}

/// Where a value is placed by a search, or none.
fn placed<J: PostSet>(cells: &GrowingCells<J, u64>, value: u64) -> SlotTurn {
    for slot in 0..cells.limit() {
        let Some(fresh) = cells.fresh_room(slot) else {
            continue;
        };
        return match fresh.found.place(value) {
            Ok(placed) => placed.spot,
            Err(_) => NONE,
        };
    }
    NONE
}

/// What a pinned reader is lent at this spot.
fn looked<'g, J: PostSet>(
    cells: &GrowingCells<J, u64>,
    spot: SlotTurn,
    pinned: &'g Pinned<'_, J>,
) -> Option<&'g u64> {
    Some(cells.look(spot, pinned)?.value)
}

/// What a reader finds at this spot, or 0.
fn found<J: PostSet>(posts: &Posts<J>, cells: &GrowingCells<J, u64>, spot: SlotTurn) -> u64 {
    let Some(reader) = posts.register() else {
        return 0;
    };
    let pinned = reader.pin(1);
    let value = read(looked(cells, spot, &pinned));
    pinned.unpin().release();
    value
}

/// The value that was found, or 0.
fn read(found: Option<&u64>) -> u64 {
    match found {
        Some(value) => *value,
        None => 0,
    }
}

/// Marks the value at this spot, and looks at each post for the first time. `None`: there is none to mark.
fn marked<'c, J: PostSet>(
    alloc: Global,
    posts: &Posts<J>,
    cells: &'c GrowingCells<J, u64>,
    spot: SlotTurn,
) -> Option<SealedBatch<'c, J, u64>> {
    match Batch::of(alloc, cells.mark(spot)?.found) {
        Ok(bag) => Some(bag.seal(posts)),
        Err(removal) => {
            removal.abandon();
            None
        }
    }
}

/// Ends a bag that didn't come back, and has its value left where it is.
fn give_up<J: PostSet>(kept: Option<SealedBatch<'_, J, u64>>) {
    if let Some(bag) = kept {
        bag.abandon();
    }
}

/// What comes back at this try, or 0 with what has to be tried again.
fn tried<'c, J: PostSet>(
    sealed: Option<SealedBatch<'c, J, u64>>,
    posts: &Posts<J>,
) -> (u64, Option<SealedBatch<'c, J, u64>>) {
    let Some(sealed) = sealed else {
        return (0, None);
    };
    match sealed.take_back(posts) {
        Ok(clear) => {
            let mut rest = clear;
            let mut last = 0;
            while let Some((value, _)) = rest.next() {
                last = value;
            }
            rest.finish();
            (last, None)
        }
        Err(again) => (0, Some(again)),
    }
}

/// Takes the value at this spot back, with no reader pinned. Returns it, or 0.
fn taken<J: PostSet>(
    alloc: Global,
    posts: &Posts<J>,
    cells: &GrowingCells<J, u64>,
    spot: SlotTurn,
) -> u64 {
    let (value, kept) = tried(marked(alloc, posts, cells, spot), posts);
    give_up(kept);
    value
}

/// Whether a reader can be registered now.
fn has_room<J: PostSet>(posts: &Posts<J>) -> bool {
    posts.register().is_some()
}

/// As many readers register as there are posts, which are two.
fn registers<J: PostSet>(rt: &impl Abort, posts: &Posts<J>) {
    let first = posts.register();
    let second = posts.register();
    want(rt, "there are two posts", posts.len(), 2);
    want(rt, "a third reader finds none free", has_room(posts), false);
    drop(first);
    want(
        rt,
        "one that is dropped gives its post back",
        has_room(posts),
        true,
    );
    drop(second);
}

/// Fills two cells, and uses one again.
fn fills<J: PostSet>(
    rt: &impl Abort,
    alloc: Global,
    posts: &Posts<J>,
    cells: &GrowingCells<J, u64>,
) {
    let (old, new) = (spot(0, 0), spot(0, 1));
    want(rt, "there are two cells", cells.limit(), 2);
    want(
        rt,
        "the first value is in the first cell",
        placed(cells, 7),
        old,
    );
    want(rt, "the second in the other", placed(cells, 8), spot(1, 0));
    want(rt, "a full array takes no third", placed(cells, 9), NONE);
    want(
        rt,
        "the first is found at its turn",
        found(posts, cells, old),
        7,
    );
    want(rt, "and not at the next one", found(posts, cells, new), 0);
    want(rt, "it comes back", taken(alloc, posts, cells, old), 7);
    want(rt, "its cell is used again", placed(cells, 10), new);
    want(
        rt,
        "a mark of its old spot finds nothing",
        taken(alloc, posts, cells, old),
        0,
    );
}

/// A reader that stays pinned keeps a value of an array.
fn holds_a_bag_back<J: PostSet>(
    rt: &impl Abort,
    alloc: Global,
    posts: &Posts<J>,
    cells: &GrowingCells<J, u64>,
) {
    let at = placed(cells, 8);
    let reader = posts.register().expect(rt, "a post");
    let pinned = reader.pin(1);
    let found = looked(cells, at, &pinned);
    let (early, kept) = tried(marked(alloc, posts, cells, at), posts);
    want(rt, "no bag comes back while it is pinned", early, 0);
    want(rt, "it reads the value after the mark", read(found), 8);
    want(
        rt,
        "a further look doesn't find it",
        read(looked(cells, at, &pinned)),
        0,
    );
    pinned.unpin().release();
    let (late, left) = tried(kept, posts);
    give_up(left);
    want(rt, "the bag comes back after the unpin", late, 8);
}

/// All of this on a set of two posts.
#[derive(Drop)]
struct OnOneThread<'t, R> {
    rt: &'t R,
    alloc: Global,
}

impl<R: Abort> DomainWork for OnOneThread<'_, R> {
    type Answer = ();

    fn run<J: PostSet + Send + Sync>(self, domain: &Domain<J>) {
        let OnOneThread { rt, alloc } = self;
        let posts = domain.posts();
        let cells = GrowingCells::new(alloc, 2, 2, u64::MAX, posts).expect(rt, "memory");
        registers(rt, posts);
        fills(rt, alloc, posts, &cells);
        let others = GrowingCells::new(alloc, 2, 2, u64::MAX, posts).expect(rt, "memory");
        holds_a_bag_back(rt, alloc, posts, &others);
        takes_posts(rt, domain);
        goes_with_the_clock(rt, domain);
        pins_for_closures(rt, domain);
    }
}

#[test]
fn what_is_lent_stays_while_a_reader_is_pinned_and_comes_back_after(
    rt: HostRuntime,
) -> Result<(), Fail> {
    let alloc = rt.alloc();
    with_domain(alloc, 2, OnOneThread { rt: &rt, alloc })?;
    Ok(())
}
