//! Where the tests of the map play: a store, a map and one part.
use crate::lending::{Part, Scene, join, leave, play};
use crate::map::alone::OF_STRANGERS;
use crate::map::beside_std::compare;
use crate::map::calls::{Map, Node, Pinned, want_pins, want_rows};
use crate::shown::want_shown;
use crate::wants::want;
use epoch_lend::readers::posts::PostSet;
use epoch_lend_pointers::Store;
use epoch_map::LendingMap;
use std::alloc::Global;
use std::process::Abort;

/// What is done with a map.
#[derive(Clone, Copy)]
pub(crate) enum Deed {
    Calls(&'static [Pinned]),
    Strangers,
    Random,
    Shown,
}

/// What is done with a map of 2 to the power of `bits` buckets.
#[derive(Clone, Copy)]
struct MapScene {
    deed: Deed,
    bits: u32,
}

impl Scene for MapScene {
    type Node = Node;

    fn act<'s, R: Abort, J: PostSet>(
        self,
        rt: &R,
        alloc: Global,
        store: &Store<'s, J, Node>,
        others: &Store<'s, J, Node>,
    ) {
        let map = LendingMap::new(alloc, store, self.bits).expect(rt, "memory for a map");
        let buckets = 1usize.wrapping_shl(self.bits);
        want(rt, "how many buckets there are", map.buckets(), buckets);
        let mut part = join(rt, alloc, written(self.deed, store, others));
        act_on(rt, alloc, &map, &mut part, self.deed);
        leave(rt, part);
    }
}

/// The store of the writer. A map takes no writer of another store of its domain.
fn written<'q, 's, J: PostSet>(
    deed: Deed,
    store: &'q Store<'s, J, Node>,
    others: &'q Store<'s, J, Node>,
) -> &'q Store<'s, J, Node> {
    match deed {
        Deed::Strangers => others,
        _ => store,
    }
}

/// Does this with the map.
fn act_on<'s, J: PostSet>(
    rt: &impl Abort,
    alloc: Global,
    map: &Map<'_, 's, J>,
    part: &mut Part<'_, 's, J, Node>,
    deed: Deed,
) {
    match deed {
        Deed::Calls(pins) => want_pins(rt, map, part, pins),
        Deed::Strangers => want_rows(rt, map, part, OF_STRANGERS),
        Deed::Random => compare(rt, alloc, map, part),
        Deed::Shown => want_shown(rt, alloc, map, "LendingMap { store: 0, .. }"),
    }
}

/// Plays this with a map of its own of 2 to the power of `bits` buckets over this many cells. It leaves this many nodes
/// to the store's end.
pub(crate) fn play_map<R: Abort>(
    rt: &R,
    alloc: Global,
    deed: Deed,
    (bits, cells, left): (u32, u16, usize),
) {
    play(rt, alloc, (cells, left), MapScene { deed, bits })
}
