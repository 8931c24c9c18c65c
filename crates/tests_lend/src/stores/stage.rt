//! Where a test plays: a domain of a few posts, and a store of probes in it.
use crate::probes::{Counts, Probe};
use crate::stores::guards::{caches, keeps_grace, lends, lends_of_two_stores, renews, waits};
use crate::stores::memory::asks_for_memory;
use crate::stores::refusals::refuses;
use crate::stores::stalled::stalls;
use crate::stores::writers::{ends_with_values, leaves_values, takes_back};
use epoch_cells::Fault;
use epoch_lend::domain::{Domain, DomainWork, with_domain};
use epoch_lend::readers::posts::PostSet;
use epoch_lend_pointers::{LentCells, Store};
use std::alloc::Global;
use std::process::Abort;

/// What a test does on one thread.
#[derive(Clone, Copy)]
pub(crate) enum Scene {
    Lends,
    KeepsGrace,
    Waits,
    Caches,
    Renews,
    LendsOfTwoStores,
    Refuses,
    TakesBack,
    LeavesValues,
    EndsWithValues,
    Stalls,
    AsksForMemory,
}

/// A scene, and what it plays with.
#[derive(Drop)]
struct Staged<'t, R> {
    rt: &'t R,
    alloc: Global,
    cells: u32,
    scene: Scene,
    counts: &'t Counts,
}

impl<R: Abort> DomainWork for Staged<'_, R> {
    type Answer = Result<usize, Fault>;

    fn run<J: PostSet + Send + Sync>(self, domain: &Domain<J>) -> Result<usize, Fault> {
        let Staged {
            rt,
            alloc,
            cells,
            scene,
            counts,
        } = self;
        assert!(rt; cells <= 10_000);
        let mut cells = LentCells::new(alloc, cells, domain)?;
        let store = Store::new(alloc, domain, &mut cells)?;
        act(rt, alloc, &store, scene, counts);
        Ok(store.end())
    }
}

/// Plays the scene.
fn act<J: PostSet>(
    rt: &impl Abort,
    alloc: Global,
    store: &Store<'_, J, Probe>,
    scene: Scene,
    counts: &Counts,
) {
    match scene {
        Scene::Lends => lends(rt, alloc, store, counts),
        Scene::KeepsGrace => keeps_grace(rt, alloc, store, counts),
        Scene::Waits => waits(rt, alloc, store, counts),
        Scene::Caches => caches(rt, alloc, store, counts),
        Scene::Renews => renews(rt, alloc, store, counts),
        Scene::LendsOfTwoStores => lends_of_two_stores(rt, alloc, store, counts),
        Scene::Refuses => refuses(rt, alloc, store, counts),
        Scene::TakesBack => takes_back(rt, alloc, store, counts),
        Scene::LeavesValues => leaves_values(rt, alloc, store, counts),
        Scene::EndsWithValues => ends_with_values(rt, alloc, store, counts),
        Scene::Stalls => stalls(rt, alloc, store, counts),
        Scene::AsksForMemory => asks_for_memory(rt, alloc, store, counts),
    }
}

/// Plays the scene with this many cells and three posts. Returns how many values the store's end dropped. `None`:
/// memory was refused before the scene began.
pub(crate) fn play<R: Abort>(
    rt: &R,
    alloc: Global,
    cells: u32,
    scene: Scene,
    counts: &Counts,
) -> Option<usize> {
    let staged = Staged {
        rt,
        alloc,
        cells,
        scene,
        counts,
    };
    match with_domain(alloc, 3, staged) {
        Ok(Ok(left)) => Some(left),
        _ => None,
    }
}
