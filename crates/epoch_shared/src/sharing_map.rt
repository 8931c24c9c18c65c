//! Does for a map, or a cache, what the module `sharing` does for a value.
ghost use Rattle.std.specs.Prelude.{◌≡◌, ◌⊎◌, ◌≤◌, IfOk, IfErr};
ghost use Rattle.epoch_cells.specs.declared.fault.Fault.TheVariants.{NoMemory, CellsFull, TableFull};
ghost use Rattle.epoch_shared.specs.Parts.{DidStep, EndsStep, HasParts};

use crate::crew::MapCrew;
use crate::map::hold::{LookHold, MapRoot};
use crate::map::inserting::InsertHold;
use crate::map::node::KeepsEntry;
use crate::map::parts::MapParts;
use crate::map::removing::RemoveHold;
use crate::map::{MapInserts, MapReads, MapRemovals};
use crate::sizes::{make_posts, posts_for};
use crate::start::{Round, Step, run_steps};
use epoch_cells::{Fault, MOST_SLOT};
use epoch_lend::domain::Domain;
use epoch_lend::readers::posts::{Made, PostSet, Posts};
use epoch_lend_pointers::{LentCells, Store};
use epoch_map::{LentEntry, MapKey};
use std::alloc::Global;
use std::marker::Brand;
use std::thread::Threads;

/// Makes an empty map, starts this many threads that share it, and comes back when they are done. Then what is left is
/// dropped. Returns how many threads took part.
///
/// The map takes as many entries as there is memory for, up to about 16 million. The crew is called, and faults are
/// told, as by [`share_value`](crate::share_value).
pub fn share_map<R: Threads + Sync, K, V, C>(
    rt: &R,
    alloc: Global,
    threads: u16,
    crew: &C,
) -> Result<usize, Fault>
where
    K: MapKey + Drop + Send + Sync,
    V: Drop + Send + Sync,
    C: MapCrew<K, V> + Sync,
    // No more threads take part in the crew of a map or of a cache than are asked for, and it fails as `share_value`
    // does.
    ensures most { IfOk result (λ done. done ≤ threads) }
    ensures parts { IfOk result (HasParts (C.has_done crew.now) threads) }
    ensures refused { IfErr result (λ fault. (fault ≡ NoMemory) ⊎ (fault ≡ CellsFull) ⊎ (fault ≡ TableFull)) }
{
    share_entries::<R, K, V, C>(rt, alloc, threads, None, crew)
}

/// Does what [`share_map`] does with a map that is a cache of this capacity: a call that would go past it takes an
/// entry out, as [`SharedMap`] says.
pub fn share_cache<R: Threads + Sync, K, V, C>(
    rt: &R,
    alloc: Global,
    threads: u16,
    capacity: u32,
    crew: &C,
) -> Result<usize, Fault>
where
    K: MapKey + Drop + Send + Sync,
    V: Drop + Send + Sync,
    C: MapCrew<K, V> + Sync,
    ensures most { IfOk result (λ done. done ≤ threads) }
    ensures parts { IfOk result (HasParts (C.has_done crew.now) threads) }
    ensures refused { IfErr result (λ fault. (fault ≡ NoMemory) ⊎ (fault ≡ CellsFull) ⊎ (fault ≡ TableFull)) }
{
    share_entries::<R, K, V, C>(rt, alloc, threads, Some(capacity), crew)
}

// Has a crew share a map, or a cache of this capacity.
fn share_entries<R: Threads + Sync, K, V, C>(
    rt: &R,
    alloc: Global,
    threads: u16,
    capacity: Option<u32>,
    crew: &C,
) -> Result<usize, Fault>
where
    K: MapKey + Drop + Send + Sync,
    V: Drop + Send + Sync,
    C: MapCrew<K, V> + Sync,
    ensures most { IfOk result (HasParts (C.has_done crew.now) threads) }
    ensures refused { IfErr result (λ fault. (fault ≡ NoMemory) ⊎ (fault ≡ CellsFull) ⊎ (fault ≡ TableFull)) }
{
    // Each thread has three sessions.
    let made = make_posts(alloc, posts_for(threads) * 3)?;
    begin::<R, Brand, LentEntry<K, V>, C>(rt, alloc, made, threads, capacity, crew)
}

fn begin<
    R: Threads + Sync,
    J: PostSet + Send + Sync,
    N: KeepsEntry + Send + Sync,
    C: MapCrew<N::Key, N::Value> + Sync,
>(
    rt: &R,
    alloc: Global,
    made: Made,
    threads: u16,
    capacity: Option<u32>,
    crew: &C,
) -> Result<usize, Fault>
where
    N::Key: Send + Sync,
    N::Value: Send + Sync,
    requires { made.posts.items ≡ J.posts }
    ensures most { IfOk result (HasParts (C.has_done crew.now) threads) }
    ensures refused { IfErr result (λ fault. (fault ≡ NoMemory) ⊎ (fault ≡ CellsFull) ⊎ (fault ≡ TableFull)) }
{
    let Ok(posts) = Posts::<J>::of(alloc, made) else {
        return Err(Fault::NoMemory);
    };
    let domain = Domain::new(posts);
    let mut cells = LentCells::<J, N>::new(alloc, MOST_SLOT, &domain)?;
    let store = Store::new(alloc, &domain, &mut cells)?;
    let done = share_in(rt, alloc, &store, threads, capacity, crew);
    let _ = store.end();
    done
}

fn share_in<
    R: Threads + Sync,
    J: PostSet + Send + Sync,
    N: KeepsEntry + Send + Sync,
    C: MapCrew<N::Key, N::Value> + Sync,
>(
    rt: &R,
    alloc: Global,
    store: &Store<'_, J, N>,
    threads: u16,
    capacity: Option<u32>,
    crew: &C,
) -> Result<usize, Fault>
where
    N::Key: Send + Sync,
    N::Value: Send + Sync,
    ensures most { IfOk result (HasParts (C.has_done crew.now) threads) }
    ensures refused { IfErr result (λ fault. (fault ≡ NoMemory) ⊎ (fault ≡ TableFull)) }
{
    let root = MapRoot::new(alloc, store, capacity)?;
    let work = Mapping { alloc, crew };
    run_steps(rt, alloc, threads, &root, &work)
}

/// A crew at work on a map.
#[derive(Drop)]
struct Mapping<'c, C> {
    alloc: Global,
    crew: &'c C,
}

impl<'q, 's, J: PostSet, N: KeepsEntry, C: MapCrew<N::Key, N::Value>> Round<MapRoot<'q, 's, J, N>>
    for Mapping<'_, C> {
    ghost has_taken = { λ work step. DidStep (C.has_done work.crew.now) step };

    fn take_part(&self, step: Step, root: &MapRoot<'q, 's, J, N>) -> Result<(), Fault> {
        let mut looks = LookHold::join(root)?;
        take_inserts(self.alloc, step, root, &mut looks, self.crew)
    }
}

// Takes the step with what the thread has to insert entries, too.
fn take_inserts<J: PostSet, N: KeepsEntry, L: MapReads<N::Key, N::Value>, C>(
    alloc: Global,
    step: Step,
    root: &MapRoot<'_, '_, J, N>,
    looks: &mut L,
    crew: &C,
) -> Result<(), Fault>
where
    C: MapCrew<N::Key, N::Value>,
    ensures { EndsStep (DidStep (C.has_done crew.now) step) result }
{
    let mut inserts = InsertHold::join(alloc, root)?;
    let done = take_removals(alloc, step, root, looks, &mut inserts, crew);
    inserts.leave();
    done
}

// Takes the step with what the thread has to remove entries, too.
fn take_removals<J: PostSet, N: KeepsEntry, L, I, C>(
    alloc: Global,
    step: Step,
    root: &MapRoot<'_, '_, J, N>,
    looks: &mut L,
    inserts: &mut I,
    crew: &C,
) -> Result<(), Fault>
where
    L: MapReads<N::Key, N::Value>,
    I: MapInserts<N::Key, N::Value>,
    C: MapCrew<N::Key, N::Value>,
    ensures { EndsStep (DidStep (C.has_done crew.now) step) result }
{
    let mut removals = RemoveHold::join(alloc, root)?;
    take_step(step, looks, inserts, &mut removals, crew);
    removals.leave();
    Ok(())
}

// Has the crew take this step.
fn take_step<K: MapKey, V, C: MapCrew<K, V>, L, I, R>(
    step: Step,
    looks: &mut L,
    inserts: &mut I,
    removals: &mut R,
    crew: &C,
)
where
    L: MapReads<K, V>,
    I: MapInserts<K, V>,
    R: MapRemovals<K, V>,
    ensures { DidStep (C.has_done crew.now) step }
{
    let mut map = MapParts {
        looks,
        inserts,
        removals,
    };
    match step {
        Step::Before => crew.before(&mut map),
        Step::Thread(number) => crew.thread(number, &mut map),
        Step::After => crew.after(&mut map),
    }
}
