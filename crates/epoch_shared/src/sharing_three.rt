//! Does for a value, a map and a channel what the module `sharing` does for a value. All stand in one domain.
ghost use Rattle.std.specs.Prelude.{◌≡◌, ◌⊎◌, ◌≤◌, IfOk, IfErr};
ghost use Rattle.epoch_cells.specs.declared.fault.Fault.TheVariants.{NoMemory, CellsFull, TableFull};
ghost use Rattle.epoch_shared.specs.Parts.{DidStep, EndsStep, HasParts};

use crate::channel::{ChannelHold, ChannelRoot, SharedChannel};
use crate::crew::Crew;
use crate::map::hold::{LookHold, MapRoot};
use crate::map::inserting::InsertHold;
use crate::map::node::KeepsEntry;
use crate::map::parts::MapParts;
use crate::map::removing::RemoveHold;
use crate::map::{MapInserts, MapReads, MapRemovals, SharedMap};
use crate::sizes::{SharedSizes, cells_for, make_posts, posts_for};
use crate::start::{Round, Step, run_steps};
use crate::value::{SharedValue, ValueHold, ValueRoot, Wraps};
use epoch_cells::{Fault, MOST_SLOT};
use epoch_lend::domain::Domain;
use epoch_lend::readers::posts::{Made, PostSet, Posts};
use epoch_lend_pointers::{LentCells, Plain, Store};
use epoch_lists::{MovesValue, OwnedNode};
use epoch_map::{LentEntry, MapKey};
use std::alloc::Global;
use std::marker::Brand;
use std::thread::Threads;

/// Makes a value, a map and a channel, starts threads that share them, waits until they are done, and drops what is
/// left. Returns how many threads took part.
///
/// `NoMemory`: an allocation was refused. `CellsFull`, `TableFull`: as `NoMemory`, and not met.
pub fn share<R: Threads + Sync, T, K, V, M, C>(
    rt: &R,
    alloc: Global,
    sizes: SharedSizes,
    crew: &C,
) -> Result<usize, Fault>
where
    T: Drop + Send + Sync,
    K: MapKey + Drop + Send + Sync,
    V: Drop + Send + Sync,
    M: Drop + Send + Sync,
    C: Crew<T, K, V, M> + Sync,
    // No more threads take part in a crew of three structures than are asked for, and it fails as `share_value` does.
    ensures most { IfOk result (λ done. done ≤ sizes.threads) }
    ensures parts { IfOk result (HasParts (C.has_done crew.now) sizes.threads) }
    ensures refused { IfErr result (λ fault. (fault ≡ NoMemory) ⊎ (fault ≡ CellsFull) ⊎ (fault ≡ TableFull)) }
{
    // Each thread has five sessions.
    let made = make_posts(alloc, posts_for(sizes.threads) * 5)?;
    let first = OwnedNode::empty();
    begin::<R, Brand, Plain<T>, LentEntry<K, V>, OwnedNode<M>, C>(
        rt, alloc, made, sizes, first, crew,
    )
}

fn begin<R: Threads + Sync, J: PostSet + Send + Sync, N, E, M, C>(
    rt: &R,
    alloc: Global,
    made: Made,
    sizes: SharedSizes,
    first: M,
    crew: &C,
) -> Result<usize, Fault>
where
    N: Wraps + Send + Sync,
    E: KeepsEntry + Send + Sync,
    M: MovesValue + Send + Sync,
    N::Value: Send + Sync,
    E::Key: Send + Sync,
    E::Value: Send + Sync,
    M::Value: Send + Sync,
    C: Crew<N::Value, E::Key, E::Value, M::Value> + Sync,
    requires { made.posts.items ≡ J.posts }
    ensures most { IfOk result (HasParts (C.has_done crew.now) sizes.threads) }
    ensures refused { IfErr result (λ fault. (fault ≡ NoMemory) ⊎ (fault ≡ CellsFull) ⊎ (fault ≡ TableFull)) }
{
    let Ok(posts) = Posts::<J>::of(alloc, made) else {
        return Err(Fault::NoMemory);
    };
    let domain = Domain::new(posts);
    let mut cells = LentCells::<J, N>::new(alloc, cells_for(1, sizes.threads), &domain)?;
    let values = Store::new(alloc, &domain, &mut cells)?;
    let done = with_entries::<R, J, N, E, M, C>(rt, alloc, &values, sizes, first, crew);
    let _ = values.end();
    done
}

// Makes a store for the map's entries, beside that for the value.
fn with_entries<R: Threads + Sync, J: PostSet + Send + Sync, N, E, M, C>(
    rt: &R,
    alloc: Global,
    values: &Store<'_, J, N>,
    sizes: SharedSizes,
    first: M,
    crew: &C,
) -> Result<usize, Fault>
where
    N: Wraps + Send + Sync,
    E: KeepsEntry + Send + Sync,
    M: MovesValue + Send + Sync,
    N::Value: Send + Sync,
    E::Key: Send + Sync,
    E::Value: Send + Sync,
    M::Value: Send + Sync,
    C: Crew<N::Value, E::Key, E::Value, M::Value> + Sync,
    ensures most { IfOk result (HasParts (C.has_done crew.now) sizes.threads) }
    ensures refused { IfErr result (λ fault. (fault ≡ NoMemory) ⊎ (fault ≡ CellsFull) ⊎ (fault ≡ TableFull)) }
{
    let domain = values.domain();
    let mut cells = LentCells::<J, E>::new(alloc, MOST_SLOT, domain)?;
    let entries = Store::new(alloc, domain, &mut cells)?;
    let done = with_messages(rt, alloc, values, &entries, sizes, first, crew);
    let _ = entries.end();
    done
}

// Makes a store for the channel's messages, too, and one node more.
fn with_messages<R: Threads + Sync, J: PostSet + Send + Sync, N, E, M, C>(
    rt: &R,
    alloc: Global,
    values: &Store<'_, J, N>,
    entries: &Store<'_, J, E>,
    sizes: SharedSizes,
    first: M,
    crew: &C,
) -> Result<usize, Fault>
where
    N: Wraps + Send + Sync,
    E: KeepsEntry + Send + Sync,
    M: MovesValue + Send + Sync,
    N::Value: Send + Sync,
    E::Key: Send + Sync,
    E::Value: Send + Sync,
    M::Value: Send + Sync,
    C: Crew<N::Value, E::Key, E::Value, M::Value> + Sync,
    ensures most { IfOk result (HasParts (C.has_done crew.now) sizes.threads) }
    ensures refused { IfErr result (λ fault. (fault ≡ NoMemory) ⊎ (fault ≡ CellsFull) ⊎ (fault ≡ TableFull)) }
{
    let domain = values.domain();
    let nodes = sizes.messages.saturating_add(1);
    let mut cells = LentCells::<J, M>::new(alloc, cells_for(nodes, sizes.threads), domain)?;
    let messages = Store::new(alloc, domain, &mut cells)?;
    let done = share_in(rt, alloc, values, entries, &messages, sizes, first, crew);
    let _ = messages.end();
    done
}

// Makes the three structures, and has the crew at work on them.
fn share_in<R: Threads + Sync, J: PostSet + Send + Sync, N, E, M, C>(
    rt: &R,
    alloc: Global,
    values: &Store<'_, J, N>,
    entries: &Store<'_, J, E>,
    messages: &Store<'_, J, M>,
    sizes: SharedSizes,
    first: M,
    crew: &C,
) -> Result<usize, Fault>
where
    N: Wraps + Send + Sync,
    E: KeepsEntry + Send + Sync,
    M: MovesValue + Send + Sync,
    N::Value: Send + Sync,
    E::Key: Send + Sync,
    E::Value: Send + Sync,
    M::Value: Send + Sync,
    C: Crew<N::Value, E::Key, E::Value, M::Value> + Sync,
    ensures most { IfOk result (HasParts (C.has_done crew.now) sizes.threads) }
    ensures refused { IfErr result (λ fault. (fault ≡ NoMemory) ⊎ (fault ≡ CellsFull) ⊎ (fault ≡ TableFull)) }
{
    let map = MapRoot::new(alloc, entries, sizes.capacity)?;
    let channel = ChannelRoot::new(alloc, messages, first)?;
    let value = ValueRoot::new(values);
    let roots = Roots {
        value,
        map,
        channel,
    };
    let work = WorkingOnThree { alloc, crew };
    run_steps(rt, alloc, sizes.threads, &roots, &work)
}

/// A value, a map and a channel that threads share.
#[derive(Drop)]
struct Roots<'v, 'w, 'e, 'f, 'm, 'n, J: PostSet, N, E, M> {
    value: ValueRoot<'v, 'w, J, N>,
    map: MapRoot<'e, 'f, J, E>,
    channel: ChannelRoot<'m, 'n, J, M>,
}

/// A crew at work on three structures.
#[derive(Drop)]
struct WorkingOnThree<'c, C> {
    alloc: Global,
    crew: &'c C,
}

impl<'v, 'w, 'e, 'f, 'm, 'n, J, N, E, M, C> Round<Roots<'v, 'w, 'e, 'f, 'm, 'n, J, N, E, M>>
    for WorkingOnThree<'_, C>
where
    J: PostSet,
    N: Wraps,
    E: KeepsEntry,
    M: MovesValue,
    C: Crew<N::Value, E::Key, E::Value, M::Value>,
{
    ghost has_taken = { λ work step. DidStep (C.has_done work.crew.now) step };

    fn take_part(
        &self,
        step: Step,
        roots: &Roots<'v, 'w, 'e, 'f, 'm, 'n, J, N, E, M>,
    ) -> Result<(), Fault> {
        let mut value = ValueHold::join(self.alloc, &roots.value)?;
        let done = take_looks(
            self.alloc,
            step,
            &roots.map,
            &roots.channel,
            &mut value,
            self.crew,
        );
        value.leave();
        done
    }
}

// Takes the step with what the thread has to look entries up, too.
fn take_looks<J: PostSet, T, E: KeepsEntry, M: MovesValue, C, S>(
    alloc: Global,
    step: Step,
    map: &MapRoot<'_, '_, J, E>,
    channel: &ChannelRoot<'_, '_, J, M>,
    value: &mut S,
    crew: &C,
) -> Result<(), Fault>
where
    C: Crew<T, E::Key, E::Value, M::Value>,
    S: SharedValue<T>,
    ensures { EndsStep (DidStep (C.has_done crew.now) step) result }
{
    let mut looks = LookHold::join(map)?;
    take_inserts(alloc, step, map, channel, value, &mut looks, crew)
}

// Takes the step with what the thread has to insert entries, too.
fn take_inserts<J: PostSet, T, E: KeepsEntry, M: MovesValue, C, S, L>(
    alloc: Global,
    step: Step,
    map: &MapRoot<'_, '_, J, E>,
    channel: &ChannelRoot<'_, '_, J, M>,
    value: &mut S,
    looks: &mut L,
    crew: &C,
) -> Result<(), Fault>
where
    C: Crew<T, E::Key, E::Value, M::Value>,
    S: SharedValue<T>,
    L: MapReads<E::Key, E::Value>,
    ensures { EndsStep (DidStep (C.has_done crew.now) step) result }
{
    let mut inserts = InsertHold::join(alloc, map)?;
    let done = take_removals(alloc, step, map, channel, value, looks, &mut inserts, crew);
    inserts.leave();
    done
}

// Takes the step with what the thread has to remove entries, too.
fn take_removals<J: PostSet, T, E: KeepsEntry, M: MovesValue, C, S, L, I>(
    alloc: Global,
    step: Step,
    map: &MapRoot<'_, '_, J, E>,
    channel: &ChannelRoot<'_, '_, J, M>,
    value: &mut S,
    looks: &mut L,
    inserts: &mut I,
    crew: &C,
) -> Result<(), Fault>
where
    C: Crew<T, E::Key, E::Value, M::Value>,
    S: SharedValue<T>,
    L: MapReads<E::Key, E::Value>,
    I: MapInserts<E::Key, E::Value>,
    ensures { EndsStep (DidStep (C.has_done crew.now) step) result }
{
    let mut removals = RemoveHold::join(alloc, map)?;
    let done = take_parts(
        alloc,
        step,
        channel,
        value,
        looks,
        inserts,
        &mut removals,
        crew,
    );
    removals.leave();
    done
}

// Takes the step with all that the thread has of the map, as one.
fn take_parts<J: PostSet, T, K: MapKey, V, M: MovesValue, C, S, L, I, R>(
    alloc: Global,
    step: Step,
    channel: &ChannelRoot<'_, '_, J, M>,
    value: &mut S,
    looks: &mut L,
    inserts: &mut I,
    removals: &mut R,
    crew: &C,
) -> Result<(), Fault>
where
    C: Crew<T, K, V, M::Value>,
    S: SharedValue<T>,
    L: MapReads<K, V>,
    I: MapInserts<K, V>,
    R: MapRemovals<K, V>,
    ensures { EndsStep (DidStep (C.has_done crew.now) step) result }
{
    let mut entries = MapParts {
        looks,
        inserts,
        removals,
    };
    take_channel(alloc, step, channel, value, &mut entries, crew)
}

// Takes the step with a half of the channel, too.
fn take_channel<J: PostSet, T, K: MapKey, V, M: MovesValue, C, S, E>(
    alloc: Global,
    step: Step,
    channel: &ChannelRoot<'_, '_, J, M>,
    value: &mut S,
    entries: &mut E,
    crew: &C,
) -> Result<(), Fault>
where
    C: Crew<T, K, V, M::Value>,
    S: SharedValue<T>,
    E: SharedMap<K, V>,
    ensures { EndsStep (DidStep (C.has_done crew.now) step) result }
{
    let mut messages = ChannelHold::join(alloc, channel)?;
    take_step(step, value, entries, &mut messages, crew);
    messages.leave();
    Ok(())
}

// Has the crew take this step.
fn take_step<T, K, V, M, C, S, E, N>(
    step: Step,
    value: &mut S,
    entries: &mut E,
    messages: &mut N,
    crew: &C,
)
where
    K: MapKey,
    C: Crew<T, K, V, M>,
    S: SharedValue<T>,
    E: SharedMap<K, V>,
    N: SharedChannel<M>,
    ensures { DidStep (C.has_done crew.now) step }
{
    match step {
        Step::Before => crew.before(value, entries, messages),
        Step::Thread(number) => crew.thread(number, value, entries, messages),
        Step::After => crew.after(value, entries, messages),
    }
}
