//! Does for a stack what the module `sharing` does for a value.
ghost use Rattle.std.specs.Prelude.{◌≡◌, ◌⊎◌, ◌≤◌, IfOk, IfErr};
ghost use Rattle.epoch_cells.specs.declared.fault.Fault.TheVariants.{NoMemory, CellsFull, TableFull};
ghost use Rattle.epoch_shared.specs.Parts.{DidStep, HasParts};

use crate::crew::StackCrew;
use crate::sizes::{cells_for, make_posts, posts_for};
use crate::stack::{SharedStack, StackHold, StackRoot};
use crate::start::{Round, Step, run_steps};
use epoch_cells::Fault;
use epoch_lend::domain::Domain;
use epoch_lend::readers::posts::{Made, PostSet, Posts};
use epoch_lend_pointers::{LentCells, Store};
use epoch_lists::{MovesValue, OwnedNode};
use std::alloc::Global;
use std::marker::Brand;
use std::thread::Threads;

/// Makes a stack with room for at least this many values, starts this many threads that share it, and comes back when
/// they are done. Then what is left is dropped. Returns how many threads took part.
///
/// The crew is called, and faults are told, as by [`share_value`](crate::share_value).
pub fn share_stack<R: Threads + Sync, V: Drop + Send + Sync, C: StackCrew<V> + Sync>(
    rt: &R,
    alloc: Global,
    threads: u16,
    values: u32,
    crew: &C,
) -> Result<usize, Fault>
where
    // No more threads take part in the crew of a stack than are asked for, and it fails as `share_value` does.
    ensures most { IfOk result (λ done. done ≤ threads) }
    ensures parts { IfOk result (HasParts (C.has_done crew.now) threads) }
    ensures refused { IfErr result (λ fault. (fault ≡ NoMemory) ⊎ (fault ≡ CellsFull) ⊎ (fault ≡ TableFull)) }
{
    let made = make_posts(alloc, posts_for(threads))?;
    begin::<R, Brand, OwnedNode<V>, C>(rt, alloc, made, threads, values, crew)
}

fn begin<
    R: Threads + Sync,
    J: PostSet + Send + Sync,
    N: MovesValue + Send + Sync,
    C: StackCrew<N::Value> + Sync,
>(rt: &R, alloc: Global, made: Made, threads: u16, values: u32, crew: &C) -> Result<usize, Fault>
where
    N::Value: Send + Sync,
    requires { made.posts.items ≡ J.posts }
    ensures most { IfOk result (HasParts (C.has_done crew.now) threads) }
    ensures refused { IfErr result (λ fault. (fault ≡ NoMemory) ⊎ (fault ≡ CellsFull) ⊎ (fault ≡ TableFull)) }
{
    let Ok(posts) = Posts::<J>::of(alloc, made) else {
        return Err(Fault::NoMemory);
    };
    let domain = Domain::new(posts);
    let mut cells = LentCells::<J, N>::new(alloc, cells_for(values, threads), &domain)?;
    let store = Store::new(alloc, &domain, &mut cells)?;
    let done = share_in(rt, alloc, &store, threads, crew);
    let _ = store.end();
    done
}

fn share_in<
    R: Threads + Sync,
    J: PostSet + Send + Sync,
    N: MovesValue + Send + Sync,
    C: StackCrew<N::Value> + Sync,
>(rt: &R, alloc: Global, store: &Store<'_, J, N>, threads: u16, crew: &C) -> Result<usize, Fault>
where
    N::Value: Send + Sync,
    ensures most { IfOk result (HasParts (C.has_done crew.now) threads) }
    ensures refused { IfErr result (λ fault. (fault ≡ NoMemory) ⊎ (fault ≡ TableFull)) }
{
    let root = StackRoot::new(store);
    let work = Stacking { alloc, crew };
    run_steps(rt, alloc, threads, &root, &work)
}

/// A crew at work on a stack.
#[derive(Drop)]
struct Stacking<'c, C> {
    alloc: Global,
    crew: &'c C,
}

impl<'q, 's, J: PostSet, N: MovesValue, C: StackCrew<N::Value>> Round<StackRoot<'q, 's, J, N>>
    for Stacking<'_, C> {
    ghost has_taken = { λ work step. DidStep (C.has_done work.crew.now) step };

    fn take_part(&self, step: Step, root: &StackRoot<'q, 's, J, N>) -> Result<(), Fault> {
        let mut hold = StackHold::join(self.alloc, root)?;
        take_step(step, &mut hold, self.crew);
        hold.leave();
        Ok(())
    }
}

// Has the crew take this step.
fn take_step<V, C: StackCrew<V>, S: SharedStack<V>>(step: Step, stack: &mut S, crew: &C)
    ensures { DidStep (C.has_done crew.now) step }
{
    match step {
        Step::Before => crew.before(stack),
        Step::Thread(number) => crew.thread(number, stack),
        Step::After => crew.after(stack),
    }
}
