//! Makes a value, has threads share it, and ends it afterwards.
ghost use Rattle.std.specs.Prelude.{◌≡◌, ◌⊎◌, ◌≤◌, IfOk, IfErr};
ghost use Rattle.epoch_cells.specs.declared.fault.Fault.TheVariants.{NoMemory, CellsFull, TableFull};
ghost use Rattle.epoch_shared.specs.Parts.{DidStep, HasParts};

use crate::crew::ValueCrew;
use crate::sizes::{cells_for, make_posts, posts_for};
use crate::start::{Round, Step, run_steps};
use crate::value::{SharedValue, ValueHold, ValueRoot, Wraps};
use epoch_cells::Fault;
use epoch_lend::domain::Domain;
use epoch_lend::readers::posts::{Made, PostSet, Posts};
use epoch_lend_pointers::{LentCells, Plain, Store};
use std::alloc::Global;
use std::marker::Brand;
use std::thread::Threads;

/// Makes room for a value, starts this many threads that share it, and comes back when they are done. Then
/// what is left is dropped. Returns how many threads took part.
///
/// The crew's `before` is called first, by the thread that calls this, and its `after` when the others are done. If the
/// system refuses to start a thread, its part is done after another's: so a part that waits for another one may then
/// wait for ever.
///
/// `NoMemory`: an allocation was refused, and some of the crew may not have been called. `CellsFull` and `TableFull`
/// aren't met, since enough cells and posts are made.
pub fn share_value<R: Threads + Sync, T: Drop + Send + Sync, C: ValueCrew<T> + Sync>(
    rt: &R,
    alloc: Global,
    threads: u16,
    crew: &C,
) -> Result<usize, Fault>
where
    // No more threads take part than are asked for. The call is refused only if an allocation is refused, or if too few
    // cells or posts were made.
    ensures most { IfOk result (λ done. done ≤ threads) }
    ensures parts { IfOk result (HasParts (C.has_done crew.now) threads) }
    ensures refused { IfErr result (λ fault. (fault ≡ NoMemory) ⊎ (fault ≡ CellsFull) ⊎ (fault ≡ TableFull)) }
{
    let made = make_posts(alloc, posts_for(threads))?;
    begin::<R, Brand, Plain<T>, C>(rt, alloc, made, threads, crew)
}

fn begin<
    R: Threads + Sync,
    J: PostSet + Send + Sync,
    N: Wraps + Send + Sync,
    C: ValueCrew<N::Value> + Sync,
>(rt: &R, alloc: Global, made: Made, threads: u16, crew: &C) -> Result<usize, Fault>
where
    N::Value: Send + Sync,
    requires { made.posts.items ≡ J.posts }
    ensures most { IfOk result (HasParts (C.has_done crew.now) threads) }
    ensures refused { IfErr result (λ fault. (fault ≡ NoMemory) ⊎ (fault ≡ CellsFull) ⊎ (fault ≡ TableFull)) }
{
    let Ok(posts) = Posts::<J>::of(alloc, made) else {
        return Err(Fault::NoMemory);
    };
    let domain = Domain::new(posts);
    let mut cells = LentCells::<J, N>::new(alloc, cells_for(1, threads), &domain)?;
    let store = Store::new(alloc, &domain, &mut cells)?;
    let done = share_in(rt, alloc, &store, threads, crew);
    let _ = store.end();
    done
}

fn share_in<
    R: Threads + Sync,
    J: PostSet + Send + Sync,
    N: Wraps + Send + Sync,
    C: ValueCrew<N::Value> + Sync,
>(rt: &R, alloc: Global, store: &Store<'_, J, N>, threads: u16, crew: &C) -> Result<usize, Fault>
where
    N::Value: Send + Sync,
    ensures most { IfOk result (HasParts (C.has_done crew.now) threads) }
    ensures refused { IfErr result (λ fault. (fault ≡ NoMemory) ⊎ (fault ≡ TableFull)) }
{
    let root = ValueRoot::new(store);
    let work = Working { alloc, crew };
    run_steps(rt, alloc, threads, &root, &work)
}

/// A crew at work.
#[derive(Drop)]
struct Working<'c, C> {
    alloc: Global,
    crew: &'c C,
}

impl<'q, 's, J: PostSet, N: Wraps, C: ValueCrew<N::Value>> Round<ValueRoot<'q, 's, J, N>>
    for Working<'_, C> {
    ghost has_taken = { λ work step. DidStep (C.has_done work.crew.now) step };

    fn take_part(&self, step: Step, root: &ValueRoot<'q, 's, J, N>) -> Result<(), Fault> {
        let mut hold = ValueHold::join(self.alloc, root)?;
        take_step(step, &mut hold, self.crew);
        hold.leave();
        Ok(())
    }
}

// Has the crew take this step.
fn take_step<T, C: ValueCrew<T>, V: SharedValue<T>>(step: Step, value: &mut V, crew: &C)
    ensures { DidStep (C.has_done crew.now) step }
{
    match step {
        Step::Before => crew.before(value),
        Step::Thread(number) => crew.thread(number, value),
        Step::After => crew.after(value),
    }
}
