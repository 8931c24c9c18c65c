//! Starts threads that share something, and comes back when they are done.
ghost use Rattle.std.specs.Prelude.{◌≡◌, ◌⊎◌, ◌≤◌, length, count_by, IsTrue, IfOk, IfErr};
ghost use Rattle.epoch_cells.specs.declared.fault.Fault.TheVariants.{NoMemory, TableFull};
ghost use Rattle.epoch_shared.specs.declared.start.Step.{Step};
ghost use Rattle.epoch_shared.specs.declared.start.Step.TheVariants.{Thread};
ghost use Rattle.epoch_shared.specs.Parts.{EndsStep, HasParts};

use epoch_cells::Fault;
use std::alloc::Global;
use std::thread;
use std::thread::Threads;

/// What a crew is to do.
#[derive(Clone, Copy)]
pub(crate) enum Step {
    Before,
    Thread(usize),
    After,
}

/// What one thread does with what threads share, `H`. Threads are started over this trait alone, since all that is
/// known of a crew would be more than the checker compares.
pub(crate) trait Round<H> {
    /// This step was taken.
    ghost has_taken: { Self → Step → Type 0 };

    /// Takes this step, with a half of its own of what is shared.
    fn take_part(&self, step: Step, root: &H) -> Result<(), Fault>
        ensures { EndsStep (has_taken self.now step) result };
}

// Starts all threads, and comes back when they are done. Returns how many took part.
fn start_all<R: Threads + Sync, H: Sync, W: Round<H> + Sync>(
    rt: &R,
    alloc: Global,
    threads: u16,
    root: &H,
    work: &W,
) -> Result<usize, Fault>
    ensures most { IfOk result (HasParts (λ number. W.has_taken work.now (Thread number)) threads) }
    ensures refused { IfErr result (λ fault. fault ≡ NoMemory) }
{
    let part = |number: usize| -> bool
        ensures { IsTrue result → W.has_taken work.entry.now (Thread number) }
    { work.take_part(Step::Thread(number), root).is_ok() };
    match thread::map_indices(rt, alloc, threads as usize, &part) {
        Ok(done) => Ok(how_many(done.as_slice())),
        Err(_) => Err(Fault::NoMemory),
    }
}

// Has the crew begin, starts all threads, and has the crew end. Returns how many threads took part.
pub(crate) fn run_steps<R: Threads + Sync, H: Sync, W: Round<H> + Sync>(
    rt: &R,
    alloc: Global,
    threads: u16,
    root: &H,
    work: &W,
) -> Result<usize, Fault>
    ensures most { IfOk result (HasParts (λ number. W.has_taken work.now (Thread number)) threads) }
    ensures refused { IfErr result (λ fault. (fault ≡ NoMemory) ⊎ (fault ≡ TableFull)) }
{
    work.take_part(Step::Before, root)?;
    let done = start_all(rt, alloc, threads, root, work)?;
    work.take_part(Step::After, root)?;
    Ok(done)
}

// How many are `true`.
fn how_many(all: &[bool]) -> usize
    ensures most { result ≤ length all.now }
    ensures count { result ≡ count_by (λ is_done. is_done) all.now }
{
    all.iter().filter(|is_done| **is_done).count()
}
