//! How many posts and cells a shared structure has.
ghost use Rattle.std.specs.Prelude.{◌≡◌, ◌⊎◌, ◌≤◌, ◌+◌, ◌*◌, IfErr};
ghost use Rattle.epoch_cells.specs.declared.fault.Fault.TheVariants.{NoMemory};

use epoch_cells::{Fault, MOST_SLOT};
use epoch_lend::readers::posts::Made;
use std::alloc::Global;

/// Cells for each thread: for its next values, and for those that wait to be dropped.
const FOR_EACH_THREAD: u32 = 192;

/// Posts for each thread, so that threads pin in different lines of the cache.
const POSTS: usize = 16;

/// How many posts a domain has for so many threads, and for the one that starts them.
pub(crate) fn posts_for(threads: u16) -> usize
    ensures { result ≡ (threads + 1) * 16 }
{
    (threads as usize + 1) * POSTS
}

/// Makes so many posts.
pub(crate) fn make_posts(alloc: Global, count: usize) -> Result<Made, Fault>
    ensures { IfErr result (λ fault. fault ≡ NoMemory) }
{
    match Made::new(alloc, count) {
        Ok(made) => Ok(made),
        Err(_) => Err(Fault::NoMemory),
    }
}

/// How many cells a store has for so many values and threads: as many as they need, or the most there can be.
pub(crate) fn cells_for(values: u32, threads: u16) -> u32
    ensures enough { (result ≡ values + (threads + 1) * 192) ⊎ (result ≡ MOST_SLOT) }
    ensures within { result ≤ MOST_SLOT }
{
    let for_threads = (threads as u32 + 1) * FOR_EACH_THREAD;
    values.saturating_add(for_threads).min(MOST_SLOT)
}

/// How large shared structures are.
#[derive(Clone, Copy, Debug, PartialEq, Eq)]
pub struct SharedSizes {
    /// How many threads are started.
    pub threads: u16,
    /// How many entries the map has at most, if it is a cache. `None`: as many as are inserted, up to some 16 million.
    pub capacity: Option<u32>,
    /// How many messages can wait in the channel at a time, at least, up to some 16 million.
    pub messages: u32,
}
