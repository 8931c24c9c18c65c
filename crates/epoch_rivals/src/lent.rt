//! What the library's own sides have: a session and a writer for each thread, and a store.
ghost use Rattle.std.specs.Prelude.{◌≡◌, IsSome};

use crate::side::RoundPlan;
use epoch_cells::MOST_SLOT;
use epoch_lend::domain::Domain;
use epoch_lend::readers::posts::{Made, PostSet};
use epoch_lend::session::Session;
use epoch_lend_pointers::{LentCells, Store, Writer};
use std::alloc::Global;
use std::io;
use std::sync::Wait;

/// Posts for each thread, so that threads pin in different lines of the cache.
const POSTS: u64 = 16;

/// What one thread has: a session with no guard out, and a writer.
pub struct LentOwn<'q, 's, J: PostSet, T> {
    pub(crate) session: Session<'s, J>,
    pub(crate) writer: Writer<'q, 's, J, T>,
    ghost free: { IsSome session.reader },
}

impl<'q, 's, J: PostSet, T: Drop> LentOwn<'q, 's, J, T> {
    /// Takes a post, and makes a writer. `None`: there is no free post, or no memory.
    pub fn join(alloc: Global, store: &'q Store<'s, J, T>) -> Option<LentOwn<'q, 's, J, T>> {
        let session = store.domain().session()?;
        match Writer::new(alloc, store) {
            Ok(writer) => Some(LentOwn { session, writer }),
            Err(_) => None,
        }
    }

    /// Gives the post and the cells back, and tries again for as long as there is no memory for what was retired.
    pub fn leave<R: Wait>(self, rt: &R) {
        let LentOwn { session, writer } = self;
        session.release();
        let mut staying = writer;
        for _ in rt.forever() {
            match staying.release() {
                Ok(()) => return,
                Err((writer, _)) => staying = writer,
            }
        }
        unreachable!()
    }
}

/// Makes the posts for rounds.
pub fn made_for(alloc: Global, plan: RoundPlan) -> io::Result<Made> {
    let posts = usize::try_from(plan.threads.saturating_mul(POSTS)).unwrap_or(usize::MAX);
    Ok(Made::new(alloc, posts)?)
}

/// Makes cells in this domain: so many at first, and as many as `count` when they are needed.
pub fn cells_in<J: PostSet, T: Drop>(
    alloc: Global,
    first: u32,
    count: u32,
    domain: &Domain<J>,
) -> io::Result<LentCells<J, T>> {
    if count > MOST_SLOT {
        return Err(io::Error::from(io::ErrorKind::InvalidInput));
    }
    match LentCells::with_capacity(alloc, first, count, domain) {
        Ok(cells) => Ok(cells),
        Err(_) => Err(io::Error::from(io::ErrorKind::OutOfMemory)),
    }
}

/// Makes the store of these cells.
pub fn store_of<'s, J: PostSet, T: Drop>(
    alloc: Global,
    domain: &'s Domain<J>,
    cells: &'s mut LentCells<J, T>,
) -> io::Result<Store<'s, J, T>> {
    match Store::new(alloc, domain, cells) {
        Ok(store) => Ok(store),
        Err(_) => Err(io::Error::from(io::ErrorKind::OutOfMemory)),
    }
}
