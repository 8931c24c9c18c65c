//! Rounds on values that are lent: what each thread has, and where they work.
ghost use Rattle.std.specs.Prelude.{◌≡◌, IsSome};

use crate::rounds::RoundSize;
use epoch_lend::domain::Domain;
use epoch_lend::readers::posts::{Made, PostSet, Posts};
use epoch_lend::session::Session;
use epoch_lend_pointers::{LentCells, Store, Writer};
use std::alloc::Global;
use std::io;
use std::sync::Wait;

/// Cells of a store.
pub const CELLS: u32 = 4_096;

/// Posts for each thread, so that threads pin in different lines of the cache.
const POSTS: u64 = 16;

/// What one thread has: a session with no guard out, and a writer.
pub struct LentIdle<'q, 's, J: PostSet, T> {
    pub(crate) session: Session<'s, J>,
    pub(crate) writer: Writer<'q, 's, J, T>,
    ghost free: { IsSome session.reader },
}

impl<'q, 's, J: PostSet, T: Drop> LentIdle<'q, 's, J, T> {
    /// Takes a post, and makes a writer. `None`: there is no free post, or no memory.
    pub fn join(alloc: Global, store: &'q Store<'s, J, T>) -> Option<LentIdle<'q, 's, J, T>> {
        let session = store.domain().session()?;
        match Writer::new(alloc, store) {
            Ok(writer) => Some(LentIdle { session, writer }),
            Err(_) => None,
        }
    }

    /// Pins and unpins this many times.
    #[inline(never)]
    pub fn pins(&mut self, turns: u64) -> u64 {
        for _ in 0..turns {
            self.pin_once();
        }
        turns
    }

    #[inline(always)]
    fn pin_once(&mut self) {
        let guard = self.session.pin();
        self.session.unpin(guard);
    }

    /// Gives the post and the cells back, and tries again for as long as there is no memory for what was retired.
    pub fn leave<R: Wait>(self, rt: &R) {
        let LentIdle { session, writer } = self;
        session.release();
        let mut staying = writer;
        for _ in rt.forever() {
            match staying.release() {
                Ok(()) => return,
                Err((writer, _)) => staying = writer,
            }
        }
        unreachable!()
    }
}

/// What the threads of a round share. `S` is what they work on.
#[derive(Drop)]
pub struct LentRound<'w, 'q, 's, J: PostSet, T, S> {
    pub alloc: Global,
    pub store: &'q Store<'s, J, T>,
    pub shared: &'w S,
}

/// Makes the posts of a round.
pub fn made_for(alloc: Global, size: RoundSize) -> io::Result<Made> {
    let posts = usize::try_from(size.threads.saturating_mul(POSTS)).unwrap_or(usize::MAX);
    Ok(Made::new(alloc, posts)?)
}

/// Makes a domain of these posts.
pub fn domain_over<J: PostSet>(alloc: Global, made: Made) -> io::Result<Domain<J>>
    requires { made.posts.items ≡ J.posts }
{
    Ok(Domain::new(Posts::<J>::of(alloc, made)?))
}

/// Makes cells for a store.
pub fn cells_in<J: PostSet, T: Drop>(
    alloc: Global,
    domain: &Domain<J>,
) -> io::Result<LentCells<J, T>> {
    match LentCells::with_capacity(alloc, CELLS, CELLS, domain) {
        Ok(cells) => Ok(cells),
        Err(_) => Err(io::Error::from(io::ErrorKind::OutOfMemory)),
    }
}

/// Makes the store of these cells.
pub fn store_of<'s, J: PostSet, T: Drop>(
    alloc: Global,
    domain: &'s Domain<J>,
    cells: &'s mut LentCells<J, T>,
) -> io::Result<Store<'s, J, T>> {
    match Store::new(alloc, domain, cells) {
        Ok(store) => Ok(store),
        Err(_) => Err(io::Error::from(io::ErrorKind::OutOfMemory)),
    }
}
