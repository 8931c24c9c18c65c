//! Threads that read values behind shared pointers, replace them and retire them, all at once.
ghost use Rattle.std.specs.Prelude.{◌≡◌, ◌+◌, ◌<◌, refl};
ghost use Rattle.std.proofs.Common.{lit≤};

use crate::lent::{CELLS, LentIdle, LentRound, cells_in, domain_over, made_for, store_of};
use crate::rounds::{Round, RoundSize, all_rounds};
use epoch_atomic::atomic::{Atomic, Pointable, Shared};
use epoch_cells::Fault;
use epoch_lend::readers::posts::{Made, PostSet};
use epoch_lend::session::LendingGuard;
use epoch_lend_pointers::{Store, Writer};
use std::alloc::{AllocError, Global};
use std::marker::Brand;
use std::sync::atomic::AtomicU64;
use std::sync::atomic::Ordering::SeqCst;
use std::sync::{Arc, Wait};
use std::thread::Threads;
use std::time::Clock;
use std::{io, thread};

/// Pointers that the threads share.
const POINTERS: usize = 16;

/// Flushes that take back what was retired, once no guard is out.
const FLUSHES: u32 = 8;

/// How often a thread reads under one pin, and of how many words a value is.
const READS: usize = 8;

const WORDS: usize = 4;

/// A number, several times, in memory of its own, which goes when the value is dropped.
struct Block {
    number: u64,
    copies: Vec<u64>,
    dropped: Option<Arc<AtomicU64>>,
}

impl Block {
    fn new(alloc: Global, number: u64, dropped: &Arc<AtomicU64>) -> Result<Block, AllocError> {
        let mut copies = Vec::with_capacity(alloc, WORDS)?;
        for _ in 0..WORDS {
            copies.push(number).map_err(|_| AllocError)?;
        }
        Ok(Block {
            number,
            copies,
            dropped: Arc::try_clone(dropped).ok(),
        })
    }

    /// Whether it is as it was made.
    fn is_whole(&self) -> bool {
        let mut same: usize = 0;
        for copy in &self.copies {
            if *copy == self.number {
                same = same.wrapping_add(1);
            }
        }
        same == WORDS
    }
}

impl Drop for Block {
    fn drop(self) {
        let Block {
            number: _,
            copies: _,
            dropped,
        } = self;
        if let Some(dropped) = dropped {
            dropped.fetch_add(1, SeqCst);
        }
    }
}

impl Pointable for Block {
    ghost ALIGN = { 8 };

    ghost log = { 3 };

    ghost is_power = { refl };

    ghost is_small = { lit≤ tt };

    const ALIGN: usize = 8;

    type Init = Block;

    ghost init_gives = { λ init block. block ≡ init };

    fn init(_alloc: Global, init: Block) -> Result<Block, Fault> {
        Ok(init)
    }
}

/// What the threads share, and what they count.
#[derive(Drop)]
struct BlockShelf {
    alloc: Global,
    pointers: Vec<Atomic<Block>>,
    dropped: Arc<AtomicU64>,
    placed: AtomicU64,
    reads: AtomicU64,
    // Values that were read and aren't as they were made.
    torn: AtomicU64,
    free: AtomicU64,
}

impl BlockShelf {
    fn new(alloc: Global) -> Result<BlockShelf, AllocError> {
        let mut pointers = Vec::with_capacity(alloc, POINTERS)?;
        for _ in 0..POINTERS {
            pointers.push(Atomic::null()).map_err(|_| AllocError)?;
        }
        Ok(BlockShelf {
            alloc,
            pointers,
            dropped: Arc::new(alloc, AtomicU64::new(0)).map_err(|_| AllocError)?,
            placed: AtomicU64::new(0),
            reads: AtomicU64::new(0),
            torn: AtomicU64::new(0),
            free: AtomicU64::new(0),
        })
    }

    /// The pointer of this turn.
    fn pointer(&self, turn: usize) -> Option<&Atomic<Block>> {
        self.pointers.get(turn % POINTERS)
    }
}

/// What a round did.
#[derive(Clone, Copy)]
pub struct ReplacingTold {
    pub placed: u64,
    pub dropped: u64,
    pub reads: u64,
    pub torn: u64,
    /// Cells that were free in the end, of [`CELLS`].
    pub free: u64,
}

/// Reads a value twice, while others replace it.
fn read<'s, J: PostSet>(
    shelf: &BlockShelf,
    store: &Store<'s, J, Block>,
    guard: &LendingGuard<'_, J>,
    turn: usize,
) {
    let Some(pointer) = shelf.pointer(turn) else {
        return;
    };
    if let Some(block) = store.get(store.load(pointer, SeqCst, guard), guard) {
        let first = block.is_whole();
        if turn % 64 == 0 {
            thread::yield_now();
        }
        if !first || !block.is_whole() {
            shelf.torn.fetch_add(1, SeqCst);
        }
        shelf.reads.fetch_add(1, SeqCst);
    }
}

/// Reads several values.
fn read_some<'s, J: PostSet>(
    shelf: &BlockShelf,
    store: &Store<'s, J, Block>,
    guard: &LendingGuard<'_, J>,
    turn: usize,
) {
    for index in 0..READS {
        read(shelf, store, guard, index ^ turn);
    }
}

/// Makes a new value, and counts it. `None`: there is no memory.
fn made(shelf: &BlockShelf) -> Option<Block> {
    let number = shelf.placed.fetch_add(1, SeqCst);
    let block = Block::new(shelf.alloc, number, &shelf.dropped);
    if block.is_err() {
        shelf.placed.fetch_sub(1, SeqCst);
    }
    block.ok()
}

/// Places a new value. `None`: there is no memory, or no free cell.
fn place<'g, 'q: 'g, 's, J: PostSet>(
    shelf: &BlockShelf,
    writer: &mut Writer<'q, 's, J, Block>,
    guard: &'g LendingGuard<'_, J>,
) -> Option<Shared<'g, Block>> {
    // (a value that is handed back is dropped here, and counted)
    writer.place(guard, made(shelf)?).ok()
}

/// Puts a new value behind a pointer, and retires the one before.
fn replace<'s, J: PostSet>(
    shelf: &BlockShelf,
    writer: &mut Writer<'_, 's, J, Block>,
    guard: &LendingGuard<'_, J>,
    turn: usize,
) {
    if writer.make_room().is_err() {
        return;
    }
    let Some(pointer) = shelf.pointer(turn) else {
        return;
    };
    if let Some(placed) = place(shelf, writer, guard) {
        let before = writer.store().swap(pointer, placed, SeqCst, guard);
        if !before.is_null() {
            let _ = writer.retire(before);
        }
    }
}

impl<'q, 's, J: PostSet> LentIdle<'q, 's, J, Block> {
    /// Reads and replaces, under one pin.
    fn read_and_replace(&mut self, shelf: &BlockShelf, turn: usize) {
        let guard = self.session.pin();
        read_some(shelf, self.writer.store(), &guard, turn);
        replace(shelf, &mut self.writer, &guard, turn);
        self.session.unpin(guard);
    }

    /// Takes the value of this turn's pointer out, and retires it.
    fn clear(&mut self, shelf: &BlockShelf, turn: usize) {
        let guard = self.session.pin();
        if let Some(pointer) = shelf.pointer(turn) {
            let null = Shared::null();
            let before = self.writer.store().swap(pointer, null, SeqCst, &guard);
            if !before.is_null() {
                let _ = self.writer.retire(before);
            }
        }
        self.session.unpin(guard);
    }

    /// Fills a cell, and counts it if one was free.
    fn fill(&mut self, shelf: &BlockShelf) {
        let guard = self.session.pin();
        if place(shelf, &mut self.writer, &guard).is_some() {
            shelf.free.fetch_add(1, SeqCst);
        }
        self.session.unpin(guard);
    }

    /// Takes the last values out, and then counts the cells that are free. No other session may be left.
    fn clear_and_fill(&mut self, shelf: &BlockShelf) {
        for turn in 0..POINTERS {
            self.clear(shelf, turn);
        }
        for _ in 0..FLUSHES {
            let _ = self.writer.flush();
        }
        for _ in 0..=CELLS {
            self.fill(shelf);
        }
    }
}

impl<'w, 'q, 's, J> Round for LentRound<'w, 'q, 's, J, Block, BlockShelf>
where
    J: PostSet + Send + Sync,
{
    type Participant = LentIdle<'q, 's, J, Block>;

    fn register(&self) -> Option<LentIdle<'q, 's, J, Block>> {
        LentIdle::join(self.alloc, self.store)
    }

    fn turns<R: Wait>(&self, _rt: &R, idle: &mut LentIdle<'q, 's, J, Block>, turns: u64) -> u64 {
        for turn in 0..turns {
            idle.read_and_replace(self.shared, turn as usize);
        }
        turns
    }

    fn leave<R: Wait>(&self, rt: &R, idle: LentIdle<'q, 's, J, Block>) {
        idle.leave(rt);
    }
}

/// Has the threads read and replace values, and then takes the last ones out.
fn shelf_rounds_in<'s, R: Clock + Threads + Wait + Sync, J: PostSet + Send + Sync>(
    rt: &R,
    alloc: Global,
    size: RoundSize,
    store: &Store<'s, J, Block>,
    shelf: &BlockShelf,
) {
    let round = LentRound {
        alloc,
        store,
        shared: shelf,
    };
    let _ = all_rounds(rt, size, &round, &mut [0]);
    if let Some(idle) = LentIdle::join(alloc, store) {
        let mut clearing = idle;
        clearing.clear_and_fill(shelf);
        clearing.leave(rt);
    }
}

fn shelf_rounds<R: Clock + Threads + Wait + Sync, J: PostSet + Send + Sync>(
    rt: &R,
    alloc: Global,
    made: Made,
    size: RoundSize,
    shelf: &BlockShelf,
) -> io::Result<()>
    requires { made.posts.items ≡ J.posts }
{
    let domain = domain_over::<J>(alloc, made)?;
    let mut cells = cells_in(alloc, &domain)?;
    let store = store_of::<J, Block>(alloc, &domain, &mut cells)?;
    shelf_rounds_in(rt, alloc, size, &store, shelf);
    let _ = store.end();
    Ok(())
}

/// Has this many threads read and replace values, each in this many turns, and tells what was placed, read and dropped.
pub fn run<R: Clock + Threads + Wait + Sync>(
    rt: &R,
    alloc: Global,
    size: RoundSize,
) -> io::Result<ReplacingTold> {
    let shelf = BlockShelf::new(alloc)?;
    let made = made_for(alloc, size)?;
    shelf_rounds::<R, Brand>(rt, alloc, made, size, &shelf)?;
    Ok(ReplacingTold {
        placed: shelf.placed.load(SeqCst),
        dropped: shelf.dropped.load(SeqCst),
        reads: shelf.reads.load(SeqCst),
        torn: shelf.torn.load(SeqCst),
        free: shelf.free.load(SeqCst),
    })
}
