//! The table of a growing map: where each bucket begins, as far as that is known.

use crossbeam_utils::CachePadded;
use epoch_cells::Name;
use epoch_lend::array::set_once::SetOnce;
use std::alloc::{AllocError, Global};
use std::sync::atomic::Ordering::SeqCst;
use std::sync::atomic::{AtomicU64, AtomicUsize};

// How many buckets there are at first: 2 to the power of so many bits.
const FIRST_BITS: u32 = 6;

const FIRST: usize = 64;

// How many buckets are looked through together for where the new ones begin. It is a power of two.
pub(crate) const TOGETHER: usize = 8;

// The greatest number of bits that choose a bucket: our own bound, by which there is at most a bucket for each slot
// that names can have.
const MOST_BITS: u32 = 24;

// A bucket: that of a number, by the bits of the number that this mask has.
#[derive(Clone, Copy)]
pub(crate) struct Bucket {
    pub(crate) number: u64,
    pub(crate) mask: u64,
}

impl Bucket {
    // Returns its place in the table.
    #[inline(always)]
    pub(crate) fn index(self) -> u64 {
        self.number & self.mask
    }

    // Returns whether this number belongs to it.
    #[inline(always)]
    pub(crate) fn has(self, number: u64) -> bool {
        (self.number ^ number) & self.mask == 0
    }

    // Returns the bucket that comes before it in the list. `None`: it is the first one.
    ///
    // The list has them in the order of their reversed bits, in which the highest bit counts least: so the highest 1
    // becomes 0, and each bit above it 1.
    #[inline(always)]
    pub(crate) fn before(self) -> Option<Bucket> {
        let nearest = self.parent()?;
        let above = u64::MAX.wrapping_shl(64u32.wrapping_sub(self.index().leading_zeros()));
        Some(Bucket {
            number: nearest.number | (above & self.mask),
            mask: self.mask,
        })
    }

    // Returns the bucket of which it was a part until the number of buckets was doubled and it came to be. `None`: it
    // is the first one of all.
    #[inline(always)]
    pub(crate) fn parent(self) -> Option<Bucket> {
        let index = self.index();
        if index == 0 {
            return None;
        }
        let highest = 63u32.wrapping_sub(index.leading_zeros());
        Some(Bucket {
            number: index & !1u64.wrapping_shl(highest),
            mask: self.mask,
        })
    }
}

// Hints where buckets begin: for each bucket the name of a node, or none. Where their number doubles, they are copied
// into a table of their own. The tables from before stay until the end, for those who still look there.
#[derive(Drop)]
pub(crate) struct Table {
    // Which of the tables is in use. Each has twice as many hints as the one before.
    level: AtomicUsize,
    // For how many entries there are enough buckets. It is the greatest number while a thread adds some, and once there
    // are as many as there may be.
    enough_for: AtomicUsize,
    // A hint is a name's turn, times 2^32, and its slot, times 2^8, or 0.
    tables: SetOnce<Vec<AtomicU64>>,
    // How many of the buckets that there were before the last doubling were looked through, for where the new ones
    // begin.
    split: CachePadded<AtomicUsize>,
    alloc: Global,
}

// For how many entries so many buckets are enough: four for three of them.
fn entries_for(buckets: usize) -> usize {
    buckets.saturating_add(buckets / 3)
}

// So many hints: where a bucket begins is looked for from where the one begins, of these, of which it was a part. There
// are as many of these as a power of two, or none.
fn hints_after(
    alloc: Global,
    before: &[AtomicU64],
    count: usize,
) -> Result<Vec<AtomicU64>, AllocError> {
    let mut hints = Vec::with_capacity(alloc, count)?;
    for index in 0..count {
        let hint = match before.get(index & before.len().wrapping_sub(1)) {
            Some(hint) => hint.load(SeqCst),
            None => 0,
        };
        hints.push(AtomicU64::new(hint)).map_err(|_| AllocError)?;
    }
    Ok(hints)
}

// The name to which a hint leads.
#[inline(always)]
fn name_of(hint: u64) -> Option<Name> {
    Name::new(
        (hint / 0x100 % 0x100_0000) as u32,
        (hint / 0x1_0000_0000) as u32,
    )
}

impl Table {
    // Makes the hints of an empty map. It fails only if memory is refused.
    pub(crate) fn new(alloc: Global) -> Result<Table, AllocError> {
        let tables = SetOnce::new(alloc, (MOST_BITS - FIRST_BITS + 1) as usize)?;
        let _ = tables.set(0, hints_after(alloc, &[], FIRST)?);
        Ok(Table {
            level: AtomicUsize::new(0),
            enough_for: AtomicUsize::new(entries_for(FIRST)),
            tables,
            split: CachePadded::new(AtomicUsize::new(FIRST)),
            alloc,
        })
    }

    // The table that is in use.
    #[inline(always)]
    fn hints(&self) -> &[AtomicU64] {
        match self.tables.get(self.level.load(SeqCst)) {
            Some(hints) => hints.value.as_slice(),
            None => &[],
        }
    }

    // Returns how many buckets there are.
    #[inline(always)]
    pub(crate) fn buckets(&self) -> usize {
        self.hints().len()
    }

    // Returns the bucket of this number.
    #[inline(always)]
    pub(crate) fn bucket_of(&self, number: u64) -> Bucket {
        Bucket {
            number,
            mask: (self.buckets() as u64).wrapping_sub(1),
        }
    }

    // Returns the bucket of this number, and loads its hint.
    #[inline(always)]
    pub(crate) fn find(&self, number: u64) -> (Bucket, Option<Name>) {
        let hints = self.hints();
        let mask = (hints.len() as u64).wrapping_sub(1);
        let bucket = Bucket { number, mask };
        match hints.get(bucket.index() as usize) {
            Some(hint) => (bucket, name_of(hint.load(SeqCst))),
            None => (bucket, None),
        }
    }

    // Loads the hint of this bucket.
    #[inline(always)]
    pub(crate) fn load(&self, bucket: u64) -> Option<Name> {
        name_of(self.hints().get(bucket as usize)?.load(SeqCst))
    }

    // Stores the hint of this bucket.
    #[inline(always)]
    pub(crate) fn store(&self, bucket: u64, first: Option<Name>) {
        let hint = match first {
            Some(name) => name.turn() as u64 * 0x1_0000_0000 + name.slot() as u64 * 0x100,
            None => 0,
        };
        if let Some(stored) = self.hints().get(bucket as usize) {
            stored.store(hint, SeqCst);
        }
    }

    // Doubles the number of buckets if there are too few for so many entries.
    #[inline(always)]
    pub(crate) fn fit(&self, entries: usize) {
        let enough_for = self.enough_for.load(SeqCst);
        if entries > enough_for {
            self.grow(enough_for);
        }
    }

    // Doubles the number of buckets, unless another thread is about to do so, or memory is refused.
    #[cold]
    #[inline(never)]
    fn grow(&self, enough_for: usize) {
        let claimed = self
            .enough_for
            .compare_exchange(enough_for, usize::MAX, SeqCst, SeqCst);
        if claimed.is_err() {
            return;
        }
        let buckets = self.buckets();
        let doubled = buckets.wrapping_mul(2);
        let level = self.level.load(SeqCst).wrapping_add(1);
        let is_set = match hints_after(self.alloc, self.hints(), doubled) {
            Ok(hints) => self.tables.set(level, hints).is_ok(),
            Err(_) => false,
        };
        if !is_set {
            self.enough_for
                .store(enough_for.saturating_add(buckets / 4), SeqCst);
            return;
        }
        self.level.store(level, SeqCst);
        self.split.store(0, SeqCst);
        if doubled < 1usize.wrapping_shl(MOST_BITS) {
            self.enough_for.store(entries_for(doubled), SeqCst);
        }
    }

    // Returns the first of `TOGETHER` buckets, one after the other, that were there before the last doubling, and
    // were not looked through for where the new ones begin; and how many there were. `None`: all are, or are about to
    // be.
    #[inline(always)]
    pub(crate) fn unsplit(&self) -> Option<(u64, u64)> {
        let half = self.buckets() / 2;
        if self.split.load(SeqCst) >= half {
            return None;
        }
        let next = self.split.fetch_add(TOGETHER, SeqCst);
        if next >= half {
            return None;
        }
        Some((next as u64, half as u64))
    }
}
