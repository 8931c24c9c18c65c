//! Memory for values side by side, each in a place of its own.
ghost use Rattle.std.specs.Prelude.{◌≡◌, ℕ, ◌+◌, ◌<◌, IfOk};
ghost use denote.RawPtr.{Ptr, coded_ptr};
ghost use Rattle.std_alloc.specs.Vec.Ownership.{FitsInBlock};
ghost use Rattle.epoch_lend.specs.Blocks.{place_in, block_owns, block_shares};

use crate::cells::turns::{Place, TurnClaim};
use std::alloc::{AllocError, Allocator};
use std::marker::{Model, PhantomData};
use std::mem::{align_of, size_of};
use std_alloc::room::may_hold;

/// A block of memory with a place for each of some values. Places are taken out of it from the first on, and put back
/// from the last one on. It has no bytes. Dropped, it leaves the memory where it is for good.
#[derive(Drop)]
pub struct Block<T, A: Allocator> {
    marker: PhantomData<(T, A)>,
    pub ghost heap: { A },
    pub ghost at: { Ptr } by { coded_ptr },
    pub ghost stride: { ℕ },
    pub ghost taken: { ℕ },
    pub ghost left: { ℕ },
}

impl<T, A: Allocator> Model for Block<T, A> {
    ghost also_owns = { λ b. block_owns T.row (A.dealloc_token b.heap) b.at b.stride b.taken b.left };

    ghost also_shares = { λ b _ κ. block_shares T.row b.at b.stride (b.taken + b.left) κ };
}

impl<T, A: Allocator> Block<T, A> {
    /// Takes memory for this many values, and returns where it begins. It fails only if memory is refused, as it is for
    /// more values than fit in memory.
    pub fn new(alloc: &A, count: usize) -> Result<(*const T, Block<T, A>), AllocError>
        ensures { IfOk result (λ made. (made.1.heap ≡ alloc.now) × (made.1.at ≡ made.0) × (made.1.taken ≡ 0)
            × (made.1.left ≡ count)) }
    {
        if !may_hold::<T>(count) {
            return Err(AllocError);
        }
        Block::allocate(alloc, count)
    }

    // Takes memory for this many values, which is known to be no more than fit in memory.
    fn allocate(alloc: &A, count: usize) -> Result<(*const T, Block<T, A>), AllocError>
        requires { FitsInBlock T.row count }
        ensures { IfOk result (λ made. (made.1.heap ≡ alloc.now) × (made.1.at ≡ made.0) × (made.1.taken ≡ 0)
            × (made.1.left ≡ count)) }
    {
        match alloc.allocate(count * size_of::<T>(), align_of::<T>()) {
            Ok(room) => {
                let at = room as *const T;
                let marker = PhantomData;
                Ok((at, Block { marker }))
            }
            Err(error) => Err(error),
        }
    }

    /// Returns where the place with this number is, in the block that begins there.
    #[inline(always)]
    pub fn place(&self, base: *const T, index: usize) -> *const T
        requires { (base ≡ self.now.at) × (index < self.now.taken + self.now.left) }
        ensures { result ≡ place_in self.now.at self.now.stride index }
    {
        unsafe { base.add(index) }
    }

    /// Takes the next place out of the block.
    pub fn take(self, at: *const T) -> (Block<T, A>, Place<T>)
        requires { (at ≡ place_in self.at self.stride self.taken) × (0 < self.left) }
        ensures block { (result.0.heap ≡ self.heap) × (result.0.at ≡ self.at) × (result.0.stride ≡ self.stride)
            × (result.0.taken ≡ self.taken + 1) × (result.0.left + 1 ≡ self.left) }
        ensures place { result.1.at ≡ at }
    {
        let Block { marker } = self;
        (Block { marker }, Place { at })
    }

    /// Puts the last place that was taken back into the block. There is no value in it.
    pub fn put_back(self, index: usize, claim: TurnClaim<T>) -> Block<T, A>
        requires { (claim.right ≡ 1) × (claim.at ≡ place_in self.at self.stride index) × (self.taken ≡ index + 1) }
        ensures { (result.heap ≡ self.heap) × (result.at ≡ self.at) × (result.stride ≡ self.stride)
            × (result.taken ≡ index) × (result.left ≡ self.left + 1) }
    {
        let Block { marker } = self;
        let TurnClaim { at: _ } = claim;
        let _ = index;
        Block { marker }
    }

    /// Frees the block, each of whose places is in it.
    pub fn free(self, alloc: &A, base: *const T, count: usize)
        requires { (self.heap ≡ alloc.now) × (self.at ≡ base) × (self.taken ≡ 0) × (self.left ≡ count) }
    {
        let Block { marker: _ } = self;
        unsafe {
            alloc.deallocate(base as *mut u8, count * size_of::<T>(), align_of::<T>());
        }
    }
}

unsafe impl<T: Send, A: Allocator + Send> Send for Block<T, A> {}

unsafe impl<T: Send, A: Allocator + Send> Sync for Block<T, A> {}
