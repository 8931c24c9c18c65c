//! The memory of a box whose value was taken out, kept for another value.
ghost use Rattle.std.specs.Prelude.{◌≡◌};
ghost use Rattle.std_alloc.specs.Vacant.{vacant};

use std::alloc::Allocator;
use std::marker::Model;
use std::mem::{align_of, size_of};

/// Memory for a value of type `T`, which a box had before. If it is dropped, it is freed.
pub struct Emptied<T, A: Allocator> {
    ptr: *mut T,
    alloc: A,
}

impl<T, A: Allocator> Model for Emptied<T, A> {
    ghost also_owns = { λ e. vacant (A.dealloc_token e.alloc) T.row e.ptr };
}

/// Takes the value out of its box, and keeps the box's memory.
#[inline(always)]
pub fn empty<T: Drop, A: Allocator>(whole: Box<T, A>) -> (T, Emptied<T, A>)
    // The value that is taken out of a box is the one that was in it.
    ensures { result.0 ≡ whole.value }
{
    let (ptr, alloc) = Box::into_raw_with_allocator(whole);
    let value = unsafe { ptr.read() };
    (value, Emptied { ptr, alloc })
}

impl<T, A: Allocator> Emptied<T, A> {
    /// Puts the value into the memory, which is a box again.
    #[inline(always)]
    pub fn fill(self, value: T) -> Box<T, A>
        // A box that is filled has the value that was given.
        ensures { result.value ≡ value }
    {
        let Emptied { ptr, alloc } = self;
        unsafe {
            ptr.write(value);
            Box::from_raw(alloc, ptr)
        }
    }

    // Frees the memory, and returns the allocator that it came from.
    #[inline(always)]
    fn free(self) -> A
        ensures { result ≡ self.alloc }
    {
        unsafe {
            self.alloc
                .deallocate(self.ptr as *mut u8, size_of::<T>(), align_of::<T>());
        }
        let Emptied { ptr: _, alloc } = self;
        alloc
    }
}

// Frees the memory. No value is dropped, since it holds none.
impl<T, A: Allocator> Drop for Emptied<T, A> {
    fn drop(self) {
        let alloc = self.free();
        drop(alloc);
    }
}

// It may go to another thread if a value that it may hold, and its allocator, may.
unsafe impl<T: Send, A: Allocator + Send> Send for Emptied<T, A> {}
