//! How a thread gives its writer up.
use epoch_lend::readers::posts::PostSet;
use epoch_lend_pointers::Writer;
use std::mem::ManuallyDrop;
use std::thread;

/// How often a writer is released at most.
const RELEASES: u32 = 1_000;

// Releases the writer. If memory is refused to it again and again, it is left as it is: the values that it has
// retired are dropped at the store's end, and only its own list of them is never freed.
pub(crate) fn leave<J: PostSet, T: Drop>(writer: Writer<'_, '_, J, T>) {
    let mut staying = writer;
    for _ in 0..RELEASES {
        match staying.release() {
            Ok(()) => return,
            Err((writer, _)) => staying = writer,
        }
        thread::yield_now();
    }
    // No one has to take it out again: all that it owns is memory.
    let _left = unsafe { ManuallyDrop::new_unchecked(staying) };
}
