//! Pointers of a structure, as threads load and change them for its program.

use epoch_atomic::atomic::{Atomic, Pointable, Shared};
use epoch_handles::Home;
use epoch_laws::heap::{AccessAnswer, Change, Ptr};
use std::sync::atomic::Ordering::SeqCst;

// The pointer that a thread has for one of the program.
#[inline(always)]
pub(crate) fn shared<'g, T: Pointable>(ptr: Ptr, home: Home<'g, T>) -> Shared<'g, T> {
    let Some(name) = ptr.name else {
        return Shared::null().with_tag(ptr.tag as usize);
    };
    Shared::named_at(name, home).with_tag(ptr.tag as usize)
}

/// Returns the pointer that the program has for one of a thread.
#[inline(always)]
pub fn ptr_of<T>(shared: Shared<'_, T>) -> Ptr {
    Ptr {
        name: shared.name(),
        tag: shared.tag() as u64,
    }
}

// Exchanges the pointer there, if it is this one still, for the other.
#[inline(always)]
fn exchange_at<T: Pointable>(
    at: &Atomic<T>,
    current: Ptr,
    new: Ptr,
    home: Home<'_, T>,
) -> AccessAnswer {
    let (current, new) = (shared(current, home), shared(new, home));
    match at.compare_exchange_at(current, new, SeqCst, SeqCst, home) {
        Ok(written) => AccessAnswer::Exchanged(ptr_of(written)),
        Err(found) => AccessAnswer::Unchanged(ptr_of(found)),
    }
}

/// Stores this pointer there, or exchanges the one for the other, for the program. `Absent`: it is another change,
/// which no program of this library asks for.
#[inline(always)]
pub fn write_at<T: Pointable>(at: &Atomic<T>, change: Change, home: Home<'_, T>) -> AccessAnswer {
    match change {
        Change::Store(new) => {
            at.store_at(shared(new, home), SeqCst);
            AccessAnswer::Unit
        }
        Change::CompareExchange(current, new) => exchange_at(at, current, new, home),
        _ => AccessAnswer::Absent,
    }
}

// Loads, stores or exchanges the pointer there.
#[inline(always)]
pub(crate) fn change_at<T: Pointable>(
    at: &Atomic<T>,
    change: Change,
    home: Home<'_, T>,
) -> AccessAnswer {
    match change {
        Change::Load => AccessAnswer::Pointer(ptr_of(at.load_at(SeqCst, home))),
        _ => write_at(at, change, home),
    }
}
