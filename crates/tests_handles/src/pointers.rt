//! Pointers to values in cells: null, tags, full cells, values that are read, and how pointers are shown.
use crate::calls::{collector, end, let_go};
use crate::pointers::seen::{changed, want_destroyed, want_pointer, want_tag};
use crate::wants::{want, want_ok, want_shown, want_some, want_true};
use epoch::atomic::{Array, Atomic, Owned, Pointable, Pointer, Shared, UpdateFault};
use epoch::{Called, Capacities, Guard, unprotected};
use std::alloc::Global;
use std::process::Abort;
use std::sync::atomic::Ordering::SeqCst;

mod exchanges;
pub(crate) mod seen;
mod values;

/// What is done with pointers under an unprotected guard.
#[derive(Clone, Copy)]
enum Case {
    TagsOfNull,
    Refused,
    Held,
    Shown,
}

/// Does this under the guard.
fn act(rt: &impl Abort, alloc: Global, guard: &Guard<'_, u64>, case: Case) {
    match case {
        Case::TagsOfNull => exchanges::tags_of_null(rt, alloc, guard),
        Case::Refused => values::refused(rt, alloc, guard),
        Case::Held => values::held(rt, alloc, guard),
        Case::Shown => values::shown(rt, alloc, guard),
    }
}

/// Does this under an unprotected guard of a collector with this many cells.
fn under_guard(rt: &impl Abort, alloc: Global, cells: u32, case: Case) {
    let collector = collector(rt, alloc, Capacities::usual(1, cells, 1));
    let guard = unprotected(&collector);
    act(rt, alloc, &guard, case);
    let_go(rt, guard);
    end(rt, collector, 0);
}

/// An owned value.
fn owned(rt: &impl Abort, alloc: Global, value: u64) -> Owned<u64> {
    want_ok(rt, "memory for a value", Owned::new(alloc, value))
}

/// A pointer to this value, for which a cell is free.
fn atomic(rt: &impl Abort, alloc: Global, value: u64, guard: &Guard<'_, u64>) -> Atomic<u64> {
    want_ok(rt, "a cell is free", Atomic::new(alloc, value, guard))
}

#[test]
fn a_null_pointer_has_no_value_whatever_its_tag(rt: HostRuntime) {
    under_guard(&rt, rt.alloc(), 1, Case::TagsOfNull);
}

#[test]
fn each_call_that_needs_a_cell_is_refused_by_full_cells(rt: HostRuntime) {
    under_guard(&rt, rt.alloc(), 1, Case::Refused);
}

#[test]
fn a_value_that_is_read_is_neither_taken_back_nor_destroyed(rt: HostRuntime) {
    under_guard(&rt, rt.alloc(), 1, Case::Held);
}

#[test]
fn pointers_are_shown_without_addresses(rt: HostRuntime) {
    under_guard(&rt, rt.alloc(), 1, Case::Shown);
}

// The alignments of these types in Rust.
#[test]
fn tags_are_taken_modulo_the_alignment(rt: HostRuntime) {
    let small = [u8::ALIGN, i8::ALIGN, bool::ALIGN, u16::ALIGN, i16::ALIGN];
    want(&rt, "one byte or two", small, [1, 1, 1, 2, 2]);
    let middle = [u32::ALIGN, i32::ALIGN, char::ALIGN];
    want(&rt, "four bytes", middle, [4, 4, 4]);
    let large = [u64::ALIGN, i64::ALIGN, usize::ALIGN, isize::ALIGN];
    want(&rt, "eight bytes", large, [8, 8, 8, 8]);
    let behind = [
        String::ALIGN,
        <Vec<u8> as Pointable>::ALIGN,
        <Array<u8> as Pointable>::ALIGN,
    ];
    want(&rt, "a String, a Vec and an Array", behind, [8, 8, 8]);
    want(&rt, "sixteen bytes", [u128::ALIGN, i128::ALIGN], [16, 16]);
}
