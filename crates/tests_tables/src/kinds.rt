//! The types of std whose values may stand behind pointers, and aren't plain whole numbers.
use crate::wants::want;
use epoch_atomic::{Plain, Pointable};
use std::alloc::Global;
use std::process::Abort;
use std::sync::Arc;
use std::sync::atomic::Ordering::SeqCst;
use std::sync::atomic::{AtomicBool, AtomicU32, AtomicU64, AtomicUsize};

// The alignments of these types in Rust.
#[test]
fn pointers_have_as_many_tags_as_the_alignment_in_rust(rt: HostRuntime) {
    let numbers = [<() as Pointable>::ALIGN, f32::ALIGN, f64::ALIGN];
    want(&rt, "the unit and numbers", numbers, [1, 4, 8]);
    let atomics = [
        AtomicBool::ALIGN,
        AtomicU32::ALIGN,
        AtomicU64::ALIGN,
        AtomicUsize::ALIGN,
    ];
    want(&rt, "atomics", atomics, [1, 4, 8, 8]);
    let behind = [
        <&'static str as Pointable>::ALIGN,
        <Box<u8> as Pointable>::ALIGN,
        <Arc<u8> as Pointable>::ALIGN,
    ];
    want(&rt, "a text, a box, and a counted value", behind, [8, 8, 8]);
    let made = [
        <Option<u32> as Pointable>::ALIGN,
        <[u16; 3] as Pointable>::ALIGN,
        // Of these the alignment in Rust may be less: it is that of the largest part.
        <(u8, u8) as Pointable>::ALIGN,
        <(u8, u16, u8) as Pointable>::ALIGN,
        <Plain<u8> as Pointable>::ALIGN,
    ];
    want(&rt, "what is made of others", made, [4, 2, 8, 8, 8]);
}

/// The value that the type makes.
fn made<T: Pointable>(rt: &impl Abort, alloc: Global, init: T::Init) -> T {
    T::init(alloc, init).expect(rt, "nothing is allocated")
}

// Of other values a clause says it. No clause says what an atomic holds.
#[test]
fn atomics_are_made_from_themselves(rt: HostRuntime) {
    let alloc = rt.alloc();
    let flag = made::<AtomicBool>(&rt, alloc, AtomicBool::new(true));
    want(&rt, "a flag", flag.load(SeqCst), true);
    let small = made::<AtomicU32>(&rt, alloc, AtomicU32::new(7));
    want(&rt, "an atomic u32", small.load(SeqCst), 7);
    let number = made::<AtomicU64>(&rt, alloc, AtomicU64::new(8));
    want(&rt, "an atomic u64", number.load(SeqCst), 8);
    let size = made::<AtomicUsize>(&rt, alloc, AtomicUsize::new(9));
    want(&rt, "an atomic usize", size.load(SeqCst), 9);
}
