use super::*;

// Where no cell is free, each call that needs one is refused, and the Atomic stays as it was.
pub(crate) fn refused(rt: &impl Abort, alloc: Global, guard: &Guard<'_, u64>) {
    let atomic = atomic(rt, alloc, 1, guard);
    let before = atomic.load(SeqCst, guard);
    let stored = atomic.store(owned(rt, alloc, 2), SeqCst, guard);
    want_true(rt, "no second value is stored", stored.is_err());
    let swapped = atomic.swap(owned(rt, alloc, 3), SeqCst, guard);
    want_true(rt, "no second value is swapped", swapped.is_err());
    let made = Atomic::from_owned(owned(rt, alloc, 4), guard);
    want_true(rt, "no Atomic is made of a second value", made.is_err());
    let placed = owned(rt, alloc, 5).into_shared(guard);
    want_true(rt, "no second value is placed", placed.is_err());
    let new = owned(rt, alloc, 6);
    let exchanged = atomic.compare_exchange(before, new, SeqCst, SeqCst, guard);
    let text = "Err(Full(Owned { tag: 0, .. }))";
    want_shown(rt, alloc, &exchanged, text);
    want_pointer(rt, "it stays", atomic.load(SeqCst, guard), before);
}

// Whether the owned value is not taken back, and the same pointer handed on.
fn is_stuck(placed: Shared<'_, u64>, guard: &Guard<'_, u64>) -> bool {
    match <Owned<u64> as Pointer<'_, u64>>::back(placed, guard) {
        Ok(_) => false,
        Err(stuck) => stuck == placed,
    }
}

pub(crate) fn held(rt: &impl Abort, alloc: Global, guard: &Guard<'_, u64>) {
    let entered = owned(rt, alloc, 6).enter(guard);
    let placed = want_ok(rt, "a cell is free", entered);
    let reading = want_some(rt, "a value is there", placed.as_ref());
    let stuck = is_stuck(placed, guard);
    want_destroyed(rt, guard, placed, Called::HeldElsewhere);
    reading.leave();
    want_true(rt, "stuck while it was read", stuck);
    let back = <Owned<u64> as Pointer<'_, u64>>::back(placed, guard);
    let back = want_ok(rt, "the value is taken back", back);
    want(rt, "the value", *back, 6);
    want_destroyed(rt, guard, placed, Called::Gone);
    let placed = owned(rt, alloc, 7).into_shared(guard);
    let placed = want_ok(rt, "a cell is free", placed);
    want_destroyed(rt, guard, placed, Called::Destroyed);
}

pub(crate) fn shown(rt: &impl Abort, alloc: Global, guard: &Guard<'_, u64>) {
    let owned = owned(rt, alloc, 1234).with_tag(2);
    want_shown(rt, alloc, &owned, "Owned { tag: 2, .. }");
    let shared = want_ok(rt, "a cell is free", owned.into_shared(guard));
    let text = "Shared { name: Some(Name { slot: 1, turn: 0 }), tag: 2, .. }";
    want_shown(rt, alloc, &shared, text);
    let null = Shared::<u64>::null();
    want_shown(rt, alloc, &null, "Shared { name: None, tag: 0, .. }");
    let atomic = Atomic::from(shared);
    let text = "Atomic { name: Some(Name { slot: 1, turn: 0 }), tag: 2, .. }";
    want_shown(rt, alloc, &atomic, text);
    let lost = atomic.compare_exchange(null, null, SeqCst, SeqCst, guard);
    let text =
        "CompareExchangeError { current: Shared { name: Some(Name { slot: 1, turn: 0 }), tag: 2, .. }, \
        new: Shared { name: None, tag: 0, .. } }";
    want_shown(rt, alloc, &changed(rt, lost), text);
}
