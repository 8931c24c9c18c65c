//! Calls of pointers and values. They take no memory.

use crate::calls::{end, let_go, pin, register, release, unpin};
use crate::memory::handles::round;
use crate::memory::made::{Values, collector_at_last, values_at_last};
use crate::pointers::seen::{lost_to_null, want_destroyed, want_owned, want_tag, want_value};
use crate::wants::{want, want_err, want_ok, want_some};
use epoch::atomic::{Atomic, DeferDestroy, Owned, Shared, UpdateFault};
use epoch::{Called, Collector, Fault, Guard, LocalHandle, unprotected};
use std::process::Abort;
use std::sync::atomic::Ordering::SeqCst;

/// A store into full cells hands its value back.
fn want_full_store(
    rt: &impl Abort,
    guard: &Guard<'_, u64>,
    atomic: &Atomic<u64>,
    owned: Owned<u64>,
) -> Owned<u64> {
    let stored = atomic.store(owned, SeqCst, guard);
    let back = want_err(rt, "both cells are used", stored);
    want(rt, "the value handed back", *back, 30);
    back
}

/// The first value, which stands behind the pointer, is swapped for the second one. Returns the pointers to both.
fn swap_two<'g>(
    rt: &impl Abort,
    guard: &'g Guard<'_, u64>,
    atomic: &Atomic<u64>,
    second: Owned<u64>,
) -> (Shared<'g, u64>, Shared<'g, u64>) {
    let one = atomic.load(SeqCst, guard);
    want_value(rt, "the first value", one, 10);
    let before = atomic.swap(second.with_tag(5), SeqCst, guard);
    let before = want_ok(rt, "the other cell is free", before);
    want(rt, "the first pointer", before == one, true);
    let two = atomic.load_consume(guard);
    want_value(rt, "the second value", two, 20);
    (one, two)
}

/// Null is swapped in for the second pointer. The first value stands behind the pointer again, and is owned again.
fn store_back(
    rt: &impl Abort,
    guard: &Guard<'_, u64>,
    atomic: Atomic<u64>,
    (one, two): (Shared<'_, u64>, Shared<'_, u64>),
) -> Owned<u64> {
    let swapped = atomic.swap(Shared::null(), SeqCst, guard);
    let before = want_ok(rt, "null takes no cell", swapped);
    want(rt, "the second pointer", before == two, true);
    let stored = atomic.store(one, SeqCst, guard).is_ok();
    want(rt, "a pointer is stored", stored, true);
    want_owned(rt, "the first", atomic.try_into_owned(guard), (10, 0))
}

/// Two values come to stand behind one pointer, a third one finds no cell, and all are owned again.
fn store_and_swap(
    rt: &impl Abort,
    guard: &Guard<'_, u64>,
    (first, second, third): Values,
) -> Values {
    let atomic = want_ok(rt, "a cell is free", Atomic::from_owned(first, guard));
    let (one, two) = swap_two(rt, guard, &atomic, second);
    let third = want_full_store(rt, guard, &atomic, third);
    let first = store_back(rt, guard, atomic, (one, two));
    let last = Atomic::from(two).into_owned(guard);
    (first, want_owned(rt, "the second", last, (20, 5)), third)
}

/// An owned value is lost by one exchange and placed by the next. Returns the pointer to it.
fn lose_and_place<'g>(
    rt: &impl Abort,
    guard: &'g Guard<'_, u64>,
    atomic: &Atomic<u64>,
    owned: Owned<u64>,
) -> Shared<'g, u64> {
    let null = Shared::<u64>::null();
    let answer = atomic.compare_exchange(null.with_tag(1), owned, SeqCst, SeqCst, guard);
    let owned = lost_to_null(rt, answer, 10);
    let won = atomic.compare_and_set(null, owned, SeqCst, guard);
    let placed = want_ok(rt, "compare_and_set", won);
    want_value(rt, "the value that is placed", placed, 10);
    // The lost exchange freed its cell again, for the next turn.
    let name = want_some(rt, "it is named", placed.name());
    want(rt, "its slot and turn", (name.slot(), name.turn()), (2, 2));
    placed
}

/// The pointer is exchanged for ones with tags, and the last one for null. Returns that one.
fn exchange_for_null<'g>(
    rt: &impl Abort,
    guard: &'g Guard<'_, u64>,
    atomic: &Atomic<u64>,
    placed: Shared<'g, u64>,
) -> Shared<'g, u64> {
    let null = Shared::<u64>::null();
    let won = atomic.compare_exchange_weak(placed, placed.with_tag(2), SeqCst, SeqCst, guard);
    let other = want_ok(rt, "compare_exchange_weak", won);
    want(rt, "its tag", other.tag(), 2);
    let won = atomic.compare_exchange(other, placed.with_tag(3), SeqCst, SeqCst, guard);
    let tagged = want_ok(rt, "compare_exchange", won);
    want(rt, "the next tag", tagged.tag(), 3);
    let lost = atomic.compare_and_set_weak(placed, null, (SeqCst, SeqCst), guard);
    want(rt, "one with another tag", lost.is_err(), true);
    let won = atomic.compare_and_set_weak(tagged, null, SeqCst, guard);
    want(rt, "compare_and_set_weak", won.is_ok(), true);
    tagged
}

/// An owned value is lost by one exchange and placed by the next, and pointers are exchanged for one another.
fn exchange(rt: &impl Abort, guard: &Guard<'_, u64>, owned: Owned<u64>) -> Owned<u64> {
    let atomic = Atomic::<u64>::null();
    let placed = lose_and_place(rt, guard, &atomic, owned);
    let tagged = exchange_for_null(rt, guard, &atomic, placed);
    want_owned(rt, "the value", tagged.into_owned(), (10, 3))
}

/// Where an update without a try ended.
fn ran_out<'g>(
    rt: &impl Abort,
    answer: Result<Shared<'g, u64>, UpdateFault<'g, u64>>,
) -> Shared<'g, u64> {
    match answer {
        Err(UpdateFault::RanOut(last)) => last,
        _ => rt.panic("it has had a try"),
    }
}

/// The tag of null goes from 0 to 6, 2, 3 and 1.
fn change_tags(rt: &impl Abort, guard: &Guard<'_, u64>) {
    let atomic = Atomic::<u64>::default();
    want_tag(rt, "an or", atomic.fetch_or(6, SeqCst, guard), 0);
    want_tag(rt, "an and", atomic.fetch_and(2, SeqCst, guard), 6);
    want_tag(rt, "a xor", atomic.fetch_xor(1, SeqCst, guard), 2);
    let made = atomic.fetch_update(SeqCst, SeqCst, 1, guard, |old| Some(old.with_tag(1)));
    want_tag(rt, "an update", want_ok(rt, "it is made", made), 3);
    let late = atomic.fetch_update(SeqCst, SeqCst, 0, guard, |old| Some(old));
    want_tag(rt, "an update without a try", ran_out(rt, late), 1);
    let clone = want_ok(rt, "a clone", atomic.clone());
    want_tag(rt, "a clone", clone.load(SeqCst, guard), 1);
}

/// Adds one to the value behind the pointer.
fn add_one(rt: &impl Abort, shared: Shared<'_, u64>) {
    let mut shared = shared;
    let mut writing = shared
        .deref_mut()
        .expect(rt, "the value stands in its cell");
    let number = *writing.get();
    *writing.get_mut() = number.wrapping_add(1);
    writing.leave();
}

/// A value is changed where it is owned and in its cell, and is owned again.
fn change_in_cell(rt: &impl Abort, guard: &Guard<'_, u64>, owned: Owned<u64>) -> Owned<u64> {
    let mut owned = owned;
    *owned = 40;
    let placed = want_ok(rt, "a cell is free", owned.into_shared(guard));
    add_one(rt, placed);
    want_value(rt, "the value in its cell", placed, 41);
    want_owned(rt, "the value", placed.try_into_owned(), (41, 3))
}

/// A value is changed where it is owned, in its cell, and in its box, and is destroyed at last.
fn change_and_destroy(rt: &impl Abort, guard: &Guard<'_, u64>, owned: Owned<u64>) {
    let owned = change_in_cell(rt, guard, owned);
    let again = Owned::from(owned.into_box());
    want(rt, "the value in its box", *again, 41);
    let placed = want_ok(rt, "its next turn", again.into_shared(guard));
    want_destroyed(rt, guard, placed, Called::Destroyed);
    want_destroyed(rt, guard, placed, Called::Gone);
}

/// The removal of the value is deferred, or refused for this.
fn want_removal(
    rt: &impl Abort,
    handle: &mut LocalHandle<'_, u64>,
    guard: &Guard<'_, u64>,
    shared: Shared<'_, u64>,
    wanted: Result<(), Fault>,
) {
    let deferred = handle
        .defer_destroy(guard, shared)
        .map_err(|refused| refused.fault);
    want(rt, "a removal", deferred, wanted);
}

/// Of two removals the first one is put, the second one held: the third one is refused.
fn remove_two(
    rt: &impl Abort,
    handle: &mut LocalHandle<'_, u64>,
    guard: &Guard<'_, u64>,
    (first, second): (Owned<u64>, Owned<u64>),
) {
    let one = want_ok(rt, "a cell is free", first.into_shared(guard));
    let two = want_ok(rt, "the other cell is free", second.into_shared(guard));
    want_removal(rt, handle, guard, one, Ok(()));
    want_removal(rt, handle, guard, two, Ok(()));
    want_removal(rt, handle, guard, two, Err(Fault::BagsFull));
}

/// A participant removes both values. The bag in the one place was sealed with 1, and is taken in epoch 3.
fn remove_later(rt: &impl Abort, collector: &Collector<u64>, values: (Owned<u64>, Owned<u64>)) {
    let mut handle = register(rt, collector);
    let guard = pin(rt, &mut handle);
    remove_two(rt, &mut handle, &guard, values);
    unpin(rt, &mut handle, guard);
    let full = Err(Fault::BagsFull);
    let flushed = [
        round(rt, &mut handle),
        round(rt, &mut handle),
        round(rt, &mut handle),
    ];
    want(rt, "three flushes", flushed, [full, full, Ok(())]);
    release(rt, handle);
}

/// What is done under a guard that protects nothing. Returns two of the values.
fn call_unprotected(
    rt: &impl Abort,
    collector: &Collector<u64>,
    values: Values,
) -> (Owned<u64>, Owned<u64>) {
    let guard = unprotected(collector);
    let (first, second, third) = store_and_swap(rt, &guard, values);
    let first = exchange(rt, &guard, first);
    change_tags(rt, &guard);
    change_and_destroy(rt, &guard, first);
    let_go(rt, guard);
    (second, third)
}

#[test]
fn calls_of_pointers_and_values_take_no_memory(rt: HostRuntime) {
    let values = values_at_last(&rt, rt.alloc());
    let collector = collector_at_last(&rt, rt.alloc(), 2);
    let values = call_unprotected(&rt, &collector, values);
    remove_later(&rt, &collector, values);
    end(&rt, collector, 1);
}
