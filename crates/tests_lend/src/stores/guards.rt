//! What guards get of stores, on one thread.
use crate::probes::{Counts, Probe, counts_for, dropped_once, drops_of};
use crate::sessions::{epoch_of, pin, session};
use crate::stores::calls::{
    clear, clear_once, fault_of, flush, name_at, number_at, number_of, release, replace,
    replace_all, replace_once, writer,
};
use crate::stores::stage::{Scene, play};
use crate::wants::want;
use epoch_atomic::atomic::Atomic;
use epoch_cells::Fault;
use epoch_lend::readers::posts::PostSet;
use epoch_lend::session::{LendingGuard, Session};
use epoch_lend_pointers::{LentCells, Store, Writer};
use std::alloc::Global;
use std::process::Abort;
use std::sync::atomic::Ordering::SeqCst;
use std::test::Fail;

/// Places a value, gets it, retires it, and gets it again.
pub(crate) fn lends<J: PostSet>(
    rt: &impl Abort,
    alloc: Global,
    store: &Store<'_, J, Probe>,
    counts: &Counts,
) {
    let mut session = session(rt, store.domain());
    let mut writer = writer(rt, alloc, store);
    let pointer = Atomic::null();
    let guard = pin(rt, &mut session);
    let seen = number_at(store, &pointer, &guard);
    want(rt, "null leads nowhere", seen, 99);
    let fault = replace(&mut writer, &pointer, &guard, Probe::new(3, counts));
    want(rt, "a value is placed", fault, None);
    let name = name_at(rt, store, &pointer, &guard);
    let found = store.get_named(name, &guard);
    want(rt, "and got", number_of(found), 3);
    let fault = clear(&mut writer, &pointer, &guard);
    want(rt, "it is retired", fault, None);
    flush(&mut writer, 4);
    want(rt, "and stays under the guard", number_of(found), 3);
    want(rt, "as it was", drops_of(counts, 3), 0);
    session.unpin(guard);
    flush(&mut writer, 4);
    want(rt, "it is dropped later", drops_of(counts, 3), 1);
    want(rt, "and nothing waits any more", store.waiting(), 0);
    release(rt, writer);
}

#[test]
fn a_value_is_got_and_stays_until_the_guard_is_back(rt: HostRuntime) -> Result<(), Fail> {
    let counts = counts_for(rt.alloc(), 8)?;
    let left = play(&rt, rt.alloc(), 8, Scene::Lends, &counts);
    want(&rt, "no value is left", left, Some(0));
    want(&rt, "each is dropped once", dropped_once(&counts), 1);
    Ok(())
}

/// Has value 1 be retired while a guard is out that has its pointer, and 200 more behind it. Only then is it looked at.
pub(crate) fn keeps_grace<J: PostSet>(
    rt: &impl Abort,
    alloc: Global,
    store: &Store<'_, J, Probe>,
    counts: &Counts,
) {
    let mut reader = session(rt, store.domain());
    let mut other = session(rt, store.domain());
    let mut writer = writer(rt, alloc, store);
    let pointer = Atomic::null();
    let placed = replace_all(rt, &mut other, &mut writer, &pointer, (1, 2), counts);
    want(rt, "a value is placed", placed, 1);
    let guard = pin(rt, &mut reader);
    let name = name_at(rt, store, &pointer, &guard);
    let placed = replace_all(rt, &mut other, &mut writer, &pointer, (2, 202), counts);
    want(rt, "others come after it", placed, 200);
    flush(&mut writer, 20);
    let found = store.get_named(name, &guard);
    want(rt, "the guard still gets it", number_of(found), 1);
    want(rt, "as it was", drops_of(counts, 1), 0);
    reader.unpin(guard);
    let fault = clear_once(rt, &mut other, &mut writer, &pointer);
    want(rt, "the last one is retired", fault, None);
    flush(&mut writer, 20);
    want(rt, "all are dropped later", dropped_once(counts), 201);
    want(rt, "and nothing waits any more", store.waiting(), 0);
    release(rt, writer);
}

#[test]
fn a_guard_gets_what_was_retired_while_it_is_out(rt: HostRuntime) -> Result<(), Fail> {
    let counts = counts_for(rt.alloc(), 256)?;
    let left = play(&rt, rt.alloc(), 512, Scene::KeepsGrace, &counts);
    want(&rt, "no value is left", left, Some(0));
    Ok(())
}

/// Retires value 1 while a guard is out, and then has a later guard find it by its name. When the earlier guard is
/// back it is marked, and when the later one is, it is dropped.
pub(crate) fn waits<J: PostSet>(
    rt: &impl Abort,
    alloc: Global,
    store: &Store<'_, J, Probe>,
    counts: &Counts,
) {
    let (mut first, mut second) = (session(rt, store.domain()), session(rt, store.domain()));
    let mut writer = writer(rt, alloc, store);
    let pointer = Atomic::null();
    let early = pin(rt, &mut first);
    let fault = replace(&mut writer, &pointer, &early, Probe::new(1, counts));
    want(rt, "a value is placed", fault, None);
    let name = name_at(rt, store, &pointer, &early);
    let fault = clear(&mut writer, &pointer, &early);
    want(rt, "it is retired", fault, None);
    flush(&mut writer, 4);
    want(rt, "and waits to be marked", store.waiting(), 1);
    let late = pin(rt, &mut second);
    let found = store.get_named(name, &late);
    want(rt, "a later guard may find it", number_of(found), 1);
    first.unpin(early);
    flush(&mut writer, 4);
    let again = store.get_named(name, &late);
    want(rt, "no look finds it after its mark", number_of(again), 99);
    want(rt, "it stays for that guard", number_of(found), 1);
    want(rt, "as it was", drops_of(counts, 1), 0);
    want(rt, "and waits to be dropped", store.waiting(), 1);
    second.unpin(late);
    flush(&mut writer, 4);
    want(rt, "until that is back", drops_of(counts, 1), 1);
    release(rt, writer);
}

#[test]
fn a_value_waits_for_two_guards_one_after_the_other(rt: HostRuntime) -> Result<(), Fail> {
    let counts = counts_for(rt.alloc(), 8)?;
    let left = play(&rt, rt.alloc(), 8, Scene::Waits, &counts);
    want(&rt, "no value is left", left, Some(0));
    Ok(())
}

/// Reads what is cached while the value is replaced, and asks the guard whether it is current.
pub(crate) fn caches<J: PostSet>(
    rt: &impl Abort,
    alloc: Global,
    store: &Store<'_, J, Probe>,
    counts: &Counts,
) {
    let mut reader = session(rt, store.domain());
    let mut other = session(rt, store.domain());
    let mut writer = writer(rt, alloc, store);
    let pointer = Atomic::null();
    let guard = pin(rt, &mut reader);
    let mut cached = store.cached(&guard);
    let seen = number_of(cached.get(&pointer));
    want(rt, "null leads nowhere", seen, 99);
    for number in 1..3usize {
        let value = Probe::new(number, counts);
        let fault = replace_once(rt, &mut other, &mut writer, &pointer, value);
        want(rt, "a value is placed", fault, None);
        let seen = number_of(cached.unchanged(&pointer));
        want(rt, "it isn't the one from before", seen, 99);
        let seen = number_of(cached.get(&pointer));
        want(rt, "it is got", seen, number);
        let seen = number_of(cached.unchanged(&pointer));
        want(rt, "and stays the same", seen, number);
    }
    want(rt, "no epoch has begun", guard.is_current(), true);
    flush(&mut writer, 1);
    want(rt, "one has begun", guard.is_current(), false);
    let guard = guard.renew();
    want(rt, "and the guard is of it", guard.is_current(), true);
    reader.unpin(guard);
    let fault = clear_once(rt, &mut other, &mut writer, &pointer);
    want(rt, "the last value is retired", fault, None);
    flush(&mut writer, 4);
    release(rt, writer);
}

#[test]
fn a_cached_value_is_the_one_that_the_pointer_leads_to(rt: HostRuntime) -> Result<(), Fail> {
    let counts = counts_for(rt.alloc(), 8)?;
    let left = play(&rt, rt.alloc(), 8, Scene::Caches, &counts);
    want(&rt, "no value is left", left, Some(0));
    Ok(())
}

/// Replaces the value this often, and renews the guard after each time.
fn renewed<'d, J: PostSet>(
    rt: &impl Abort,
    guard: LendingGuard<'d, J>,
    other: &mut Session<'_, J>,
    writer: &mut Writer<'_, '_, J, Probe>,
    pointer: &Atomic<Probe>,
    (first, behind): (usize, usize),
    counts: &Counts,
) -> LendingGuard<'d, J> {
    let mut renewed = guard;
    for number in first..behind {
        let fault = replace_once(rt, other, writer, pointer, Probe::new(number, counts));
        want(rt, "a value is replaced", fault, None);
        let _ = writer.flush();
        renewed = renewed.renew();
    }
    renewed
}

/// A guard that is renewed holds no value back that was retired before.
pub(crate) fn renews<J: PostSet>(
    rt: &impl Abort,
    alloc: Global,
    store: &Store<'_, J, Probe>,
    counts: &Counts,
) {
    let mut reader = session(rt, store.domain());
    let mut other = session(rt, store.domain());
    let mut writer = writer(rt, alloc, store);
    let pointer = Atomic::null();
    let placed = replace_all(rt, &mut other, &mut writer, &pointer, (1, 2), counts);
    want(rt, "a value is placed", placed, 1);
    let guard = pin(rt, &mut reader);
    let seen = number_at(store, &pointer, &guard);
    want(rt, "and got", seen, 1);
    let epoch = epoch_of(&guard);
    let guard = guard.renew();
    let stayed = epoch_of(&guard) == epoch;
    want(rt, "the clock has not moved", stayed, true);
    let guard = renewed(
        rt,
        guard,
        &mut other,
        &mut writer,
        &pointer,
        (2, 12),
        counts,
    );
    let later = epoch_of(&guard) > epoch;
    want(rt, "it has moved", later, true);
    want(rt, "the first one is dropped", drops_of(counts, 1), 1);
    let seen = number_at(store, &pointer, &guard);
    want(rt, "and the present one got", seen, 11);
    reader.unpin(guard);
    release(rt, writer);
}

#[test]
fn a_guard_that_is_renewed_holds_nothing_back(rt: HostRuntime) -> Result<(), Fail> {
    let counts = counts_for(rt.alloc(), 12)?;
    let left = play(&rt, rt.alloc(), 64, Scene::Renews, &counts);
    want(&rt, "the present value is left", left > Some(0), true);
    want(&rt, "each is dropped once", dropped_once(&counts), 11);
    Ok(())
}

/// Has a writer of another store retire what the pointer names. Returns why that was refused.
fn fault_of_another<J: PostSet>(
    store: &Store<'_, J, u64>,
    pointer: &Atomic<u64>,
    guard: &LendingGuard<'_, J>,
    stranger: &mut Writer<'_, '_, J, u64>,
) -> Option<Fault> {
    fault_of(stranger.retire(store.load(pointer, SeqCst, guard)))
}

/// Places a probe and a number under one guard, gets both, and retires both. No writer retires a pointer of another
/// store.
fn gets_both<J: PostSet>(
    rt: &impl Abort,
    alloc: Global,
    probes: &Store<'_, J, Probe>,
    numbers: &Store<'_, J, u64>,
    strange: &Store<'_, J, u64>,
    counts: &Counts,
) {
    let mut session = session(rt, probes.domain());
    let mut prober = writer(rt, alloc, probes);
    let mut counter = writer(rt, alloc, numbers);
    let mut stranger = writer(rt, alloc, strange);
    let (probe, number) = (Atomic::null(), Atomic::null());
    let guard = pin(rt, &mut session);
    let fault = replace(&mut prober, &probe, &guard, Probe::new(3, counts));
    want(rt, "a probe is placed", fault, None);
    let fault = replace(&mut counter, &number, &guard, 7);
    want(rt, "and a number", fault, None);
    let names = (
        name_at(rt, probes, &probe, &guard),
        name_at(rt, numbers, &number, &guard),
    );
    let first = probes.get_named(names.0, &guard);
    let second = numbers.get_named(names.1, &guard);
    let fault = fault_of_another(numbers, &number, &guard, &mut stranger);
    let refused = Some(Fault::StrangerPointer);
    want(rt, "another store doesn't retire it", fault, refused);
    let fault = clear(&mut prober, &probe, &guard);
    want(rt, "the probe is retired", fault, None);
    let fault = clear(&mut counter, &number, &guard);
    want(rt, "and the number", fault, None);
    flush(&mut prober, 4);
    flush(&mut counter, 4);
    let seen = (number_of(first), second.copied());
    want(rt, "one guard has both", seen, (3, Some(7)));
    let waiting = (probes.waiting(), numbers.waiting(), strange.waiting());
    want(rt, "which wait in their stores", waiting, (1, 1, 0));
    session.unpin(guard);
    release(rt, prober);
    release(rt, counter);
    release(rt, stranger);
}

/// Has two more stores in the domain.
pub(crate) fn lends_of_two_stores<J: PostSet>(
    rt: &impl Abort,
    alloc: Global,
    probes: &Store<'_, J, Probe>,
    counts: &Counts,
) {
    let domain = probes.domain();
    let mut cells = LentCells::new(alloc, 8, domain).expect(rt, "memory");
    let numbers = Store::new(alloc, domain, &mut cells).expect(rt, "memory");
    let mut cells = LentCells::new(alloc, 8, domain).expect(rt, "memory");
    let strange = Store::new(alloc, domain, &mut cells).expect(rt, "memory");
    gets_both(rt, alloc, probes, &numbers, &strange, counts);
    let left = (numbers.end(), strange.end());
    want(rt, "no number is left", left, (0, 0));
}

#[test]
fn one_guard_has_values_of_several_stores(rt: HostRuntime) -> Result<(), Fail> {
    let counts = counts_for(rt.alloc(), 8)?;
    let left = play(&rt, rt.alloc(), 8, Scene::LendsOfTwoStores, &counts);
    want(&rt, "no probe is left", left, Some(0));
    want(&rt, "it is dropped once", dropped_once(&counts), 1);
    Ok(())
}
