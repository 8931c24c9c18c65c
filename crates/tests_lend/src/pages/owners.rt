//! Threads that claim the same keys.
use crate::pages::stage::{Page, Tally, add, cells, play};
use crate::sessions::{pin, session};
use crate::stores::calls::{release, writer};
use crate::wants::want;
use epoch_examples::lent::owners::{Claim, claim, give_up};
use epoch_lend_pointers::{Domain, PostSet, Session, Store, Writer};
use epoch_map::LendingMap;
use std::alloc::Global;
use std::process::Abort;
use std::sync::Wait;
use std::thread;
use std::thread::Threads;

/// The owner of the key once this owner has claimed it. `None`: the call was refused.
fn claim_once<'s, J: PostSet>(
    rt: &impl Abort,
    map: &LendingMap<'_, 's, J, Claim>,
    session: &mut Session<'_, J>,
    writer: &mut Writer<'_, 's, J, Claim>,
    key: u32,
    owner: u32,
) -> Option<u32> {
    let guard = pin(rt, session);
    let first = claim(map, writer, &guard, key, owner);
    session.unpin(guard);
    first.ok()
}

/// Claims the key. A claim that is refused is made again after a pause.
fn claim_at_last<'s, J: PostSet, R: Abort + Wait>(
    rt: &R,
    map: &LendingMap<'_, 's, J, Claim>,
    session: &mut Session<'_, J>,
    writer: &mut Writer<'_, 's, J, Claim>,
    key: u32,
    owner: u32,
) -> u32 {
    for _ in rt.forever() {
        if let Some(first) = claim_once(rt, map, session, writer, key, owner) {
            return first;
        }
        thread::yield_now();
    }
    unreachable!()
}

/// Claims the keys from 1 to 100 for this owner, and counts those that it got.
fn claim_100<'s, J: PostSet, R: Abort + Wait>(
    rt: &R,
    alloc: Global,
    store: &Store<'s, J, Claim>,
    map: &LendingMap<'_, 's, J, Claim>,
    owner: u32,
    tally: &Tally,
) {
    let mut session = session(rt, store.domain());
    let mut writer = writer(rt, alloc, store);
    for key in 1..101u32 {
        if claim_at_last(rt, map, &mut session, &mut writer, key, owner) == owner {
            add(&tally.first, 1);
        }
    }
    release(rt, writer);
}

/// Gives up the keys from 0 to 100, and counts those that had an owner.
fn give_up_all<'s, J: PostSet>(
    rt: &impl Abort,
    alloc: Global,
    store: &Store<'s, J, Claim>,
    map: &LendingMap<'_, 's, J, Claim>,
    tally: &Tally,
) {
    let mut session = session(rt, store.domain());
    let mut writer = writer(rt, alloc, store);
    let guard = pin(rt, &mut session);
    for key in 0..101u32 {
        if let Ok(Some(_)) = give_up(map, &mut writer, &guard, key) {
            add(&tally.second, 1);
        }
    }
    session.unpin(guard);
    release(rt, writer);
}

fn run_at_once<'s, J: PostSet + Send + Sync, R: Abort + Threads + Wait + Sync>(
    rt: &R,
    alloc: Global,
    store: &Store<'s, J, Claim>,
    map: &LendingMap<'_, 's, J, Claim>,
    tally: &Tally,
) {
    thread::scope(thread::scope_env(), rt, |scope| {
        for owner in 0..8u32 {
            let _ = scope.spawn(move || claim_100(rt, alloc, store, map, owner, tally));
        }
    });
}

/// Claims keys of an empty map, and gives them up. The map goes before its store ends.
fn share<'q, 's, J: PostSet + Send + Sync, R: Abort + Threads + Wait + Sync>(
    rt: &R,
    alloc: Global,
    store: &'q Store<'s, J, Claim>,
    tally: &Tally,
) {
    let map = LendingMap::new(alloc, store, 4).expect(rt, "memory for the buckets");
    run_at_once(rt, alloc, store, &map, tally);
    give_up_all(rt, alloc, store, &map, tally);
}

pub(crate) fn run<J: PostSet + Send + Sync, R: Abort + Threads + Wait + Sync>(
    rt: &R,
    alloc: Global,
    domain: &Domain<J>,
    tally: &Tally,
) {
    let mut cells = cells(rt, alloc, domain);
    let store = Store::new(alloc, domain, &mut cells).expect(rt, "memory for a store");
    share(rt, alloc, &store, tally);
    let _ = store.end();
}

#[test]
fn each_key_is_claimed_by_one_of_eight_threads(rt: HostRuntime) {
    let (got, owned) = play(&rt, rt.alloc(), Page::Owners);
    want(&rt, "how often a thread got a key", got, 100);
    want(&rt, "how many keys had an owner", owned, 100);
}
