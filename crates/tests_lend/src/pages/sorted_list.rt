//! Threads that look through a list while another one changes it.
use crate::pages::stage::{Page, Tally, add, cells, play};
use crate::sessions::{pin, session};
use crate::stores::calls::{release, writer};
use crate::wants::want;
use epoch_examples::lent::sorted_list::{SortedEntry, SortedList};
use epoch_lend_pointers::{Domain, Fault, PostSet, Session, Store, Writer};
use std::alloc::Global;
use std::process::Abort;
use std::sync::Wait;
use std::sync::atomic::AtomicBool;
use std::sync::atomic::Ordering::SeqCst;
use std::thread;
use std::thread::Threads;

/// More entries than the list ever has.
const STEPS: u32 = 1_000;

/// A change of the list.
#[derive(Clone, Copy)]
enum Change {
    Insert(u64),
    Remove(u64),
}

/// Makes the change under a pin of its own. Returns whether the list has changed.
fn change_once<'s, J: PostSet>(
    rt: &impl Abort,
    list: &SortedList<'_, 's, J>,
    session: &mut Session<'_, J>,
    writer: &mut Writer<'_, 's, J, SortedEntry>,
    change: Change,
) -> Result<bool, Fault> {
    let guard = pin(rt, session);
    let changed = match change {
        Change::Insert(key) => list.insert(key, writer, &guard, STEPS),
        Change::Remove(key) => list.remove(key, writer, &guard, STEPS),
    };
    session.unpin(guard);
    changed
}

/// Inserts the key in an even round, and removes it in an odd one if it is even. In the first round each key is new,
/// and later the even ones are.
fn write_key<'s, J: PostSet>(
    rt: &impl Abort,
    list: &SortedList<'_, 's, J>,
    session: &mut Session<'_, J>,
    writer: &mut Writer<'_, 's, J, SortedEntry>,
    round: u64,
    key: u64,
) {
    let is_even = key % 2 == 0;
    if round % 2 == 0 {
        let inserted = change_once(rt, list, session, writer, Change::Insert(key));
        want(rt, "an insert", inserted, Ok(round == 0 || is_even));
    } else if is_even {
        let removed = change_once(rt, list, session, writer, Change::Remove(key));
        want(rt, "a removal", removed, Ok(true));
    }
}

/// Inserts the keys from 1 to 100, and then removes the even ones and inserts them again, over and over.
fn write<'s, J: PostSet>(
    rt: &impl Abort,
    alloc: Global,
    store: &Store<'s, J, SortedEntry>,
    list: &SortedList<'_, 's, J>,
    is_over: &AtomicBool,
) {
    let mut session = session(rt, store.domain());
    let mut writer = writer(rt, alloc, store);
    for turn in 0..4_000u64 {
        let (round, key) = (turn / 100, 100 - turn % 100);
        write_key(rt, list, &mut session, &mut writer, round, key);
    }
    is_over.store(true, SeqCst);
    release(rt, writer);
}

/// Looks for keys under a pin of its own. 99 is there if 1 was seen before, and 101 never is. Returns whether 1 was
/// seen by now.
fn read_once<J: PostSet>(
    rt: &impl Abort,
    list: &SortedList<'_, '_, J>,
    session: &mut Session<'_, J>,
    has_first: bool,
    tally: &Tally,
) -> bool {
    let guard = pin(rt, session);
    let last = list.contains(99, &guard, STEPS);
    let first = list.contains(1, &guard, STEPS);
    let none = list.contains(101, &guard, STEPS);
    session.unpin(guard);
    if none != Ok(false) || (has_first && last != Ok(true)) {
        add(&tally.first, 1);
    }
    has_first || first == Ok(true)
}

/// Looks for keys until the writer is done. The odd ones stay, once they are there.
fn read<J: PostSet>(
    rt: &impl Abort,
    domain: &Domain<J>,
    list: &SortedList<'_, '_, J>,
    is_over: &AtomicBool,
    tally: &Tally,
) {
    let mut session = session(rt, domain);
    let mut has_first = false;
    for _ in 0..1_000_000u64 {
        if is_over.load(SeqCst) {
            break;
        }
        has_first = read_once(rt, list, &mut session, has_first, tally);
    }
}

fn run_at_once<'s, J: PostSet + Send + Sync, R: Abort + Threads + Wait + Sync>(
    rt: &R,
    alloc: Global,
    store: &Store<'s, J, SortedEntry>,
    list: &SortedList<'_, 's, J>,
    is_over: &AtomicBool,
    tally: &Tally,
) {
    let domain = store.domain();
    thread::scope(thread::scope_env(), rt, |scope| {
        for _ in 0..3u64 {
            let _ = scope.spawn(move || read(rt, domain, list, is_over, tally));
        }
        write(rt, alloc, store, list, is_over);
    });
}

pub(crate) fn run<J: PostSet + Send + Sync, R: Abort + Threads + Wait + Sync>(
    rt: &R,
    alloc: Global,
    domain: &Domain<J>,
    tally: &Tally,
) {
    let mut cells = cells(rt, alloc, domain);
    let store = Store::new(alloc, domain, &mut cells).expect(rt, "memory for a store");
    let is_over = AtomicBool::new(false);
    run_at_once(rt, alloc, &store, &SortedList::new(&store), &is_over, tally);
    add(&tally.second, store.end() as u64);
}

#[test]
fn readers_look_through_a_list_that_changes(rt: HostRuntime) {
    let (wrong, left) = play(&rt, rt.alloc(), Page::SortedList);
    want(&rt, "what was wrong", wrong, 0);
    let has_keys = left >= 50;
    want(&rt, "50 keys at least are there at the end", has_keys, true);
}
