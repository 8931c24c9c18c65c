//! Makes hash maps one after another, each in a domain of its own, and ends them, so that a tool can look for memory
//! that is lost.
use crate::lent::{LentOwn, cells_in, store_of};
use epoch_lend::domain::{Domain, DomainWork, with_domain};
use epoch_lend::readers::posts::PostSet;
use epoch_lend_pointers::Store;
use epoch_map::{GrowingMap, LentEntry};
use std::alloc::Global;
use std::io;
use std::io::Print;
use std::sync::Wait;

/// How many entries each map gets. Half of them are removed, and the others are left to the store's end.
const ENTRIES: u64 = 100;

/// How many cells each store may have.
const CELLS: u32 = 1_024;

/// How many posts each domain has.
const POSTS: usize = 16;

type Entry = LentEntry<u64, String>;

/// Inserts the entries, and removes every other one.
fn fill<'s, J: PostSet>(
    alloc: Global,
    map: &GrowingMap<'_, 's, J, Entry>,
    own: &mut LentOwn<'_, 's, J, Entry>,
) {
    for key in 0..ENTRIES {
        let Ok(text) = "the value of an entry".to_string(alloc) else {
            return;
        };
        let guard = own.session.pin();
        let _ = map.insert(&mut own.writer, &guard, Entry::new(key, text));
        if key % 2 == 0 {
            let _ = map.remove(&mut own.writer, &guard, &key);
        }
        own.session.unpin(guard);
    }
}

/// Fills a map of this store, and returns how many entries it leaves to the store's end.
fn left_in<J: PostSet, R: Wait>(rt: &R, alloc: Global, store: &Store<'_, J, Entry>) -> u64 {
    let Ok(map) = GrowingMap::new(alloc, store) else {
        return 0;
    };
    let Some(own) = LentOwn::join(alloc, store) else {
        return 0;
    };
    let mut filling = own;
    fill(alloc, &map, &mut filling);
    filling.leave(rt);
    map.len() as u64
}

fn left_over<J: PostSet, R: Wait>(rt: &R, alloc: Global, domain: &Domain<J>) -> io::Result<u64> {
    let mut cells = cells_in(alloc, 0, CELLS, domain)?;
    let store = store_of(alloc, domain, &mut cells)?;
    let left = left_in(rt, alloc, &store);
    let _ = store.end();
    Ok(left)
}

/// One map, with its store and its domain.
#[derive(Drop)]
struct OneMap<'t, R> {
    rt: &'t R,
    alloc: Global,
}

impl<R: Wait> DomainWork for OneMap<'_, R> {
    type Answer = io::Result<u64>;

    fn run<J: PostSet + Send + Sync>(self, domain: &Domain<J>) -> io::Result<u64> {
        let OneMap { rt, alloc } = self;
        left_over(rt, alloc, domain)
    }
}

/// Makes and ends so many maps, and prints how many entries they left.
pub fn end_maps<R: Print + Wait>(rt: &R, alloc: Global, maps: u64) -> io::Result<()> {
    let mut left: u64 = 0;
    for _ in 0..maps {
        left = left.wrapping_add(with_domain(alloc, POSTS, OneMap { rt, alloc })??);
    }
    println!(rt; "{maps} maps ended, with {left} entries")
}
