//! Tests of the ordered map, by its public calls: on one thread, beside a map of std, and on several.
ghost use Rattle.std.specs.Prelude.{◌≡◌};

mod beside;
mod calls;
mod race;

use crate::ordered::beside::compare;
use crate::ordered::race::race;
use crate::wants::want;
use epoch_lend_pointers::{Domain, LentCells, Made, PostSet, Posts, Store};
use epoch_ordered_map::OrderedMap;
use std::alloc::Global;
use std::marker::Brand;
use std::process::Abort;
use std::sync::Wait;
use std::thread::Threads;

/// Compares a map of this store with one of std on one thread, and then has 8 threads change it. No node is left.
fn begin<J: PostSet + Send + Sync, R: Abort + Threads + Wait + Sync>(
    rt: &R,
    alloc: Global,
    made: Made,
    cells: u16,
)
    requires { made.posts.items ≡ J.posts }
{
    let domain = Domain::new(Posts::<J>::of(alloc, made).expect(rt, "memory for posts"));
    let cells = LentCells::new(alloc, u32::from(cells), &domain);
    let mut cells = cells.expect(rt, "memory for cells");
    let store = Store::new(alloc, &domain, &mut cells).expect(rt, "memory for a store");
    let map = OrderedMap::new(&store);
    compare(rt, alloc, &store, &map);
    race(rt, alloc, &store, &map);
    drop(map);
    want(rt, "how many nodes are left", store.end(), 0);
}

fn play<R: Abort + Threads + Wait + Sync>(rt: &R, alloc: Global) {
    let made = Made::new(alloc, 9).expect(rt, "memory for posts");
    begin::<Brand, R>(rt, alloc, made, 2_048);
}

#[test]
fn an_ordered_map_answers_as_that_of_std_and_gives_each_value_of_8_threads_once(rt: HostRuntime) {
    play(&rt, rt.alloc());
}
