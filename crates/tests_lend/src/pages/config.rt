//! Threads that read a configuration while another one replaces it.
use crate::pages::stage::{Page, Tally, add, cells, play};
use crate::sessions::scoped;
use crate::stores::calls::{release, writer};
use crate::wants::want;
use epoch_examples::lent::config::{Config, config_at, replace_config};
use epoch_lend_pointers::{Atomic, Domain, LendingGuard, Plain, PostSet, Store, pinned, staying};
use std::alloc::{AllocError, Global};
use std::process::Abort;
use std::sync::Wait;
use std::sync::atomic::AtomicBool;
use std::sync::atomic::Ordering::SeqCst;
use std::thread;
use std::thread::Threads;

/// What threads share.
#[derive(Drop)]
struct Present {
    config: Atomic<Plain<Config>>,
    is_over: AtomicBool,
}

/// A configuration whose second limit is twice the first.
pub(crate) fn config_of(alloc: Global, limit: u64) -> Result<Config, AllocError> {
    let name = "service".to_string(alloc)?;
    let mut limits = Vec::new(alloc);
    for limit in [limit, limit.wrapping_mul(2)] {
        limits.push(limit).map_err(|_| AllocError)?;
    }
    Ok(Config { name, limits })
}

/// Counts the configuration as one that was read, or as one that isn't as it was made.
fn tell(config: &Config, tally: &Tally) {
    let is_whole = match config.limits.as_slice() {
        [first, second] => first.wrapping_mul(2) == *second,
        _ => false,
    };
    if is_whole && config.name.as_str() == "service" {
        add(&tally.first, 1);
    } else {
        add(&tally.second, 1);
    }
}

/// Reads the present configuration twice, while it is replaced.
fn read_once<J: PostSet>(
    store: &Store<'_, J, Plain<Config>>,
    present: &Present,
    guard: &LendingGuard<'_, J>,
    tally: &Tally,
) {
    if let Some(config) = config_at(&present.config, store, guard) {
        tell(config, tally);
        thread::yield_now();
        tell(config, tally);
    }
}

/// Reads until the writer is done, under a pin that is renewed each time.
fn read<J: PostSet>(
    rt: &impl Abort,
    store: &Store<'_, J, Plain<Config>>,
    present: &Present,
    tally: &Tally,
) {
    let mut session = scoped(rt, store.domain());
    staying(&mut session, |session| {
        for _ in 0..1_000_000u64 {
            // What is read after this is there, at the latest.
            let is_over = present.is_over.load(SeqCst);
            pinned(session, |guard| {
                read_once(store, present, guard, tally);
            });
            if is_over {
                break;
            }
        }
    });
}

/// Replaces the configuration 500 times.
fn write<J: PostSet>(
    rt: &impl Abort,
    alloc: Global,
    store: &Store<'_, J, Plain<Config>>,
    present: &Present,
) {
    let mut session = scoped(rt, store.domain());
    let mut writer = writer(rt, alloc, store);
    for limit in 0..500u64 {
        let config = config_of(alloc, limit).expect(rt, "memory");
        let replaced = pinned(&mut session, |guard| {
            replace_config(&present.config, &mut writer, guard, config)
        });
        want(rt, "a configuration is replaced", replaced, Ok(()));
    }
    present.is_over.store(true, SeqCst);
    release(rt, writer);
}

fn run_at_once<J: PostSet + Send + Sync, R: Abort + Threads + Wait + Sync>(
    rt: &R,
    alloc: Global,
    store: &Store<'_, J, Plain<Config>>,
    present: &Present,
    tally: &Tally,
) {
    thread::scope(thread::scope_env(), rt, |scope| {
        for _ in 0..3u64 {
            let _ = scope.spawn(move || read(rt, store, present, tally));
        }
        write(rt, alloc, store, present);
    });
}

pub(crate) fn run<J: PostSet + Send + Sync, R: Abort + Threads + Wait + Sync>(
    rt: &R,
    alloc: Global,
    domain: &Domain<J>,
    tally: &Tally,
) {
    let mut cells = cells(rt, alloc, domain);
    let store = Store::new(alloc, domain, &mut cells).expect(rt, "memory for a store");
    let present = Present {
        config: Atomic::null(),
        is_over: AtomicBool::new(false),
    };
    run_at_once(rt, alloc, &store, &present, tally);
    let _ = store.end();
}

#[test]
fn readers_find_whole_configurations(rt: HostRuntime) {
    let (whole, torn) = play(&rt, rt.alloc(), Page::Config);
    want(&rt, "some were read", whole > 0, true);
    want(&rt, "none was torn", torn, 0);
}
