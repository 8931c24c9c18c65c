//! Requests to a service, each of which reads values of three stores under one guard.
use crate::pages::config::config_of;
use crate::pages::stage::{Page, cells, play};
use crate::pages::work_queue::empty_queue;
use crate::sessions::{pin, session};
use crate::stores::calls::{release, writer};
use crate::wants::want;
use epoch_examples::lent::config::{Config, config_at, replace_config};
use epoch_examples::lent::owners::{Claim, claim};
use epoch_examples::lent::service::serve;
use epoch_examples::lent::work_queue::JobNode;
use epoch_lend_pointers::{Atomic, Domain, Fault, LendingGuard, Plain, PostSet, Store, Writer};
use epoch_lists::LendingQueue;
use epoch_map::LendingMap;
use std::alloc::Global;
use std::process::Abort;

/// Puts a configuration with this limit in place, with a writer of its own.
fn limit<J: PostSet>(
    rt: &impl Abort,
    alloc: Global,
    present: &Atomic<Plain<Config>>,
    configs: &Store<'_, J, Plain<Config>>,
    guard: &LendingGuard<'_, J>,
    limit: u64,
) {
    let mut writer = writer(rt, alloc, configs);
    let config = config_of(alloc, limit).expect(rt, "memory for a configuration");
    let replaced = replace_config(present, &mut writer, guard, config);
    want(rt, "a configuration is replaced", replaced, Ok(()));
    release(rt, writer);
}

/// Claims the key for this owner, with a writer of its own.
fn own<'s, J: PostSet>(
    rt: &impl Abort,
    alloc: Global,
    map: &LendingMap<'_, 's, J, Claim>,
    owners: &Store<'s, J, Claim>,
    guard: &LendingGuard<'_, J>,
    key: u32,
    owner: u32,
) {
    let mut writer = writer(rt, alloc, owners);
    let first = claim(map, &mut writer, guard, key, owner);
    want(rt, "a key is claimed", first, Ok(owner));
    release(rt, writer);
}

/// Asks for a job of this key and with this text.
fn ask<'s, J: PostSet>(
    rt: &impl Abort,
    alloc: Global,
    config: &Config,
    map: &LendingMap<'_, '_, J, Claim>,
    queue: &LendingQueue<'_, 's, J, JobNode>,
    writer: &mut Writer<'_, 's, J, JobNode>,
    guard: &LendingGuard<'_, J>,
    (key, text): (u32, &str),
) -> Result<bool, Fault> {
    let job = text.to_string(alloc).expect(rt, "memory for a job");
    serve(config, map, queue, writer, guard, key, job)
}

/// How many letters the next job has. 99: there is none.
fn letters<'s, J: PostSet>(
    queue: &LendingQueue<'_, 's, J, JobNode>,
    writer: &mut Writer<'_, 's, J, JobNode>,
    guard: &LendingGuard<'_, J>,
) -> usize {
    match queue.pop_owned(writer, guard, 10) {
        Ok(Some(job)) => job.len(),
        _ => 99,
    }
}

/// Asks under this guard, with the configuration that the pointer leads to.
fn ask_under<'g, 's, J: PostSet>(
    rt: &impl Abort,
    alloc: Global,
    present: &Atomic<Plain<Config>>,
    configs: &'g Store<'_, J, Plain<Config>>,
    map: &LendingMap<'_, '_, J, Claim>,
    queue: &LendingQueue<'_, 's, J, JobNode>,
    writer: &mut Writer<'_, 's, J, JobNode>,
    guard: &'g LendingGuard<'_, J>,
    asked: (u32, &str),
) -> Result<bool, Fault> {
    match config_at(present, configs, guard) {
        Some(config) => ask(rt, alloc, config, map, queue, writer, guard, asked),
        None => Ok(false),
    }
}

/// Asks before there is a configuration, before the key has an owner, and then, all under one guard.
fn ask_all<'q, 's, J: PostSet>(
    rt: &impl Abort,
    alloc: Global,
    configs: &'q Store<'s, J, Plain<Config>>,
    owners: &'q Store<'s, J, Claim>,
    jobs: &'q Store<'s, J, JobNode>,
) {
    let present = Atomic::null();
    let map = LendingMap::new(alloc, owners, 4).expect(rt, "memory for the buckets");
    let queue = empty_queue(rt, alloc, jobs);
    let mut writer = writer(rt, alloc, jobs);
    let mut session = session(rt, configs.domain());
    let guard = pin(rt, &mut session);
    let rows = [
        (0, 0, "abc", false, "there is no limit yet"),
        (3, 0, "abc", false, "the key has no owner yet"),
        (0, 7, "abcd", false, "the text is too long"),
        (0, 0, "abc", true, "the job is handed on"),
        (4, 0, "abcd", true, "and the next one, which fits now"),
    ];
    for (limit_now, key, text, is_handed_on, what) in rows {
        if limit_now > 0 {
            limit(rt, alloc, &present, configs, &guard, limit_now);
        }
        if key > 0 {
            own(rt, alloc, &map, owners, &guard, key, 1);
        }
        let asked = ask_under(
            rt,
            alloc,
            &present,
            &*configs,
            &map,
            &queue,
            &mut writer,
            &guard,
            (7, text),
        );
        want(rt, what, asked, Ok(is_handed_on));
    }
    for wanted in [3, 4, 99] {
        let seen = letters(&queue, &mut writer, &guard);
        want(rt, "how many letters a job has", seen, wanted);
    }
    session.unpin(guard);
    release(rt, writer);
}

pub(crate) fn run<J: PostSet>(rt: &impl Abort, alloc: Global, domain: &Domain<J>) {
    let memory = "memory for a store";
    let mut for_configs = cells(rt, alloc, domain);
    let mut for_owners = cells(rt, alloc, domain);
    let mut for_jobs = cells(rt, alloc, domain);
    let configs = Store::new(alloc, domain, &mut for_configs).expect(rt, memory);
    let owners = Store::new(alloc, domain, &mut for_owners).expect(rt, memory);
    let jobs = Store::new(alloc, domain, &mut for_jobs).expect(rt, memory);
    ask_all(rt, alloc, &configs, &owners, &jobs);
    let _ = (configs.end(), owners.end(), jobs.end());
}

#[test]
fn one_guard_has_the_configuration_the_owners_and_the_jobs(rt: HostRuntime) {
    let _ = play(&rt, rt.alloc(), Page::Service);
}
