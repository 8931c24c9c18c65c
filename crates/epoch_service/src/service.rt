//! What the threads share, and what each of them does.
use crate::counters::{Counters, count};
use crate::settings::Settings;
use epoch_shared::{Crew, Hashed, SharedChannel, SharedMap, SharedValue};
use std::alloc::{AllocError, Global};
use std::sync::Wait;
use std::sync::atomic::Ordering::SeqCst;
use std::thread;

/// How many jobs each of the two producers sends.
const EACH: u64 = 500;

/// How many keys both producers put into the cache.
const COMMON: u64 = 8;

/// How often the configuration is replaced.
const VERSIONS: u64 = 200;

/// How many entries the cache has at most.
pub const CAPACITY: u32 = 600;

type Key = Hashed<String>;

/// A service, and what its threads count.
#[derive(Drop)]
pub struct Service<'r, R> {
    pub rt: &'r R,
    pub alloc: Global,
    pub counters: Counters,
}

impl<R: Wait> Service<'_, R> {
    fn look(&self, config: &mut impl SharedValue<Settings>) {
        match config.read(|config| config.is_whole()) {
            Some(true) => count(&self.counters.reads),
            _ => count(&self.counters.torn),
        }
    }

    fn replace(&self, config: &mut impl SharedValue<Settings>, version: u64) {
        match Settings::of_version(self.alloc, version) {
            Ok(next) => match config.replace(next) {
                Ok(()) => count(&self.counters.replaced),
                Err(_) => count(&self.counters.wrong),
            },
            Err(_) => count(&self.counters.wrong),
        }
    }

    fn produce(
        &self,
        cache: &mut impl SharedMap<Key, String>,
        jobs: &mut impl SharedChannel<String>,
        number: u64,
    ) -> Result<(), AllocError> {
        let common = number % COMMON;
        let key = Hashed::new(format!(in self.alloc; "common {common}")?);
        let value = format!(in self.alloc; "value of {common}")?;
        if let Ok(true) = cache.insert(key, value) {
            count(&self.counters.inserted);
        }
        if jobs.send(format!(in self.alloc; "{number}")?).is_err() {
            count(&self.counters.wrong);
        }
        Ok(())
    }

    fn consume(
        &self,
        cache: &mut impl SharedMap<Key, String>,
        job: String,
    ) -> Result<(), AllocError> {
        let number = job.as_str().parse::<u64>().unwrap_or(0);
        self.counters.sum.fetch_add(number, SeqCst);
        let value = format!(in self.alloc; "done {job}")?;
        if let Ok(false) = cache.put(Hashed::new(job.clone()?), value) {
            count(&self.counters.inserted);
        }
        let again = Hashed::new(job.as_str());
        if cache.get(&again, |value| !value.is_empty()) == Some(true) {
            count(&self.counters.found);
        }
        if number % 2 == 0 && cache.remove(&again) == Ok(true) {
            count(&self.counters.removed);
        }
        Ok(())
    }

    fn produce_all(
        &self,
        first: u64,
        config: &mut impl SharedValue<Settings>,
        cache: &mut impl SharedMap<Key, String>,
        jobs: &mut impl SharedChannel<String>,
    ) {
        for step in 0..EACH {
            self.look(config);
            if self.produce(cache, jobs, first.wrapping_add(step)).is_err() {
                count(&self.counters.wrong);
            }
        }
    }

    fn consume_all(
        &self,
        config: &mut impl SharedValue<Settings>,
        cache: &mut impl SharedMap<Key, String>,
        jobs: &mut impl SharedChannel<String>,
    ) {
        for _ in self.rt.forever() {
            if self.counters.jobs.load(SeqCst) >= 2 * EACH {
                return;
            }
            let Ok(Some(job)) = jobs.try_receive() else {
                thread::yield_now();
                continue;
            };
            count(&self.counters.jobs);
            self.look(config);
            if self.consume(cache, job).is_err() {
                count(&self.counters.wrong);
            }
        }
    }

    // Puts more entries into the cache than it has room for, when no other thread is at work, and counts those for
    // which no other was taken out.
    fn fill(&self, cache: &mut impl SharedMap<Key, String>) -> Result<(), AllocError> {
        for number in 0..CAPACITY {
            let before = cache.len();
            let key = Hashed::new(format!(in self.alloc; "more {number}")?);
            let value = format!(in self.alloc; "value of {number}")?;
            if cache.put(key, value).is_ok() && cache.len() > before {
                count(&self.counters.room);
            }
        }
        Ok(())
    }
}

impl<R: Wait> Crew<Settings, Key, String, String> for Service<'_, R> {
    fn before(
        &self,
        config: &mut impl SharedValue<Settings>,
        _cache: &mut impl SharedMap<Key, String>,
        _jobs: &mut impl SharedChannel<String>,
    ) {
        self.replace(config, VERSIONS);
    }

    fn thread(
        &self,
        number: usize,
        config: &mut impl SharedValue<Settings>,
        cache: &mut impl SharedMap<Key, String>,
        jobs: &mut impl SharedChannel<String>,
    ) {
        match number {
            0 => self.produce_all(0, config, cache, jobs),
            1 => self.produce_all(EACH, config, cache, jobs),
            2 => (0..VERSIONS).for_each(|version| self.replace(config, version)),
            _ => self.consume_all(config, cache, jobs),
        }
    }

    fn after(
        &self,
        _config: &mut impl SharedValue<Settings>,
        cache: &mut impl SharedMap<Key, String>,
        _jobs: &mut impl SharedChannel<String>,
    ) {
        if self.fill(cache).is_err() {
            count(&self.counters.wrong);
        }
    }
}
