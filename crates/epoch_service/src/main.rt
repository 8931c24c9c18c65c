//! A service: a configuration that is read all the time and replaced now and then, a bounded cache of texts, and jobs
//! that two threads send and two others receive.
#![tactic(auto)]

mod counters;
#[cfg(test)]
mod readers;
mod service;
mod settings;
#[cfg(test)]
mod tests;

use crate::counters::Counters;
use crate::service::{CAPACITY, Service};
use epoch_shared::{SharedSizes, share};
use std::io;

fn main(rt: HostRuntime) -> io::Result<()> {
    let alloc = rt.alloc();
    let service = Service {
        rt: &rt,
        alloc,
        counters: Counters::default(),
    };
    let sizes = SharedSizes {
        threads: 5,
        capacity: Some(CAPACITY),
        messages: 1_000,
    };
    match share(&rt, alloc, sizes, &service) {
        Ok(5) => println!(rt; "{}", service.counters),
        Ok(threads) => println!(rt; "only {threads} threads took part"),
        Err(fault) => println!(rt; "{fault}"),
    }
}
