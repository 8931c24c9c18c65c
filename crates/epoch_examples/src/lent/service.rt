//! A service: under one guard a request reads a configuration and a map, and hands a job to the other threads. Each of
//! them has values of a store of its own, and all stores are of one domain.
use crate::lent::config::Config;
use crate::lent::owners::{Claim, owner_of};
use crate::lent::work_queue::JobNode;
use epoch_lend_pointers::{Fault, LendingGuard, PostSet, Writer};
use epoch_lists::LendingQueue;
use epoch_map::LendingMap;

/// Hands this job to the other threads if its key has an owner, and its size is within the first limit of the
/// configuration, which was read under the same guard. Returns whether it was handed on.
pub fn serve<'s, J: PostSet>(
    config: &Config,
    owners: &LendingMap<'_, '_, J, Claim>,
    jobs: &LendingQueue<'_, 's, J, JobNode>,
    writer: &mut Writer<'_, 's, J, JobNode>,
    guard: &LendingGuard<'_, J>,
    key: u32,
    job: String,
) -> Result<bool, Fault> {
    let limit = config.limits.first().copied().unwrap_or(0);
    if job.len() as u64 > limit || owner_of(owners, guard, key)?.is_none() {
        return Ok(false);
    }
    match jobs.push_owned(writer, guard, job, 1_000) {
        Ok(()) => Ok(true),
        Err(refused) => Err(refused.fault),
    }
}
