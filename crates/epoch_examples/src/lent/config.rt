//! A configuration that threads read by plain loads, while any of them may replace it.
use epoch_lend_pointers::{Atomic, Fault, LendingGuard, Plain, PostSet, Store, Writer};
use std::sync::atomic::Ordering::SeqCst;

/// What the threads go by.
#[derive(Drop)]
pub struct Config {
    /// What they call themselves.
    pub name: String,
    /// How much each of them may do.
    pub limits: Vec<u64>,
}

/// Returns the configuration that the pointer leads to, for as long as the guard is borrowed. `None`: the pointer is
/// null.
#[inline]
pub fn config_at<'g, J: PostSet>(
    present: &Atomic<Plain<Config>>,
    store: &'g Store<'_, J, Plain<Config>>,
    guard: &'g LendingGuard<'_, J>,
) -> Option<&'g Config> {
    let config = store.get(store.load(present, SeqCst, guard), guard)?;
    Some(&config.value)
}

/// Puts a configuration in place of the present one. Each thread that reads the one before goes on with it until its
/// guard is back, and then it is dropped.
///
/// `NoMemory`, `CellsFull`: the present one stays.
pub fn replace_config<J: PostSet>(
    present: &Atomic<Plain<Config>>,
    writer: &mut Writer<'_, '_, J, Plain<Config>>,
    guard: &LendingGuard<'_, J>,
    config: Config,
) -> Result<(), Fault> {
    // Room comes first: what no thread can reach any more can then be retired.
    writer.make_room()?;
    let store = writer.store();
    let new = writer
        .place(guard, Plain { value: config })
        .map_err(|refused| refused.fault)?;
    let before = store.swap(present, new, SeqCst, guard);
    if !before.is_null() {
        writer.retire(before).map_err(|refused| refused.fault)?;
    }
    Ok(())
}
