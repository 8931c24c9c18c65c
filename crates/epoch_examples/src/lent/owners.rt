//! A map from keys to their owners, in which threads claim keys: of several threads that claim a key, one gets it.
use epoch_lend_pointers::{Fault, LendingGuard, PostSet, Writer};
use epoch_map::{LendingMap, LentEntry};

/// A key and its owner.
pub type Claim = LentEntry<u32, u32>;

/// How many moves a call may make: one for its beginning and one for each node on its way, and more if other threads
/// change the same bucket meanwhile.
const MOVES: u32 = 1_000;

/// Looks for the owner of the key, and writes nothing that threads share. `None`: it has none.
///
/// `TriesOut`: all moves were used up, and the caller can call again.
pub fn owner_of<J: PostSet>(
    map: &LendingMap<'_, '_, J, Claim>,
    guard: &LendingGuard<'_, J>,
    key: u32,
) -> Result<Option<u32>, Fault> {
    let claim = map.get(guard, &key, MOVES)?;
    // The entry is lent only while the guard is borrowed, so the owner is copied.
    Ok(claim.map(|claim| *claim.value()))
}

/// Claims the key for this owner, and returns its owner: this one, or the one that came first.
///
/// An error leaves the key as it is. The caller can call again, under another pin or a renewed guard.
pub fn claim<'s, J: PostSet>(
    map: &LendingMap<'_, 's, J, Claim>,
    writer: &mut Writer<'_, 's, J, Claim>,
    guard: &LendingGuard<'_, J>,
    key: u32,
    owner: u32,
) -> Result<u32, Fault> {
    // An insert takes a cell, even if the key is there. A look-up writes nothing, so it comes first.
    if let Some(first) = owner_of(map, guard, key)? {
        return Ok(first);
    }
    match map.insert(writer, guard, LentEntry::new(key, owner), MOVES) {
        Ok(Some(claim)) => Ok(*claim.value()),
        Ok(None) => Ok(owner),
        Err(refused) => Err(refused.fault),
    }
}

/// Gives the key up, and returns the owner it had. `None`: it had none.
///
/// An error leaves the key as it is. The caller can call again, under another pin or a renewed guard.
pub fn give_up<'s, J: PostSet>(
    map: &LendingMap<'_, 's, J, Claim>,
    writer: &mut Writer<'_, 's, J, Claim>,
    guard: &LendingGuard<'_, J>,
    key: u32,
) -> Result<Option<u32>, Fault> {
    let claim = map.remove(writer, guard, &key, MOVES)?;
    Ok(claim.map(|claim| *claim.value()))
}
