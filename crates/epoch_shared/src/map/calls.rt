//! The calls of a map, under a guard.
ghost use Rattle.std.specs.Prelude.{◌≡◌, ◌⊎◌, true, false, None, Some, Ok, IsOk, IsSome, IsTrue, IfErr, IfOk, IfSome};
ghost use Rattle.std.specs.Fn.{FnOnceReturnsAt, FnReturnsAt};
ghost use Rattle.std.specs.declared.cmp.Ordering.TheVariants.{Equal};
ghost use Rattle.epoch_map.specs.Placing.{KeepsOrRetires};
ghost use Rattle.epoch_cells.specs.declared.fault.Fault.TheVariants.{CellsFull, NoMemory, TriesOut};
ghost use Rattle.epoch_shared.specs.Contents.{HasEntry, IsInNode, IsOfNode, SeesAt};
ghost use Rattle.epoch_shared.specs.Showing.{CalledWith, GoesOver};

use crate::map::node::KeepsEntry;
use epoch_cells::{Fault, Refused};
use epoch_lend::readers::posts::PostSet;
use epoch_lend::session::LendingGuard;
use epoch_lend_pointers::Writer;
use epoch_map::{GrowingMap, MapKey, Seeks};

// Looks at the value of this key.
pub(crate) fn look_up<'s, J: PostSet, N: KeepsEntry, Q, R: Drop, F: FnOnce(&N::Value) -> R + Drop>(
    map: &GrowingMap<'_, 's, J, N>,
    guard: &LendingGuard<'_, J>,
    key: &Q,
    look: F,
) -> Option<R>
where
    Q: Seeks<N::Key>,
    requires { F.IsAlwaysCallable look }
    ensures given { IfSome result (λ made. (there : N.Key) × (value : N.Value) × IsOfNode N.key N.entry there value
        × (Q.compared there key.now ≡ Equal) × FnOnceReturnsAt F.FnOnce look value made) }
{
    match map.get(guard, key) {
        Some(node) => Some(look(node.value())),
        None => None,
    }
}

// Returns whether the key has a value.
pub(crate) fn is_there<'s, J: PostSet, N: KeepsEntry, Q: Seeks<N::Key>>(
    map: &GrowingMap<'_, 's, J, N>,
    guard: &LendingGuard<'_, J>,
    key: &Q,
) -> bool
    ensures found { IsTrue result → (there : N.Key) × (value : N.Value) × IsOfNode N.key N.entry there value
        × (Q.compared there key.now ≡ Equal) }
{
    match map.get(guard, key) {
        Some(_node) => true,
        None => false,
    }
}

// Looks at the value of this key, with a closure that may be called again.
pub(crate) fn see_in<'s, J: PostSet, N: KeepsEntry, R: Drop, F: Fn(&N::Value) -> R>(
    map: &GrowingMap<'_, 's, J, N>,
    guard: &LendingGuard<'_, J>,
    key: &N::Key,
    look: &F,
) -> Option<R>
    requires { F.IsAlwaysCallable look.now }
    ensures given { IfSome result
        (SeesAt (IsOfNode N.key N.entry) (λ there. N.Key.cmp there key.now ≡ Equal) (FnReturnsAt F.Fn look.now)) }
{
    match map.get(guard, key) {
        Some(entry) => Some(look(entry.value())),
        None => None,
    }
}

// Takes entries out until there are no more than `most`, those first that come behind this number's place.
fn keep_within<'s, J: PostSet, N: KeepsEntry>(
    map: &GrowingMap<'_, 's, J, N>,
    most: usize,
    writer: &mut Writer<'_, 's, J, N>,
    guard: &LendingGuard<'_, J>,
    number: u64,
)
    ensures store { writer.new.store ≡ writer.old.store }
{
    for _ in 0..u64::MAX {
        if map.len() <= most {
            return;
        }
        match map.pop_behind(writer, &*guard, number) {
            Ok(Some(_)) => {}
            // It was seen empty, or memory was refused.
            _ => return,
        }
    }
}

// Inserts an entry of this key and value; or, if the key is there, looks at its value.
pub(crate) fn insert_in<'s, J: PostSet, N: KeepsEntry, R: Drop, F: Fn(&N::Value) -> R>(
    map: &GrowingMap<'_, 's, J, N>,
    most: usize,
    writer: &mut Writer<'_, 's, J, N>,
    guard: &LendingGuard<'_, J>,
    pair: (N::Key, N::Value),
    look: &F,
) -> Result<Option<R>, Refused<Option<(N::Key, N::Value)>>>
    requires callable { F.IsAlwaysCallable look.now }
    requires own { writer.old.store.now.number ≡ map.now.number }
    ensures store { writer.new.store ≡ writer.old.store }
    ensures inserted { result ≡ Ok None → IsInNode N.entry pair }
    ensures given { IfOk result (λ seen. IfSome seen
        (SeesAt (IsOfNode N.key N.entry) (λ there. N.Key.cmp there pair.0 ≡ Equal) (FnReturnsAt F.Fn look.now))) }
    ensures handed_back { IfErr result (λ back. KeepsOrRetires pair back) }
    ensures refused { IfErr result (λ back. (back.fault ≡ NoMemory) ⊎ (back.fault ≡ CellsFull)
        ⊎ (back.fault ≡ TriesOut)) }
{
    let (key, value) = pair;
    let number = key.number();
    match map.insert(writer, guard, N::with(key, value)) {
        Ok(Some(there)) => Ok(Some(look(there.value()))),
        Ok(None) => {
            keep_within(map, most, writer, guard, number);
            Ok(None)
        }
        Err(refused) => Err(pair_of(refused)),
    }
}

// Puts an entry of this key and value into the map. Returns whether it replaced one.
pub(crate) fn put_in<'s, J: PostSet, N: KeepsEntry>(
    map: &GrowingMap<'_, 's, J, N>,
    most: usize,
    writer: &mut Writer<'_, 's, J, N>,
    guard: &LendingGuard<'_, J>,
    pair: (N::Key, N::Value),
) -> Result<bool, Refused<Option<(N::Key, N::Value)>>>
    requires own { writer.old.store.now.number ≡ map.now.number }
    ensures store { writer.new.store ≡ writer.old.store }
    ensures put { IsOk result → IsInNode N.entry pair }
    ensures replaced { result ≡ Ok true
        → HasEntry (IsOfNode N.key N.entry) (λ there. N.Key.cmp there pair.0 ≡ Equal) }
    ensures handed_back { IfErr result (λ back. KeepsOrRetires pair back) }
    ensures refused { IfErr result (λ back. (back.fault ≡ NoMemory) ⊎ (back.fault ≡ CellsFull)
        ⊎ (back.fault ≡ TriesOut)) }
{
    let (key, value) = pair;
    let number = key.number();
    match map.put(writer, guard, N::with(key, value)) {
        Ok(Some(_before)) => Ok(true),
        Ok(None) => {
            keep_within(map, most, writer, guard, number);
            Ok(false)
        }
        Err(refused) => Err(pair_of(refused)),
    }
}

// Removes the key.
pub(crate) fn remove_in<'s, J: PostSet, N: KeepsEntry, Q: Seeks<N::Key>>(
    map: &GrowingMap<'_, 's, J, N>,
    writer: &mut Writer<'_, 's, J, N>,
    guard: &LendingGuard<'_, J>,
    key: &Q,
) -> Result<bool, Fault>
    requires own { writer.old.store.now.number ≡ map.now.number }
    ensures store { writer.new.store ≡ writer.old.store }
    ensures removed { result ≡ Ok true
        → HasEntry (IsOfNode N.key N.entry) (λ there. Q.compared there key.now ≡ Equal) }
    ensures refused { IfErr result (λ fault. (fault ≡ NoMemory) ⊎ (fault ≡ TriesOut)) }
{
    match map.remove(writer, guard, key) {
        Ok(Some(_node)) => Ok(true),
        Ok(None) => Ok(false),
        Err(fault) => Err(fault),
    }
}

// Calls the closure with this key and this value.
fn show<K, V, R, F: FnMut(&K, &V) -> R>(each: &mut F, key: &K, value: &V) -> R
    requires { F.IsAlwaysCallable each.old }
    ensures callable { F.IsAlwaysCallable each.new }
    ensures called { CalledWith F.FnMut each.old key.now value.now result each.new }
{
    each(key, value)
}

// Calls the closure with each entry.
pub(crate) fn go_over<'g, 'q, 'd, 's, J: PostSet, N: KeepsEntry + 'g, F>(
    map: &GrowingMap<'q, 's, J, N>,
    guard: &'g LendingGuard<'d, J>,
    each: &mut F,
)
where
    F: FnMut(&N::Key, &N::Value),
    requires { F.IsAlwaysCallable each.old }
    ensures shown { GoesOver F.FnMut (IsOfNode N.key N.entry) each.old each.new }
{
    for entry in map.iter(guard) {
        show(each, entry.key(), entry.value());
    }
}

// Removes the entries for which the closure returns `false`.
pub(crate) fn retain_in<'g, 'q, 'd, 's, J: PostSet, N: KeepsEntry + 'g, F>(
    map: &GrowingMap<'q, 's, J, N>,
    writer: &mut Writer<'_, 's, J, N>,
    guard: &'g LendingGuard<'d, J>,
    keep: &mut F,
) -> Result<(), Fault>
where
    F: FnMut(&N::Key, &N::Value) -> bool,
    requires callable { F.IsAlwaysCallable keep.old }
    requires own { writer.old.store.now.number ≡ map.now.number }
    ensures store { writer.new.store ≡ writer.old.store }
    ensures shown { GoesOver F.FnMut (IsOfNode N.key N.entry) keep.old keep.new }
    ensures refused { IfErr result (λ fault. (fault ≡ NoMemory) ⊎ (fault ≡ TriesOut)) }
{
    for entry in map.iter(guard) {
        if !show(keep, entry.key(), entry.value()) {
            let _ = map.remove(writer, &*guard, entry.key())?;
        }
    }
    Ok(())
}

// The key and the value of an entry that a refused call hands back.
fn pair_of<N: KeepsEntry>(refused: Refused<Option<N>>) -> Refused<Option<(N::Key, N::Value)>>
    ensures fault { result.fault ≡ refused.fault }
    ensures none { refused.value ≡ None → result.value ≡ None }
    ensures some { IfSome refused.value (λ node. result.value ≡ Some (N.entry node)) }
{
    let Refused { fault, value } = refused;
    let value = match value {
        Some(node) => Some(node.into_pair()),
        None => None,
    };
    Refused { fault, value }
}
