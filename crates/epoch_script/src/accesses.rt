//! From the text of a line to the call on cells and pointers that it says.
ghost use Rattle.std.specs.Prelude.{◌≡◌, ℕ, Option, MatchOption};
ghost use Rattle.epoch_laws.specs.declared.heap.access.Change.{Change};
ghost use Rattle.epoch_laws.specs.declared.heap.access.Spot.{Spot};
ghost use Rattle.epoch_script.specs.Words.{ReadsText, ReadsPair, ReadsTriple};
ghost use Rattle.epoch_script.specs.Accesses.{IsWordOf, SpellsAccess, SpellsChange, SpellsExchange, SpellsGuarded};
ghost use Rattle.epoch_script.specs.Accesses.{SpellsLoad, SpellsPoint, SpellsPointed, SpellsSpotted, SpellsStore};
ghost use Rattle.epoch_script.specs.Accesses.{SpellsTries, SpellsUnder, SpellsUpdate, SpellsValued, SpellsWrite};

use crate::words::{cut, read_guard, read_number, read_ptr, read_spot};
use epoch_laws::heap::{Access, Change, Ptr, Spot, Update};

/// Returns what a call on cells and pointers says, or `None` where it is none of the grammar.
pub fn read_access(text: &str) -> Option<Access>
    ensures { ReadsText SpellsAccess text.now result }
{
    match cut(text) {
        ("place", Some(rest)) => Some(Access::Place(read_number(rest)?)),
        ("read", Some(rest)) => {
            let (guard, ptr) = read_guarded(rest)?;
            Some(Access::Read(guard, ptr))
        }
        ("leave", Some(rest)) => Some(Access::Leave(read_ptr(rest)?)),
        ("write", Some(rest)) => {
            let (guard, ptr, value) = read_write(rest)?;
            Some(Access::Write(guard, ptr, value))
        }
        ("take", Some(rest)) => {
            let (guard, ptr) = read_guarded(rest)?;
            Some(Access::Take(guard, ptr))
        }
        _ => {
            let (guard, spot, change) = read_point(text)?;
            Some(Access::Point(guard, spot, change))
        }
    }
}

/// A guard, and then a pointer.
pub fn read_guarded(text: &str) -> Option<(Option<u64>, Ptr)>
    ensures { ReadsPair SpellsGuarded text.now result }
{
    let (guard, Some(rest)) = cut(text) else {
        return None;
    };
    Some((read_guard(guard)?, read_ptr(rest)?))
}

/// A guard, a pointer, and then a value.
fn read_write(text: &str) -> Option<(Option<u64>, Ptr, u64)>
    ensures { ReadsTriple SpellsWrite text.now result }
{
    let (guard, Some(rest)) = cut(text) else {
        return None;
    };
    let guard = read_guard(guard)?;
    let (ptr, value) = read_valued(rest)?;
    Some((guard, ptr, value))
}

/// A pointer, and then a value.
fn read_valued(text: &str) -> Option<(Ptr, u64)>
    ensures { ReadsPair SpellsValued text.now result }
{
    let (ptr, Some(rest)) = cut(text) else {
        return None;
    };
    Some((read_ptr(ptr)?, read_number(rest)?))
}

/// What a pointer call says.
fn read_point(text: &str) -> Option<(Option<u64>, Spot, Change)>
    ensures { ReadsTriple SpellsPoint text.now result }
{
    let (word, Some(rest)) = cut(text) else {
        return None;
    };
    read_pointed(word, rest)
}

/// What a pointer call with this first word says after it.
fn read_pointed(word: &str, text: &str) -> Option<(Option<u64>, Spot, Change)>
    ensures { MatchOption result
        ((guard : Option ℕ) (spot : Spot) (change : Change) → ¬ SpellsPointed word.now guard spot change text.now)
        (λ all. SpellsPointed word.now all.0 all.1 all.2 text.now) }
{
    match word {
        "load" => match read_load(text) {
            Some((guard, spot)) => Some((guard, spot, Change::Load)),
            None => None,
        },
        "store" => match read_store(text) {
            Some((spot, ptr)) => Some((None, spot, Change::Store(ptr))),
            None => None,
        },
        _ => read_under(word, text),
    }
}

/// A guard, and then where a pointer stands.
fn read_load(text: &str) -> Option<(Option<u64>, Spot)>
    ensures { ReadsPair SpellsLoad text.now result }
{
    let (guard, Some(rest)) = cut(text) else {
        return None;
    };
    Some((read_guard(guard)?, read_spot(rest)?))
}

/// Where a pointer stands, and then a pointer.
fn read_store(text: &str) -> Option<(Spot, Ptr)>
    ensures { ReadsPair SpellsStore text.now result }
{
    let (spot, Some(rest)) = cut(text) else {
        return None;
    };
    Some((read_spot(spot)?, read_ptr(rest)?))
}

/// A change with this first word, and after it its guard, where it is made, and its last words.
fn read_under(word: &str, text: &str) -> Option<(Option<u64>, Spot, Change)>
    ensures { MatchOption result ((guard : Option ℕ) (spot : Spot) (change : Change)
        → IsWordOf change word.now → ¬ SpellsUnder guard spot change text.now)
        (λ all. IsWordOf all.2 word.now × SpellsUnder all.0 all.1 all.2 text.now) }
{
    let (guard, Some(rest)) = cut(text) else {
        return None;
    };
    let Some(guard) = read_guard(guard) else {
        return None;
    };
    let Some((spot, change)) = read_spotted(word, rest) else {
        return None;
    };
    Some((guard, spot, change))
}

fn read_spotted(word: &str, text: &str) -> Option<(Spot, Change)>
    ensures { MatchOption result
        ((spot : Spot) (change : Change) → IsWordOf change word.now → ¬ SpellsSpotted spot change text.now)
        (λ both. IsWordOf both.1 word.now × SpellsSpotted both.0 both.1 text.now) }
{
    let (spot, Some(rest)) = cut(text) else {
        return None;
    };
    let spot = read_spot(spot)?;
    let change = read_change(word, rest)?;
    Some((spot, change))
}

/// A change with this first word and these last ones.
fn read_change(word: &str, text: &str) -> Option<Change>
    ensures { MatchOption result ((change : Change) → IsWordOf change word.now → ¬ SpellsChange change text.now)
        (λ change. IsWordOf change word.now × SpellsChange change text.now) }
{
    match word {
        "swap" => Some(Change::Swap(read_ptr(text)?)),
        "cas" | "cas-weak" => {
            let (current, new) = read_exchange(text)?;
            Some(Change::CompareExchange(current, new))
        }
        "and" => Some(Change::FetchAnd(read_number(text)?)),
        "or" => Some(Change::FetchOr(read_number(text)?)),
        "xor" => Some(Change::FetchXor(read_number(text)?)),
        "update" => {
            let (tries, update) = read_tries(text)?;
            Some(Change::FetchUpdate(tries, update))
        }
        _ => None,
    }
}

/// Two pointers.
fn read_exchange(text: &str) -> Option<(Ptr, Ptr)>
    ensures { ReadsPair SpellsExchange text.now result }
{
    let (current, Some(rest)) = cut(text) else {
        return None;
    };
    Some((read_ptr(current)?, read_ptr(rest)?))
}

/// How often an update tries, and what its function answers.
fn read_tries(text: &str) -> Option<(u64, Update)>
    ensures { ReadsPair SpellsTries text.now result }
{
    let (tries, Some(rest)) = cut(text) else {
        return None;
    };
    Some((read_number(tries)?, read_update(rest)?))
}

/// What the function of an update answers.
fn read_update(text: &str) -> Option<Update>
    ensures { ReadsText SpellsUpdate text.now result }
{
    match cut(text) {
        ("tag", Some(rest)) => Some(Update::Tag(read_number(rest)?)),
        ("to", Some(rest)) => Some(Update::To(read_ptr(rest)?)),
        ("stop", None) => Some(Update::Stop),
        _ => None,
    }
}
