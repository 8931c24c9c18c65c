//! From the words of a line to numbers, guards, names, pointers and where they stand.
ghost use Rattle.std.specs.Prelude.{◌≡◌, ◌≢◌, ◌∷◌, ◌<◌, ℕ, List, None, Some, IfSome, IsSome, ◌↔◌, ◌≤◌, MatchOption};
ghost use Rattle.epoch_cells.specs.declared.cells.name.Name.{Name};
ghost use Rattle.epoch_script.specs.Words.{ReadsText, ReadsPair, SpellsCell, SpellsField, SpellsGuard, SpellsName};
ghost use Rattle.epoch_script.specs.Words.{SpellsNumber, SpellsNumberBefore, SpellsPtr, SpellsSpot, SpellsTurn, before};
ghost use Rattle.epoch_script.specs.Words.{behind, first_word, others};

use epoch_cells::{MOST_SLOT, Name};
use epoch_laws::heap::{Ptr, Spot};

/// Returns the number that decimal digits write, and no other text; `None` also above `2^64 - 1`.
pub fn read_number(text: &str) -> Option<u64>
    ensures { ReadsText SpellsNumber text.now result }
{
    if text.starts_with('+') {
        return None;
    }
    text.parse().ok()
}

/// Returns the number that the first word writes, and what stands behind its space.
pub fn read_number_before(text: &str) -> Option<(u64, &str)>
    ensures { MatchOption result ((number : ℕ) (rest : List ℕ) → ¬ SpellsNumberBefore number rest text.now)
        (λ read. SpellsNumberBefore read.0 read.1.now text.now) }
{
    let (first, others) = cut(text);
    Some((read_number(first)?, others?))
}

/// A guard: its number, or `-` for an unprotected one.
pub fn read_guard(text: &str) -> Option<Option<u64>>
    ensures { ReadsText SpellsGuard text.now result }
{
    if text == "-" {
        return Some(None);
    }
    Some(Some(read_number(text)?))
}

/// A name: the slot, a dot, and the turn.
pub fn read_name(text: &str) -> Option<Name>
    ensures { ReadsText SpellsName text.now result }
{
    match read_turn(text) {
        Some((slot, turn)) => name_at(slot, turn),
        None => None,
    }
}

/// A slot, a dot, and a turn.
fn read_turn(text: &str) -> Option<(u64, u64)>
    ensures { ReadsPair SpellsTurn text.now result }
{
    let (slot, Some(turn)) = cut_at_dot(text) else {
        return None;
    };
    Some((read_number(slot)?, read_number(turn)?))
}

/// The name of this slot and turn, if there is one.
fn name_at(slot: u64, turn: u64) -> Option<Name>
    ensures some { IfSome result (λ name. (name.slot ≡ slot) × (name.turn ≡ turn) × (turn < 4294967296)) }
    ensures none { result ≡ None → (name : Name) → name.slot ≡ slot → name.turn ≡ turn → ¬ (turn < 4294967296) }
{
    if slot > MOST_SLOT as u64 || turn > u32::MAX as u64 {
        return None;
    }
    Name::new(slot as u32, turn as u32)
}

/// A pointer: null or a name, and a tag where the text has one.
pub fn read_ptr(text: &str) -> Option<Ptr>
    ensures { ReadsText SpellsPtr text.now result }
{
    let (cell, tag) = cut_at_plus(text);
    let name = read_cell(cell)?;
    let tag = match tag {
        None => 0,
        Some(tag) => read_number(tag)?,
    };
    Some(Ptr { name, tag })
}

/// Null, or the name of a cell.
fn read_cell(text: &str) -> Option<Option<Name>>
    ensures { ReadsText SpellsCell text.now result }
{
    if text == "null" {
        return Some(None);
    }
    Some(Some(read_name(text)?))
}

/// Where a pointer stands: a root, or a field of a cell.
pub fn read_spot(text: &str) -> Option<Spot>
    ensures { ReadsText SpellsSpot text.now result }
{
    match past_r(text) {
        Some(root) => match read_number(root) {
            Some(root) => Some(Spot::Root(root)),
            None => None,
        },
        None => match read_field(text) {
            Some((name, field)) => Some(Spot::Field(name, field)),
            None => None,
        },
    }
}

/// What stands behind the letter r, where the text begins with it.
fn past_r(text: &str) -> Option<&str>
    ensures { MatchOption result ((rest : List ℕ) → text.now ≢ 114 ∷ rest) (λ rest. text.now ≡ 114 ∷ rest.now) }
{
    text.strip_prefix('r')
}

/// A field of a cell: its name, a slash, and the number of the field.
fn read_field(text: &str) -> Option<(Name, u64)>
    ensures { ReadsPair SpellsField text.now result }
{
    let (name, Some(field)) = cut_at_slash(text) else {
        return None;
    };
    Some((read_name(name)?, read_number(field)?))
}

/// Returns the first word of a text, and what stands behind its space; `None` after the last word.
pub fn cut(text: &str) -> (&str, Option<&str>)
    ensures first { result.0.now ≡ first_word text.now }
    ensures others { MatchOption result.1 (others text.now ≡ None) (λ rest. others text.now ≡ Some rest.now) }
{
    match text.split_once(' ') {
        Some((first, others)) => (first, Some(others)),
        None => (text, None),
    }
}

fn cut_at_dot(text: &str) -> (&str, Option<&str>)
    ensures first { result.0.now ≡ before 46 text.now }
    ensures others { MatchOption result.1 (behind 46 text.now ≡ None) (λ rest. behind 46 text.now ≡ Some rest.now) }
{
    match text.split_once('.') {
        Some((first, others)) => (first, Some(others)),
        None => (text, None),
    }
}

fn cut_at_plus(text: &str) -> (&str, Option<&str>)
    ensures first { result.0.now ≡ before 43 text.now }
    ensures others { MatchOption result.1 (behind 43 text.now ≡ None) (λ rest. behind 43 text.now ≡ Some rest.now) }
{
    match text.split_once('+') {
        Some((first, others)) => (first, Some(others)),
        None => (text, None),
    }
}

fn cut_at_slash(text: &str) -> (&str, Option<&str>)
    ensures first { result.0.now ≡ before 47 text.now }
    ensures others { MatchOption result.1 (behind 47 text.now ≡ None) (λ rest. behind 47 text.now ≡ Some rest.now) }
{
    match text.split_once('/') {
        Some((first, others)) => (first, Some(others)),
        None => (text, None),
    }
}
