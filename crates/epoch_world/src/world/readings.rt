//! The names that a participant reads, in the order in which their readings began.
ghost use Rattle.std.specs.Prelude.{◌≡◌, ◌<◌, ◌≤◌, Some, length, MatchOption, vec_capacity, remove};
ghost use Rattle.epoch_laws.specs.Run.{reads, readings_after, without_reading};
ghost use Rattle.epoch_world.specs.Seats.{HasRead};

use epoch_cells::Name;
use epoch_laws::heap::{Access, AccessAnswer, Accessed, is_name};

/// Returns whether the name is among those read.
pub fn reads(name: Option<Name>, readings: &[Name]) -> bool
    ensures { result ≡ reads name readings.now }
{
    let Some(wanted) = name else {
        return false;
    };
    for other in readings {
        if is_name(*other, wanted) {
            return true;
        }
    }
    false
}

/// A reading lasts from the step that finds the value up to that of its Leave.
pub fn keep_readings(readings: &mut Vec<Name>, access: Access, told: Accessed)
    requires within { HasRead access told readings.old.items }
    requires room { 4096 ≤ vec_capacity readings.old }
    ensures value { readings.new.items ≡ readings_after access told readings.old.items }
    ensures room { 4096 ≤ vec_capacity readings.new }
{
    match (access, told) {
        (Access::Read(_, ptr), Accessed::Answers(AccessAnswer::Value(_))) => {
            if let Some(name) = ptr.name {
                readings.push_reserved(name);
            }
        }
        (Access::Leave(ptr), _) => {
            if let Some(name) = ptr.name {
                end_reading(readings, name);
            }
        }
        _ => {}
    }
}

/// Takes out the first reading of this name.
fn end_reading(readings: &mut Vec<Name>, name: Name)
    ensures value { readings.new.items ≡ without_reading (Some name) readings.old.items }
    ensures room { vec_capacity readings.new ≡ vec_capacity readings.old }
{
    if let Some(index) = reading_at(readings.as_slice(), name) {
        readings.remove(index);
    }
}

/// The place of the first reading of this name.
fn reading_at(readings: &[Name], name: Name) -> Option<usize>
    ensures { MatchOption result (without_reading (Some name) readings.now ≡ readings.now) (λ index.
        (index < length readings.now) × (without_reading (Some name) readings.now ≡ remove readings.now index)) }
{
    for (index, other) in readings.iter().enumerate() {
        if is_name(*other, name) {
            return Some(index);
        }
    }
    None
}
