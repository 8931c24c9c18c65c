//! Which guards a list of entries counts as out.
//!
//! A list of entries may count any number of guards, so they are counted anew from the list, and kept nowhere.
ghost use Rattle.std.specs.Prelude.{◌≡◌, ◌↔◌, ◌==◌, ℕ, ◌+◌, ◌^◌, ◌<◌, ◌≤◌, List, [], ◌∷◌, true, IsTrue, length};
ghost use Rattle.std.specs.Prelude.{count_by};
ghost use Rattle.epoch_laws.specs.Lawful.{told_of};
ghost use Rattle.epoch_laws.specs.Known.{changed};
ghost use Rattle.epoch_laws.specs.Run.{is_out, lowest};

use crate::Entry;
use crate::histories::known::{GuardChange, Known};

/// How many guards of one participant may be out.
const GUARDS: usize = 64;

/// Returns whether no guard of this participant is counted.
pub fn has_none(entries: &[Entry], participant: u64) -> bool
    ensures { IsTrue result ↔ ((told_of participant entries.now).guards ≡ []) }
{
    guards_out(entries, participant) == 0
}

/// Returns whether exactly one guard of this participant is counted.
pub fn has_one(entries: &[Entry], participant: u64) -> bool
    ensures { IsTrue result ↔ (length (told_of participant entries.now).guards ≡ 1) }
{
    guards_out(entries, participant) == 1
}

/// Returns whether this guard is the only one of this participant that is counted.
pub fn has_only(entries: &[Entry], participant: u64, guard: u64) -> bool
    ensures { IsTrue result ↔ ((told_of participant entries.now).guards ≡ guard ∷ []) }
{
    guards_out(entries, participant) == 1 && times_out(entries, participant, guard) == 1
}

/// Returns whether this participant may have one more guard.
pub fn has_room(entries: &[Entry], participant: u64) -> bool
    ensures { IsTrue result ↔ (length (told_of participant entries.now).guards < 64) }
{
    guards_out(entries, participant) < GUARDS
}

/// Returns whether this guard of this participant is counted.
pub fn has_out(entries: &[Entry], participant: u64, guard: u64) -> bool
    ensures { IsTrue result ↔ (is_out guard (told_of participant entries.now).guards ≡ true) }
{
    times_out(entries, participant, guard) > 0
}

/// Returns the least number of no guard of this participant that is counted; 64 where all are.
pub fn lowest(entries: &[Entry], participant: u64) -> u64
    ensures { result ≡ lowest (told_of participant entries.now).guards }
{
    for number in 0..64 {
        if !has_out(entries, participant, number) {
            return number;
        }
    }
    64
}

/// How many guards of this participant are counted.
fn guards_out(entries: &[Entry], participant: u64) -> usize
    ensures { result ≡ length (told_of participant entries.now).guards }
{
    let mut known = Known::nothing();
    let mut count: usize = 0;
    for (place, entry) in entries.iter().enumerate() {
        match known.change(participant, *entry) {
            GuardChange::Adds(_) => count += 1,
            GuardChange::Takes(guard) => {
                if times_out(&entries[..place], participant, guard) > 0 {
                    count -= 1;
                }
            }
            GuardChange::Keeps => {}
        }
        known = known.after(participant, *entry);
    }
    count
}

/// How often this participant's guard of that number is counted.
fn times_out(entries: &[Entry], participant: u64, guard: u64) -> usize
    ensures { result ≡ count_by (λ other. other == guard) (told_of participant entries.now).guards }
{
    let mut known = Known::nothing();
    let mut times: usize = 0;
    for entry in entries {
        times = times_after(known.change(participant, *entry), guard, times);
        known = known.after(participant, *entry);
    }
    times
}

/// How many times a guard is counted after a change, from how many times it was counted before.
fn times_after(change: GuardChange, guard: u64, times: usize) -> usize
    requires { times + 1 < 2 ^ 64 }
    ensures counted { (guards : List ℕ) → times ≡ count_by (λ other. other == guard) guards
        → result ≡ count_by (λ other. other == guard) (changed change guards) }
    ensures few { result ≤ times + 1 }
{
    match change {
        GuardChange::Adds(other) => { if other == guard { times + 1 } else { times } }
        GuardChange::Takes(other) => {
            if other == guard {
                times.saturating_sub(1)
            } else {
                times
            }
        }
        GuardChange::Keeps => times,
    }
}
