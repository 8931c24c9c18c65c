//! How far the end of the collector is, by a list of entries.
ghost use Rattle.std.specs.Prelude.{◌≡◌};
ghost use Rattle.epoch_laws.specs.Fits.{phase_after, phase_of};

use crate::{Entry, Phase, Reply, Step};

/// Returns how far the end is after these entries.
pub fn phase_of(entries: &[Entry]) -> Phase
    ensures { result ≡ phase_of entries.now }
{
    let mut phase = Phase::Before;
    for entry in entries {
        phase = phase_after(phase, *entry);
    }
    phase
}

/// How far it is after one more entry.
fn phase_after(phase: Phase, entry: Entry) -> Phase
    ensures { result ≡ phase_after phase entry.step entry.reply }
{
    match (entry.step, entry.reply) {
        (Step::End, Reply::Began) => Phase::During,
        (Step::EndGo, Reply::Done(_)) => Phase::After,
        _ => phase,
    }
}
