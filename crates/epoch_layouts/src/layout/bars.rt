//! What lasts for a while: registrations, calls, pins, what stands in places, and epochs.
ghost use Rattle.std.specs.Prelude.{◌≡◌, count_by, length, IfOk};
ghost use Rattle.epoch_layouts.specs.Told.{begins, pins, registers};

use crate::moment::lane_of;
use crate::{Bar, Moment};
use epoch_world::{AccessAnswer, Call, Reply, Step};
use std::alloc::{AllocError, Global};

/// A bar for each registration, up to the release that frees the position.
pub fn registrations_of(alloc: Global, moments: &[Moment]) -> Result<Vec<Bar<()>>, AllocError>
    ensures { IfOk result (λ bars. length bars.items ≡ count_by registers moments.now) }
{
    let mut bars = Vec::new(alloc);
    for moment in moments {
        match moment.reply {
            Reply::Registered(position) => bars.push(open(Some(position), (), moment.number))?,
            Reply::Done(AccessAnswer::Released) => close(
                &mut bars,
                lane_of(moment.step),
                moment.number,
            ),
            _ => {}
        }
    }
    Ok(bars)
}

/// A bar for each call that began, and one for the end of the collector, up to the reply that ends it.
pub fn calls_of(alloc: Global, moments: &[Moment]) -> Result<Vec<Bar<Option<Call>>>, AllocError>
    ensures { IfOk result (λ bars. length bars.items ≡ count_by begins moments.now) }
{
    let mut bars = Vec::new(alloc);
    for moment in moments {
        match moment.reply {
            Reply::Began => bars.push(open(
                lane_of(moment.step),
                call_of(moment.step),
                moment.number,
            ))?,
            Reply::Done(_) | Reply::Refused(_) if goes_on(moment.step) => {
                close(&mut bars, lane_of(moment.step), moment.number);
            }
            _ => {}
        }
    }
    Ok(bars)
}

/// The call that a step begins.
fn call_of(step: Step) -> Option<Call> {
    match step {
        Step::Begin(_, call) => Some(call),
        _ => None,
    }
}

fn goes_on(step: Step) -> bool {
    matches!(step, Step::Go(_) | Step::EndGo)
}

/// A bar for each epoch that a participant published, up to where it published another one or none.
pub fn pins_of(alloc: Global, moments: &[Moment]) -> Result<Vec<Bar<u64>>, AllocError>
    ensures { IfOk result (λ bars. length bars.items ≡ count_by pins moments.now) }
{
    let mut bars = Vec::new(alloc);
    for moment in moments {
        match moment.reply {
            Reply::Pinned(position) | Reply::Repinned(position) => {
                close(&mut bars, Some(position), moment.number);
                let epoch = moment.pinned.unwrap_or(0);
                bars.push(open(Some(position), epoch, moment.number))?;
            }
            Reply::Unpinned(position) => close(&mut bars, Some(position), moment.number),
            _ => {}
        }
    }
    Ok(bars)
}

/// A bar for each word of a place, up to its next one. An empty place has none.
pub fn places_of(alloc: Global, moments: &[Moment]) -> Result<Vec<Bar<u64>>, AllocError> {
    let mut bars = Vec::new(alloc);
    for moment in moments {
        if let Some((place, word)) = moment.place {
            close(&mut bars, Some(place), moment.number);
            if word != 0 {
                bars.push(open(Some(place), word, moment.number))?;
            }
        }
    }
    Ok(bars)
}

/// A bar for each epoch.
pub fn epochs_of(alloc: Global, moments: &[Moment]) -> Result<Vec<Bar<u64>>, AllocError> {
    let mut bars = Vec::new(alloc);
    let mut epoch = None;
    for moment in moments {
        if epoch != Some(moment.epoch) {
            close(&mut bars, None, moment.number);
            bars.push(open(None, moment.epoch, moment.number))?;
            epoch = Some(moment.epoch);
        }
    }
    Ok(bars)
}

fn open<K>(lane: Option<u64>, kind: K, from: u32) -> Bar<K> {
    Bar {
        lane,
        kind,
        from,
        to: None,
    }
}

/// Ends what lasts in this lane.
fn close<K>(bars: &mut [Bar<K>], lane: Option<u64>, at: u32) {
    for bar in bars {
        if bar.lane == lane && bar.to.is_none() {
            bar.to = Some(at);
        }
    }
}
