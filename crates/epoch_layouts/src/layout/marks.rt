//! What happens in one step: deferrals, called jobs, and refusals.
ghost use Rattle.std.specs.Prelude.{◌≡◌, count_by, length, IfOk};
ghost use Rattle.epoch_layouts.specs.Told.{calls, defers, refuses};

use crate::moment::lane_of;
use crate::{Arrow, AtOnce, DeferralMark, Mark, Moment, Refusal};
use epoch_cells::Name;
use epoch_world::{Call, Reply, Step};
use std::alloc::{AllocError, Global};

fn mark_of(moment: &Moment) -> Mark {
    Mark {
        lane: lane_of(moment.step),
        at: moment.number,
    }
}

pub fn deferrals_of(alloc: Global, moments: &[Moment]) -> Result<Vec<DeferralMark>, AllocError>
    ensures { IfOk result (λ deferrals. length deferrals.items ≡ count_by defers moments.now) }
{
    let mut deferrals = Vec::new(alloc);
    for moment in moments {
        if let Reply::Deferred(ticket) = moment.reply {
            let mark = mark_of(moment);
            let removes = removed_by(begun_before(moments, mark));
            deferrals.push(DeferralMark {
                ticket,
                removes,
                mark,
            })?;
        }
    }
    Ok(deferrals)
}

/// The call that is under way in this lane at this step: the last one that began.
fn begun_before(moments: &[Moment], mark: Mark) -> Option<Call> {
    let end = (mark.at as usize).min(moments.len());
    for back in 1..=end {
        let moment = moments[end - back];
        if let (Step::Begin(position, call), Reply::Began) = (moment.step, moment.reply)
            && mark.lane == Some(position)
        {
            return Some(call);
        }
    }
    None
}

/// The name that a call removes.
fn removed_by(call: Option<Call>) -> Option<Name> {
    match call? {
        Call::DeferDestroy(_, ptr) => ptr.name,
        _ => None,
    }
}

/// An arrow to each called job that has a ticket, from its deferral among these.
pub fn arrows_of(
    alloc: Global,
    moments: &[Moment],
    deferrals: &[DeferralMark],
) -> Result<Vec<Arrow>, AllocError>
    ensures { IfOk result (λ arrows. length arrows.items ≡ count_by calls moments.now) }
{
    let mut arrows = Vec::new(alloc);
    for moment in moments {
        if let Reply::Called(ticket, outcome) = moment.reply {
            let (from, to) = (deferred_at(deferrals, ticket), mark_of(moment));
            arrows.push(Arrow {
                ticket,
                outcome,
                from,
                to,
            })?;
        }
    }
    Ok(arrows)
}

/// Where this ticket was given. Tickets count from 0 in the order of the deferrals.
fn deferred_at(deferrals: &[DeferralMark], ticket: u64) -> Option<Mark> {
    let deferral = deferrals.get(ticket as usize)?;
    if deferral.ticket == ticket {
        Some(deferral.mark)
    } else {
        None
    }
}

pub fn called_at_once_of(alloc: Global, moments: &[Moment]) -> Result<Vec<AtOnce>, AllocError> {
    let mut called = Vec::new(alloc);
    for moment in moments {
        if let Reply::CalledNow(outcome) = moment.reply {
            let mark = mark_of(moment);
            called.push(AtOnce { outcome, mark })?;
        }
    }
    Ok(called)
}

pub fn refusals_of(alloc: Global, moments: &[Moment]) -> Result<Vec<Refusal>, AllocError>
    ensures { IfOk result (λ refusals. length refusals.items ≡ count_by refuses moments.now) }
{
    let mut refusals = Vec::new(alloc);
    for moment in moments {
        if let Reply::Refused(fault) = moment.reply {
            let mark = mark_of(moment);
            refusals.push(Refusal { fault, mark })?;
        }
    }
    Ok(refusals)
}
