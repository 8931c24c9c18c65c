//! The column of each step. Long runs are folded, so that a picture stays narrow.
ghost use Rattle.std.specs.Prelude.{◌≡◌, ◌<◌, length, IfOk};
ghost use Rattle.std.specs.List.{All};

use crate::Moment;
use crate::moment::lane_of;
use epoch_world::{AccessAnswer, Call, Reply, Step};
use std::alloc::{AllocError, Global};

/// Runs of more steps than this are folded. Our own: this many columns fit a page.
const UNFOLDED: usize = 56;

/// No picture has more columns. Our own: with the names of the lanes this many take at most 2,000 pixels.
pub const MOST_COLUMNS: u32 = 100;

/// The column of each step: its own, or that of the step before, where it joins that one.
///
/// In a run of more than 56 steps those steps join that tell nothing, and a step that only ends a call. Where that
/// leaves too many columns, a call joins that is equal to the one before. Where that isn't enough either, all columns
/// are squeezed.
pub fn columns_of(alloc: Global, moments: &[Moment]) -> Result<Vec<u32>, AllocError>
    ensures columns { IfOk result (λ columns. length columns.items ≡ length moments.now) }
    ensures few { IfOk result (λ columns. All (λ column. column < MOST_COLUMNS) columns.items) }
{
    let joins = Joins {
        quiet: moments.len() > UNFOLDED,
        equal: false,
    };
    let columns = joined(alloc, moments, joins)?;
    if joins.quiet && count_of(&columns) > MOST_COLUMNS {
        let joins = Joins {
            quiet: true,
            equal: true,
        };
        let columns = joined(alloc, moments, joins)?;
        return squeezed(alloc, &columns);
    }
    squeezed(alloc, &columns)
}

/// Which steps join the ones before.
#[derive(Clone, Copy)]
struct Joins {
    /// Those that tell nothing, or only end a call, or are refused as the one before.
    quiet: bool,
    /// Those of a call that is equal to the one before, and further jobs called.
    equal: bool,
}

/// What is known of the steps before one.
#[derive(Clone, Copy)]
struct Before {
    moment: Moment,
    /// Whether the step told nothing.
    was_quiet: bool,
    /// The last call that began, while no other participant made a step since.
    call: Option<(u64, Call)>,
    /// Whether that call is equal to the one before it.
    repeats: bool,
}

fn joined(alloc: Global, moments: &[Moment], joins: Joins) -> Result<Vec<u32>, AllocError>
    ensures { IfOk result (λ columns. length columns.items ≡ length moments.now) }
{
    let mut columns = Vec::new(alloc);
    let mut column: u32 = 0;
    let mut before = None;
    for moment in moments {
        let now = after(before, *moment);
        if let Some(before) = before
            && !(joins.quiet && joins_quietly(before, moment))
            && !(joins.equal && joins_equally(before, now))
        {
            column = column.saturating_add(1);
        }
        columns.push(column)?;
        before = Some(now);
    }
    Ok(columns)
}

/// What is known once this step is made.
fn after(before: Option<Before>, moment: Moment) -> Before {
    let Some(before) = before else {
        return Before {
            moment,
            was_quiet: tells_nothing(moment.reply, false),
            call: begun_by(moment),
            repeats: false,
        };
    };
    let begun = begun_by(moment);
    let stays = lane_of(moment.step) == lane_of(before.moment.step);
    Before {
        moment,
        was_quiet: tells_nothing(moment.reply, is_same(before, &moment)),
        call: if begun.is_some() || !stays {
            begun
        } else {
            before.call
        },
        repeats: if begun.is_some() {
            begun == before.call
        } else {
            before.repeats && stays
        },
    }
}

/// The participant and the call that a step begins.
fn begun_by(moment: Moment) -> Option<(u64, Call)> {
    match (moment.step, moment.reply) {
        (Step::Begin(position, call), Reply::Began) => Some((position, call)),
        _ => None,
    }
}

/// Whether a step leaves the epoch and the places the same.
fn is_same(before: Before, moment: &Moment) -> bool {
    moment.epoch == before.moment.epoch && moment.place.is_none()
}

/// Whether a step only says that a call begins or goes on, and leaves the epoch and the places the same.
fn tells_nothing(reply: Reply, is_same: bool) -> bool {
    match reply {
        Reply::Began => true,
        Reply::Stepped => is_same,
        _ => false,
    }
}

/// Whether a step joins the one before: neither tells anything, or it only ends a call that has just told something, or
/// it is refused as that one was.
fn joins_quietly(before: Before, moment: &Moment) -> bool {
    match moment.reply {
        Reply::Stepped => is_same(before, moment) && before.was_quiet,
        Reply::Done(AccessAnswer::Unit) => !before.was_quiet,
        Reply::Refused(_) => is_told_again(before.moment, *moment),
        _ => false,
    }
}

/// Whether a step tells the same as the step before, in the same lane.
fn is_told_again(before: Moment, moment: Moment) -> bool {
    lane_of(moment.step) == lane_of(before.step) && moment.reply == before.reply
}

/// Whether a step joins the one before: it is of a call that is equal to the last one, or it calls a further job, with
/// the same outcome.
fn joins_equally(before: Before, now: Before) -> bool {
    match (before.moment.reply, now.moment.reply) {
        (_, Reply::Refused(_)) => false,
        (Reply::Called(_, last), Reply::Called(_, next)) => {
            last == next && lane_of(before.moment.step) == lane_of(now.moment.step)
        }
        _ => now.repeats && is_same(before, &now.moment),
    }
}

/// How many columns there are.
fn count_of(columns: &[u32]) -> u32 {
    match columns.last() {
        Some(last) => last.saturating_add(1),
        None => 0,
    }
}

/// The columns themselves, or that many neighbours of them in one that no more are left than a picture may have.
fn squeezed(alloc: Global, columns: &[u32]) -> Result<Vec<u32>, AllocError>
    ensures columns { IfOk result (λ squeezed. length squeezed.items ≡ length columns.now) }
    ensures few { IfOk result (λ squeezed. All (λ column. column < MOST_COLUMNS) squeezed.items) }
{
    let width = count_of(columns).div_ceil(MOST_COLUMNS).max(1);
    let mut squeezed = Vec::new(alloc);
    for column in columns {
        squeezed.push((*column / width).min(MOST_COLUMNS - 1))?;
    }
    Ok(squeezed)
}
