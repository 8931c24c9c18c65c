//! What happens in one step, gathered by lane and column: what stands in one place is one sign.

use super::Sheet;
use epoch_bags::Called;
use epoch_cells::{Fault, Name};
use epoch_layouts::Mark;
use std::alloc::AllocError;

/// What a sign stands for.
#[derive(Clone, Copy, PartialEq, Eq)]
pub enum Kind {
    /// A job is deferred. It removes this cell, if it is a removal.
    Deferral(Option<Name>),
    /// A job is called.
    Called(Called),
    /// A step is refused.
    Refusal(Fault),
    /// Several of these.
    Several,
}

/// One mark, or all those of one lane and one column.
#[derive(Clone, Copy)]
pub struct Sign {
    pub kind: Kind,
    /// The top of its lane.
    pub top: u64,
    /// The middle of its column.
    pub x: u64,
    /// Its first step.
    pub from: u32,
    /// Its last step.
    pub to: u32,
    /// How many marks it stands for.
    pub count: u64,
    /// The ticket of its first job, if that has one.
    pub ticket: Option<u64>,
}

impl Sheet<'_> {
    /// The signs of all deferrals, called jobs and refusals.
    pub fn signs(&self) -> Result<Vec<Sign>, AllocError> {
        let mut signs = Vec::new(self.alloc);
        for deferral in &self.picture.deferrals {
            let kind = Kind::Deferral(deferral.removes);
            gather(
                &mut signs,
                self.sign(kind, deferral.mark, Some(deferral.ticket)),
            )?;
        }
        for arrow in &self.picture.arrows {
            let kind = Kind::Called(arrow.outcome);
            gather(&mut signs, self.sign(kind, arrow.to, Some(arrow.ticket)))?;
        }
        for called in &self.picture.called_at_once {
            let kind = Kind::Called(called.outcome);
            gather(&mut signs, self.sign(kind, called.mark, None))?;
        }
        for refusal in &self.picture.refusals {
            let kind = Kind::Refusal(refusal.fault);
            gather(&mut signs, self.sign(kind, refusal.mark, None))?;
        }
        Ok(signs)
    }

    fn sign(&self, kind: Kind, mark: Mark, ticket: Option<u64>) -> Sign {
        Sign {
            kind,
            top: self.top_of(mark.lane),
            x: self.x(mark.at),
            from: mark.at,
            to: mark.at,
            count: 1,
            ticket,
        }
    }
}

/// Adds a sign to the one in its place, or behind the others.
fn gather(signs: &mut Vec<Sign>, sign: Sign) -> Result<(), AllocError> {
    for other in signs.as_mut_slice() {
        if other.top == sign.top && other.x == sign.x {
            other.kind = joined(other.kind, sign.kind);
            other.from = other.from.min(sign.from);
            other.to = other.to.max(sign.to);
            other.count = other.count.saturating_add(1);
            return Ok(());
        }
    }
    signs.push(sign)?;
    Ok(())
}

/// What two signs in one place stand for together.
fn joined(one: Kind, other: Kind) -> Kind {
    if one == other {
        return one;
    }
    match (one, other) {
        (Kind::Deferral(_), Kind::Deferral(_)) => Kind::Deferral(None),
        _ => Kind::Several,
    }
}
