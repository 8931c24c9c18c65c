//! What happens in one step, as marks, and the arrows between them.

use super::signs::{Kind, Sign};
use super::{LEFT, Sheet};
use crate::pen::{Area, Pen, takes};
use epoch_bags::Called;
use epoch_layouts::{Arrow, Mark};
use std::alloc::AllocError;
use std::io;
use std::io::Write;

/// Where the marks of a lane begin and end, below its top.
const TOP: u64 = 45;

const BOTTOM: u64 = 60;
/// How far a mark reaches beside the middle of its column.
const BESIDE: u64 = 9;

impl Sheet<'_> {
    /// An arrow for each job from its deferral to its call, and one alone where several would be the same.
    pub fn draw_arrows<W: Write>(&self, pen: &mut Pen<'_, W>) -> io::Result<()> {
        let mut before = None;
        let mut drawn = 0;
        for arrow in &self.picture.arrows {
            if let Some(from) = arrow.from {
                let ends = (self.mark_at(from), self.mark_at(arrow.to));
                if before != Some(ends) {
                    self.draw_arrow(pen, from, arrow, drawn)?;
                    before = Some(ends);
                    drawn = drawn % 4 + 1;
                }
            }
        }
        Ok(())
    }

    /// Where a mark stands.
    fn mark_at(&self, mark: Mark) -> (u64, u64) {
        (self.x(mark.at), self.top_of(mark.lane))
    }

    /// An arrow goes below the marks of the lane where it begins, on one of four levels, to the column where it ends.
    fn draw_arrow<W: Write>(
        &self,
        pen: &mut Pen<'_, W>,
        from: Mark,
        arrow: &Arrow,
        level: u64,
    ) -> io::Result<()> {
        let (start, end) = (self.top_of(from.lane), self.top_of(arrow.to.lane));
        let level = start + BOTTOM + 5 + level % 4 * 4;
        let bottom = if start < end { end + TOP } else { end + BOTTOM };
        let (left, right) = (self.x(from.at), self.x(arrow.to.at));
        self.open_span(pen, from.at, Some(arrow.to.at))?;
        pen.arrow((left, start + BOTTOM), level, (right, bottom))?;
        pen.close()
    }

    pub fn draw_signs<W: Write>(&self, pen: &mut Pen<'_, W>, signs: &[Sign]) -> io::Result<()> {
        for sign in signs {
            self.open_span(pen, sign.from, Some(sign.to))?;
            let top = sign.top.saturating_add(TOP);
            match sign.kind {
                Kind::Refusal(_) => pen.cross(
                    sign.x.saturating_sub(BESIDE),
                    top.saturating_add(3),
                )?,
                _ => draw_box(pen, sign, top)?,
            }
            self.draw_label(pen, signs, sign)?;
            pen.close()?;
        }
        Ok(())
    }

    /// Writes what a sign is called behind it, or before it, where there is room. A fault's number always has room.
    fn draw_label<W: Write>(
        &self,
        pen: &mut Pen<'_, W>,
        signs: &[Sign],
        sign: &Sign,
    ) -> io::Result<()> {
        let label = self.label_of(sign)?;
        if label.is_empty() {
            return Ok(());
        }
        let (width, y) = (takes(&label), sign.top.saturating_add(TOP + 11));
        let left = left_of_label(sign);
        if left.saturating_add(width) <= self.next_sign(signs, sign) {
            return pen.text(label_class(sign.kind), (left, y), &label);
        }
        let right = sign.x.saturating_sub(BESIDE + 3);
        if self.last_label(signs, sign)?.saturating_add(width) <= right {
            return pen.text(label_class_before(sign.kind), (right, y), &label);
        }
        match sign.kind {
            Kind::Refusal(fault) => pen.number("fault", (left, y), "", fault.number(), BESIDE * 2),
            _ => Ok(()),
        }
    }

    /// What a sign is called: the fault, what a removal did, or the cell that will be removed.
    fn label_of(&self, sign: &Sign) -> Result<String, AllocError> {
        let alloc = self.alloc;
        match sign.kind {
            Kind::Refusal(fault) if sign.count > 1 => {
                format!(in alloc; "x{} {fault:?}", sign.count)
            }
            Kind::Refusal(fault) => format!(in alloc; "{fault:?}"),
            Kind::Deferral(Some(name)) => format!(in alloc; "{}.{}", name.slot(), name.turn()),
            Kind::Called(Called::Destroyed) => format!(in alloc; "destroyed"),
            Kind::Called(Called::HeldElsewhere) => format!(in alloc; "held"),
            Kind::Called(Called::Gone) => format!(in alloc; "gone"),
            _ => Ok(String::new(alloc)),
        }
    }

    /// The left edge of the next sign in this lane, or of nothing.
    fn next_sign(&self, signs: &[Sign], sign: &Sign) -> u64 {
        let mut next = self.width();
        for other in signs {
            if other.top == sign.top && other.x > sign.x {
                next = next.min(other.x.saturating_sub(BESIDE));
            }
        }
        next
    }

    /// Where the label of the sign before this one ends in its lane, or the lane begins.
    fn last_label(&self, signs: &[Sign], sign: &Sign) -> Result<u64, AllocError> {
        let mut end = LEFT;
        for other in signs {
            if other.top == sign.top && other.x < sign.x {
                let label = self.label_of(other)?;
                end = end.max(left_of_label(other).saturating_add(takes(&label)));
            }
        }
        Ok(end)
    }
}

/// A box with the number of a ticket, an exclamation mark where there is none, or the number of its marks.
fn draw_box<W: Write>(pen: &mut Pen<'_, W>, sign: &Sign, top: u64) -> io::Result<()> {
    let left = sign.x.saturating_sub(8);
    pen.rect(
        class_of(sign.kind),
        Area {
            left,
            top,
            width: 16,
            height: BOTTOM - TOP,
        },
    )?;
    let at = (sign.x, top.saturating_add(11));
    let text = text_class(sign);
    match sign.ticket {
        _ if sign.count > 1 => pen.number(text, at, "x", sign.count, 64),
        Some(ticket) => pen.number(text, at, "", ticket, 28),
        None => pen.text(text, at, "!"),
    }
}

/// The class of a sign's shape.
pub fn class_of(kind: Kind) -> &'static str {
    match kind {
        Kind::Deferral(_) => "deferral",
        Kind::Called(Called::Ran) => "called",
        Kind::Called(Called::Destroyed) => "destroyed",
        Kind::Called(Called::HeldElsewhere) => "held",
        Kind::Called(Called::Gone) => "gone",
        Kind::Refusal(_) => "cross",
        Kind::Several => "several",
    }
}

/// The class of the text in a sign's box.
fn text_class(sign: &Sign) -> &'static str {
    let is_full = matches!(sign.kind, Kind::Called(Called::Ran | Called::Destroyed));
    let is_long = matches!(sign.ticket, Some(100..));
    match (is_full, sign.count > 1, is_long) {
        (true, true, _) => "white many",
        (true, false, true) => "white long",
        (true, false, false) => "white",
        (false, true, _) => "ticket many",
        (false, false, true) => "ticket long",
        (false, false, false) => "ticket",
    }
}

/// The class of the text behind a sign.
fn label_class(kind: Kind) -> &'static str {
    match kind {
        Kind::Refusal(_) => "fault",
        _ => "note",
    }
}

/// The class of the text before a sign.
fn label_class_before(kind: Kind) -> &'static str {
    match kind {
        Kind::Refusal(_) => "fault before",
        _ => "note before",
    }
}

/// Where the text behind a sign begins. A cross stands left of the middle of its column.
fn left_of_label(sign: &Sign) -> u64 {
    match sign.kind {
        Kind::Refusal(_) => sign.x.saturating_add(3),
        _ => sign.x.saturating_add(BESIDE + 2),
    }
}
