//! What lasts for a while, as bars.

use super::Sheet;
use crate::pen::{Area, Pen, takes, takes_small};
use epoch_layouts::{Bar, lane_of};
use epoch_world::{Access, Call, Change};
use std::io;
use std::io::Write;

/// The height of a bar.
const BAR: u64 = 16;
/// How far a call reaches over the middle of a column.
const OVER: u64 = 8;
/// The class of the two lines of a name: small, and about the middle.
const HALVES: &str = "ticket many";

impl Sheet<'_> {
    pub fn draw_bars<W: Write>(&self, pen: &mut Pen<'_, W>) -> io::Result<()> {
        self.draw_epochs(pen)?;
        for bar in &self.picture.registrations {
            let area = self.area(bar, self.top_of(bar.lane), self.height_of(bar.lane));
            self.open_span(pen, bar.from, bar.to)?;
            match bar.to {
                Some(_) => pen.rect("member", area)?,
                None => pen.unclosed("member", area)?,
            }
            pen.close()?;
        }
        for bar in &self.picture.calls {
            self.draw_call(pen, bar)?;
        }
        for bar in &self.picture.pins {
            let area = self.area(bar, self.top_of(bar.lane) + 24, BAR);
            self.open_span(pen, bar.from, bar.to)?;
            self.draw_bar(pen, "pin", bar, area)?;
            self.draw_number(pen, "light", area, "pinned in ", bar.kind)?;
            pen.close()?;
        }
        for bar in &self.picture.places {
            self.draw_place(pen, bar)?;
        }
        Ok(())
    }

    fn draw_epochs<W: Write>(&self, pen: &mut Pen<'_, W>) -> io::Result<()> {
        pen.text("grey", (8, 44), "epoch")?;
        for bar in &self.picture.epochs {
            let area = self.area(bar, 32, BAR);
            let class = if bar.kind % 2 == 0 { "even" } else { "odd" };
            self.open_span(pen, bar.from, bar.to)?;
            self.draw_bar(pen, class, bar, area)?;
            self.draw_number(pen, "", area, "epoch ", bar.kind)?;
            pen.close()?;
        }
        Ok(())
    }

    /// A call, with its name where there is room. One of a column that begins with another call of its lane isn't drawn
    /// beside that.
    fn draw_call<W: Write>(&self, pen: &mut Pen<'_, W>, bar: &Bar<Option<Call>>) -> io::Result<()> {
        let area = self.call_area(bar);
        let before = bar.from.checked_sub(1);
        if area.width == 0 || self.is_short(bar) && self.shares_column(before, bar.from) {
            return Ok(());
        }
        self.open_span(pen, bar.from, bar.to)?;
        self.draw_bar(pen, "call", bar, area)?;
        draw_name(pen, bar.kind.map_or("end", name_of), area)?;
        pen.close()
    }

    /// Whether a call begins and ends in one column.
    fn is_short(&self, bar: &Bar<Option<Call>>) -> bool {
        match bar.to {
            Some(last) => self.columns_at(last) == self.columns_at(bar.from),
            None => false,
        }
    }

    /// The area of a call. It takes the columns of its first and last steps whole, where no other lane has steps there
    /// beside it. It begins behind a column that an earlier call of its lane takes.
    fn call_area(&self, bar: &Bar<Option<Call>>) -> Area {
        let mut area = self.area(bar, self.top_of(bar.lane) + 4, BAR);
        let before = bar.from.checked_sub(1);
        if !self.shares_column(before, bar.from) {
            area.left = area.left.saturating_sub(OVER);
            area.width = area.width.saturating_add(OVER);
        } else if !self.is_crowded(before, bar.from) {
            area.left = area.left.saturating_add(OVER);
            area.width = area.width.saturating_sub(OVER);
        }
        if let Some(last) = bar.to
            && !self.is_crowded(last.checked_add(1), last)
        {
            area.width = area.width.saturating_add(OVER);
        }
        area
    }

    /// A claimed place, or a bag in its place.
    fn draw_place<W: Write>(&self, pen: &mut Pen<'_, W>, bar: &Bar<u64>) -> io::Result<()> {
        let top = self.top_of_place(bar.lane.unwrap_or(0));
        let area = self.area(bar, top + 3, BAR);
        self.open_span(pen, bar.from, bar.to)?;
        if bar.kind % 2 == 0 {
            self.draw_bar(pen, "claim", bar, area)?;
        } else {
            self.draw_bar(pen, "bag", bar, area)?;
            self.draw_number(pen, "", area, "sealed with ", bar.kind / 2)?;
        }
        pen.close()
    }

    /// Whether these are two steps of one column.
    fn shares_column(&self, beside: Option<u32>, step: u32) -> bool {
        match beside {
            Some(beside) => self.columns_at(beside) == self.columns_at(step),
            None => false,
        }
    }

    /// Whether these are two steps of one column, and of two lanes.
    fn is_crowded(&self, beside: Option<u32>, step: u32) -> bool {
        self.shares_column(beside, step)
            && match beside {
                Some(beside) => self.lane_at(beside) != self.lane_at(step),
                None => false,
            }
    }

    fn lane_at(&self, step: u32) -> Option<u64> {
        lane_of(self.picture.moments.get(step as usize)?.step)
    }

    fn columns_at(&self, step: u32) -> Option<u32> {
        self.picture.columns.get(step as usize).copied()
    }

    /// From the middle of the column of the bar's first step to that of its last, or to the end of the columns.
    pub fn area<K>(&self, bar: &Bar<K>, top: u64, height: u64) -> Area {
        let left = self.x(bar.from);
        let right = match bar.to {
            Some(step) => self.x(step),
            None => self.right(),
        };
        Area {
            left,
            top,
            width: right.saturating_sub(left),
            height,
        }
    }

    pub fn draw_bar<W: Write, K>(
        &self,
        pen: &mut Pen<'_, W>,
        class: &'static str,
        bar: &Bar<K>,
        area: Area,
    ) -> io::Result<()> {
        match bar.to {
            Some(_) => pen.rect(class, area),
            None => pen.pointed(class, area),
        }
    }

    fn draw_number<W: Write>(
        &self,
        pen: &mut Pen<'_, W>,
        class: &'static str,
        area: Area,
        words: &str,
        number: u64,
    ) -> io::Result<()> {
        pen.number(class, area.inside(), words, number, area.width)
    }
}

/// The first word of a call's line.
fn name_of(call: Call) -> &'static str {
    match call {
        Call::Pin => "pin",
        Call::Unpin(_) => "unpin",
        Call::Repin(_) => "repin",
        Call::Pause(_) => "pause",
        Call::Resume(_) => "resume",
        Call::Defer(_) => "defer",
        Call::Flush(_) => "flush",
        Call::Release => "release",
        Call::DeferDestroy(_, _) => "defer-destroy",
        Call::Access(access) => name_of_access(access),
    }
}

/// Writes the name of a call into its bar: large, or small, or in two lines, as there is room for.
fn draw_name<W: Write>(pen: &mut Pen<'_, W>, name: &'static str, area: Area) -> io::Result<()> {
    if takes(name) <= area.width {
        return pen.text("", area.inside(), name);
    }
    if takes_small(name) <= area.width {
        return pen.text("small", area.inside(), name);
    }
    match halves_of(name) {
        Some((first, second)) if takes_small(second) <= area.width => {
            let (middle, top) = (area.left.saturating_add(area.width / 2), area.top);
            pen.text(HALVES, (middle, top.saturating_add(7)), first)?;
            pen.text(HALVES, (middle, top.saturating_add(14)), second)
        }
        _ => Ok(()),
    }
}

/// The two lines of a name that has no room in one.
fn halves_of(name: &str) -> Option<(&'static str, &'static str)> {
    match name {
        "defer-destroy" => Some(("defer-", "destroy")),
        _ => None,
    }
}

fn name_of_access(access: Access) -> &'static str {
    match access {
        Access::Place(_) => "place",
        Access::Read(_, _) => "read",
        Access::Leave(_) => "leave",
        Access::Write(_, _, _) => "write",
        Access::Take(_, _) => "take",
        Access::Point(_, _, change) => match change {
            Change::Load => "load",
            Change::Store(_) => "store",
            Change::Swap(_) => "swap",
            Change::CompareExchange(_, _) => "cas",
            Change::FetchAnd(_) => "and",
            Change::FetchOr(_) => "or",
            Change::FetchXor(_) => "xor",
            Change::FetchUpdate(_, _) => "update",
        },
    }
}
