//! Where everything of a picture stands on its sheet, and in which order it is drawn. Lengths are in pixels.
ghost use Rattle.std.specs.Prelude.{◌≤◌, ◌*◌, ◌-◌};

mod bars;
mod cells;
mod idle;
mod legend;
mod marks;
mod signs;
mod titles;

use crate::pen::{Area, Pen};
use epoch_layouts::cells::Shown;
use epoch_layouts::{Bar, Picture};
use idle::{Idle, above, has};
use legend::Legend;
use std::alloc::Global;
use std::io;
use std::io::Write;

/// How wide the names of the lanes are.
const LEFT: u64 = 92;
/// What is left free at the right edge, for bars that go on and for the name of a fault.
const RIGHT: u64 = 64;

const COLUMN: u64 = 18;
/// The top of the first lane, below the numbers of the steps and the epochs.
const LANES: u64 = 58;

const LANE: u64 = 84;

const CELL: u64 = 60;
/// The height of a lane of one row: that of a place, and of a participant or a cell of which nothing is told.
const ROW: u64 = 26;
/// No length is greater.
const FAR: u64 = 1_099_511_627_776;

/// Where the lanes and the columns of a picture stand.
#[derive(Clone, Copy)]
struct Sheet<'p> {
    alloc: Global,
    picture: &'p Picture<'p>,
    idle: &'p Idle,
    columns: u32,
    /// The lanes of participants, and the collector's, where something stands in it.
    lanes: u32,
    places: u32,
    /// The greatest slot of a cell that ever held a value, or 0.
    cells: u32,
}

/// Writes the picture as SVG. An `Err` is that of the writer, or says that an allocation was refused.
pub fn draw<W: Write>(alloc: Global, picture: &Picture<'_>, out: &mut W) -> io::Result<()> {
    if picture.moments.is_empty() {
        return draw_nothing(alloc, out);
    }
    let idle = Idle::of(alloc, picture)?;
    let sheet = Sheet::of(alloc, picture, &idle);
    let signs = sheet.signs()?;
    let legend = Legend::of(alloc, picture, &signs)?;
    let height = sheet.bottom().saturating_add(legend.height());
    let mut pen = Pen::begin(alloc, out, sheet.width(), height)?;
    sheet.draw_ground(&mut pen, height)?;
    sheet.draw_columns(&mut pen)?;
    sheet.draw_arrows(&mut pen)?;
    sheet.draw_bars(&mut pen)?;
    sheet.draw_cells(&mut pen)?;
    sheet.draw_signs(&mut pen, &signs)?;
    legend.draw(alloc, &mut pen, sheet.bottom())?;
    pen.end()
}

/// Writes the picture of a script without steps, which says so.
fn draw_nothing<W: Write>(alloc: Global, out: &mut W) -> io::Result<()> {
    let (width, height) = (240, 32);
    let mut pen = Pen::begin(alloc, out, width, height)?;
    pen.rect(
        "page",
        Area {
            left: 0,
            top: 0,
            width,
            height,
        },
    )?;
    pen.text("lane", (8, 20), "This script takes no steps.")?;
    pen.end()
}

impl<'p> Sheet<'p> {
    fn of(alloc: Global, picture: &'p Picture<'p>, idle: &'p Idle) -> Sheet<'p> {
        let columns = match picture.columns.last() {
            Some(column) => column.saturating_add(1),
            None => 0,
        };
        let collects = has_collector(picture);
        let lanes = picture.participants.saturating_add(u32::from(collects));
        Sheet {
            alloc,
            picture,
            idle,
            columns,
            lanes,
            places: places_of(&picture.places),
            cells: cells_of(&picture.cells),
        }
    }

    /// The left edge of the first column that isn't there.
    fn right(&self) -> u64
        ensures { result ≤ FAR }
    {
        LEFT + COLUMN * u64::from(self.columns)
    }

    fn width(&self) -> u64
        ensures { result ≤ 2 * FAR }
    {
        (self.right() + RIGHT).max(legend::WIDTH)
    }

    fn column(&self, step: u32) -> u32 {
        self.picture
            .columns
            .get(step as usize)
            .copied()
            .unwrap_or(0)
    }

    /// The middle of the column of a step.
    fn x(&self, step: u32) -> u64
        ensures { result ≤ FAR }
    {
        LEFT + COLUMN * u64::from(self.column(step)) + COLUMN / 2
    }

    /// The top of a lane. Participants without one of their own share the collector's.
    fn top_of(&self, lane: Option<u64>) -> u64
        ensures { result ≤ FAR }
    {
        let last = u64::from(self.picture.participants);
        let number = lane.unwrap_or(last).min(last);
        let idle = above(&self.idle.lanes, number);
        (LANES + LANE * number).saturating_sub(idle.saturating_mul(LANE - ROW))
    }

    /// The height of a lane, without the gap below it.
    fn height_of(&self, lane: Option<u64>) -> u64
        ensures { result ≤ LANE - 4 }
    {
        match lane {
            Some(number) if has(&self.idle.lanes, number) => ROW - 4,
            _ => LANE - 4,
        }
    }

    fn top_of_places(&self) -> u64
        ensures { result ≤ FAR }
    {
        let lanes = u64::from(self.lanes);
        let idle = above(&self.idle.lanes, lanes);
        (LANES + LANE * lanes + 6).saturating_sub(idle.saturating_mul(LANE - ROW))
    }

    fn top_of_place(&self, place: u64) -> u64
        ensures { result ≤ 2 * FAR }
    {
        self.top_of_places() + ROW * place.min(u64::from(self.places))
    }

    fn top_of_cells(&self) -> u64
        ensures { result ≤ 2 * FAR }
    {
        self.top_of_places() + ROW * u64::from(self.places) + 6
    }

    /// The top of the lane of a slot. Slots are counted from 1.
    fn top_of_cell(&self, slot: u64) -> u64
        ensures { result ≤ 3 * FAR }
    {
        let lanes = slot.saturating_sub(1).min(u64::from(self.cells));
        let idle = above(&self.idle.cells, slot);
        (self.top_of_cells() + CELL * lanes).saturating_sub(idle.saturating_mul(CELL - ROW))
    }

    fn bottom(&self) -> u64
        ensures { result ≤ 3 * FAR }
    {
        self.top_of_cell(u64::from(self.cells) + 1)
    }

    /// The paper, and the ground and the name of each lane.
    fn draw_ground<W: Write>(&self, pen: &mut Pen<'_, W>, height: u64) -> io::Result<()> {
        self.draw_strip(pen, "page", 0, height)?;
        for lane in 0..self.lanes {
            self.draw_lane_ground(pen, lane)?;
        }
        for place in 0..self.places {
            self.draw_place_ground(pen, u64::from(place))?;
        }
        for cell in 0..self.cells {
            self.draw_cell_ground(pen, u64::from(cell) + 1)?;
        }
        Ok(())
    }

    /// An area as wide as the paper.
    fn draw_strip<W: Write>(
        &self,
        pen: &mut Pen<'_, W>,
        class: &'static str,
        top: u64,
        height: u64,
    ) -> io::Result<()> {
        let width = self.width();
        pen.rect(
            class,
            Area {
                left: 0,
                top,
                width,
                height,
            },
        )
    }

    /// The ground and the name of a participant's lane, or of the collector's.
    fn draw_lane_ground<W: Write>(&self, pen: &mut Pen<'_, W>, lane: u32) -> io::Result<()> {
        let number = u64::from(lane);
        let (top, height) = (self.top_of(Some(number)), self.height_of(Some(number)));
        self.draw_strip(pen, "shade", top, height)?;
        let at = (8, top + if height < LANE - 4 { 15 } else { 36 });
        if lane < self.picture.participants {
            pen.number("lane", at, "participant ", number, LEFT)
        } else {
            pen.text("lane", at, "collector")
        }
    }

    /// The ground and the name of a place's lane.
    fn draw_place_ground<W: Write>(&self, pen: &mut Pen<'_, W>, place: u64) -> io::Result<()> {
        let top = self.top_of_place(place);
        self.draw_strip(pen, "shade", top, ROW - 4)?;
        pen.number("lane", (8, top + 15), "place ", place, LEFT)
    }

    /// The columns, and above them the numbers of the steps.
    fn draw_columns<W: Write>(&self, pen: &mut Pen<'_, W>) -> io::Result<()> {
        pen.text("grey", (8, 14), "step")?;
        let mut first: u32 = 0;
        let end = u32::try_from(self.picture.columns.len()).unwrap_or(u32::MAX);
        for step in 0..end {
            if self.column(first) != self.column(step) {
                self.draw_column(pen, first, step)?;
                first = step;
            }
        }
        self.draw_column(pen, first, end)
    }

    /// The column of the steps from the first to before the end. A column of more than one has their number above it.
    fn draw_column<W: Write>(&self, pen: &mut Pen<'_, W>, first: u32, end: u32) -> io::Result<()> {
        let (middle, steps) = (self.x(first), end.saturating_sub(first));
        if steps > 1 {
            let left = middle.saturating_sub(COLUMN / 2);
            let height = self.bottom().saturating_sub(LANES);
            self.open_span(pen, first, end.checked_sub(1))?;
            pen.rect(
                "fold",
                Area {
                    left,
                    top: LANES,
                    width: COLUMN,
                    height,
                },
            )?;
            pen.number("count", (middle, 26), "+", u64::from(steps), 2 * COLUMN)?;
            pen.close()?;
        }
        if self.column(first) % 5 == 0 {
            pen.line(middle, 28, self.bottom())?;
            pen.number(
                "grey middle",
                (middle, 14),
                "",
                u64::from(first) + 1,
                5 * COLUMN,
            )?;
        }
        Ok(())
    }
}

/// Whether something stands in no lane of a participant.
fn has_collector(picture: &Picture<'_>) -> bool {
    let count = u64::from(picture.participants);
    let outside = |lane: Option<u64>| match lane {
        Some(position) => position >= count,
        None => true,
    };
    picture.calls.iter().any(|bar| outside(bar.lane))
        || picture.arrows.iter().any(|arrow| outside(arrow.to.lane))
        || picture
            .refusals
            .iter()
            .any(|refusal| outside(refusal.mark.lane))
}

/// How many places there are from 0 to the greatest one that was ever taken.
fn places_of(bars: &[Bar<u64>]) -> u32 {
    let mut places: u32 = 0;
    for bar in bars {
        if let Some(place) = bar.lane {
            places = places.max(u32::try_from(place).unwrap_or(0).saturating_add(1));
        }
    }
    places
}

/// The greatest slot of these cells, or 0.
fn cells_of(shown: &[Shown]) -> u32 {
    let mut greatest: u32 = 0;
    for cell in shown {
        greatest = greatest.max(cell.name.slot());
    }
    greatest
}
