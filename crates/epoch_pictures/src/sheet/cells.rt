//! The lanes of cells: what each holds, what points to it, and which participants read it.

use super::idle::has;
use super::{CELL, LEFT, ROW, Sheet};
use crate::pen::{Area, Pen, takes};
use epoch_layouts::Bar;
use epoch_layouts::cells::{CellLook, Shown};
use epoch_world::Spot;
use std::alloc::AllocError;
use std::io;
use std::io::Write;

impl Sheet<'_> {
    /// The ground and the name of a cell's lane.
    pub fn draw_cell_ground<W: Write>(&self, pen: &mut Pen<'_, W>, slot: u64) -> io::Result<()> {
        let top = self.top_of_cell(slot);
        let height = if has(&self.idle.cells, slot) {
            ROW
        } else {
            CELL
        };
        self.draw_strip(pen, "shade", top, height - 4)?;
        pen.number("lane", (8, top.saturating_add(15)), "cell ", slot, LEFT)
    }

    pub fn draw_cells<W: Write>(&self, pen: &mut Pen<'_, W>) -> io::Result<()> {
        for shown in &self.picture.cells {
            self.draw_shown(pen, shown)?;
        }
        Ok(())
    }

    /// A bar, and in it what it says, or a shorter form of that, where there is room.
    fn draw_shown<W: Write>(&self, pen: &mut Pen<'_, W>, shown: &Shown) -> io::Result<()> {
        let bar = Bar {
            lane: None,
            kind: (),
            from: shown.from,
            to: shown.to,
        };
        let top = self.top_of_cell(u64::from(shown.name.slot()));
        let (below, height) = row_of(shown.look);
        let area = self.area(&bar, top.saturating_add(below), height);
        self.open_span(pen, shown.from, shown.to)?;
        self.draw_bar(pen, class_of(shown.look), &bar, area)?;
        let (long, short) = self.labels_of(shown)?;
        draw_label(pen, area, &long, &short)?;
        pen.close()
    }

    /// What a bar says, and its shorter form.
    fn labels_of(&self, shown: &Shown) -> Result<(String, String), AllocError> {
        let (alloc, name) = (self.alloc, shown.name);
        let short = match shown.look {
            CellLook::Holds(_, _) => format!(in alloc; "{}.{}", name.slot(), name.turn())?,
            CellLook::Pointed(spot, 0) => self.spot(spot)?,
            CellLook::Pointed(spot, more) => format!(in alloc; "{} +{more}", self.spot(spot)?)?,
            CellLook::Read(readers) => self.readers(readers)?,
        };
        let long = match shown.look {
            CellLook::Holds(value, _) => format!(in alloc; "{short} holds {value}")?,
            CellLook::Pointed(_, _) => format!(in alloc; "from {short}")?,
            CellLook::Read(_) => format!(in alloc; "read by {short}")?,
        };
        Ok((long, short))
    }

    /// A spot, as scripts spell it.
    fn spot(&self, spot: Spot) -> Result<String, AllocError> {
        match spot {
            Spot::Root(root) => format!(in self.alloc; "r{root}"),
            Spot::Field(name, field) => {
                format!(in self.alloc; "{}.{}/{field}", name.slot(), name.turn())
            }
        }
    }

    /// The positions of the participants whose bits are set.
    fn readers(&self, readers: u64) -> Result<String, AllocError> {
        let mut text = String::new(self.alloc);
        let mut rest = readers;
        for position in 0_u64..64 {
            if rest % 2 == 1 {
                if !text.is_empty() {
                    text.push_str(", ")?;
                }
                let number = format!(in self.alloc; "{position}")?;
                text.push_str(&number)?;
            }
            rest /= 2;
        }
        Ok(text)
    }
}

/// The class of a bar.
pub fn class_of(look: CellLook) -> &'static str {
    match look {
        CellLook::Holds(_, true) => "cell",
        CellLook::Holds(_, false) => "apart",
        CellLook::Pointed(_, _) => "pointed",
        CellLook::Read(_) => "reading",
    }
}

/// How far below the top of its lane a bar begins, and its height.
fn row_of(look: CellLook) -> (u64, u64) {
    match look {
        CellLook::Holds(_, _) => (3, 16),
        CellLook::Pointed(_, _) => (21, 15),
        CellLook::Read(_) => (38, 15),
    }
}

fn draw_label<W: Write>(
    pen: &mut Pen<'_, W>,
    area: Area,
    long: &str,
    short: &str,
) -> io::Result<()> {
    if takes(long) <= area.width {
        pen.text("", area.inside(), long)
    } else if takes(short) <= area.width {
        pen.text("", area.inside(), short)
    } else {
        Ok(())
    }
}
