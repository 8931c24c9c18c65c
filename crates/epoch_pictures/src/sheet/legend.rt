//! What the marks of a picture mean.

use super::cells;
use super::marks::class_of;
use super::signs::{Kind, Sign};
use crate::pen::{Area, Pen};
use epoch_cells::Fault;
use epoch_layouts::Picture;
use epoch_layouts::cells::Shown;
use std::alloc::{AllocError, Global};
use std::io;
use std::io::Write;

/// The width of a legend.
pub const WIDTH: u64 = 790;

/// How high a line of samples is, and one of words.
const SAMPLE: u64 = 20;

const WORDS: u64 = 16;

/// The class of each sample, what it means, and whether it stands in every legend, or where it occurs.
const SAMPLES: [(&str, &str, bool); 17] = [
    ("call", "a call under way", true),
    ("pin", "pinned, with the epoch published", true),
    ("member", "a participant is registered", true),
    ("deferral", "a job is deferred, under this ticket", true),
    ("called", "the job is called; ! is one without ticket", true),
    (
        "destroyed",
        "a removal is called, and destroys its cell",
        false,
    ),
    ("held", "a removal finds its cell held: it stays", false),
    ("gone", "a removal finds its cell gone", false),
    ("several", "marks of several kinds, in one column", false),
    ("bag", "a bag in its place, with its seal", true),
    ("claim", "a place is claimed, to fill or empty it", true),
    ("cell", "a cell within reach of a root", false),
    ("apart", "a cell out of reach of the roots", false),
    ("pointed", "pointers to the cell; +N: N more", false),
    ("reading", "participants that read the cell", false),
    ("fold", "+N: N steps share this column", true),
    ("cross", "a step is refused, with its fault", true),
];

/// What a picture has to explain.
#[derive(Drop)]
pub struct Legend {
    samples: Vec<(&'static str, &'static str)>,
    /// The faults that occur.
    faults: Vec<Fault>,
    /// Whether a sign stands for more than one mark.
    counts: bool,
}

impl Legend {
    /// The legend of a picture with these signs.
    pub fn of(alloc: Global, picture: &Picture<'_>, signs: &[Sign]) -> Result<Legend, AllocError> {
        let mut samples = Vec::new(alloc);
        for (class, text, always) in SAMPLES {
            if always || has_sign(signs, class) || has_cell(&picture.cells, class) {
                samples.push((class, text))?;
            }
        }
        let mut faults = Vec::new(alloc);
        for sign in signs {
            if let Kind::Refusal(fault) = sign.kind
                && !faults.contains(&fault)
            {
                faults.push(fault)?;
            }
        }
        let counts = signs.iter().any(|sign| sign.count > 1);
        Ok(Legend {
            samples,
            faults,
            counts,
        })
    }

    /// The height that it takes.
    pub fn height(&self) -> u64 {
        let samples = (self.samples.len() as u64)
            .div_ceil(3)
            .saturating_mul(SAMPLE);
        let words = (self.faults.len() as u64).saturating_add(1 + u64::from(self.counts));
        samples
            .saturating_add(words.saturating_mul(WORDS))
            .saturating_add(24)
    }

    /// Three samples a line, sentences on time and on counts, and what each fault means.
    pub fn draw<W: Write>(
        &self,
        alloc: Global,
        pen: &mut Pen<'_, W>,
        bottom: u64,
    ) -> io::Result<()> {
        let (mut left, mut top) = (8, bottom.saturating_add(14));
        for (class, text) in &self.samples {
            if left > WIDTH - 200 {
                (left, top) = (8, top.saturating_add(SAMPLE));
            }
            draw_sample(pen, class, text, (left, top))?;
            left += 260;
        }
        let mut y = top.saturating_add(SAMPLE + 12);
        pen.text("grey", (8, y), TIME)?;
        if self.counts {
            y = y.saturating_add(WORDS);
            pen.text("grey", (8, y), COUNTS)?;
        }
        for fault in &self.faults {
            y = y.saturating_add(WORDS);
            let words = format!(in alloc; "{} {fault:?}: {fault}", fault.number())?;
            pen.text("", (8, y), &words)?;
        }
        Ok(())
    }
}

fn has_sign(signs: &[Sign], class: &str) -> bool {
    signs.iter().any(|sign| class_of(sign.kind) == class)
}

fn has_cell(cells: &[Shown], class: &str) -> bool {
    cells
        .iter()
        .any(|shown| cells::class_of(shown.look) == class)
}

const TIME: &str =
    "Time is steps, one column each. What has a point at its right end goes on past the last step.";

const COUNTS: &str = "xN stands for N marks of one column.";

fn draw_sample<W: Write>(
    pen: &mut Pen<'_, W>,
    class: &'static str,
    text: &str,
    (left, top): (u64, u64),
) -> io::Result<()> {
    if class == "cross" {
        pen.cross(left.saturating_add(6), top.saturating_add(2))?;
    } else {
        pen.rect(
            class,
            Area {
                left,
                top,
                width: 22,
                height: 13,
            },
        )?;
    }
    pen.text("", (left.saturating_add(28), top.saturating_add(10)), text)
}
