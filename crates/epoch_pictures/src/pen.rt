//! Writes the elements of an SVG. Lengths are in pixels.

use crate::escape::SvgText;
use std::alloc::Global;
use std::io;
use std::io::Write;

/// What is written between the head of the file and the first element. The colours are those of Okabe and Ito, which
/// colour-blind readers tell apart; what has to be told apart in grey has another shape or hatching too.
const STYLES: &str = "<defs>
<pattern id=\"hatch\" width=\"5\" height=\"5\" patternUnits=\"userSpaceOnUse\" patternTransform=\"rotate(45)\">
<rect width=\"5\" height=\"5\" fill=\"#fff\"/><rect width=\"2\" height=\"5\" fill=\"#777\"/></pattern>
<marker id=\"tip\" viewBox=\"0 0 8 8\" refX=\"7\" refY=\"4\" markerWidth=\"7\" markerHeight=\"7\" orient=\"auto\">
<path d=\"M0 0 8 4 0 8z\" fill=\"#333\"/></marker>
</defs>
<style>
text{font:10px Arial,Helvetica,'Liberation Sans',sans-serif;fill:#222}
.middle{text-anchor:middle}.lane{font-weight:bold}.grey{fill:#666}.grey.middle{font-size:9px}
.count{fill:#666;font-size:8px;text-anchor:middle}
.light{fill:#fff;font-weight:bold}.white{fill:#fff;text-anchor:middle}.ticket{text-anchor:middle}
.white.long,.ticket.long,.small{font-size:8px}.white.many,.ticket.many{font-size:7px}
.fault{fill:#a33f00;font-weight:bold}.note{fill:#444;font-size:9px}.before{text-anchor:end}
.fault,.note{paint-order:stroke;stroke:#f6f6f6;stroke-width:2px}
.page{fill:#fff}.shade{fill:#f6f6f6}.fold{fill:#ececec}.rule{stroke:#ddd;fill:none}
.even{fill:#fff;stroke:#888}.odd{fill:#d9d9d9;stroke:#888}.member{fill:none;stroke:#999;stroke-dasharray:3 2}
.call{fill:#e3e3e3;stroke:#999}.pin{fill:#0072b2;stroke:#00507d}.bag{fill:#f0b93a;stroke:#8a6000}
.claim{fill:url(#hatch);stroke:#777}
.deferral{fill:#fff;stroke:#00795a;stroke-width:1.5}.called{fill:#00795a;stroke:#00543f}
.destroyed{fill:#7b3294;stroke:#4d1a5e}.held{fill:#ffe3cf;stroke:#d55e00;stroke-width:2}
.cell{fill:#8fd0f5;stroke:#2a6f97}.apart{fill:#fff;stroke:#2a6f97;stroke-dasharray:4 2}
.pointed{fill:#e8f4fb;stroke:#7fb2d0}.reading{fill:#f3d6e6;stroke:#a8517f}
.gone{fill:#fff;stroke:#777;stroke-dasharray:2 2}.several{fill:#fff;stroke:#222}
.arrow{fill:none;stroke:#333;stroke-width:1;stroke-linejoin:round;marker-end:url(#tip)}
.cross{fill:none;stroke:#d55e00;stroke-width:3}
</style>
";

/// The room that two dots and a digit take.
const LAST_DIGIT: u64 = 14;

/// What bounds an element.
#[derive(Clone, Copy)]
pub struct Area {
    pub left: u64,
    pub top: u64,
    pub width: u64,
    pub height: u64,
}

impl Area {
    /// Where the text in a bar begins.
    pub fn inside(self) -> (u64, u64) {
        (self.left.saturating_add(3), self.top.saturating_add(12))
    }
}

/// Where the elements go.
#[derive(Drop)]
pub struct Pen<'w, W> {
    out: &'w mut W,
    alloc: Global,
}

impl<'w, W: Write> Pen<'w, W> {
    /// Begins a picture of this size.
    pub fn begin(alloc: Global, out: &'w mut W, width: u64, height: u64) -> io::Result<Pen<'w, W>> {
        writeln!(
            out,
            "<svg xmlns=\"http://www.w3.org/2000/svg\" role=\"img\" width=\"{width}\" height=\"{height}\""
        )?;
        writeln!(out, " viewBox=\"0 0 {width} {height}\">")?;
        out.write_all(STYLES.as_bytes())?;
        Ok(Pen { out, alloc })
    }

    /// Writes a text, escaped.
    pub fn text(&mut self, class: &'static str, at: (u64, u64), text: &str) -> io::Result<()> {
        let text = SvgText::of(self.alloc, text)?;
        self.element(class, at, &text)
    }

    /// Begins a group of shapes with a title, which a browser shows where the pointer rests on one of them.
    pub fn open(&mut self, title: &str) -> io::Result<()> {
        let title = SvgText::of(self.alloc, title)?;
        self.title(&title)
    }

    /// Writes the element of a title.
    fn title(&mut self, title: &SvgText) -> io::Result<()> {
        let title = title.as_str();
        writeln!(self.out, "<g><title>{title}</title>")
    }

    /// Ends the group.
    pub fn close(&mut self) -> io::Result<()> {
        writeln!(self.out, "</g>")
    }

    /// Writes the element of a text. But for titles there is no other that has one.
    fn element(
        &mut self,
        class: &'static str,
        (x, y): (u64, u64),
        text: &SvgText,
    ) -> io::Result<()> {
        let text = text.as_str();
        writeln!(
            self.out,
            "<text class=\"{class}\" x=\"{x}\" y=\"{y}\">{text}</text>"
        )
    }

    /// Writes a number behind these words, or alone, or its last digit, or nothing, as there is room for.
    pub fn number(
        &mut self,
        class: &'static str,
        (x, y): (u64, u64),
        words: &str,
        number: u64,
        room: u64,
    ) -> io::Result<()> {
        let whole = format!(in self.alloc; "{words}{number}")?;
        if takes(&whole) <= room {
            return self.text(class, (x, y), &whole);
        }
        let digits = format!(in self.alloc; "{number}")?;
        if takes(&digits) <= room {
            return self.text(class, (x, y), &digits);
        }
        if room < LAST_DIGIT {
            return Ok(());
        }
        let end = format!(in self.alloc; "..{}", number % 10)?;
        self.text(class, (x, y), &end)
    }

    pub fn rect(&mut self, class: &'static str, at: Area) -> io::Result<()> {
        let Area {
            left,
            top,
            width,
            height,
        } = at;
        writeln!(
            self.out,
            "<rect class=\"{class}\" x=\"{left}\" y=\"{top}\" width=\"{width}\" height=\"{height}\" rx=\"2\"/>"
        )
    }

    /// A bar that goes on past its right edge: it is pointed there.
    pub fn pointed(&mut self, class: &'static str, at: Area) -> io::Result<()> {
        let Area {
            left,
            top,
            width,
            height,
        } = at;
        let half = height / 2;
        writeln!(
            self.out,
            "<path class=\"{class}\" d=\"M{left} {top}h{width}l7 {half}-7 {half}h-{width}z\"/>"
        )
    }

    /// A box without a right edge.
    pub fn unclosed(&mut self, class: &'static str, at: Area) -> io::Result<()> {
        let Area {
            left,
            top,
            width,
            height,
        } = at;
        writeln!(
            self.out,
            "<path class=\"{class}\" d=\"M{left} {top}m{width} 0h-{width}v{height}h{width}\"/>"
        )
    }

    /// An arrow up or down to a level, from there to the side, and then to its end.
    pub fn arrow(&mut self, from: (u64, u64), level: u64, to: (u64, u64)) -> io::Result<()> {
        let ((left, top), (right, bottom)) = (from, to);
        writeln!(
            self.out,
            "<path class=\"arrow\" d=\"M{left} {top}V{level}H{right}V{bottom}\"/>"
        )
    }

    pub fn cross(&mut self, left: u64, top: u64) -> io::Result<()> {
        writeln!(
            self.out,
            "<path class=\"cross\" d=\"M{left} {top}l9 9m0-9-9 9\"/>"
        )
    }

    pub fn line(&mut self, x: u64, top: u64, bottom: u64) -> io::Result<()> {
        writeln!(self.out, "<path class=\"rule\" d=\"M{x} {top}V{bottom}\"/>")
    }

    /// Ends the picture.
    pub fn end(self) -> io::Result<()> {
        writeln!(self.out, "</svg>")
    }
}

/// About how wide a text is: six pixels a letter, and two beside it.
pub fn takes(text: &str) -> u64 {
    (text.len() as u64).saturating_mul(6).saturating_add(2)
}

/// About how wide a text of the class `small` is, with what is beside it in a bar.
pub fn takes_small(text: &str) -> u64 {
    (text.len() as u64).saturating_mul(4).saturating_add(5)
}
