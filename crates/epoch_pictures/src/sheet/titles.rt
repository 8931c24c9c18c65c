//! Titles: what a browser shows where the pointer rests on a shape.

use super::Sheet;
use crate::pen::Pen;
use epoch_script::Printed;
use std::alloc::AllocError;
use std::io;
use std::io::Write;

impl Sheet<'_> {
    /// Begins a group of shapes that tell of one step, or of what lasts from one step to another.
    pub fn open_span<W: Write>(
        &self,
        pen: &mut Pen<'_, W>,
        from: u32,
        to: Option<u32>,
    ) -> io::Result<()> {
        let mut title = self.told_at(from)?;
        if let Some(to) = to
            && to != from
        {
            let end = self.told_at(to)?;
            title.push_str("; until ")?;
            title.push_str(&end)?;
        }
        pen.open(&title)
    }

    /// The number of a step, its line in the script, and what it told.
    fn told_at(&self, at: u32) -> Result<String, AllocError> {
        let Some(moment) = self.picture.moments.get(at as usize) else {
            return Ok(String::new(self.alloc));
        };
        let (number, line) = (u64::from(moment.number).saturating_add(1), moment.line);
        let reply = Printed(moment.reply);
        format!(in self.alloc; "step {number}, line {line}: {reply}")
    }
}
