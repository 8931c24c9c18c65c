//! How cells, and the claims to read and to write in them, are shown: by the names of their types alone.
use crate::{Cells, Reading, Writing};
use std::fmt;

impl<T> fmt::Debug for Cells<T> {
    fn fmt<F: fmt::Write>(&self, f: &mut fmt::Formatter<F>) -> fmt::Result {
        f.pad("Cells { .. }")
    }
}

impl<'a, T> fmt::Debug for Reading<'a, T> {
    fn fmt<F: fmt::Write>(&self, f: &mut fmt::Formatter<F>) -> fmt::Result {
        f.pad("Reading { .. }")
    }
}

impl<'a, T> fmt::Debug for Writing<'a, T> {
    fn fmt<F: fmt::Write>(&self, f: &mut fmt::Formatter<F>) -> fmt::Result {
        f.pad("Writing { .. }")
    }
}
