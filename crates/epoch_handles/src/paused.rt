//! Guards that are paused.
use crate::guard::Guard;
use epoch_bags::Work;
use std::fmt;

/// A guard that [`LocalHandle::pause`](crate::LocalHandle::pause) has paused: it doesn't keep its participant pinned.
///
/// It must be given back, to [`LocalHandle::resume`](crate::LocalHandle::resume) of the same handle.
pub struct Paused<'c, T, W = Work> {
    pub(crate) guard: Guard<'c, T, W>,
}

impl<'c, T, W> fmt::Debug for Paused<'c, T, W> {
    fn fmt<F: fmt::Write>(&self, f: &mut fmt::Formatter<F>) -> fmt::Result {
        f.pad("Paused { .. }")
    }
}
