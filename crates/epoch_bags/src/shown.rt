//! How jobs and bags are shown: a removal by its name, and nothing of what a call would do.
use crate::{Bag, Job, SealedBag, Work};
use std::fmt;

impl fmt::Debug for Work {
    fn fmt<F: fmt::Write>(&self, f: &mut fmt::Formatter<F>) -> fmt::Result {
        f.pad("Work { .. }")
    }
}

impl<W> fmt::Debug for Job<W> {
    fn fmt<F: fmt::Write>(&self, f: &mut fmt::Formatter<F>) -> fmt::Result {
        match self {
            Job::Remove(name) => f.debug_tuple("Remove").field(name).finish(),
            Job::Call(_) => f.pad("Call(..)"),
        }
    }
}

impl<J> fmt::Debug for Bag<J> {
    fn fmt<F: fmt::Write>(&self, f: &mut fmt::Formatter<F>) -> fmt::Result {
        f.pad("Bag { .. }")
    }
}

impl<J> fmt::Debug for SealedBag<J> {
    fn fmt<F: fmt::Write>(&self, f: &mut fmt::Formatter<F>) -> fmt::Result {
        f.pad("SealedBag { .. }")
    }
}
