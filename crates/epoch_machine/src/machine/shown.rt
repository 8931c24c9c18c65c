//! How a machine is shown: by what it asks next, and by how many guards are out and how many jobs are held.
use crate::machine::Machine;
use std::fmt;

impl<J> fmt::Debug for Machine<J> {
    fn fmt<F: fmt::Write>(&self, f: &mut fmt::Formatter<F>) -> fmt::Result {
        f.debug_struct("Machine")
            .field("stage", &self.stage)
            .field("guards", &self.guards)
            .field("held", &self.held.len())
            .finish_non_exhaustive()
    }
}
