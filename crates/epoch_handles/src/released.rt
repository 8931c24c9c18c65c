//! What is left of a handle that was released.
ghost use Rattle.std.specs.Prelude.{◌≡◌, [], None};

use crate::local::Local;
use epoch_bags::{Run, Work};
use std::fmt;

/// A participant that has given its position up: the state after a release. It must be spent, by
/// [`Released::spend`].
pub struct Released<'c, T, W = Work> {
    pub(crate) local: Local<'c, T, W>,
    pub(crate) ghost gone: { local.seat.me.0.position ≡ None },
    pub(crate) ghost empty: { local.machine.held ≡ [] },
}

impl<'c, T, W> fmt::Debug for Released<'c, T, W> {
    fn fmt<F: fmt::Write>(&self, f: &mut fmt::Formatter<F>) -> fmt::Result {
        f.pad("Released { .. }")
    }
}

impl<'c, T: Drop, W: Run> Released<'c, T, W> {
    /// Ends the participant. It does nothing to what participants share.
    #[inline(always)]
    pub fn spend(self) {
        let Released { local } = self;
        Local::spend(local);
    }
}
