//! How the faults of exchanges and updates are shown: by their case and the pointers that they carry.
use crate::Pointable;
use crate::atomic::exchange::{CompareExchangeError, ExchangeFault};
use crate::atomic::update::UpdateFault;
use std::fmt;
use std::fmt::Debug;

impl<'g, T: Pointable, P: Debug> Debug for CompareExchangeError<'g, T, P> {
    fn fmt<F: fmt::Write>(&self, f: &mut fmt::Formatter<F>) -> fmt::Result {
        f.debug_struct("CompareExchangeError")
            .field("current", &self.current)
            .field("new", &self.new)
            .finish()
    }
}

impl<'g, T: Pointable, P: Debug> Debug for ExchangeFault<'g, T, P> {
    fn fmt<F: fmt::Write>(&self, f: &mut fmt::Formatter<F>) -> fmt::Result {
        match self {
            ExchangeFault::Changed(changed) => f.debug_tuple("Changed").field(changed).finish(),
            ExchangeFault::Full(back) => f.debug_tuple("Full").field(back).finish(),
            ExchangeFault::Stuck(shared) => f.debug_tuple("Stuck").field(shared).finish(),
        }
    }
}

impl<'g, T: Pointable> Debug for UpdateFault<'g, T> {
    fn fmt<F: fmt::Write>(&self, f: &mut fmt::Formatter<F>) -> fmt::Result {
        match self {
            UpdateFault::Stopped(read) => f.debug_tuple("Stopped").field(read).finish(),
            UpdateFault::RanOut(read) => f.debug_tuple("RanOut").field(read).finish(),
        }
    }
}
