//! Why a retired value is marked only once each pin from before is over: laws of all runs of a domain.
//!
//! A pin publishes an epoch that it loaded from the clock, so no pin is of an epoch past the clock. A value that is out
//! of reach waits with the epoch to which its writer then moves the clock. So each pin from before is of an earlier
//! epoch, however long ago it was loaded. A look that was made after the clock came to the epoch, and that finds a post
//! unpinned or pinned in this epoch or a later one, shows that the pin from before is over there. The clock never
//! comes to an epoch twice, so once such looks have passed all posts, each pin that is left began after the value was
//! out of reach.
//!
//! Each function does nothing: its contract is a law.
ghost use Rattle.epoch_lend.specs.PinRuns.{PinsStayNear, EarlierPinsAreOfEarlierEpochs, PassedPinsAreLater};
ghost use Rattle.epoch_lend.specs.PinRuns.{PinsFromBeforeAreOver};

/// No pin is of an epoch past the clock.
pub fn pins_stay_near_the_clock()
    // No pin is of an epoch past the clock.
    ensures { PinsStayNear }
{}

/// A pin that began before the clock came to an epoch is of an epoch before that.
pub fn earlier_pins_are_of_earlier_epochs()
    // A pin that began before the clock came to an epoch is of an epoch before that.
    ensures { EarlierPinsAreOfEarlierEpochs }
{}

/// Once a look has passed a post, after the clock came to an epoch, the pin that is there began since.
pub fn passed_pins_are_later()
    // Once a look has passed a post, after the clock came to an epoch, the pin that is there began since.
    ensures { PassedPinsAreLater }
{}

/// Once looks have passed all posts, after the clock came to an epoch, each pin that is left began since.
pub fn pins_from_before_are_over()
    // Once looks have passed all posts, after the clock came to an epoch, each pin that is left began since. So none is
    // left that can have found a value which was out of reach when the clock came there.
    ensures { PinsFromBeforeAreOver }
{}
