//! What the rule of the table means for epochs and for bags.
//!
//! Each function here does nothing: its contract is a law about any table that keeps the rule.
ghost use Rattle.epoch_tables.specs.Table.{IsNeverLowered, ReadsAfterSeal, NeverFalls, HoldsBagsBack};
ghost use Rattle.epoch_tables.specs.Table.{EachIsStored};

/// When a seat has passed all positions in its scan for an epoch, and until it scans anew, the present epoch is that
/// one or the next. So the plain store of the next one never lowers it.
pub fn store_never_lowers()
    // After a whole scan, the plain store of the next epoch never lowers the epoch.
    ensures { IsNeverLowered (Unit {0}) }
{}

/// If a bag is expired for an epoch that some seat has read or stored, every pinned seat that has read the epoch since
/// it published read an epoch after the bag's seal.
pub fn expired_means_read_later()
    // If a bag is expired for an epoch that some seat has read, each pinned seat that has read the epoch again read an
    // epoch after the bag's seal.
    ensures { ReadsAfterSeal (Unit {0}) }
{}

/// The epoch is never below one that a seat has read or stored.
pub fn epoch_never_falls()
    // The epoch is never below one that was read.
    ensures { NeverFalls (Unit {0}) }
{}

/// A table begins in epoch 0. Each epoch from 1 to the present one was stored by some seat.
pub fn each_epoch_is_stored()
    // A table begins in epoch 0. Each epoch from 1 to the present one was stored by some seat.
    ensures { EachIsStored (Unit {0}) }
{}

/// Say that a participant was pinned, and had read the epoch again, when the epoch was the seal of a bag. While it
/// stays pinned, no seat reads or stores an epoch for which that bag is expired.
pub fn pinned_seats_hold_bags_back()
    // Suppose that a participant was pinned, and had read the epoch again, when the epoch was a bag's seal. While it
    // stays pinned, no seat reads or stores an epoch for which that bag is expired.
    ensures { HoldsBagsBack (Unit {0}) }
{}
