//! What a seat at the participants' table knows.

/// The view of one seat. It is only for contracts: no value of it is made.
pub struct ParticipantView {
    /// The position that the seat has.
    pub position: Option<u64>,
    /// The number of the epoch that it published, while it is pinned.
    pub published: Option<u64>,
    /// The epoch of its first load of the epoch since it published.
    pub first_read: Option<u64>,
    /// The greatest epoch that it read or stored.
    pub seen: u64,
    /// The epoch that it scans for, and how many positions the scan has passed.
    pub scan: Option<(u64, u64)>,
    /// Whose words its steps found, the oldest first: each that of a position, or `None` for the epoch's.
    /// A clause reads an array as a list of any length.
    pub looked: [Option<u64>; 0],
    /// The words found there, in the same order.
    pub found: [u64; 0],
    /// The words that it stored as its own, the oldest first.
    pub stored: [u64; 0],
    /// The epochs that it stored, the oldest first.
    pub advanced: [u64; 0],
}
