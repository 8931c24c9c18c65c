//! How far a participant's call of a structure is.

/// A participant's call of a structure.
#[derive(Clone, Copy, Debug, PartialEq, Eq)]
pub enum Plan<P> {
    /// No call is under way.
    NoPlan,
    /// A call is under way under this guard, in this phase. The last field says whether the phase's call of the world
    /// has begun.
    Under(u64, P, bool),
}
