//! What the participants of a world have in common.
use epoch_laws::heap::Heap;

/// What all participants of a world have in common, except their words.
#[derive(Drop)]
pub struct Common<S> {
    pub epoch: u64,
    /// The bags that were put.
    pub store: S,
    /// How many tickets were given.
    pub tickets: u64,
    pub heap: Heap,
}
