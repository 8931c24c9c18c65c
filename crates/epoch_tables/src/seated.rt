//! Whose tables seats can be made at.
use epoch_bags::{Job, Work};

/// A kind of job, or of work, whose tables can be asked for a seat.
///
/// Generic code that makes a seat names this bound, and a registration is the only call of a collector that does. A
/// call of a handle is generic over its kind of work and doesn't name it: it has the two seats of its handle, and can't
/// come by a third. A caller's kind of work implements it in one line, like [`Work`].
pub trait Seated {}

impl Seated for Work {}

impl<W: Seated> Seated for Job<W> {}
