//! Slots that the removals of one position gave free.
use crate::Span;
use crate::cells::rooms::Rooms;

/// Slots that the removals of one position gave free: those that its participant keeps as rooms, and others, which
/// aren't noted yet.
///
/// It must be given back, by [`Cells::note_freed`](crate::Cells::note_freed).
pub struct Freed<'r, 'a, T> {
    pub(crate) position: usize,
    pub(crate) span: Span,
    // A place whose slot was given free, and which no note tells of, since there was no room for it.
    pub(crate) unnoted: Option<usize>,
    pub(crate) rooms: &'r mut Rooms<'a, T>,
}

impl<'r, 'a, T> Freed<'r, 'a, T> {
    /// Begins with no slot, near this position, beside these rooms.
    #[inline(always)]
    pub fn none(position: usize, rooms: &'r mut Rooms<'a, T>) -> Freed<'r, 'a, T> {
        Freed {
            position,
            span: Span { from: 0, to: 0 },
            unnoted: None,
            rooms,
        }
    }
}
