//! What the places of a world's store say.
ghost use Rattle.std.specs.Prelude.{◌≤◌, ◌≡◌, ◌==◌, Some, not, length, slice_get, MatchOption};

use crate::World;
use epoch_bags::Places;
use epoch_laws::Deferral;

impl World<Places<Deferral>> {
    /// Returns the word of a place of the store, or `None` past the last one: 0 is empty, 2 claimed, and `2s + 1` tells
    /// of a bag that was sealed with `s`. It is no step.
    pub fn place(&self, place: u64) -> Option<u64>
        // `place` returns a place's word, or `None` past the places. The word is 0 exactly when the place is not
        // occupied.
        ensures { MatchOption result (length self.now.places ≤ place)
            (λ word. slice_get self.now.places place ≡ Some (not (word == 0))) }
    {
        self.common.store.word(place as usize)
    }
}
