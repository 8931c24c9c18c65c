//! Values that are found by their turns, which are plain numbers, and not by names that are carried from the placing.
ghost use Rattle.std.specs.Prelude.{◌≡◌, IfSome};
ghost use Rattle.epoch_lend.specs.Posts.{IsAmong};

use crate::cells::turns::{CellAt, GREATEST_TURN, TurnName, Turns};
use crate::cells::word::{shown_word, turn_of};
use crate::post::PostGuard;

/// A value that was found by its turn, and its name, which shows that it was placed at this turn.
#[derive(Drop)]
pub struct Sight<'g, T> {
    pub value: &'g T,
    pub name: TurnName<T>,
    pub ghost same: { value.now ≡ name.value },
}

impl<T> Turns<T> {
    /// Looks at the place, by one plain load. If it finds the word of a value that is shown at this turn, that value is
    /// lent for as long as the guard is. `None`: no value is shown at this turn, as at each past [`GREATEST_TURN`].
    /// The guard must be of one of the place's posts.
    pub fn sight<'g>(&self, at: CellAt<T>, turn: u64, guard: &'g PostGuard) -> Option<Sight<'g, T>>
        requires { (at ≡ self.now.at) × IsAmong guard.now.log self.now.posts }
        ensures { IfSome result (λ sight. (sight.name.log ≡ self.now.log) × (sight.name.turn ≡ turn)) }
    {
        if turn > GREATEST_TURN {
            return None;
        }
        let shown = shown_word(turn);
        let (found, which, glance) = self.look(turn, guard, at, shown);
        if found != shown {
            which.done();
            glance.done();
            return None;
        }
        let (value, name) = (glance.get(), which.name());
        Some(Sight { value, name })
    }

    /// Returns the turn and name of the shown value, by two plain loads. `None`: none is, or it changed in between.
    pub fn shown(&self, at: CellAt<T>) -> Option<(u64, TurnName<T>)>
        requires { at ≡ self.now.at }
        ensures { IfSome result (λ shown. (shown.1.log ≡ self.now.log) × (shown.1.turn ≡ shown.0)) }
    {
        let (now, any) = self.find(at, 0, 2);
        any.done();
        let turn = turn_of(now);
        let word = shown_word(turn);
        let (found, which) = self.find(at, turn, word);
        if found != word {
            which.done();
            return None;
        }
        Some((turn, which.name()))
    }
}
