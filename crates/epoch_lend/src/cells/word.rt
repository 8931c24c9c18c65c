//! The word of a place: at which turn it is, and in which state. It is four times the turn, and the state.
ghost use Rattle.std.specs.Prelude.{◌≡◌, ◌+◌, ◌≤◌, ◌/◌};
ghost use Rattle.epoch_lend.specs.Turning.{turn_word, vacant, claimed, shown, removed};
ghost use Rattle.epoch_lend.specs.declared.cells.turns.TheConstants.{GREATEST_TURN};

/// The word of a place that is vacant at this turn.
#[inline(always)]
pub(crate) fn vacant_word(turn: u64) -> u64
    requires { turn ≤ GREATEST_TURN + 1 }
    ensures { result ≡ turn_word (vacant turn) }
{
    4 * turn
}

/// The word of a place that is claimed, while the value of this turn is placed.
#[inline(always)]
pub(crate) fn claimed_word(turn: u64) -> u64
    requires { turn ≤ GREATEST_TURN + 1 }
    ensures { result ≡ turn_word (claimed turn) }
{
    vacant_word(turn) + 1
}

/// The word of a place whose value of this turn is shown to guards.
#[inline(always)]
pub(crate) fn shown_word(turn: u64) -> u64
    requires { turn ≤ GREATEST_TURN + 1 }
    ensures { result ≡ turn_word (shown turn) }
{
    vacant_word(turn) + 2
}

/// The word of a place whose value of this turn was removed, until it is out.
#[inline(always)]
pub(crate) fn removed_word(turn: u64) -> u64
    requires { turn ≤ GREATEST_TURN + 1 }
    ensures { result ≡ turn_word (removed turn) }
{
    vacant_word(turn) + 3
}

/// The turn that a word is of.
#[inline(always)]
pub(crate) fn turn_of(word: u64) -> u64
    ensures { result ≡ word / 4 }
{
    word / 4
}
