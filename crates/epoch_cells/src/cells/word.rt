//! The word of a slot: the turn in its high half, then the count of readers, and the state in the low two bits.
//!
//! | State | What stands in the slot | The turn |
//! |---|---|---|
//! | `FREE` | nothing | the next one |
//! | `PRESENT` | a value, or nothing where the slot is retired | the value's, or the last one |
//! | `TAKEN` | whatever the thread that took it puts there; nothing, if it is a room | the value's; a room's next one |
ghost use Rattle.std.specs.Prelude.{◌≡◌, ◌+◌, ◌*◌, ◌/◌, ◌%◌, ◌<◌, ◌==◌, if◌then◌else◌};
ghost use Rattle.counted_slot.specs.Counting.{readers};

use counted_slot::{FREE, PRESENT};

const HALF: u64 = 0x1_0000_0000;

pub fn state_of(word: u64) -> u64
    ensures { result ≡ word % 4 }
{
    word % 4
}

pub fn turn_of(word: u64) -> u32
    ensures { result ≡ word / 4294967296 }
{
    (word / HALF) as u32
}

pub fn readers_of(word: u64) -> u64
    ensures { result ≡ readers word }
{
    word % HALF / 4
}

/// Returns the word of this turn and state, without a reader.
pub fn word_of(turn: u32, state: u64) -> u64
    requires { state < 4 }
    ensures { result ≡ turn * 4294967296 + state }
{
    turn as u64 * HALF + state
}

/// Returns the word of a slot whose value of this turn has gone: free for the next turn, or retired after the last one.
pub fn vacant(turn: u32) -> u64
    ensures word { result ≡ (if turn == u32.MAX then turn * 4294967296 + 1 else (turn + 1) * 4294967296) }
    ensures state { result % 4 < 3 }
    ensures readers { readers result ≡ 0 }
{
    if turn == u32::MAX {
        word_of(turn, PRESENT)
    } else {
        word_of(turn + 1, FREE)
    }
}
