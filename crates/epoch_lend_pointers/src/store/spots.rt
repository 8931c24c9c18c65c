//! A pointer's name is a place in cells that lend: the slot, which isn't 0, and the turn.
ghost use Rattle.std.specs.Prelude.{◌≡◌, ◌≤◌, IfSome};

use epoch_cells::{MOST_SLOT, Name};
use epoch_lend::array::cells::SlotTurn;
use epoch_lend::array::room::LentRoom;
use epoch_lend::readers::posts::PostSet;

/// The last turn of a cell whose values have names: a name's turn has 32 bits.
pub const LAST_TURN: u64 = 4_294_967_295;

/// Returns where the value of this name is.
#[inline(always)]
pub fn spot_of(name: Name) -> SlotTurn
    ensures slot { result.slot ≡ name.slot }
    ensures turn { result.turn ≡ name.turn }
{
    SlotTurn {
        slot: name.slot() as usize,
        turn: name.turn() as u64,
    }
}

/// Returns the name of the value at this spot.
#[inline(always)]
pub fn name_of(spot: SlotTurn) -> Name
    requires slot { (1 ≤ spot.slot) × (spot.slot ≤ MOST_SLOT) }
    requires turn { spot.turn ≤ LAST_TURN }
    // Each spot has one name, and each name one spot.
    ensures slot { result.slot ≡ spot.slot }
    ensures turn { result.turn ≡ spot.turn }
{
    Name::at(spot.slot as u32, spot.turn as u32)
}

/// Returns the name of this room's next value. `None`: the cell has had its last turn, or its values have no names.
#[inline(always)]
pub fn next_name<J: PostSet, T>(room: &LentRoom<'_, J, T>) -> Option<Name>
    ensures slot { IfSome result (λ name. name.slot ≡ room.now.position) }
    ensures turn { IfSome result (λ name. name.turn ≡ room.now.next_turn) }
    ensures fits { IfSome result (λ name. room.now.next_turn ≤ room.now.cells.now.last_turn) }
{
    let slot = room.position();
    if slot == 0 || slot > MOST_SLOT as usize || room.next_turn() > LAST_TURN || !room.has_turn() {
        return None;
    }
    let spot = SlotTurn {
        slot,
        turn: room.next_turn(),
    };
    Some(name_of(spot))
}
