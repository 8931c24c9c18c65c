//! Which writers serve a structure whose nodes are lent, what they get back, and what a call tells that they refuse.
ghost use Rattle.std.specs.Prelude.{◌≡◌, ◌↔◌, IsTrue};
ghost use Rattle.epoch_lend_nodes.specs.Telling.{without_bags};

use epoch_cells::Fault;
use epoch_lend::array::room::LentRoom;
use epoch_lend::readers::posts::PostSet;
use epoch_lend_pointers::Writer;

/// Returns whether the writer is one of the store with this number.
#[inline(always)]
pub fn is_writer_of<J: PostSet, T>(number: u64, writer: &Writer<'_, '_, J, T>) -> bool
    // A writer serves a structure exactly if it is one of the structure's store.
    ensures { IsTrue result ↔ (writer.now.store.now.number ≡ number) }
{
    writer.store().number() == number
}

/// Gives a free cell that a call hasn't used back to its writer, if there is one.
#[inline(always)]
pub fn give_back<'s, J: PostSet, T: Drop>(
    writer: &mut Writer<'_, 's, J, T>,
    room: Option<LentRoom<'s, J, T>>,
)
    ensures store { writer.new.store ≡ writer.old.store }
    ensures kept { writer.new.kept ≡ writer.old.kept }
{
    if let Some(room) = room {
        writer.keep_room(room);
    }
}

/// Returns the fault that a call tells where its program answers this one. A writer has no bags: where it makes no
/// room, memory was refused.
#[inline(always)]
pub fn without_bags(fault: Fault) -> Fault
    // Where a program answers that the bags are full, its call says `NoMemory`: a writer has no bags.
    ensures { result ≡ without_bags fault }
{
    match fault {
        Fault::BagsFull => Fault::NoMemory,
        fault => fault,
    }
}
