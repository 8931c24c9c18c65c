//! How a call begins that may place a node or retire one, and how it places a node and lends it at once.
ghost use Rattle.std.specs.Prelude.{◌≡◌, ◌≢◌, ◌⊎◌, Some, IsErr, IfErr, IfOk, IfSome};
ghost use Rattle.epoch_cells.specs.declared.fault.Fault.TheVariants.{NoMemory, CellsFull, StrangerGuard, TriesOut};
ghost use Rattle.epoch_lend_nodes.specs.Placing.{KeepsOrRetires};

use crate::serving::is_writer_of;
use epoch_atomic::atomic::{Pointable, Shared};
use epoch_cells::{Fault, Name, Refused};
use epoch_lend::array::room::LentRoom;
use epoch_lend::readers::posts::PostSet;
use epoch_lend::readers::reader::Pinned;
use epoch_lend::session::LendingGuard;
use epoch_lend_pointers::store::spots::next_name;
use epoch_lend_pointers::{Store, Writer};

/// A node that stands in its cell, and the pointer to it.
pub type Standing<'m, 'g, N> = (&'g N, Shared<'m, N>);

/// Begins a call on a structure of the store with this number: makes room for a node that is retired.
///
/// In this order: `StrangerGuard`: the writer isn't of that store; nothing is done. `NoMemory`: 64 nodes were gathered,
/// and there was no memory to hand them over.
#[inline(always)]
pub fn begin_call<J: PostSet, N: Drop>(
    number: u64,
    writer: &mut Writer<'_, '_, J, N>,
) -> Result<(), Fault>
    ensures store { writer.new.store ≡ writer.old.store }
    // With a writer of another store, a call doesn't begin, and nothing is done. Otherwise it begins, unless memory is
    // refused.
    ensures stranger { writer.old.store.now.number ≢ number
        → IfErr result (λ fault. fault ≡ StrangerGuard) × IsErr result × (writer.new ≡ writer.old) }
    ensures refused { writer.old.store.now.number ≡ number → IfErr result (λ fault. fault ≡ NoMemory) }
{
    if !is_writer_of(number, writer) {
        return Err(Fault::StrangerGuard);
    }
    writer.make_room()
}

/// Begins a call that is to place this node, as [`begin_call`] does, whose faults it has, and hands the node back: if
/// the call is refused, with the fault.
#[inline(always)]
pub fn begin_placing<J: PostSet, N: Drop>(
    number: u64,
    writer: &mut Writer<'_, '_, J, N>,
    node: N,
) -> Result<N, Refused<Option<N>>>
    ensures store { writer.new.store ≡ writer.old.store }
    // A call that is to place a node hands it back, whether it begins or not.
    ensures same { IfOk result (λ same. same ≡ node) }
    ensures handed_back { IfErr result (λ back. back.value ≡ Some node) }
    ensures stranger { writer.old.store.now.number ≢ number
        → IfErr result (λ back. back.fault ≡ StrangerGuard) × IsErr result × (writer.new ≡ writer.old) }
    ensures refused { writer.old.store.now.number ≡ number → IfErr result (λ back. back.fault ≡ NoMemory) }
{
    if let Err(fault) = begin_call(number, writer) {
        let value = Some(node);
        return Err(Refused { fault, value });
    }
    Ok(node)
}

/// Places the node in this free cell, and lends it for as long as the pin is borrowed. `None` for what is lent: no look
/// found it, which no look of a value that was just placed does. If the cell has had its last turn, the node is handed
/// back.
pub fn placed_in<'g, J: PostSet, N>(
    room: LentRoom<'_, J, N>,
    node: N,
    pinned: &'g Pinned<'_, J>,
) -> Result<(Name, Option<&'g N>), N>
    ensures lent { IfOk result (λ placed. IfSome placed.1 (λ lent. lent.now ≡ node)) }
    ensures handed_back { IfErr result (λ back. back ≡ node) }
{
    let Some(name) = next_name(&room) else {
        room.release();
        return Err(node);
    };
    match room.place_lent(node, pinned) {
        Ok((_, lent)) => Ok((name, lent)),
        Err(back) => Err(back),
    }
}

/// Places the node in a cell of this store, which must be the writer's, and lends it for as long as the guard is
/// borrowed, with the pointer to it.
///
/// `CellsFull`: no free cell was found, as by [`Writer::take_room`]; the node is handed back. `TriesOut`: no look found
/// the node once it was placed; it is retired.
pub fn place_node<'m, 'g, 's, J: PostSet, N: Pointable + Drop>(
    store: &'m Store<'s, J, N>,
    writer: &mut Writer<'_, 's, J, N>,
    guard: &'g LendingGuard<'_, J>,
    node: N,
) -> Result<Standing<'m, 'g, N>, Refused<Option<N>>>
    ensures store { writer.new.store ≡ writer.old.store }
    // A node that is placed and lent is the one that was given. A node without a cell is handed back, and one that no
    // look finds is retired.
    ensures placed { IfOk result (λ standing. standing.0.now ≡ node) }
    ensures handed_back { IfErr result (KeepsOrRetires node) }
    ensures refused { IfErr result (λ back. (back.fault ≡ CellsFull) ⊎ (back.fault ≡ TriesOut)) }
{
    let Some(room) = writer.take_room() else {
        return Err(Refused {
            fault: Fault::CellsFull,
            value: Some(node),
        });
    };
    match placed_in(room, node, guard.pinned()) {
        Ok((name, Some(lent))) => Ok((lent, Shared::named_at(name, store.home()))),
        Ok((name, None)) => {
            let _ = writer.gather(name);
            Err(Refused {
                fault: Fault::TriesOut,
                value: None,
            })
        }
        Err(back) => Err(Refused {
            fault: Fault::CellsFull,
            value: Some(back),
        }),
    }
}
