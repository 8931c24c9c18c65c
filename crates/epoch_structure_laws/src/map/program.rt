//! The map's program as code: what each phase asks for, and which phase follows from each reply.
ghost use Rattle.std.specs.Prelude.{◌≡◌, ℕ};
ghost use Rattle.epoch_structure_laws.specs.declared.machine.Wish.TheVariants.{Touch};
ghost use Rattle.epoch_structure_laws.specs.Asks.{wish_of};
ghost use Rattle.epoch_structure_laws.specs.Plans.{done_by, ptr_to, refused_by};
ghost use Rattle.epoch_structure_laws.specs.MapProgram.{MapStarts, again, at, absent, begin_map_work, bucket_of};
ghost use Rattle.epoch_structure_laws.specs.MapProgram.{map_deed_of, map_exchange, node_key, key_sought, leaking};
ghost use Rattle.epoch_structure_laws.specs.MapProgram.{map_load, looked_at, lost, marked, out_of_moves, plain};
ghost use Rattle.epoch_structure_laws.specs.MapProgram.{present, start_map_work, to_look};

use crate::map::plan::{Aim, MapAnswer, MapPhase, MapWork};
use crate::{PhaseMachine, Wish, Works};
use epoch_cells::Name;
use epoch_laws::Reply;
use epoch_laws::heap::{Access, AccessAnswer, Change, Ptr, Spot};

/// The key of an entry: the upper 32 bits of the number, the lower being the value.
#[inline(always)]
pub fn key_of(entry: u64) -> u64
    ensures { result ≡ node_key entry }
{
    entry / 4294967296
}

// POINTERS, AND CALLS ON THEM

#[inline(always)]
fn plain(name: Option<Name>) -> Ptr
    ensures { result ≡ plain name }
{
    Ptr { name, tag: 0 }
}

/// The field of a node whose entry is removed has tag 1.
#[inline(always)]
fn marked(name: Option<Name>) -> Ptr
    ensures { result ≡ marked name }
{
    Ptr { name, tag: 1 }
}

#[inline(always)]
fn load(guard: u64, spot: Spot) -> Wish<MapAnswer>
    ensures { result ≡ Touch (map_load guard spot) }
{
    Wish::Touch(Access::Point(Some(guard), spot, Change::Load))
}

/// Exchanges the pointer there, if it is this one still, for the other.
#[inline(always)]
fn exchange(guard: u64, spot: Spot, current: Ptr, other: Ptr) -> Wish<MapAnswer>
    ensures { result ≡ Touch (map_exchange guard spot current other) }
{
    Wish::Touch(Access::Point(Some(guard), spot, Change::CompareExchange(current, other)))
}

// WHAT A WALK IS FOR

#[inline(always)]
fn bucket_of(aim: Aim) -> u64
    ensures { result ≡ bucket_of aim }
{
    match aim {
        Aim::ToInsert(bucket, _, _) | Aim::ToRemove(bucket, _) | Aim::ToGet(bucket, _) => bucket,
    }
}

#[inline(always)]
fn key_sought(aim: Aim) -> u64
    ensures { result ≡ key_sought aim }
{
    match aim {
        Aim::ToInsert(_, entry, _) => key_of(entry),
        Aim::ToRemove(_, key) | Aim::ToGet(_, key) => key,
    }
}

// WHAT FOLLOWS

/// No move is left: an own node is taken back.
#[inline(always)]
fn out_of_moves(aim: Aim) -> MapPhase
    ensures { result ≡ out_of_moves aim }
{
    match aim {
        Aim::ToInsert(_, _, own) => MapPhase::TakingBack(own, MapAnswer::MovesOut),
        _ => MapPhase::Answering(MapAnswer::MovesOut),
    }
}

/// The walk begins again, if a move is left.
#[inline(always)]
fn again(aim: Aim, moves: u64) -> MapPhase
    ensures { result ≡ again aim moves }
{
    if moves == 0 {
        out_of_moves(aim)
    } else {
        MapPhase::LoadingFirst(aim, moves - 1)
    }
}

/// The first phase of a call, where the held bag has room.
#[inline(always)]
pub fn start_work(work: MapWork) -> MapPhase
    // The phases' code asks for what the program says, and goes on as it says; a call begins in the phase that the
    // program says, which makes room first if the held bag has none.
    ensures { result ≡ start_map_work work }
{
    match work {
        MapWork::Insert(bucket, entry, moves) => MapPhase::Placing(bucket, entry, moves),
        MapWork::Remove(bucket, key, moves) => again(Aim::ToRemove(bucket, key), moves),
        MapWork::Get(bucket, key, moves) => again(Aim::ToGet(bucket, key), moves),
    }
}

/// The link leads past the key.
#[inline(always)]
fn absent(aim: Aim, link: Spot, next: Option<Name>, moves: u64) -> MapPhase
    ensures { result ≡ absent aim link next moves }
{
    match aim {
        Aim::ToInsert(bucket, entry, own) => MapPhase::Linking(
            bucket, entry, own, link, next, moves,
        ),
        _ => MapPhase::Answering(MapAnswer::NotFound),
    }
}

/// The node holds an entry of the key, and had no mark when its field was loaded.
#[inline(always)]
fn present(aim: Aim, link: Spot, node: Name, entry: u64, next: Option<Name>, moves: u64) -> MapPhase
    ensures { result ≡ present aim link node entry next moves }
{
    match aim {
        Aim::ToInsert(_, _, own) => MapPhase::TakingBack(own, MapAnswer::AlreadyThere(entry)),
        Aim::ToRemove(bucket, key) => {
            MapPhase::Marking(bucket, key, link, node, entry, next, moves)
        }
        Aim::ToGet(_, _) => MapPhase::Answering(MapAnswer::Found(entry)),
    }
}

/// A link leads here. Going on to a node takes a move.
#[inline(always)]
fn at(aim: Aim, link: Spot, node: Option<Name>, moves: u64) -> MapPhase
    ensures { result ≡ at aim link node moves }
{
    match node {
        None => absent(aim, link, None, moves),
        Some(node) => {
            if moves == 0 {
                out_of_moves(aim)
            } else {
                MapPhase::Reading(aim, link, node, moves - 1)
            }
        }
    }
}

/// What follows from the entry that was read, before the node's field is loaded: so a link that leads past the key was
/// the last thing that was looked at.
#[inline(always)]
fn to_look(aim: Aim, link: Spot, node: Name, entry: u64, moves: u64) -> MapPhase
    ensures { result ≡ to_look aim link node entry moves }
{
    if key_sought(aim) < key_of(entry) {
        absent(aim, link, Some(node), moves)
    } else {
        MapPhase::LoadingNext(aim, link, node, entry, moves)
    }
}

/// What follows from the node's field.
#[inline(always)]
fn looked_at(aim: Aim, link: Spot, node: Name, entry: u64, moves: u64, next: Ptr) -> MapPhase
    ensures { result ≡ looked_at aim link node entry moves next.name next.tag }
{
    if next.tag != 0 {
        return MapPhase::Unlinking(aim, link, node, next.name, moves);
    }
    if key_of(entry) < key_sought(aim) {
        at(aim, Spot::Field(node, 0), next.name, moves)
    } else {
        present(aim, link, node, entry, next.name, moves)
    }
}

/// The answer where the removal of an own node was refused.
#[inline(always)]
fn leaking(answer: MapAnswer) -> MapAnswer
    ensures { result ≡ leaking answer }
{
    match answer {
        MapAnswer::AlreadyThere(entry) => MapAnswer::AlreadyThereLeaking(entry),
        MapAnswer::MovesOut => MapAnswer::MovesOutLeaking,
        _ => answer,
    }
}

/// The phase after this one, whose call gave this answer.
#[inline(always)]
fn answered(phase: MapPhase, answer: AccessAnswer) -> MapPhase
    ensures { (guard : ℕ) → result ≡ done_by phase (map_deed_of guard phase) answer }
{
    match (phase, answer) {
        (MapPhase::MakingRoom(work), _) => start_work(work),
        (MapPhase::Placing(bucket, entry, moves), AccessAnswer::Name(own)) => {
            again(Aim::ToInsert(bucket, entry, own), moves)
        }
        (MapPhase::Placing(_, _, _), _) => MapPhase::Answering(MapAnswer::CellsFull),
        (MapPhase::LoadingFirst(aim, moves), AccessAnswer::Pointer(first)) => {
            at(aim, Spot::Root(bucket_of(aim)), first.name, moves)
        }
        (MapPhase::Reading(aim, link, node, moves), AccessAnswer::Value(entry)) => {
            MapPhase::Leaving(aim, link, node, entry, moves)
        }
        (MapPhase::Leaving(aim, link, node, entry, moves), _) => {
            to_look(aim, link, node, entry, moves)
        }
        (MapPhase::LoadingNext(aim, link, node, entry, moves), AccessAnswer::Pointer(next)) => {
            looked_at(aim, link, node, entry, moves, next)
        }
        (MapPhase::Unlinking(aim, _, node, _, moves), AccessAnswer::Exchanged(_)) => {
            MapPhase::Burying(aim, node, moves)
        }
        (MapPhase::Burying(aim, _, moves), _) => again(aim, moves),
        (MapPhase::Linking(bucket, entry, own, link, next, moves), AccessAnswer::Unit) => {
            MapPhase::Inserting(bucket, entry, own, link, next, moves)
        }
        (MapPhase::Inserting(_, _, _, _, _, _), AccessAnswer::Exchanged(_)) => {
            MapPhase::Answering(MapAnswer::Inserted)
        }
        (MapPhase::Marking(bucket, key, link, node, entry, next, _), AccessAnswer::Exchanged(_)) =>
            { MapPhase::Dropping(bucket, key, link, node, entry, next) }
        (MapPhase::Dropping(_, _, _, node, entry, _), AccessAnswer::Exchanged(_)) => {
            MapPhase::Removing(node, entry)
        }
        (MapPhase::Dropping(_, _, _, _, entry, _), _) | (MapPhase::Removing(_, entry), _) => {
            MapPhase::Answering(MapAnswer::Removed(entry))
        }
        (MapPhase::TakingBack(_, answer), _) | (MapPhase::Answering(answer), _) => {
            MapPhase::Answering(answer)
        }
        (phase, _) => lost(phase),
    }
}

/// The walk begins again, from a phase whose call did nothing.
#[inline(always)]
fn lost(phase: MapPhase) -> MapPhase
    ensures { result ≡ lost phase }
{
    match phase {
        MapPhase::LoadingFirst(aim, moves)
        | MapPhase::Reading(aim, _, _, moves)
        | MapPhase::Leaving(aim, _, _, _, moves)
        | MapPhase::LoadingNext(aim, _, _, _, moves)
        | MapPhase::Unlinking(aim, _, _, _, moves) => again(aim, moves),
        MapPhase::Linking(bucket, entry, own, _, _, moves)
        | MapPhase::Inserting(bucket, entry, own, _, _, moves) => {
            again(Aim::ToInsert(bucket, entry, own), moves)
        }
        MapPhase::Marking(bucket, key, _, _, _, _, moves) => again(
            Aim::ToRemove(bucket, key),
            moves,
        ),
        _ => phase,
    }
}

/// The phase after this one, whose call was refused.
#[inline(always)]
fn refused(phase: MapPhase) -> MapPhase
    ensures { (guard : ℕ) → result ≡ refused_by phase (map_deed_of guard phase) }
{
    match phase {
        MapPhase::MakingRoom(_) => MapPhase::Answering(MapAnswer::BagsFull),
        MapPhase::Placing(_, _, _) => MapPhase::Answering(MapAnswer::CellsFull),
        MapPhase::Burying(_, _, _) => MapPhase::Answering(MapAnswer::MovesOutLeaking),
        MapPhase::Dropping(_, _, _, _, entry, _) => MapPhase::Answering(MapAnswer::Removed(entry)),
        MapPhase::Removing(_, entry) => MapPhase::Answering(MapAnswer::RemovedLeaking(entry)),
        MapPhase::TakingBack(_, answer) => MapPhase::Answering(leaking(answer)),
        phase => lost(phase),
    }
}

impl PhaseMachine for MapPhase {
    type Answer = MapAnswer;

    ghost deed = { map_deed_of };

    #[inline(always)]
    fn wish(self, guard: u64) -> Wish<MapAnswer> {
        match self {
            MapPhase::MakingRoom(_) => Wish::Flush,
            MapPhase::Placing(_, entry, _) => Wish::Touch(Access::Place(entry)),
            MapPhase::LoadingFirst(aim, _) => load(guard, Spot::Root(bucket_of(aim))),
            MapPhase::Reading(_, _, node, _) => {
                Wish::Touch(Access::Read(Some(guard), plain(Some(node))))
            }
            MapPhase::Leaving(_, _, node, _, _) => Wish::Touch(Access::Leave(plain(Some(node)))),
            MapPhase::LoadingNext(_, _, node, _, _) => load(guard, Spot::Field(node, 0)),
            MapPhase::Unlinking(_, link, node, next, _)
            | MapPhase::Dropping(_, _, link, node, _, next) => {
                exchange(guard, link, plain(Some(node)), plain(next))
            }
            MapPhase::Linking(_, _, own, _, next, _) => {
                let change = Change::Store(plain(next));
                Wish::Touch(Access::Point(Some(guard), Spot::Field(own, 0), change))
            }
            MapPhase::Inserting(_, _, own, link, next, _) => {
                exchange(guard, link, plain(next), plain(Some(own)))
            }
            MapPhase::Marking(_, _, _, node, _, next, _) => {
                exchange(guard, Spot::Field(node, 0), plain(next), marked(next))
            }
            MapPhase::Burying(_, node, _)
            | MapPhase::Removing(node, _)
            | MapPhase::TakingBack(node, _) => { Wish::Defer(node) }
            MapPhase::Answering(answer) => Wish::Answer(answer),
        }
    }

    #[inline(always)]
    fn hear(self, reply: Reply) -> MapPhase {
        match reply {
            Reply::Done(answer) => answered(self, answer),
            _ => refused(self),
        }
    }
}

impl Works for MapPhase {
    type Work = MapWork;

    ghost starts = { MapStarts };

    ghost first = { begin_map_work };

    #[inline(always)]
    fn first(work: MapWork, has_room: bool) -> MapPhase {
        if has_room {
            start_work(work)
        } else {
            MapPhase::MakingRoom(work)
        }
    }
}
