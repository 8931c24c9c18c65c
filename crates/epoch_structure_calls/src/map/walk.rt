//! How a call of a map goes along a bucket: over nodes of lower keys it takes a straight path.
ghost use Rattle.std.specs.Prelude.{◌≡◌, ◌<◌, ◌-◌, IfOk, IfErr, IfSome};
ghost use Rattle.epoch_laws.specs.declared.heap.access.Spot.TheVariants.{Field};
ghost use Rattle.epoch_structure_laws.specs.Plans.{ptr_to};
ghost use Rattle.epoch_structure_calls.specs.Paths.{ReadsOn};
ghost use Rattle.epoch_structure_laws.specs.declared.map.plan.MapPhase.TheVariants.{Reading};
ghost use Rattle.epoch_structure_laws.specs.MapProgram.{bucket_of, map_calls_left, map_deed_of, key_sought};
ghost use Rattle.epoch_structure_laws.proofs.MapCallsLeft.{map_lowered};

use crate::map::comparing::{KEY, coded};
use crate::map::spots::MapSpots;
use crate::phases::{Ends, GoesAhead, as_reply, read_on};
use epoch_cells::Name;
use epoch_laws::Reply;
use epoch_laws::heap::{Access, AccessAnswer, Change, Ptr, Spot};
use epoch_structure_laws::PhaseMachine;
use epoch_structure_laws::map::{Aim, MapPhase, key_of};

/// The calls of a map end: each of their phases says how many calls are left at most. And they go ahead along a bucket,
/// as long as they only read. No value of it is made.
pub struct MapWalk;

impl Ends<MapPhase> for MapWalk {
    ghost calls_left = { map_calls_left };

    ghost lowered = { map_lowered };
}

impl<L: MapSpots> GoesAhead<MapPhase, L> for MapWalk {
    #[inline(always)]
    fn ahead(first: MapPhase, spots: &mut L) -> MapPhase {
        ahead(first, spots)
    }
}

#[inline(always)]
fn bucket_of(aim: Aim) -> u64
    ensures { result ≡ bucket_of aim }
{
    match aim {
        Aim::ToInsert(bucket, _, _) | Aim::ToRemove(bucket, _) | Aim::ToGet(bucket, _) => bucket,
    }
}

#[inline(always)]
fn key_sought(aim: Aim) -> u64
    ensures { result ≡ key_sought aim }
{
    match aim {
        Aim::ToInsert(_, entry, _) => key_of(entry),
        Aim::ToRemove(_, key) | Aim::ToGet(_, key) => key,
    }
}

// The node to which this pointer leads, if it has no mark.
#[inline(always)]
fn node_at(ptr: Ptr) -> Option<Name>
    ensures { IfSome result (λ node. ptr ≡ ptr_to node) }
{
    let node = ptr.name?;
    if ptr.tag == 0 { Some(node) } else { None }
}

// One node of a walk: it is read, and its pointer too where its key is lower. `Ok`: the walk goes on to this node.
// `Err`: it has come to this phase.
#[inline(always)]
fn stride<L: MapSpots>(
    aim: Aim,
    link: Spot,
    node: Name,
    left: u64,
    spots: &mut L,
) -> Result<Name, MapPhase>
    requires { key_sought aim ≡ 1 }
    // The walk goes on to a node only over a link without a mark, behind a node of a lower key, and takes a move for
    // it.
    ensures on { IfOk result (λ next. ReadsOn L.does (map_deed_of 0) (Reading aim link node left) spots.old
        (Reading aim (Field node 0) next (left - 1)) spots.new) }

    ensures left { IfOk result (λ next. 0 < left) }
    ensures over { IfErr result
        (λ phase. ReadsOn L.does (map_deed_of 0) (Reading aim link node left) spots.old phase spots.new) }
{
    let Some((order, kept)) = spots.entry(node) else {
        return Err(MapPhase::Reading(aim, link, node, left).hear(Reply::Done(
            AccessAnswer::Absent,
        )));
    };
    let entry = coded(order);
    if left == 0 || order.is_ge() {
        return Err(MapPhase::Leaving(aim, link, node, entry, left));
    }
    spots.leave(node);
    let loading = MapPhase::LoadingNext(aim, link, node, entry, left);
    let Some(ptr) = spots.next(node, kept) else {
        return Err(loading.hear(Reply::Done(AccessAnswer::Absent)));
    };
    match node_at(ptr) {
        Some(next) => Ok(next),
        None => Err(loading.hear(Reply::Done(AccessAnswer::Pointer(ptr)))),
    }
}

// Loads the bucket's root, if that is what this phase asks for.
#[inline(always)]
fn to_bucket<L: MapSpots>(first: MapPhase, spots: &mut L) -> MapPhase
    ensures { ReadsOn L.does (map_deed_of 0) first spots.old result spots.new }
{
    let MapPhase::LoadingFirst(aim, moves) = first else {
        return first;
    };
    let root = Spot::Root(bucket_of(aim));
    let told = spots.touch(Access::Point(Some(0), root, Change::Load));
    MapPhase::LoadingFirst(aim, moves).hear(as_reply(told))
}

// Goes along the nodes of lower keys, from the node that this phase reads.
#[inline(always)]
fn along<L: MapSpots>(first: MapPhase, spots: &mut L) -> MapPhase
    ensures { ReadsOn L.does (map_deed_of 0) first spots.old result spots.new }
{
    let MapPhase::Reading(aim, first_link, first_node, moves) = first else {
        return first;
    };
    if key_sought(aim) != KEY {
        return first;
    }
    let mut link = first_link;
    let mut node = first_node;
    let mut left = moves;
    loop {
        match stride(aim, link, node, left, spots) {
            Ok(next) => {
                link = Spot::Field(node, 0);
                node = next;
                left -= 1;
            }
            Err(phase) => return phase,
        }
    }
}

// Goes from this phase on, as long as phases only read.
#[inline(always)]
fn ahead<L: MapSpots>(first: MapPhase, spots: &mut L) -> MapPhase
    ensures { ReadsOn L.does (map_deed_of 0) first spots.old result spots.new }
{
    let at_bucket = to_bucket(first, spots);
    let at_key = along(at_bucket, spots);
    read_on::<MapPhase, MapWalk, L>(at_key, spots)
}
