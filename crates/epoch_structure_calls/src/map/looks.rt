//! Look-ups that only read.
ghost use Rattle.std.specs.Prelude.{◌≡◌, ◌≤◌, ℕ, true, IsErr, IfErr};
ghost use Rattle.std.specs.Ordering.{is_ge};
ghost use Rattle.epoch_cells.specs.declared.fault.Fault.TheVariants.{TriesOut};
ghost use Rattle.epoch_structure_calls.specs.Paths.{ReadsOn};
ghost use Rattle.epoch_laws.specs.declared.heap.access.Spot.{Spot};
ghost use Rattle.epoch_laws.specs.declared.heap.access.Spot.TheVariants.{Root};
ghost use Rattle.epoch_structure_laws.specs.declared.map.plan.Aim.TheVariants.{ToGet};
ghost use Rattle.epoch_structure_laws.specs.declared.map.plan.MapPhase.{MapPhase};
ghost use Rattle.epoch_structure_laws.specs.declared.map.plan.MapPhase.TheVariants.{LoadingFirst, Reading};
ghost use Rattle.epoch_structure_laws.specs.MapProgram.{map_deed_of, to_look};
ghost use Rattle.epoch_structure_calls.specs.MapCalls.{EndsAt, Looks, coded, moves_after};

use crate::map::spots::MapSpots;
use epoch_cells::{Fault, Name};
use std::cmp::Ordering;

/// Where one pass along a bucket ends that only reads.
#[derive(Clone, Copy)]
pub enum Pass {
    /// At the node of the key.
    FoundIt,
    /// Where the key is missing.
    Missing,
    /// At a node to which no move is left to go on.
    Out,
    /// At a node that is marked and still linked. This many moves are left.
    AtMark(u64),
    /// At what could not be read. This many moves are left.
    Lost(u64),
}

// Ends at a node that was left, whose key isn't lower than the one that is sought.
#[inline(always)]
fn end_at<L: MapSpots>(spots: &mut L, node: Name, kept: L::Node, order: Ordering, left: u64) -> Pass
    requires { is_ge order ≡ true }
    ensures ends { (bucket : ℕ) (link : Spot) → (last : MapPhase)
        × ReadsOn L.does (map_deed_of 0) (to_look (ToGet bucket 1) link node (coded order) left) spots.old last
        spots.new × EndsAt bucket 1 result last }
    ensures fewer { moves_after result ≤ left }
{
    if order.is_gt() {
        return Pass::Missing;
    }
    let Some(ptr) = spots.next(node, kept) else {
        return Pass::Lost(left);
    };
    if ptr.tag != 0 {
        return Pass::AtMark(left);
    }
    Pass::FoundIt
}

// Goes along the nodes, from this one on.
#[inline(always)]
fn walk<L: MapSpots>(spots: &mut L, bucket: u64, first: Name, moves: u64) -> Pass
    ensures ends { (last : MapPhase)
        × ReadsOn L.does (map_deed_of 0) (Reading (ToGet bucket 1) (Root bucket) first moves) spots.old last
        spots.new × EndsAt bucket 1 result last }
    ensures fewer { moves_after result ≤ moves }
{
    let mut node = first;
    let mut left = moves;
    loop {
        let Some((order, kept)) = spots.entry(node) else {
            return Pass::Lost(left);
        };
        spots.leave(node);
        if order.is_ge() {
            return end_at(spots, node, kept, order, left);
        }
        let Some(ptr) = spots.next(node, kept) else {
            return Pass::Lost(left);
        };
        if ptr.tag != 0 {
            return Pass::AtMark(left);
        }
        let Some(next) = ptr.name else {
            return Pass::Missing;
        };
        if left == 0 {
            return Pass::Out;
        }
        node = next;
        left -= 1;
    }
}

// Goes along the bucket once, from its root on.
#[inline(always)]
fn go_over<L: MapSpots>(spots: &mut L, bucket: u64, moves: u64) -> Pass
    ensures ends { (last : MapPhase)
        × ReadsOn L.does (map_deed_of 0) (LoadingFirst (ToGet bucket 1) moves) spots.old last
        spots.new × EndsAt bucket 1 result last }
    ensures fewer { moves_after result ≤ moves }
{
    let Some(ptr) = spots.first(bucket) else {
        return Pass::Lost(moves);
    };
    let Some(first) = ptr.name else {
        return Pass::Missing;
    };
    if moves == 0 {
        return Pass::Out;
    }
    walk(spots, bucket, first, moves - 1)
}

/// Looks for a node of the key that is sought in this bucket, over any spots, and writes nothing. Returns whether there
/// is one.
///
/// It takes a path of the map's program, on which it only reads. Where it comes to a node that is marked, since its
/// entry was removed, and that is still linked, it stops, and begins again with the moves that are left.
///
/// `TriesOut`: all moves were used up.
#[inline(always)]
pub fn look_over<L: MapSpots>(spots: &mut L, bucket: u64, moves: u32) -> Result<bool, Fault>
    // A look-up that only reads writes nothing: each attempt is a path of the program on which each access writes
    // nothing. An attempt that comes to a marked node stops there, as a call may if its thread stalls. The next attempt
    // has the moves that are left, and the last one answers.
    ensures looks { Looks L.does bucket 1 moves spots.old result spots.new }

    // Such a look-up is refused only if its moves are used up.
    ensures refused { IfErr result (λ fault. fault ≡ TriesOut) }

    ensures no_moves { moves ≡ 0 → IsErr result }
{
    let mut left = moves as u64;
    while left != 0 {
        match go_over(spots, bucket, left - 1) {
            Pass::FoundIt => return Ok(true),
            Pass::Missing => return Ok(false),
            Pass::Out => return Err(Fault::TriesOut),
            Pass::AtMark(rest) => left = rest,
            Pass::Lost(rest) => left = rest,
        }
    }
    Err(Fault::TriesOut)
}
