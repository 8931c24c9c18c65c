//! The numbers that a world is made for.
ghost use Rattle.std.specs.Prelude.{◌≡◌, ◌↔◌, IsTrue};
ghost use Rattle.epoch_laws.specs.Shapes.{IsValid, is_align};

use epoch_bags::GREATEST_EPOCH;

/// How many jobs a bag usually takes: `MAX_OBJECTS` of crossbeam-epoch.
const USUAL_BAG_JOBS: u64 = 64;

/// How many bags a collection usually takes at most: `COLLECT_STEPS` of crossbeam-epoch.
const USUAL_COLLECT_BAGS: u64 = 8;

/// The numbers that a world is made for.
#[derive(Clone, Copy, Debug, PartialEq, Eq)]
pub struct Shape {
    /// How many participants there can be at a time, from 1 to 64.
    pub participants: u64,
    /// How many cells there are, from 0 to 4096.
    pub cells: u64,
    /// How many roots there are, from 0 to 4096.
    pub roots: u64,
    /// How many pointer fields a cell has, from 0 to 16.
    pub fields: u64,
    /// How many bags the store has room for, from 1 to 4096.
    pub bags: u64,
    /// Tags are less than this power of two, from 1 to 256.
    pub align: u64,
    /// The first epoch, at most `2^63 - 1`.
    pub start_epoch: u64,
    /// The first turn of each cell, at most `2^32 - 1`.
    pub start_turn: u64,
    /// How many jobs a bag takes, from 1 to 64.
    pub bag_jobs: u64,
    /// How many bags a collection takes at most, from 1 to 64.
    pub collect_bags: u64,
}

impl Shape {
    /// Returns a shape with these numbers of participants, cells, roots and fields, and the usual ones for the rest:
    /// four places for bags; 64 jobs for each bag and 8 bags for each collection, as in crossbeam-epoch; tags below 8,
    /// as a value of eight bytes has; and 0 for the first epoch and turn.
    pub fn usual(participants: u64, cells: u64, roots: u64, fields: u64) -> Shape
        ensures participants { result.participants ≡ participants }
        ensures cells { result.cells ≡ cells }
        ensures roots { result.roots ≡ roots }
        ensures fields { result.fields ≡ fields }
        ensures bags { result.bags ≡ 4 }
        ensures align { result.align ≡ 8 }
        ensures start_epoch { result.start_epoch ≡ 0 }
        ensures start_turn { result.start_turn ≡ 0 }
        ensures bag_jobs { result.bag_jobs ≡ 64 }
        ensures collect_bags { result.collect_bags ≡ 8 }
    {
        Shape {
            participants,
            cells,
            roots,
            fields,
            bags: 4,
            align: 8,
            start_epoch: 0,
            start_turn: 0,
            bag_jobs: USUAL_BAG_JOBS,
            collect_bags: USUAL_COLLECT_BAGS,
        }
    }

    /// Returns whether each number is in its range.
    pub fn is_valid(&self) -> bool
        ensures { IsTrue result ↔ IsValid self.now }
    {
        let participants = 1 <= self.participants && self.participants <= 64;
        let bags = 1 <= self.bags && self.bags <= 4096;
        let bag_jobs = 1 <= self.bag_jobs && self.bag_jobs <= 64;
        let collect_bags = 1 <= self.collect_bags && self.collect_bags <= 64;
        participants
            && self.cells <= 4096
            && self.roots <= 4096
            && self.fields <= 16
            && bags
            && is_align(self.align)
            && self.start_epoch <= GREATEST_EPOCH
            && self.start_turn <= 4_294_967_295
            && bag_jobs
            && collect_bags
    }
}

/// Whether it is a power of two up to 256.
fn is_align(align: u64) -> bool
    ensures { result ≡ is_align align }
{
    align == 1
        || align == 2
        || align == 4
        || align == 8
        || align == 16
        || align == 32
        || align == 64
        || align == 128
        || align == 256
}
