//! The rows of the comparison, with the sides that this program has.
use crate::lent_lines::PairRow;
use crate::lent_ordered::OrderedRow;
use crate::lent_values::ValueRow;
use crate::rows::SideWork::{
    KitFew, KitMany, KitMap, KitMix, KitQueue, KitRead, KitZipfian, LentFew, LentGrown, LentMany,
    LentMap, LentMix, LentOrdered, LentPair, LentTogether, LentValue, LentZipfian,
};

/// What a turn of a side does.
#[derive(Clone, Copy)]
pub enum SideWork {
    /// Reads a value that is lent, or replaces it.
    LentValue(ValueRow),
    /// Pushes to a queue or stack of lent nodes, and pops.
    LentPair(PairRow),
    /// Looks up one of 1,000 keys in a map of lent nodes.
    LentFew,
    /// Looks up one of 100,000 keys there.
    LentMap,
    /// The same in cells that were added one block after another.
    LentGrown,
    /// Looks up one of 100,000 keys there, 64 under a pin.
    LentTogether,
    /// Looks up one of 100,000 keys there by Zipf's law.
    LentZipfian,
    /// Looks up one of 200,000 keys there, or changes the map.
    LentMix,
    /// Looks up one of 1,000,000 keys there.
    LentMany,
    /// Looks up keys in an ordered map of lent nodes, or goes over entries.
    LentOrdered(OrderedRow),
    /// Reads a value in the kit's lock.
    KitRead,
    /// Pushes to the kit's queue, and pops.
    KitQueue,
    /// Looks up one of 1,000 keys in the kit's map in a lock.
    KitFew,
    /// Looks up one of 100,000 keys there.
    KitMap,
    /// Looks up one of 100,000 keys there by Zipf's law.
    KitZipfian,
    /// Looks up one of 200,000 keys there, or changes the map.
    KitMix,
    /// Looks up one of 1,000,000 keys there.
    KitMany,
}

const REPLACE_IN_FEW: ValueRow = ValueRow::Replace { cells: 4_096 };

const REPLACE_IN_MORE: ValueRow = ValueRow::Replace { cells: 262_144 };

const REPLACE_IN_MANY: ValueRow = ValueRow::Replace { cells: 1_048_576 };

/// A row's name, a side's name, and its work. `tools/rivals.py` lists the sides that each row is measured on.
pub const SIDES: [(&str, &str, SideWork); 26] = [
    ("read_pin_each", "library", LentValue(ValueRow::Renewed)),
    ("read_pin_each", "library_pin", LentValue(ValueRow::Pinned)),
    ("read_pin_each", "kit_rwlock", KitRead),
    ("read_64_a_pin", "library", LentValue(ValueRow::Together)),
    ("queue_push_pop", "library", LentPair(PairRow::Queue)),
    ("queue_push_pop", "kit_seg_queue", KitQueue),
    ("stack_push_pop", "library", LentPair(PairRow::Stack)),
    ("replace_retire", "library", LentValue(REPLACE_IN_MANY)),
    (
        "replace_retire_busy_4096",
        "library",
        LentValue(REPLACE_IN_FEW),
    ),
    (
        "replace_retire_busy_262144",
        "library",
        LentValue(REPLACE_IN_MORE),
    ),
    (
        "replace_retire_busy_1048576",
        "library",
        LentValue(REPLACE_IN_MANY),
    ),
    ("map_get_1000", "library", LentFew),
    ("map_get_1000", "kit_rwlock", KitFew),
    ("map_get_100000", "library", LentMap),
    ("map_get_100000", "library_grown", LentGrown),
    ("map_get_100000", "kit_rwlock", KitMap),
    ("map_64_a_pin_100000", "library", LentTogether),
    ("map_zipfian_100000", "library", LentZipfian),
    ("map_zipfian_100000", "kit_rwlock", KitZipfian),
    ("map_90_5_5_100000", "library", LentMix),
    ("map_90_5_5_100000", "kit_rwlock", KitMix),
    ("map_get_1000000", "library", LentMany),
    ("map_get_1000000", "kit_rwlock", KitMany),
    (
        "ordered_get_10000",
        "library",
        LentOrdered(OrderedRow::Looks),
    ),
    (
        "ordered_get_100000",
        "library",
        LentOrdered(OrderedRow::ManyLooks),
    ),
    (
        "ordered_range_100",
        "library",
        LentOrdered(OrderedRow::Ranges),
    ),
];
