//! A sorted list of nodes with marks, and walks along it: laws of all orders of steps.
//!
//! A node is linked by one exchange of the pointer before it. It is removed by one exchange of its own pointer, which
//! gets the *mark* and never changes again; later the pointer before it is led past it. It is replaced by one exchange,
//! too: its pointer gets the mark, and leads to its *heir*, a new node with the same key. A node that was linked and
//! has no mark is an *entry*.
//!
//! A call may link or unlink behind a *hint*, a node that was linked once, however long ago: the exchange finds whether
//! its pointer has the mark. A *walk* begins at the first pointer or at an entry, and loads one node's pointer after
//! the other, while others make steps. It passes nodes that are removed meanwhile, so all that it found may not hold at
//! any one moment. Yet a key that it missed had no entry at some moment of the walk, since a pointer with the mark
//! stays as it was while its node was in the list.
//!
//! An ordered map and a growing map are meant to go by these steps: no clause of theirs says that they do.
//!
//! Each function does nothing: its contract is a law.
ghost use Rattle.epoch_structure_worlds.specs.MarkedLists.{ListStaysSorted, EntriesAreAMap, StepsKeepMap};
ghost use Rattle.epoch_structure_worlds.specs.MarkedLists.{UnmarkedLoadsFindEntries, WalksSeeEntries};
ghost use Rattle.epoch_structure_worlds.specs.MarkedLists.{MissedKeysHadNoEntry, WalksAscend, WalksSeeWhatStays};
ghost use Rattle.epoch_structure_worlds.specs.MarkedLists.{WalksMayMissNewEntries};

/// The list is sorted at each moment, and holds each entry.
pub fn lists_stay_sorted()
    // At each moment the first pointer of a list with marks leads along finitely many nodes. None of them has a lesser
    // key than a node before it, or the key of an entry before it. Each entry is one of them.
    ensures { ListStaysSorted }
{}

/// Exactly the linked nodes without a mark are the entries of a map, which has at most one for each key.
pub fn entries_are_a_map()
    // A list with marks is a map, which links, marks and replacements alone change. Exactly the nodes that were linked
    // and have no mark are its entries, each of its own key.
    ensures { EntriesAreAMap }
{}

/// A step leaves the map as it is, adds an entry, takes one out, or puts another one in its place.
pub fn steps_keep_a_map()
    // A link adds to this map an entry with a key that had none. A mark takes out the entry of its node's key, which is
    // that node. A replacement takes out its node, and puts one with the same key in its place.
    ensures { StepsKeepMap }
{}

/// A load that finds a linked node's pointer without a mark finds an entry.
pub fn unmarked_loads_find_entries()
    // When a load finds the pointer of a linked node without a mark, this node is the entry of its key.
    ensures { UnmarkedLoadsFindEntries }
{}

/// The nodes that a walk sees without a mark were entries.
pub fn walks_see_entries()
    // A walk along a list with marks begins at the first pointer or at an entry, and loads the pointer of one node
    // after the other. Each node that it found without a mark was the entry of its key at some moment since the walk
    // began.
    ensures { WalksSeeEntries }
{}

/// A key that a walk misses had no entry at some moment of the walk.
pub fn missed_keys_had_no_entry()
    // If a walk's last load was of the first pointer, of a node with a lesser key, or of a removed one with this key,
    // and found no node or a greater key, then this key had no entry at some moment since the walk began.
    ensures { MissedKeysHadNoEntry }
{}

/// The nodes that a walk sees without a mark have ascending keys.
pub fn walks_see_ascending_keys()
    // Along the nodes that a walk found without a mark, the keys ascend.
    ensures { WalksAscend }
{}

/// A walk that comes past a key sees its entry, if that stayed the same all the while.
pub fn walks_see_what_stays()
    // A walk that begins at a key or before it, and comes past it, has found the key's entry without a mark, if that
    // stayed the same node since the walk began.
    ensures { WalksSeeWhatStays }
{}

/// A walk may miss an entry that others link meanwhile.
pub fn walks_may_miss_new_entries()
    // A key that a walk missed may have an entry when the walk ends: others linked it behind the walk.
    ensures { WalksMayMissNewEntries }
{}
