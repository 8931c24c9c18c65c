//! Keys and values of the user's own: books, which are found by where they stand.
ghost use Rattle.std.proofs.Common.{rules};
ghost use Rattle.std.specs.Cmp.Rules.{comparing};

use crate::lending::{Part, Scene, join, leave, pin, play, rounds};
use crate::wants::want;
use epoch_cells::{Fault, Refused};
use epoch_lend::readers::posts::PostSet;
use epoch_lend::session::LendingGuard;
use epoch_lend_pointers::{Store, Writer};
use epoch_map::{LendingMap, LentEntry, MapKey};
use std::alloc::Global;
use std::process::Abort;
use std::sync::Arc;
use std::sync::atomic::AtomicU64;
use std::sync::atomic::Ordering::SeqCst;
use std::test::Fail;

/// Where a book stands.
#[derive(Clone, Copy, Debug, PartialEq, Eq, PartialOrd, Ord)]
struct Place {
    shelf: u32,
    number: u64,
}

impl MapKey for Place {
    ghost number = { λ place. place.shelf };

    ghost same_number = { λ a b same. Prim.search (comparing, rules) };

    fn number(&self) -> u64 {
        self.shelf as u64
    }
}

/// A title on the heap, and where its drop is counted.
struct Book {
    title: String,
    // What its drop adds.
    weight: u64,
    drops: Arc<AtomicU64>,
}

impl Drop for Book {
    fn drop(self) {
        let Book {
            title: _,
            weight,
            drops,
        } = self;
        drops.fetch_add(weight, SeqCst);
    }
}

type Node = LentEntry<Place, Book>;

type Map<'q, 's, J> = LendingMap<'q, 's, J, Node>;

/// More moves than any call here takes.
const MOVES: u32 = 20;

/// A book of this title, whose drop is counted in the digit of base 16 with this number, at the place of that one.
fn make_book(
    rt: &impl Abort,
    alloc: Global,
    drops: &Arc<AtomicU64>,
    title: &str,
    (digit, place): (u32, u32),
) -> Node {
    let title = String::from_str(alloc, title).expect(rt, "memory for a title");
    let drops = drops.clone().expect(rt, "room for one more owner");
    let weight = 1_u64.wrapping_shl(digit.wrapping_mul(4));
    let value = Book {
        title,
        weight,
        drops,
    };
    LentEntry::new(place_of(place), value)
}

/// The place of the book with this number.
fn place_of(digit: u32) -> Place {
    Place {
        shelf: digit % 2,
        number: digit as u64 / 2,
    }
}

/// What a call answered that lends a book: the length of its title, and the weight of its drop.
type Told = Result<Option<(usize, u64)>, Fault>;

fn told(found: Result<Option<&Node>, Fault>) -> Told {
    match found {
        Ok(Some(node)) => {
            let book = node.value();
            Ok(Some((book.title.len(), book.weight)))
        }
        Ok(None) => Ok(None),
        Err(fault) => Err(fault),
    }
}

/// What an insert answered. A book that is refused comes back, and is dropped here.
fn inserted(answer: Result<Option<&Node>, Refused<Option<Node>>>) -> Told {
    match answer {
        Ok(there) => told(Ok(there)),
        Err(Refused { fault, value: back }) => {
            if back.is_none() {
                return Err(Fault::TriesOut);
            }
            Err(fault)
        }
    }
}

/// What is done with a book, by its number.
#[derive(Clone, Copy)]
enum Deed {
    /// An insert of a book of this title, at its place.
    Shelve(&'static str),
    /// An insert of a book of this title, at the place of the book with that number.
    ShelveAt(&'static str, u32),
    Get,
    Remove,
}

/// A number, what is done with it, and what it answers.
type Row = (u32, Deed, Told);

/// A title with its weight.
const EMMA: Told = Ok(Some((4, 0x1000)));

const ULYSSES: Told = Ok(Some((7, 1)));

const MIDDLEMARCH: Told = Ok(Some((11, 0x10)));

/// What is done under one guard, and which drops there were after its unpin and as many flushes as it takes until what
/// was retired is dropped.
type Pinned = (&'static [Row], u64);

const PINS: &[Pinned] = &[
    // Four books stand on two shelves, as many as there are cells. They are lent by their places, and one too many
    // comes back, and is dropped.
    (
        &[
            (3, Deed::Shelve("Emma"), Ok(None)),
            (0, Deed::Shelve("Ulysses"), Ok(None)),
            (2, Deed::Shelve("Nana"), Ok(None)),
            (1, Deed::Shelve("Middlemarch"), Ok(None)),
            (3, Deed::Get, EMMA),
            (0, Deed::Get, ULYSSES),
            (1, Deed::Get, MIDDLEMARCH),
            (5, Deed::Get, Ok(None)),
            (4, Deed::Shelve("Pnin"), Err(Fault::CellsFull)),
        ],
        0x1_0000,
    ),
    (
        &[(0, Deed::Remove, ULYSSES), (0, Deed::Get, Ok(None))],
        0x1_0001,
    ),
    // The cell of the book that was removed is used again. A second book at a place stays out, and is dropped.
    (&[(7, Deed::ShelveAt("Persuasion", 3), EMMA)], 0x1001_0001),
];

/// What this is answered.
fn answer<'s, J: PostSet>(
    rt: &impl Abort,
    alloc: Global,
    map: &Map<'_, 's, J>,
    (writer, guard): (&mut Writer<'_, 's, J, Node>, &LendingGuard<'_, J>),
    drops: &Arc<AtomicU64>,
    (digit, deed): (u32, Deed),
) -> Told {
    match deed {
        Deed::Shelve(title) => {
            let node = make_book(rt, alloc, drops, title, (digit, digit));
            inserted(map.insert(writer, guard, node, MOVES))
        }
        Deed::ShelveAt(title, place) => {
            let node = make_book(rt, alloc, drops, title, (digit, place));
            inserted(map.insert(writer, guard, node, MOVES))
        }
        Deed::Get => told(map.get(guard, &place_of(digit), MOVES)),
        Deed::Remove => told(map.remove(writer, guard, &place_of(digit), MOVES)),
    }
}

/// All this is done under one guard.
fn want_rows<'s, J: PostSet>(
    rt: &impl Abort,
    alloc: Global,
    map: &Map<'_, 's, J>,
    part: &mut Part<'_, 's, J, Node>,
    drops: &Arc<AtomicU64>,
    rows: &[Row],
) {
    let guard = pin(rt, &mut part.session);
    for (digit, deed, wanted) in rows {
        let both = (&mut part.writer, &guard);
        let seen = answer(rt, alloc, map, both, drops, (*digit, *deed));
        want(rt, "the book of a deed", (*digit, seen), (*digit, *wanted));
    }
    part.session.unpin(guard);
}

/// What is done with the books of a map.
#[derive(Drop)]
struct BookScene<'a> {
    drops: &'a Arc<AtomicU64>,
}

impl Scene for BookScene<'_> {
    type Node = Node;

    fn act<'s, R: Abort, J: PostSet>(
        self,
        rt: &R,
        alloc: Global,
        store: &Store<'s, J, Node>,
        _others: &Store<'s, J, Node>,
    ) {
        let BookScene { drops } = self;
        let map = LendingMap::new(alloc, store, 1).expect(rt, "memory for a map");
        let mut part = join(rt, alloc, store);
        for (rows, dropped) in PINS {
            want_rows(rt, alloc, &map, &mut part, drops, rows);
            rounds(rt, &mut part, 5);
            want(rt, "the drops", drops.load(SeqCst), *dropped);
        }
        leave(rt, part);
    }
}

#[test]
fn books_are_lent_by_their_places_and_dropped_once(rt: HostRuntime) -> Result<(), Fail> {
    let drops = Arc::new(rt.alloc(), AtomicU64::new(0))?;
    play(&rt, rt.alloc(), (4, 3), BookScene { drops: &drops });
    want(&rt, "every drop", drops.load(SeqCst), 0x1001_1111);
    Ok(())
}
