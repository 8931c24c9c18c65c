//! The shared places, and the seats at them.
ghost use Rattle.std.specs.Prelude.{◌≡◌, ◌<◌, ◌≤◌, ◌*◌, [], None, IfOk, IfErr, IsTrue, replicate};
ghost use Rattle.std.specs.Mem.{type_size};
ghost use Rattle.epoch_tables.specs.SharedPlaces.{PlacesAgree, place_words_for, IsPlaceSeatOf, with_claim};
ghost use Rattle.epoch_cells.specs.declared.fault.Fault.TheVariants.{NoMemory};

use crate::seated::Seated;
use crate::shared_places::plays::PlaceSit;
use crate::shared_places::view::PlaceView;
use atomic_table::{Seat, Table, TableRule};
use epoch_bags::SealedBag;
use epoch_cells::Fault;
use std::alloc::Global;
use std::marker::{Model, PhantomData};
use std::mem;

/// How many places there are at most.
pub const MOST_PLACES: usize = 4096;

/// The rule that holds between any two steps on the places.
pub struct PlaceRule<J> {
    jobs: PhantomData<J>,
}

impl<J> TableRule<Option<SealedBag<J>>, PlaceView<J>, u64> for PlaceRule<J> {
    ghost holds = { PlacesAgree };

    ghost first = { λ _. with_claim None [] [] [] [] };
}

/// A seat at the shared places: what a thread takes its steps with. It has no bytes.
pub type PlaceSeat<J> = Seat<Option<SealedBag<J>>, PlaceView<J>>;

/// Places for sealed bags.
///
/// Threads share them by `&`. Each step is one atomic instruction, and none waits or takes memory.
#[derive(Drop)]
pub struct SharedPlaces<J> {
    pub(crate) table: Table<Option<SealedBag<J>>, PlaceView<J>, u64, PlaceRule<J>, Global>,
    pub(crate) capacity: usize,
}

impl<J> Model for SharedPlaces<J> {
    ghost use Rattle.std.specs.Prelude.{◌≡◌, ◌<◌, ◌≤◌};
    ghost use Rattle.epoch_tables.specs.SharedPlaces.{PlaceBoard, place_words_for};

    ghost Value = { PlaceBoard };

    ghost view = { λ a. record { capacity = a.capacity; table = a.table.shared.table_id } };

    ghost invariant = { λ a. record {
      words : a.table.shared.table_id.words ≡ place_words_for a.capacity;
      slots : a.table.shared.table_id.slots ≡ a.capacity;
      key : a.table.shared.key ≡ a.capacity;
      some : 0 < a.capacity;
      most : a.capacity ≤ 4096;
    } };
}

/// Whether values of this type take fewer than 2^63 bytes, as all that are ever made do.
fn fits_in_memory<S>(value: &Option<S>) -> bool
    ensures { IsTrue result → type_size S.row < 9223372036854775808 }
{
    mem::size_of_val(value) < 1 << 63
}

impl<J> SharedPlaces<J> {
    /// Makes `places` empty places, from 1 to [`MOST_PLACES`].
    ///
    /// `NoMemory`: an allocation was refused, and nothing was made.
    pub fn new(alloc: Global, places: usize) -> Result<SharedPlaces<J>, Fault>
        requires some { 0 < places }
        requires most { places ≤ MOST_PLACES }
        ensures ok { IfOk result (λ made. made.capacity ≡ places) }
        ensures err { IfErr result (λ fault. fault ≡ NoMemory) }
    {
        let vacant: Option<SealedBag<J>> = None;
        let fits = fits_in_memory(&vacant);
        let None = vacant else { unreachable!() };
        if !fits {
            return Err(Fault::NoMemory);
        }
        let Ok(words) = Vec::from_elem(alloc, 0, 16 * places) else {
            return Err(Fault::NoMemory);
        };
        let Ok((table, _)) = Table::vacant(alloc, words.as_slice(), places, &(places as u64)) else {
            return Err(Fault::NoMemory);
        };
        Ok(SharedPlaces {
            table,
            capacity: places,
        })
    }

    /// Returns how many places there are, from 1 to [`MOST_PLACES`].
    pub fn capacity(&self) -> usize
        ensures value { result ≡ self.now.capacity }
        ensures some { 0 < result }
        ensures most { result ≤ MOST_PLACES }
    {
        self.capacity
    }
}

impl<J: Seated> SharedPlaces<J> {
    /// Makes a seat, which has claimed no place. Making it loads a word.
    pub fn seat(&self) -> PlaceSeat<J>
        ensures of { IsPlaceSeatOf self.now result }
        ensures view { result.me ≡ (with_claim None [] [] [] [], []) }
    {
        self.table.shared.load_new_seat::<PlaceSit>(0).1
    }
}
