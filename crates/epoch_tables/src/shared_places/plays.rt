//! What each kind of step on the shared places tells.
ghost use Rattle.epoch_tables.specs.SharedPlaces.{SitsAtPlaces, LooksAtPlace, ClaimsPlace, StoresPlace};

use crate::shared_places::view::PlaceView;
use atomic_table::Play;
use epoch_bags::SealedBag;

pub struct PlaceSit;

impl<J> Play<Option<SealedBag<J>>, PlaceView<J>> for PlaceSit {
    ghost then = { SitsAtPlaces };
}

pub struct PlaceLook;

impl<J> Play<Option<SealedBag<J>>, PlaceView<J>> for PlaceLook {
    ghost then = { LooksAtPlace };
}

pub struct PlaceClaim;

impl<J> Play<Option<SealedBag<J>>, PlaceView<J>> for PlaceClaim {
    ghost then = { ClaimsPlace };
}

pub struct PlaceStore;

impl<J> Play<Option<SealedBag<J>>, PlaceView<J>> for PlaceStore {
    ghost then = { StoresPlace };
}
