//! What each kind of step on the participants' table tells.
ghost use Rattle.epoch_tables.specs.TableSteps.{Sits, LoadsEpoch, Publishes, Unpins, Frees, LoadsWord, StoresEpoch};
ghost use Rattle.epoch_tables.specs.TableSteps.{ClaimsPosition};

use crate::table::view::ParticipantView;
use atomic_table::Play;

pub struct PositionSit;

impl<S> Play<S, ParticipantView> for PositionSit {
    ghost then = { Sits };
}

pub struct LoadEpoch;

impl<S> Play<S, ParticipantView> for LoadEpoch {
    ghost then = { LoadsEpoch };
}

pub struct Publish;

impl<S> Play<S, ParticipantView> for Publish {
    ghost then = { Publishes };
}

pub struct Unpin;

impl<S> Play<S, ParticipantView> for Unpin {
    ghost then = { Unpins };
}

pub struct Free;

impl<S> Play<S, ParticipantView> for Free {
    ghost then = { Frees };
}

pub struct LoadWord;

impl<S> Play<S, ParticipantView> for LoadWord {
    ghost then = { LoadsWord };
}

pub struct StoreEpoch;

impl<S> Play<S, ParticipantView> for StoreEpoch {
    ghost then = { StoresEpoch };
}

pub struct PositionClaim;

impl<S> Play<S, ParticipantView> for PositionClaim {
    ghost then = { ClaimsPosition };
}
