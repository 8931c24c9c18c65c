//! How a writer keeps the removals of a structure.
ghost use Rattle.std.specs.Prelude.{◌≡◌, refl};
ghost use Rattle.std.proofs.Common.{◌∙◌};
ghost use Rattle.epoch_lend_nodes.specs.Gathering.{MakesRoomFor, KeepsRemoval};

use epoch_cells::Name;
use epoch_laws::Reply;
use epoch_laws::heap::AccessAnswer;
use epoch_lend::readers::posts::PostSet;
use epoch_lend::session::LendingGuard;
use epoch_lend_pointers::Writer;
use epoch_structure_calls::phases::Keeps;

/// A writer keeps removals among what it has gathered, whichever guard of the domain a call is made under. No value of
/// it is made.
pub struct Gathers;

impl<'q, 's, 'd, J: PostSet, T: Drop> Keeps<Writer<'q, 's, J, T>, LendingGuard<'d, J>> for Gathers {
    ghost keeping = { record {
      room = λ old reply new. MakesRoomFor old.kept.lists.value.spots.items reply new.kept.lists.value.spots.items;
      removal = λ old name reply new. KeepsRemoval old.kept.lists.value.spots.items name reply
          new.kept.lists.value.spots.items;
    } };

    ghost serves = { λ _ _. Unit {0} };

    ghost stays = { λ old new. new.store ≡ old.store };

    ghost stays_itself = { λ _. refl };

    ghost stays_on = { λ _ _ _ first next. next ∙ first };

    ghost serves_on = { λ _ _ _ _ _. tt };

    #[inline(always)]
    fn make_room(writer: &mut Writer<'q, 's, J, T>, _guard: &LendingGuard<'d, J>) -> Reply {
        match writer.make_room() {
            Ok(()) => Reply::Done(AccessAnswer::Unit),
            Err(fault) => Reply::Refused(fault),
        }
    }

    #[inline(always)]
    fn keep(writer: &mut Writer<'q, 's, J, T>, name: Name, _guard: &LendingGuard<'d, J>) -> Reply {
        match writer.gather(name) {
            Ok(()) => Reply::Done(AccessAnswer::Unit),
            Err(fault) => Reply::Refused(fault),
        }
    }
}
