//! The steps that calls on a store are made of. Clauses tell by them what a call did.
ghost use Rattle.std.specs.Prelude.{◌≡◌, ℕ, List, map, IsOk, IfOk, IfErr, IfSome};
ghost use Rattle.epoch_lend.specs.Posts.{PostNames};
ghost use Rattle.epoch_cells.specs.declared.cells.name.Name.{Name};
ghost use Rattle.epoch_lend_pointers.specs.Steps.{StoreStep};
ghost use Rattle.epoch_lend_pointers.specs.Steps.StoreStep.{Places, Lends, Waits};
ghost use Rattle.epoch_cells.specs.declared.fault.Fault.TheVariants.{CellsFull};

use crate::store::lent_cells::LentCells;
use crate::store::retired::Ripening;
use crate::store::{Store, Waiting};
use epoch_cells::{Name, Refused};
use epoch_lend::array::room::LentRoom;
use epoch_lend::readers::posts::PostSet;
use epoch_lend::readers::reader::Pinned;

/// How the steps of stores of such values are made. There is one way, and no caller names it: [`HasStoreSteps`].
pub trait StoreSteps<T: Drop> {
    /// This step was made in the store of this number, in the domain of these posts. If the type is a parameter,
    /// nothing but the calls below shows it.
    ghost did: { List PostNames → ℕ → StoreStep T → Type 0 };

    /// The cells of which the first ones have these logs lent this value, which they had under this name. If the type
    /// is a parameter, nothing but [`StoreSteps::look_in`] shows it.
    ghost lent: { List ℕ → Name → T → Type 0 };

    /// Shows the value in the room of one of the store's free cells, by one store.
    fn place_in<J: PostSet>(
        store: &Store<'_, J, T>,
        room: LentRoom<'_, J, T>,
        value: T,
    ) -> Result<Name, Refused<T>>
        ensures did { IfOk result (λ name. did J.posts store.now.number (Places name value)) }
        ensures full { IfErr result (λ refused. (refused.fault ≡ CellsFull) × (refused.value ≡ value)) };

    /// Lends the value of this name, by plain loads.
    fn look<'g, J: PostSet>(
        store: &Store<'_, J, T>,
        name: Name,
        pinned: &'g Pinned<'_, J>,
    ) -> Option<&'g T>
        ensures did { IfSome result (λ value. did J.posts store.now.number (Lends name value.now)) };

    /// Lends the value that these cells have under this name, by plain loads: for a structure that has the cells of its
    /// store at hand, so that it needn't load where they are.
    fn look_in<'g, J: PostSet>(
        cells: &LentCells<J, T>,
        name: Name,
        pinned: &'g Pinned<'_, J>,
    ) -> Option<&'g T>
        ensures lent { IfSome result (λ value. lent (map (λ s. s.turns.log) cells.now.cells.first.slots.items)
            name value.now) };

    /// Lets retired values wait in the store. They are handed back if there is no place for them.
    fn let_wait<'s, J: PostSet>(
        store: &Store<'s, J, T>,
        ripening: Ripening<'s, J, T>,
    ) -> Result<(), Ripening<'s, J, T>>
        ensures did { IsOk result → did J.posts store.now.number
            (Waits ripening.entry.epoch ripening.entry.retired.lists.value.spots.items) }
        ensures handed_back { IfErr result (λ back. back ≡ ripening.entry) };
}

/// The one [`StoreSteps`]: the steps are made, and nothing else is done. No value of this type is made.
pub struct InStores;

impl<T: Drop> StoreSteps<T> for InStores {
    ghost did = { λ _ _ _. Unit {0} };

    ghost lent = { λ _ _ _. Unit {0} };

    #[inline(always)]
    fn place_in<J: PostSet>(
        store: &Store<'_, J, T>,
        room: LentRoom<'_, J, T>,
        value: T,
    ) -> Result<Name, Refused<T>>
        ensures did { IfOk result (λ name. Unit {0}) }
        ensures full { IfErr result (λ refused. (refused.fault ≡ CellsFull) × (refused.value ≡ value)) }
    {
        match store.cells.place_in(room, value) {
            Ok(placed) => Ok(placed.name),
            Err(refused) => Err(refused),
        }
    }

    #[inline(always)]
    fn look<'g, J: PostSet>(
        store: &Store<'_, J, T>,
        name: Name,
        pinned: &'g Pinned<'_, J>,
    ) -> Option<&'g T>
        ensures did { IfSome result (λ value. Unit {0}) }
    {
        match store.cells.look(name, pinned) {
            Some(sight) => Some(sight.value),
            None => None,
        }
    }

    #[inline(always)]
    fn look_in<'g, J: PostSet>(
        cells: &LentCells<J, T>,
        name: Name,
        pinned: &'g Pinned<'_, J>,
    ) -> Option<&'g T>
        ensures lent { IfSome result (λ value. Unit {0}) }
    {
        match cells.look(name, pinned) {
            Some(sight) => Some(sight.value),
            None => None,
        }
    }

    fn let_wait<'s, J: PostSet>(
        store: &Store<'s, J, T>,
        ripening: Ripening<'s, J, T>,
    ) -> Result<(), Ripening<'s, J, T>>
        ensures did { IsOk result → Unit {0} }
        ensures handed_back { IfErr result (λ back. back ≡ ripening.entry) }
    {
        match store.waiting.put(Waiting::Ripening(ripening)) {
            Ok(()) => Ok(()),
            Err(Waiting::Ripening(back)) => Err(back),
            Err(_) => unreachable!(),
        }
    }
}

/// Tells which [`StoreSteps`] makes the steps. There is only this impl, so no caller names it.
pub trait HasStoreSteps<M> {}

impl<T> HasStoreSteps<InStores> for T {}
