//! The slot, and what stands in it.
ghost use Rattle.std.specs.Prelude.{◌≡◌, Option, Some, None, IfSome};

use counted_slot::{Counted, FREE, Fits, PRESENT, TAKEN};
use std::marker::Model;
use std::snapshot::Snapshot;

/// What stands in a slot: the value that the slot was made with. Only a slot makes one.
#[derive(Drop)]
pub struct Put<V> {
    value: V,
}

// The tag of a slot is the value that it was made with, if any, as clauses see it.
impl<V> Fits for Put<V> {
    type Tag = Snapshot<Option<V>>;

    ghost fits = { λ made put. made.value ≡ Some put.value };
}

/// A value in place that any thread may take out, and that only one does. If no thread takes it, it is dropped with the
/// slot.
///
/// In a clause it is the value that it was made with, if any, also after that value was taken.
#[derive(Drop)]
pub struct TakeOnce<V> {
    // Its word is `FREE` until the value is taken, and never again.
    slot: Counted<Option<Put<V>>>,
}

impl<V> Model for TakeOnce<V> {
    ghost use Rattle.std.specs.Prelude.{Option};

    ghost Value = { Option V };

    ghost view = { λ a. a.slot.value };
}

impl<V> TakeOnce<V> {
    /// Makes a slot with this value in it.
    #[inline(always)]
    pub fn new(value: V) -> TakeOnce<V>
        // A slot is known by the value that it was made with, also after the value was taken.
        ensures { result ≡ Some value }
    {
        let value = Some(value);
        let made = Snapshot::of(&value);
        TakeOnce {
            slot: Counted::new(value.map(|value| Put { value }), &made),
        }
    }

    /// Makes a slot without a value. No take gives one.
    #[inline(always)]
    pub fn empty() -> TakeOnce<V>
        ensures { result ≡ None }
    {
        let made = Snapshot::of(&None);
        TakeOnce {
            slot: Counted::new(None, &made),
        }
    }

    /// Takes the value out. `None`: it was taken before, or another thread is taking it.
    #[inline(always)]
    pub fn take(&self) -> Option<V>
        // What is taken out is what was put in. Nothing is taken out of a slot that was made empty.
        ensures { IfSome result (λ value. self.now ≡ Some value) }
    {
        let (found, claim) = self.slot.turn(FREE, TAKEN);
        if found != FREE {
            claim.done();
            return None;
        }
        match claim.put(None, PRESENT) {
            Some(Put { value }) => Some(value),
            None => None,
        }
    }

    /// Returns the value. `None`: it was taken before.
    pub fn into_inner(self) -> Option<V>
        ensures { IfSome result (λ value. self ≡ Some value) }
    {
        let TakeOnce { slot } = self;
        match slot.into_inner() {
            Some(Put { value }) => Some(value),
            None => None,
        }
    }
}
