//! Pointers that are read under a guard.
ghost use Rattle.std.specs.Prelude.{◌≡◌, ◌%◌, ◌<◌, ◌↔◌, ◌==◌, IsTrue, IsNone, IfSome, Some, None};
ghost use Rattle.std.proofs.Common.{rules};
ghost use Rattle.std.specs.Cmp.{partial_order_from_own_ties};
ghost use Rattle.std.specs.Cmp.Rules.{comparing};
ghost use Rattle.std.specs.Ordering.{nat_cmp, on, as_partial_cmp};
ghost use Rattle.epoch_atomic.specs.Pointers.{tagged_word, IsUnder};

use crate::atomic::owned::Owned;
use crate::atomic::word::number;
use crate::{Pointable, tag_of};
use epoch_cells::{Name, Reading, Writing};
use epoch_handles::{Guard, Home, home_of, take_under};
use std::cmp::Ordering;
use std::fmt;
use std::fmt::Debug;

/// A pointer to a value in a cell, or null, with a tag.
///
/// It is loaded under a guard, which it doesn't outlive. Pointers are compared by their numbers, which are `turn * 2^32
/// + slot * 2^8 + tag`; null has slot 0 and turn 0. So a null pointer with a tag is null, but isn't equal to
/// [`Shared::null`]. In crossbeam-epoch pointers are compared by address and tag.
#[derive_where(Clone, Copy)]
pub struct Shared<'g, T> {
    // The tag comes first, so that the eight bytes of a name begin where a box does in what else an answer may
    // hold: else each pointer that a call answers would go through memory.
    pub(crate) tag: u8,
    pub(crate) name: Option<Name>,
    pub(crate) home: Option<Home<'g, T>>,
}

impl<'g, T> Shared<'g, T> {
    /// Returns the null pointer, with tag 0.
    pub fn null() -> Shared<'g, T>
        ensures name { result.name ≡ None }
        ensures tag { result.tag ≡ 0 }
    {
        Shared {
            name: None,
            tag: 0,
            home: None,
        }
    }

    /// Returns whether it is null, whatever its tag is.
    #[inline(always)]
    pub fn is_null(&self) -> bool
        ensures { IsTrue result ↔ IsNone self.now.name }
    {
        self.name.is_none()
    }

    /// Returns the tag.
    #[inline(always)]
    pub fn tag(&self) -> usize
        ensures { result ≡ self.now.tag }
    {
        self.tag as usize
    }

    /// Returns the pointer to the value that was placed under this name, with tag 0.
    ///
    /// It is as good as one that was loaded: a value is lent only while it stands in its cell under this name. The
    /// guard must be of the collector that gave the name. In crossbeam-epoch `Shared::from` of a raw pointer does this.
    #[inline(always)]
    pub fn named<W>(name: Name, guard: &'g Guard<'_, T, W>) -> Shared<'g, T>
        ensures name { result.name ≡ Some name }
        ensures tag { result.tag ≡ 0 }
        ensures home { IsUnder guard.now.collector.now.id result.home }
    {
        Shared::named_at(name, home_of(guard))
    }

    /// Returns the name of the value that it points to, or `None` if it is null. Two pointers with the same name point
    /// to the same value, whatever their tags are.
    #[inline(always)]
    pub fn name(&self) -> Option<Name>
        ensures { result ≡ self.now.name }
    {
        self.name
    }

    // The same pointer, as one that was got under this guard.
    #[inline(always)]
    pub(crate) fn under<W>(&self, guard: &'g Guard<'_, T, W>) -> Shared<'g, T>
        ensures name { result.name ≡ self.now.name }
        ensures tag { result.tag ≡ self.now.tag }
        ensures home { IsUnder guard.now.collector.now.id result.home }
    {
        Shared {
            home: Some(home_of(guard)),
            ..*self
        }
    }
}

impl<'g, T: Pointable> Shared<'g, T> {
    /// Returns the same pointer with this tag, which is taken modulo [`Pointable::ALIGN`].
    #[inline(always)]
    pub fn with_tag(&self, tag: usize) -> Shared<'g, T>
        ensures name { result.name ≡ self.now.name }
        ensures tag { result.tag ≡ tag % T.ALIGN }
        ensures below { result.tag < T.ALIGN }
        ensures home { result.home ≡ self.now.home }
    {
        Shared {
            name: self.name,
            tag: tag_of::<T>(tag),
            home: self.home,
        }
    }
}

impl<'g, T: Pointable + Drop> Shared<'g, T> {
    /// Lends the value for reading. The reading must be given back, by `Reading::leave`.
    ///
    /// `None`: the pointer is null; or its value is gone, is written, or has `2^30 - 1` readers; or each try was lost
    /// to other threads. A value that was placed into the slot at a later turn is never lent. A read costs two
    /// exchanges, since it counts itself in its cell and out again; in crossbeam-epoch the call is unsafe, and costs
    /// none.
    #[inline(always)]
    pub fn deref(&self) -> Option<Reading<'g, T>>
        ensures named { IfSome result (λ reading. Some reading.name ≡ self.now.name) }
    {
        let home = self.home?;
        home.read(self.name?)
    }

    /// Does what [`Shared::deref`] does.
    pub fn as_ref(&self) -> Option<Reading<'g, T>>
        // A reading or a writing that a pointer returns is of the pointer's name. The pointer stays as it is.
        ensures named { IfSome result (λ reading. Some reading.name ≡ self.now.name) }
    {
        self.deref()
    }

    /// Lends the value for writing. The writing must be given back, by `Writing::leave`.
    ///
    /// `None`: the pointer is null; or its value is gone, or is read or written.
    pub fn deref_mut(&mut self) -> Option<Writing<'g, T>>
        ensures named { IfSome result (λ writing. Some writing.name ≡ self.old.name) }
        ensures same { self.new ≡ self.old }
    {
        let home = self.home?;
        home.write(self.name?)
    }

    /// Takes the value out of its cell, with the pointer's tag. From then on every pointer of this name finds no value.
    ///
    /// `None`: the pointer is null, whatever its tag is; or its value is gone, or is read or written.
    #[inline(always)]
    pub fn try_into_owned(self) -> Option<Owned<T>>
        ensures tag { IfSome result (λ owned. owned.tag ≡ self.entry.tag) }
        ensures null { IsNone self.entry.name → IsNone result }
    {
        let home = self.home?;
        let value = home.take(self.name?)?;
        Some(Owned {
            value,
            tag: self.tag,
        })
    }

    // Does the same, and keeps the cell for the next value that is placed under this guard.
    #[inline(always)]
    pub(crate) fn taken_under<W>(self, guard: &Guard<'_, T, W>) -> Option<Owned<T>>
        ensures tag { IfSome result (λ owned. owned.tag ≡ self.entry.tag) }
        ensures null { IsNone self.entry.name → IsNone result }
    {
        let value = take_under(guard, self.name?)?;
        Some(Owned {
            value,
            tag: self.tag,
        })
    }

    /// Does what [`Shared::try_into_owned`] does.
    #[inline(always)]
    pub fn into_owned(self) -> Option<Owned<T>>
        ensures tag { IfSome result (λ owned. owned.tag ≡ self.entry.tag) }
        ensures null { IsNone self.entry.name → IsNone result }
    {
        self.try_into_owned()
    }
}

impl<'g, T> PartialEq for Shared<'g, T> {
    ghost eq = { on (λ pointer. tagged_word pointer.name pointer.tag) ◌==◌ };

    ghost laws = { Prim.search (comparing, rules) };

    /// Returns whether the numbers are equal: both names and tags.
    fn eq(&self, other: &Shared<'g, T>) -> bool {
        number(self.name, self.tag) == number(other.name, other.tag)
    }
}

impl<'g, T> Eq for Shared<'g, T> {
    ghost laws = { Prim.search (comparing, rules) };
}

impl<'g, T> Ord for Shared<'g, T> {
    ghost cmp = { on (λ pointer. tagged_word pointer.name pointer.tag) nat_cmp };

    ghost total = { Prim.search (comparing, rules) };

    ghost matches_partial_cmp = { Prim.search (comparing, rules) };

    ghost matches_eq = { Prim.search (comparing, rules) };

    /// Returns the order of the numbers: by the turn, then by the slot, then by the tag.
    fn cmp(&self, other: &Shared<'g, T>) -> Ordering {
        number(self.name, self.tag).cmp(&number(other.name, other.tag))
    }
}

impl<'g, T> PartialOrd for Shared<'g, T> {
    ghost partial_cmp = { as_partial_cmp (on (λ pointer. tagged_word pointer.name pointer.tag) nat_cmp) };

    ghost laws = { partial_order_from_own_ties (Prim.search (comparing, rules)) (Prim.search (comparing, rules)) };

    fn partial_cmp(&self, other: &Shared<'g, T>) -> Option<Ordering> {
        Some(self.cmp(other))
    }
}

impl<'g, T> Default for Shared<'g, T> {
    ghost is_default = { λ pointer. (pointer.name ≡ None) × (pointer.tag ≡ 0) };

    fn default() -> Shared<'g, T> {
        Shared::null()
    }
}

impl<'g, T> Debug for Shared<'g, T> {
    fn fmt<F: fmt::Write>(&self, f: &mut fmt::Formatter<F>) -> fmt::Result {
        f.debug_struct("Shared")
            .field("name", &self.name)
            .field("tag", &self.tag)
            .finish_non_exhaustive()
    }
}
