//! Values that have one owner.
ghost use Rattle.std.specs.Prelude.{◌≡◌, ◌%◌, ◌<◌, IfOk, IsOkUnless};
ghost use Rattle.std.specs.Borrow.{Lends, sem};
ghost use Rattle.epoch_cells.specs.declared.fault.Fault.TheVariants.{NoMemory};
ghost use Rattle.epoch_atomic.specs.contracts.atomic.owned.Owned.{the_row};
ghost use Rattle.epoch_atomic.specs.OwnedValues.{with_owned_value};

use crate::atomic::borrow::{Borrow, BorrowMut};
use crate::{Pointable, tag_of};
use epoch_cells::Fault;
use epoch_handles::{Guard, boxed_under};
use std::alloc::Global;
use std::fmt;
use std::fmt::Debug;
use std::ops::{Deref, DerefMut};

/// A value in a box, and a tag.
#[derive(Drop)]
pub struct Owned<T> {
    pub(crate) value: Box<T>,
    pub(crate) tag: u8,
}

impl<T: Pointable> Owned<T> {
    /// Returns the box. The tag is lost.
    pub fn into_box(self) -> Box<T>
        ensures { result ≡ self.value }
    {
        let Owned { value, tag: _ } = self;
        value
    }

    /// Returns the tag.
    pub fn tag(&self) -> usize
        ensures { result ≡ self.now.tag }
    {
        self.tag as usize
    }

    /// Returns the same value with this tag, which is taken modulo [`Pointable::ALIGN`].
    pub fn with_tag(self, tag: usize) -> Owned<T>
        // `with_tag` takes the tag modulo the alignment, and the rest stays. Null is null whatever its tag is.
        ensures value { result.value ≡ self.value }
        ensures tag { result.tag ≡ tag % T.ALIGN }
        ensures below { result.tag < T.ALIGN }
    {
        let Owned { value, tag: _ } = self;
        Owned {
            value,
            tag: tag_of::<T>(tag),
        }
    }
}

impl<T: Pointable + Drop> Owned<T> {
    /// Puts the value into a box, with tag 0.
    ///
    /// `NoMemory`: an allocation was refused, and the value was dropped.
    #[inline(always)]
    pub fn new(alloc: Global, value: T) -> Result<Owned<T>, Fault>
        ensures memory { IsOkUnless result NoMemory }
        ensures value { IfOk result (λ owned. owned.value.value ≡ value) }
        ensures tag { IfOk result (λ owned. owned.tag ≡ 0) }
    {
        let value = Box::new(alloc, value).map_err(|_| Fault::NoMemory)?;
        Ok(Owned::from(value))
    }

    /// Puts the value into a box, with tag 0, as [`Owned::new`] does. If the guard has memory of a value that was
    /// destroyed, the value is put there, and no memory is allocated: its participant gives what it keeps to the first
    /// guard of a pin.
    ///
    /// `NoMemory`: an allocation was refused, and the value was dropped.
    #[inline(always)]
    pub fn new_under<W>(alloc: Global, value: T, guard: &Guard<'_, T, W>) -> Result<Owned<T>, Fault>
        ensures memory { IsOkUnless result NoMemory }
        // `Owned::new_under` returns the value that was given, with tag 0, as `Owned::new` does. It fails only if
        // memory is refused.
        ensures value { IfOk result (λ owned. owned.value.value ≡ value) }
        ensures tag { IfOk result (λ owned. owned.tag ≡ 0) }
    {
        let value = boxed_under(guard, alloc, value).map_err(|_| Fault::NoMemory)?;
        Ok(Owned::from(value))
    }

    /// Puts the value that [`Pointable::init`] makes into a box, with tag 0.
    ///
    /// `NoMemory`: an allocation was refused, and what was made was dropped.
    pub fn init(alloc: Global, init: T::Init) -> Result<Owned<T>, Fault>
        ensures memory { IsOkUnless result NoMemory }
        ensures value { IfOk result (λ owned. T.init_gives init owned.value.value) }
        ensures tag { IfOk result (λ owned. owned.tag ≡ 0) }
    {
        Owned::new(alloc, T::init(alloc, init)?)
    }

    /// Clones the value, with the same tag.
    ///
    /// `NoMemory`: an allocation was refused, and this value is as it was. crossbeam-epoch has `clone` instead, which
    /// can't be refused.
    pub fn try_clone(&self, alloc: Global) -> Result<Owned<T>, Fault>
    where
        T: Clone,
        requires { (x y : T) → T.is_clone x y → y ≡ x }
        ensures memory { IsOkUnless result NoMemory }
        ensures value { IfOk result (λ owned. owned.value.value ≡ self.now.value.value) }
        ensures tag { IfOk result (λ owned. owned.tag ≡ self.now.tag) }
    {
        let value: &T = &self.value;
        let value = value.clone().map_err(|_| Fault::NoMemory)?;
        let value = Box::new(alloc, value).map_err(|_| Fault::NoMemory)?;
        Ok(Owned {
            value,
            tag: self.tag,
        })
    }
}

impl<T: Pointable> From<Box<T>> for Owned<T> {
    ghost from_gives = { λ b owned. (owned.value ≡ b) × (owned.tag ≡ 0) };

    #[inline(always)]
    fn from(value: Box<T>) -> Owned<T> {
        Owned { value, tag: 0 }
    }
}

impl<T: Pointable> Deref for Owned<T> {
    type Target = T;

    ghost deref_gives = { λ owned value. value ≡ owned.value.value };

    fn deref(&self) -> &T {
        &self.value
    }
}

impl<T: Pointable> DerefMut for Owned<T> {
    ghost deref_mut_gives = { λ owned value. value ≡ owned.value.value };

    fn deref_mut(&mut self) -> &mut T
        ensures* writes_back { sem 𝓛 (Lends (the_row T.row) T.row self.entry result (with_owned_value self.old)) }
        ensures value { result.now ≡ self.old.value.value }
    {
        &mut self.value
    }
}

impl<T: Pointable> Borrow<T> for Owned<T> {
    ghost borrow_gives = { λ owned value. value ≡ owned.value.value };

    fn borrow(&self) -> &T {
        &self.value
    }
}

impl<T: Pointable> BorrowMut<T> for Owned<T> {
    ghost borrow_mut_gives = { λ owned value. value ≡ owned.value.value };

    fn borrow_mut(&mut self) -> &mut T
        ensures* writes_back { sem 𝓛 (Lends (the_row T.row) T.row self.entry result (with_owned_value self.old)) }
        ensures value { result.now ≡ self.old.value.value }
    {
        self.deref_mut()
    }
}

impl<T: Pointable> AsRef<T> for Owned<T> {
    fn as_ref(&self) -> &T
        ensures { result.now ≡ self.now.value.value }
    {
        &self.value
    }
}

impl<T: Pointable> AsMut<T> for Owned<T> {
    fn as_mut(&mut self) -> &mut T
        ensures* writes_back { sem 𝓛 (Lends (the_row T.row) T.row self.entry result (with_owned_value self.old)) }
        ensures value { result.now ≡ self.old.value.value }
    {
        self.deref_mut()
    }
}

impl<T: Pointable> Debug for Owned<T> {
    fn fmt<F: fmt::Write>(&self, f: &mut fmt::Formatter<F>) -> fmt::Result {
        f.debug_struct("Owned")
            .field("tag", &self.tag)
            .finish_non_exhaustive()
    }
}
