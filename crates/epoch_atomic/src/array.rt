//! Arrays whose length is chosen when they are made.
ghost use Rattle.std.specs.Prelude.{◌≡◌, ◌≤◌, ◌<◌, ℕ, ◌↔◌, IsErr, IfOk, IfErr, IsOkUnless, IsSomeAnd, vec_len, refl};
ghost use Rattle.std.specs.Prelude.{slice_get, slice_set, Some, None, ◌⊎◌};
ghost use Rattle.std.proofs.Common.{lit≤};
ghost use Rattle.epoch_cells.specs.declared.fault.Fault.TheVariants.{NoMemory};

use crate::Pointable;
use epoch_cells::Fault;
use std::alloc::Global;

/// A fixed number of elements, each of which may be there or not.
///
/// crossbeam-epoch has slices of elements that may be uninitialized instead.
#[derive(Debug, Drop)]
pub struct Array<E> {
    pub(crate) elements: Vec<Option<E>>,
}

impl<E: Drop> Array<E> {
    /// Makes an array of this many elements, each of which is `None`.
    ///
    /// `NoMemory`: an allocation was refused, and nothing was made.
    pub fn new(alloc: Global, len: usize) -> Result<Array<E>, Fault>
        // An `Array` is a list of elements, each of which is there or not. `get` and `set` do exactly what they say to
        // one element.
        ensures memory { IsOkUnless result NoMemory }
        ensures length { IfOk result (λ array. vec_len array.elements ≡ len) }
        ensures empty { IfOk result (λ array. (i : ℕ) → i < len → slice_get array.elements.items i ≡ Some None) }
    {
        let mut elements = Vec::with_capacity(alloc, len).map_err(|_| Fault::NoMemory)?;
        for _ in 0..len {
            elements.push(None).map_err(|_| Fault::NoMemory)?;
        }
        Ok(Array { elements })
    }

    /// Returns how many elements there are, present or not.
    pub fn len(&self) -> usize
        ensures { result ≡ vec_len self.now.elements }
    {
        self.elements.len()
    }

    /// Returns the element at this index. `None`: it isn't there, or the index is at or past [`Array::len`].
    pub fn get(&self, index: usize) -> Option<&E>
        ensures value { (element : _) → slice_get self.now.elements.items index ≡ Some (Some element)
            → IsSomeAnd result (λ found. found.now ≡ element) }
        ensures none { (slice_get self.now.elements.items index ≡ None)
            ⊎ (slice_get self.now.elements.items index ≡ Some None) → result ≡ None }
    {
        self.elements.get(index)?.as_ref()
    }

    /// Puts the element at this index, and returns the one before.
    ///
    /// `Err`: the index is at or past [`Array::len`]. The element comes back, and nothing was changed.
    pub fn set(&mut self, index: usize, element: E) -> Result<Option<E>, E>
        ensures past { IsErr result ↔ (vec_len self.old.elements ≤ index) }
        ensures handed_back { IfErr result (λ back. back ≡ element) }
        ensures before { IfOk result (λ before. slice_get self.old.elements.items index ≡ Some before) }
        ensures set { IfOk result
            (λ before. self.new.elements.items ≡ slice_set self.old.elements.items index (Some element)) }
        ensures kept { IfErr result (λ back. self.new.elements.items ≡ self.old.elements.items) }
    {
        match self.elements.get_mut(index) {
            Some(place) => Ok(place.replace(element)),
            None => Err(element),
        }
    }
}

impl<E: Drop> Pointable for Array<E> {
    ghost ALIGN = { 8 };

    ghost log = { 3 };

    ghost is_power = { refl };

    ghost is_small = { lit≤ tt };

    const ALIGN: usize = 8;

    type Init = usize;

    ghost init_gives = { λ len array. (vec_len array.elements ≡ len)
        × ((i : ℕ) → i < len → slice_get array.elements.items i ≡ Some None) };

    fn init(alloc: Global, len: usize) -> Result<Array<E>, Fault> {
        Array::new(alloc, len)
    }
}
