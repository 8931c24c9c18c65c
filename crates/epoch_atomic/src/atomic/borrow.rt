//! The traits `Borrow` and `BorrowMut`, which std lacks here.

/// Lends a value of another type for reading, as the trait of this name in Rust does.
pub trait Borrow<T> {
    // What value is lent.
    ghost borrow_gives: { Self → T → Type 0 };

    /// Lends the value for reading.
    fn borrow(&self) -> &T
        ensures { borrow_gives self.now result.now };
}

/// Lends a value of another type for writing, as the trait of this name in Rust does.
pub trait BorrowMut<T>: Borrow<T> {
    // What value is lent.
    ghost borrow_mut_gives: { Self → T → Type 0 };

    /// Lends the value for writing.
    fn borrow_mut(&mut self) -> &mut T
        ensures { borrow_mut_gives self.old result.now };
}
