//! What a look gains, and what a mark does.
ghost use Rattle.std.specs.Prelude.{◌≡◌, ℕ, List, Option, Some};
ghost use Rattle.std.specs.Coded.{coded_option};
ghost use base.Stored.{coded_list, coded×, coded_ℕ};
ghost use Rattle.epoch_lend.specs.Loans.{glance_owns, marked_owns, Loan, loan_coded, SeenPost};

use std::marker::{Model, PhantomData};

/// What a look gained: nothing, or the right to read for as long as the guard is lent.
#[derive(Drop)]
pub struct Glance<'g, T> {
    pub at: *const T,
    pub marker: PhantomData<&'g T>,
    pub ghost right: { ℕ },
    pub ghost value: { Option T } by { coded_option T.code },
}

impl<'g, T> Model for Glance<'g, T> {
    ghost also_owns = { λ h. glance_owns 'g T.row h.at h.value h.right };
}

/// What a marking gained: nothing, or the value with what was lent of it. It can't be dropped.
pub struct Marked<T> {
    pub at: *const T,
    pub ghost right: { ℕ },
    pub ghost value: { T },
    pub ghost lifetime: { ℕ },
    pub ghost seen: { List SeenPost } by { coded_list (coded× coded_ℕ coded_ℕ) },
    pub ghost loans: { List Loan } by { coded_list loan_coded },
}

impl<T> Model for Marked<T> {
    ghost also_owns = { λ h. marked_owns T.row h.at h.value h.lifetime h.right h.loans h.seen };
}

impl<'g, T> Glance<'g, T> {
    /// Returns the value, for a glance that gained it.
    pub fn get(self) -> &'g T
        requires { self.right ≡ 1 }
        ensures { Some result.now ≡ self.entry.value }
    {
        let Glance { at, marker: _ } = self;
        unsafe { &*at }
    }

    /// Ends a glance that gained nothing, or that isn't needed.
    pub fn done(self) {
        let Glance { at: _, marker: _ } = self;
    }
}

impl<T> Marked<T> {
    /// Ends what gained nothing.
    pub fn done(self)
        requires { self.right ≡ 0 }
    {
        let Marked { at: _ } = self;
    }
}

unsafe impl<T: Send + Sync> Send for Marked<T> {}

unsafe impl<T: Send + Sync> Sync for Marked<T> {}
