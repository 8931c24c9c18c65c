//! Epochs: a number that counts up, and whether a participant is pinned in it.
ghost use Rattle.std.specs.Prelude.{◌≡◌, ◌+◌, ◌*◌, ◌<◌, ◌≤◌, ◌↔◌, false, true, pos, ◌-ℤ◌, IsNone, IfSome};

/// The greatest epoch, `2^63 - 1`: its word, pinned, is the greatest `u64`.
pub const GREATEST_EPOCH: u64 = 9_223_372_036_854_775_807;

/// The word of a position that no participant has.
pub const FREE: u64 = 0;

/// The word of a participant that is not pinned.
pub const UNPINNED: u64 = 2;

/// Returns the word of a participant that is pinned in the epoch of this number. It is odd, as no other one is.
#[inline(always)]
pub fn pinned_word(epoch: u64) -> u64
    requires { epoch ≤ GREATEST_EPOCH }
    ensures { result ≡ 2 * epoch + 1 }
{
    2 * epoch + 1
}

/// An epoch: its number, from 0 to [`GREATEST_EPOCH`], and whether it is marked as pinned.
///
/// As `Epoch` of crossbeam-epoch, but counted: it doesn't wrap.
#[derive(Clone, Copy, Debug, PartialEq, Eq, Hash)]
pub struct Epoch {
    number: u64,
    pinned: bool,
    pub ghost within: { number ≤ 9223372036854775807 },
}

impl Epoch {
    /// Returns the first epoch: number 0, not pinned.
    pub fn starting() -> Epoch
        ensures number { result.number ≡ 0 }
        ensures unpinned { result.pinned ≡ false }
    {
        Epoch::new(0)
    }

    /// Returns the epoch of this number, not pinned.
    pub fn new(number: u64) -> Epoch
        requires { number ≤ GREATEST_EPOCH }
        ensures number { result.number ≡ number }
        ensures unpinned { result.pinned ≡ false }
    {
        Epoch {
            number,
            pinned: false,
        }
    }

    /// Returns the same epoch, marked as pinned.
    pub fn pinned(self) -> Epoch
        ensures number { result.number ≡ self.number }
        ensures pinned { result.pinned ≡ true }
    {
        Epoch {
            number: self.number,
            pinned: true,
        }
    }

    /// Returns the same epoch, marked as not pinned.
    pub fn unpinned(self) -> Epoch
        ensures number { result.number ≡ self.number }
        ensures unpinned { result.pinned ≡ false }
    {
        Epoch {
            number: self.number,
            pinned: false,
        }
    }

    /// Returns whether it is marked as pinned.
    pub fn is_pinned(self) -> bool
        ensures { result ≡ self.pinned }
    {
        self.pinned
    }

    /// Returns its number, from 0 to [`GREATEST_EPOCH`].
    pub fn number(self) -> u64
        ensures value { result ≡ self.number }
        ensures within { result ≤ GREATEST_EPOCH }
    {
        self.number
    }

    /// Returns the next epoch, with the same mark; `None` exactly at the greatest one.
    pub fn successor(self) -> Option<Epoch>
        ensures none { IsNone result ↔ (self.number ≡ GREATEST_EPOCH) }
        // The next epoch is one more, with the same mark. Exactly one epoch, `2^63 - 1`, has no next one.
        ensures some { IfSome result (λ next. (next.number ≡ self.number + 1)) }
        ensures mark { IfSome result (λ next. (next.pinned ≡ self.pinned)) }
    {
        if self.number == GREATEST_EPOCH {
            return None;
        }
        Some(Epoch {
            number: self.number + 1,
            pinned: self.pinned,
        })
    }

    /// Returns how many epochs `self` is ahead of `other`, negative where it is behind. Marks don't count.
    pub fn distance(self, other: Epoch) -> i64
        // The distance of two epochs is the difference of their numbers.
        ensures { result ≡ pos self.number -ℤ pos other.number }
    {
        self.number as i64 - other.number as i64
    }
}
