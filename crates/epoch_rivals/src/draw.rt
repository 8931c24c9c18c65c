//! The numbers that choose keys and calls. The other sides of `beside/rivals` draw the same ones.

/// Spreads the first keys of a map over all keys.
pub const SCATTER: u64 = 2_654_435_761;

/// Numbers that look random, by shifts of one word.
#[derive(Clone, Copy)]
pub struct Draw(u64);

impl Draw {
    pub fn of(thread: u64, round: u64) -> Draw {
        let spread = 0x9E37_79B9_7F4A_7C15u64.wrapping_mul(thread.wrapping_add(1));
        Draw(spread ^ (round << 17) ^ 0x1234_5678)
    }

    #[inline(always)]
    pub fn number(&mut self) -> u64 {
        let mut word = self.0;
        word ^= word << 13;
        word ^= word >> 7;
        word ^= word << 17;
        self.0 = word;
        word
    }
}

/// The key that a number chooses, below `SPACE`: each as often as any other; or, with `SKEW` 15, about by Zipf's law,
/// half as often as one that is half as large.
#[inline(always)]
pub fn key<const SPACE: u64, const SKEW: u64>(number: u64) -> u64 {
    let below = (SPACE >> ((number & SKEW) % 16)).max(1);
    (number >> 32).wrapping_mul(below) >> 32
}

/// Which of a hundred calls a number chooses.
#[inline(always)]
pub fn percent(number: u64) -> u64 {
    ((number >> 16) & 0xFFFF).wrapping_mul(100) >> 16
}
