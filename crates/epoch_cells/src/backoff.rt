//! Pauses between the tries of a call that exchanges a pointer which other threads exchange, too.
use std::hint::spin_loop;

/// How many times the processor pauses after the first try that was lost. Our own.
const FIRST_PAUSES: u64 = 64;

/// How often this number is doubled, at most.
const DOUBLINGS: u64 = 4;

/// Pauses after a try that was lost to another thread. So threads that want to exchange the same pointer don't make one
/// another lose again at once.
///
/// `lost` is how many tries of the call were lost so far: the second pause is twice as long as the first one, and so on
/// up to the fifth, and the later ones are as long as that. The call waits for no other thread. It has the processor
/// pause from 64 up to 1,024 times, which takes some 5 to 60 ns each time, depending on the processor.
#[inline(always)]
pub fn pause_after(lost: u64) {
    let doublings = lost.saturating_sub(1).min(DOUBLINGS);
    for _ in 0..FIRST_PAUSES << doublings {
        spin_loop();
    }
}
