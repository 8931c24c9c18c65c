//! One thread replaces a number, and four others read it.
use epoch_shared::{SharedValue, ValueCrew, share_value};
use std::sync::atomic::AtomicU64;
use std::sync::atomic::Ordering::SeqCst;

/// The threads, and how often they have read.
#[derive(Default, Drop)]
struct Readers {
    reads: AtomicU64,
}

impl ValueCrew<u64> for Readers {
    fn before(&self, number: &mut impl SharedValue<u64>) {
        let _ = number.replace(0);
    }

    fn thread(&self, thread: usize, number: &mut impl SharedValue<u64>) {
        for turn in 0..100u64 {
            if thread == 0 {
                let _ = number.replace(turn);
            } else if number.read(|number| *number).is_some() {
                self.reads.fetch_add(1, SeqCst);
            }
        }
    }
}

#[test]
fn four_threads_read_a_number(rt: HostRuntime) {
    let readers = Readers::default();
    let done = share_value(&rt, rt.alloc(), 5, &readers);
    assert_eq!(rt; done, Ok(5));
    assert_eq!(rt; readers.reads.load(SeqCst), 400);
}
