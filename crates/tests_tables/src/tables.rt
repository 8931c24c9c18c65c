//! The participants' table, on one thread.
ghost use Rattle.std.specs.Prelude.{◌≡◌, ◌<◌};

use crate::shared_places::Number;
use crate::wants::{want, want_word};
use epoch::table::Participants;
use std::process::Abort;

/// The word that another participant's claim of the position finds. If it is 0, the position is claimed.
pub(crate) fn claimed(table: &Participants<Number>, position: usize) -> u64
    requires { position < table.now.positions }
{
    let mut seat = table.seat();
    table.claim(&mut seat, position)
}

/// The word of the epoch.
pub(crate) fn epoch_word(table: &Participants<Number>) -> u64 {
    let mut seat = table.seat();
    table.load_epoch_word(&mut seat)
}

// The expected words: 2e for the epoch e; 0 for a free position, 2 for one that is registered and not
// pinned, and 2e + 1 for one that is pinned in e.
#[test]
fn the_words_say_who_is_registered_and_pinned(rt: HostRuntime) {
    let table: Participants<Number> = Participants::new(rt.alloc(), 3).expect(&rt, "memory");
    come_and_go(&rt, &table);
}

/// A participant claims a position, pins in epoch 0, unpins and leaves.
fn come_and_go(rt: &impl Abort, table: &Participants<Number>)
    requires { 0 < table.now.positions }
{
    let mut seat = table.seat();
    want_word(rt, "a free position", table.claim(&mut seat, 0), 0);
    want(rt, "it is registered then", claimed(table, 0), 2);
    table.publish(&mut seat, 0, 0);
    want(rt, "it is pinned in epoch 0", claimed(table, 0), 1);
    table.unpin(&mut seat, 0);
    want(rt, "it isn't pinned any more", claimed(table, 0), 2);
    table.free(&mut seat, 0);
    want(rt, "another claims it", claimed(table, 0), 0);
}

#[test]
fn one_participant_scans_itself_and_advances_the_epoch(rt: HostRuntime) {
    let table: Participants<Number> = Participants::new(rt.alloc(), 1).expect(&rt, "memory");
    scan_twice(&rt, &table);
}

/// A participant pins in epoch 0 and scans, which stores epoch 1, and then scans for that epoch.
fn scan_twice(rt: &impl Abort, table: &Participants<Number>)
    requires { table.now.positions ≡ 1 }
{
    let mut seat = table.seat();
    want(rt, "a new table is in epoch 0", epoch_word(table), 0);
    want_word(rt, "its position", table.claim(&mut seat, 0), 0);
    table.publish(&mut seat, 0, 0);
    let epoch = table.load_epoch_word(&mut seat);
    want_word(rt, "it still is", epoch, 0);
    let own = table.load_word(&mut seat, 0);
    want_word(rt, "its own word, pinned in epoch 0", own, 1);
    table.advance(&mut seat, 0);
    let epoch = table.load_epoch_word(&mut seat);
    want_word(rt, "the word of epoch 1", epoch, 2);
    let behind = table.load_word(&mut seat, 0);
    want(rt, "pinned in epoch 0, it holds up the scan", behind, 1);
}
