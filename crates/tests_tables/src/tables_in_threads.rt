//! Threads that share the tables, each for a bounded number of rounds.
ghost use Rattle.std.specs.Prelude.{◌≡◌, ◌<◌, Some};
ghost use Rattle.epoch_tables.specs.Table.{IsOf, IsSameSeat};

use crate::shared_places::{Number, next_number, put_at, take_at, two_jobs};
use crate::tables::{claimed, epoch_word};
use crate::threads::{Work, count, counts_of, ones_and_more, side_by_side};
use crate::wants::want;
use epoch::bag::SealedBag;
use epoch::epoch::GREATEST_EPOCH;
use epoch::queue::SharedPlaces;
use epoch::table::{ParticipantSeat, Participants};
use std::sync::atomic::AtomicU64;
use std::sync::atomic::Ordering::SeqCst;
use std::thread;

/// Pins, scans all words for the epoch read then, and stores the next one where no word holds the scan up. Returns the
/// epoch then.
fn pin_and_advance(table: &Participants<Number>, seat: &mut ParticipantSeat, position: usize) -> u64
    requires of { IsOf table.now seat.old }
    requires own { (seat.old.me.0.position ≡ Some position) × (position < table.now.positions) }
    ensures kept { IsSameSeat seat.old seat.new }
    ensures own { seat.new.me.0.position ≡ Some position }
{
    let published = table.load_epoch_word(seat) / 2;
    table.publish(seat, position, published);
    let epoch = table.load_epoch_word(seat) / 2;
    for other in 0..table.positions() {
        let word = table.load_word(seat, other);
        if word % 2 == 1 && word != 2 * epoch + 1 {
            return epoch;
        }
    }
    if epoch >= GREATEST_EPOCH {
        return epoch;
    }
    table.advance(seat, epoch);
    epoch + 1
}

/// Claims the position, pins, tries to advance, unpins and frees it. Returns whether the claim was won.
fn visit(table: &Participants<Number>, position: usize, greatest: &AtomicU64) -> bool
    requires { position < table.now.positions }
{
    let mut seat = table.seat();
    if table.claim(&mut seat, position) != 0 {
        return false;
    }
    greatest.fetch_max(pin_and_advance(table, &mut seat, position), SeqCst);
    table.unpin(&mut seat, position);
    table.free(&mut seat, position);
    true
}

/// What participants share: their table, and the greatest epoch that one of them has read or stored.
#[derive(Drop)]
struct Visits<'a> {
    table: &'a Participants<Number>,
    greatest: &'a AtomicU64,
}

impl Visits<'_> {
    /// Visits the first position whose claim is won.
    fn visit(&self) {
        for position in 0..self.table.positions() {
            if visit(self.table, position, self.greatest) {
                break;
            }
        }
    }
}

impl Work for Visits<'_> {
    fn work(&self, _number: u64) {
        for _ in 0..2_000u64 {
            self.visit();
        }
    }
}

/// How many positions a new seat can claim.
fn free_positions(table: &Participants<Number>) -> u64 {
    let mut free: u64 = 0;
    for position in 0..table.positions() {
        if claimed(table, position) == 0 {
            free = free.wrapping_add(1);
        }
    }
    free
}

// Of 8000 scans each raises the epoch by one at most, and the first raises it.
#[test]
fn participants_at_once_leave_all_words_free(rt: HostRuntime) {
    let table: Participants<Number> = Participants::new(rt.alloc(), 3).expect(&rt, "memory");
    let greatest = AtomicU64::new(0);
    let visits = Visits {
        table: &table,
        greatest: &greatest,
    };
    side_by_side(&rt, 4, &visits);
    let now = greatest.load(SeqCst);
    let epoch = epoch_word(&table) / 2;
    want(&rt, "the epoch is the greatest of all answers", epoch, now);
    want(&rt, "it is from 1 to 8000", now.clamp(1, 8_000), now);
    visits.work(0);
    let epoch = epoch_word(&table) / 2;
    let wanted = now.wrapping_add(2_000);
    want(&rt, "alone, each scan raises it", epoch, wanted);
    want(&rt, "each word is 0", free_positions(&table), 3);
}

/// Puts the bag into the first place that takes it, and answers whether one did.
fn put(places: &SharedPlaces<Number>, bag: SealedBag<Number>) -> bool {
    let mut held = bag;
    for place in 0..places.capacity() {
        match put_at(places, place, held) {
            None => return true,
            Some(back) => held = back,
        }
    }
    false
}

/// What threads share that put bags or call jobs: the places, the calls of each job, and how many bags found no place.
#[derive(Drop)]
struct Jobs<'a> {
    places: &'a SharedPlaces<Number>,
    calls: &'a [AtomicU64],
    refused: &'a AtomicU64,
}

impl Jobs<'_> {
    /// Puts 8 bags of two jobs each, which are the numbers from `first` on, sealed with 0, 1, 2 and so on.
    fn put_bags(&self, first: u64) {
        for seal in 0..8u64 {
            if !put(self.places, two_jobs(first.wrapping_add(2 * seal), seal)) {
                self.refused.fetch_add(1, SeqCst);
            }
        }
    }

    /// Calls the two jobs of the bag.
    fn call_two(&self, bag: SealedBag<Number>) {
        let mut jobs = bag;
        for _ in 0..2 {
            if let Some(job) = next_number(&mut jobs) {
                count(self.calls, job);
            }
        }
    }

    /// Takes bags and calls their jobs, until all jobs were called.
    fn call_jobs(&self) {
        for _ in 0..10_000_000u64 {
            for place in 0..self.places.capacity() {
                if let Some(bag) = take_at(self.places, place) {
                    self.call_two(bag);
                }
            }
            if ones_and_more(self.calls) == (32, 0) {
                break;
            }
            thread::yield_now();
        }
    }
}

impl Work for Jobs<'_> {
    /// Threads 0 and 2 put bags, and the others call their jobs.
    fn work(&self, number: u64) {
        match number {
            0 => self.put_bags(0),
            2 => self.put_bags(16),
            _ => self.call_jobs(),
        }
    }
}

#[test]
fn jobs_of_several_threads_are_each_called_once(rt: HostRuntime) {
    let places: SharedPlaces<Number> = SharedPlaces::new(rt.alloc(), 16).expect(&rt, "memory");
    let refused = AtomicU64::new(0);
    let calls = counts_of(&rt, rt.alloc(), 32);
    let jobs = Jobs {
        places: &places,
        calls: &calls,
        refused: &refused,
    };
    side_by_side(&rt, 4, &jobs);
    let refused = refused.load(SeqCst);
    want(&rt, "16 places are enough for 16 bags", refused, 0);
    want(&rt, "each job, once", ones_and_more(&calls), (32, 0));
}
