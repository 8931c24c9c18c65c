//! Places for bags that threads share, on one thread.
ghost use Rattle.std.specs.Prelude.{◌≡◌, ◌<◌, ◌≤◌};
ghost use Rattle.epoch_tables.specs.SharedPlaces.{IsPlaceSeatOf, IsSamePlaceSeat};
ghost use Rattle.epoch_tables.specs.SharedSteps.{TakesAt};

use crate::wants::{want, want_word};
use epoch::Seated;
use epoch::bag::{Bag, SealedBag};
use epoch::epoch::{Epoch, GREATEST_EPOCH};
use epoch::queue::{
    ClosedPlaces, PlaceSeat, PutCursor, PutStep, SharedPlaces, TakeCursor, TakeStep,
};
use std::process::Abort;

/// A job that is only its number.
#[derive(Clone, Copy, Default)]
pub(crate) struct Number(pub(crate) u64);

impl Seated for Number {}

/// A bag that holds this one job.
pub(crate) fn bag_of<J: Default + Drop>(job: J) -> Bag<J> {
    let mut bag = Bag::new();
    let _ = bag.try_push(job);
    bag
}

/// The number of the bag's next job.
pub(crate) fn next_number(bag: &mut SealedBag<Number>) -> Option<u64> {
    Some(bag.take_next()?.0)
}

/// A bag of two jobs, which are this number and the next.
pub(crate) fn two_jobs(first: u64, seal: u64) -> SealedBag<Number>
    requires { seal ≤ GREATEST_EPOCH }
{
    let mut jobs = bag_of(Number(first));
    let _ = jobs.try_push(Number(first.wrapping_add(1)));
    jobs.seal(Epoch::new(seal))
}

/// The word of the place: 0 for an empty one, 2 for a claimed one, 2s + 1 for one with a bag sealed with s.
fn word_at(places: &SharedPlaces<Number>, place: usize) -> u64
    requires { place < places.now.capacity }
{
    let mut seat = places.seat();
    places.look(&mut seat, place)
}

/// Puts the bag into the place where it is empty and its claim is won, and else hands it back.
pub(crate) fn put_at(
    places: &SharedPlaces<Number>,
    place: usize,
    bag: SealedBag<Number>,
) -> Option<SealedBag<Number>>
    requires { place < places.now.capacity }
{
    let mut seat = places.seat();
    let mut put = Some(bag);
    if places.look(&mut seat, place) == 0 && places.claim(&mut seat, place, 0) == 0 {
        places.fill(&mut seat, place, &mut put);
    }
    put
}

/// Takes the bag out of the place where one is seen there and its claim is won.
pub(crate) fn take_at(places: &SharedPlaces<Number>, place: usize) -> Option<SealedBag<Number>>
    requires { place < places.now.capacity }
{
    let mut seat = places.seat();
    let word = places.look(&mut seat, place);
    let mut taken = None;
    if word % 2 == 1 && places.claim(&mut seat, place, word) == word {
        places.empty(&mut seat, place, &mut taken);
    }
    taken
}

/// The bag came out, was sealed with 3, and has these jobs.
fn want_pair(rt: &impl Abort, bag: Option<SealedBag<Number>>, first: u64, second: u64) {
    let mut out = bag.expect(rt, "the bag came out");
    want(rt, "its seal", out.seal(), 3);
    want(
        rt,
        "the oldest job first",
        next_number(&mut out),
        Some(first),
    );
    want(rt, "the other job", next_number(&mut out), Some(second));
    want(rt, "no other job", next_number(&mut out), None);
}

#[test]
fn a_bag_is_put_into_a_place_and_comes_out_whole(rt: HostRuntime) {
    let places: SharedPlaces<Number> = SharedPlaces::new(rt.alloc(), 2).expect(&rt, "memory");
    want_pair(&rt, put_and_taken(&rt, &places), 5, 6);
}

/// A bag that one participant has put into a place, and another has taken out.
fn put_and_taken(rt: &impl Abort, places: &SharedPlaces<Number>) -> Option<SealedBag<Number>>
    requires { 1 < places.now.capacity }
{
    let (mut seat, mut other) = (places.seat(), places.seat());
    let mut bag = Some(two_jobs(5, 3));
    want(rt, "a new place is empty", word_at(places, 1), 0);
    want_word(rt, "it is won", places.claim(&mut seat, 1, 0), 0);
    want(rt, "it is claimed", word_at(places, 1), 2);
    places.fill(&mut seat, 1, &mut bag);
    want(rt, "its bag is sealed with 3", word_at(places, 1), 7);
    want_word(rt, "it isn't empty", places.claim(&mut other, 1, 0), 7);
    want_word(rt, "it is taken", places.claim(&mut other, 1, 7), 7);
    places.empty(&mut other, 1, &mut bag);
    want(rt, "it is empty again", word_at(places, 1), 0);
    bag
}

#[test]
fn steps_pass_a_place_whose_claim_they_lost(rt: HostRuntime) {
    let places: SharedPlaces<Number> = SharedPlaces::new(rt.alloc(), 2).expect(&rt, "memory");
    let put = put_too_late(&rt, &places);
    want(&rt, "a put", put, (PutStep::Again, PutCursor::Look(1)));
    want(&rt, "the bag in place 0", word_at(&places, 0), 7);
    let taken = take_too_late(&rt, &places);
    want(
        &rt,
        "a collection",
        taken,
        (TakeStep::Again, TakeCursor::Look(1)),
    );
    want(&rt, "place 0 is empty", word_at(&places, 0), 0);
}

/// What a put does that has seen place 0 empty, after another bag was put there.
fn put_too_late(rt: &impl Abort, places: &SharedPlaces<Number>) -> (PutStep, PutCursor)
    requires { 1 < places.now.capacity }
{
    let mut seat = places.seat();
    let (mut held, mut cursor) = (bag_of(Number(50)), places.start_put());
    let looked = places.put_step(&mut seat, &mut cursor, Epoch::new(5), &mut held);
    want(rt, "it claims it next", cursor, PutCursor::Claim(0));
    let PutStep::Again = looked else {
        return (looked, cursor);
    };
    let back = put_at(places, 0, two_jobs(30, 3));
    want(rt, "another bag is put there", back.is_none(), true);
    let lost = places.put_step(&mut seat, &mut cursor, Epoch::new(5), &mut held);
    (lost, cursor)
}

/// What a collection does that has seen the bag in place 0, after another participant took it.
fn take_too_late(rt: &impl Abort, places: &SharedPlaces<Number>) -> (TakeStep, TakeCursor)
    requires { 1 < places.now.capacity }
{
    let mut seat = places.seat();
    let (expiry, mut cursor) = (Epoch::new(5), places.start_take());
    let mut hand = Bag::new().seal(Epoch::starting());
    let looked = places.take_step(&mut seat, &mut cursor, expiry, &mut hand);
    let TakeStep::Again = looked else {
        return (looked, cursor);
    };
    want_pair(rt, take_at(places, 0), 30, 31);
    let lost = places.take_step(&mut seat, &mut cursor, expiry, &mut hand);
    (lost, cursor)
}

/// A put of this one job until it has ended, which it does within three steps a place.
fn put(places: &SharedPlaces<Number>, seal: u64, job: u64) -> PutStep
    requires { seal ≤ GREATEST_EPOCH }
{
    let mut seat = places.seat();
    let mut held = bag_of(Number(job));
    let mut cursor = places.start_put();
    for _ in 0..3 * places.capacity() {
        let step = places.put_step(&mut seat, &mut cursor, Epoch::new(seal), &mut held);
        let PutStep::Again = step else {
            return step;
        };
    }
    PutStep::Again
}

/// A collection until it has got a bag or is over, within three steps a place, and the job of that bag.
fn take(
    places: &SharedPlaces<Number>,
    seat: &mut PlaceSeat<Number>,
    cursor: &mut TakeCursor,
    expiry: Epoch,
) -> (TakeStep, Option<u64>)
    requires of { IsPlaceSeatOf places.now seat.old }
    requires at { TakesAt places.now.capacity expiry.number cursor.old seat.old.me }
    ensures kept { IsSamePlaceSeat seat.old seat.new }
    ensures at { TakesAt places.now.capacity expiry.number cursor.new seat.new.me }
{
    let mut hand = Bag::new().seal(Epoch::starting());
    for _ in 0..3 * places.capacity() {
        let step = places.take_step(seat, cursor, expiry, &mut hand);
        let TakeStep::Again = step else {
            return (step, next_number(&mut hand));
        };
    }
    (TakeStep::Again, None)
}

// Bags are sealed with 3, 4 and 5, and the epoch is 6: the last isn't expired.
#[test]
fn a_collection_takes_the_expired_bags_one_after_the_other(rt: HostRuntime) {
    let places: SharedPlaces<Number> = SharedPlaces::new(rt.alloc(), 3).expect(&rt, "memory");
    want(&rt, "a first bag", put(&places, 3, 30), PutStep::Done);
    want(&rt, "a second one", put(&places, 5, 50), PutStep::Done);
    want(&rt, "a third one", put(&places, 4, 40), PutStep::Done);
    let mut seat = places.seat();
    let (expiry, mut cursor) = (Epoch::new(6), places.start_take());
    let first = take(&places, &mut seat, &mut cursor, expiry);
    want(&rt, "the first bag", first, (TakeStep::Got, Some(30)));
    let second = take(&places, &mut seat, &mut cursor, expiry);
    want(&rt, "the third one", second, (TakeStep::Got, Some(40)));
    want(&rt, "past the last place", cursor, TakeCursor::Look(3));
    let last = take(&places, &mut seat, &mut cursor, expiry);
    want(&rt, "no other one", last, (TakeStep::Empty, None));
    want(&rt, "it stays there", cursor, TakeCursor::Look(3));
    want(&rt, "the second bag is left", word_at(&places, 1), 11);
}

/// What is left in the next place; nothing past the last one.
fn next_of(closed: &mut ClosedPlaces<Number>) -> Option<SealedBag<Number>> {
    if closed.len() == 0 {
        return None;
    }
    closed.take_next()
}

/// Frees places with nothing left.
fn free(rt: &impl Abort, closed: ClosedPlaces<Number>) {
    assert!(rt; closed.len() == 0, "each place was taken out of");
    closed.free();
}

#[test]
fn closed_places_give_what_is_left_in_their_order(rt: HostRuntime) {
    let places: SharedPlaces<Number> = SharedPlaces::new(rt.alloc(), 3).expect(&rt, "memory");
    let back = put_at(&places, 1, two_jobs(5, 3));
    want(&rt, "the bag is put", back.is_none(), true);
    let mut closed = places.unshare().close();
    let first = next_of(&mut closed).is_none();
    want(&rt, "nothing in the first place", first, true);
    want_pair(&rt, next_of(&mut closed), 5, 6);
    let last = next_of(&mut closed).is_none();
    want(&rt, "nothing in the last place", last, true);
    free(&rt, closed);
}
