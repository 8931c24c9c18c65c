//! Sessions of a domain of two posts, and its clock, on one thread.
use crate::wants::want;
use epoch_lend::domain::Domain;
use epoch_lend::readers::posts::PostSet;
use epoch_lend::session::{LendingGuard, Session};
use epoch_lend_pointers::{ScopedSession, pinned, staying};
use std::process::Abort;

/// A session, for which a post is free.
pub(crate) fn session<'d, J: PostSet>(rt: &impl Abort, domain: &'d Domain<J>) -> Session<'d, J> {
    domain.session().expect(rt, "a free post")
}

/// A session for closures, for which a post is free.
pub(crate) fn scoped<'d, J: PostSet>(
    rt: &impl Abort,
    domain: &'d Domain<J>,
) -> ScopedSession<'d, J> {
    ScopedSession::of(domain).expect(rt, "a free post")
}

/// Pins the session, of which no guard is out.
pub(crate) fn pin<'d, J: PostSet>(
    rt: &impl Abort,
    session: &mut Session<'d, J>,
) -> LendingGuard<'d, J> {
    assert!(rt; session.can_pin(), "no guard of the session is out");
    session.pin()
}

/// Whether one more session finds a post.
pub(crate) fn has_post<J: PostSet>(domain: &Domain<J>) -> bool {
    domain.session().is_some()
}

/// The epoch of the guard's pin.
pub(crate) fn epoch_of<J: PostSet>(guard: &LendingGuard<'_, J>) -> u64 {
    guard.pinned().epoch()
}

/// What the clock shows, and the least epoch that is pinned.
fn seen<J: PostSet>(domain: &Domain<J>) -> (u64, u64) {
    let seen = domain.least_pinned();
    (seen.clock, seen.least)
}

/// As many sessions have posts as there are, which are two.
pub(crate) fn takes_posts<J: PostSet>(rt: &impl Abort, domain: &Domain<J>) {
    want(rt, "there are two posts", domain.sessions(), 2);
    let mut first = session(rt, domain);
    let second = session(rt, domain);
    want(rt, "a third session finds none", has_post(domain), false);
    drop(second);
    want(
        rt,
        "a dropped one gave its own back",
        has_post(domain),
        true,
    );
    let second = session(rt, domain);
    second.release();
    want(rt, "and so did a released one", has_post(domain), true);
    let guard = pin(rt, &mut first);
    want(rt, "a session has one guard out", first.can_pin(), false);
    let second = session(rt, domain);
    drop(first);
    want(rt, "whose post it keeps", has_post(domain), false);
    guard.release();
    want(rt, "until it is released", has_post(domain), true);
    drop(second);
    let numbers = (domain.next_number(), domain.next_number());
    want(rt, "numbers differ", numbers.0 == numbers.1, false);
}

/// A guard stays in the epoch in which it was pinned, until it is renewed or given back.
pub(crate) fn goes_with_the_clock<J: PostSet>(rt: &impl Abort, domain: &Domain<J>) {
    let (mut first, mut second) = (session(rt, domain), session(rt, domain));
    want(rt, "no session is pinned", seen(domain), (1, u64::MAX));
    let early = pin(rt, &mut first);
    want(rt, "a pin is in the clock's epoch", seen(domain), (1, 1));
    want(rt, "the clock goes on", domain.tick(), 2);
    let late = pin(rt, &mut second);
    let pinned = (epoch_of(&early), epoch_of(&late));
    want(rt, "the earlier pin stays in its epoch", pinned, (1, 2));
    want(rt, "and is the least", seen(domain), (2, 1));
    let early = early.renew();
    want(rt, "until it is renewed", seen(domain), (2, 2));
    let early = early.renew();
    want(rt, "then it stays again", epoch_of(&early), 2);
    want(rt, "the clock goes on", domain.tick(), 3);
    let late = late.renew();
    want(
        rt,
        "past the guard that isn't renewed",
        seen(domain),
        (3, 2),
    );
    first.unpin(early);
    want(rt, "until it is back", seen(domain), (3, 3));
    second.unpin(late);
    want(rt, "then none is pinned", seen(domain), (3, u64::MAX));
}

/// The epoch in which this session pins now, and what is seen meanwhile.
fn seen_in<J: PostSet>(
    session: &mut ScopedSession<'_, J>,
    domain: &Domain<J>,
) -> (u64, (u64, u64)) {
    pinned(session, |guard| (epoch_of(guard), seen(domain)))
}

/// What is seen during a stay: before its first pin, after that, and when the clock has gone on and it pins again.
fn seen_during<J: PostSet>(
    session: &mut ScopedSession<'_, J>,
    domain: &Domain<J>,
) -> [(u64, u64); 4] {
    staying(session, |session| {
        let before = seen(domain);
        let _ = seen_in(session, domain);
        let after = seen(domain);
        domain.tick();
        let behind = seen(domain);
        let _ = staying(session, |session| seen_in(session, domain));
        [before, after, behind, seen(domain)]
    })
}

/// A session for closures is pinned while one runs, or until its stay is over.
pub(crate) fn pins_for_closures<J: PostSet>(rt: &impl Abort, domain: &Domain<J>) {
    let mut first = scoped(rt, domain);
    let second = scoped(rt, domain);
    let third = ScopedSession::of(domain);
    want(rt, "a third session finds no post", third.is_none(), true);
    drop(second);
    want(rt, "a dropped one gave its own", has_post(domain), true);
    let (clock, none) = seen(domain);
    want(rt, "no session is pinned", none, u64::MAX);
    let during = seen_in(&mut first, domain);
    want(rt, "one is", during, (clock, (clock, clock)));
    want(rt, "until the closure is over", seen(domain), (clock, none));
    let next = clock.wrapping_add(1);
    let during = seen_during(&mut first, domain);
    let wanted = [(clock, none), (clock, clock), (next, clock), (next, next)];
    want(rt, "a stay goes on, and renews its pin", during, wanted);
    want(rt, "until it is over", seen(domain), (next, none));
    drop(first);
    want(rt, "it gave its post back, too", has_post(domain), true);
}
