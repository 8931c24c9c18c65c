//! Sessions that are pinned for as long as a closure runs, so that their callers need no clause.
ghost use Rattle.std.specs.Prelude.{◌≡◌, None, IsSome};
ghost use Rattle.std.specs.Fn.{FnOnceReturnsAt, FnOnceReturnsAtMut};

use epoch_lend::domain::Domain;
use epoch_lend::readers::posts::PostSet;
use epoch_lend::session::{LendingGuard, Session};

/// What [`pinned`] and [`staying`] do with a session. There is one type of such sessions, [`ScopedSession`].
pub trait PinsScopes: Sized {
    /// The guard that a closure is given.
    type Guard;

    /// Pins, or renews the pin of a stay.
    fn begin_pin(&mut self) -> &Self::Guard;

    /// Ends the pin, unless a stay goes on.
    fn end_pin(&mut self);

    /// Begins a stay, and returns whether one went on before.
    fn begin_stay(&mut self) -> bool;

    /// Ends the stay and its pin, unless one went on before.
    fn end_stay(&mut self, went_on: bool);
}

/// Pins, calls the closure with the guard, ends the pin, and returns what the closure returned. During a stay, the pin
/// of the stay is renewed instead, and goes on.
#[inline(always)]
pub fn pinned<S: PinsScopes, R: Drop, F: FnOnce(&S::Guard) -> R + Drop>(
    session: &mut S,
    body: F,
) -> R
    requires { F.IsAlwaysCallable body }
    // A call that pins returns what its closure returned for a guard.
    ensures ran { (guard : S.Guard) × FnOnceReturnsAt F.FnOnce body guard result }
{
    let result = body(session.begin_pin());
    session.end_pin();
    result
}

/// Calls the closure with the session, which stays pinned from the first [`pinned`] in there on, and returns what the
/// closure returned. Each further [`pinned`] in there renews the pin, and stores nothing while the clock hasn't moved.
///
/// While the closure waits or sleeps, what other threads retire waits for it.
#[inline(always)]
pub fn staying<S: PinsScopes, R: Drop, F: FnOnce(&mut S) -> R + Drop>(session: &mut S, body: F) -> R
    requires { F.IsAlwaysCallable body }
    // A call that stays returns what its closure returned for a session.
    ensures ran { (before : S) × (after : S) × FnOnceReturnsAtMut F.FnOnce body before result after }
{
    let went_on = session.begin_stay();
    let result = body(&mut *session);
    session.end_stay(went_on);
    result
}

/// A session for [`pinned`] and [`staying`]. Dropped, it gives its post back.
pub struct ScopedSession<'d, J: PostSet> {
    session: Session<'d, J>,
    // There is one while it is pinned.
    guard: Option<LendingGuard<'d, J>>,
    stays: bool,
    ghost free: { guard ≡ None → IsSome session.reader },
}

impl<'d, J: PostSet> ScopedSession<'d, J> {
    /// Takes a post of the domain that no session has. `None`: each post was seen with a session.
    pub fn of(domain: &'d Domain<J>) -> Option<ScopedSession<'d, J>> {
        let session = domain.session()?;
        Some(ScopedSession {
            session,
            guard: None,
            stays: false,
        })
    }

    // Ends the pin, if there is one.
    #[inline(always)]
    fn leave(&mut self) {
        if let Some(guard) = self.guard.take() {
            self.session.unpin(guard);
        }
    }
}

impl<'d, J: PostSet> PinsScopes for ScopedSession<'d, J> {
    type Guard = LendingGuard<'d, J>;

    #[inline(always)]
    fn begin_pin(&mut self) -> &LendingGuard<'d, J> {
        let guard = match self.guard.take() {
            Some(guard) => guard.renew(),
            None => self.session.pin(),
        };
        if let Some(other) = self.guard.replace(guard) {
            other.release();
        }
        match &self.guard {
            Some(guard) => guard,
            None => unreachable!(),
        }
    }

    #[inline(always)]
    fn end_pin(&mut self) {
        if !self.stays {
            self.leave();
        }
    }

    #[inline(always)]
    fn begin_stay(&mut self) -> bool {
        let went_on = self.stays;
        self.stays = true;
        went_on
    }

    #[inline(always)]
    fn end_stay(&mut self, went_on: bool) {
        self.stays = went_on;
        self.end_pin();
    }
}

impl<J: PostSet> Drop for ScopedSession<'_, J> {
    fn drop(self) {
        let Self {
            session,
            guard,
            stays: _,
        } = self;
        if let Some(guard) = guard {
            guard.release();
        }
        session.release();
    }
}
