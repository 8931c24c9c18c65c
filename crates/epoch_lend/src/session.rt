//! Sessions, which pin at posts of a domain, and guards, to which values are lent.
ghost use Rattle.std.specs.Prelude.{◌≡◌, ◌⊎◌, ◌↔◌, IsTrue, IsSome, IfSome};
ghost use Rattle.epoch_lend.specs.Grace.{Repins, TellsCurrent};
ghost use Rattle.epoch_lend.specs.Grace.PinStep.{LoadsClock, Publishes, Unpins};

use crate::domain::Domain;
use crate::readers::posts::PostSet;
use crate::readers::reader::{Pinned, Reader};
use crate::steps::{HasPinSteps, PinSteps};

/// One post of a domain, for one thread at a time. Dropped, it gives the post back, unless a guard has it.
#[derive(Drop)]
pub struct Session<'d, J: PostSet> {
    // `None` while a guard is out.
    pub(crate) reader: Option<Reader<'d, J>>,
    pub(crate) domain: &'d Domain<J>,
}

/// A guard of a pin, to which values of each store of the domain are lent. It must go back to [`Session::unpin`].
///
/// What is lent under a reference to it stays for as long as that reference does.
pub struct LendingGuard<'d, J: PostSet> {
    pub(crate) pinned: Pinned<'d, J>,
    domain: &'d Domain<J>,
}

impl<'d, J: PostSet> Session<'d, J> {
    /// Returns whether it can be pinned: no guard of it is out.
    #[inline(always)]
    pub fn can_pin(&self) -> bool
        ensures { IsTrue result ↔ IsSome self.now.reader }
    {
        self.reader.is_some()
    }

    /// Returns the domain.
    #[inline(always)]
    pub fn domain(&self) -> &'d Domain<J>
        ensures { result.now ≡ self.now.domain.now }
    {
        self.domain
    }

    /// Pins, by one load of the clock and one store of its epoch to the post. [`Session::can_pin`] must hold.
    #[inline(always)]
    pub fn pin<S: PinSteps>(&mut self) -> LendingGuard<'d, J>
    where
        J: HasPinSteps<S>,
        requires free { IsSome self.old.reader }
        ensures position { IfSome self.old.reader
            (λ reader. result.pinned.position ≡ reader.right.position) }
        // A pin loads the clock, and publishes the epoch that it found at the session's post. An unpin ends the pin at
        // that post.
        ensures loads { S.did J.posts (LoadsClock result.pinned.guard.epoch) }
        ensures publishes { S.did J.posts (Publishes result.pinned.position result.pinned.guard.epoch) }
    {
        let Some(reader) = self.reader.take() else {
            unreachable!()
        };
        let epoch = S::load_clock(self.domain);
        let pinned = S::publish(reader, epoch);
        LendingGuard::of(pinned, self.domain)
    }

    /// Takes a guard back, and ends its pin, by one store to its post. What the guard lent has ended.
    #[inline(always)]
    pub fn unpin<S: PinSteps>(&mut self, guard: LendingGuard<'d, J>)
    where
        J: HasPinSteps<S>,
        ensures free { IsSome self.new.reader }
        ensures position { IfSome self.new.reader
            (λ reader. reader.right.position ≡ guard.entry.pinned.position) }
        ensures unpins { S.did J.posts (Unpins guard.entry.pinned.position) }
    {
        let LendingGuard { pinned, domain: _ } = guard;
        // The reader is stored behind the exchange, which waits for the stores before it.
        let reader = S::unpin(pinned);
        self.reader = Some(reader);
    }

    /// Gives the post back, for another session. A guard that is out has the post: [`LendingGuard::release`].
    pub fn release(self) {
        if let Some(reader) = self.reader {
            reader.release();
        }
    }
}

impl<'d, J: PostSet> LendingGuard<'d, J> {
    // Makes a guard of its parts. A function of its own makes it, so that it is stored behind the exchange of a pin,
    // which waits for the stores before it.
    #[inline(always)]
    fn of(pinned: Pinned<'d, J>, domain: &'d Domain<J>) -> LendingGuard<'d, J>
        ensures { result.pinned ≡ pinned.entry }
    {
        LendingGuard { pinned, domain }
    }

    /// Returns the pin, for stores.
    #[inline(always)]
    pub fn pinned(&self) -> &Pinned<'d, J>
        ensures { result.now ≡ self.now.pinned }
    {
        &self.pinned
    }

    /// Returns the domain.
    #[inline(always)]
    pub fn domain(&self) -> &'d Domain<J>
        ensures { result.now ≡ self.now.domain.now }
    {
        self.domain
    }

    /// Returns whether the clock still shows the epoch of the pin, by one load: if so, [`LendingGuard::renew`] would
    /// store nothing. Under one guard that is current, a loop may read as often as it likes and hold nothing back that
    /// other threads retire.
    #[inline(always)]
    pub fn is_current<S: PinSteps>(&self) -> bool
    where
        J: HasPinSteps<S>,
        // A guard is current if and only if the clock, which the call loads, shows the epoch of its pin.
        ensures did { TellsCurrent (S.did J.posts) self.now.pinned.guard.epoch result }
    {
        S::load_clock(self.domain) == self.pinned.epoch()
    }

    /// Returns a guard pinned in the epoch that the clock shows now. What was lent before can't be used any more.
    ///
    /// While the clock hasn't moved it is the same pin, and nothing is stored. Otherwise the post is stored to twice.
    #[inline(always)]
    pub fn renew<S: PinSteps>(self) -> LendingGuard<'d, J>
    where
        J: HasPinSteps<S>,
        ensures position { result.pinned.position ≡ self.entry.pinned.position }
        // A guard that is renewed is of the epoch that the clock showed, at the same post. It is of the epoch as
        // before, or the pin ended and another one began.
        ensures loads { S.did J.posts (LoadsClock result.pinned.guard.epoch) }
        ensures repins { (result.pinned.guard.epoch ≡ self.entry.pinned.guard.epoch)
            ⊎ Repins (S.did J.posts) result.pinned.position result.pinned.guard.epoch }
    {
        let LendingGuard { pinned, domain } = self;
        let epoch = S::load_clock(domain);
        if pinned.epoch() == epoch {
            return LendingGuard::of(pinned, domain);
        }
        LendingGuard::of(S::repin(pinned, epoch), domain)
    }

    /// Ends the pin, and gives the post back, for another session: for a guard whose session is gone.
    pub fn release(self) {
        let LendingGuard { pinned, domain: _ } = self;
        pinned.unpin().release();
    }
}
