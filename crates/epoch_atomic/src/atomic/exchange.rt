//! Exchanges of one pointer for another.
ghost use Rattle.std.specs.Prelude.{◌≡◌, ◌≢◌, IfOk, IfErr};
ghost use Rattle.epoch_atomic.specs.Pointers.{IsPointerWord, BecomesBelow, BecomesBoth, IsUnder};
ghost use Rattle.epoch_atomic.specs.WordSteps.{ExchangesPointer, MissesPointer};
ghost use Rattle.epoch_atomic.specs.WordSteps.WordStep.{Exchanges, Misses};
ghost use Rattle.epoch_atomic.specs.Exchanges.{OnChanged, OnFull, OnStuck, FindsAnother, AnswersUnder};

use crate::atomic::pointer::Pointer;
use crate::atomic::shared::Shared;
use crate::atomic::word::{SharedWord, pointer_word};
use crate::atomic::{Atomic, read};
use crate::{CompareAndSetOrdering, Pointable};
use epoch_handles::Guard;
use std::sync::atomic::Ordering;

/// What a lost exchange found, and the new pointer, which is handed back.
#[derive(Drop)]
pub struct CompareExchangeError<'g, T, P> {
    /// The pointer that was found.
    pub current: Shared<'g, T>,
    /// The pointer, or the owned value, that was not stored.
    pub new: P,
}

/// Another name of [`CompareExchangeError`].
pub type CompareAndSetError<'g, T, P> = CompareExchangeError<'g, T, P>;

/// Why an exchange was not made. In each case nothing was stored.
#[derive(Drop)]
pub enum ExchangeFault<'g, T, P> {
    /// Another pointer, or another tag, was found.
    Changed(CompareExchangeError<'g, T, P>),
    /// The cells are full, so the owned value couldn't be placed. It is handed back.
    Full(P),
    /// The exchange was lost, and the owned value that was placed for it couldn't be taken back: another thread holds
    /// it, or has removed it. This is the pointer to it.
    Stuck(Shared<'g, T>),
}

impl<T: Pointable, A: SharedWord> Atomic<T, A> {
    /// Stores `new` if the pointer is `current`, with the same tag, and returns the pointer that it wrote.
    ///
    /// An owned value is placed in a cell first, and is taken back if the exchange is lost. An [`ExchangeFault`] says
    /// all that the call left. Each pointer that is returned is under this guard. The exchange acts as `SeqCst`,
    /// whichever orderings are asked for.
    #[inline(always)]
    pub fn compare_exchange<'g, P: Pointer<'g, T>, W>(
        &self,
        current: Shared<'_, T>,
        new: P,
        success: Ordering,
        failure: Ordering,
        guard: &'g Guard<'_, T, W>,
    ) -> Result<Shared<'g, T>, ExchangeFault<'g, T, P>>
        // An exchange that is won returns the pointer given. A lost one returns a pointer whose name or tag isn't that
        // of `current`, and hands `new` back.
        ensures ok { IfOk result (λ written. BecomesBelow T.ALIGN (P.becomes new) written.name written.tag) }
        ensures changed { IfErr result
            (λ fault. OnChanged fault (λ found back. FindsAnother T.ALIGN current.entry found)) }
        ensures handed_back { IfErr result
            (λ fault. OnChanged fault (λ found back. BecomesBoth (P.becomes new) (P.becomes back))) }
        ensures full { IfErr result (λ fault. OnFull fault (λ back. P.takes_cell × (back ≡ new))) }
        ensures stuck { IfErr result
            (λ fault. OnStuck fault (λ stuck. P.takes_cell × P.becomes new stuck.name stuck.tag)) }

        ensures won { IfOk result (ExchangesPointer T.ALIGN (A.did self.now.word) current.entry) }
        ensures lost { IfErr result (λ fault.
            OnChanged fault (λ found back. MissesPointer T.ALIGN (A.did self.now.word) current.entry found)) }
        // Each pointer that an exchange or an update returns is of the guard's collector, won or lost.
        ensures home { IfOk result (λ written. IsUnder guard.now.collector.now.id written.home) }
        ensures fault_home { IfErr result (λ fault. AnswersUnder guard.now.collector.now.id fault) }
    {
        let expected = pointer_word::<T>(current.name, current.tag);
        let shared = match new.enter(guard) {
            Ok(shared) => shared,
            Err(new) => return Err(ExchangeFault::Full(new)),
        };
        let word = pointer_word::<T>(shared.name, shared.tag);
        let found = match self.exchange_word(expected, word, success, failure) {
            Ok(_) => return Ok(shared.under(guard).with_tag(shared.tag())),
            Err(found) => found,
        };
        match P::back(shared, guard) {
            Ok(new) => Err(ExchangeFault::Changed(CompareExchangeError {
                current: read(found, guard),
                new,
            })),
            Err(shared) => Err(ExchangeFault::Stuck(shared)),
        }
    }

    // One exchange of the word. The answer is the word that stood there.
    #[inline(always)]
    pub(crate) fn exchange_word(
        &self,
        expected: u64,
        new: u64,
        success: Ordering,
        failure: Ordering,
    ) -> Result<u64, u64>
        requires { IsPointerWord new }
        ensures ok { IfOk result (λ found. found ≡ expected) }
        ensures err { IfErr result (λ found. (found ≢ expected) × IsPointerWord found) }
        ensures won { IfOk result (λ found. A.did self.now.word (Exchanges expected new)) }
        ensures lost { IfErr result (λ found. A.did self.now.word (Misses expected found)) }
    {
        self.word.compare_exchange(expected, new, success, failure)
    }

    /// Does what [`Atomic::compare_exchange`] does. It doesn't fail if the pointer is `current`, as the weak exchange
    /// of crossbeam-epoch may.
    pub fn compare_exchange_weak<'g, P: Pointer<'g, T>, W>(
        &self,
        current: Shared<'_, T>,
        new: P,
        success: Ordering,
        failure: Ordering,
        guard: &'g Guard<'_, T, W>,
    ) -> Result<Shared<'g, T>, ExchangeFault<'g, T, P>>
        ensures ok { IfOk result (λ written. BecomesBelow T.ALIGN (P.becomes new) written.name written.tag) }
        ensures changed { IfErr result
            (λ fault. OnChanged fault (λ found back. FindsAnother T.ALIGN current.entry found)) }
        ensures handed_back { IfErr result
            (λ fault. OnChanged fault (λ found back. BecomesBoth (P.becomes new) (P.becomes back))) }
        ensures full { IfErr result (λ fault. OnFull fault (λ back. P.takes_cell × (back ≡ new))) }
        ensures stuck { IfErr result
            (λ fault. OnStuck fault (λ stuck. P.takes_cell × P.becomes new stuck.name stuck.tag)) }
        ensures won { IfOk result (ExchangesPointer T.ALIGN (A.did self.now.word) current.entry) }
        ensures lost { IfErr result (λ fault.
            OnChanged fault (λ found back. MissesPointer T.ALIGN (A.did self.now.word) current.entry found)) }
        ensures home { IfOk result (λ written. IsUnder guard.now.collector.now.id written.home) }
        ensures fault_home { IfErr result (λ fault. AnswersUnder guard.now.collector.now.id fault) }
    {
        self.compare_exchange(current, new, success, failure, guard)
    }

    /// Does what [`Atomic::compare_exchange`] does, with one ordering or a pair of them: [`CompareAndSetOrdering`]
    /// tells which pair one ordering stands for. In crossbeam-epoch this call is deprecated.
    pub fn compare_and_set<'g, P: Pointer<'g, T>, O: CompareAndSetOrdering + Drop, W>(
        &self,
        current: Shared<'_, T>,
        new: P,
        order: O,
        guard: &'g Guard<'_, T, W>,
    ) -> Result<Shared<'g, T>, ExchangeFault<'g, T, P>>
        ensures ok { IfOk result (λ written. BecomesBelow T.ALIGN (P.becomes new) written.name written.tag) }
        ensures changed { IfErr result
            (λ fault. OnChanged fault (λ found back. FindsAnother T.ALIGN current.entry found)) }
        ensures handed_back { IfErr result
            (λ fault. OnChanged fault (λ found back. BecomesBoth (P.becomes new) (P.becomes back))) }
        ensures full { IfErr result (λ fault. OnFull fault (λ back. P.takes_cell × (back ≡ new))) }
        ensures stuck { IfErr result
            (λ fault. OnStuck fault (λ stuck. P.takes_cell × P.becomes new stuck.name stuck.tag)) }
        ensures won { IfOk result (ExchangesPointer T.ALIGN (A.did self.now.word) current.entry) }
        ensures lost { IfErr result (λ fault.
            OnChanged fault (λ found back. MissesPointer T.ALIGN (A.did self.now.word) current.entry found)) }
        ensures home { IfOk result (λ written. IsUnder guard.now.collector.now.id written.home) }
        ensures fault_home { IfErr result (λ fault. AnswersUnder guard.now.collector.now.id fault) }
    {
        self.compare_exchange(current, new, order.success(), order.failure(), guard)
    }

    /// Does what [`Atomic::compare_and_set`] does. In crossbeam-epoch this call is deprecated.
    pub fn compare_and_set_weak<'g, P: Pointer<'g, T>, O: CompareAndSetOrdering + Drop, W>(
        &self,
        current: Shared<'_, T>,
        new: P,
        order: O,
        guard: &'g Guard<'_, T, W>,
    ) -> Result<Shared<'g, T>, ExchangeFault<'g, T, P>>
        ensures ok { IfOk result (λ written. BecomesBelow T.ALIGN (P.becomes new) written.name written.tag) }
        ensures changed { IfErr result
            (λ fault. OnChanged fault (λ found back. FindsAnother T.ALIGN current.entry found)) }
        ensures handed_back { IfErr result
            (λ fault. OnChanged fault (λ found back. BecomesBoth (P.becomes new) (P.becomes back))) }
        ensures full { IfErr result (λ fault. OnFull fault (λ back. P.takes_cell × (back ≡ new))) }
        ensures stuck { IfErr result
            (λ fault. OnStuck fault (λ stuck. P.takes_cell × P.becomes new stuck.name stuck.tag)) }
        ensures won { IfOk result (ExchangesPointer T.ALIGN (A.did self.now.word) current.entry) }
        ensures lost { IfErr result (λ fault.
            OnChanged fault (λ found back. MissesPointer T.ALIGN (A.did self.now.word) current.entry found)) }
        ensures home { IfOk result (λ written. IsUnder guard.now.collector.now.id written.home) }
        ensures fault_home { IfErr result (λ fault. AnswersUnder guard.now.collector.now.id fault) }
    {
        self.compare_exchange_weak(current, new, order.success(), order.failure(), guard)
    }
}
