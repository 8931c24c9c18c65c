//! Changes of a pointer by what it was before, which try an exchange again if another one came first.
ghost use Rattle.std.specs.Prelude.{◌≡◌, ◌≢◌, ◌<◌, Option, IfOk, IfErr};
ghost use Rattle.epoch_cells.specs.declared.cells.name.Name.{Name};
ghost use Rattle.epoch_atomic.specs.Pointers.{HasName, IsPointerWord, IsRead, IsUnder};
ghost use Rattle.epoch_atomic.specs.declared.atomic.update.TagChange.TheVariants.{And, Or, Xor};
ghost use Rattle.epoch_atomic.specs.WordSteps.{ChangesTag, changed_tag};
ghost use Rattle.epoch_atomic.specs.WordSteps.WordStep.{Exchanges, Misses};
ghost use Rattle.epoch_atomic.specs.Updates.{EndsUnmade, WinsLast, pointer_of};

use crate::atomic::shared::Shared;
use crate::atomic::word::{SharedWord, number, pointer_word};
use crate::atomic::{Atomic, read};
use crate::{Pointable, tag_of};
use epoch_handles::Guard;
use std::sync::atomic::Ordering;

/// Why an update was not made. In both cases nothing was stored.
#[derive_where(Clone, Copy)]
pub enum UpdateFault<'g, T> {
    /// The function returned `None` for this pointer.
    Stopped(Shared<'g, T>),
    /// Each try was lost to other threads. This is the pointer that was found last.
    RanOut(Shared<'g, T>),
}

/// How the bits of a tag are changed.
#[derive(Clone, Copy)]
pub enum TagChange {
    /// The bits that aren't among these are cleared.
    And(usize),
    /// These bits are set.
    Or(usize),
    /// These bits are flipped.
    Xor(usize),
}

impl TagChange {
    // The tag after the change.
    fn of(self, tag: usize) -> usize
        ensures { result ≡ changed_tag self tag }
    {
        match self {
            TagChange::And(bits) => tag & bits,
            TagChange::Or(bits) => tag | bits,
            TagChange::Xor(bits) => tag ^ bits,
        }
    }
}

impl<T: Pointable, A: SharedWord> Atomic<T, A> {
    /// Loads the pointer, calls `f` on it, and exchanges it for the pointer that `f` returns. If the exchange is lost,
    /// it tries again with the pointer that it found, in at most `max_tries` tries. Returns the pointer before.
    ///
    /// `Stopped`: `f` returned `None`. `RanOut`: each exchange was lost; with `max_tries` 0, `f` isn't called. In both
    /// cases nothing was stored. The load and the exchanges act as `SeqCst`, whichever orderings are asked for.
    /// crossbeam-epoch has no such bound.
    pub fn fetch_update<'g, F: FnMut(Shared<'g, T>) -> Option<Shared<'g, T>> + Drop, W>(
        &self,
        set_order: Ordering,
        fetch_order: Ordering,
        max_tries: u64,
        guard: &'g Guard<'_, T, W>,
        f: F,
    ) -> Result<Shared<'g, T>, UpdateFault<'g, T>>
        requires { F.IsAlwaysCallable f }
        // An update calls its function at most `max_tries` times, and ends as the last call says. It calls the function
        // only on pointers of the guard's collector that the words found read as.
        ensures ok { IfOk result (λ before. (last : F) × WinsLast T.ALIGN guard.now.collector.now.id
            (A.did self.now.word) F.step f max_tries before last) }
        ensures ended { (last : F) × IfErr result (λ fault. EndsUnmade T.ALIGN guard.now.collector.now.id
            (A.did self.now.word) F.step f max_tries fault last) }

        ensures read { IfOk result (λ before. IsRead T.ALIGN before.name before.tag) }
        ensures seen { IfErr result (λ fault. IsRead T.ALIGN (pointer_of fault).name (pointer_of fault).tag) }
        ensures home { IfOk result (λ before. IsUnder guard.now.collector.now.id before.home) }
        ensures seen_home { IfErr result (λ fault. IsUnder guard.now.collector.now.id (pointer_of fault).home) }
    {
        let mut f = f;
        self.try_updates(set_order, fetch_order, max_tries, guard, &mut f)
    }

    // The tries of an update: what became of the function shows how often it was called.
    fn try_updates<'g, F: FnMut(Shared<'g, T>) -> Option<Shared<'g, T>>, W>(
        &self,
        set_order: Ordering,
        fetch_order: Ordering,
        max_tries: u64,
        guard: &'g Guard<'_, T, W>,
        f: &mut F,
    ) -> Result<Shared<'g, T>, UpdateFault<'g, T>>
        requires { F.IsAlwaysCallable f.old }
        ensures ok { IfOk result (λ before. WinsLast T.ALIGN guard.now.collector.now.id (A.did self.now.word)
            F.step f.old max_tries before f.new) }
        ensures ended { IfErr result (λ fault. EndsUnmade T.ALIGN guard.now.collector.now.id (A.did self.now.word)
            F.step f.old max_tries fault f.new) }
        ensures read { IfOk result (λ before. IsRead T.ALIGN before.name before.tag) }
        ensures seen { IfErr result (λ fault. IsRead T.ALIGN (pointer_of fault).name (pointer_of fault).tag) }
        ensures home { IfOk result (λ before. IsUnder guard.now.collector.now.id before.home) }
        ensures seen_home { IfErr result (λ fault. IsUnder guard.now.collector.now.id (pointer_of fault).home) }
    {
        let mut seen = self.word.load(fetch_order);
        for _ in 0..max_tries {
            let before = read(seen, guard);
            let Some(next) = f(before) else {
                return Err(UpdateFault::Stopped(before));
            };
            let word = pointer_word::<T>(next.name, next.tag);
            match self.exchange_word(seen, word, set_order, fetch_order) {
                Ok(_) => return Ok(before),
                Err(found) => seen = found,
            }
        }
        Err(UpdateFault::RanOut(read(seen, guard)))
    }

    /// Clears the bits of the tag that aren't set in `tag`, and returns the pointer before.
    ///
    /// It loads the pointer, and then tries an exchange until it wins one. Each of these acts as `SeqCst`, whichever
    /// ordering is asked for. In crossbeam-epoch it is one atomic operation.
    pub fn fetch_and<'g, W>(
        &self,
        tag: usize,
        order: Ordering,
        guard: &'g Guard<'_, T, W>,
    ) -> Shared<'g, T>
        ensures read { IsRead T.ALIGN result.name result.tag }
        ensures below { result.tag < T.ALIGN }
        ensures home { IsUnder guard.now.collector.now.id result.home }
        ensures did { ChangesTag T.ALIGN (A.did self.now.word) (And tag) result }
    {
        self.change_tag(TagChange::And(tag), order, guard)
    }

    /// Sets the bits of the tag that are set in `tag`, and returns the pointer before.
    ///
    /// It loads the pointer, and then tries an exchange until it wins one. Each of these acts as `SeqCst`, whichever
    /// ordering is asked for. In crossbeam-epoch it is one atomic operation.
    pub fn fetch_or<'g, W>(
        &self,
        tag: usize,
        order: Ordering,
        guard: &'g Guard<'_, T, W>,
    ) -> Shared<'g, T>
        // A pointer that is read is what some word reads as: null has turn 0, the slot fits, and the tag is below the
        // alignment. The pointer is of the guard's collector.
        ensures read { IsRead T.ALIGN result.name result.tag }
        ensures below { result.tag < T.ALIGN }
        ensures home { IsUnder guard.now.collector.now.id result.home }

        ensures did { ChangesTag T.ALIGN (A.did self.now.word) (Or tag) result }
    {
        self.change_tag(TagChange::Or(tag), order, guard)
    }

    /// Flips the bits of the tag that are set in `tag`, and returns the pointer before.
    ///
    /// It loads the pointer, and then tries an exchange until it wins one. Each of these acts as `SeqCst`, whichever
    /// ordering is asked for. In crossbeam-epoch it is one atomic operation.
    pub fn fetch_xor<'g, W>(
        &self,
        tag: usize,
        order: Ordering,
        guard: &'g Guard<'_, T, W>,
    ) -> Shared<'g, T>
        ensures read { IsRead T.ALIGN result.name result.tag }
        ensures below { result.tag < T.ALIGN }
        ensures home { IsUnder guard.now.collector.now.id result.home }
        ensures did { ChangesTag T.ALIGN (A.did self.now.word) (Xor tag) result }
    {
        self.change_tag(TagChange::Xor(tag), order, guard)
    }

    // Changes the tag, modulo the alignment, and answers the pointer before.
    fn change_tag<'g, W>(
        &self,
        change: TagChange,
        order: Ordering,
        guard: &'g Guard<'_, T, W>,
    ) -> Shared<'g, T>
        ensures read { IsRead T.ALIGN result.name result.tag }
        ensures below { result.tag < T.ALIGN }
        ensures home { IsUnder guard.now.collector.now.id result.home }
        ensures did { ChangesTag T.ALIGN (A.did self.now.word) change result }
    {
        let mut seen = self.word.load(order);
        // No try is lost that often.
        for _ in 0..u64::MAX {
            let before = read(seen, guard);
            let tag = tag_of::<T>(change.of(before.tag()));
            let word = number(before.name, tag);
            match self.exchange_tag(seen, word, order) {
                Ok(_) => return before,
                Err(found) => seen = found,
            }
        }
        read(seen, guard)
    }

    // Exchanges the word for one with the same name in it.
    fn exchange_tag(&self, expected: u64, new: u64, order: Ordering) -> Result<u64, u64>
        requires rule { IsPointerWord new }
        requires same_name { (name : Option Name) × HasName expected name × HasName new name }
        ensures ok { IfOk result (λ found. found ≡ expected) }
        ensures err { IfErr result (λ found. (found ≢ expected) × IsPointerWord found) }
        ensures won { IfOk result (λ found. A.did self.now.word (Exchanges expected new)) }
        ensures lost { IfErr result (λ found. A.did self.now.word (Misses expected found)) }
    {
        self.exchange_word(expected, new, order, order)
    }
}
