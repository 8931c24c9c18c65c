//! One value, which is read all the time and replaced now and then.
ghost use Rattle.std.specs.Prelude.{◌≡◌, ◌⊎◌, true, false, Ok, Err, IsOk, IsSome, IsTrue, IfErr, IfSome};
ghost use Rattle.std.specs.Fn.{CalledAt, FnOnceReturnsAt};
ghost use Rattle.epoch_cells.specs.declared.fault.Fault.TheVariants.{CellsFull, NoMemory, TableFull, TriesOut};
ghost use Rattle.epoch_shared.specs.Contents.{IsInNode};
ghost use Rattle.epoch_shared.specs.Updates.{GoesOnOnce, Makes, MakesLast, StopsOnce};

use crate::leaving::leave;
use epoch_cells::{Fault, Refused};
use epoch_lend::readers::posts::PostSet;
use epoch_lend::session::{LendingGuard, Session};
use epoch_lend_pointers::{Atomic, Plain, Pointable, Store, Writer};
use std::alloc::Global;
use std::sync::atomic::Ordering::SeqCst;
use std::thread;

/// How often a call tries again while each cell is in use, or other threads win each exchange.
pub(crate) const TRIES: u32 = 1_000;

/// One thread's calls of a value that threads share. A call pins for as long as it lasts, and for no longer.
pub trait SharedValue<T> {
    /// A node was made of this value. If the type is a parameter, nothing but the calls below shows it.
    ghost is_value: { T → Type 0 };

    /// Looks at the present value, and returns what `look` makes of it. `None`: there is no value yet.
    ///
    /// It writes nothing that threads share, except that the thread is pinned. The value stays as it is until `look`
    /// returns, whatever other threads do.
    fn read<R: Drop, F: FnOnce(&T) -> R + Drop>(&mut self, look: F) -> Option<R>
        requires { F.IsAlwaysCallable look }
        // What a read returns is what its closure returned at a value of which a node was made.
        ensures given { IfSome result
            (λ made. (value : T) × is_value value × FnOnceReturnsAt F.FnOnce look value made) };

    /// Puts the value in the place of the present one, which is dropped once no thread reads it any more.
    ///
    /// `CellsFull`: each cell was in use, since a thread has stayed within a call, or memory for more was refused.
    /// `NoMemory`: another allocation was refused, or no place to wait was seen. The value comes back, and the present
    /// one stays.
    fn replace(&mut self, value: T) -> Result<(), Refused<T>>
        // Of a value that replaces the present one, a node was made. If it doesn't, it is handed back, with `CellsFull`
        // or `NoMemory`.
        ensures put { IsOk result → is_value value }
        ensures handed_back { IfErr result (λ refused. refused.value ≡ value) }
        ensures refused { IfErr result (λ refused. (refused.fault ≡ CellsFull) ⊎ (refused.fault ≡ NoMemory)) };

    /// Replaces the present value by what `change` makes of it, and calls `change` again if another thread was first.
    /// `false`: there is no value yet, or `change` returned `None`, and nothing is replaced.
    ///
    /// `TriesOut`: a thousand times, another thread was first or no free cell was found. `NoMemory`: an allocation was
    /// refused, or no place to wait was seen. The present value stays.
    fn update<F: FnMut(&T) -> Option<T> + Drop>(&mut self, change: F) -> Result<bool, Fault>
        requires { F.IsAlwaysCallable change }
        // An update that replaces the value has called its function at values of which nodes were made, one after
        // another, and the last call returned a value of which one was made, too. An update is refused only with
        // `NoMemory` or `TriesOut`.
        ensures made { result ≡ Ok true → MakesLast is_value (CalledAt F.FnMut) change }
        ensures refused { IfErr result (λ fault. (fault ≡ NoMemory) ⊎ (fault ≡ TriesOut)) };

    /// Replaces the present value as [`SharedValue::update`] does, but tries at most `tries` times to exchange the
    /// pointer, and waits for no cell.
    ///
    /// `CellsFull`: no free cell was found. `NoMemory`: as of [`SharedValue::update`]. `TriesOut`: another thread was
    /// first in each try. The present value stays.
    fn update_within<F: FnMut(&T) -> Option<T> + Drop>(
        &mut self,
        tries: u32,
        change: F,
    ) -> Result<bool, Fault>
        requires { F.IsAlwaysCallable change }
        ensures made { result ≡ Ok true → MakesLast is_value (CalledAt F.FnMut) change }
        ensures refused { IfErr result (λ fault. (fault ≡ CellsFull) ⊎ (fault ≡ NoMemory) ⊎ (fault ≡ TriesOut)) }
        // An update with 0 tries is refused with `TriesOut`.
        ensures no_tries { tries ≡ 0 → result ≡ Err TriesOut };
}

/// A type of nodes that have one value each. What has to do with a store is stated over such a type, and not over the
/// value's, since the checker compares whole stores by the types of their nodes.
pub(crate) trait Wraps: Pointable + Drop + Sized {
    /// What a node has.
    type Value: Drop;

    /// The value of a node.
    ghost inside: { Self → Self.Value };

    /// Makes a node of this value.
    fn wrap(value: Self::Value) -> Self
        ensures { inside result ≡ value };

    /// Returns the value.
    fn value(&self) -> &Self::Value
        ensures { result.now ≡ inside self.now };

    /// Returns the value of a node that isn't in a store.
    fn into_value(self) -> Self::Value
        ensures { result ≡ inside self };
}

impl<T: Drop> Wraps for Plain<T> {
    type Value = T;

    ghost inside = { λ plain. plain.value };

    fn wrap(value: T) -> Plain<T> {
        Plain { value }
    }

    fn value(&self) -> &T {
        &self.value
    }

    fn into_value(self) -> T {
        self.value
    }
}

// A value that threads share, and the store in which it stands.
#[derive(Drop)]
pub(crate) struct ValueRoot<'q, 's, J: PostSet, N> {
    store: &'q Store<'s, J, N>,
    at: Atomic<N>,
}

unsafe impl<J: PostSet, N: Send + Sync> Sync for ValueRoot<'_, '_, J, N> {}

impl<'q, 's, J: PostSet, N: Pointable> ValueRoot<'q, 's, J, N> {
    pub(crate) fn new(store: &'q Store<'s, J, N>) -> ValueRoot<'q, 's, J, N> {
        let at = Atomic::null();
        ValueRoot { store, at }
    }
}

// One thread's own half of a value.
pub(crate) struct ValueHold<'a, 'q, 's, J: PostSet, N> {
    session: Session<'s, J>,
    writer: Writer<'q, 's, J, N>,
    at: &'a Atomic<N>,
    // No guard of the session is out.
    ghost free: { IsSome session.reader },
}

impl<'a, 'q, 's, J: PostSet, N: Wraps> ValueHold<'a, 'q, 's, J, N> {
    // Takes a post and makes a writer.
    pub(crate) fn join(
        alloc: Global,
        root: &'a ValueRoot<'q, 's, J, N>,
    ) -> Result<ValueHold<'a, 'q, 's, J, N>, Fault>
        ensures refused { IfErr result (λ fault. (fault ≡ NoMemory) ⊎ (fault ≡ TableFull)) }
    {
        let Some(session) = root.store.domain().session() else {
            return Err(Fault::TableFull);
        };
        let writer = Writer::new(alloc, root.store)?;
        let at = &root.at;
        Ok(ValueHold {
            session,
            writer,
            at,
        })
    }

    // Gives the post and the writer back.
    pub(crate) fn leave(self) {
        let ValueHold {
            session: _,
            writer,
            at: _,
        } = self;
        leave(writer);
    }

    fn replace_once(&mut self, value: N::Value) -> Result<(), Refused<N::Value>>
        ensures put { IsOk result → IsInNode N.inside value }
        ensures handed_back { IfErr result (λ refused. refused.value ≡ value) }
        ensures refused { IfErr result (λ refused. (refused.fault ≡ CellsFull) ⊎ (refused.fault ≡ NoMemory)) }
    {
        let at = self.at;
        let guard = self.session.pin();
        let put = put(&mut self.writer, &guard, at, value);
        self.session.unpin(guard);
        put
    }

    // Tries so often to replace the value by what `change` makes of it. Where no free cell is found, a call that waits
    // tries again, and another one is refused.
    fn update_in<F: FnMut(&N::Value) -> Option<N::Value> + Drop>(
        &mut self,
        tries: u32,
        waits: bool,
        change: F,
    ) -> Result<bool, Fault>
        requires { F.IsAlwaysCallable change }
        ensures made { result ≡ Ok true → MakesLast (IsInNode N.inside) (CalledAt F.FnMut) change }
        ensures refused { IfErr result (λ fault. (fault ≡ CellsFull) ⊎ (fault ≡ NoMemory) ⊎ (fault ≡ TriesOut)) }
        ensures waited { IsTrue waits → IfErr result (λ fault. (fault ≡ NoMemory) ⊎ (fault ≡ TriesOut)) }
        ensures no_tries { tries ≡ 0 → result ≡ Err TriesOut }
    {
        let mut change = change;
        let at = self.at;
        for _ in 0..tries {
            let guard = self.session.pin();
            let changed = change_once(&mut self.writer, &guard, at, &mut change);
            self.session.unpin(guard);
            match changed {
                Err(Fault::TriesOut | Fault::CellsFull) if waits => thread::yield_now(),
                Err(Fault::TriesOut) => {}
                done => return done,
            }
        }
        Err(Fault::TriesOut)
    }
}

impl<J: PostSet, N: Wraps> SharedValue<N::Value> for ValueHold<'_, '_, '_, J, N> {
    ghost is_value = { IsInNode N.inside };

    fn read<R: Drop, F: FnOnce(&N::Value) -> R + Drop>(&mut self, look: F) -> Option<R> {
        let at = self.at;
        let store = self.writer.store();
        let guard = self.session.pin();
        let seen = look_at(store, &guard, at, look);
        self.session.unpin(guard);
        seen
    }

    fn replace(&mut self, value: N::Value) -> Result<(), Refused<N::Value>> {
        let mut left = value;
        for _ in 0..TRIES {
            match self.replace_once(left) {
                Err(refused) if refused.fault == Fault::CellsFull => left = refused.value,
                done => return done,
            }
            thread::yield_now();
        }
        Err(Refused {
            fault: Fault::CellsFull,
            value: left,
        })
    }

    fn update<F: FnMut(&N::Value) -> Option<N::Value> + Drop>(
        &mut self,
        change: F,
    ) -> Result<bool, Fault> {
        self.update_in(TRIES, true, change)
    }

    fn update_within<F: FnMut(&N::Value) -> Option<N::Value> + Drop>(
        &mut self,
        tries: u32,
        change: F,
    ) -> Result<bool, Fault> {
        self.update_in(tries, false, change)
    }
}

// Looks at the value behind the pointer.
fn look_at<J: PostSet, N: Wraps, R: Drop, F: FnOnce(&N::Value) -> R + Drop>(
    store: &Store<'_, J, N>,
    guard: &LendingGuard<'_, J>,
    at: &Atomic<N>,
    look: F,
) -> Option<R>
    requires { F.IsAlwaysCallable look }
    ensures given { IfSome result
        (λ made. (value : N.Value) × IsInNode N.inside value × FnOnceReturnsAt F.FnOnce look value made) }
{
    match store.get(store.load(at, SeqCst, guard), guard) {
        Some(node) => Some(look(node.value())),
        None => None,
    }
}

// Puts the value behind the pointer, and retires the one before.
fn put<J: PostSet, N: Wraps>(
    writer: &mut Writer<'_, '_, J, N>,
    guard: &LendingGuard<'_, J>,
    at: &Atomic<N>,
    value: N::Value,
) -> Result<(), Refused<N::Value>>
    ensures store { writer.new.store ≡ writer.old.store }
    ensures put { IsOk result → IsInNode N.inside value }
    ensures handed_back { IfErr result (λ refused. refused.value ≡ value) }
    ensures refused { IfErr result (λ refused. (refused.fault ≡ CellsFull) ⊎ (refused.fault ≡ NoMemory)) }
{
    if let Err(fault) = writer.make_room() {
        return Err(Refused { fault, value });
    }
    match writer.place(guard, N::wrap(value)) {
        Ok(new) => {
            let before = writer.store().swap(at, new, SeqCst, guard);
            // Room was made for it. Null is refused: there is nothing to retire then.
            let _ = writer.retire(before);
            Ok(())
        }
        Err(refused) => Err(Refused {
            fault: refused.fault,
            value: refused.value.into_value(),
        }),
    }
}

// Tries once to replace the value behind the pointer by what `change` makes of it.
fn change_once<J: PostSet, N: Wraps, F: FnMut(&N::Value) -> Option<N::Value>>(
    writer: &mut Writer<'_, '_, J, N>,
    guard: &LendingGuard<'_, J>,
    at: &Atomic<N>,
    change: &mut F,
) -> Result<bool, Fault>
    requires { F.IsAlwaysCallable change.old }
    ensures store { writer.new.store ≡ writer.old.store }
    ensures callable { F.IsAlwaysCallable change.new }
    ensures calls { GoesOnOnce (IsInNode N.inside) (CalledAt F.FnMut) change.old change.new }
    ensures made { result ≡ Ok true → Makes (IsInNode N.inside) (CalledAt F.FnMut) change.old }
    ensures kept { result ≡ Ok false → StopsOnce (IsInNode N.inside) (CalledAt F.FnMut) change.old change.new }
    ensures refused { IfErr result
        (λ fault. (fault ≡ CellsFull) ⊎ (fault ≡ NoMemory) ⊎ (fault ≡ TriesOut)) }
{
    writer.make_room()?;
    let store = writer.store();
    let before = store.load(at, SeqCst, guard);
    let Some(node) = store.get(before, guard) else {
        return Ok(false);
    };
    let Some(value) = ask(change, node.value()) else {
        return Ok(false);
    };
    let new = match writer.place(guard, N::wrap(value)) {
        Ok(new) => new,
        Err(refused) => return Err(refused.fault),
    };
    match store.compare_exchange(at, before, new, SeqCst, SeqCst, guard) {
        Ok(_) => {
            let _ = writer.retire(before);
            Ok(true)
        }
        Err(_) => {
            // No other thread has seen the new one.
            let _ = writer.retire(new);
            Err(Fault::TriesOut)
        }
    }
}

// Calls the closure with this value.
fn ask<T, F: FnMut(&T) -> Option<T>>(change: &mut F, value: &T) -> Option<T>
    requires { F.IsAlwaysCallable change.old }
    ensures callable { F.IsAlwaysCallable change.new }
    ensures called { CalledAt F.FnMut change.old value.now result change.new }
{
    change(value)
}
