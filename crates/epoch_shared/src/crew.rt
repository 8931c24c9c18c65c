//! What threads do that share something.
ghost use Rattle.std.specs.Prelude.{ℕ};

use crate::channel::SharedChannel;
use crate::map::SharedMap;
use crate::stack::SharedStack;
use crate::value::SharedValue;
use epoch_map::MapKey;

/// What threads do that share one value, of type `T`. Threads share the crew by `&`, so what they count stands in
/// atomics.
pub trait ValueCrew<T> {
    /// The thread of this number has done its part. A crew that says here what this means shows it in `thread`.
    ghost has_done: { Self → ℕ → Type 0 } = { λ _ _. Unit {0} };

    /// What is done before the threads are started.
    fn before(&self, _value: &mut impl SharedValue<T>) {}

    /// What the thread of this number does. The first one has number 0.
    ///
    /// A thread that waits for others lets them go on by `std::thread::yield_now`, in a loop over `rt.forever()`: the
    /// crew has a reference to `rt` then.
    fn thread(&self, number: usize, value: &mut impl SharedValue<T>)
        ensures { has_done self.now number };

    /// What is done when all threads are done.
    fn after(&self, _value: &mut impl SharedValue<T>) {}
}

/// What threads do that share a stack of `V`, as those of a [`ValueCrew`] do.
pub trait StackCrew<V> {
    /// The thread of this number has done its part. A crew that says here what this means shows it in `thread`.
    ghost has_done: { Self → ℕ → Type 0 } = { λ _ _. Unit {0} };

    /// What is done before the threads are started.
    fn before(&self, _stack: &mut impl SharedStack<V>) {}

    /// What the thread of this number does. The first one has number 0.
    fn thread(&self, number: usize, stack: &mut impl SharedStack<V>)
        ensures { has_done self.now number };

    /// What is done when all threads are done.
    fn after(&self, _stack: &mut impl SharedStack<V>) {}
}

/// What threads do that share a map or a cache from `K` to `V`, as those of a [`ValueCrew`] do.
pub trait MapCrew<K: MapKey, V> {
    /// The thread of this number has done its part. A crew that says here what this means shows it in `thread`.
    ghost has_done: { Self → ℕ → Type 0 } = { λ _ _. Unit {0} };

    /// What is done before the threads are started.
    fn before(&self, _map: &mut impl SharedMap<K, V>) {}

    /// What the thread of this number does. The first one has number 0.
    fn thread(&self, number: usize, map: &mut impl SharedMap<K, V>)
        ensures { has_done self.now number };

    /// What is done when all threads are done.
    fn after(&self, _map: &mut impl SharedMap<K, V>) {}
}

/// What threads do that share a value of type `T`, a map from `K` to `V`, and a channel of `M`. What they have no use
/// for is of type `()`, or `u64` if it is a key.
pub trait Crew<T, K: MapKey, V, M> {
    /// The thread of this number has done its part. A crew that says here what this means shows it in `thread`.
    ghost has_done: { Self → ℕ → Type 0 } = { λ _ _. Unit {0} };

    /// What is done before the threads are started.
    fn before(
        &self,
        _value: &mut impl SharedValue<T>,
        _map: &mut impl SharedMap<K, V>,
        _channel: &mut impl SharedChannel<M>,
    ) {}

    /// What the thread of this number does. The first one has number 0.
    fn thread(
        &self,
        number: usize,
        value: &mut impl SharedValue<T>,
        map: &mut impl SharedMap<K, V>,
        channel: &mut impl SharedChannel<M>,
    )
        ensures { has_done self.now number };

    /// What is done when all threads are done.
    fn after(
        &self,
        _value: &mut impl SharedValue<T>,
        _map: &mut impl SharedMap<K, V>,
        _channel: &mut impl SharedChannel<M>,
    ) {}
}
