//! The pointers of a structure to its nodes: each call may load them, and a call that has a writer may change them.
ghost use Rattle.std.specs.Prelude.{◌≡◌};

use epoch_atomic::atomic::{Atomic, Pointable, Shared};
use epoch_handles::Home;
use epoch_lend::readers::posts::PostSet;
use epoch_lend_pointers::{Store, Writer};
use std::sync::atomic::Ordering::SeqCst;

/// The permission to change pointers of a store, which a call gets by a writer of this store.
#[derive_where(Clone, Copy)]
pub struct Changing<'m, V> {
    home: Home<'m, V>,
}

impl<'m, V> Changing<'m, V> {
    /// Permits a call that has this writer to change pointers of this store.
    #[inline(always)]
    pub fn by<J: PostSet>(
        store: &'m Store<'_, J, V>,
        writer: &Writer<'_, '_, J, V>,
    ) -> Changing<'m, V>
        // The pointers of a store are changed only by a call that has a writer of this store.
        requires { writer.now.store.now.number ≡ store.now.number }
        ensures number { result.home.id ≡ store.now.number }
    {
        let _ = writer;
        let home = store.home();
        Changing { home }
    }

    /// Returns the home of the store's pointers.
    #[inline(always)]
    pub fn home(self) -> Home<'m, V> {
        self.home
    }

    // Gives this pointer out to be changed.
    #[inline(always)]
    fn opens<'a>(self, at: &'a Atomic<V>) -> &'a Atomic<V> {
        at
    }
}

/// A pointer of a structure: in a node, or to the first one. Any call may load it, and only a call that has a writer
/// may change it.
#[derive(Drop)]
pub struct Link<V> {
    at: Atomic<V>,
}

impl<V: Pointable> Link<V> {
    /// Makes a pointer that is null, as a node has that isn't in a structure.
    #[inline(always)]
    pub fn null() -> Link<V> {
        let at = Atomic::null();
        Link { at }
    }

    /// Makes a pointer that leads there.
    #[inline(always)]
    pub fn to(behind: Shared<'_, V>) -> Link<V> {
        let at = Atomic::from(behind);
        Link { at }
    }

    /// Loads the pointer.
    #[inline(always)]
    pub fn load<'q, J: PostSet>(&self, store: &'q Store<'_, J, V>) -> Shared<'q, V> {
        self.load_at(store.home())
    }

    /// Does what [`Link::load`] does, with the home of the store's pointers.
    #[inline(always)]
    pub fn load_at<'q>(&self, home: Home<'q, V>) -> Shared<'q, V> {
        self.at.load_at(SeqCst, home)
    }

    /// Returns the pointer itself, for a call that may change those of its store.
    #[inline(always)]
    pub fn to_change(&self, changing: Changing<'_, V>) -> &Atomic<V> {
        changing.opens(&self.at)
    }
}
