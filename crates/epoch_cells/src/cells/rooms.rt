//! Rooms that one owner keeps for its next values, and the memory of values that were dropped.
ghost use Rattle.std.specs.Prelude.{IfOk, IfErr, ◌≡◌};

use crate::cells::held::Room;
use crate::{Emptied, empty};
use std::alloc::{AllocFailed, Global};
use std::marker::Model;
use std::mem::size_of_val;

/// How many rooms one owner keeps at most.
pub const MOST_ROOMS: usize = 256;

// As many bytes as a cache line has. A larger value isn't moved.
const MOST_MOVED: usize = 64;

/// Rooms that one owner keeps, the newest one last, and memory for as many values. If they are dropped, their slots are
/// free for all callers, and the memory is freed.
#[derive(Drop)]
pub struct Rooms<'a, T> {
    // As many are kept as it has memory for.
    list: Vec<Room<'a, T>>,
    // The memory of values that were dropped, in boxes without a value.
    emptied: Vec<Emptied<T, Global>>,
    // How many rooms it takes memory for.
    most: usize,
}

// A clause sees nothing of them, so that an owner's rooms are no part of what its contracts say.
impl<'a, T> Model for Rooms<'a, T> {
    ghost Value = { Unit {0} };

    ghost view = { λ _. tt };
}

impl<'a, T> Rooms<'a, T> {
    /// Begins with no room. The first one that is kept takes memory for this many.
    #[inline(always)]
    pub fn up_to(most: usize, alloc: Global) -> Rooms<'a, T> {
        Rooms {
            list: Vec::new(alloc),
            emptied: Vec::new(alloc),
            most,
        }
    }

    /// Returns how many there are.
    #[inline(always)]
    pub fn len(&self) -> usize {
        self.list.len()
    }

    /// Returns whether it keeps rooms, and as many as it may.
    #[inline(always)]
    pub fn is_full(&self) -> bool {
        !self.list.is_empty() && self.list.len() >= self.most
    }

    /// Returns whether it has memory for rooms: whether it was given one to keep.
    #[inline(always)]
    pub fn has_memory(&self) -> bool {
        self.list.capacity() > 0
    }

    /// Takes the newest room out.
    #[inline(always)]
    pub fn next(&mut self) -> Option<Room<'a, T>> {
        self.list.pop()
    }

    /// Puts the value into a box: into memory that is kept, or else into new memory.
    #[inline(always)]
    pub fn boxed(&mut self, alloc: Global, value: T) -> Result<Box<T>, AllocFailed<T>>
        // A value that is put into a box beside rooms is the one in the box, and so is one that is moved to kept
        // memory. If memory is refused, the value comes back.
        ensures value { IfOk result (λ whole. whole.value ≡ value) }
        ensures handed_back { IfErr result (λ refused. refused.value ≡ value) }
    {
        match self.emptied.pop() {
            Some(memory) => Ok(memory.fill(value)),
            None => Box::new(alloc, value),
        }
    }
}

impl<'a, T: Drop> Rooms<'a, T> {
    /// Moves the value into memory that is kept, and frees the memory that it came in. It stays where it is if it is
    /// larger than a cache line, or if no more memory is kept than the rooms here have use for.
    ///
    /// The allocator gives the freed memory to the next value at once. If kept memory were freed in its place, it would
    /// go back to the allocator with that of a whole bag, and from there to other threads.
    #[inline(always)]
    pub fn move_to_kept(&mut self, whole: Box<T>) -> Box<T>
        ensures { result.value ≡ whole.value }
    {
        if size_of_val(&*whole) > MOST_MOVED || self.emptied.len() <= self.list.len() {
            return whole;
        }
        let Some(memory) = self.emptied.pop() else {
            return whole;
        };
        let (value, made) = empty(whole);
        drop(made);
        memory.fill(value)
    }

    // Takes memory for the rooms, if it has memory for none yet. If it is refused, none is kept.
    #[cold]
    #[inline(never)]
    fn take_memory(&mut self) {
        let alloc = *self.list.allocator();
        let Ok(list) = Vec::with_capacity(alloc, self.most) else {
            return;
        };
        self.list = list;
        if let Ok(emptied) = Vec::with_capacity(alloc, self.most) {
            self.emptied = emptied;
        }
    }

    /// Keeps one more room, if there is memory for it, and returns whether it is kept. Else it is dropped.
    #[inline(always)]
    pub fn keep(&mut self, room: Room<'a, T>) -> bool {
        if self.list.len() >= self.list.capacity() {
            if self.list.capacity() == 0 {
                self.take_memory();
            }
            if self.list.len() >= self.list.capacity() {
                return false;
            }
        }
        self.list.push(room).is_ok()
    }

    /// Drops the value, and keeps the memory of its box. If as much is kept as there can be rooms, it is freed.
    #[inline(always)]
    pub fn drop_boxed(&mut self, whole: Box<T>) {
        if self.emptied.len() >= self.emptied.capacity() {
            drop(whole);
            return;
        }
        let (value, memory) = empty(whole);
        let _ = self.emptied.push(memory);
        drop(value);
    }
}
