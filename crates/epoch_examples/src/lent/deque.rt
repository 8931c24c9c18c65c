//! A work-stealing deque, after Chase and Lev: one thread pushes and pops tasks at the bottom, and other threads steal
//! them at the top.
//!
//! It shows how a structure replaces a part of itself. The pointers to the tasks stand in a ring. A push that finds the
//! ring full copies them to one of twice the length, points the deque to that, and retires the old ring, as it would a
//! node. A thief that got the old ring goes on with it for as long as its guard is out. Tasks and rings are values of
//! two stores, and one guard gets the values of both.
//!
//! To hand out the tasks of a program, take `crossbeam_deque` of the kit instead. On one thread, its push and pop take
//! a fifth of the time, since it moves tasks in place, and its clauses say that each call is one step of a list. But
//! while a thief is stopped in the midst of a steal, pushes add rings, however few tasks there are, and a ring is freed
//! only with the last handle. This deque is for programs whose memory has to stay within a bound. The cells of tasks
//! that are out, and rings that were outgrown, come back once no guard may have them. While a thief is stopped with its
//! guard out they wait, and at the store's limit a push is refused.
//!
//! No clause here says what the deque holds. That no task comes out twice is a promise of [`TakeOnce`]; that each comes
//! out, and in which order, is only tested.
ghost use Rattle.std.specs.Prelude.{◌≡◌, refl, Some, IfErr, IfSome};
ghost use Rattle.std.proofs.Common.{lit≤};

use crossbeam_utils::CachePadded;
use epoch::TakeOnce;
use epoch_lend_pointers::{
    Atomic, Fault, LendingGuard, Pointable, PostSet, Refused, Shared, Store, Writer,
};
use std::alloc::Global;
use std::marker::Model;
use std::sync::atomic::AtomicU64;
use std::sync::atomic::Ordering::SeqCst;

/// A task in its cell. The thread that has it moves it out.
///
/// In a clause it is the task that it was made with, if any, also after that was moved out.
#[derive(Drop)]
pub struct DequeTask<V> {
    task: TakeOnce<V>,
}

// Each type of values with a type parameter has a model: without one, the checker can't prove calls of a deque for
// tasks of a given type, such as `String`.
impl<V> Model for DequeTask<V> {
    ghost use Rattle.std.specs.Prelude.{Option};

    ghost Value = { Option V };

    ghost view = { λ a. a.task };
}

impl<V> DequeTask<V> {
    #[inline(always)]
    fn new(task: V) -> DequeTask<V>
        ensures { result ≡ Some task }
    {
        let task = TakeOnce::new(task);
        DequeTask { task }
    }

    fn into_inner(self) -> Option<V>
        ensures { IfSome result (λ task. self ≡ Some task) }
    {
        let DequeTask { task } = self;
        task.into_inner()
    }
}

impl<V> Pointable for DequeTask<V> {
    ghost ALIGN = { 8 };

    ghost log = { 3 };

    ghost is_power = { refl };

    ghost is_small = { lit≤ tt };

    const ALIGN: usize = 8;

    type Init = DequeTask<V>;

    ghost init_gives = { λ init task. task ≡ init };

    fn init(_alloc: Global, init: DequeTask<V>) -> Result<DequeTask<V>, Fault> {
        Ok(init)
    }
}

/// Pointers to tasks, in as many slots as a power of two. A clause knows nothing of them.
#[derive(Drop)]
pub struct TaskRing<V> {
    slots: Vec<Atomic<DequeTask<V>>>,
}

impl<V> Model for TaskRing<V> {
    ghost Value = { Unit {0} };

    ghost view = { λ _. tt };
}

impl<V> Pointable for TaskRing<V> {
    ghost ALIGN = { 8 };

    ghost log = { 3 };

    ghost is_power = { refl };

    ghost is_small = { lit≤ tt };

    const ALIGN: usize = 8;

    type Init = TaskRing<V>;

    ghost init_gives = { λ init ring. ring ≡ init };

    fn init(_alloc: Global, init: TaskRing<V>) -> Result<TaskRing<V>, Fault> {
        Ok(init)
    }
}

impl<V> TaskRing<V> {
    // A ring of this many null pointers.
    fn new(alloc: Global, slots: u64) -> Result<TaskRing<V>, Fault> {
        let mut made = Vec::new(alloc);
        for _ in 0..slots {
            if made.push(Atomic::null()).is_err() {
                return Err(Fault::NoMemory);
            }
        }
        Ok(TaskRing { slots: made })
    }

    fn len(&self) -> u64 {
        self.slots.len() as u64
    }

    // The slot of the task with this index. The tasks of a deque have indices one after another, and as many as there
    // are slots have each a slot of its own.
    #[inline(always)]
    fn slot(&self, index: u64) -> Option<&Atomic<DequeTask<V>>> {
        let mask = self.len().wrapping_sub(1);
        self.slots.get((index & mask) as usize)
    }
}

/// A deque, whose tasks are values of one store, and its ring a value of another.
///
/// A task that was moved out keeps its cell until no guard may have it. Tasks that are left are dropped by the end of
/// their store.
///
/// ```
/// let mut deque = Deque::new(alloc, &tasks, &mut rings, &guard, 3)?;
/// let (mut worker, stealer) = deque.sides();
///
/// // The owner, with a writer for each store:
/// worker.push(&mut writer, &mut rings, &guard, first).map_err(|refused| refused.fault)?;
/// worker.push(&mut writer, &mut rings, &guard, second).map_err(|refused| refused.fault)?;
/// let second = worker.pop(&mut writer, &guard)?;
///
/// // A thief, with a session and a writer of its own:
/// let guard = session.pin();
/// match stealer.steal(&mut writer, &guard) {
///     Ok(Some(first)) => run(first),
///     Ok(None) => rest(),
///     Err(fault) => again(fault),
/// }
/// session.unpin(guard);
/// ```
#[derive(Drop)]
pub struct Deque<'q, 's, J: PostSet, V> {
    tasks: &'q Store<'s, J, DequeTask<V>>,
    rings: &'q Store<'s, J, TaskRing<V>>,
    alloc: Global,
    ring: Atomic<TaskRing<V>>,
    // The index of the first task, and the index behind the last one, each in a cache line of its own. The top never
    // falls: the thread that moves it on has the task.
    top: CachePadded<AtomicU64>,
    bottom: CachePadded<AtomicU64>,
}

unsafe impl<J: PostSet, V: Send + Sync> Sync for Deque<'_, '_, J, V> {}

/// The owner's side of a deque. There is one at a time.
#[derive(Drop)]
pub struct Worker<'a, 'q, 's, J: PostSet, V> {
    deque: &'a Deque<'q, 's, J, V>,
}

/// The thieves' side of a deque, which can be copied.
#[derive_where(Clone, Copy)]
pub struct Stealer<'a, 'q, 's, J: PostSet, V> {
    deque: &'a Deque<'q, 's, J, V>,
}

impl<'q, 's, J: PostSet, V: Drop> Deque<'q, 's, J, V> {
    /// Makes an empty deque, for tasks in this store. Its ring is placed in the store of the writer `rings`, and has 2
    /// to the power of `bits` slots, or 2^16 if that is less.
    ///
    /// `NoMemory`, `CellsFull`: no ring was made.
    pub fn new(
        alloc: Global,
        tasks: &'q Store<'s, J, DequeTask<V>>,
        rings: &mut Writer<'q, 's, J, TaskRing<V>>,
        guard: &LendingGuard<'_, J>,
        bits: u32,
    ) -> Result<Deque<'q, 's, J, V>, Fault> {
        let ring = TaskRing::new(alloc, 1 << bits.min(16))?;
        let placed = rings.place(guard, ring).map_err(|refused| refused.fault)?;
        Ok(Deque {
            tasks,
            rings: rings.store(),
            alloc,
            ring: Atomic::from(placed),
            top: CachePadded::new(AtomicU64::new(0)),
            bottom: CachePadded::new(AtomicU64::new(0)),
        })
    }

    /// Returns the owner's side and the thieves'. They borrow the deque for themselves alone, so there is one owner.
    pub fn sides<'a>(&'a mut self) -> (Worker<'a, 'q, 's, J, V>, Stealer<'a, 'q, 's, J, V>) {
        let deque: &'a Deque<'q, 's, J, V> = self;
        (Worker { deque }, Stealer { deque })
    }

    // How many tasks there are, or were a moment ago.
    fn len(&self) -> u64 {
        let bottom = self.bottom.load(SeqCst);
        bottom.saturating_sub(self.top.load(SeqCst))
    }

    // Sees that the writer is one of the tasks' store.
    #[inline(always)]
    fn check(&self, writer: &Writer<'_, 's, J, DequeTask<V>>) -> Result<(), Fault> {
        if writer.store().number() == self.tasks.number() {
            Ok(())
        } else {
            Err(Fault::StrangerGuard)
        }
    }

    // Lends the ring, which is always there: `TriesOut` never comes.
    #[inline(always)]
    fn ring<'g>(&self, guard: &'g LendingGuard<'_, J>) -> Result<&'g TaskRing<V>, Fault> {
        let at = self.ring.load_at(SeqCst, self.rings.home());
        match self.rings.get(at, guard) {
            Some(ring) => Ok(ring),
            None => Err(Fault::TriesOut),
        }
    }

    // The pointer to the task with this index.
    #[inline(always)]
    fn task_at(
        &self,
        index: u64,
        guard: &LendingGuard<'_, J>,
    ) -> Result<Shared<'q, DequeTask<V>>, Fault> {
        match self.ring(guard)?.slot(index) {
            Some(slot) => Ok(slot.load_at(SeqCst, self.tasks.home())),
            None => Err(Fault::TriesOut),
        }
    }

    // Points the slot of this index to a task.
    #[inline(always)]
    fn set_task_at(&self, index: u64, task: Shared<'_, DequeTask<V>>, guard: &LendingGuard<'_, J>) {
        if let Ok(ring) = self.ring(guard) {
            if let Some(slot) = ring.slot(index) {
                slot.store_at(task, SeqCst);
            }
        }
    }

    // Moves out the task that the pointer leads to, and retires it: for the one thread that has it. There is room. The
    // slot keeps the pointer, but no call follows it any more, since it isn't between top and bottom.
    #[inline(always)]
    fn take(
        &self,
        writer: &mut Writer<'_, 's, J, DequeTask<V>>,
        guard: &LendingGuard<'_, J>,
        at: Shared<'_, DequeTask<V>>,
    ) -> Option<V> {
        let moved = match self.tasks.get(at, guard) {
            Some(found) => found.task.take(),
            None => None,
        };
        let _ = writer.retire(at);
        moved
    }

    // Puts a ring of twice the length in place of the ring, which it retires. Other threads take tasks meanwhile, by
    // either ring: each slot of a task has the same pointer in both.
    #[cold]
    #[inline(never)]
    fn grow(
        &self,
        rings: &mut Writer<'_, 's, J, TaskRing<V>>,
        guard: &LendingGuard<'_, J>,
    ) -> Result<(), Fault> {
        if rings.store().number() != self.rings.number() {
            return Err(Fault::StrangerGuard);
        }
        rings.make_room()?;
        let ring = self.ring(guard)?;
        let wider = TaskRing::new(self.alloc, ring.len().wrapping_mul(2))?;
        for index in self.top.load(SeqCst)..self.bottom.load(SeqCst) {
            if let (Some(from), Some(to)) = (ring.slot(index), wider.slot(index)) {
                to.store_at(from.load_at(SeqCst, self.tasks.home()), SeqCst);
            }
        }
        let placed = rings.place(guard, wider).map_err(|refused| refused.fault)?;
        let old = self.ring.swap_at(placed, SeqCst, self.rings.home());
        let _ = rings.retire(old);
        Ok(())
    }
}

impl<'a, 'q, 's, J: PostSet, V: Drop> Worker<'a, 'q, 's, J, V> {
    /// Returns how many tasks there are. Thieves may change this at once.
    pub fn len(&self) -> u64 {
        self.deque.len()
    }

    /// Returns how many slots the ring has.
    pub fn capacity(&self, guard: &LendingGuard<'_, J>) -> u64 {
        match self.deque.ring(guard) {
            Ok(ring) => ring.len(),
            Err(_) => 0,
        }
    }

    // Sees that the ring has a slot for one more task, and makes a wider one if it is full.
    fn prepare_push(
        &self,
        writer: &Writer<'_, 's, J, DequeTask<V>>,
        rings: &mut Writer<'_, 's, J, TaskRing<V>>,
        guard: &LendingGuard<'_, J>,
    ) -> Result<(), Fault> {
        let deque = self.deque;
        deque.check(writer)?;
        if deque.len() >= deque.ring(guard)?.len() {
            deque.grow(rings, guard)?;
        }
        Ok(())
    }

    /// Pushes the task at the bottom. If the ring is full, a longer one is placed by the writer `rings`.
    ///
    /// `StrangerGuard`: a writer is of another store. `NoMemory`: an allocation for a ring was refused, or see
    /// [`Writer::make_room`]. `CellsFull`: no free cell was found, as by [`Writer::place`]. The task is handed back.
    pub fn push(
        &mut self,
        writer: &mut Writer<'_, 's, J, DequeTask<V>>,
        rings: &mut Writer<'_, 's, J, TaskRing<V>>,
        guard: &LendingGuard<'_, J>,
        task: V,
    ) -> Result<(), Refused<V>>
        ensures handed_back { IfErr result (λ refused. refused.value ≡ task) }
    {
        let deque = self.deque;
        if let Err(fault) = self.prepare_push(writer, rings, guard) {
            let value = task;
            return Err(Refused { fault, value });
        }
        match writer.place(guard, DequeTask::new(task)) {
            Ok(placed) => {
                let index = deque.bottom.load(SeqCst);
                deque.set_task_at(index, placed, guard);
                deque.bottom.store(index.wrapping_add(1), SeqCst);
                Ok(())
            }
            Err(Refused { fault, value }) => match value.into_inner() {
                Some(value) => Err(Refused { fault, value }),
                // No other thread has seen the task, so it is always there.
                None => Ok(()),
            },
        }
    }

    /// Pops the task at the bottom, which was pushed last. `None`: the deque was empty, or a thief got its last task.
    ///
    /// `StrangerGuard`: the writer is of another store. `NoMemory`: as of [`Writer::make_room`]. Nothing was popped.
    pub fn pop(
        &mut self,
        writer: &mut Writer<'_, 's, J, DequeTask<V>>,
        guard: &LendingGuard<'_, J>,
    ) -> Result<Option<V>, Fault> {
        let deque = self.deque;
        deque.check(writer)?;
        if deque.len() == 0 {
            return Ok(None);
        }
        // Room comes first: what is moved out can then be retired.
        writer.make_room()?;
        let bottom = deque.bottom.load(SeqCst);
        let last = bottom.wrapping_sub(1);
        let task = deque.task_at(last, guard)?;
        // From here on no thief begins to steal the last task. One that has begun moves the top on, if it is the first
        // to do so.
        deque.bottom.store(last, SeqCst);
        let top = deque.top.load(SeqCst);
        if top < last {
            return Ok(deque.take(writer, guard, task));
        }
        let is_first = top == last
            && deque
                .top
                .compare_exchange(last, bottom, SeqCst, SeqCst)
                .is_ok();
        deque.bottom.store(bottom, SeqCst);
        if is_first {
            Ok(deque.take(writer, guard, task))
        } else {
            Ok(None)
        }
    }
}

impl<'a, 'q, 's, J: PostSet, V: Drop> Stealer<'a, 'q, 's, J, V> {
    /// Steals the task at the top, which was pushed first. `None`: the deque was empty, or its owner is about to pop
    /// the last task.
    ///
    /// `TriesOut`: another thread took that task meanwhile, and the caller can call again. `StrangerGuard`: the writer
    /// is of another store. `NoMemory`: as of [`Writer::make_room`]. Nothing was stolen.
    pub fn steal(
        &self,
        writer: &mut Writer<'_, 's, J, DequeTask<V>>,
        guard: &LendingGuard<'_, J>,
    ) -> Result<Option<V>, Fault> {
        let deque = self.deque;
        deque.check(writer)?;
        let top = deque.top.load(SeqCst);
        if top >= deque.bottom.load(SeqCst) {
            return Ok(None);
        }
        writer.make_room()?;
        // The pointer is loaded before the top moves on: from then on a push may use the slot.
        let task = deque.task_at(top, guard)?;
        let next = top.wrapping_add(1);
        match deque.top.compare_exchange(top, next, SeqCst, SeqCst) {
            Ok(_) => Ok(deque.take(writer, guard, task)),
            Err(_) => Err(Fault::TriesOut),
        }
    }
}
