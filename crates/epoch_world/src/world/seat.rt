//! One participant of the world: its word, its machine, and the guards and calls that the world keeps of it.
ghost use Rattle.std.specs.Prelude.{◌≡◌, ◌≢◌, true, ℕ, ◌+◌, ◌*◌, ◌^◌, ◌<◌, ◌≤◌, Option, Some, None, IfSome};
ghost use Rattle.std.specs.Prelude.{MatchOption, IsTrue, false, ◌↔◌, length, ◌⊎◌, IfOk, IfErr, vec_capacity};
ghost use Rattle.epoch_machine.specs.Machine.{asks, AskFits, heard, guards_after, IsSized};
ghost use Rattle.epoch_laws.specs.Run.{free_seat, with_machine, with_word, begun_seat, drives, ended_seat, end_reply};
ghost use Rattle.epoch_laws.specs.Run.{removed_by, accessed_seat, access_reply};
ghost use Rattle.epoch_machine.specs.declared.machine.Stage.TheVariants.{Idle, End};
ghost use Rattle.epoch_world.specs.Seats.{SeatPerforms, WordFits, adds_guard, CanRead};
ghost use Rattle.epoch_cells.specs.declared.fault.Fault.TheVariants.{NoMemory};
ghost use Rattle.epoch_laws.specs.Heap.{has_steps, Touched, Touches, outcome_of, heap_after_job};
ghost use Rattle.epoch_world.specs.Worlds.{with_bags};
ghost use Rattle.epoch_world.specs.Steps.{steps_in_store, most_in_store, machine_steps};
ghost use Rattle.epoch_world.specs.StoreSteps.{AskMoves};
ghost use Rattle.epoch_laws.specs.Places.{occupancy, SeesOccupied};
ghost use Rattle.epoch_laws.specs.Collections.{outlook, expiry_of, FindsAhead, MayClaim};
ghost use Rattle.epoch_laws.specs.Room.{TellsRoom, MayReserve};

mod refusals;

use crate::world::common::Common;
use crate::world::guards::{lowest, without};
use crate::world::readings::keep_readings;
use arrayvec::ArrayVec;
use epoch_bags::BagStore;
use epoch_cells::{Fault, Name};
use epoch_laws::heap::{Access, AccessAnswer, Accessed, Heap, Ptr};
use epoch_laws::{Call, Deferral, Progress, Reply, Word};
use epoch_machine::{Action, Answer as Found, Ask, Machine, Sizes};
use std::alloc::Global;
use std::marker::Model;

/// How many guards a participant of the world may have out.
const GUARDS: usize = 64;

/// How many readings a participant may have at once: as many as there may be cells.
const READINGS: usize = 4096;

/// No cell, and no tag.
const NULL: Ptr = Ptr { name: None, tag: 0 };

/// A participant.
#[derive(Drop)]
pub struct Seat {
    word: Word,
    machine: Machine<Deferral>,
    progress: Progress,
    guards: ArrayVec<u64, 64>,
    paused: Option<u64>,
    readings: Vec<Name>,
}

impl Model for Seat {
    ghost use Rattle.epoch_laws.specs.Run.{WorldSeat};
    ghost use Rattle.epoch_world.specs.Seats.{WordFits, ProgressFits};
    ghost use Rattle.std.specs.Prelude.{◌≤◌, vec_capacity};

    ghost Value = { WorldSeat };

    ghost view = { λ a. record {
      word = a.word;
      machine = a.machine;
      progress = a.progress;
      guards = a.guards.items;
      paused = a.paused;
      readings = a.readings.items;
    } };

    ghost invariant = { λ a.
        record { word : WordFits a.word; progress : ProgressFits a.progress; room : 4096 ≤ vec_capacity a.readings } };
}

impl Seat {
    /// A free position.
    ///
    /// `NoMemory`: an allocation was refused.
    pub fn free(alloc: Global, sizes: Sizes) -> Result<Seat, Fault>
        requires { IsSized sizes }
        ensures seat { IfOk result (λ seat. seat ≡ free_seat sizes) }
        ensures no_memory { IfErr result (λ fault. fault ≡ NoMemory) }
    {
        let Ok(readings) = Vec::with_capacity(alloc, READINGS) else {
            return Err(Fault::NoMemory);
        };
        Ok(Seat {
            word: Word::Free,
            machine: Machine::new(sizes),
            progress: Progress::Idle,
            guards: ArrayVec::new(),
            paused: None,
            readings,
        })
    }

    /// Returns what its word says.
    pub fn word(&self) -> Word
        ensures value { result ≡ self.now.word }
        ensures within { WordFits result }
    {
        self.word
    }

    /// Returns how far its call is.
    pub fn progress(&self) -> Progress
        ensures { result ≡ self.now.progress }
    {
        self.progress
    }

    /// Returns whether its held bag takes a further job without a put, or `None` at a free position.
    pub fn has_room(&self) -> Option<bool>
        ensures value { MatchOption result (self.now.word ≡ Word.Free) (λ room. (self.now.word ≢ Word.Free)
            × (IsTrue room ↔ (length self.now.machine.held < self.now.machine.sizes.bag_jobs))) }
        ensures full { IfSome result
            (λ room. room ≡ false → length self.now.machine.held ≡ self.now.machine.sizes.bag_jobs) }
    {
        match self.word {
            Word::Free => None,
            Word::Unpinned | Word::Pinned(_) => Some(self.machine.has_room()),
        }
    }

    /// Returns what its machine asks for.
    pub fn ask(&self) -> Option<Ask>
        ensures value { result ≡ asks self.now.machine }
        ensures within { IfSome result (AskFits self.now.machine.sizes) }
    {
        self.machine.ask()
    }

    /// Performs one ask of the machine. `word` is the one at the position that a scan asks for; `putting` and `taking`
    /// are the participant's cursors into the store.
    pub fn perform<S: BagStore<Job = Deferral>>(
        &mut self,
        ask: Ask,
        position: u64,
        word: u64,
        common: &mut Common<S>,
        putting: &mut S::Putting,
        taking: &mut S::Taking,
    ) -> Reply
        requires asked { asks self.old.machine ≡ Some ask }
        requires within { AskFits self.old.machine.sizes ask }
        requires epoch { common.old.epoch < 2 ^ 63 }
        requires tickets { ask ≡ Ask.KeepJob → common.old.tickets + 1 < 2 ^ 64 }
        ensures within { common.new.epoch < 2 ^ 63 }
        ensures step { SeatPerforms self.old.machine.sizes position word
            (with_bags S.queued common.old) self.old self.old.machine.stage ask result
            self.new (with_bags S.queued common.new) }
        ensures once { AskMoves S.PutMoves S.TakeMoves (Some ask) self.old.machine self.new.machine common.old.store
            putting.old taking.old common.new.store putting.new taking.new }
        ensures looks { SeesOccupied (Some ask) self.old.machine self.new.machine
            (occupancy (S.occupied common.old.store) (S.passed putting.old))
            (occupancy (S.occupied common.new.store) (S.passed putting.new)) }
        ensures finds { FindsAhead ((place : ℕ) → ¬ (S.Claimed common.old.store place)) (Some ask) self.new.machine
            (outlook (S.queued common.old.store)
            (S.ahead (expiry_of self.old.machine.stage) common.old.store taking.old))
            (outlook (S.queued common.new.store)
            (S.ahead (expiry_of self.new.machine.stage) common.new.store taking.new)) }
        ensures room { TellsRoom (((place : ℕ) → ¬ (S.Reserved common.old.store place))
            × (length (S.queued common.old.store) < length (S.occupied common.old.store))) (Some ask) self.new.machine
            (S.has_room common.old.store putting.old) (S.has_room common.new.store putting.new) }
        ensures claims { MayClaim ask self.new.machine.stage (S.Claimed common.old.store) (S.Claims taking.old)
            (S.Claimed common.new.store) (S.Claims taking.new) }
        ensures reserves { MayReserve ask self.new.machine.stage (S.Reserved common.old.store) (S.Reserves putting.old)
            (S.Claims taking.old) (S.Reserved common.new.store) (S.Reserves putting.new) (S.Claims taking.new) }

        // The call has fewer steps left.
        ensures fewer { machine_steps self.new.machine (steps_in_store S.puts_left S.takes_left
            (S.capacity common.old.store) putting.new taking.new) < machine_steps self.old.machine
            (steps_in_store S.puts_left S.takes_left (S.capacity common.old.store) putting.old taking.old) }
        ensures capacity { S.capacity common.new.store ≡ S.capacity common.old.store }
    {
        match ask {
            Ask::LoadEpoch => {
                // A put loads the epoch, its bag's seal, right before its first step on a place. It begins at the
                // first place, so that a refusal tells of places that were all seen occupied after this load.
                *putting = begin_put(&common.store);
                self.machine.take(Found::Epoch(common.epoch));
                Reply::Stepped
            }
            Ask::LoadWord(_) => {
                // A collection begins at the first place. Its first look comes right after a word that ends its
                // scan, as this one may be, or after the store of the epoch.
                *taking = common.store.start_take();
                self.machine.take(Found::Word(word));
                Reply::Stepped
            }
            Ask::StorePinned(number) => {
                self.publish(number);
                Reply::Pinned(position)
            }
            Ask::StoreRepinned(number) => {
                self.publish(number);
                Reply::Repinned(position)
            }
            Ask::StoreUnpinned => {
                self.unpublish();
                Reply::Unpinned(position)
            }
            Ask::StoreFree => {
                self.leave();
                Reply::Done(AccessAnswer::Released)
            }
            Ask::StoreEpoch(number) => {
                // The other step that is followed by a collection's first look.
                *taking = common.store.start_take();
                self.advance(number, &mut common.epoch);
                Reply::Stepped
            }
            Ask::PutBag(_) => {
                self.machine.put_step(&mut common.store, putting);
                Reply::Stepped
            }
            Ask::TakeBag(_) => {
                self.machine.take_step(&mut common.store, taking);
                Reply::Stepped
            }
            Ask::KeepJob => Reply::Deferred(self.keep_job(&mut common.tickets)),
            Ask::CallJob => match self.machine.give() {
                Some(job) => Reply::Called(job.ticket, common.heap.call_job(job.removes)),
                None => unreachable!(),
            },
        }
    }

    fn publish(&mut self, number: u64)
        requires asked { (asks self.old.machine ≡ Some (Ask.StorePinned number))
            ⊎ (asks self.old.machine ≡ Some (Ask.StoreRepinned number)) }
        requires within { number < 2 ^ 63 }
        ensures { self.new ≡ with_word self.old (Word.Pinned number) (heard self.old.machine Found.Stored) }
    {
        self.word = Word::Pinned(number);
        self.machine.take(Found::Stored);
    }

    fn unpublish(&mut self)
        requires { asks self.old.machine ≡ Some Ask.StoreUnpinned }
        ensures { self.new ≡ with_word self.old Word.Unpinned (heard self.old.machine Found.Stored) }
    {
        self.word = Word::Unpinned;
        self.machine.take(Found::Stored);
    }

    /// Stores the epoch that it advances to.
    fn advance(&mut self, number: u64, epoch: &mut u64)
        requires { asks self.old.machine ≡ Some (Ask.StoreEpoch number) }
        ensures epoch { epoch.new ≡ number }
        ensures seat { self.new ≡ with_machine self.old (heard self.old.machine Found.Stored) }
    {
        *epoch = number;
        self.machine.take(Found::Stored);
    }

    /// Keeps a job under the next ticket, which it returns.
    fn keep_job(&mut self, tickets: &mut u64) -> u64
        requires asked { asks self.old.machine ≡ Some Ask.KeepJob }
        requires tickets { tickets.old + 1 < 2 ^ 64 }
        ensures ticket { result ≡ tickets.old }
        ensures tickets { tickets.new ≡ tickets.old + 1 }
        ensures seat { self.new ≡ with_machine self.old (heard self.old.machine
            (Found.Job (record { ticket = tickets.old; removes = removed_by self.old.progress }))) }
    {
        let removes = self.removed();
        let ticket = *tickets;
        *tickets = ticket + 1;
        self.machine.take(Found::Job(Deferral { ticket, removes }));
        ticket
    }

    /// The name whose removal the call under way defers.
    fn removed(&self) -> Option<Name>
        ensures { result ≡ removed_by self.now.progress }
    {
        match self.progress {
            Progress::Driven(Call::DeferDestroy(_, ptr)) => ptr.name,
            _ => None,
        }
    }

    /// The position is free again.
    fn leave(&mut self)
        requires { asks self.old.machine ≡ Some Ask.StoreFree }
        ensures { self.new ≡ free_seat self.old.machine.sizes }
    {
        self.word = Word::Free;
        self.machine.take(Found::Stored);
        self.progress = Progress::Idle;
        self.guards.clear();
        self.paused = None;
        self.readings.clear();
    }

    /// Takes the position: a new registration has no guard, an empty bag and no pin so far.
    #[inline(never)]
    pub fn register(&mut self, sizes: Sizes)
        requires { IsSized sizes }
        ensures { self.new ≡ record (free_seat sizes) { word = Word.Unpinned } }
    {
        self.word = Word::Unpinned;
        self.machine = Machine::new(sizes);
        self.progress = Progress::Idle;
        self.guards.clear();
        self.paused = None;
        self.readings.clear();
    }

    /// Begins a call that isn't refused.
    pub fn begin(&mut self, call: Call)
        requires { self.old.machine.stage ≡ Idle }
        ensures { self.new ≡ begun_seat call self.old }
    {
        match call {
            Call::Pin => self.drive(Action::Pin, call),
            Call::Unpin(_) => self.drive(Action::Unpin, call),
            Call::Repin(Some(_)) => self.drive(Action::Repin, call),
            Call::Pause(Some(_)) => self.drive(Action::Unpin, call),
            Call::Resume(Some(_)) => self.drive(Action::Pin, call),
            Call::Defer(Some(_)) => self.drive(Action::Defer, call),
            Call::Flush(Some(_)) => self.drive(Action::Flush, call),
            Call::Release => self.drive(Action::Release, call),
            Call::DeferDestroy(Some(_), _) => self.drive(Action::Defer, call),
            Call::Defer(None) => self.progress = Progress::CallsNow(None),
            Call::DeferDestroy(None, ptr) => self.progress = Progress::CallsNow(ptr.name),
            Call::Access(access) => self.begin_access(access),
            Call::Repin(None) | Call::Pause(None) | Call::Resume(None) | Call::Flush(None) => {
                self.progress = Progress::Ends(Reply::Done(AccessAnswer::Unit));
            }
        }
    }

    fn drive(&mut self, action: Action, call: Call)
        requires { self.old.machine.stage ≡ Idle }
        ensures { self.new ≡ drives action call self.old }
    {
        self.machine.begin(action);
        self.progress = Progress::Driven(call);
    }

    fn begin_access(&mut self, access: Access)
        ensures { self.new ≡ begun_seat (Call.Access access) self.old }
    {
        if has_steps(access) {
            self.progress = Progress::Accesses(access, 0, NULL);
        } else {
            self.progress = Progress::Ends(Reply::Done(AccessAnswer::Absent));
        }
    }

    /// One step of the call on cells and pointers that is under way.
    pub fn access(&mut self, access: Access, made: u64, found: Ptr, heap: &mut Heap) -> Reply
        requires under_way { self.old.progress ≡ Progress.Accesses access made found }
        requires room { CanRead access self.old.readings heap.old }
        ensures { (did : Touched) × Touches access made found heap.old did × (result ≡ access_reply did.told)
            × (self.new ≡ accessed_seat access made did.told self.old) × (heap.new ≡ did.heap) }
    {
        // For the prover: a field read shows what a seat keeps between two steps.
        let _ = &self.readings;
        let told = heap.touch(access, made, found);
        keep_readings(&mut self.readings, access, told);
        match told {
            Accessed::Again(ptr) => {
                self.progress = Progress::Accesses(access, made + 1, ptr);
                Reply::Stepped
            }
            Accessed::Answers(answer) => {
                self.progress = Progress::Ends(Reply::Done(answer));
                Reply::Stepped
            }
            Accessed::NoSlot => {
                self.progress = Progress::Idle;
                Reply::Refused(Fault::CellsFull)
            }
        }
    }

    /// Calls a job at once, the removal of this name or work: no participant may still need what it is about.
    pub fn call_now(&mut self, removes: Option<Name>, heap: &mut Heap) -> Reply
        ensures reply { result ≡ Reply.CalledNow (outcome_of heap.old removes) }
        ensures heap { heap.new ≡ heap_after_job heap.old removes }
        ensures seat { self.new ≡ record self.old { progress = Progress.Ends (Reply.Done AccessAnswer.Unit) } }
    {
        self.progress = Progress::Ends(Reply::Done(AccessAnswer::Unit));
        Reply::CalledNow(heap.call_job(removes))
    }

    /// No call is under way any more.
    pub fn rest(&mut self)
        ensures { self.new ≡ record self.old { progress = Progress.Idle } }
    {
        self.progress = Progress::Idle;
    }

    /// Ends a call that has nothing left to ask, and returns it.
    pub fn end(&mut self, call: Call) -> Reply
        requires ended { self.old.machine.stage ≡ End }
        requires fits { guards_after self.old.machine.action self.old.machine.guards < 2 ^ 32 }
        requires room { adds_guard call ≡ true → length self.old.guards < 64 }
        ensures reply { result ≡ end_reply call self.old }
        ensures seat { self.new ≡ ended_seat call self.old }
    {
        let mut reply = Reply::Done(AccessAnswer::Unit);
        match call {
            Call::Pin => {
                let number = lowest(self.guards.as_slice());
                self.guards.push(number);
                reply = Reply::Done(AccessAnswer::Guard(number));
            }
            Call::Unpin(Some(guard)) => self.guards = without(self.guards.as_slice(), guard),
            Call::Pause(Some(guard)) => {
                self.guards = without(self.guards.as_slice(), guard);
                self.paused = Some(guard);
            }
            Call::Resume(Some(guard)) => {
                self.guards.push(guard);
                self.paused = None;
            }
            Call::Defer(_) | Call::Flush(_) | Call::Release | Call::DeferDestroy(_, _) => {
                if self.machine.found_full() {
                    reply = Reply::Refused(Fault::BagsFull);
                }
            }
            Call::Unpin(None) | Call::Repin(_) | Call::Pause(None) | Call::Resume(None) => {}
            Call::Access(_) => {}
        }
        self.machine.end();
        self.progress = Progress::Idle;
        reply
    }
}

/// The cursor of a put that has taken no step. It has room where fewer bags are in the store than it has places, and no
/// place without a bag is claimed.
fn begin_put<S: BagStore<Job = Deferral>>(store: &S) -> S::Putting
    ensures passed { S.passed result ≡ 0 }
    ensures few { S.puts_left (S.capacity store.now) result ≤ most_in_store (S.capacity store.now) }
    ensures room { ((place : ℕ) → ¬ (S.Reserved store.now place))
        × (length (S.queued store.now) < length (S.occupied store.now)) → S.has_room store.now result ≡ true }
{
    // For the prover: its range shows how few steps the put takes at most.
    let _places = store.capacity();
    store.start_put()
}

/// Whether the call has a step at all.
fn has_steps(access: Access) -> bool
    ensures { result ≡ has_steps access }
{
    match access {
        Access::Read(_, ptr) | Access::Write(_, ptr, _) | Access::Take(_, ptr) => ptr
            .name
            .is_some(),
        _ => true,
    }
}
