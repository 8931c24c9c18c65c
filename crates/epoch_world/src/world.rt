//! The world: all participants of one collector over a store of bags, which takes steps one at a time.
ghost use Rattle.std.specs.Prelude.{◌≡◌, ◌≢◌, ℕ, ◌+◌, ◌-◌, ◌^◌, ◌<◌, ◌≤◌, [], ◌∷◌, length, IfOk, IfErr, OnErr};
ghost use Rattle.std.specs.Prelude.{MatchOption, IfNone, IfSome, slice_index_or, slice_get, Some, None, true, false};
ghost use Rattle.std.specs.Prelude.{IsTrue, ◌↔◌, vec_capacity};
ghost use Rattle.epoch_cells.specs.declared.fault.Fault.TheVariants.{NoMemory};
ghost use Rattle.epoch_laws.specs.declared.step.Step.TheVariants.{Register, Begin, Go, End as EndStep, EndGo};
ghost use Rattle.epoch_machine.specs.Machine.{IsSized};
ghost use Rattle.epoch_laws.specs.Shapes.{IsValid, sizes_of};
ghost use Rattle.epoch_laws.specs.Run.{IsFresh, Runs, TakesStep, Over, entries_of, free_seat, word_number, refusal};
ghost use Rattle.epoch_laws.specs.Run.{seat_of, position_word, WorldSeat};
ghost use Rattle.epoch_world.specs.Seats.{WordFits};
ghost use Rattle.epoch_world.specs.Earlier.{AlongSteps, AlongCall, SinceEachState};
ghost use Rattle.epoch_world.specs.StoreSteps.{MakesOneStep, RunsBy};
ghost use Rattle.epoch_world.specs.Worlds.{IsEmptying};
ghost use Rattle.epoch_laws.specs.Grace.{KeepsGrace};
ghost use Rattle.epoch_laws.specs.Tickets.{HoldsEachTicketOnce, NumbersTickets, times_called, times_deferred};
ghost use Rattle.epoch_laws.specs.Ends.{EndsAtCount};
ghost use Rattle.epoch_laws.specs.Fits.{IsLawful};
ghost use Rattle.epoch_laws.specs.Full.{FullWhereFound};
ghost use Rattle.epoch_laws.specs.Refusals.{RefusedAlong, all_quiet, none_collected};
ghost use Rattle.epoch_laws.specs.Calls.{call_entries, EndsAtLast};
ghost use Rattle.epoch_laws.specs.Rounds.{RoundsCallAll};
ghost use Rattle.epoch_laws.specs.Collected.{CollectsFew};
ghost use Rattle.epoch_laws.specs.Reach.{LeavesOnce, KeepsLoaded, past_of};
ghost use Rattle.epoch_laws.specs.Meeting.{UsageTests, tested, LeavesWell, met_past_of};
ghost use Rattle.epoch_laws.specs.Given.{GivesNoNameTwice};
ghost use Rattle.epoch_laws.specs.Removals.{CallsWhatWasDeferred};
ghost use Rattle.epoch_laws.specs.Standing.{StandsOrDestroyed, given_of, LoadedStand};

mod calls;
mod common;
mod guards;
mod places;
mod readings;
mod seat;
mod shown;

use calls::{go_on, go_to_end, most_steps};
use common::Common;
use epoch_bags::{Bag, BagStore, Epoch, FREE, Places, SealedBag, UNPINNED, pinned_word};
use epoch_cells::Fault;
use epoch_laws::heap::{AccessAnswer, Heap};
use epoch_laws::{Call, Deferral, Reply, Shape, Step, Word};
use epoch_machine::Sizes;
pub use seat::Seat;
use std::alloc::Global;
use std::marker::Model;

/// How far the end of a world is.
#[derive(Clone, Copy)]
enum EndStage {
    Open,
    Emptying,
    Over,
}

/// All participants of one collector, over a store of bags. A test chooses which of them takes the next step.
#[derive(Drop)]
pub struct World<S: BagStore<Job = Deferral> = Places<Deferral>> {
    alloc: Global,
    sizes: Sizes,
    seats: Vec<Seat>,
    common: Common<S>,
    putting: Vec<S::Putting>,
    taking: Vec<S::Taking>,
    end: EndStage,
    hand: SealedBag<Deferral>,
    count: u64,
}

impl<S: BagStore<Job = Deferral>> Model for World<S> {
    ghost use Rattle.std.specs.Prelude.{◌≡◌, ◌^◌, ◌<◌, ◌≤◌, length};
    ghost use Rattle.epoch_machine.specs.Machine.{IsSized};
    ghost use Rattle.epoch_laws.specs.Run.{State};
    ghost use Rattle.epoch_world.specs.Worlds.{state_of, state_over, with_bags, ending_of, ClaimsKnown};
    ghost use Rattle.epoch_world.specs.Worlds.{ReservesKnown};
    ghost use Rattle.epoch_laws.specs.Kept.{IsSound};

    ghost Value = { State };

    ghost view = { λ a. state_over S.queued S.occupied S.passed S.ahead S.has_room a.sizes a.common a.seats.items
        (ending_of a.end a.hand.jobs a.count) a.putting.items a.taking.items };

    ghost invariant = { λ a. record {
      sized : IsSized a.sizes;
      epoch : a.common.epoch < 2 ^ 63;
      putting : length a.putting.items ≡ length a.seats.items;
      taking : length a.taking.items ≡ length a.seats.items;
      kept : IsSound (state_of a.sizes (with_bags S.queued a.common) a.seats.items
          (ending_of a.end a.hand.jobs a.count));
      claimed : ClaimsKnown (S.Claimed a.common.store) S.Claims a.sizes a.seats.items a.taking.items;
      reserved : ReservesKnown (S.Reserved a.common.store) S.Reserves S.Claims a.sizes a.seats.items
          a.putting.items a.taking.items;
    } };
}

impl<S: BagStore<Job = Deferral>> World<S> {
    /// Makes a world of this shape: no participant is registered, nothing is deferred, and the store is empty.
    ///
    /// The shape must be valid: `Shape::is_valid`. `NoMemory`: an allocation was refused, and nothing was made.
    pub fn new(alloc: Global, shape: Shape) -> Result<World<S>, Fault>
        requires { IsValid shape }
        // A new world has no participant, no job, an empty store, null roots and free cells. Its numbers are those of
        // the shape.
        ensures fresh { IfOk result IsFresh }
        ensures epoch { IfOk result (λ world. world.epoch ≡ shape.start_epoch) }
        ensures positions { IfOk result (λ world. length world.seats ≡ shape.participants) }
        ensures sizes { IfOk result (λ world. world.sizes ≡ sizes_of shape) }
        ensures places { IfOk result (λ world. length world.places ≡ shape.bags) }
        ensures cells { IfOk result (λ world. length world.heap.cells ≡ shape.cells) }
        ensures roots { IfOk result (λ world. length world.heap.roots ≡ shape.roots) }
        ensures fields { IfOk result (λ world. world.heap.fields ≡ shape.fields) }
        ensures align { IfOk result (λ world. world.heap.align ≡ shape.align) }
        ensures start_turn { IfOk result (λ world. world.heap.start_turn ≡ shape.start_turn) }
        ensures no_memory { IfErr result (λ fault. fault ≡ NoMemory) }
    {
        let sizes = Sizes {
            positions: shape.participants,
            bag_jobs: shape.bag_jobs,
            collect_bags: shape.collect_bags,
        };
        let store = S::with_room(alloc, shape.bags as usize)?;
        let heap = Heap::new(
            alloc,
            shape.roots as usize,
            shape.cells as u32,
            shape.fields,
            shape.align,
            shape.start_turn as u32,
        )?;
        let count = shape.participants as usize;
        let seats = free_seats(alloc, count, sizes)?;
        let putting = repeated(alloc, count, store.start_put())?;
        let taking = repeated(alloc, count, store.start_take())?;
        Ok(World {
            alloc,
            sizes,
            seats,
            common: Common {
                epoch: shape.start_epoch,
                store,
                tickets: 0,
                heap,
            },
            putting,
            taking,
            end: EndStage::Open,
            hand: Bag::new().seal(Epoch::starting()),
            count: 0,
        })
    }

    /// Takes these steps, one after the other, and returns one reply for each.
    ///
    /// `NoMemory`: there was no memory for the replies, and no step was taken. The laws hold of this list together with
    /// every earlier run that leads from a new world to the state before it: lists that are given one after the other
    /// count as one list.
    pub fn run(&mut self, steps: &[Step]) -> Result<Vec<Reply>, Fault>
        // Steps and replies lead from the state before to the state after, one atomic step each.
        ensures runs { IfOk result (λ replies. Runs self.old (entries_of steps.now replies.items) self.new) }
        // In such a run each Go makes at most one step of the store, as the store says of its own steps.
        ensures one_step { IfOk result (λ replies. RunsBy
            (MakesOneStep S.queued S.occupied S.passed S.ahead S.has_room S.PutMoves S.TakeMoves)
            self.old (entries_of steps.now replies.items) self.new) }
        ensures replies { IfOk result (λ replies. length replies.items ≡ length steps.now) }

        // No job is called while a participant pinned at its deferral has stayed pinned without repinning.
        ensures grace { IfOk result (AlongSteps self.old steps.now (λ fresh log. KeepsGrace log)) }
        // Each accepted job is in exactly one bag, or was called exactly once.
        ensures once { IfOk result (AlongSteps self.old steps.now (λ fresh log. HoldsEachTicketOnce log self.new)) }
        // The ticket of an accepted job is the number of those accepted before it.
        ensures tickets { IfOk result (AlongSteps self.old steps.now (λ fresh log. NumbersTickets log)) }
        // Each event stands only where it may.
        ensures lawful { IfOk result (AlongSteps self.old steps.now (λ fresh log. IsLawful log)) }
        // The bags are told to be full exactly where the call's put found each place of the store occupied.
        ensures full { IfOk result (AlongSteps self.old steps.now (λ fresh log. FullWhereFound fresh log self.new)) }
        // When an end is over, every accepted job was called.
        ensures all_called { IfOk result (AlongSteps self.old steps.now
            (λ fresh log. self.new.ending ≡ Over → (t : ℕ) → times_called t log ≡ times_deferred t log)) }
        // An end that answered how many jobs it called has called that many, and every accepted job was called.
        ensures ended { IfOk result (AlongSteps self.old steps.now (λ fresh log. EndsAtCount log)) }
        // Rounds of a participant that no other one disturbs call every job of the bags in the store: one round that
        // puts its own bag, one more, and one for each collection that the bags take.
        ensures rounds { IfOk result (λ replies. SinceEachState self.old (entries_of steps.now replies.items)
            (λ start log. RoundsCallAll start log self.new)) }
        // Each call takes at most as many bags as one collection may take, and calls at most the jobs of as many
        // full bags.
        ensures few { IfOk result (AlongSteps self.old steps.now
            (λ fresh log. (run : Runs fresh log self.new) → CollectsFew fresh log self.new run)) }
        // A call that is refused leaves all as it was when it began, except for what each call may change.
        ensures refused { IfOk result (AlongSteps self.old steps.now
            (λ fresh log. (run : Runs fresh log self.new)
            → RefusedAlong (seat_of fresh) all_quiet none_collected fresh self.new log run)) }
        // Where cells leave once and out of reach, and no field changes of a cell that has fallen out of reach, no name
        // that is loaded under a guard still held is destroyed, and each such name has its cell.
        ensures reach { IfOk result (AlongSteps self.old steps.now
            (λ fresh log. (run : Runs fresh log self.new) → LeavesOnce fresh log self.new run
            → KeepsLoaded (past_of fresh log self.new run))) }
        ensures loaded { IfOk result (AlongSteps self.old steps.now
            (λ fresh log. (run : Runs fresh log self.new) → LeavesOnce fresh log self.new run
            → LoadedStand (past_of fresh log self.new run) self.new.heap)) }
        // A structure may say by tests which names are in, and which a pointer step meets under its guard. Where a name
        // leaves only by a deferred removal, or by a Take before it ever was in, and is not in from then on, and where
        // each name that is met was in at some moment since the participant published, no name that was met under a
        // guard still held is destroyed.
        ensures met { IfOk result (AlongSteps self.old steps.now
            (λ fresh log. (tests : UsageTests) (run : Runs fresh log self.new)
            → LeavesWell (tested tests) fresh log self.new run
            → KeepsLoaded (met_past_of (tested tests) fresh log self.new run))) }
        // No name is given twice, and each that was given has its cell or is destroyed, and not both.
        ensures given { IfOk result (AlongSteps self.old steps.now
            (λ fresh log. (run : Runs fresh log self.new) → GivesNoNameTwice fresh log self.new run)) }
        ensures stands { IfOk result (AlongSteps self.old steps.now
            (λ fresh log. (run : Runs fresh log self.new)
            → StandsOrDestroyed (given_of fresh log self.new run) (past_of fresh log self.new run) self.new.heap)) }
        // A job in a bag removes the name that its ticket's deferral named, or is work, and its call does exactly that.
        ensures removals { IfOk result (AlongSteps self.old steps.now
            (λ fresh log. (run : Runs fresh log self.new) → CallsWhatWasDeferred fresh log self.new run)) }

        ensures err { OnErr result (self.new ≡ self.old) }
        ensures no_memory { IfErr result (λ fault. fault ≡ NoMemory) }
    {
        let mut replies = with_room(self.alloc, steps.len())?;
        for step in steps {
            let reply = self.step(*step);
            replies.push_reserved(reply);
        }
        Ok(replies)
    }

    /// Begins this participant's call, goes on until it ends, and returns a reply for each step.
    ///
    /// A call that is refused at once has one reply. `NoMemory`: there was no memory for the replies, and no step was
    /// taken. The laws hold of these steps together with every earlier run, as for [`World::run`].
    pub fn call(&mut self, participant: u64, call: Call) -> Result<Vec<Reply>, Fault>
        // It is a run of Begin, and then of Go.
        ensures runs { IfOk result (λ replies. Runs self.old (call_entries participant call replies.items) self.new) }
        // In such a run each Go makes at most one step of the store, as the store says of its own steps.
        ensures one_step { IfOk result (λ replies. RunsBy
            (MakesOneStep S.queued S.occupied S.passed S.ahead S.has_room S.PutMoves S.TakeMoves)
            self.old (call_entries participant call replies.items) self.new) }
        // The last reply ends the call, and none before it does.
        ensures ends { IfOk result (λ replies. EndsAtLast replies.items) }

        // No job is called while a participant pinned at its deferral has stayed pinned without repinning.
        ensures grace { IfOk result (AlongCall self.old participant call (λ fresh log. KeepsGrace log)) }
        // Each accepted job is in exactly one bag, or was called exactly once.
        ensures once { IfOk result (AlongCall self.old participant call
            (λ fresh log. HoldsEachTicketOnce log self.new)) }
        // The ticket of an accepted job is the number of those accepted before it.
        ensures tickets { IfOk result (AlongCall self.old participant call (λ fresh log. NumbersTickets log)) }
        // Each event stands only where it may.
        ensures lawful { IfOk result (AlongCall self.old participant call (λ fresh log. IsLawful log)) }
        // The bags are told to be full exactly where the call's put found each place of the store occupied.
        ensures full { IfOk result (AlongCall self.old participant call
            (λ fresh log. FullWhereFound fresh log self.new)) }
        // Rounds of a participant that no other one disturbs call every job of the bags in the store.
        ensures rounds { IfOk result (λ replies. SinceEachState self.old (call_entries participant call replies.items)
            (λ start log. RoundsCallAll start log self.new)) }
        // Each call takes at most as many bags as one collection may take, and calls at most the jobs of as many
        // full bags.
        ensures few { IfOk result (AlongCall self.old participant call
            (λ fresh log. (run : Runs fresh log self.new) → CollectsFew fresh log self.new run)) }
        // A call that is refused leaves all as it was when it began, except for what each call may change.
        ensures refused { IfOk result (AlongCall self.old participant call
            (λ fresh log. (run : Runs fresh log self.new)
            → RefusedAlong (seat_of fresh) all_quiet none_collected fresh self.new log run)) }
        // Where cells leave once and out of reach, and no field changes of a cell that has fallen out of reach, no name
        // that is loaded under a guard still held is destroyed, and each such name has its cell.
        ensures reach { IfOk result (AlongCall self.old participant call
            (λ fresh log. (run : Runs fresh log self.new) → LeavesOnce fresh log self.new run
            → KeepsLoaded (past_of fresh log self.new run))) }
        ensures loaded { IfOk result (AlongCall self.old participant call
            (λ fresh log. (run : Runs fresh log self.new) → LeavesOnce fresh log self.new run
            → LoadedStand (past_of fresh log self.new run) self.new.heap)) }
        // A structure may say by tests which names are in, and which a pointer step meets under its guard. Where a name
        // leaves only by a deferred removal, or by a Take before it ever was in, and is not in from then on, and where
        // each name that is met was in at some moment since the participant published, no name that was met under a
        // guard still held is destroyed.
        ensures met { IfOk result (AlongCall self.old participant call
            (λ fresh log. (tests : UsageTests) (run : Runs fresh log self.new)
            → LeavesWell (tested tests) fresh log self.new run
            → KeepsLoaded (met_past_of (tested tests) fresh log self.new run))) }
        // No name is given twice, and each that was given has its cell or is destroyed, and not both.
        ensures given { IfOk result (AlongCall self.old participant call
            (λ fresh log. (run : Runs fresh log self.new) → GivesNoNameTwice fresh log self.new run)) }
        ensures stands { IfOk result (AlongCall self.old participant call
            (λ fresh log. (run : Runs fresh log self.new)
            → StandsOrDestroyed (given_of fresh log self.new run) (past_of fresh log self.new run) self.new.heap)) }
        // A job in a bag removes the name that its ticket's deferral named, or is work, and its call does exactly that.
        ensures removals { IfOk result (AlongCall self.old participant call
            (λ fresh log. (run : Runs fresh log self.new) → CallsWhatWasDeferred fresh log self.new run)) }

        // If memory is refused, nothing was done.
        ensures err { OnErr result (self.new ≡ self.old) }
        ensures no_memory { IfErr result (λ fault. fault ≡ NoMemory) }
    {
        let steps = most_steps(
            self.sizes,
            self.common.store.capacity(),
            self.common.heap.slots(),
        );
        let mut replies = with_room(self.alloc, steps + 1)?;
        if let Some(fault) = self.refusal(participant, call) {
            replies.push_reserved(Reply::Refused(fault));
            return Ok(replies);
        }
        let index = participant as usize;
        self.seats[index].begin(call);
        replies.push_reserved(Reply::Began);
        go_to_end(
            index,
            self.sizes,
            steps,
            &mut self.seats,
            &mut self.common,
            &mut self.putting[index],
            &mut self.taking[index],
            &mut replies,
        );
        Ok(replies)
    }

    /// Takes one step, and returns its reply. It takes no memory.
    pub fn step(&mut self, step: Step) -> Reply
        // One step does what the definition of a step says. The definition tells which fault refuses the step, in which
        // order faults are tested, and what the state is then; what a put sees of the places, and whether it has room;
        // and what is ahead of a collection.
        ensures takes { TakesStep self.old step result self.new }
        // A Go makes at most one step of the store, as the store says of its own steps.
        ensures one_step { MakesOneStep S.queued S.occupied S.passed S.ahead S.has_room S.PutMoves S.TakeMoves
            self.old step self.new }
    {
        match step {
            Step::Register => self.register(),
            Step::Begin(position, call) => self.begin(position, call),
            Step::Go(position) => self.go(position),
            Step::End => self.begin_end(),
            Step::EndGo => self.go_on_end(),
        }
    }

    /// Returns the present epoch. It is no step.
    pub fn epoch(&self) -> u64
        // `epoch` returns the present epoch. `word` returns a participant's word, or `None` past the table.
        ensures { result ≡ self.now.epoch }
    {
        self.common.epoch
    }

    /// Returns the word of the participant at a position, or `None` past the table. It is no step.
    pub fn word(&self, position: u64) -> Option<u64>
        ensures { MatchOption result (length self.now.seats ≤ position)
            (λ word. (position < length self.now.seats) × (word ≡ word_number (position_word self.now position))) }
    {
        let seat = self.seats.get(position as usize)?;
        Some(number_of(seat.word()))
    }

    /// Returns whether the held bag of the participant at a position takes a further job without being put first, or
    /// `None` where no participant is registered. It is no step.
    pub fn has_room(&self, position: u64) -> Option<bool>
        // `has_room` returns whether a participant's held bag has room, or `None` if no participant is registered.
        ensures value { MatchOption result (position_word self.now position ≡ Word.Free)
            (λ room. (position_word self.now position ≢ Word.Free)
            × (IsTrue room ↔ (length (seat_of self.now position).machine.held < self.now.sizes.bag_jobs))) }
        ensures full { IfSome result (λ room. room ≡ false
            → length (seat_of self.now position).machine.held ≡ (seat_of self.now position).machine.sizes.bag_jobs) }
        ensures room { IfSome result (λ room. room ≡ true
            → length (seat_of self.now position).machine.held < (seat_of self.now position).machine.sizes.bag_jobs) }
    {
        self.seats.get(position as usize)?.has_room()
    }

    fn register(&mut self) -> Reply
        ensures { TakesStep self.old Register result self.new }
    {
        let EndStage::Open = self.end else {
            return Reply::Refused(Fault::Ended);
        };
        let Some(index) = first_free(&self.seats) else {
            return Reply::Refused(Fault::TableFull);
        };
        self.seats[index].register(self.sizes);
        Reply::Registered(index as u64)
    }

    /// Returns the fault that refuses this call of the participant at a position now, or `None`. It is no step.
    pub fn refusal(&self, position: u64, call: Call) -> Option<Fault>
        // `refusal` returns the fault that would refuse a call now.
        ensures { result ≡ refusal call (seat_of self.now position) self.now.tickets self.now.heap }
    {
        match self.seats.get(position as usize) {
            Some(seat) => seat.refusal(call, self.common.tickets, &self.common.heap),
            None => Some(Fault::NotRegistered),
        }
    }

    fn begin(&mut self, position: u64, call: Call) -> Reply
        ensures { TakesStep self.old (Begin position call) result self.new }
    {
        if let Some(fault) = self.refusal(position, call) {
            return Reply::Refused(fault);
        }
        self.seats[position as usize].begin(call);
        Reply::Began
    }

    fn go(&mut self, position: u64) -> Reply
        ensures takes { TakesStep self.old (Go position) result self.new }
        ensures one_step { MakesOneStep S.queued S.occupied S.passed S.ahead S.has_room S.PutMoves S.TakeMoves
            self.old (Go position) self.new }
    {
        let index = position as usize;
        if index >= self.seats.len() {
            return Reply::Refused(Fault::NotRegistered);
        }
        go_on(
            index,
            self.sizes,
            &mut self.seats,
            &mut self.common,
            &mut self.putting[index],
            &mut self.taking[index],
        )
    }

    fn begin_end(&mut self) -> Reply
        ensures { TakesStep self.old EndStep result self.new }
    {
        let EndStage::Open = self.end else {
            return Reply::Refused(Fault::Ended);
        };
        if !all_free(&self.seats) {
            return Reply::Refused(Fault::ParticipantsLeft);
        }
        self.end = EndStage::Emptying;
        self.hand = Bag::new().seal(Epoch::starting());
        self.count = 0;
        Reply::Began
    }

    fn go_on_end(&mut self) -> Reply
        ensures { TakesStep self.old EndGo result self.new }
    {
        match self.end {
            EndStage::Open | EndStage::Over => Reply::Refused(Fault::Idle),
            EndStage::Emptying => self.empty(),
        }
    }

    /// Calls the next job of the bag taken, or takes another bag, or is over.
    fn empty(&mut self) -> Reply
        requires { IsEmptying self.old.ending }
        ensures { TakesStep self.old EndGo result self.new }
    {
        if let Some(job) = self.hand.take_next() {
            self.count += 1;
            return Reply::Called(job.ticket, self.common.heap.call_job(job.removes));
        }
        match self.common.store.take_any() {
            Some(bag) => {
                self.hand = bag;
                Reply::Stepped
            }
            None => {
                self.end = EndStage::Over;
                Reply::Done(AccessAnswer::Count(self.count))
            }
        }
    }
}

/// An empty list with room for `count` replies.
fn with_room(alloc: Global, count: usize) -> Result<Vec<Reply>, Fault>
    ensures ok { IfOk result (λ replies. (replies.items ≡ []) × (count ≤ vec_capacity replies)) }
    ensures no_memory { IfErr result (λ fault. fault ≡ NoMemory) }
{
    match Vec::with_capacity(alloc, count) {
        Ok(replies) => Ok(replies),
        Err(_) => Err(Fault::NoMemory),
    }
}

fn free_seats(alloc: Global, count: usize, sizes: Sizes) -> Result<Vec<Seat>, Fault>
    requires { IsSized sizes }
    ensures count { IfOk result (λ seats. length seats.items ≡ count) }
    ensures free { IfOk result
        (λ seats. (position : ℕ) → slice_index_or seats.items position (free_seat sizes) ≡ free_seat sizes) }
    ensures no_memory { IfErr result (λ fault. fault ≡ NoMemory) }
{
    let Ok(mut seats) = Vec::with_capacity(alloc, count) else {
        return Err(Fault::NoMemory);
    };
    for _ in 0..count {
        let seat = Seat::free(alloc, sizes)?;
        seats.push_reserved(seat);
    }
    Ok(seats)
}

/// A list of `count` copies of a cursor.
fn repeated<C: Copy + Drop>(alloc: Global, count: usize, cursor: C) -> Result<Vec<C>, Fault>
    ensures ok { IfOk result (λ cursors. length cursors.items ≡ count) }
    ensures no_memory { IfErr result (λ fault. fault ≡ NoMemory) }
{
    let Ok(mut cursors) = Vec::with_capacity(alloc, count) else {
        return Err(Fault::NoMemory);
    };
    for _ in 0..count {
        cursors.push_reserved(cursor);
    }
    Ok(cursors)
}

/// Whether no participant is registered.
fn all_free(seats: &Vec<Seat>) -> bool
    ensures yes { result ≡ true → (position : ℕ) (other : WorldSeat) → position < length seats.now.items
        → (slice_index_or seats.now.items position other).word ≡ Word.Free }
    ensures no { result ≡ false → ((position : ℕ) (other : WorldSeat) → position < length seats.now.items
        → (slice_index_or seats.now.items position other).word ≡ Word.Free) → ⊥ }
{
    for seat in seats {
        let Word::Free = seat.word() else {
            return false;
        };
    }
    true
}

/// The least position that is free.
fn first_free(seats: &Vec<Seat>) -> Option<usize>
    ensures none { IfNone result ((position : ℕ) (other : WorldSeat) → position < length seats.now.items
        → (slice_index_or seats.now.items position other).word ≢ Word.Free) }
    ensures some { IfSome result (λ found. (found < length seats.now.items)
        × ((other : WorldSeat) → (slice_index_or seats.now.items found other).word ≡ Word.Free)) }
    ensures least { IfSome result (λ found. (position : ℕ) (other : WorldSeat) → position < found
        → (slice_index_or seats.now.items position other).word ≢ Word.Free) }
{
    for (index, seat) in seats.iter().enumerate() {
        if let Word::Free = seat.word() {
            return Some(index);
        }
    }
    None
}

/// A word as a number, as threads store it.
fn number_of(word: Word) -> u64
    requires { WordFits word }
    ensures { result ≡ word_number word }
{
    match word {
        Word::Free => FREE,
        Word::Unpinned => UNPINNED,
        Word::Pinned(epoch) => pinned_word(epoch),
    }
}
