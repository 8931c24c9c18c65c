//! Releases: a participant gives its position up, unless its held bag finds no place.
ghost use Rattle.std.specs.Prelude.{◌≡◌, ◌≢◌, true, false, [], None};
ghost use Rattle.epoch_tables.specs.TableSteps.{after_free};
ghost use Rattle.epoch_tables.specs.SharedSteps.{RestsAt};
ghost use Rattle.epoch_handles.specs.Handles.{IsSeated, IsReady, IsSame, IsPinned, Does, DoesAndCalls};
ghost use Rattle.epoch_machine.specs.Machine.{after_collect};
ghost use Rattle.epoch_handles.specs.Releases.{IsLeaving, IsRefused, IsFreed, IsReleased};
ghost use Rattle.epoch_machine.specs.declared.machine.Action.TheVariants.{Release};
ghost use Rattle.epoch_machine.specs.declared.machine.Stage.TheVariants.{StoreUnpinned};

use crate::local::Local;
use crate::rooms::OwnRooms;
use epoch_bags::Run;
use epoch_machine::Answer;
use std::mem;

impl<'c, T, W> Local<'c, T, W> {
    /// Stores the own word: free. The participant has no position from then on.
    fn free(&mut self)
        requires { IsSeated self.old }
        ensures only { self.new ≡ record self.old { seat = self.new.seat } }
        ensures knows { self.new.seat.me.0 ≡ after_free self.old.seat.me.0 }
    {
        self.collector
            .participants
            .free(&mut self.seat, self.position);
    }
}

impl<'c, T: Drop, W: Run> Local<'c, T, W> {
    /// A release: pins as a first pin does, puts the held bag if it has a job, stores the word of an unpinned
    /// participant, and, unless each place was seen occupied, the word of a free position. Returns whether the
    /// position is free.
    pub(crate) fn release(&mut self, rooms: &mut OwnRooms<'c, T>) -> bool
        requires ready { IsReady self.old }
        requires none { self.old.machine.guards ≡ 0 }
        ensures same { IsSame self.old self.new }
        // where it is refused: the action is over, the participant not pinned, and the bag held as before
        ensures does { result ≡ false → Does self.old Release self.new }
        ensures called { result ≡ false → DoesAndCalls W.done W.Removing.tried self.old Release self.new }
        ensures ready { result ≡ false → IsReady self.new }
        ensures held { result ≡ false → (self.old.machine.held ≢ []) × (self.new.machine.held ≡ self.old.machine.held) }
        ensures counted { result ≡ false → self.new.machine.guards ≡ 0 }
        ensures found { result ≡ false → self.new.machine.full ≡ true }
        // where it is accepted: the held bag is whole in a place, and the machine was driven to the store of 0
        ensures frees { result ≡ true → IsReleased W.done W.Removing.tried self.old self.new }
    {
        self.pin_to_leave(rooms);
        self.leave()
    }

    /// The pin of a release, with the collection that follows a first pin and each 128th.
    fn pin_to_leave(&mut self, rooms: &mut OwnRooms<'c, T>)
        requires ready { IsReady self.old }
        requires none { self.old.machine.guards ≡ 0 }
        ensures leaving { IsLeaving W.done W.Removing.tried self.old self.new }
        ensures begins { self.new.machine.stage ≡ after_collect Release self.new.machine.held }
    {
        let epoch = self.pin_steps();
        if !self.machine.release_pinned(epoch) {
            return;
        }
        self.collect(rooms);
    }

    /// What a release does after its pin and the collection. Returns whether the position is free.
    fn leave(&mut self) -> bool
        requires seated { IsSeated self.old }
        requires rests { RestsAt self.old.claimer.me }
        requires pinned { IsPinned self.old.seat.me.0 }
        requires begins { self.old.machine.stage ≡ after_collect Release self.old.machine.held }
        requires action { self.old.machine.action ≡ Release }
        requires room { self.old.machine.full ≡ false }
        requires none { self.old.machine.guards ≡ 0 }
        ensures refused { result ≡ false → IsRefused W.done W.Removing.tried self.old self.new }
        ensures freed { result ≡ true → IsFreed W.done W.Removing.tried self.old self.new }
    {
        if self.machine.holds_none() {
            self.leave_for_good();
            return true;
        }
        self.put();
        if self.machine.found_full() {
            self.stay();
            return false;
        }
        self.leave_for_good();
        true
    }

    /// The two stores that free the position.
    #[inline(never)]
    fn leave_for_good(&mut self)
        requires seated { IsSeated self.old }
        requires rests { RestsAt self.old.claimer.me }
        requires begins { self.old.machine.stage ≡ StoreUnpinned }
        requires action { self.old.machine.action ≡ Release }
        requires room { self.old.machine.full ≡ false }
        requires none { self.old.machine.held ≡ [] }
        ensures freed { IsFreed W.done W.Removing.tried self.old self.new }
        ensures kept { self.new.claimer ≡ self.old.claimer }
    {
        self.store_unpinned();
        self.machine.take(Answer::Stored);
        self.free();
        self.machine.take(Answer::Stored);
    }

    /// The end of a release whose held bag found no place: the participant is unpinned, and keeps its position.
    fn stay(&mut self)
        requires seated { IsSeated self.old }
        requires rests { RestsAt self.old.claimer.me }
        requires begins { self.old.machine.stage ≡ StoreUnpinned }
        requires action { self.old.machine.action ≡ Release }
        requires full { self.old.machine.full ≡ true }
        requires held { self.old.machine.held ≢ [] }
        requires none { self.old.machine.guards ≡ 0 }
        ensures { IsRefused W.done W.Removing.tried self.old self.new }
    {
        self.store_unpinned();
        self.machine.take(Answer::Stored);
        self.machine.end();
    }

    /// Ends a participant that has no position. A freed machine holds no job, so there is nothing to drop in it: to
    /// look for jobs among the blanks of its bags would take as long as the rest of a release.
    #[inline(always)]
    pub(crate) fn spend(local: Local<'c, T, W>)
        requires gone { local.seat.me.0.position ≡ None }
        requires empty { local.machine.held ≡ [] }
    {
        let Local {
            collector: _,
            seat: _,
            claimer: _,
            position: _,
            machine,
        } = local;
        mem::forget(machine);
    }
}
