//! Collections: all words are scanned, bags are taken out of the shared places, and their jobs are called.
ghost use Rattle.std.specs.Prelude.{◌≡◌, ℕ, ◌<◌, ◌^◌, IfSome, IfNone};
ghost use Rattle.epoch_tables.specs.SharedPlaces.{IsPlaceSeatOf as IsAt};
ghost use Rattle.epoch_tables.specs.SharedSteps.{RestsAt};
ghost use Rattle.epoch_machine.specs.Machine.{after_job};
ghost use Rattle.epoch_handles.specs.Handles.{IsSeated, IsPinned, Scans, CallsHand, HasTaken, TakesBags, Collects};
ghost use Rattle.epoch_machine.specs.declared.machine.Stage.TheVariants.{LoadScan, Take};

use crate::home::call_next;
use crate::local::Local;
use crate::rooms::OwnRooms;
use epoch_bags::queue::places::is_expired_word;
use epoch_bags::{Epoch, GREATEST_EPOCH, Run, TakeCursor, TakeStep};
use epoch_cells::{Freed, Rooms};
use epoch_machine::holds_up;

impl<'c, T, W> Local<'c, T, W> {
    /// Scans the words in a plain loop, and advances the epoch where none holds it up. Returns the epoch for which bags
    /// are taken.
    #[inline(always)]
    pub(crate) fn scan(&mut self) -> u64
        requires seated { IsSeated self.old }
        requires pinned { IsPinned self.old.seat.me.0 }
        requires begins { self.old.machine.stage ≡ LoadScan }
        ensures within { result < 2 ^ 63 }
        ensures scans { Scans self.old result self.new }
    {
        let positions = self.collector.participants.positions();
        let epoch = self.load_epoch();
        for position in 0..positions {
            let word = self.load_word(position);
            if holds_up(epoch, word) {
                self.machine.scanned(epoch);
                return epoch;
            }
        }
        if epoch < GREATEST_EPOCH {
            self.advance(epoch);
            self.machine.scanned(epoch + 1);
            return epoch + 1;
        }
        self.machine.scanned(epoch);
        epoch
    }
}

impl<'c, T: Drop, W: Run> Local<'c, T, W> {
    /// Calls what is left of the bag in hand, the oldest job first. Slots that removals give free are kept among these
    /// rooms, as many as they take.
    #[inline(never)]
    fn call_hand_into(&mut self, rooms: &mut Rooms<'c, T>)
        ensures only { self.new ≡ record self.old { machine = self.new.machine } }
        ensures calls { (expiry taken : ℕ)
            → self.old.machine.stage ≡ after_job self.old.machine expiry taken self.old.machine.hand
            → CallsHand W.done W.Removing.tried self.old expiry taken self.new }
    {
        let mut freed = Freed::none(self.position, rooms);
        while call_next(&mut self.machine, self.collector, &mut freed) {}
        self.collector.cells.note_freed(freed);
    }

    /// Calls what is left of the bag in hand, the oldest job first.
    ///
    /// It stands out of line, so that a collection without a bag passes through less code.
    #[inline(never)]
    fn call_hand(&mut self, rooms: &mut OwnRooms<'c, T>)
        ensures only { self.new ≡ record self.old { machine = self.new.machine } }
        ensures calls { (expiry taken : ℕ)
            → self.old.machine.stage ≡ after_job self.old.machine expiry taken self.old.machine.hand
            → CallsHand W.done W.Removing.tried self.old expiry taken self.new }
    {
        let guards_out = self.machine.guards() > 0;
        let list = if W::HAS_CELLS {
            rooms.receiving(&self.collector.cells, guards_out)
        } else {
            None
        };
        match list {
            Some(list) => {
                let mut list = list;
                self.call_hand_into(&mut list);
                rooms.take_back(Some(list));
            }
            None => {
                let mut none = self.collector.cells.no_rooms();
                self.call_hand_into(&mut none);
            }
        }
    }

    /// Looks at the places, as the first steps of a collection for `expiry`, up to the first place whose word tells
    /// of an expired bag. Returns where the collection stands, or `None` if it is over, since no word does.
    ///
    /// A plain loop over the words: in most collections no bag is expired.
    #[inline(always)]
    fn pass_places(&mut self, expiry: u64) -> Option<TakeCursor>
        requires places_of { IsAt self.old.collector.now.places self.old.claimer }
        requires rests { RestsAt self.old.claimer.me }
        requires takes { self.old.machine.stage ≡ Take expiry 0 }
        requires within { expiry < 2 ^ 63 }
        ensures some { IfSome result
            (λ cursor. HasTaken W.done W.Removing.tried self.old expiry cursor self.new) }
        ensures none { IfNone result (TakesBags W.done W.Removing.tried self.old self.new) }
    {
        // Found once: no load may move ahead of the look before it, so the loop would find the places anew each time.
        let places = &self.collector.places;
        let last = places.capacity() - 1;
        for place in 0..last {
            let word = places.look(&mut self.claimer, place);
            if is_expired_word(word, Epoch::new(expiry)) {
                return Some(TakeCursor::Claim(place, word));
            }
        }
        let found = places.look(&mut self.claimer, last);
        if is_expired_word(found, Epoch::new(expiry)) {
            return Some(TakeCursor::Claim(last, found));
        }
        self.machine.found_no_bag();
        None
    }

    /// Takes expired bags, as many as a collection takes or as it finds, and calls each one's jobs before it looks
    /// for the next.
    #[inline(always)]
    fn take_bags(&mut self, rooms: &mut OwnRooms<'c, T>, expiry: u64)
        requires seated { IsSeated self.old }
        requires rests { RestsAt self.old.claimer.me }
        requires takes { self.old.machine.stage ≡ Take expiry 0 }
        requires within { expiry < 2 ^ 63 }
        ensures { TakesBags W.done W.Removing.tried self.old self.new }
    {
        // Each collection begins at the first place: since the last one, a bag may have been put into a place that it
        // had passed.
        let Some(first) = self.pass_places(expiry) else {
            return;
        };
        let mut cursor = first;
        'bags: loop {
            let step = self
                .machine
                .take_shared(&self.collector.places, &mut self.claimer, &mut cursor);
            match step {
                TakeStep::Again => continue,
                TakeStep::Empty => return,
                TakeStep::Got => {}
            }
            self.call_hand(rooms);
            if !self.machine.is_taking() {
                return;
            }
        }
    }

    /// A collection: a scan, and bags that are expired for the epoch that it gave. Slots that their removals give free
    /// are kept among these rooms, as many as they take.
    #[inline(never)]
    pub(crate) fn collect(&mut self, rooms: &mut OwnRooms<'c, T>)
        requires seated { IsSeated self.old }
        requires rests { RestsAt self.old.claimer.me }
        requires pinned { IsPinned self.old.seat.me.0 }
        requires begins { self.old.machine.stage ≡ LoadScan }
        ensures { Collects W.done W.Removing.tried self.old self.new }
    {
        let expiry = self.scan();
        self.take_bags(rooms, expiry);
    }
}
