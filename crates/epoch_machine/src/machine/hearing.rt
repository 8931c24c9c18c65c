//! What an answer does, and a job that is given to be called.
ghost use Rattle.std.specs.Prelude.{◌≡◌, ◌≢◌, true, ◌^◌, ◌<◌, List, ◌∷◌, Some, MatchOption, length};
ghost use Rattle.epoch_machine.specs.Machine.{IsAnswer, asks, heard, gives, fresh, rest, is_calling};
ghost use Rattle.epoch_machine.specs.declared.machine.Ask.TheVariants.{CallJob};

use super::stages::{after_job, past_word};
use super::{Action, Answer, Machine, PINS_BETWEEN_COLLECTIONS, Stage};

impl<J: Default + Drop> Machine<J> {
    /// Goes on by the answer to the ask; an answer to another ask changes nothing.
    pub fn take(&mut self, answer: Answer<J>)
        requires { IsAnswer answer }
        // The machine after an answer is the one that the definition gives. An answer to another ask changes nothing.
        ensures { self.new ≡ heard self.old answer }
    {
        match answer {
            Answer::Epoch(epoch) => self.loaded(epoch),
            Answer::Word(word) => self.looked(word),
            Answer::Stored => self.stored(),
            Answer::Job(job) => self.keep(job),
        }
    }

    fn loaded(&mut self, epoch: u64)
        requires { epoch < 2 ^ 63 }
        ensures { self.new ≡ heard self.old (Answer.Epoch epoch) }
    {
        match self.stage {
            Stage::LoadPin => self.stage = Stage::StorePin(epoch),
            Stage::ReloadPin => self.stage = self.after_pin(),
            Stage::LoadScan => self.stage = Stage::Scan(epoch, 0),
            Stage::LoadSeal => self.stage = Stage::Put(epoch),
            Stage::LoadRepin => self.stage = self.after_reading(epoch),
            Stage::ReloadRepin => self.stage = Stage::End,
            _ => {}
        }
    }

    fn looked(&mut self, word: u64)
        ensures { self.new ≡ heard self.old (Answer.Word word) }
    {
        match self.stage {
            Stage::Scan(epoch, next) => {
                self.stage = past_word(self.sizes.positions, epoch, next, word);
            }
            _ => {}
        }
    }

    fn stored(&mut self)
        ensures { self.new ≡ heard self.old Answer.Stored }
    {
        match self.stage {
            Stage::StorePin(epoch) => {
                self.stage = Stage::ReloadPin;
                self.published = epoch;
                self.pins = (self.pins + 1) % PINS_BETWEEN_COLLECTIONS;
            }
            Stage::StoreRepin(epoch) => {
                self.stage = Stage::ReloadRepin;
                self.published = epoch;
            }
            Stage::Advance(epoch) => self.stage = Stage::Take(epoch + 1, 0),
            Stage::StoreUnpinned => self.stage = self.after_unpin(),
            Stage::StoreFree => self.reset(),
            _ => {}
        }
    }

    /// A freed position has an empty bag and no pin so far.
    #[inline(never)]
    fn reset(&mut self)
        ensures { self.new ≡ fresh self.old.sizes }
    {
        self.stage = Stage::Idle;
        self.action = Action::Pin;
        self.guards = 0;
        self.published = 0;
        self.pins = 0;
        self.full = false;
        self.held.clear();
        self.hand.clear();
    }

    fn keep(&mut self, job: J)
        ensures { self.new ≡ heard self.old (Answer.Job job) }
    {
        if let Stage::Keep = self.stage {
            self.stage = Stage::End;
            self.held.push(job);
        }
    }
}

impl<J> Machine<J> {
    /// Lends the job that [`Machine::give`] would take out. `None` where no call is asked for.
    #[inline(always)]
    pub fn next_job(&self) -> Option<&J>
        ensures { MatchOption result (asks self.now ≢ Some CallJob) (λ job.
            (asks self.now ≡ Some CallJob) × ((later : List J) × (self.now.hand ≡ job.now ∷ later))) }
    {
        match self.stage {
            Stage::Calling(_, _) => self.hand.first(),
            _ => None,
        }
    }
}

impl<J: Default + Drop> Machine<J> {
    /// Takes the next job out of the bag in hand, to be called by the caller, and goes on.
    /// `None` where no call is asked for.
    #[inline]
    pub fn give(&mut self) -> Option<J>
        // The job that is given to be called is the oldest one in hand. It can be looked at before it is given.
        ensures job { MatchOption result (asks self.old ≢ Some CallJob)
            (λ job. (asks self.old ≡ Some CallJob) × (self.old.hand ≡ job ∷ rest self.old.hand)) }
        ensures after { self.new ≡ gives self.old self.old.stage (rest self.old.hand) }
    {
        match self.stage {
            Stage::Calling(_, _) => {
                if self.hand.len() == 1 {
                    return self.give_last();
                }
                self.hand.take_next()
            }
            _ => None,
        }
    }

    /// Takes the last job out of the bag in hand, and goes on after the bag.
    ///
    /// It is part of its caller, so that a job doesn't pass through memory.
    #[inline(always)]
    fn give_last(&mut self) -> Option<J>
        requires last { length self.old.hand ≡ 1 }
        requires calls { is_calling self.old.stage ≡ true }
        ensures job { MatchOption result (asks self.old ≢ Some CallJob)
            (λ job. (asks self.old ≡ Some CallJob) × (self.old.hand ≡ job ∷ rest self.old.hand)) }
        ensures after { self.new ≡ gives self.old self.old.stage (rest self.old.hand) }
    {
        let Stage::Calling(expiry, taken) = self.stage else {
            unreachable!()
        };
        let after = self.after_collect();
        let job = self.hand.take_next();
        self.stage = after_job(self.sizes.collect_bags, after, expiry, taken, true);
        job
    }
}
