//! Registrations: a thread becomes a participant of a collector.
ghost use Rattle.std.specs.Prelude.{◌≡◌, IfOk, IsOkUnless};
ghost use Rattle.epoch_cells.specs.declared.fault.Fault.TheVariants.{TableFull};
ghost use Rattle.epoch_handles.specs.Handles.{IsNewParticipant};

use crate::collector::Collector;
use crate::handle::LocalHandle;
use crate::local::Local;
use crate::rooms::OwnRooms;
use epoch_bags::Run;
use epoch_cells::Fault;
use epoch_machine::Machine;
use epoch_tables::Seated;

impl<T: Drop, W: Run + Seated> Collector<T, W> {
    /// Registers a new participant, which isn't pinned and has an empty bag. Each position is tried once, from 0 up.
    ///
    /// `TableFull`: each position was seen taken, and nothing was done. As `Collector::register` of crossbeam-epoch,
    /// whose list of participants grows.
    pub fn register(&self) -> Result<LocalHandle<'_, T, W>, Fault>
        ensures full { IsOkUnless result TableFull }
        // A new handle is a participant of this collector, with no guard, an empty bag, and a seat at the places that
        // has found and moved nothing. The only fault is `TableFull`. A registration that succeeds has tried each
        // position from 0 to its own, once and in order. Its own was free, and each other one was taken.
        ensures fresh { IfOk result (λ handle. IsNewParticipant self.now handle) }
    {
        let mut seat = self.participants.seat();
        for position in 0..self.participants.positions() {
            if self.participants.claim(&mut seat, position) == 0 {
                let local = Local {
                    collector: self,
                    seat,
                    claimer: self.places.seat(),
                    position,
                    machine: Machine::new(self.sizes),
                };
                return Ok(LocalHandle {
                    local,
                    rooms: OwnRooms::none(),
                });
            }
        }
        Err(Fault::TableFull)
    }
}
