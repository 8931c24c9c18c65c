//! The participants' table, and the seats at it.
ghost use Rattle.std.specs.Prelude.{◌≡◌, ◌<◌, ◌≤◌, ℕ, ◌*◌, [], ◌∷◌, None, IfOk, IfErr, replicate};
ghost use Rattle.epoch_tables.specs.Table.{EpochsAgree, words_for, IsOf};
ghost use Rattle.epoch_tables.specs.TableSteps.{spent, without_position};
ghost use Rattle.epoch_cells.specs.declared.fault.Fault.TheVariants.{NoMemory};

use crate::seated::Seated;
use crate::table::plays::PositionSit;
use crate::table::view::ParticipantView;
use atomic_table::{Seat, Table, TableRule};
use epoch_cells::Fault;
use std::alloc::Global;
use std::marker::{Model, PhantomData};

/// How many positions a table has at most.
pub const MOST_POSITIONS: usize = 4096;

/// The rule that holds between any two steps on the table.
pub struct EpochRule<J> {
    jobs: PhantomData<J>,
}

impl<J> TableRule<(), ParticipantView, u64> for EpochRule<J> {
    ghost holds = { EpochsAgree };

    ghost first = { λ _. spent };
}

/// A seat at the participants' table: what a thread takes its steps with. It has no bytes.
pub type ParticipantSeat = Seat<(), ParticipantView>;

/// The participants' table: a word for the epoch, and a word for each position. Its participants defer jobs of this
/// type.
///
/// Threads share it by `&`. Each step is one atomic instruction, and none waits or takes memory.
#[derive(Drop)]
pub struct Participants<J> {
    pub(crate) table: Table<(), ParticipantView, u64, EpochRule<J>, Global>,
    positions: usize,
}

impl<J> Model for Participants<J> {
    ghost use Rattle.std.specs.Prelude.{◌≡◌, ◌<◌, ◌≤◌};
    ghost use Rattle.epoch_tables.specs.Table.{Board, words_for};

    ghost Value = { Board };

    ghost view = { λ a. record { positions = a.positions; table = a.table.shared.table_id } };

    ghost invariant = { λ a. record {
      words : a.table.shared.table_id.words ≡ words_for a.positions;
      key : a.table.shared.key ≡ a.positions;
      some : 0 < a.positions;
      most : a.positions ≤ 4096;
    } };
}

impl<J> Participants<J> {
    /// Makes a table with this many positions, from 1 to [`MOST_POSITIONS`], all free. Its epoch is 0, as
    /// [`each_epoch_is_stored`](crate::table::each_epoch_is_stored) says.
    ///
    /// `NoMemory`: an allocation was refused, and nothing was made.
    pub fn new(alloc: Global, positions: usize) -> Result<Participants<J>, Fault>
        requires some { 0 < positions }
        requires most { positions ≤ MOST_POSITIONS }
        ensures ok { IfOk result (λ table. table.positions ≡ positions) }
        ensures err { IfErr result (λ fault. fault ≡ NoMemory) }
    {
        let Ok(words) = Vec::from_elem(alloc, 0, 16 * positions + 16) else {
            return Err(Fault::NoMemory);
        };
        let Ok((table, _)) = Table::of_words(alloc, words.as_slice(), &(positions as u64)) else {
            return Err(Fault::NoMemory);
        };
        Ok(Participants { table, positions })
    }

    /// Returns how many positions it has, from 1 to [`MOST_POSITIONS`].
    pub fn positions(&self) -> usize
        ensures value { result ≡ self.now.positions }
        ensures some { 0 < result }
        ensures most { result ≤ MOST_POSITIONS }
    {
        self.positions
    }
}

impl<J: Seated> Participants<J> {
    /// Makes a seat, which has no position. Making it loads the epoch.
    pub fn seat(&self) -> ParticipantSeat
        ensures of { IsOf self.now result }
        ensures view { (epoch : ℕ) × (result.me.0 ≡ without_position epoch (None ∷ []) (2 * epoch ∷ []) [] []) }
    {
        self.table.shared.load_new_seat::<PositionSit>(0).1
    }
}
