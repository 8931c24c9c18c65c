//! Why a call was refused.
ghost use Rattle.std.specs.Prelude.{◌≡◌};
ghost use Rattle.epoch_cells.specs.Faults.{fault_number};

use std::error::Error;
use std::fmt;

/// Why a call was refused. Most refused calls hand their argument back; a call that drops it says so.
#[derive(Clone, Copy, Debug, PartialEq, Eq)]
pub enum Fault {
    /// Every participant's word was seen taken during the call.
    TableFull,
    /// Every slot was seen used or retired during the call. A slot that a participant keeps for its next value counts
    /// as used, but for those that the guard of the call has.
    CellsFull,
    /// Every place of the bag store was seen occupied during the put.
    BagsFull,
    /// An allocation was refused.
    NoMemory,
    /// The participant has a call under way, is paused, or reads that name already.
    Busy,
    /// There is no call, pause or end to go on with.
    Idle,
    /// There is no such participant.
    NotRegistered,
    /// The guard isn't one that this participant has out, or isn't the paused one.
    StrangerGuard,
    /// A guard or a reading is still out.
    GuardsOut,
    /// 64 guards of this participant are out.
    TooManyGuards,
    /// A participant is still registered.
    ParticipantsLeft,
    /// The end was begun already.
    Ended,
    /// There is no such root or field.
    NoSuchPlace,
    /// The pointer is null, is of another collector, or has a name that was never given.
    StrangerPointer,
    /// The numbers for tickets are used up.
    TicketsOut,
    /// Each of the tries was lost.
    TriesOut,
}

impl Fault {
    /// Returns the number under which the fault is printed, from 1 to 16, in the order of the variants.
    pub fn number(self) -> u64
        // There are 16 faults, numbered 1 to 16.
        ensures { result ≡ fault_number self }
    {
        match self {
            Fault::TableFull => 1,
            Fault::CellsFull => 2,
            Fault::BagsFull => 3,
            Fault::NoMemory => 4,
            Fault::Busy => 5,
            Fault::Idle => 6,
            Fault::NotRegistered => 7,
            Fault::StrangerGuard => 8,
            Fault::GuardsOut => 9,
            Fault::TooManyGuards => 10,
            Fault::ParticipantsLeft => 11,
            Fault::Ended => 12,
            Fault::NoSuchPlace => 13,
            Fault::StrangerPointer => 14,
            Fault::TicketsOut => 15,
            Fault::TriesOut => 16,
        }
    }
}

impl fmt::Display for Fault {
    fn fmt<W: fmt::Write>(&self, f: &mut fmt::Formatter<W>) -> fmt::Result {
        f.write_str(match self {
            Fault::TableFull => "every position of the table is taken",
            Fault::CellsFull => "every cell is used or retired",
            Fault::BagsFull => "every place of the bag store is occupied",
            Fault::NoMemory => "no memory",
            Fault::Busy => "the participant is busy",
            Fault::Idle => "nothing is under way",
            Fault::NotRegistered => "no such participant",
            Fault::StrangerGuard => "not a guard of this participant",
            Fault::GuardsOut => "a guard or a reading is still out",
            Fault::TooManyGuards => "too many guards are out",
            Fault::ParticipantsLeft => "a participant is still registered",
            Fault::Ended => "the collector has ended",
            Fault::NoSuchPlace => "no such root or field",
            Fault::StrangerPointer => "not a pointer of this collector",
            Fault::TicketsOut => "no ticket is left",
            Fault::TriesOut => "each try was lost",
        })
    }
}

impl Error for Fault {}

/// An argument handed back, and why.
#[derive(Debug, Drop)]
pub struct Refused<V> {
    pub fault: Fault,
    pub value: V,
}
