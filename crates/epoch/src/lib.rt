//! Epoch-based memory reclamation: collectors, handles, guards, pointers, jobs and cells, under the names that users
//! know.
#![tactic(auto)]

mod no_work;
pub mod removals;

pub use epoch_atomic::atomic::{
    Atomic, Borrow, BorrowMut, CompareAndSetError, CompareExchangeError, DeferDestroy, DestroyNow,
    ExchangeFault, Owned, Pointer, Shared, UpdateFault,
};
pub use epoch_atomic::{Array, CompareAndSetOrdering, Plain, Pointable};
pub use epoch_bags::{Called, Job, Places, Run, Work};
pub use epoch_cells::take_once::TakeOnce;
pub use epoch_cells::{Cells, Fault, Name, Reading, Refused, Writing};
pub use epoch_handles::structures::{is_under, serves};
pub use epoch_handles::{Capacities, Collector, Guard, LocalHandle, Paused, Released, unprotected};
pub use epoch_tables::Seated;
pub use epoch_tables::ends::{AtEnd, end_next};
pub use no_work::NoWork;
pub use removals::{defer_removal, make_room};

/// Epochs, which are numbers, and the words of participants.
pub mod epoch {
    pub use epoch_bags::{Epoch, FREE, GREATEST_EPOCH, UNPINNED, pinned_word};
}

/// Bags of jobs that wait to be called.
pub mod bag {
    pub use epoch_bags::{BAG_JOBS, Bag, Called, FromCells, Job, Remove, Run, SealedBag, Work};
}

/// Stores of sealed bags, and the places that threads share.
pub mod queue {
    pub use epoch_bags::queue::{
        BagQueue, BagStore, MOST_BAGS, Places, PutCursor, PutStep, TakeCursor, TakeStep, take_some,
    };
    pub use epoch_tables::shared_places::{
        ClosedPlaces, MOST_PLACES, PlaceRule, PlaceSeat, PlaceView, SharedPlaces, UnsharedPlaces,
        closed_places_hold_the_rest, no_bag_is_lost,
    };
}

/// The participants' table, which threads share.
pub mod table {
    pub use epoch_tables::table::{
        EpochRule, MOST_POSITIONS, ParticipantSeat, ParticipantView, Participants,
        each_epoch_is_stored, epoch_never_falls, expired_means_read_later,
        pinned_seats_hold_bags_back, store_never_lowers,
    };
}

/// Cells for values that are read while others remove them, and values that are taken out once.
pub mod cells {
    pub use epoch_cells::backoff::pause_after;
    pub use epoch_cells::take_once::{Put, TakeOnce, take_twice};
    pub use epoch_cells::{
        CELL_TRIES, Cells, Fault, Held, IntoSlots, MOST_SLOT, Name, PlainCells, Puts, Reading,
        Refused, Removal, Writing,
    };
}

/// Collectors, the machines of their participants, and their ends.
pub mod collector {
    pub use epoch_handles::{Capacities, Collector, LocalHandle, Paused, Released};
    pub use epoch_machine::{
        Action, Answer, Ask, Machine, PINS_BETWEEN_COLLECTIONS, Sizes, Stage, asks_follow_the_table,
    };
    pub use epoch_tables::ends::{AtEnd, end_bags, end_left, end_next};
}

/// Guards, and what a structure of your own asks of those that its calls are given.
pub mod guard {
    pub use epoch_handles::structures::{is_under, serves};
    pub use epoch_handles::{
        DirectInterlude, Guard, HasInterlude, Home, InCells, Interlude, Placing, unprotected,
    };
}

/// Pointers to values in cells: tags, exchanges, and values taken back.
pub mod atomic {
    pub use epoch_atomic::atomic::{
        Array, Atomic, Borrow, BorrowMut, CompareAndSetError, CompareAndSetOrdering,
        CompareExchangeError, DeferDestroy, DestroyNow, ExchangeFault, HasWord, Owned, Plain,
        Pointable, Pointer, PointerWord, Shared, SharedWord, UpdateFault,
        equal_numbers_are_of_one_pointer,
    };
}
