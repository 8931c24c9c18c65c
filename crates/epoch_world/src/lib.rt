//! The world: all participants over lists of steps, one atomic step at a time, in runs for which the laws hold.
#![tactic(auto)]

pub mod witness;
mod world;

pub use epoch_bags::{BagQueue, BagStore, Called, Places};
pub use epoch_cells::{Fault, Name};
pub use epoch_laws::heap::{Access, AccessAnswer, Change, Ptr, Spot, Update};
pub use epoch_laws::histories::{Event, calls_none_twice, is_lawful, keeps_grace};
pub use epoch_laws::reach::{
    FollowsAll, Uses, every_cell_counts_its_readers, every_loaded_name_stands,
    every_name_stands_or_is_destroyed, every_run_calls_what_was_deferred,
    every_run_gives_no_name_twice, every_run_keeps_met, every_run_keeps_reach,
    some_run_loses_reach, the_law_of_reach_follows,
};
pub use epoch_laws::{
    Call, Deferral, Entry, Progress, Reply, Shape, Step, Word, every_end_answers_its_calls,
    every_end_calls_all, every_full_reply_found_each_place, every_refusal_leaves_what_it_must,
    every_run_holds_each_ticket_once, every_run_is_lawful, every_run_keeps_grace,
    every_run_numbers_tickets,
};
pub use world::{Seat, World};
