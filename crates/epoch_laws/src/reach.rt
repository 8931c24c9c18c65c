//! Which cells are in reach, loaded and destroyed in the runs of a world, and what holds of every run of them.
mod laws;

pub use laws::{
    FollowsAll, Uses, every_cell_counts_its_readers, every_loaded_name_stands,
    every_name_stands_or_is_destroyed, every_run_calls_what_was_deferred,
    every_run_gives_no_name_twice, every_run_keeps_met, every_run_keeps_reach,
    some_run_loses_reach, the_law_of_reach_follows,
};
