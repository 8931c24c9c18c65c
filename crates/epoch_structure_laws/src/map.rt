//! A map after Harris and Michael in the cells of a world: its program of phases, and what holds of every run.
mod laws;
mod plan;
mod program;

pub use laws::{
    every_heap_holds_one_map, every_map_answer_tells_what_was_done,
    every_map_reply_comes_nearer_the_answer, every_map_run_holds_sorted_lists,
    every_map_run_is_a_map, every_map_run_keeps_reach, every_map_run_leaves_cells_once,
};
pub use plan::{Aim, MapAnswer, MapPhase, MapWork};
pub use program::{key_of, start_work};
