//! A queue after Michael and Scott in the cells of a world: its program of phases, and what holds of every run.
mod laws;
mod plan;
mod program;
mod replies;

pub use laws::{
    every_heap_holds_one_queue, every_queue_answer_tells_what_was_done,
    every_queue_reply_comes_nearer_the_answer, every_queue_run_holds_a_list,
    every_queue_run_is_a_queue, every_queue_run_keeps_reach, every_queue_run_leaves_cells_once,
};
pub use plan::{QueueAnswer, QueuePhase, QueueWork};
pub use program::start_work;
pub use replies::{
    every_queue_call_is_served, no_lone_queue_call_runs_out_of_tries,
    some_queue_run_pushes_and_pops,
};
