//! What holds of whatever participants perform on threads: laws of grace, and that no job is lost.
mod laws;

pub use laws::{
    an_end_calls_the_rest, answers_are_found, calls_come_after_pins, calls_keep_jobs,
    expiries_are_seen, no_job_is_lost, replies_are_found, some_threads_call_a_job,
    some_threads_leave_a_job,
};
