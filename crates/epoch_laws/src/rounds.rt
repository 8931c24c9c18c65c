//! How many rounds of one participant empty a store, and why a bag waits two epochs.
mod laws;

pub use laws::{
    every_call_collects_few, lone_calls_find_a_place, quiet_rounds_call_all, sharp_list_is_sharp,
};
