//! Pages to copy whose values are lent: threads look at them by plain loads, under one guard for values of all types.
pub mod config;
pub mod deque;
pub mod owners;
pub mod service;
pub mod sorted_list;
pub mod work_queue;
