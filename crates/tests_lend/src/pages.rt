//! Runs the pages to copy, most of them on several threads.
mod calls;
mod config;
mod counted;
mod owners;
mod service;
mod sorted_list;
mod stage;
mod work_queue;
