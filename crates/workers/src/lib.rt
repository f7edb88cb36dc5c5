//! Threads that run at once over any space in parts, and recording by them, each driven by a worker of its own.
//!
//! A worker drives its thread over the space, in a thread of the system: local steps in long runs with no lock, each
//! access through its seat (`Shared::access`), the entry into the seat's own list, until it has made `steps` steps, has
//! ended, or sleeps while no other can go on. A wait times out only where a `Timer` says so of a thread and a time
//! (`can_expire`). When all have stopped, the history is closed (`Shared::close`), a world resumed from it
//! (`World::resume`), and what threads can still do recorded in rounds without time-outs (`record_rest`).
//!
//! `record_history`: the recording is of the very history and workers that it is given, the calls in their order and
//! then rounds. `record_workers`: of some history, so the recording is of a run that no contract names beforehand; no
//! thread makes more than `steps` steps, and none that made fewer can go on but by a time-out. That a legal history
//! with each thread's own steps is a run is the law `histories_are_runs`.
//!
//! A worker drives a copy of its machine that is made in its own thread (`own_thread`): machines opened one after the
//! other lie side by side, and shared lines of memory slow all threads down. This crate knows no lock and no names of
//! what lies behind one: who opens the space picks these (`Opening`, which has the space, its values and its fixed
//! numbers as parameters without bounds, since only such a trait's members can be picked at a call).
//!
//! `run_threads` makes a thread for each seat, from the opening of the space on: one legal history, which leads to the
//! memory that is left; by its part of it each thread's work leads to its last state (`Work::work`, `leads`). Where the
//! system makes no thread, that seat's work is left out.
#![tactic(auto)]

mod asking;
mod entering;
mod jobs;
mod lawful;
mod own;
mod recording_thread;
mod recording_work;
mod recording_workers;
mod run;
mod timer;
mod work;
mod worker;

pub use own::own_thread;
pub use recording_workers::{record_history, record_workers};
pub use run::run_threads;
pub use timer::{AtOnce, Never, Timer};
pub use work::Work;
pub use worker::Worker;
