//! Recordings of a module and a plan, by a schedule, by threads at once or at random, and their pieces.
//!
//! `record_schedule`, `record_threads`, `record_drawn`: a run of them with its log and its end (`key`, `records`; law
//! `drawn_runs_are_one`). `drawn_schedule`: the schedule of the run that a number draws (law
//! `drawn_schedules_record`). `Recording::pieces`: pieces of that run (`of_run`). `record_memory` does as `record_workers`, over the shared
//! memory. `send` and `receive` pass pieces through a channel: as many of the run as `receive` answers are joined
//! (`received`).
#![tactic(auto)]

mod fault;
mod laws;
mod memory_recording;
mod random;
mod receiving;
mod recording;
mod sending;
mod thread;
mod threads;

pub use fault::SendFault;
pub use laws::{drawn_runs_are_one, drawn_schedules_record};
pub use memory_recording::record_memory;
pub use random::{drawn_schedule, record_drawn};
pub use receiving::receive;
pub use recorder::{RandomRun, Schedule, Survey, ThreadLog, Trial, shrink, survey_numbers};
pub use recording::{Recording, record_schedule};
pub use run_pieces::{LineRoom, PiecesFault};
pub use sending::send;
pub use shared_core::{Hold, Unkept};
pub use thread::{StripedThread, striped_threads};
pub use threads::record_threads;
pub use wasm_world::memory_limits;
pub use workers::{AtOnce, Never, Timer};
