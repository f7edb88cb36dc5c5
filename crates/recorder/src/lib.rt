//! Recording of a run by a schedule, or by picks that a number draws, with its log and its end.
//!
//! `record`: the log, the end and the number of those passed over are those of the picks that were taken (`run`, `log`,
//! `end`, `passed`). `record_rest` makes steps of all threads in rounds, without time-outs, until none can go on that
//! has steps left. `Logs`, `try_pick` and `thread_logs` are what other recordings are made of.
//!
//! `record_random`: the log and the end are those of the run that the number draws, in stretches of one pick each,
//! until no pick can be drawn (`IsRandomRun`). What a number means stands for good. Law: `drawn_once`.
//! `drawn_stretches`: that run's stretches. `survey_numbers`: what many threads at once find of numbers that follow one
//! another is what one finds (`finds`). `shrink`: a schedule made small, whose run still comes to what is looked for
//! (`least`).
#![tactic(auto)]

mod candidates;
mod changed_schedules;
mod draws;
mod few_entries;
mod laws;
mod logs;
mod recorded;
mod recording;
mod rounds;
mod schedule_recording;
mod small_schedules;
mod stretch;
mod survey;

pub use laws::drawn_once;
pub use logs::Logs;
pub use pick_schedule::Schedule;
pub use recorded::{Recorded, ThreadLog};
pub use recording::{RandomRun, drawn_stretches, record_random};
pub use rounds::record_rest;
pub use schedule_recording::{record, thread_logs, try_pick};
pub use small_schedules::{Trial, shrink};
pub use survey::{Survey, survey_numbers};
