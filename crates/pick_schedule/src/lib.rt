//! Schedules: the text by which a user says in which order threads go on, and its picks as stretches.
//!
//! `schedule`: just the picks of the text, or its first bad line (`ok`, `err`); its first 14,000,001 bytes say what the
//! whole text says (`beginnings_say_all`). `Schedule` keeps the list of what was put in (`push`, `stretches`: `picks`),
//! at most 1,000,000; it is also made of stretches (`of_stretches`), and what `text` writes is read back as its picks.
#![tactic(auto)]

mod fault;
mod laws;
mod line;
mod printing;
mod reader;
mod stretches;

pub use fault::{ScheduleCause, ScheduleFault};
pub use laws::{SCHEDULE_BEGINNING, beginnings_say_all};
pub use reader::schedule;
pub use stretches::{MOST_PICKS, Schedule, Stretch};
