//! What the commands make of the files that they name: summaries, recordings, caught runs, reports, views, traces and
//! dialogues.
//!
//! `check`, `record`, `hunt`, `replay`, `view` and `trace` answer what is so of the bytes that the files hold
//! (`checked`, `recorded`, `hunted`, `replayed`, `viewed`, `traced`), or the first fault in the order of the files
//! (`refused`); `Fault::text` is its line. `debug` and `adapt` write such answers as commands or requests come
//! (`done`, `stopped`). Through
//! `Files` they read; `MemoryFiles` are exact ones.
#![tactic(auto)]

mod adapter_command;
mod check_command;
mod debug_command;
mod fault;
mod files;
mod gathered;
mod hunt_answers;
mod hunt_command;
mod hunt_schedules;
mod hunt_surveys;
mod made_runs;
mod memory;
mod program;
mod quotes;
mod record_answer;
mod record_command;
mod replay_command;
mod run_notes;
mod schedule_file;
mod signs;
mod stopped;
mod texts;
mod thread_runs;
mod trace_command;
mod view_command;

pub use adapter::FrameFault;
pub use adapter_command::adapt;
pub use check_command::check;
pub use debug_command::debug;
pub use fault::Fault;
pub use files::{FileFault, FileState, Files, InputFile};
pub use gathered::{ReplayInput, read_replay_input};
pub use hunt_command::hunt;
pub use made_runs::PROGRESS;
pub use memory::{MemoryFile, MemoryFiles};
pub use program::Program;
pub use quotes::{ImportNames, Quote, import_names, plan_quote, schedule_quote};
pub use record_answer::RecordAnswer;
pub use record_command::record;
pub use replay_command::replay;
pub use run_notes::notes_by;
pub use texts::skipped_text;
pub use trace_command::trace;
pub use view_command::view;
