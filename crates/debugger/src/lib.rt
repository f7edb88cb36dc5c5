//! A debugger of recorded runs: commands, one a line, and what each answers.
//!
//! `talk`: each line that comes is answered, up to one that asks for the end, or to the end of what comes (`done`); where
//! lines can't be had, or answers not written, what was read and taken is said (`broken`). `Debugger` answers by
//! `Replies`: each command leads to a state, of which the answer tells. `debug_log` is both, from where the turns of an
//! order lead from the opening world of a gathered log.
#![tactic(auto)]

mod answer;
mod around;
mod code_tests;
mod command;
mod debugger;
mod debugging;
mod functions;
mod going;
mod heads;
mod help;
mod kept;
mod lines;
mod locals;
mod made_by;
mod moves;
mod numbers;
mod objects;
mod opening;
mod order;
mod questions;
mod reading;
mod running;
mod seeing;
mod seeking;
mod shown_bytes;
mod standing;
mod talking;
mod touched;
mod waits;
mod watching;
mod way;
mod word;
mod written;

pub use answer::Answer;
pub use byte_streams::{Failed, MemorySource, Sink, Source, write_all};
pub use command::{Command, Line};
pub use debugger::Debugger;
pub use debugging::{DebugFault, debug_log};
pub use heads::{gone_line, paused_line};
pub use numbers::put_number;
pub use reading::read_line;
pub use talking::{Respond, TalkFault, ends, talk};
pub use touched::{Events, Role, Sought};
pub use watching::WatchedNumber;
pub use word::Word;
