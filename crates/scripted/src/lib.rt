//! A small space and machine for tests: three cells, and threads that are lists of operations and of rests.
//!
//! `scripts_run`, `scripts_replay` and `scripts_finish` are the laws of `replay_laws` for these.
#![tactic(auto)]

mod cells;
mod laws;
mod naming;
mod op;
mod open;
mod script;
mod striped;

pub use cells::Cells;
pub use laws::{scripts_finish, scripts_replay, scripts_run};
pub use op::{Cell, CellOp, ScriptStep};
pub use open::open_scripts;
pub use script::Script;
pub use striped::{CellDecision, CellPart};
