//! A debug adapter over the debugger of recorded runs: what requests of the Debug Adapter Protocol do, and what is
//! answered.
//!
//! `Adapter` attends requests by a `Debugger` (`Attends`): each leads to a state, of which the response tells. While no
//! run is open `Waiting` does (`Waits`), and holds the first launch back. A thread has its number from 1 as its id, a frame
//! an id by which its thread and its depth are known (`frame_id`), and an instruction is referred to by its offset in
//! the module, as `0x1f`.
#![tactic(auto)]

mod adapter;
mod attending;
mod breakpoints;
mod code;
mod data_breaks;
mod disassembling;
mod disassembly;
mod evaluating;
mod frames;
mod ids;
mod instruction_breaks;
mod instruction_names;
mod instruction_text;
mod memory;
mod moving;
mod replies;
mod shown;
mod variables;
mod versions;
mod waiting;

pub use adapter::Adapter;
pub use adapter_messages::{Command, Ended, ExchangeFault, FrameFault, Request, exchange, resume};
pub use replies::failure;
pub use waiting::{Waiting, launched};
