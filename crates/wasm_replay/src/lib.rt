//! Replay of a gathered log of a module and a plan, and where a refused one stands.
//!
//! `replay_gathered`: the end of each run whose log the gathered one is or is below, by every order (`of_run`,
//! `ordered`, `recorded`); on a run's whole log only want of memory refuses it (`refused`). `Standing` tells, with no
//! clause, what the log has where a replay stopped, what the thread does, and what each waits for.
#![tactic(auto)]

mod gathered;
mod opener;
mod opening;
mod reader;
mod replaying;
mod standing;

pub use gathered::Gathered;
pub use opener::Opener;
pub use opening::{WasmReplay, open_replay, opener_of};
pub use replay_gate::ReplayFault;
pub use replaying::{Unreplayed, WasmReplayFault, replay_gathered};
pub use standing::{Claimed, Doing, Logged, LoggedEntry, Progress, Standing, Waiting};
