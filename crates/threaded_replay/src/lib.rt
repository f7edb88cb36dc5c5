//! Replay of a gathered log by threads that run at once, each driven by a worker of its own.
//!
//! `replay_threads`: as `replay_gathered` (`of_run`, `ended`, `ordered`, `recorded`, `refused`). `replay_memory`: the
//! same of any machines over the shared memory, `replay_by_threads` over any space in parts (`ended`, `refused`): it
//! makes the turns that are left in rounds. `replay_workers`: whatever workers leave undone, a gated run leads to the
//! world that they leave.
#![tactic(auto)]

mod entering;
mod finishing;
mod follower;
mod following;
mod gate;
mod lawful;
mod memory_replay;
mod replaying;
mod replaying_work;
mod replaying_workers;

pub use finishing::replay_by_threads;
pub use memory_replay::replay_memory;
pub use replaying::replay_threads;
pub use replaying_workers::replay_workers;
