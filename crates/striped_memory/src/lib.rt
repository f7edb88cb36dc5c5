//! The shared memory in eight parts, each read and changed by itself.
//!
//! `Striped for StripedMemory`: parts united are the memory, by the cut of `memory_parts`.
#![tactic(auto)]

mod change;
mod decide;
mod look;
mod naming;
mod part;
mod space;
mod split;
mod unite;

pub use part::{BlockPart, MemoryPart, QueuePart};
pub use space::StripedMemory;
pub use waiter_queues::SharedSpace;
