//! The opening world of a module and a plan.
//!
//! `open_world`: each thread before its first step, and the memory with its segments, no object read or written
//! (`world`, `opening`); `open_parts` gives threads and memory apart. Every plan of a well typed module has one
//! (`plans_open`).
#![tactic(auto)]

mod laws;
mod open;

pub use block_objects::block_number;
pub use integer_machine::{CodePlace, ThreadSeen, ThreadState, memory_limits};
pub use laws::{opening_worlds_open, plans_open};
pub use open::{OpeningParts, open_parts, open_world};
pub use thread_plan::Plan;
pub use validator::Valid;
pub use waiter_queues::SharedSpace;
