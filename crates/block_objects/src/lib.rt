//! A shared memory as objects: its length, blocks of its bytes, waiter queues, and what operations do.
//!
//! `Blocks` has the bytes as one region; its accesses and growth are the definition's (`reply`, `memory`). `touches`:
//! the objects that an operation reads or writes; `operations_within_fit`: those are there.
#![tactic(auto)]

mod blocks;
mod bounds;
mod limits;
mod loads;
mod numbers;
mod object;
mod segments;
mod touch_table;
mod waiter;
mod within;

pub use blocks::{Blocks, modify};
pub use bounds::ends_within;
pub use limits::MemoryLimits;
pub use loads::{access_value, load_value};
pub use numbers::{access_number, type_number};
pub use object::ObjectValue;
pub use touch_table::{block_number, kind, lone_block, touches};
pub use waiter::Waiter;
pub use within::operations_within_fit;
