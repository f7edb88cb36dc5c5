//! The numbers of a memory that no operation changes.

use wasm_types::Block;

/// The numbers of a memory that no operation changes: the length in pages with which it began, the greatest length that
/// it can have, and the size of its blocks.
#[derive(Clone, Copy, Debug, PartialEq, Eq)]
pub struct MemoryLimits {
    pub initial: u32,
    pub capacity: u32,
    pub block: Block,
}
