//! The parts of a shared memory.

ghost use Rattle.std.specs.Prelude.{◌≡◌, ◌*◌, ◌^◌, length};
ghost use Rattle.striped_memory.specs.Quarters.{quarter_of};

use block_objects::MemoryLimits;
use waiter_queues::Queues;

/// A quarter of the blocks, one after another: block `4 j + row` is the j-th.
#[derive(Drop)]
pub struct BlockPart {
    pub row: u32,
    pub limits: MemoryLimits,
    pub bytes: Vec<u8>,
    ghost whole: { length bytes.items ≡ quarter_of limits.block limits.capacity * 2 ^ limits.block },
}

/// A quarter of the queues: that of block `4 j + row` is the j-th.
#[derive(Drop)]
pub struct QueuePart {
    pub row: u32,
    pub limits: MemoryLimits,
    pub queues: Queues,
    ghost sized: { length queues ≡ quarter_of limits.block limits.capacity },
}

/// One of the eight parts of a memory.
#[derive(Drop)]
pub enum MemoryPart {
    /// A quarter of the blocks.
    Blocks(BlockPart),
    /// A quarter of the queues.
    Queues(QueuePart),
    /// The length in pages, and the last quarter of the queues.
    Length(u32, QueuePart),
}
