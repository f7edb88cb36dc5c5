//! The break at the writes of a range of addresses.

ghost use Rattle.debug_views.specs.Writes.{IsWriteOfRange};

use crate::blocks::blocks_of_range;
use replay_gate::{Break, Every, ObjectRange};
use wasm_types::Block;

/// The break at the writes of a range of addresses, which is that from an address on of so many bytes, of a memory with
/// blocks of this size: a write of a block that holds a byte of the range. The objects of blocks are every second one;
/// between them stand waiter queues, whose writes are none of the range. A range of no bytes has no writes.
pub fn write_break(block: Block, from: u32, len: u32) -> Break
    ensures { IsWriteOfRange block from len result }
{
    let blocks = blocks_of_range(block, from, len);
    Break::Write(ObjectRange {
        from: 1 + 2 * blocks.first,
        until: 1 + 2 * blocks.past,
        every: Every::Second,
    })
}
