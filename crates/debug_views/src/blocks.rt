//! The blocks of a range of addresses.

ghost use Rattle.std.specs.Prelude.{◌≤◌, ◌^◌};
ghost use Rattle.debug_views.specs.Blocks.{AreHolding};

use block_objects::block_number;
use wasm_types::Block;

/// The blocks from the first one on and below the other.
#[derive(Clone, Copy, Debug, PartialEq, Eq)]
pub struct BlockRange {
    pub first: u32,
    pub past: u32,
}

/// The blocks that hold a byte of a range of a 32-bit memory, which is that from an address on of so many bytes. A
/// range of no bytes has no blocks.
pub fn blocks_of_range(block: Block, from: u32, len: u32) -> BlockRange
    ensures holding { AreHolding block from len result }
    ensures order { result.first ≤ result.past }
    ensures few { result.past ≤ 2 ^ 27 }
{
    let _from_6_to_12 = block.power();
    let first = block_number(block, from);
    if len == 0 {
        return BlockRange { first, past: first };
    }
    let last = block_number(block, from.saturating_add(len - 1));
    BlockRange {
        first,
        past: last + 1,
    }
}
