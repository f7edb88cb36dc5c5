//! Bytes of a memory, as lines.

ghost use Rattle.std.specs.Prelude.{◌≡◌, ◌+◌, ◌≤◌, IfOk, length, string_bytes};
ghost use Rattle.wasm_world.specs.SharedMemory.{shared_memory};
ghost use Rattle.event_core.specs.World.{world_of};
ghost use Rattle.debug_views.specs.Blocks.{AreHolding};
ghost use Rattle.debug_views.specs.Values.{memory_bytes};
ghost use Rattle.debug_views.specs.declared.blocks.BlockRange.{BlockRange};
ghost use Rattle.debugger.specs.Replies.{bytes_text};

use debug_views::{ViewFault, blocks_of_range, bytes, write_objects, write_rows};
use event_core::World;
use std::alloc::Global;
use wasm_types::{Block, ByteRange, NoMemory};
use wasm_world::{SharedSpace, ThreadState};

/// The bytes of a range that the memory has, and the versions of their blocks.
pub(crate) fn bytes_text(
    alloc: Global,
    world: &World<ThreadState<'_>, SharedSpace>,
    block: Block,
    range: ByteRange,
) -> Result<String, NoMemory>
    requires { range.from + range.len ≤ length (memory_bytes shared_memory (world_of world.now)) }
    ensures { IfOk result (λ text. (blocks : BlockRange) × AreHolding block range.from range.len blocks × (string_bytes text ≡ bytes_text (world_of world.now) blocks range)) }
{
    let bytes = match bytes(alloc, world, range.from, range.len) {
        Ok(bytes) => bytes,
        Err(ViewFault::NoMemory) => return Err(NoMemory),
        Err(ViewFault::OutOfView) => unreachable!(),
    };
    let blocks = blocks_of_range(block, range.from, range.len);
    let mut text = String::new(alloc);
    write_objects(&mut text, world.versions(), blocks)?;
    write_rows(&mut text, range.from, bytes.as_slice())?;
    Ok(text)
}
