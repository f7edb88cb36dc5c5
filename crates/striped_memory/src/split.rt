//! A memory's parts.

ghost use Rattle.std.specs.Prelude.{◌≡◌, ℕ, ◌+◌, ◌*◌, ◌<◌, ◌≤◌, IfOk, length, box_value};
ghost use Rattle.block_objects.specs.Objects.{block_bytes, blocks_in};
ghost use Rattle.shared_parts.specs.Parts.{IsPart, AreParts};
ghost use Rattle.waiter_queues.specs.Shared.{queue_at, shared_values};
ghost use Rattle.striped_memory.specs.MemoryParts.{memory_lane, memory_fixed, memory_held};

use crate::look::{place_of, window};
use crate::part::{BlockPart, MemoryPart, QueuePart};
use block_objects::Blocks;
use shared_parts::Eight;
use std::alloc::Global;
use std::boxed::Box;
use waiter_queues::Queues;
use wasm_types::NoMemory;

/// The blocks `4 j + row`.
fn deal_blocks(alloc: Global, blocks: &Blocks, row: u32) -> Result<BlockPart, NoMemory>
    requires { row < 4 }
    ensures row { IfOk result (λ part. part.row ≡ row) }
    ensures limits { IfOk result (λ part. part.limits ≡ blocks.now.limits) }
    ensures blocks { IfOk result (λ part. (j : ℕ) → block_bytes blocks.now.limits.block part.bytes.items j ≡ block_bytes blocks.now.limits.block blocks.now.bytes (4 * j + row)) }
{
    let limits = blocks.limits();
    let block = limits.block;
    let size = block.size() as usize;
    let count = blocks.count() / 4;
    let all = blocks.bytes();
    let mut bytes = Vec::with_capacity(alloc, place_of(block, count))?;
    for j in 0..count {
        bytes.extend_from_slice(window(all, place_of(block, 4 * j + row), size))?;
    }
    Ok(BlockPart { row, limits, bytes })
}

/// The queues of the blocks `4 j + row`.
fn deal_queues(
    alloc: Global,
    blocks: &Blocks,
    queues: &Queues,
    row: u32,
) -> Result<QueuePart, NoMemory>
    requires low { row < 4 }
    requires sized { length queues.now ≡ blocks_in blocks.now.limits.block blocks.now.limits.capacity }
    ensures row { IfOk result (λ part. part.row ≡ row) }
    ensures limits { IfOk result (λ part. part.limits ≡ blocks.now.limits) }
    ensures queues { IfOk result (λ part. (j : ℕ) → queue_at part.queues j ≡ queue_at queues.now (4 * j + row)) }
{
    let limits = blocks.limits();
    let count = blocks.count() / 4;
    let mut dealt = Queues::new(alloc, count)?;
    for j in 0..count {
        let queue = queues.at((4 * j + row) as usize);
        dealt.put(j as usize, queue.copy());
    }
    Ok(QueuePart {
        row,
        limits,
        queues: dealt,
    })
}

/// A part of blocks.
fn block_part(
    alloc: Global,
    blocks: &Blocks,
    queues: &Queues,
    row: u32,
) -> Result<Box<MemoryPart>, NoMemory>
    requires { row < 4 }
    ensures { IfOk result (λ part. IsPart memory_lane memory_fixed memory_held (1 + 2 * row) blocks.now.limits (shared_values blocks.now queues.now) (box_value part)) }
{
    // Clauses alone speak of the queues: their values stand in parts of other rows.
    let _ = queues;
    let part = deal_blocks(alloc, blocks, row)?;
    Ok(Box::new(alloc, MemoryPart::Blocks(part))?)
}

/// A part of queues.
fn queue_part(
    alloc: Global,
    blocks: &Blocks,
    queues: &Queues,
    row: u32,
) -> Result<Box<MemoryPart>, NoMemory>
    requires low { row < 4 }
    requires sized { length queues.now ≡ blocks_in blocks.now.limits.block blocks.now.limits.capacity }
    ensures { IfOk result (λ part. IsPart memory_lane memory_fixed memory_held (2 + 2 * row) blocks.now.limits (shared_values blocks.now queues.now) (box_value part)) }
{
    let part = deal_queues(alloc, blocks, queues, row)?;
    Ok(Box::new(alloc, MemoryPart::Queues(part))?)
}

/// The part with the length.
fn length_part(alloc: Global, blocks: &Blocks, queues: &Queues) -> Result<Box<MemoryPart>, NoMemory>
    requires { length queues.now ≡ blocks_in blocks.now.limits.block blocks.now.limits.capacity }
    ensures { IfOk result (λ part. IsPart memory_lane memory_fixed memory_held 0 blocks.now.limits (shared_values blocks.now queues.now) (box_value part)) }
{
    let pages = blocks.pages();
    let part = deal_queues(alloc, blocks, queues, 3)?;
    Ok(Box::new(alloc, MemoryPart::Length(pages, part))?)
}

/// The parts of a memory of these blocks and queues.
pub(crate) fn split_parts(
    alloc: Global,
    blocks: &Blocks,
    queues: &Queues,
) -> Result<Eight<Box<MemoryPart>>, NoMemory>
    requires { length queues.now ≡ blocks_in blocks.now.limits.block blocks.now.limits.capacity }
    ensures { IfOk result (λ parts. AreParts memory_lane memory_fixed memory_held blocks.now.limits (shared_values blocks.now queues.now) parts) }
{
    Ok(Eight {
        zero: length_part(alloc, blocks, queues)?,
        one: block_part(alloc, blocks, queues, 0)?,
        two: queue_part(alloc, blocks, queues, 0)?,
        three: block_part(alloc, blocks, queues, 1)?,
        four: queue_part(alloc, blocks, queues, 1)?,
        five: block_part(alloc, blocks, queues, 2)?,
        six: queue_part(alloc, blocks, queues, 2)?,
        seven: block_part(alloc, blocks, queues, 3)?,
    })
}
