//! A memory from its parts.

ghost use Rattle.std.specs.Prelude.{◌≡◌, ℕ, ◌*◌, ◌/◌, ◌%◌, ◌^◌, ◌<◌, ◌≤◌, IfOk, length, box_value};
ghost use Rattle.block_objects.specs.Objects.{block_bytes, blocks_in};
ghost use Rattle.wasm_types.specs.declared.sizes.TheConstants.{PAGE_SIZE};
ghost use Rattle.shared_parts.specs.Parts.{AreParts, AreOfOne};
ghost use Rattle.memory_parts.specs.SharedCut.{shared_cut};
ghost use Rattle.waiter_queues.specs.Shared.{queue_at, shared_values};
ghost use Rattle.striped_memory.specs.declared.part.MemoryPart.TheVariants as parts;
ghost use Rattle.striped_memory.specs.Quarters.{quarter_of, dealt};
ghost use Rattle.striped_memory.specs.MemoryParts.{memory_lane, memory_fixed, memory_held};

use crate::look::{place_of, window};
use crate::part::{BlockPart, MemoryPart, QueuePart};
use block_objects::{Blocks, MemoryLimits};
use shared_parts::Eight;
use std::alloc::Global;
use std::boxed::Box;
use waiter_queues::{Queue, Queues, SharedSpace};
use wasm_types::{Block, NoMemory};

/// A part of blocks.
fn blocks_of(part: Box<MemoryPart>) -> BlockPart
    requires { memory_lane (box_value part) % 2 ≡ 1 }
    ensures { box_value part ≡ parts.Blocks result }
{
    match Box::into_inner(part) {
        MemoryPart::Blocks(part) => part,
        _ => unreachable!(),
    }
}

/// A part of queues.
fn queues_of(part: Box<MemoryPart>) -> QueuePart
    requires even { memory_lane (box_value part) % 2 ≡ 0 }
    requires some { 0 < memory_lane (box_value part) }
    ensures { box_value part ≡ parts.Queues result }
{
    match Box::into_inner(part) {
        MemoryPart::Queues(part) => part,
        _ => unreachable!(),
    }
}

/// The part with the length.
fn length_of(part: Box<MemoryPart>) -> (u32, QueuePart)
    requires { memory_lane (box_value part) ≡ 0 }
    ensures { box_value part ≡ parts.Length result.0 result.1 }
{
    match Box::into_inner(part) {
        MemoryPart::Length(pages, part) => (pages, part),
        _ => unreachable!(),
    }
}

/// How many blocks a quarter has.
fn quarter(limits: &MemoryLimits) -> u32
    requires { limits.now.capacity ≤ 65536 }
    ensures quarter { result ≡ quarter_of limits.now.block limits.now.capacity }
    ensures four { 4 * result ≡ blocks_in limits.now.block limits.now.capacity }
    ensures few { result ≤ 2 ^ 24 }
{
    let bytes = u64::from(limits.capacity) * 65_536;
    ((bytes >> limits.block.power()) / 4) as u32
}

/// A block of one of the four quarters.
fn dealt_block<'a>(
    block: Block,
    a: &'a [u8],
    b: &'a [u8],
    c: &'a [u8],
    d: &'a [u8],
    index: u32,
) -> &'a [u8]
    ensures { result.now ≡ dealt (block_bytes block a.now) (block_bytes block b.now) (block_bytes block c.now) (block_bytes block d.now) index }
{
    let row = match index % 4 {
        0 => a,
        1 => b,
        2 => c,
        _ => d,
    };
    window(row, place_of(block, index / 4), block.size() as usize)
}

/// The bytes of four quarters.
fn gather_blocks(
    alloc: Global,
    limits: &MemoryLimits,
    a: &[u8],
    b: &[u8],
    c: &[u8],
    d: &[u8],
) -> Result<Vec<u8>, NoMemory>
    requires limit { limits.now.capacity ≤ 65536 }
    requires one { length a.now ≡ quarter_of limits.now.block limits.now.capacity * 2 ^ limits.now.block }
    requires two { length b.now ≡ quarter_of limits.now.block limits.now.capacity * 2 ^ limits.now.block }
    requires three { length c.now ≡ quarter_of limits.now.block limits.now.capacity * 2 ^ limits.now.block }
    requires four { length d.now ≡ quarter_of limits.now.block limits.now.capacity * 2 ^ limits.now.block }
    ensures len { IfOk result (λ bytes. length bytes.items ≡ limits.now.capacity * PAGE_SIZE) }
    ensures blocks { IfOk result (λ bytes. (i : ℕ) → block_bytes limits.now.block bytes.items i ≡ dealt (block_bytes limits.now.block a.now) (block_bytes limits.now.block b.now) (block_bytes limits.now.block c.now) (block_bytes limits.now.block d.now) i) }
{
    let block = limits.block;
    let _from_6_to_12 = block.power();
    let count = 4 * quarter(limits);
    let mut bytes = Vec::with_capacity(alloc, place_of(block, count))?;
    for index in 0..count {
        bytes.extend_from_slice(dealt_block(block, a, b, c, d, index))?;
    }
    Ok(bytes)
}

/// A queue of one of the four quarters.
fn dealt_queue<'a>(
    a: &'a Queues,
    b: &'a Queues,
    c: &'a Queues,
    d: &'a Queues,
    index: u32,
) -> &'a Queue
    requires one { index / 4 < length a.now }
    requires two { index / 4 < length b.now }
    requires three { index / 4 < length c.now }
    requires four { index / 4 < length d.now }
    ensures { result.now ≡ dealt (queue_at a.now) (queue_at b.now) (queue_at c.now) (queue_at d.now) index }
{
    let row = match index % 4 {
        0 => a,
        1 => b,
        2 => c,
        _ => d,
    };
    row.at((index / 4) as usize)
}

/// The queues of four quarters.
fn gather_queues(
    alloc: Global,
    quarter: u32,
    a: &Queues,
    b: &Queues,
    c: &Queues,
    d: &Queues,
) -> Result<Queues, NoMemory>
    requires few { quarter ≤ 2 ^ 24 }
    requires one { length a.now ≡ quarter }
    requires two { length b.now ≡ quarter }
    requires three { length c.now ≡ quarter }
    requires four { length d.now ≡ quarter }
    ensures len { IfOk result (λ queues. length queues ≡ 4 * quarter) }
    ensures queues { IfOk result (λ queues. (i : ℕ) → queue_at queues i ≡ dealt (queue_at a.now) (queue_at b.now) (queue_at c.now) (queue_at d.now) i) }
{
    let count = 4 * quarter;
    let mut queues = Queues::new(alloc, count)?;
    for index in 0..count {
        let queue = dealt_queue(a, b, c, d, index).copy();
        queues.put(index as usize, queue);
    }
    Ok(queues)
}

/// The memory of which these are the parts.
pub(crate) fn unite_parts(
    alloc: Global,
    parts: Eight<Box<MemoryPart>>,
) -> Result<SharedSpace, NoMemory>
    requires { AreOfOne shared_cut memory_lane memory_fixed memory_held parts }
    ensures { IfOk result (λ s. AreParts memory_lane memory_fixed memory_held s.blocks.limits (shared_values s.blocks s.queues) parts) }
{
    let Eight {
        zero,
        one,
        two,
        three,
        four,
        five,
        six,
        seven,
    } = parts;
    let (pages, last) = length_of(zero);
    let a = blocks_of(one);
    let e = queues_of(two);
    let b = blocks_of(three);
    let f = queues_of(four);
    let c = blocks_of(five);
    let g = queues_of(six);
    let d = blocks_of(seven);
    let bytes = gather_blocks(alloc, &last.limits, &a.bytes, &b.bytes, &c.bytes, &d.bytes)?;
    let count = quarter(&last.limits);
    let queues = gather_queues(alloc, count, &e.queues, &f.queues, &g.queues, &last.queues)?;
    Ok(SharedSpace::of(Blocks::of(last.limits, pages, bytes), queues))
}
