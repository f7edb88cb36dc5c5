//! What an operation sees of an object.

ghost use Rattle.std.specs.Prelude.{◌≡◌, ◌+◌, ◌*◌, ◌/◌, ◌%◌, ◌^◌, ◌<◌, ◌≤◌, ◌==◌, true, length, take, drop};
ghost use Rattle.rw_objects.specs.Space.{Fits};
ghost use Rattle.rw_objects.specs.Counts.{is_touched};
ghost use Rattle.block_objects.specs.Objects.{Bytes, Queue as QueueValue, block_of, block_object, block_bytes};
ghost use Rattle.block_objects.specs.SharedMemory.{shared_memory};
ghost use Rattle.block_objects.specs.Touches.{op_touches};
ghost use Rattle.memory_parts.specs.SharedCut.{action_sight, part_sight, part_in};
ghost use Rattle.striped_memory.specs.MemoryParts.{memory_lane, memory_fixed, memory_held};

use crate::part::{BlockPart, MemoryPart, QueuePart};
use block_objects::block_number;
use memory_parts::Seen;
use waiter_queues::Queue;
use wasm_types::{Action, Block, Op};

/// At most `count` bytes from a place on.
pub(crate) fn window(bytes: &[u8], from: usize, count: usize) -> &[u8]
    requires { from + count < 2 ^ 64 }
    ensures { result.now ≡ take count (drop from bytes.now) }
{
    let start = from.min(bytes.len());
    let end = (from + count).min(bytes.len());
    &bytes[start..end]
}

/// Where a block begins, by how many stand before it.
pub(crate) fn place_of(block: Block, before: u32) -> usize
    ensures place { result ≡ before * 2 ^ block }
    ensures low { result < 2 ^ 44 }
{
    before as usize * block.size() as usize
}

/// Whether an object is the block in which an access at an address begins.
pub(crate) fn is_first(block: Block, address: u32, object: u32) -> bool
    ensures { result ≡ (object == block_object (block_of block address)) }
{
    u64::from(object) == 1 + 2 * u64::from(block_number(block, address))
}

/// At most eight bytes, and how many they are.
fn seen_part(part: &[u8]) -> Seen
    requires { length part.now ≤ 8 }
    ensures { result ≡ part_sight part.now }
{
    match part {
        [a, b, c, d] => Seen::Part {
            bytes: [*a, *b, *c, *d, 0, 0, 0, 0],
            len: 4,
        },
        [a, b, c, d, e, f, g, h] => Seen::Part {
            bytes: [*a, *b, *c, *d, *e, *f, *g, *h],
            len: 8,
        },
        [a] => Seen::Part {
            bytes: [*a, 0, 0, 0, 0, 0, 0, 0],
            len: 1,
        },
        [a, b] => Seen::Part {
            bytes: [*a, *b, 0, 0, 0, 0, 0, 0],
            len: 2,
        },
        _ => {
            let mut bytes = [0; 8];
            bytes[..part.len()].copy_from_slice(part);
            Seen::Part {
                bytes,
                len: part.len() as u32,
            }
        }
    }
}

/// What an access of so many bytes sees of a block that it touches.
fn seen_block(block: Block, address: u32, len: u32, object: u32, bytes: &[u8]) -> Seen
    requires { len ≤ 8 }
    ensures { result ≡ part_sight (part_in block address len object bytes.now) }
{
    let at = address % block.size();
    if is_first(block, address, object) {
        seen_part(window(bytes, at as usize, len as usize))
    } else {
        let before = block.size() - at;
        seen_part(window(bytes, 0, len.saturating_sub(before) as usize))
    }
}

impl BlockPart {
    /// The bytes of the block that an object is.
    fn block(&self, object: u32) -> &[u8]
        ensures { result.now ≡ block_bytes self.now.limits.block self.now.bytes.items (object / 8) }
    {
        let block = self.limits.block;
        window(
            &self.bytes,
            place_of(block, object / 8),
            block.size() as usize,
        )
    }

    /// What an operation sees of a block.
    fn look(&self, object: u32, op: &Op) -> Seen
        requires { op.now.extent.block ≡ self.now.limits.block }
        ensures { result ≡ action_sight self.now.limits.capacity op.now.extent op.now.action object (Bytes (block_bytes self.now.limits.block self.now.bytes.items (object / 8))) }
    {
        let (address, len) = match op.action {
            Action::Load { load, address } => (address, load.width().bytes()),
            Action::Store {
                access,
                address,
                ..
            } => (address, access.width().bytes()),
            Action::Rmw {
                access,
                address,
                ..
            } => (address, access.width().bytes()),
            Action::CompareExchange {
                access,
                address,
                ..
            } => (address, access.width().bytes()),
            Action::Wait { width, address, .. } => (address, width.width().bytes()),
            _ => return Seen::Nothing,
        };
        seen_block(op.extent.block, address, len, object, self.block(object))
    }
}

/// What an operation sees of a queue.
fn look_at_queue(queue: &Queue, object: u32, capacity: u32, op: &Op) -> Seen
    ensures { result ≡ action_sight capacity op.now.extent op.now.action object (QueueValue queue.now) }
{
    match op.action {
        Action::Notify { address, count } => Seen::Threads(queue.would_wake(address, count)),
        Action::Resume { thread, .. } => Seen::Holds(queue.is_woken(thread)),
        Action::TimeOut { thread, address } => Seen::Holds(queue.waits_at(thread, address)),
        _ => Seen::Nothing,
    }
}

impl MemoryPart {
    /// What an operation sees of an object that it touches.
    pub(crate) fn look(&self, object: u32, op: &Op) -> Seen
        requires fits { Fits shared_memory (memory_fixed self.now) op.now }
        requires touched { is_touched (op_touches op.now) object ≡ true }
        requires lane { memory_lane self.now ≡ object % 8 }
        ensures { result ≡ action_sight (memory_fixed self.now).capacity op.now.extent op.now.action object (memory_held self.now (object / 8)) }
    {
        let place = (object / 8) as usize;
        let _from_6_to_12 = op.extent.block.power();
        match self {
            MemoryPart::Blocks(part) => part.look(object, op),
            MemoryPart::Queues(part) => {
                look_at_queue(part.queues.at(place), object, part.limits.capacity, op)
            }
            MemoryPart::Length(pages, part) => {
                let capacity = part.limits.capacity;
                if place == 0 {
                    Seen::Pages {
                        pages: *pages,
                        capacity,
                    }
                } else {
                    look_at_queue(part.queues.at(place - 1), object, capacity, op)
                }
            }
        }
    }
}
