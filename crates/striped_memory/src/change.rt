//! What an operation changes in a part.

ghost use Rattle.std.specs.Prelude.{◌≡◌, ◌≢◌, ℕ, ◌+◌, ◌-◌, ◌*◌, ◌/◌, ◌%◌, ◌^◌, ◌<◌, ◌≤◌, Some, List, length};
ghost use Rattle.std.specs.Int.{to_le_bytes};
ghost use Rattle.rw_objects.specs.Space.{Fits, mode_at};
ghost use Rattle.rw_objects.specs.declared.touch.Mode.TheVariants.{Write};
ghost use Rattle.wasm_types.specs.Accesses.{access_width};
ghost use Rattle.block_objects.specs.Access.{overwrite};
ghost use Rattle.block_objects.specs.Objects.{Bytes, Queue, block_bytes};
ghost use Rattle.block_objects.specs.SharedMemory.{shared_memory};
ghost use Rattle.block_objects.specs.Touches.{op_touches};
ghost use Rattle.memory_parts.specs.SharedCut.{action_changed, access_changed, with_part};
ghost use Rattle.shared_parts.specs.Parts.{set_at};
ghost use Rattle.waiter_queues.specs.Shared.{queue_at};
ghost use Rattle.striped_memory.specs.Quarters.{quarter_of};
ghost use Rattle.striped_memory.specs.MemoryParts.{memory_lane, memory_fixed, memory_held, blocks_held};

use crate::look::{is_first, place_of};
use crate::part::{BlockPart, MemoryPart};
use memory_parts::Decision;
use waiter_queues::Queues;
use wasm_types::{Access, Action, Block, Extent, Op};

/// Puts bytes over others from a place on.
fn put(bytes: &mut Vec<u8>, at: usize, new: &[u8])
    requires { at + length new.now ≤ length bytes.old.items }
    ensures { bytes.new.items ≡ overwrite at new.now bytes.old.items }
{
    bytes[at..at + new.len()].copy_from_slice(new);
}

/// The bytes of an access at an address that lie in a block which it touches, and where in it they begin.
fn part_of(block: Block, address: u32, new: &[u8], object: u32) -> (usize, &[u8])
    requires { length new.now ≤ 8 }
    ensures within { result.0 + length result.1.now ≤ 2 ^ block }
    ensures part { (bytes : List ℕ) → overwrite result.0 result.1.now bytes ≡ with_part block address new.now object bytes }
{
    let at = (address % block.size()) as usize;
    let before = (block.size() as usize - at).min(new.len());
    if is_first(block, address, object) {
        (at, &new[..before])
    } else {
        (0, &new[before..])
    }
}

impl BlockPart {
    /// Stores a number's low bytes, as far as they lie in the block of an object that the access touches.
    fn store(&mut self, object: u32, access: Access, address: u32, number: u64)
        requires { object / 8 < quarter_of self.old.limits.block self.old.limits.capacity }
        ensures row { self.new.row ≡ self.old.row }
        ensures limits { self.new.limits ≡ self.old.limits }
        ensures held { blocks_held self.old.limits.block self.new.bytes.items ≡ set_at (blocks_held self.old.limits.block self.old.bytes.items) (object / 8)
            (Bytes (with_part self.old.limits.block address (to_le_bytes (access_width access) number) object (block_bytes self.old.limits.block self.old.bytes.items (object / 8)))) }
    {
        let block = self.limits.block;
        let bytes = number.to_le_bytes();
        let len = access.width().bytes();
        let new = &bytes[..len as usize];
        let (at, part) = part_of(block, address, new, object);
        put(&mut self.bytes, place_of(block, object / 8) + at, part);
    }

    /// Stores what an access stores, if it stores a number.
    fn store_if(
        &mut self,
        extent: &Extent,
        object: u32,
        access: Access,
        address: u32,
        stored: Option<u64>,
    )
        requires block { extent.now.block ≡ self.old.limits.block }
        requires here { object / 8 < quarter_of self.old.limits.block self.old.limits.capacity }
        ensures row { self.new.row ≡ self.old.row }
        ensures limits { self.new.limits ≡ self.old.limits }
        ensures held { blocks_held self.old.limits.block self.new.bytes.items ≡ set_at (blocks_held self.old.limits.block self.old.bytes.items) (object / 8)
            (access_changed extent.now address (access_width access) stored object (blocks_held self.old.limits.block self.old.bytes.items (object / 8))) }
    {
        if let Some(number) = stored {
            self.store(object, access, address, number);
        }
    }

    /// Changes a block as an operation that writes it decides.
    fn change(&mut self, object: u32, op: &Op, decision: &Decision)
        requires block { op.now.extent.block ≡ self.old.limits.block }
        requires here { object / 8 < quarter_of self.old.limits.block self.old.limits.capacity }
        requires odd { object % 2 ≡ 1 }
        requires written { mode_at (op_touches op.now) object ≡ Some Write }
        ensures row { self.new.row ≡ self.old.row }
        ensures limits { self.new.limits ≡ self.old.limits }
        ensures held { blocks_held self.old.limits.block self.new.bytes.items ≡ set_at (blocks_held self.old.limits.block self.old.bytes.items) (object / 8) (action_changed op.now.extent op.now.action decision.now object (blocks_held self.old.limits.block self.old.bytes.items (object / 8))) }
    {
        let extent = &op.extent;
        let stored = decision.stored;
        match op.action {
            Action::Store {
                access,
                address,
                ..
            } => self.store_if(extent, object, access, address, stored),
            Action::Rmw {
                access,
                address,
                ..
            } => self.store_if(extent, object, access, address, stored),
            Action::CompareExchange {
                access,
                address,
                ..
            } => self.store_if(extent, object, access, address, stored),
            _ => {}
        }
    }
}

/// Changes a queue as an operation that writes it decides.
fn change_queue(queues: &mut Queues, at: usize, object: u32, op: &Op, decision: &Decision)
    requires here { at < length queues.old }
    requires even { object % 2 ≡ 0 }
    requires some { 0 < object }
    requires written { mode_at (op_touches op.now) object ≡ Some Write }
    ensures there { action_changed op.now.extent op.now.action decision.now object (Queue (queue_at queues.old at)) ≡ Queue (queue_at queues.new at) }
    ensures others { (j : ℕ) → j ≢ at → queue_at queues.new j ≡ queue_at queues.old j }
    ensures len { length queues.new ≡ length queues.old }
{
    match op.action {
        Action::Wait {
            thread,
            address,
            ..
        } => {
            if decision.queues {
                queues.wait(at, thread, address);
            }
        }
        Action::Notify { address, count } => {
            if decision.queues {
                queues.notify(at, address, count);
            }
        }
        Action::Resume { thread, .. } => queues.resume(at, thread),
        Action::TimeOut { thread, address } => queues.time_out(at, thread, address),
        _ => {}
    }
}

impl MemoryPart {
    /// Changes an object that an operation writes.
    pub(crate) fn change(&mut self, object: u32, op: &Op, decision: &Decision)
        requires fits { Fits shared_memory (memory_fixed self.old) op.now }
        requires written { mode_at (op_touches op.now) object ≡ Some Write }
        requires lane { memory_lane self.old ≡ object % 8 }
        ensures lane { memory_lane self.new ≡ memory_lane self.old }
        ensures fixed { memory_fixed self.new ≡ memory_fixed self.old }
        ensures held { memory_held self.new ≡ set_at (memory_held self.old) (object / 8) (action_changed op.now.extent op.now.action decision.now object (memory_held self.old (object / 8))) }
    {
        let place = (object / 8) as usize;
        let _from_6_to_12 = op.extent.block.power();
        match self {
            MemoryPart::Blocks(part) => part.change(object, op, decision),
            MemoryPart::Queues(part) => change_queue(&mut part.queues, place, object, op, decision),
            MemoryPart::Length(pages, part) => {
                if place == 0 {
                    *pages = decision.pages;
                } else {
                    change_queue(&mut part.queues, place - 1, object, op, decision);
                }
            }
        }
    }
}
