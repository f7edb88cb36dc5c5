//! Bytes of the memory that clients read.

ghost use Rattle.std.specs.Prelude.{◌≡◌, IfOk, drop, take};
ghost use Rattle.debug_views.specs.Values.{memory_bytes};
ghost use Rattle.wasm_world.specs.SharedMemory.{shared_memory};
ghost use Rattle.debugger.specs.Replies.{IsLed};
ghost use Rattle.adapter.specs.Memory.{found_reply, memory_reply};
ghost use Rattle.adapter.specs.State.{state_of};

use crate::adapter::Adapter;
use crate::code::reference_of;
use crate::replies::{failure, success};
use adapter_messages::{Body, List, Reply, Text, Told};
use debug_views::MemorySpace;
use std::alloc::Global;
use wasm_types::NoMemory;

/// The reference of the memory.
const MEMORY: &str = "memory";

/// What is said of a reference to something else.
const NO_MEMORY_SO_CALLED: &str = "error: no such memory, try memory";

/// What is said of an address below 0.
const NO_ADDRESS: &str = "error: no such address";

/// The bytes from an address on, as many as there are, and no more than so many.
fn bytes_from(memory: &[u8], start: u64, count: u64) -> &[u8]
    ensures { result.now ≡ take count (drop start memory.now) }
{
    let (_, behind) = memory.split_at(start.min(memory.len() as u64) as usize);
    let (found, _) = behind.split_at(count.min(behind.len() as u64) as usize);
    found
}

/// A list of bytes.
fn list_of(alloc: Global, bytes: &[u8]) -> Result<List<u8>, NoMemory>
    ensures { IfOk result (λ list. list ≡ bytes.now) }
{
    let mut list = List::new(alloc);
    for byte in bytes {
        list.push(*byte)?;
    }
    Ok(list)
}

/// The bytes of a memory from an address on.
fn found_reply(alloc: Global, memory: &[u8], start: u64, count: u64) -> Result<Reply, NoMemory>
    ensures { IfOk result (λ reply. reply ≡ found_reply memory.now start count) }
{
    let found = bytes_from(memory, start, count);
    let body = Body::Memory {
        address: reference_of(alloc, Some(start as usize))?,
        bytes: list_of(alloc, found)?,
        unreadable: count - found.len() as u64,
    };
    Ok(success(body, Told::none()))
}

impl<'a> Adapter<'a> {
    /// Reads bytes of the memory.
    pub(crate) fn read_memory(
        &self,
        alloc: Global,
        reference: &Text,
        offset: i64,
        count: u64,
    ) -> Result<Reply, NoMemory>
        ensures led { IsLed (state_of self.now).debugger }
        ensures shows { IfOk result (λ reply. reply ≡ memory_reply (memory_bytes shared_memory (state_of self.now).debugger.world) reference.now offset count) }
    {
        let bytes = self.debugger.world().space().bytes();
        if reference.as_str() != MEMORY {
            return failure(alloc, NO_MEMORY_SO_CALLED);
        }
        if offset < 0 {
            return failure(alloc, NO_ADDRESS);
        }
        found_reply(alloc, bytes, offset.unsigned_abs(), count)
    }
}
