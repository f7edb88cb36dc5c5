//! The bytes of a world's memory, and the versions of its objects.

ghost use Rattle.std.specs.Prelude.{◌≡◌, ◌≢◌, ◌+◌, ◌≤◌, nat_le, length, IfOk, IfErr, Err};
ghost use Rattle.event_core.specs.World.{world_of};
ghost use Rattle.debug_views.specs.Values.{memory_bytes, bytes_of_range, is_in_view, IsFault, count_of_object};
ghost use Rattle.debug_views.specs.declared.fault.ViewFault.TheVariants as faults;

use crate::fault::ViewFault;
use crate::memory_space::MemorySpace;
use event_core::World;
use rw_objects::{Count, Machine, ObjectSpace};
use std::alloc::Global;

/// Whether the memory has all bytes of the range from an address on of so many bytes. It takes no memory.
pub fn is_in_view<M: Machine<S>, S: MemorySpace>(world: &World<M, S>, from: u32, len: u32) -> bool
    ensures { result ≡ is_in_view (memory_bytes S.meaning (world_of world.now)) from len }
{
    let end = u64::from(from) + u64::from(len);
    end <= world.space().bytes().len() as u64
}

/// The bytes of the memory from an address on, so many of them. No other byte is copied, and of length 0 no memory is
/// taken.
pub fn bytes<M: Machine<S>, S: MemorySpace>(
    alloc: Global,
    world: &World<M, S>,
    from: u32,
    len: u32,
) -> Result<Vec<u8>, ViewFault>
    ensures bytes { IfOk result (λ bytes. bytes.items ≡ bytes_of_range (memory_bytes S.meaning (world_of world.now)) from len) }
    ensures within { IfOk result (λ bytes. from + len ≤ length (memory_bytes S.meaning (world_of world.now))) }
    ensures fault { IfErr result (IsFault (memory_bytes S.meaning (world_of world.now)) from len) }
    ensures none_wanted { len ≡ 0 → result ≢ Err faults.NoMemory }
{
    let memory = world.space().bytes();
    let start = from as usize;
    let end = start + len as usize;
    if end > memory.len() {
        return Err(ViewFault::OutOfView);
    }
    if len == 0 {
        return Ok(Vec::new(alloc));
    }
    Ok(memory[start..end].to_vec(alloc)?)
}

/// The version and the read total of an object; None past the world's last object. It takes no memory.
pub fn versions<M: Machine<S>, S: ObjectSpace>(world: &World<M, S>, object: u32) -> Option<Count>
    ensures { result ≡ count_of_object (S.meaning.objects (world_of world.now).memory.fixed) (world_of world.now).memory.counts object }
{
    if object < world.space().objects() {
        Some(world.versions().at(object))
    } else {
        None
    }
}
