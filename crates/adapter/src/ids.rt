//! Ids of threads and of frames.

ghost use Rattle.std.specs.Prelude.{◌≡◌, length};
ghost use Rattle.event_core.specs.World.{world_of};
ghost use Rattle.adapter.specs.Ids.{frame_id, thread_of};

use event_core::World;
use wasm_world::{SharedSpace, ThreadState};

/// The thread that has an id, if there is one.
pub(crate) fn thread_of(world: &World<ThreadState<'_>, SharedSpace>, id: u64) -> Option<u32>
    ensures { result ≡ thread_of (length (world_of world.now).threads) id }
{
    let count = world.count() as u64;
    if 0 < id && id <= count {
        Some((id - 1) as u32)
    } else {
        None
    }
}

/// The id of the frame of a thread at a depth.
pub(crate) fn frame_id(thread: u32, depth: u32) -> u64
    ensures { result ≡ frame_id thread depth }
{
    16 * u64::from(depth) + (u64::from(thread) + 1)
}
