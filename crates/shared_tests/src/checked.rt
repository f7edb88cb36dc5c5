//! Operations that are made where they fit and are ready.

ghost use Rattle.std.specs.Prelude.{◌≡◌, true};
ghost use Rattle.rw_objects.specs.Space.{AllBelow, Fits};
ghost use Rattle.rw_objects.specs.Counts.{CanCountAll};
ghost use Rattle.block_objects.specs.SharedMemory.{shared_memory};

use rw_objects::{Entry, ObjectSpace, Touches, Versioned, Versions};
use std::alloc::Global;
use waiter_queues::SharedSpace;
use wasm_types::{Op, Reply};

/// Whether all touches are of the first `count` objects.
fn all_below(count: u32, touches: &Touches) -> bool
    ensures { result ≡ true → AllBelow count touches.now }
{
    for touch in touches.as_slice() {
        if touch.object >= count {
            return false;
        }
    }
    true
}

/// Whether the touched objects can be counted once more.
fn can_count(versions: &Versions, touches: &Touches) -> bool
    ensures { result ≡ true → CanCountAll touches.now versions.now }
{
    for touch in touches.as_slice() {
        let count = versions.at(touch.object);
        if count.version == u64::MAX || count.reads == u64::MAX {
            return false;
        }
    }
    true
}

/// Whether an operation is one of this space.
fn fits(alloc: Global, space: &SharedSpace, op: &Op) -> bool
    ensures { result ≡ true → Fits shared_memory space.now.blocks.limits op.now }
{
    let limits = space.limits();
    let touches = SharedSpace::touches(alloc, op);
    op.extent.initial == limits.initial
        && op.extent.block.power() == limits.block.power()
        && all_below(space.objects(), &touches)
}

/// Makes an operation, if it fits and is ready.
pub(crate) fn act(
    alloc: Global,
    memory: &mut Versioned<SharedSpace>,
    op: &Op,
) -> Option<(Reply, Entry)> {
    let touches = SharedSpace::touches(alloc, op);
    if !fits(alloc, &memory.space, op) || !can_count(&memory.versions, &touches) {
        return None;
    }
    if !memory.space.ready(op) {
        return None;
    }
    Some(memory.act(op))
}
