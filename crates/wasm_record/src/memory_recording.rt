//! Recording by threads over a shared memory.

ghost use Rattle.std.specs.Prelude.{◌≡◌, ◌≤◌, IfOk, length};
ghost use Rattle.wasm_types.specs.declared.sizes.TheConstants.{MOST_STEPS, MOST_THREADS};
ghost use Rattle.block_objects.specs.SharedMemory.{shared_memory};
ghost use Rattle.wasm_world.specs.Shared.{shared_values};
ghost use Rattle.event_core.specs.Opening.{AllFresh, opening_world};
ghost use Rattle.workers.specs.Recording.{IsRecording};

use recorder::Recorded;
use rw_objects::Machine;
use shared_core::{Hold, Opened};
use std::alloc::Global;
use std::marker::Brand;
use std::sync::Wait;
use std::thread::Threads;
use striped_memory::StripedMemory;
use wasm_types::NoMemory;
use wasm_world::SharedSpace;
use workers::{Timer, record_workers};

/// Records a run of at most 16 machines that made no step, each in a thread of its own, over a shared memory that no
/// thread has touched. Each thread makes no more than `steps` steps, at most 1,000,000,000. Where memory is wanted for
/// one of them all others end first, and no recording is answered.
pub fn record_memory<
    X,
    M: Machine<StripedMemory, State = X> + Drop + Send + Sync,
    T: Timer + Sync,
    H: Hold + Sync,
    R: Threads + Wait + Sync,
>(
    rt: &R,
    alloc: Global,
    space: SharedSpace,
    machines: Vec<M>,
    steps: u32,
    timer: &T,
    hold: &H,
) -> Result<Recorded, NoMemory>
    requires few { length machines.items ≤ MOST_THREADS }
    requires fresh { AllFresh M.code M.state space.blocks.limits machines.items }
    requires limit { steps ≤ MOST_STEPS }
    ensures { IfOk result (λ recorded. IsRecording shared_memory M.code (λ t s. T.can_expire t (M.nanos_of s)) steps (opening_world M.state space.blocks.limits (shared_values space.blocks space.queues) machines.items) recorded) }
{
    let opened = Opened::new(StripedMemory { space }, machines.len() as u8);
    record_workers::<StripedMemory, X, M, Brand, T, H, R>(
        rt, alloc, opened, machines, steps, timer, hold,
    )
}
