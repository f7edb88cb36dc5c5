//! Replay by threads over a shared memory.

ghost use Rattle.std.specs.Prelude.{◌≡◌, ◌≤◌, IfOk, IfErr, length};
ghost use Rattle.wasm_types.specs.declared.sizes.TheConstants.{MOST_THREADS};
ghost use Rattle.block_objects.specs.SharedMemory.{shared_memory};
ghost use Rattle.wasm_world.specs.Shared.{shared_values};
ghost use Rattle.event_core.specs.Opening.{AllFresh, opening_world};
ghost use Rattle.replay_gate.specs.Finished.{IsReplayEnd, IsReplayFault};

use crate::finishing::replay_by_threads;
use event_core::Ended;
use replay_gate::{ReadLog, Refused};
use rw_objects::Machine;
use shared_core::{Hold, Opened};
use std::alloc::Global;
use std::marker::Brand;
use std::sync::Wait;
use std::thread::Threads;
use striped_memory::StripedMemory;
use wasm_world::SharedSpace;

/// Replays a log by at most 16 machines that made no step, each in a thread of its own, over a shared memory that no
/// thread has touched. What is answered is the end of a gated run from the log, or the fault at which one stands.
pub fn replay_memory<
    X,
    M: Machine<StripedMemory, State = X> + Drop + Send + Sync,
    Z: Drop + Send,
    L: ReadLog<Reader = Z> + Sync,
    H: Hold + Sync,
    R: Threads + Wait + Sync,
>(
    rt: &R,
    alloc: Global,
    space: SharedSpace,
    machines: Vec<M>,
    log: &L,
    hold: &H,
) -> Result<Ended, Refused<M, StripedMemory>>
    requires few { length machines.items ≤ MOST_THREADS }
    requires fresh { AllFresh M.code M.state space.blocks.limits machines.items }
    ensures ended { IfOk result (IsReplayEnd shared_memory M.code (L.log log.now) (opening_world M.state space.blocks.limits (shared_values space.blocks space.queues) machines.items)) }
    ensures refused { IfErr result (λ r. IsReplayFault shared_memory M.code (L.log log.now) (opening_world M.state space.blocks.limits (shared_values space.blocks space.queues) machines.items) r.fault) }
{
    let opened = Opened::new(StripedMemory { space }, machines.len() as u8);
    replay_by_threads::<StripedMemory, X, M, Brand, Z, L, H, R>(
        rt, alloc, opened, machines, log, hold,
    )
}
