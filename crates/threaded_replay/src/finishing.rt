//! Replay by threads, up to its end.

ghost use Rattle.std.specs.Prelude.{◌≡◌, ◌≤◌, IfOk, IfErr, length};
ghost use Rattle.wasm_types.specs.declared.sizes.TheConstants.{MOST_THREADS};
ghost use Rattle.event_core.specs.Opening.{AllFresh, opening_world};
ghost use Rattle.shared_core.specs.Begins.{names_of, lane_names};
ghost use Rattle.replay_gate.specs.Finished.{IsReplayEnd, IsReplayFault};

use crate::replaying_workers::replay_workers;
use event_core::Ended;
use replay_gate::{ReadLog, Refused, finish};
use rw_objects::Machine;
use shared_core::{Hold, Opened, Opening, Striped};
use std::alloc::Global;
use std::sync::Wait;
use std::thread::Threads;

/// Replays a log by threads, of machines that made no step, over a space that no thread has touched. Each is driven by
/// a worker of its own; the turns that these leave are made in rounds. What is answered is the end of a gated run from
/// the log, or the fault at which one stands.
pub fn replay_by_threads<
    S: Striped + Drop + Send + Sync,
    X,
    M: Machine<S, State = X> + Drop + Send + Sync,
    J: Opening<S, S::Value, S::Fixed> + Send + Sync,
    Z: Drop + Send,
    L: ReadLog<Reader = Z> + Sync,
    H: Hold + Sync,
    R: Threads + Wait + Sync,
>(
    rt: &R,
    alloc: Global,
    opened: Opened<S>,
    machines: Vec<M>,
    log: &L,
    hold: &H,
) -> Result<Ended, Refused<M, S>>
where
    S::Op: Send + Sync,
    S::Reply: Send + Sync,
    S::Value: Send + Sync,
    S::Fixed: Send + Sync,
    S::Part: Send + Sync,
    S::Seen: Send + Sync,
    S::Decision: Send + Sync,
    requires chain { opened.chain ≡ J.chain }
    requires named { names_of (S.fixed opened.space) (S.values opened.space) opened.count.name (lane_names opened.lanes) opened.threads ≡ J.named }
    requires threads { length machines.items ≡ opened.threads }
    requires few { length machines.items ≤ MOST_THREADS }
    requires fresh { AllFresh M.code M.state (S.fixed opened.space) machines.items }
    ensures ended { IfOk result (IsReplayEnd S.meaning M.code (L.log log.now) (opening_world M.state (S.fixed opened.space) (S.values opened.space) machines.items)) }
    ensures refused { IfErr result (λ r. IsReplayFault S.meaning M.code (L.log log.now) (opening_world M.state (S.fixed opened.space) (S.values opened.space) machines.items) r.fault) }
{
    match replay_workers::<S, X, M, J, Z, L, H, R>(rt, alloc, opened, machines, log, hold) {
        Err(_) => Err(Refused::no_memory()),
        Ok(world) => finish(alloc, world, log),
    }
}
