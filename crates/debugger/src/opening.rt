//! The opening of a session.

ghost use Rattle.std.specs.Prelude.{◌≡◌, [], OnOk, IfOk, IfErr};
ghost use Rattle.event_core.specs.World.{world_of};
ghost use Rattle.wasm_world.specs.Plans.{IsPlanOf};
ghost use Rattle.wasm_replay.specs.Replays.{HasWorld, IsNotOpened, IsOfRun, IsOpenerOf, opened_world};

use replay_session::Session;
use replica::Log;
use std::alloc::Global;
use wasm_replay::{Gathered, Opener, ReplayFault, WasmReplayFault, opener_of};
use wasm_world::{Plan, SharedSpace, ThreadState, Valid};

/// A session over the replay of a gathered log.
pub(crate) type WasmSession<'a> = Session<ThreadState<'a>, SharedSpace, Gathered<'a>, Opener<'a>>;

/// The session of a log that was gathered, before its first turn.
pub(crate) fn open_session<'a>(
    alloc: Global,
    valid: &'a Valid,
    plan: &'a Plan,
    log: &'a Log,
) -> Result<WasmSession<'a>, WasmReplayFault>
    requires { IsPlanOf valid.now plan.now }
    ensures of_run { OnOk result (IsOfRun valid.now plan.now log.now) }
    ensures log { IfOk result (λ session. session.replay.log.log.now ≡ log.now) }
    ensures opens { IfOk result (λ session. IsOpenerOf valid.now plan.now log.now session.replay.opens) }
    ensures has_world { HasWorld valid.now plan.now log.now }
    ensures legs { IfOk result (λ session. session.legs.items ≡ []) }
    ensures world { IfOk result (λ session. world_of session.replay.world ≡ opened_world session.replay.opens.valid.now session.replay.opens.plan.now session.replay.opens.profile) }
    ensures refused { IfErr result (IsNotOpened valid.now plan.now log.now) }
{
    let opener = match opener_of(valid, plan, log) {
        Ok(opener) => opener,
        Err(fault) => return Err(fault),
    };
    match Session::new(alloc, &opener, &Gathered::new(log)) {
        Ok(session) => Ok(session),
        Err(_) => Err(WasmReplayFault::Replay(ReplayFault::NoMemory)),
    }
}
