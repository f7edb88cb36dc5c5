//! Replay of a gathered log.

ghost use Rattle.std.specs.Prelude.{◌≡◌, true, OnOk, IfOk, IfErr};
ghost use Rattle.wasm_world.specs.Plans.{IsPlanOf};
ghost use Rattle.wasm_replay.specs.Replays.{EndsAsRecorded, HasWorld, IsOrderedAnswer, IsRefusal, IsOfRun};

use crate::gathered::Gathered;
use crate::opening::opener_of;
use crate::standing::Standing;
use event_core::Ended;
use replay_gate::{ReplayFault, replay};
use replica::Log;
use std::alloc::Global;
use thiserror::Error;
use wasm_world::{Plan, Valid};

/// Why a gathered log is not replayed to its end.
#[derive(Clone, Copy, Debug, PartialEq, Eq, Error)]
pub enum WasmReplayFault {
    /// Refusal 51: the log is of another module or plan.
    #[error("the log is of another module or plan")]
    OtherRun,
    /// Refusal 58: the module has no runs of the log's profile.
    #[error("the module has no runs of the log's profile")]
    OldProfile,
    /// Refusals 52 to 57: the replay's own.
    #[error("{0}")]
    Replay(ReplayFault),
}

/// Why a gathered log is not replayed to its end, and where its replay stands.
#[derive(Clone, Copy, Debug, PartialEq, Eq, Error)]
#[error("{fault}")]
pub struct Unreplayed {
    /// Why it is not.
    pub fault: WasmReplayFault,
    /// Where its replay stands. No clause speaks of it.
    pub standing: Standing,
}

/// Replays a log that was gathered, from the opening world of its module and plan.
///
/// What is answered is the end, or the fault, of the ordered replay: the threads of the order one by one take a turn
/// each, then all in rounds. An end is that of every run of the module and plan whose log this log is below, and
/// vouches that there is one; on the whole log of a run no refusal but want of memory comes.
pub fn replay_gathered(
    alloc: Global,
    valid: &Valid,
    plan: &Plan,
    log: &Log,
    order: &[u32],
) -> Result<Ended, Unreplayed>
    requires { IsPlanOf valid.now plan.now }
    ensures of_run { OnOk result (IsOfRun valid.now plan.now log.now) }
    // There is a world from which the runs of the log begin; of it speak the clauses below.
    ensures has_world { HasWorld valid.now plan.now log.now }
    ensures ordered { IfOk result (IsOrderedAnswer valid.now plan.now log.now order.now) }
    ensures recorded { IfOk result (EndsAsRecorded valid.now plan.now log.now) }
    ensures refused { IfErr result (λ u. IsRefusal valid.now plan.now log.now order.now u.fault) }
{
    let opener = match opener_of(valid, plan, log) {
        Ok(opener) => opener,
        Err(fault) => {
            let standing = Standing::unopened(valid, plan, log, fault);
            return Err(Unreplayed { fault, standing });
        }
    };
    match replay(alloc, &opener, &Gathered { log }, order) {
        Ok(ended) => Ok(ended),
        Err(refused) => Err(Unreplayed {
            fault: WasmReplayFault::Replay(refused.fault),
            standing: Standing::of(alloc, log, refused.fault, refused.world.as_ref()),
        }),
    }
}
