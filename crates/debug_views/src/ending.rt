//! Where threads stand at the end of a replay.

ghost use Rattle.std.specs.Prelude.{◌≢◌, IfOk, IfErr, [], map, string_bytes};
ghost use Rattle.wasm_world.specs.Plans.{IsPlanOf};
ghost use Rattle.wasm_replay.specs.Replays.{HasWorld};
ghost use Rattle.debug_views.specs.ThreadNotes.{AreNotesAtEnd, AreNotesOfEnd};
ghost use Rattle.debug_views.specs.Views.{IsNotReplayed};

use crate::notes::{Notes, notes_by};
use crate::replays::{OrderedReplay, opened, refused_at};
use replay_gate::{Stopped, run_to};
use replica::Log;
use std::alloc::Global;
use wasm_replay::{ReplayFault, Unreplayed};
use wasm_world::{Plan, Valid};

/// Where each thread stands at the end of a replay, by the module's bytes, and perhaps with the offsets of instructions.
fn notes_at_end(
    alloc: Global,
    again: &OrderedReplay<'_>,
    has_offsets: bool,
) -> Result<Vec<String>, Unreplayed>
    requires { IsPlanOf again.now.valid.now again.now.plan.now }
    ensures has_world { HasWorld again.now.valid.now again.now.plan.now again.now.log.now }
    ensures noted { IfOk result (λ notes. AreNotesAtEnd again.now.valid.now again.now.plan.now again.now.log.now again.now.order.now (record { source = again.now.valid.now.source; offsets = has_offsets }) (map string_bytes notes.items)) }
    ensures refused { IfErr result (λ refused. IsNotReplayed again.now.valid.now again.now.plan.now again.now.log.now again.now.order.now [] refused.fault) }
{
    let mut replay = match opened(alloc, again.valid, again.plan, again.log) {
        Ok(replay) => replay,
        Err(refused) => return Err(refused),
    };
    let stopped = run_to(alloc, &mut replay, again.order, &[]);
    if let Stopped::Fault(fault) = stopped {
        return Err(refused_at(alloc, again.log, fault, replay.world()));
    }
    match notes_by(alloc, has_offsets, again, replay.world()) {
        Ok(notes) => Ok(notes),
        Err(_) => {
            let fault = ReplayFault::NoMemory;
            Err(refused_at(alloc, again.log, fault, replay.world()))
        }
    }
}

/// What is asked for of where each thread stands at the end of the replay of a log that was gathered, in this order, as
/// notes behind the lines of a report; of one that trapped, where it stood before the last of its steps. On a log below
/// that of a run of the module and plan, it stood there in that run.
pub fn notes_of_end(
    alloc: Global,
    valid: &Valid,
    plan: &Plan,
    log: &Log,
    order: &[u32],
    asked: Notes,
) -> Result<Vec<String>, Unreplayed>
    requires { IsPlanOf valid.now plan.now }
    // There is a world from which the runs of the log begin; of it speak the clauses below.
    ensures has_world { asked ≢ Notes.Nothing → HasWorld valid.now plan.now log.now }
    ensures noted { IfOk result (λ notes. AreNotesOfEnd valid.now plan.now log.now order.now asked (map string_bytes notes.items)) }
    ensures refused { IfErr result (λ refused. IsNotReplayed valid.now plan.now log.now order.now [] refused.fault) }
{
    let again = OrderedReplay {
        valid,
        plan,
        log,
        order,
    };
    match asked {
        Notes::Nothing => Ok(Vec::new(alloc)),
        Notes::Names => notes_at_end(alloc, &again, false),
        Notes::Offsets => notes_at_end(alloc, &again, true),
    }
}
