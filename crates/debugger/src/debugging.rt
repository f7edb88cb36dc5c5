//! Dialogues over the replay of a gathered log.

ghost use Rattle.std.specs.Prelude.{◌≡◌, ◌+◌, ◌-◌, ◌^◌, ◌<◌, IfErr, IfOk, OnOk};
ghost use Rattle.wasm_world.specs.Plans.{IsPlanOf};
ghost use Rattle.wasm_replay.specs.Replays.{IsNotOpened, IsOfRun};
ghost use Rattle.debugger.specs.At.{at_of, CanOpen};
ghost use Rattle.debugger.specs.Dialogue.{IsShownDialogue, IsDialogueStopped};
ghost use Rattle.debugger.specs.Orders.{after_turns};
ghost use Rattle.debugger.specs.Replies.{DebugAt, IsOpening};

use crate::debugger::Debugger;
use crate::moves::unopened;
use crate::talking::{TalkFault, talk};
use byte_streams::{Sink, Source};
use replica::Log;
use std::alloc::Global;
use wasm_replay::{ReplayFault, Unreplayed, WasmReplayFault};
use wasm_types::NoMemory;
use wasm_world::{Plan, Valid};

/// Why a dialogue over a replay stops.
#[derive(Clone, Copy, Debug, PartialEq, Eq)]
pub enum DebugFault {
    /// Refusals 51, 56 and 58: the replay is not opened.
    Replay(Unreplayed),
    /// What brings lines failed.
    SourceFailed,
    /// What takes answers failed.
    SinkFailed,
}

/// A debugger that stands behind the turns of an order from the opening world on.
fn open_behind<'a>(
    alloc: Global,
    valid: &'a Valid,
    plan: &'a Plan,
    log: &'a Log,
    order: &[u32],
) -> Result<Debugger<'a>, Unreplayed>
    requires { IsPlanOf valid.now plan.now }
    ensures of_run { OnOk result (IsOfRun valid.now plan.now log.now) }
    ensures can_open { IfOk result CanOpen }
    ensures behind { IfOk result (λ d. (start : DebugAt) × IsOpening valid.now plan.now log.now start × (at_of d ≡ after_turns start order.now)) }
    ensures refused { IfErr result (λ u. IsNotOpened valid.now plan.now log.now u.fault) }
{
    let mut debugger = match Debugger::new(alloc, valid, plan, log) {
        Ok(debugger) => debugger,
        Err(refused) => return Err(refused),
    };
    match debugger.take_turns(alloc, order) {
        Ok(()) => Ok(debugger),
        Err(NoMemory) => {
            drop(debugger);
            let wanting = WasmReplayFault::Replay(ReplayFault::NoMemory);
            Err(unopened(valid, plan, log, wanting))
        }
    }
}

/// Reads commands, one a line, and answers each, up to `quit` or to the end of what comes. The first one finds the
/// replay of a gathered log of a module and a plan behind a turn for each thread of the order.
pub fn debug_log<R: Source, W: Sink>(
    alloc: Global,
    valid: &Valid,
    plan: &Plan,
    log: &Log,
    order: &[u32],
    source: &mut R,
    output: &mut W,
) -> Result<(), DebugFault>
    requires plan { IsPlanOf valid.now plan.now }
    requires source { R.failed source.old < 2 ^ 64 - 1 }
    requires output { W.failed output.old < 2 ^ 64 - 1 }
    ensures of_run { OnOk result (IsOfRun valid.now plan.now log.now) }
    ensures done { OnOk result (IsShownDialogue valid.now plan.now log.now order.now (λ text. R.brings source.old text source.new) (R.ended source.new) (λ text. W.takes output.old text output.new)) }
    ensures stopped { IfErr result (IsDialogueStopped valid.now plan.now log.now order.now (λ text. R.brings source.old text source.new) (R.ended source.new) (λ text. W.takes output.old text output.new) ((source.new ≡ source.old) × (output.new ≡ output.old)) (R.failed source.new ≡ R.failed source.old + 1) (W.failed output.new ≡ W.failed output.old + 1)) }
    ensures source_worked { OnOk result (R.failed source.new ≡ R.failed source.old) }
    ensures output_worked { OnOk result (W.failed output.new ≡ W.failed output.old) }
{
    let mut debugger = match open_behind(alloc, valid, plan, log, order) {
        Ok(debugger) => debugger,
        Err(refused) => return Err(DebugFault::Replay(refused)),
    };
    let talked = talk(alloc, &mut debugger, source, output);
    drop(debugger);
    match talked {
        Ok(()) => Ok(()),
        Err(TalkFault::SourceFailed) => Err(DebugFault::SourceFailed),
        Err(TalkFault::SinkFailed) => Err(DebugFault::SinkFailed),
    }
}
