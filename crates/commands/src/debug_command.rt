//! Dialogues about the replay of the logs in files.

ghost use Rattle.std.specs.Prelude.{◌≡◌, ◌<◌, ◌+◌, ◌-◌, ◌^◌, OnOk, IfErr};
ghost use Rattle.replica.specs.Log.{log_of};
ghost use Rattle.thread_plan.specs.Plans.{IsPlanOf};
ghost use Rattle.debugger.specs.Dialogue.{IsShownDialogue};
ghost use Rattle.commands.specs.Debugs.{fault_of, IsBroken, IsShownDebug, IsDebugStopped};
ghost use Rattle.wasm_replay.specs.Replays.{IsOfRun};

use crate::fault::Fault;
use crate::files::Files;
use crate::gathered::{ReplayInput, read_replay_input};
use command_words::ReplayRequest;
use debugger::{DebugFault, Sink, Source, debug_log};
use log::Log;
use replica::GatherFault;
use std::alloc::Global;

/// The program's fault where a dialogue stops before its end.
fn fault_of(fault: DebugFault) -> Fault
    ensures { result ≡ fault_of fault }
{
    match fault {
        DebugFault::Replay(refused) => Fault::Replay(refused),
        DebugFault::SourceFailed => Fault::Gather(GatherFault::SourceFailed),
        DebugFault::SinkFailed => Fault::SinkFailed,
    }
}

/// Answers the commands that the source brings about the replay of a log.
fn debug_input<R: Source, W: Sink>(
    alloc: Global,
    input: &ReplayInput,
    order: &[u32],
    source: &mut R,
    output: &mut W,
) -> Result<(), Fault>
    requires suits { IsPlanOf input.now.program.valid input.now.program.plan }
    requires source { R.failed source.old < 2 ^ 64 - 1 }
    requires output { W.failed output.old < 2 ^ 64 - 1 }
    ensures of_run { OnOk result (IsOfRun input.now.program.valid input.now.program.plan (log_of input.now.replica)) }
    ensures done { OnOk result (IsShownDialogue input.now.program.valid input.now.program.plan (log_of input.now.replica) order.now (λ text. R.brings source.old text source.new) (R.ended source.new) (λ text. W.takes output.old text output.new)) }
    ensures stopped { IfErr result (IsBroken (λ text. R.brings source.old text source.new) (R.ended source.new) (λ text. W.takes output.old text output.new) ((source.new ≡ source.old) × (output.new ≡ output.old)) (R.failed source.new ≡ R.failed source.old + 1) (W.failed output.new ≡ W.failed output.old + 1) input.now.program.valid input.now.program.plan (log_of input.now.replica) order.now) }
    ensures source_worked { OnOk result (R.failed source.new ≡ R.failed source.old) }
    ensures output_worked { OnOk result (W.failed output.new ≡ W.failed output.old) }
{
    let program = &input.program;
    match debug_log(
        alloc,
        &program.valid,
        &program.plan,
        input.replica.log(),
        order,
        source,
        output,
    ) {
        Ok(()) => Ok(()),
        Err(fault) => Err(fault_of(fault)),
    }
}

/// Answers the commands that the source brings about a replay, each as soon as it came. The module is read and judged,
/// then the plan, then the piece lines, and then the first command.
pub fn debug<L: Log, F: Files, R: Source, W: Sink>(
    rt: &L,
    alloc: Global,
    files: &mut F,
    request: &ReplayRequest<'_>,
    source: &mut R,
    output: &mut W,
) -> Result<(), Fault>
    requires source { R.failed source.old < 2 ^ 64 - 1 }
    requires output { W.failed output.old < 2 ^ 64 - 1 }
    ensures done { OnOk result (IsShownDebug (λ text. R.brings source.old text source.new) (R.ended source.new) (F.holds files.old) (λ text. W.takes output.old text output.new) request.now) }
    ensures stopped { IfErr result (IsDebugStopped (λ text. R.brings source.old text source.new) (R.ended source.new) (λ text. W.takes output.old text output.new) (F.holds files.old) (F.fails files.old) ((source.new ≡ source.old) × (output.new ≡ output.old)) (R.failed source.new ≡ R.failed source.old + 1) (W.failed output.new ≡ W.failed output.old + 1) request.now) }
    ensures source_worked { OnOk result (R.failed source.new ≡ R.failed source.old) }
    ensures output_worked { OnOk result (W.failed output.new ≡ W.failed output.old) }
{
    let input = match read_replay_input(rt, alloc, files, request) {
        Ok(input) => input,
        Err(fault) => return Err(fault),
    };
    debug_input(alloc, &input, request.order.as_slice(), source, output)
}
