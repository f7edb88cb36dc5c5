//! Traces of the logs in files.

ghost use Rattle.std.specs.Prelude.{◌≡◌, IfOk, IfErr, string_bytes};
ghost use Rattle.replica.specs.Log.{log_of};
ghost use Rattle.thread_plan.specs.Plans.{IsPlanOf};
ghost use Rattle.commands.specs.Traces.{last_break, asked_by, IsTraceText, IsTraceRefusal, IsTracedText, IsTraceRefused};
ghost use Rattle.debug_views.specs.Traces.{asked_of};
ghost use Rattle.wasm_types.specs.declared.modules.Module.{Module};

use crate::fault::Fault;
use crate::files::Files;
use crate::gathered::{ReplayInput, read_replay_input};
use arrayvec::ArrayVec;
use command_words::{ThreadCount, TraceRequest};
use debug_views::{Break, TraceChoice, TraceFault, trace_log};
use log::Log;
use replica::EventAt;
use std::alloc::Global;

/// The break behind the last event that has a line.
fn last_break(to: Option<ThreadCount>) -> ArrayVec<Break, 1>
    ensures { result.items ≡ last_break to }
{
    let mut breaks = ArrayVec::new();
    if let Some(last) = to {
        breaks.push(Break::Place {
            thread: last.thread,
            place: last.count.saturating_add(1),
        });
    }
    breaks
}

/// Which events have a line, and what is in it.
fn choice_of<'a>(request: &'a TraceRequest<'_>) -> TraceChoice<'a>
    ensures { (m : Module) → asked_of m result ≡ asked_by m request.now }
{
    TraceChoice {
        only: &request.only,
        bytes: &request.bytes,
        since: match request.from {
            Some(first) => Some(EventAt {
                thread: first.thread,
                place: first.count,
            }),
            None => None,
        },
        offsets: request.offsets,
    }
}

/// The trace of a log.
fn trace_input(
    alloc: Global,
    input: &ReplayInput,
    request: &TraceRequest<'_>,
) -> Result<String, Fault>
    requires { IsPlanOf input.now.program.valid input.now.program.plan }
    ensures traced { IfOk result (λ text. IsTraceText input.now.program.valid input.now.program.plan (log_of input.now.replica) request.now (string_bytes text)) }
    ensures refused { IfErr result (IsTraceRefusal input.now.program.valid input.now.program.plan (log_of input.now.replica) request.now) }
{
    let breaks = last_break(request.to);
    match trace_log(
        alloc,
        &input.program.valid,
        &input.program.plan,
        input.replica.log(),
        &request.replay.order,
        &breaks,
        choice_of(request),
    ) {
        Ok(text) => Ok(text),
        Err(TraceFault::Replay(refused)) => Err(Fault::Replay(refused)),
        Err(TraceFault::NoMemory) => Err(Fault::NoMemory),
    }
}

/// The trace of a replay: a line for each event that is asked for, and the view of where it stops. The module is read
/// and judged, then the plan, then the piece lines.
pub fn trace<L: Log, F: Files>(
    rt: &L,
    alloc: Global,
    files: &mut F,
    request: &TraceRequest<'_>,
) -> Result<String, Fault>
    ensures traced { IfOk result (λ text. IsTracedText (F.holds files.old) request.now (string_bytes text)) }
    ensures refused { IfErr result (λ fault. IsTraceRefused (F.holds files.old) (F.fails files.old) request.now fault) }
{
    let input = match read_replay_input(rt, alloc, files, &request.replay) {
        Ok(input) => input,
        Err(fault) => return Err(fault),
    };
    trace_input(alloc, &input, request)
}
