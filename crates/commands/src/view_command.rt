//! Views of the logs in files.

ghost use Rattle.std.specs.Prelude.{◌≡◌, IfOk, IfErr, string_bytes};
ghost use Rattle.replica.specs.Log.{log_of, key_of};
ghost use Rattle.thread_plan.specs.Plans.{IsPlanOf};
ghost use Rattle.wasm_types.specs.Memories.{block_power};
ghost use Rattle.commands.specs.Views.{AreBreaks, IsViewText, IsViewRefusal, IsViewedText, IsViewRefused};

use crate::fault::Fault;
use crate::files::Files;
use crate::gathered::{ReplayInput, read_replay_input};
use crate::run_notes::notes_by;
use arrayvec::ArrayVec;
use command_words::ViewRequest;
use debug_views::{Break, ViewChoice, WasmViewFault, view_log, write_break};
use log::Log;
use std::alloc::Global;
use wasm_record::memory_limits;
use wasm_types::Block;

/// The breaks of a request: at a place, at a step, behind a write of blocks of this size.
fn breaks_of(request: &ViewRequest<'_>, block: Block) -> ArrayVec<Break, 3>
    ensures { AreBreaks request.now block result.items }
{
    let mut breaks = ArrayVec::new();
    if let Some(place) = request.place {
        breaks.push(Break::Place {
            thread: place.thread,
            place: place.count,
        });
    }
    if let Some(step) = request.step {
        breaks.push(Break::Step {
            thread: step.thread,
            steps: step.count,
        });
    }
    if let Some(write) = request.write {
        breaks.push(write_break(block, write.from, write.len));
    }
    breaks
}

/// The view of a log where its replay stops.
fn view_input(
    alloc: Global,
    input: &ReplayInput,
    request: &ViewRequest<'_>,
) -> Result<String, Fault>
    requires { IsPlanOf input.now.program.valid input.now.program.plan }
    ensures viewed { IfOk result (λ text. IsViewText input.now.program.valid input.now.program.plan (log_of input.now.replica) request.now (string_bytes text)) }
    ensures refused { IfErr result (λ fault. IsViewRefusal input.now.program.valid input.now.program.plan (log_of input.now.replica) request.now fault) }
{
    let log = input.replica.log();
    let block = memory_limits(input.program.valid.module(), log.key().profile).block;
    let breaks = breaks_of(request, block);
    let choice = ViewChoice {
        notes: notes_by(request.names, request.offsets),
        range: request.range,
    };
    match view_log(
        alloc,
        &input.program.valid,
        &input.program.plan,
        log,
        &request.replay.order,
        &breaks,
        choice,
    ) {
        Ok(text) => Ok(text),
        Err(WasmViewFault::Replay(refused)) => Err(Fault::Replay(refused)),
        Err(WasmViewFault::View(fault)) => Err(Fault::View(fault)),
    }
}

/// The view of a replay where it stops. The module is read and judged, then the plan, then the piece lines.
pub fn view<L: Log, F: Files>(
    rt: &L,
    alloc: Global,
    files: &mut F,
    request: &ViewRequest<'_>,
) -> Result<String, Fault>
    ensures viewed { IfOk result (λ text. IsViewedText (F.holds files.old) request.now (string_bytes text)) }
    ensures refused { IfErr result (λ fault. IsViewRefused (F.holds files.old) (F.fails files.old) request.now fault) }
{
    let input = match read_replay_input(rt, alloc, files, &request.replay) {
        Ok(input) => input,
        Err(fault) => return Err(fault),
    };
    view_input(alloc, &input, request)
}
