//! The trace of a replay.

ghost use Rattle.std.specs.Prelude.{◌≡◌, ◌++◌, ℕ, List, false, OnOk, IfOk, IfErr, string_bytes};
ghost use Rattle.block_objects.specs.SharedMemory.{shared_memory};
ghost use Rattle.event_core.specs.World.{world_of};
ghost use Rattle.wasm_world.specs.Plans.{IsPlanOf};
ghost use Rattle.wasm_world.specs.ThreadCode.{thread_code};
ghost use Rattle.wasm_replay.specs.Replays.{HasWorld, IsOfRun};
ghost use Rattle.debug_views.specs.Text.{IsShown, IsView};
ghost use Rattle.debug_views.specs.ThreadNotes.{AreNotes};
ghost use Rattle.debug_views.specs.Traces.{asked_of, IsTraceOfLog, IsNotTraced};

use crate::notes::notes_of;
use crate::places::PlaceWriter;
use crate::replays::{OrderedReplay, opened, refused_at};
use crate::text::view;
use crate::trace_choice::TraceChoice;
use crate::trace_watch::Tracer;
use event_core::World;
use integer_machine::{ThreadState, memory_limits};
use replay_gate::{Break, Stopped, run_watched};
use replica::Log;
use std::alloc::Global;
use thiserror::Error;
use wasm_replay::Unreplayed;
use wasm_types::{Block, ByteRange, NoMemory};
use wasm_world::{Plan, SharedSpace, Valid};

/// Why a log is not traced.
#[derive(Clone, Copy, Debug, PartialEq, Eq, Error)]
pub enum TraceFault {
    /// Refusals 51, 55, 56 and 58: the log is not replayed to a stop.
    #[error("{0}")]
    Replay(Unreplayed),
    /// Memory for the lines could not be had.
    #[error("out of memory")]
    NoMemory,
}

/// What was traced, with the view behind it.
fn with_view(tracer: Tracer<'_>, view: &str) -> Result<String, NoMemory>
    ensures { IfOk result (λ text. (tracer.entry.is_wanting ≡ false) × (string_bytes text ≡ (string_bytes tracer.entry.text ++ tracer.entry.line.bytes) ++ view.now)) }
{
    let mut text = tracer.into_text()?;
    text.push_str(view)?;
    Ok(text)
}

/// The view of a world at which a replay stopped, without bytes of its memory.
fn view_at(
    alloc: Global,
    places: &PlaceWriter<'_>,
    replay: &OrderedReplay<'_>,
    world: &World<ThreadState<'_>, SharedSpace>,
    block: Block,
    stopped: Stopped,
    breaks: &[Break],
) -> Result<String, NoMemory>
    requires suits { IsPlanOf replay.now.valid.now replay.now.plan.now }
    requires shown { IsShown stopped breaks.now }
    ensures { IfOk result (λ text. (notes : List (List ℕ)) × AreNotes replay.now.valid.now replay.now.plan.now replay.now.log.now replay.now.order.now places.now (world_of world.now) notes
        × IsView shared_memory thread_code (world_of world.now) block stopped breaks.now notes 0 0 (string_bytes text)) }
{
    let notes = notes_of(alloc, places, replay, world)?;
    let none = ByteRange { from: 0, len: 0 };
    match view(alloc, world, block, stopped, breaks, notes.as_slice(), none) {
        Ok(text) => Ok(text),
        Err(_) => Err(NoMemory),
    }
}

/// Replays a log that was gathered, in this order, up to the first break that holds, or until no thread goes on, and
/// writes a line for each event on the way that is asked for, and behind them the view of the world at which it stops,
/// with where its threads stand, by the module's bytes. On a log below that of a run of the module and plan, each line
/// is told by recorded values alone.
pub fn trace_log(
    alloc: Global,
    valid: &Valid,
    plan: &Plan,
    log: &Log,
    order: &[u32],
    breaks: &[Break],
    choice: TraceChoice<'_>,
) -> Result<String, TraceFault>
    requires { IsPlanOf valid.now plan.now }
    ensures of_run { OnOk result (IsOfRun valid.now plan.now log.now) }
    // There is a world from which the runs of the log begin; of it speak the clauses below.
    ensures has_world { HasWorld valid.now plan.now log.now }
    ensures traced { IfOk result (λ text. IsTraceOfLog valid.now plan.now log.now order.now breaks.now (asked_of valid.now choice.entry) (string_bytes text)) }
    ensures refused { IfErr result (IsNotTraced valid.now plan.now log.now order.now breaks.now) }
{
    let mut replay = match opened(alloc, valid, plan, log) {
        Ok(replay) => replay,
        Err(refused) => return Err(TraceFault::Replay(refused)),
    };
    let source = valid.module().source.as_slice();
    let Ok(places) = PlaceWriter::new(alloc, source, choice.offsets) else {
        return Err(TraceFault::NoMemory);
    };
    let mut tracer = Tracer::new(alloc, &places, choice);
    let stopped = run_watched(alloc, &mut replay, order, breaks, &mut tracer);
    if let Stopped::Fault(fault) = stopped {
        let refused = refused_at(alloc, log, fault, replay.world());
        return Err(TraceFault::Replay(refused));
    }
    let block = memory_limits(valid.module(), log.key().profile).block;
    let again = OrderedReplay {
        valid,
        plan,
        log,
        order,
    };
    let world = replay.world();
    let Ok(view) = view_at(alloc, &places, &again, world, block, stopped, breaks) else {
        return Err(TraceFault::NoMemory);
    };
    match with_view(tracer, &view) {
        Ok(text) => Ok(text),
        Err(_) => Err(TraceFault::NoMemory),
    }
}
