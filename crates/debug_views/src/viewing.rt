//! The view of a replay that stops.

ghost use Rattle.std.specs.Prelude.{ℕ, ◌+◌, ◌≤◌, List, length, OnOk, IfOk, IfErr, string_bytes};
ghost use Rattle.block_objects.specs.SharedMemory.{shared_memory};
ghost use Rattle.debug_views.specs.Text.{IsShown, IsView};
ghost use Rattle.debug_views.specs.Values.{IsFault, memory_bytes};
ghost use Rattle.event_core.specs.World.{world_of};
ghost use Rattle.wasm_world.specs.ThreadCode.{thread_code};
ghost use Rattle.wasm_world.specs.Plans.{IsPlanOf};
ghost use Rattle.wasm_replay.specs.Replays.{HasWorld, IsOfRun};
ghost use Rattle.debug_views.specs.ThreadNotes.{AreNotesAsked};
ghost use Rattle.debug_views.specs.Views.{IsViewOfLog, IsNotViewed};

use crate::fault::ViewFault;
use crate::notes::{Notes, notes_asked};
use crate::replays::{OrderedReplay, opened, refused_at};
use crate::text::view;
use crate::values::is_in_view;
use event_core::World;
use integer_machine::{ThreadState, memory_limits};
use replay_gate::{Break, Stopped, run_to};
use replica::Log;
use std::alloc::Global;
use thiserror::Error;
use wasm_replay::Unreplayed;
use wasm_types::{Block, ByteRange};
use wasm_world::{Plan, SharedSpace, Valid};

/// Why a log is not viewed.
#[derive(Clone, Copy, Debug, PartialEq, Eq, Error)]
pub enum WasmViewFault {
    /// Refusals 51, 55, 56 and 58: the log is not replayed to a stop.
    #[error("{0}")]
    Replay(Unreplayed),
    /// Refusals 61 and 62: the view can't be shown.
    #[error("{0}")]
    View(ViewFault),
}

/// What is shown of a world.
#[derive(Clone, Copy, Debug, PartialEq, Eq)]
pub struct ViewChoice {
    /// What is said of where its threads stand.
    pub notes: Notes,
    /// The bytes of its memory.
    pub range: ByteRange,
}

/// Shows a world at which a replay stopped. A range that passes the memory is refused before memory is wanted for notes.
fn show(
    alloc: Global,
    replay: &OrderedReplay<'_>,
    world: &World<ThreadState<'_>, SharedSpace>,
    block: Block,
    stopped: Stopped,
    breaks: &[Break],
    choice: ViewChoice,
) -> Result<String, ViewFault>
    requires suits { IsPlanOf replay.now.valid.now replay.now.plan.now }
    requires shown { IsShown stopped breaks.now }
    ensures view { IfOk result (λ text. (notes : List (List ℕ)) × AreNotesAsked replay.now.valid.now replay.now.plan.now replay.now.log.now replay.now.order.now choice.notes (world_of world.now) notes
        × IsView shared_memory thread_code (world_of world.now) block stopped breaks.now notes choice.range.from choice.range.len (string_bytes text)) }
    ensures within { IfOk result (λ text. choice.range.from + choice.range.len ≤ length (memory_bytes shared_memory (world_of world.now))) }
    ensures fault { IfErr result (IsFault (memory_bytes shared_memory (world_of world.now)) choice.range.from choice.range.len) }
{
    let range = choice.range;
    if !is_in_view(world, range.from, range.len) {
        return Err(ViewFault::OutOfView);
    }
    let Ok(notes) = notes_asked(alloc, choice.notes, replay, world) else {
        return Err(ViewFault::NoMemory);
    };
    view(
        alloc,
        world,
        block,
        stopped,
        breaks,
        notes.as_slice(),
        range,
    )
}

/// Replays a log that was gathered, in this order, up to the first break that holds, or until no thread goes on, and
/// shows the world at which it stops. On a log below that of a run of the module and plan, the values and threads of
/// that world are recorded ones alone. Where it is asked for, behind the line of each thread stands where it is, by the
/// module's bytes, or of one that trapped, where it was before the last of its steps. That the range passes that world's
/// memory is said before any want of memory for its view.
pub fn view_log(
    alloc: Global,
    valid: &Valid,
    plan: &Plan,
    log: &Log,
    order: &[u32],
    breaks: &[Break],
    choice: ViewChoice,
) -> Result<String, WasmViewFault>
    requires { IsPlanOf valid.now plan.now }
    ensures of_run { OnOk result (IsOfRun valid.now plan.now log.now) }
    // There is a world from which the runs of the log begin; of it speak the clauses below.
    ensures has_world { HasWorld valid.now plan.now log.now }
    ensures shown { IfOk result (λ text. IsViewOfLog valid.now plan.now log.now order.now breaks.now choice.notes choice.range.from choice.range.len (string_bytes text)) }
    ensures refused { IfErr result (IsNotViewed valid.now plan.now log.now order.now breaks.now choice.range.from choice.range.len) }
{
    let mut replay = match opened(alloc, valid, plan, log) {
        Ok(replay) => replay,
        Err(refused) => return Err(WasmViewFault::Replay(refused)),
    };
    let stopped = run_to(alloc, &mut replay, order, breaks);
    if let Stopped::Fault(fault) = stopped {
        let refused = refused_at(alloc, log, fault, replay.world());
        return Err(WasmViewFault::Replay(refused));
    }
    let block = memory_limits(valid.module(), log.key().profile).block;
    let again = OrderedReplay {
        valid,
        plan,
        log,
        order,
    };
    match show(
        alloc,
        &again,
        replay.world(),
        block,
        stopped,
        breaks,
        choice,
    ) {
        Ok(text) => Ok(text),
        Err(fault) => Err(WasmViewFault::View(fault)),
    }
}
