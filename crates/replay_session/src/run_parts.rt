//! Going on up to a break, by parts between which replays are kept.

ghost use Rattle.std.specs.Prelude.{◌≡◌, ◌+◌, ◌≤◌, ◌++◌, ℕ, List, [], IfOk, length, slice_get, true};
ghost use Rattle.event_core.specs.World.{world_of};
ghost use Rattle.replay_gate.specs.declared.breaks.Break.{Break};
ghost use Rattle.replay_gate.specs.Stops.{StopsAt, StopsRight, StopsFree};
ghost use Rattle.replay_session.specs.Parts.{HasParts, is_part};
ghost use Rattle.replay_session.specs.Ways.{WayLeads};

use crate::keeps::Keeps;
use crate::legs::Leg;
use crate::sums::steps_of_world;
use event_core::World;
use replay_gate::{Break, OpenWorld, ReadLog, Replay, Stopped, run_to};
use rw_objects::{CopiedSpace, Machine, ObjectSpace};
use std::alloc::Global;
use wasm_types::NoMemory;

/// So many events of the last thread come at most between two replays that are kept; more in a space of many objects,
/// of which a copy takes longer.
const EVENTS_APART: u32 = 16_384;

/// So many steps of it.
const STEPS_APART: u32 = 1_048_576;

/// So many parts at most: as many as a thread can have events and steps that far apart.
const MOST_PARTS: u32 = 65_536;

/// Breaks, and behind them those at which the next replay is to be kept.
fn with_parts<M: Machine<S>, S: ObjectSpace>(
    alloc: Global,
    breaks: &[Break],
    world: &World<M, S>,
    last: u32,
) -> Result<Vec<Break>, NoMemory>
    ensures { IfOk result (λ all. HasParts last breaks.now all.items) }
{
    let objects = world.space().objects();
    let events = world.places(last).unwrap_or(0);
    let steps = world.steps(last).unwrap_or(0);
    let mut all = breaks.to_vec(alloc)?;
    all.push(Break::Place {
        thread: last,
        place: events.saturating_add(EVENTS_APART.max(objects / 4)),
    })?;
    all.push(Break::Step {
        thread: last,
        steps: steps.saturating_add(STEPS_APART.max(objects.saturating_mul(16))),
    })?;
    Ok(all)
}

/// Whether a run stopped at none of so many breaks, but at one behind them.
fn is_part(stopped: Stopped, breaks: usize) -> bool
    ensures { result ≡ is_part breaks stopped }
{
    match stopped {
        Stopped::Break(index) => index >= breaks,
        Stopped::Finished | Stopped::Stuck | Stopped::Fault(_) => false,
    }
}

/// Goes on up to a break, as `run_to` does by no order, from the end of a way, and keeps replays where the last thread
/// has gone far since the one before.
pub(crate) fn run_and_keep<
    M: Machine<S> + Drop,
    S: CopiedSpace + Drop,
    L: ReadLog + Copy + Drop,
    O: OpenWorld<M, S> + Copy + Drop,
>(
    alloc: Global,
    replay: &mut Replay<M, S, L, O>,
    keeps: &mut Keeps<M, S, L, O>,
    legs: &[Leg],
    breaks: &[Break],
) -> Stopped
    requires way { ∥ WayLeads S.meaning M.code (L.log replay.old.log) legs.now (O.opened replay.old.opens) (world_of replay.old.world) ∥₁ }
    requires same_log { keeps.old.log ≡ replay.old.log }
    requires same_opens { keeps.old.opens ≡ replay.old.opens }
    ensures log { replay.new.log ≡ replay.old.log }
    ensures opens { replay.new.opens ≡ replay.old.opens }
    ensures keeps_log { keeps.new.log ≡ keeps.old.log }
    ensures keeps_opens { keeps.new.opens ≡ keeps.old.opens }
    ensures stops { StopsAt S.meaning M.code (L.log replay.old.log) (world_of replay.old.world) [] breaks.now (world_of replay.new.world) result }
    ensures right { StopsRight S.meaning M.code (L.log replay.old.log) (O.opened replay.old.opens) result }
    ensures free { StopsFree S.meaning M.code (L.log replay.old.log) (O.opened replay.old.opens) result }
{
    let count = replay.world().count() as u32;
    let before = steps_of_world(replay.world());
    for _part in 0..MOST_PARTS {
        if count == 0 {
            break;
        }
        let Ok(all) = with_parts(alloc, breaks, replay.world(), count - 1) else {
            break;
        };
        let stopped = run_to(alloc, replay, &[], all.as_slice());
        if !is_part(stopped, breaks.len()) {
            return stopped;
        }
        let made = steps_of_world(replay.world()) - before;
        keeps.keep_rounds(alloc, replay, legs, made);
    }
    run_to(alloc, replay, &[], breaks)
}
