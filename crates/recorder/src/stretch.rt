//! One pick, made again and again.

ghost use Rattle.std.specs.Prelude.{◌≡◌, ◌<◌, IfOk, OnOk, length};
ghost use Rattle.event_core.specs.World.{world_of, step_of_pick};
ghost use Rattle.recorder.specs.Draw.{is_event};
ghost use Rattle.recorder.specs.Few.{left_behind};
ghost use Rattle.recorder.specs.Making.{IsFewRun, Makes, StepsOn, MakesStretch};

use crate::few_entries::FewEntries;
use crate::{Logs, try_pick};
use event_core::{Input, Pick, PickStep, World};
use rw_objects::{Machine, ObjectSpace};
use wasm_types::NoMemory;

/// Makes steps of a thread, local ones and accesses, as many as come, but no more than `most` steps and `left` accesses,
/// and puts their entries behind those of the thread. Answers how many accesses are left.
fn run_few<M: Machine<S>, S: ObjectSpace>(
    world: &mut World<M, S>,
    logs: &mut Logs,
    thread: u32,
    most: u32,
    left: u32,
) -> Result<u32, NoMemory>
    requires { thread < length logs.old }
    ensures { IfOk result (λ rest. IsFewRun S.meaning M.code thread most left rest (world_of world.old) (world_of world.new) logs.old logs.new) }
{
    let writer = logs.take_out(thread);
    let mut few = FewEntries { writer, left };
    let (_, end) = world.run(thread, &mut few, most);
    logs.put_back(thread, few.writer);
    end?;
    Ok(few.left)
}

/// Makes a pick again and again, where its steps come one behind the other, of which `left` may be events. A step that
/// comes alone is left to `step_on`. Answers how many events are left.
fn run_on<M: Machine<S>, S: ObjectSpace>(
    world: &mut World<M, S>,
    logs: &mut Logs,
    pick: Pick,
    left: u32,
    steps: u32,
) -> Result<u32, NoMemory>
    requires { length logs.old ≡ length (world_of world.old).threads }
    ensures { IfOk result (λ rest. Makes S.meaning M.code steps pick left rest (world_of world.old) (world_of world.new) logs.old logs.new) }
{
    let Input::Go = pick.input else {
        return Ok(left);
    };
    let Some(made) = world.steps(pick.thread) else {
        return Ok(left);
    };
    if steps <= made {
        return Ok(left);
    }
    run_few(world, logs, pick.thread, steps - made, left)
}

/// Whether the step of a pick is an event.
fn is_event<M: Machine<S>, S: ObjectSpace>(world: &World<M, S>, pick: Pick) -> bool
    ensures { result ≡ is_event (step_of_pick S.meaning M.code (world_of world.now) pick) }
{
    match world.step_of(pick) {
        PickStep::Refused(_) => false,
        PickStep::Local => false,
        PickStep::Event(_) => true,
    }
}

/// How many events are left behind a step, where it may be made.
fn left_behind(event: bool, left: u32) -> Option<u32>
    ensures { result ≡ left_behind event left }
{
    if !event {
        return Some(left);
    }
    if left == 0 { None } else { Some(left - 1) }
}

/// Makes a pick once, if it is taken and is no event past the `left` ones. Answers how many events are left then, and
/// None where the pick is not made.
fn step_on<M: Machine<S>, S: ObjectSpace>(
    world: &mut World<M, S>,
    logs: &mut Logs,
    pick: Pick,
    left: u32,
    steps: u32,
) -> Result<Option<u32>, NoMemory>
    requires { length logs.old ≡ length (world_of world.old).threads }
    ensures { IfOk result (StepsOn S.meaning M.code steps pick left (world_of world.old) (world_of world.new) logs.old logs.new) }
{
    let Some(rest) = left_behind(is_event(world, pick), left) else {
        return Ok(None);
    };
    if try_pick(world, logs, pick, steps)? {
        Ok(Some(rest))
    } else {
        Ok(None)
    }
}

/// Makes a pick again and again, as long as it is taken, up to but not including the event behind `accesses` events.
pub(crate) fn make_stretch<M: Machine<S>, S: ObjectSpace>(
    world: &mut World<M, S>,
    logs: &mut Logs,
    pick: Pick,
    accesses: u32,
    steps: u32,
) -> Result<(), NoMemory>
    requires { length logs.old ≡ length (world_of world.old).threads }
    ensures { OnOk result (MakesStretch S.meaning M.code steps pick accesses (world_of world.old) (world_of world.new) logs.old logs.new) }
{
    let mut left = accesses;
    loop {
        left = run_on(world, logs, pick, left, steps)?;
        let Some(rest) = step_on(world, logs, pick, left, steps)? else {
            return Ok(());
        };
        left = rest;
    }
}
