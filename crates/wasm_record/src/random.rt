//! Recording by a schedule that a number draws.

ghost use Rattle.std.specs.Prelude.{◌≡◌, IfOk, IfSome, IfNone};
ghost use Rattle.wasm_world.specs.Plans.{IsPlanOf};
ghost use Rattle.recorder.specs.Printing.{AreOfThreads};
ghost use Rattle.wasm_types.specs.declared.key.Profile.TheVariants.{Two};
ghost use Rattle.wasm_record.specs.Recordings.{IsDrawnSchedule, IsKeyOf, IsNoDrawnSchedule, RecordsRandom};

use crate::recording::Recording;
use recorder::{RandomRun, Schedule, drawn_stretches, record_random};
use std::alloc::Global;
use std::sync::Wait;
use wasm_types::{Block, NoMemory, Profile, RunKey};
use wasm_world::{Plan, Valid, open_world};

/// Records the run of a module and a plan that the number draws, in profile 2 with blocks of that size: the number is
/// that of the run, and names it for good.
pub fn record_drawn<R: Wait>(
    rt: &R,
    alloc: Global,
    valid: &Valid,
    plan: &Plan,
    block: Block,
    run: RandomRun,
) -> Result<Recording, NoMemory>
    requires { IsPlanOf valid.now plan.now }
    ensures key { IfOk result (λ r. IsKeyOf valid.now plan.now run.number (Two block) r.key) }
    ensures records { IfOk result (λ r. RecordsRandom valid.now plan.now (Two block) run.number run.timeouts run.steps r.recorded) }
{
    let source = valid.module().source.as_slice();
    let key = RunKey::of(source, plan.bytes(), run.number, Profile::Two(block));
    let world = open_world(alloc, valid, plan, Profile::Two(block))?;
    let recorded = record_random(rt, alloc, world, run)?;
    Ok(Recording { key, recorded })
}

/// The schedule of the run that the number draws, as `record_drawn` makes it. None where a schedule can not have its
/// picks, since they are more than 1,000,000.
pub fn drawn_schedule<R: Wait>(
    rt: &R,
    alloc: Global,
    valid: &Valid,
    plan: &Plan,
    block: Block,
    run: RandomRun,
) -> Result<Option<Schedule>, NoMemory>
    requires { IsPlanOf valid.now plan.now }
    ensures drawn { IfOk result (λ schedule. IfSome schedule (IsDrawnSchedule valid.now plan.now (Two block) run.number run.timeouts run.steps)) }
    ensures of_threads { IfOk result (λ schedule. IfSome schedule AreOfThreads) }
    ensures none { IfOk result (λ schedule. IfNone schedule (IsNoDrawnSchedule valid.now plan.now (Two block) run.number run.timeouts run.steps)) }
{
    let world = open_world(alloc, valid, plan, Profile::Two(block))?;
    let stretches = drawn_stretches(rt, alloc, world, run)?;
    Schedule::of_stretches(alloc, &stretches)
}
