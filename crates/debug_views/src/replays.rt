//! Replays that are opened, or refused, and that are made again up to a step.

ghost use Rattle.std.specs.Prelude.{◌≡◌, OnOk, IfOk, IfErr};
ghost use Rattle.debug_views.specs.ThreadNotes.{IsAtStep};
ghost use Rattle.event_core.specs.World.{world_of};
ghost use Rattle.wasm_world.specs.Opening.{WasmWorld};
ghost use Rattle.wasm_world.specs.Plans.{IsPlanOf};
ghost use Rattle.wasm_replay.specs.Replays.{HasWorld, IsNotOpened, IsOfRun, IsOpenerOf, Opens};
ghost use Rattle.wasm_replay.specs.declared.replaying.WasmReplayFault.TheVariants as refusal;

use event_core::World;
use integer_machine::ThreadState;
use replay_gate::{Break, Stopped, run_to};
use replica::Log;
use std::alloc::Global;
use wasm_replay::{ReplayFault, Standing, Unreplayed, WasmReplay, WasmReplayFault, open_replay};
use wasm_types::NoMemory;
use wasm_world::{Plan, SharedSpace, Valid};

/// The replay of a gathered log of a module and a plan, by an order, which can be made again.
#[derive(Clone, Copy)]
pub(crate) struct OrderedReplay<'a> {
    pub(crate) valid: &'a Valid,
    pub(crate) plan: &'a Plan,
    pub(crate) log: &'a Log,
    pub(crate) order: &'a [u32],
}

/// Opens the replay of a log that was gathered, at the opening world of its module and plan.
pub(crate) fn opened<'a>(
    alloc: Global,
    valid: &'a Valid,
    plan: &'a Plan,
    log: &'a Log,
) -> Result<WasmReplay<'a>, Unreplayed>
    requires { IsPlanOf valid.now plan.now }
    ensures of_run { OnOk result (IsOfRun valid.now plan.now log.now) }
    ensures log { IfOk result (λ replay. replay.log.log.now ≡ log.now) }
    ensures opens { IfOk result (λ replay. IsOpenerOf valid.now plan.now log.now replay.opens) }
    ensures has_world { HasWorld valid.now plan.now log.now }
    ensures world { IfOk result (λ replay. (w : WasmWorld) → Opens valid.now plan.now log.now w → world_of replay.world ≡ w) }
    ensures refused { IfErr result (λ refused. IsNotOpened valid.now plan.now log.now refused.fault) }
{
    match open_replay(alloc, valid, plan, log) {
        Ok(replay) => Ok(replay),
        Err(fault) => {
            let standing = Standing::unopened(valid, plan, log, fault);
            Err(Unreplayed { fault, standing })
        }
    }
}

/// The refusal of a replay of a log that stops at a fault, in this world.
pub(crate) fn refused_at(
    alloc: Global,
    log: &Log,
    fault: ReplayFault,
    world: &World<ThreadState<'_>, SharedSpace>,
) -> Unreplayed
    ensures { result.fault ≡ refusal.Replay fault }
{
    let standing = Standing::of(alloc, log, fault, Some(world));
    let fault = WasmReplayFault::Replay(fault);
    Unreplayed { fault, standing }
}

/// The replay, made again up to where a thread has made so many steps.
pub(crate) fn replay_to_step<'a>(
    alloc: Global,
    replay: &OrderedReplay<'a>,
    thread: u32,
    steps: u32,
) -> Result<WasmReplay<'a>, NoMemory>
    requires { IsPlanOf replay.now.valid.now replay.now.plan.now }
    ensures log { IfOk result (λ again. again.log.log.now ≡ replay.now.log.now) }
    ensures opens { IfOk result (λ again. IsOpenerOf replay.now.valid.now replay.now.plan.now replay.now.log.now again.opens) }
    ensures stands { IfOk result (λ again. IsAtStep replay.now.valid.now replay.now.plan.now replay.now.log.now replay.now.order.now thread steps (world_of again.world)) }
{
    let Ok(mut again) = open_replay(alloc, replay.valid, replay.plan, replay.log) else {
        return Err(NoMemory);
    };
    if steps == 0 {
        return Ok(again);
    }
    let breaks = [Break::Step { thread, steps }];
    match run_to(alloc, &mut again, replay.order, &breaks) {
        Stopped::Fault(ReplayFault::NoMemory) => Err(NoMemory),
        _ => Ok(again),
    }
}
