//! From the bytes of a module and of a plan to the end of a run.

ghost use Rattle.std.specs.Prelude.{◌≡◌, Ok, IfOk};
ghost use Rattle.wasm_types.specs.declared.modules.Module.{Module as ModuleAt};
ghost use Rattle.binary_decoder.specs.Grammar.{Spells};
ghost use Rattle.thread_plan.specs.Plans.{IsPlanOf, PlanValue, plan_of};
ghost use Rattle.wreplay_bench.specs.Alone.{RunsTo};

use crate::alone::Alone;
use crate::ended::Ended;
use crate::fault::Fault;
use binary_decoder::decode;
use std::alloc::Global;
use thread_plan::Plan;
use validator::{Valid, validate};
use wasm_types::{Block, Module};

/// The blocks of a run, of 4,096 bytes.
pub(crate) fn block() -> Block
    ensures { result ≡ 12 }
{
    match Block::of_power(12) {
        Some(block) => block,
        None => unreachable!(),
    }
}

/// Runs thread 0 of a plan.
fn run_plan(alloc: Global, valid: &Valid, plan: &Plan) -> Result<Ended, Fault>
    requires { IsPlanOf valid.now plan.now }
    ensures { IfOk result (λ ended. RunsTo valid.now plan.now 12 ended) }
{
    let mut alone = Alone::new(alloc, valid, plan, block())?;
    Ok(alone.run()?)
}

/// Reads the plan and runs its thread 0.
fn run_valid(alloc: Global, valid: &Valid, text: &[u8]) -> Result<Ended, Fault>
    ensures { IfOk result (λ ended. (plan : PlanValue) × (plan_of valid.now text.now ≡ Ok plan) × RunsTo valid.now plan 12 ended) }
{
    match Plan::read(alloc, text, valid) {
        Ok(plan) => run_plan(alloc, valid, &plan),
        Err(fault) => Err(Fault::Plan(fault)),
    }
}

/// Validates the module, reads the plan and runs its thread 0.
fn run_module(alloc: Global, module: Module, text: &[u8]) -> Result<Ended, Fault>
    ensures { IfOk result (λ ended. (plan : PlanValue) × (plan_of «module» text.now ≡ Ok plan) × RunsTo «module» plan 12 ended) }
{
    match validate(alloc, module) {
        Ok(valid) => run_valid(alloc, &valid, text),
        Err(fault) => Err(Fault::Types(fault)),
    }
}

/// Runs thread 0 of the plan that a text spells, for the module that the bytes spell.
pub fn run_bytes(alloc: Global, bytes: &[u8], text: &[u8]) -> Result<Ended, Fault>
    ensures { IfOk result (λ ended. (m : ModuleAt) × (plan : PlanValue) × Spells m bytes.now × (plan_of m text.now ≡ Ok plan) × RunsTo m plan 12 ended) }
{
    match decode(alloc, bytes) {
        Ok(module) => run_module(alloc, module, text),
        Err(fault) => Err(Fault::Bytes(fault)),
    }
}
