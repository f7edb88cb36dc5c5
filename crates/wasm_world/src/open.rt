//! The opening world of a module and a plan.

ghost use Rattle.std.specs.Prelude.{◌≡◌, ◌≤◌, true, Some, IfOk, map, length};
ghost use Rattle.wasm_types.specs.declared.sizes.TheConstants.{MOST_THREADS};
ghost use Rattle.event_core.specs.Opening.{AllFresh, IsOpeningWorld, opening_world};
ghost use Rattle.event_core.specs.World.{world_of};
ghost use Rattle.integer_machine.specs.Sound.{thread_of};
ghost use Rattle.thread_words.specs.ThreadCode.{thread_code};
ghost use Rattle.thread_plan.specs.Plans.{IsPlanOf};
ghost use Rattle.validator.specs.Valid.{fits_profile};
ghost use Rattle.waiter_queues.specs.Shared.{shared_values};
ghost use Rattle.wasm_world.specs.Opening.{opening_threads, opening_world_of};

use event_core::World;
use integer_machine::{ThreadState, memory_limits};
use std::alloc::Global;
use thread_plan::Plan;
use validator::Valid;
use waiter_queues::SharedSpace;
use wasm_types::{NoMemory, Profile};

/// The threads of a plan before their first steps, thread 0 first.
fn open_threads<'a>(
    alloc: Global,
    valid: &'a Valid,
    plan: &Plan,
    profile: &Profile,
) -> Result<Vec<ThreadState<'a>>, NoMemory>
    requires { IsPlanOf valid.now plan.now }
    ensures { IfOk result (λ threads. opening_threads valid.now profile.now 0 plan.now.threads ≡ Some (map thread_of threads.items)) }
{
    let mut threads = Vec::new(alloc);
    for thread in 0..plan.threads() {
        let opened = ThreadState::new(alloc, valid, plan, thread, *profile)?;
        threads.push(opened)?;
    }
    Ok(threads)
}

/// The threads and the memory with which a world opens.
#[derive(Drop)]
pub struct OpeningParts<'a> {
    /// The threads of the plan, thread 0 first.
    pub threads: Vec<ThreadState<'a>>,
    pub space: SharedSpace,
}

/// What the world of a module and a plan has before the first step: each thread of the plan at its function
/// (WebAssembly Core 1.0, instantiation and invocation), and the memory with its segments written. The plan is one of
/// the module, whose runs can be of the profile.
pub fn open_parts<'a>(
    alloc: Global,
    valid: &'a Valid,
    plan: &Plan,
    profile: Profile,
) -> Result<OpeningParts<'a>, NoMemory>
    requires plan { IsPlanOf valid.now plan.now }
    requires fits { fits_profile valid.now profile ≡ true }
    ensures world { IfOk result (λ parts. opening_world_of valid.now plan.now profile ≡ Some (opening_world thread_of parts.space.blocks.limits (shared_values parts.space.blocks parts.space.queues) parts.threads.items)) }
    ensures few { IfOk result (λ parts. length parts.threads.items ≤ MOST_THREADS) }
    ensures fresh { IfOk result (λ parts. AllFresh thread_code thread_of parts.space.blocks.limits parts.threads.items) }
{
    let module = valid.module();
    let limits = memory_limits(module, profile);
    let block = limits.block;
    // A fact for the prover: blocks have at most 4,096 bytes.
    let _power = block.power();
    let space = SharedSpace::new(alloc, limits, module.data.as_slice())?;
    let threads = open_threads(alloc, valid, plan, &profile)?;
    Ok(OpeningParts { threads, space })
}

/// The world of a module and a plan before the first step: the threads and the memory of `open_parts`, and no object
/// read or written yet.
pub fn open_world<'a>(
    alloc: Global,
    valid: &'a Valid,
    plan: &Plan,
    profile: Profile,
) -> Result<World<ThreadState<'a>, SharedSpace>, NoMemory>
    requires plan { IsPlanOf valid.now plan.now }
    requires fits { fits_profile valid.now profile ≡ true }
    ensures world { IfOk result (λ world. opening_world_of valid.now plan.now profile ≡ Some (world_of world)) }
    ensures opening { IfOk result (λ world. IsOpeningWorld thread_code (world_of world)) }
{
    let parts = open_parts(alloc, valid, plan, profile)?;
    World::new(alloc, parts.threads, parts.space)
}
