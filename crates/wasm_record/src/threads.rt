//! Recording by threads.

ghost use Rattle.std.specs.Prelude.{◌≡◌, IfOk, min};
ghost use Rattle.wasm_types.specs.declared.sizes.TheConstants.{MOST_STEPS};
ghost use Rattle.thread_words.specs.ThreadCode.{thread_nanos};
ghost use Rattle.wasm_world.specs.Plans.{IsPlanOf};
ghost use Rattle.wasm_types.specs.declared.key.Profile.TheVariants.{Two};
ghost use Rattle.wasm_record.specs.Recordings.{IsKeyOf, RecordsThreads};

use crate::memory_recording::record_memory;
use crate::recording::Recording;
use crate::thread::striped_threads;
use shared_core::Hold;
use std::alloc::Global;
use std::sync::Wait;
use std::thread::Threads;
use wasm_types::{Block, MOST_STEPS, NoMemory, Profile, RunKey};
use wasm_world::{Plan, Valid, open_parts};
use workers::Timer;

/// Records a run of a module and a plan in profile 2 with blocks of that size, in which each thread of the plan is a
/// thread of the system, and all run at once. No thread makes more than `steps` steps, at most 1,000,000,000; a larger
/// number counts as that. What threads can still do when all have ended is done in rounds. A wait times out only where
/// the timer says so.
pub fn record_threads<T: Timer + Sync, H: Hold + Sync, R: Threads + Wait + Sync>(
    rt: &R,
    alloc: Global,
    valid: &Valid,
    plan: &Plan,
    run: u64,
    block: Block,
    steps: u32,
    timer: &T,
    hold: &H,
) -> Result<Recording, NoMemory>
    requires { IsPlanOf valid.now plan.now }
    ensures key { IfOk result (λ r. IsKeyOf valid.now plan.now run (Two block) r.key) }
    ensures records { IfOk result (λ r. RecordsThreads valid.now plan.now (Two block) (λ t s. T.can_expire t (thread_nanos s)) (min steps MOST_STEPS) r.recorded) }
{
    let source = valid.module().source.as_slice();
    let key = RunKey::of(source, plan.bytes(), run, Profile::Two(block));
    let parts = open_parts(alloc, valid, plan, Profile::Two(block))?;
    let machines = striped_threads(alloc, parts.threads)?;
    let most = steps.min(MOST_STEPS);
    let recorded = record_memory(rt, alloc, parts.space, machines, most, timer, hold)?;
    Ok(Recording { key, recorded })
}
