//! Replay of a gathered log by threads.

ghost use Rattle.std.specs.Prelude.{◌≡◌, ◌≤◌, ℕ, List, true, Some, OnOk, IfOk, IfErr, length};
ghost use Rattle.wasm_types.specs.declared.sizes.TheConstants.{MOST_THREADS};
ghost use Rattle.block_objects.specs.SharedMemory.{shared_memory};
ghost use Rattle.event_core.specs.Opening.{AllFresh, opening_world};
ghost use Rattle.wasm_world.specs.Sound.{thread_of};
ghost use Rattle.replay_gate.specs.Finished.{IsReplayEnd, IsReplayFault};
ghost use Rattle.thread_words.specs.ThreadCode.{thread_code};
ghost use Rattle.wasm_world.specs.Plans.{IsPlanOf};
ghost use Rattle.threaded_replay.specs.Threaded.{IsThreadsEnd, IsThreadsRefusal};
ghost use Rattle.wasm_world.specs.Valid.{fits_profile};
ghost use Rattle.wasm_world.specs.Shared.{shared_values};
ghost use Rattle.wasm_replay.specs.Replays.{EndsAsRecorded, HasWorld, IsOfRun, IsOrderedAnswer, gathered_log};
ghost use Rattle.wasm_world.specs.Opening.{WasmWorld, opening_world_of};

use crate::memory_replay::replay_memory;
use event_core::Ended;
use replay_gate::Refused;
use replica::Log;
use shared_core::Hold;
use std::alloc::Global;
use std::sync::Wait;
use std::thread::Threads;
use striped_memory::StripedMemory;
use wasm_record::{StripedThread, striped_threads};
use wasm_replay::{Gathered, Standing, Unreplayed, WasmReplayFault, opener_of};
use wasm_types::{NoMemory, Profile};
use wasm_world::{Plan, SharedSpace, Valid, open_parts};

/// What a replay by threads begins with: the threads of a plan before their first steps, over the memory of their
/// module.
#[derive(Drop)]
struct Beginning<'a> {
    threads: Vec<StripedThread<'a>>,
    space: SharedSpace,
}

/// What the world of a module and a plan begins with, for threads that share its memory.
fn begin<'a>(
    alloc: Global,
    valid: &'a Valid,
    plan: &Plan,
    profile: Profile,
) -> Result<Beginning<'a>, NoMemory>
    requires plan { IsPlanOf valid.now plan.now }
    requires fits { fits_profile valid.now profile ≡ true }
    ensures world { IfOk result (λ b. opening_world_of valid.now plan.now profile ≡ Some (opening_world thread_of b.space.blocks.limits (shared_values b.space.blocks b.space.queues) b.threads.items)) }
    ensures few { IfOk result (λ b. length b.threads.items ≤ MOST_THREADS) }
    ensures fresh { IfOk result (λ b. AllFresh thread_code thread_of b.space.blocks.limits b.threads.items) }
{
    let parts = open_parts(alloc, valid, plan, profile)?;
    let threads = striped_threads(alloc, parts.threads)?;
    Ok(Beginning {
        threads,
        space: parts.space,
    })
}

/// Replays a log from the opening world of a module and a plan in a profile, each thread of the plan in a thread of the
/// system.
fn replay_in<'a, H: Hold + Sync, R: Threads + Wait + Sync>(
    rt: &R,
    alloc: Global,
    valid: &'a Valid,
    plan: &Plan,
    profile: Profile,
    log: &Log,
    hold: &H,
) -> Result<Ended, Refused<StripedThread<'a>, StripedMemory>>
    requires plan { IsPlanOf valid.now plan.now }
    requires fits { fits_profile valid.now profile ≡ true }
    ensures ended { IfOk result (λ end. (w : WasmWorld) → opening_world_of valid.now plan.now profile ≡ Some w → IsReplayEnd shared_memory thread_code (gathered_log log.now) w end) }
    ensures refused { IfErr result (λ r. (w : WasmWorld) → opening_world_of valid.now plan.now profile ≡ Some w → IsReplayFault shared_memory thread_code (gathered_log log.now) w r.fault) }
{
    let Beginning { threads, space } = match begin(alloc, valid, plan, profile) {
        Ok(beginning) => beginning,
        Err(NoMemory) => return Err(Refused::no_memory()),
    };
    replay_memory(rt, alloc, space, threads, &Gathered::new(log), hold)
}

/// Replays a log that was gathered, from the opening world of its module and plan: each thread of the plan in a thread
/// of the system, all at once, each up to where its log goes; the turns that are left are made in rounds.
///
/// An end that is answered is that of the ordered replay in every order, and so that of every run of the module and
/// plan whose log this log is below, and vouches that there is one. A fault is that of some gated run from the log,
/// which may be another one than the ordered replay's; where one of these comes to the log's ends, no refusal but want
/// of memory comes.
pub fn replay_threads<H: Hold + Sync, R: Threads + Wait + Sync>(
    rt: &R,
    alloc: Global,
    valid: &Valid,
    plan: &Plan,
    log: &Log,
    hold: &H,
) -> Result<Ended, Unreplayed>
    requires { IsPlanOf valid.now plan.now }
    ensures of_run { OnOk result (IsOfRun valid.now plan.now log.now) }
    // There is a world from which the runs of the log begin; of it speak the clauses below.
    ensures has_world { HasWorld valid.now plan.now log.now }
    ensures ended { IfOk result (IsThreadsEnd valid.now plan.now log.now) }
    ensures ordered { IfOk result (λ end. (order : List ℕ) → IsOrderedAnswer valid.now plan.now log.now order end) }
    ensures recorded { IfOk result (EndsAsRecorded valid.now plan.now log.now) }
    ensures refused { IfErr result (λ u. IsThreadsRefusal valid.now plan.now log.now u.fault) }
{
    let profile = match opener_of(valid, plan, log) {
        Ok(opener) => opener.profile(),
        Err(fault) => {
            let standing = Standing::unopened(valid, plan, log, fault);
            return Err(Unreplayed { fault, standing });
        }
    };
    match replay_in(rt, alloc, valid, plan, profile, log, hold) {
        Ok(ended) => Ok(ended),
        Err(refused) => Err(Unreplayed {
            fault: WasmReplayFault::Replay(refused.fault),
            standing: Standing::of(alloc, log, refused.fault, refused.world.as_ref()),
        }),
    }
}
