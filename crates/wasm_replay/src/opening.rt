//! The opening of replays of gathered logs.

ghost use Rattle.std.specs.Prelude.{◌≡◌, ◌≤◌, OnOk, IfOk, IfErr};
ghost use Rattle.event_core.specs.World.{world_of};
ghost use Rattle.wasm_world.specs.Plans.{IsPlanOf};
ghost use Rattle.wasm_types.specs.Memories.{block_power};
ghost use Rattle.wasm_world.specs.Opening.{WasmWorld};
ghost use Rattle.wasm_replay.specs.Replays.{IsOfRun, IsOfNoRun, IsOpenerOf, IsNotOpened, Opens, HasWorld, is_of, opened_world};

use crate::gathered::Gathered;
use crate::opener::Opener;
use crate::replaying::WasmReplayFault;
use replay_gate::{Replay, ReplayFault};
use replica::Log;
use std::alloc::Global;
use wasm_types::{Profile, RunKey};
use wasm_world::{Plan, SharedSpace, ThreadState, Valid};

/// A replay of a WebAssembly run that is made turn by turn.
pub type WasmReplay<'a> = Replay<ThreadState<'a>, SharedSpace, Gathered<'a>, Opener<'a>>;

/// Whether a log is of a run of this module and plan.
fn is_of(valid: &Valid, plan: &Plan, key: &RunKey) -> bool
    ensures { result ≡ is_of valid.now plan.now key.now }
{
    let own = RunKey::of(
        valid.module().source.as_slice(),
        plan.bytes(),
        key.run,
        key.profile,
    );
    own.digest == key.digest
}

// A fact for the prover: the blocks of a profile have at most 4,096 bytes. It does nothing.
fn has_small_blocks(profile: &Profile)
    ensures { block_power profile.now ≤ 12 }
{
    if let Profile::Two(block) = profile {
        let _power = block.power();
    }
}

/// What opens the world of a log's runs, if they can be runs of this module and plan.
pub fn opener_of<'a>(
    valid: &'a Valid,
    plan: &'a Plan,
    log: &Log,
) -> Result<Opener<'a>, WasmReplayFault>
    requires { IsPlanOf valid.now plan.now }
    ensures of_run { OnOk result (IsOfRun valid.now plan.now log.now) }
    ensures opener { IfOk result (IsOpenerOf valid.now plan.now log.now) }
    ensures has_world { HasWorld valid.now plan.now log.now }
    ensures refused { IfErr result (IsOfNoRun valid.now plan.now log.now) }
{
    // A fact for the prover: the module is well typed.
    let _typed = valid.module();
    let key = log.key();
    let profile = key.profile;
    if !is_of(valid, plan, key) {
        return Err(WasmReplayFault::OtherRun);
    }
    if !valid.fits(&profile) {
        return Err(WasmReplayFault::OldProfile);
    }
    has_small_blocks(&profile);
    Ok(Opener {
        valid,
        plan,
        profile,
    })
}

/// The replay of a log that was gathered, before its first turn.
pub fn open_replay<'a>(
    alloc: Global,
    valid: &'a Valid,
    plan: &'a Plan,
    log: &'a Log,
) -> Result<WasmReplay<'a>, WasmReplayFault>
    requires { IsPlanOf valid.now plan.now }
    ensures of_run { OnOk result (IsOfRun valid.now plan.now log.now) }
    ensures log { IfOk result (λ replay. replay.log.log.now ≡ log.now) }
    ensures opens { IfOk result (λ replay. IsOpenerOf valid.now plan.now log.now replay.opens) }
    ensures has_world { HasWorld valid.now plan.now log.now }
    ensures world { IfOk result (λ replay. (w : WasmWorld) → Opens valid.now plan.now log.now w → world_of replay.world ≡ w) }
    ensures refused { IfErr result (IsNotOpened valid.now plan.now log.now) }
{
    let opener = match opener_of(valid, plan, log) {
        Ok(opener) => opener,
        Err(fault) => return Err(fault),
    };
    match Replay::new(alloc, opener, Gathered { log }) {
        Ok(replay) => Ok(replay),
        Err(_) => Err(WasmReplayFault::Replay(ReplayFault::NoMemory)),
    }
}
