//! The end of a replay whose world others brought forward.

ghost use Rattle.std.specs.Prelude.{◌≡◌, ◌⊎◌, [], IfOk, IfErr};
ghost use Rattle.event_core.specs.Opening.{IsOpeningWorld};
ghost use Rattle.event_core.specs.World.{WorldAt, world_of};
ghost use Rattle.replay_laws.specs.Finishing.{OrderedEnds};
ghost use Rattle.replay_gate.specs.declared.answers.ReplayFault.{ReplayFault};
ghost use Rattle.replay_gate.specs.Answers.{IsOrderedFault};
ghost use Rattle.replay_gate.specs.Finished.{IsReplayEnd, IsReplayFault};
ghost use Rattle.replay_gate.specs.Leads.{Leads};

use crate::ordered::run_ordered;
use crate::read_log::ReadLog;
use crate::refused::Refused;
use event_core::{Ended, World};
use rw_objects::{Machine, ObjectSpace};
use std::alloc::Global;

/// Finishes a replay: makes the turns that are left from its world on, in rounds of all threads, and answers the end to
/// which they come, or the fault at which they stop. Where some gated run from the log leads to the world, an end
/// vouches for the log, and is that of every run whose log the log is below, and a fault is that of a gated run; where
/// some gated run comes to the log's ends, only memory can be wanting.
pub fn finish<M: Machine<S> + Drop, S: ObjectSpace + Drop, L: ReadLog>(
    alloc: Global,
    world: World<M, S>,
    log: &L,
) -> Result<Ended, Refused<M, S>>
    ensures ordered { IfOk result (λ ended. OrderedEnds S.meaning M.code (L.log log.now) (world_of world) [] ended) }
    ensures ordered_fault { IfErr result (λ r. (r.fault ≡ ReplayFault.NoMemory) ⊎ IsOrderedFault S.meaning M.code (L.log log.now) (world_of world) [] r.fault) }
    ensures ended { IfOk result (λ ended. (w : WorldAt M.State S.Value S.Fixed) → IsOpeningWorld M.code w → Leads S.meaning M.code (L.log log.now) w (world_of world) → IsReplayEnd S.meaning M.code (L.log log.now) w ended) }
    ensures refused { IfErr result (λ r. (w : WorldAt M.State S.Value S.Fixed) → Leads S.meaning M.code (L.log log.now) w (world_of world) → IsReplayFault S.meaning M.code (L.log log.now) w r.fault) }
{
    let mut world = world;
    match run_ordered(alloc, &mut world, log, &[]) {
        Err(fault) => Err(Refused {
            fault,
            world: Some(world),
        }),
        Ok(()) => match world.end(alloc) {
            Err(_) => Err(Refused::no_memory()),
            Ok(ended) => Ok(ended),
        },
    }
}
