//! Replay of a log.

ghost use Rattle.std.specs.Prelude.{◌≡◌, ◌⊎◌, ℕ, List, IfOk, IfErr, IfSome};
ghost use Rattle.event_core.specs.World.{WorldAt, world_of};
ghost use Rattle.event_core.specs.Opening.{IsOpeningWorld};
ghost use Rattle.replay_laws.specs.Finishing.{OrderedEnds};
ghost use Rattle.replay_gate.specs.Answers.{IsOrderedFault, IsVouchedEnd, IsEndOfRuns, IsWantOfMemory};

use crate::answers::ReplayFault;
use crate::freely::run_freely;
use crate::ordered::run_ordered;
use crate::read_log::ReadLog;
use crate::refused::Refused;
use event_core::{Ended, World};
use rw_objects::{Machine, ObjectSpace};
use std::alloc::Global;
use wasm_types::NoMemory;

/// What opens a world, each time the same. `suits` says which values do: those whose parts belong together, such as a
/// module and a plan that was read for it.
pub trait OpenWorld<M: Machine<S>, S: ObjectSpace> {
    ghost opened: { Self → WorldAt M.State S.Value S.Fixed };

    ghost suits: { Self → Type 0 };

    /// The opening world.
    fn open(&self, alloc: Global) -> Result<World<M, S>, NoMemory>
        requires { suits self.now }
        ensures { IfOk result (λ world. world_of world ≡ opened self.now) };

    ghost opening: { (o : Self) → suits o → IsOpeningWorld M.code (opened o) };
}

/// Replays a log by whatever schedule is fast. Answers the end, if it comes to one: that of every order.
fn replay_freely<M: Machine<S> + Drop, S: ObjectSpace + Drop, L: ReadLog, O: OpenWorld<M, S>>(
    alloc: Global,
    opens: &O,
    log: &L,
) -> Result<Option<Ended>, NoMemory>
    requires { O.suits opens.now }
    ensures { IfOk result (λ o. IfSome o (λ ended. (order : List ℕ) → OrderedEnds S.meaning M.code (L.log log.now) (O.opened opens.now) order ended)) }
{
    let Ok(mut world) = opens.open(alloc) else {
        return Err(NoMemory);
    };
    match run_freely(alloc, &mut world, log) {
        Err(error) => Err(error),
        Ok(false) => Ok(None),
        Ok(true) => match world.end(alloc) {
            Err(error) => Err(error),
            Ok(ended) => Ok(Some(ended)),
        },
    }
}

/// Replays a log by an order alone, turn by turn.
fn replay_in_order<M: Machine<S> + Drop, S: ObjectSpace + Drop, L: ReadLog, O: OpenWorld<M, S>>(
    alloc: Global,
    opens: &O,
    log: &L,
    order: &[u32],
) -> Result<Ended, Refused<M, S>>
    requires { O.suits opens.now }
    ensures ended { IfOk result (λ ended. OrderedEnds S.meaning M.code (L.log log.now) (O.opened opens.now) order.now ended) }
    ensures refused { IfErr result (λ r. (r.fault ≡ ReplayFault.NoMemory) ⊎ IsOrderedFault S.meaning M.code (L.log log.now) (O.opened opens.now) order.now r.fault) }
{
    let Ok(mut world) = opens.open(alloc) else {
        return Err(Refused::no_memory());
    };
    match run_ordered(alloc, &mut world, log, order) {
        Err(fault) => Err(Refused {
            fault,
            world: Some(world),
        }),
        Ok(()) => match world.end(alloc) {
            Err(_) => Err(Refused::no_memory()),
            Ok(ended) => Ok(ended),
        },
    }
}

/// Replays a log: the end, or the fault, of its ordered replay. Where some schedule comes to the log's ends, every
/// order does, and so the end is reached by a fast one; only where that stops is the order followed, for its very
/// fault. An end vouches for the log: a run whose log is below it ends so, and its log is that run's where it is
/// complete. And it is the end of every run whose log it is below. Where some schedule comes to the ends, as on the
/// whole log of a run, only memory can be wanting.
pub fn replay<M: Machine<S> + Drop, S: ObjectSpace + Drop, L: ReadLog, O: OpenWorld<M, S>>(
    alloc: Global,
    opens: &O,
    log: &L,
    order: &[u32],
) -> Result<Ended, Refused<M, S>>
    requires { O.suits opens.now }
    ensures ended { IfOk result (λ ended. OrderedEnds S.meaning M.code (L.log log.now) (O.opened opens.now) order.now ended) }
    ensures vouches { IfOk result (IsVouchedEnd S.meaning M.code (L.log log.now) (O.opened opens.now)) }
    ensures recorded { IfOk result (IsEndOfRuns S.meaning M.code (L.log log.now) (O.opened opens.now)) }
    ensures refused { IfErr result (λ r. (r.fault ≡ ReplayFault.NoMemory) ⊎ IsOrderedFault S.meaning M.code (L.log log.now) (O.opened opens.now) order.now r.fault) }
    ensures finishes { IfErr result (λ r. IsWantOfMemory S.meaning M.code (L.log log.now) (O.opened opens.now) r.fault) }
{
    match replay_freely(alloc, opens, log) {
        Err(_) => Err(Refused::no_memory()),
        Ok(Some(ended)) => Ok(ended),
        Ok(None) => replay_in_order(alloc, opens, log, order),
    }
}
