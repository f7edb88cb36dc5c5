//! Replay by whatever schedule is fast.

ghost use Rattle.std.specs.Prelude.{◌≡◌, true, false, Some, IfOk, OnOk, OnErr};
ghost use Rattle.event_core.specs.World.{world_of};
ghost use Rattle.log_pieces.specs.declared.flat.Flat.TheVariants.{Known};
ghost use Rattle.replay_laws.specs.Gates.{IsFinished};
ghost use Rattle.replay_gate.specs.Leads.{Leads, IsAtEnd};

use crate::following::Following;
use crate::read_log::ReadLog;
use event_core::World;
use log_pieces::{End, Flat};
use rw_objects::{Machine, ObjectSpace};
use std::alloc::Global;
use wasm_types::{MOST_STEPS, NoMemory};

/// Makes the steps that come next for a thread as far as its logged end, local ones and the accesses that are logged,
/// and the event behind them, where the log lets it pass. Answers whether it made a step.
fn advance<M: Machine<S>, S: ObjectSpace, L: ReadLog>(
    alloc: Global,
    world: &mut World<M, S>,
    following: &mut Following<'_, L>,
    thread: u32,
    end: End,
) -> Result<bool, NoMemory>
    requires { (L.log following.old.log).end thread ≡ Some (Known end) }
    ensures log { following.new.log ≡ following.old.log }
    ensures ok { OnOk result (Leads S.meaning M.code (L.log following.old.log) (world_of world.old) (world_of world.new)) }
    ensures err { OnErr result (Leads S.meaning M.code (L.log following.old.log) (world_of world.old) (world_of world.new)) }
{
    let Some(steps) = world.steps(thread) else {
        return Ok(false);
    };
    let Some(place) = world.places(thread) else {
        return Ok(false);
    };
    if steps >= end.steps {
        return Ok(false);
    }
    following.go_to(thread, place, end.places);
    let (ran, went) = world.run(thread, following, end.steps - steps);
    match went {
        Err(error) => Err(error),
        Ok(()) => match following.pass_event(alloc, world, thread, end) {
            Ok(passed) => Ok(passed || ran > 0),
            Err(error) => Err(error),
        },
    }
}

/// Makes steps of a thread for as long as the log lets them pass. Answers whether it made one.
fn run_thread<M: Machine<S>, S: ObjectSpace, L: ReadLog>(
    alloc: Global,
    world: &mut World<M, S>,
    following: &mut Following<'_, L>,
    thread: u32,
) -> Result<bool, NoMemory>
    ensures log { following.new.log ≡ following.old.log }
    ensures ok { OnOk result (Leads S.meaning M.code (L.log following.old.log) (world_of world.old) (world_of world.new)) }
    ensures err { OnErr result (Leads S.meaning M.code (L.log following.old.log) (world_of world.old) (world_of world.new)) }
{
    let Some(Flat::Known(end)) = following.end(thread) else {
        return Ok(false);
    };
    for times in 0..MOST_STEPS {
        match advance(alloc, world, following, thread, end) {
            Ok(true) => {}
            Ok(false) => return Ok(times > 0),
            Err(error) => return Err(error),
        }
    }
    Ok(true)
}

/// Runs each thread in turn. Answers whether one made a step.
fn round<M: Machine<S>, S: ObjectSpace, L: ReadLog>(
    alloc: Global,
    world: &mut World<M, S>,
    following: &mut Following<'_, L>,
) -> Result<bool, NoMemory>
    ensures log { following.new.log ≡ following.old.log }
    ensures ok { OnOk result (Leads S.meaning M.code (L.log following.old.log) (world_of world.old) (world_of world.new)) }
    ensures err { OnErr result (Leads S.meaning M.code (L.log following.old.log) (world_of world.old) (world_of world.new)) }
{
    let mut made = false;
    for thread in 0..16u32 {
        match run_thread(alloc, world, following, thread) {
            Ok(one) => made = made || one,
            Err(error) => return Err(error),
        }
    }
    Ok(made)
}

/// Whether a thread stands at its logged end; so does one that is not there.
fn stands_at_end<M: Machine<S>, S: ObjectSpace, L: ReadLog>(
    world: &World<M, S>,
    log: &L,
    thread: u32,
) -> bool
    ensures at { result ≡ true → IsAtEnd M.code (L.log log.now) (world_of world.now) thread }
    ensures not { result ≡ false → IsAtEnd M.code (L.log log.now) (world_of world.now) thread → ⊥ }
{
    let Some(steps) = world.steps(thread) else {
        return true;
    };
    let Some(places) = world.places(thread) else {
        return true;
    };
    let Some(outcome) = world.outcome(thread) else {
        return true;
    };
    match log.end(thread) {
        Some(Flat::Known(end)) => {
            end == End {
                steps,
                places,
                outcome,
            }
        }
        _ => false,
    }
}

/// Whether every thread stands at its logged end.
pub(crate) fn is_finished<M: Machine<S>, S: ObjectSpace, L: ReadLog>(
    world: &World<M, S>,
    log: &L,
) -> bool
    ensures all { result ≡ true → IsFinished M.code (L.log log.now) (world_of world.now) }
    ensures some { result ≡ false → IsFinished M.code (L.log log.now) (world_of world.now) → ⊥ }
{
    for thread in 0..16u32 {
        if !stands_at_end(world, log, thread) {
            return false;
        }
    }
    true
}

/// Makes steps that the log lets pass, as many as come: each thread for as long as its steps do, then the next, until
/// none makes one. Answers whether every thread then stands at its logged end. Where memory is wanted, the steps before
/// are made. One reader goes forward through the log, so that no event is searched for.
pub fn run_freely<M: Machine<S>, S: ObjectSpace, L: ReadLog>(
    alloc: Global,
    world: &mut World<M, S>,
    log: &L,
) -> Result<bool, NoMemory>
    ensures ok { OnOk result (Leads S.meaning M.code (L.log log.now) (world_of world.old) (world_of world.new)) }
    ensures err { OnErr result (Leads S.meaning M.code (L.log log.now) (world_of world.old) (world_of world.new)) }
    ensures finished { IfOk result (λ all. all ≡ true → IsFinished M.code (L.log log.now) (world_of world.new)) }
{
    let mut following = Following::new(log);
    for _ in 0..u64::MAX {
        match round(alloc, world, &mut following) {
            Ok(true) => {}
            Ok(false) => return Ok(is_finished(world, log)),
            Err(error) => return Err(error),
        }
    }
    Ok(false)
}
