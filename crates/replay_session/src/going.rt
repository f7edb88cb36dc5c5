//! Going a way again.

ghost use Rattle.std.specs.Prelude.{◌≡◌, ◌≤◌, IfOk, OnOk};
ghost use Rattle.event_core.specs.World.{WorldAt, world_of};
ghost use Rattle.replay_session.specs.Kept.{PartLeads};
ghost use Rattle.replay_session.specs.Legs.{leg_with};
ghost use Rattle.replay_session.specs.Ways.{LegLeads, WayLeads};

use crate::gone::Ceased;
use crate::legs::Leg;
use crate::rounds::{go_rounds, go_whole_rounds};
use crate::threads::{go_thread, is_want_of_memory};
use replay_gate::{OpenWorld, ReadLog, Replay};
use rw_objects::{Machine, ObjectSpace};
use std::alloc::Global;
use wasm_types::NoMemory;

/// Goes a leg that leads somewhere.
fn go_leg<M: Machine<S> + Drop, S: ObjectSpace, L: ReadLog, O: OpenWorld<M, S>>(
    alloc: Global,
    replay: &mut Replay<M, S, L, O>,
    leg: Leg,
) -> Result<(), NoMemory>
    requires { ∥ ((v : WorldAt M.State S.Value S.Fixed) × LegLeads S.meaning M.code (L.log replay.old.log) leg (world_of replay.old.world) v) ∥₁ }
    ensures log { replay.new.log ≡ replay.old.log }
    ensures opens { replay.new.opens ≡ replay.old.opens }
    ensures leads { OnOk result (LegLeads S.meaning M.code (L.log replay.old.log) leg (world_of replay.old.world) (world_of replay.new.world)) }
{
    match leg {
        Leg::Thread { thread, steps } => {
            let gone = go_thread(alloc, replay, thread, steps);
            match gone.ceased {
                Ceased::All => Ok(()),
                Ceased::Done => unreachable!(),
                Ceased::Fault(fault) => {
                    if is_want_of_memory(fault) {
                        Err(NoMemory)
                    } else {
                        unreachable!()
                    }
                }
            }
        }
        Leg::Rounds { steps } => {
            let made = go_rounds(alloc, replay, steps)?;
            if made { Ok(()) } else { unreachable!() }
        }
    }
}

/// Goes on by at most so many steps of a leg, by whole rounds where it is of rounds, and answers how many it made.
pub(crate) fn go_part<M: Machine<S> + Drop, S: ObjectSpace, L: ReadLog, O: OpenWorld<M, S>>(
    alloc: Global,
    replay: &mut Replay<M, S, L, O>,
    leg: Leg,
    most: u64,
) -> Result<u64, NoMemory>
    ensures log { replay.new.log ≡ replay.old.log }
    ensures opens { replay.new.opens ≡ replay.old.opens }
    ensures few { IfOk result (λ made. made ≤ most) }
    ensures part { IfOk result (λ made. PartLeads S.meaning M.code (L.log replay.old.log) (leg_with leg made) (world_of replay.old.world) (world_of replay.new.world)) }
{
    match leg {
        Leg::Thread { thread, steps: _ } => Ok(go_thread(alloc, replay, thread, most).steps),
        Leg::Rounds { steps: _ } => go_whole_rounds(alloc, replay, most),
    }
}

/// Goes a way that leads somewhere.
pub(crate) fn go_way<M: Machine<S> + Drop, S: ObjectSpace, L: ReadLog, O: OpenWorld<M, S>>(
    alloc: Global,
    replay: &mut Replay<M, S, L, O>,
    legs: &[Leg],
) -> Result<(), NoMemory>
    requires { ∥ ((v : WorldAt M.State S.Value S.Fixed) × WayLeads S.meaning M.code (L.log replay.old.log) legs.now (world_of replay.old.world) v) ∥₁ }
    ensures log { replay.new.log ≡ replay.old.log }
    ensures opens { replay.new.opens ≡ replay.old.opens }
    ensures leads { OnOk result (WayLeads S.meaning M.code (L.log replay.old.log) legs.now (world_of replay.old.world) (world_of replay.new.world)) }
{
    for leg in legs {
        go_leg(alloc, replay, *leg)?;
    }
    Ok(())
}
