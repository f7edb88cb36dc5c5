//! Rounds of a replay in which threads make local steps alone, many at a time.

ghost use Rattle.std.specs.Prelude.{◌≡◌, ◌<◌, ◌≤◌, IfOk, IfErr};
ghost use Rattle.event_core.specs.World.{world_of};
ghost use Rattle.replay_laws.specs.declared.turn.Turn.TheVariants as turn;
ghost use Rattle.replay_laws.specs.Turns.{turn_of};
ghost use Rattle.replay_gate.specs.Leads.{Leads};
ghost use Rattle.replay_gate.specs.LocalRounds.{IsAhead, AreAhead, AreLocalRounds, RoundsLead};

use crate::read_log::ReadLog;
use crate::turn::turn_of;
use event_core::World;
use log_pieces::Flat;
use replay_laws::{Refusal, Turn};
use rw_objects::{Machine, ObjectSpace};
use std::alloc::Global;

/// What rounds of local steps make of a thread.
#[derive(Drop)]
pub enum Ahead<M> {
    /// Nothing: its turns make no step.
    Rests,
    /// It goes on to the state of this machine.
    Goes(M),
}

/// That a thread can make no more than so many of the rounds by local steps.
#[derive(Clone, Copy, Debug, PartialEq, Eq)]
pub struct Fewer(pub u32);

/// Where a thread stands behind so many local steps.
fn local_steps_ahead<M: Machine<S> + Drop, S: ObjectSpace, L: ReadLog>(
    alloc: Global,
    world: &World<M, S>,
    log: &L,
    thread: u32,
    rounds: u32,
) -> Result<Ahead<M>, Fewer>
    requires { 0 < rounds }
    ensures ahead { IfOk result (λ ahead. IsAhead S.meaning M.code M.state (L.log log.now) rounds (world_of world.now) thread ahead) }
    ensures fewer { IfErr result (λ fewer. fewer.0 < rounds) }
{
    let Some(Flat::Known(end)) = log.end(thread) else {
        return Err(Fewer(0));
    };
    let Some(steps) = world.steps(thread) else {
        return Err(Fewer(0));
    };
    let left = end.steps.saturating_sub(steps);
    if left < rounds {
        return Err(Fewer(left));
    }
    let Ok(Some(mut machine)) = world.copied_machine(alloc, thread) else {
        return Err(Fewer(0));
    };
    match machine.local_run(rounds) {
        Err(_) => Err(Fewer(0)),
        Ok(made) => {
            if made < rounds {
                Err(Fewer(made))
            } else {
                Ok(Ahead::Goes(machine))
            }
        }
    }
}

/// Where a thread stands behind so many rounds. Where memory is wanted to tell, it counts as none.
fn thread_ahead<M: Machine<S> + Drop, S: ObjectSpace, L: ReadLog>(
    alloc: Global,
    world: &World<M, S>,
    log: &L,
    thread: u32,
    rounds: u32,
) -> Result<Ahead<M>, Fewer>
    requires { 0 < rounds }
    ensures ahead { IfOk result (λ ahead. IsAhead S.meaning M.code M.state (L.log log.now) rounds (world_of world.now) thread ahead) }
    ensures fewer { IfErr result (λ fewer. fewer.0 < rounds) }
{
    match turn_of(alloc, world, log, thread) {
        Turn::Local => local_steps_ahead(alloc, world, log, thread, rounds),
        Turn::Event(_) | Turn::Refused(Refusal::Diverged) => Err(Fewer(0)),
        Turn::Done | Turn::Refused(Refusal::Missing | Refusal::Clash | Refusal::Shut) => {
            Ok(Ahead::Rests)
        }
    }
}

/// Where each thread stands behind so many rounds.
fn threads_ahead<M: Machine<S> + Drop, S: ObjectSpace, L: ReadLog>(
    alloc: Global,
    world: &World<M, S>,
    log: &L,
    rounds: u32,
) -> Result<Vec<Ahead<M>>, Fewer>
    requires { 0 < rounds }
    ensures ahead { IfOk result (λ aheads. AreAhead S.meaning M.code M.state (L.log log.now) rounds (world_of world.now) aheads.items) }
    ensures fewer { IfErr result (λ fewer. fewer.0 < rounds) }
{
    let mut aheads = Vec::new(alloc);
    for thread in 0..world.count() {
        match thread_ahead(alloc, world, log, thread as u32, rounds) {
            Err(fewer) => return Err(fewer),
            Ok(ahead) => {
                let Ok(()) = aheads.push(ahead) else {
                    return Err(Fewer(0));
                };
            }
        }
    }
    Ok(aheads)
}

/// Puts each thread where it stands behind so many rounds of the log.
fn put<M: Machine<S> + Drop, S: ObjectSpace, L: ReadLog>(
    world: &mut World<M, S>,
    log: &L,
    rounds: u32,
    aheads: Vec<Ahead<M>>,
)
    requires { AreAhead S.meaning M.code M.state (L.log log.now) rounds (world_of world.old) aheads.items }
    ensures rounds { AreLocalRounds S.meaning M.code (L.log log.now) rounds (world_of world.old) (world_of world.new) }
    ensures leads { Leads S.meaning M.code (L.log log.now) (world_of world.old) (world_of world.new) }
{
    let mut thread: u32 = 0;
    for ahead in aheads {
        if let Ahead::Goes(machine) = ahead {
            world.go_on_as(thread, machine);
        }
        thread += 1;
    }
}

/// Makes rounds of turns of all threads, up to `most`, in which each thread makes a local step or none, and answers how
/// many. It looks so far ahead in copies of the threads, and tries fewer where one can't make as many. None are made
/// where memory is wanted.
pub(crate) fn make_local_rounds<M: Machine<S> + Drop, S: ObjectSpace, L: ReadLog>(
    alloc: Global,
    world: &mut World<M, S>,
    log: &L,
    most: u32,
) -> u32
    ensures few { result ≤ most }
    ensures rounds { RoundsLead S.meaning M.code (L.log log.now) result (world_of world.old) (world_of world.new) }
    ensures leads { Leads S.meaning M.code (L.log log.now) (world_of world.old) (world_of world.new) }
{
    let mut rounds = most;
    while rounds > 0 {
        match threads_ahead(alloc, world, log, rounds) {
            Err(fewer) => rounds = fewer.0,
            Ok(aheads) => {
                put(world, log, rounds, aheads);
                return rounds;
            }
        }
    }
    0
}
