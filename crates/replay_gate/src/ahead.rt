//! Rounds of local steps, made many at a time where no break can hold behind them.

ghost use Rattle.std.specs.Prelude.{◌≡◌, ◌≤◌, length};
ghost use Rattle.event_core.specs.World.{world_of};
ghost use Rattle.replay_gate.specs.LocalRounds.{RoundsLead};
ghost use Rattle.replay_gate.specs.Clear.{IsClear, AreClear};
ghost use Rattle.replay_gate.specs.Free.{AreFree};
ghost use Rattle.replay_gate.specs.Known.{IsLone, AreKnown, GoesAhead};

use crate::breaks::Break;
use crate::known::{Known, KnownTurns, lone};
use crate::pace::Pace;
use crate::{OpenWorld, ReadLog, Replay};
use event_core::World;
use rw_objects::{Machine, ObjectSpace};
use std::alloc::Global;

/// How many rounds, up to so many, can be made before this break may hold behind a local step.
fn clear_of<M: Machine<S>, S: ObjectSpace>(one: Break, world: &World<M, S>, most: u32) -> u32
    ensures few { result ≤ most }
    ensures clear { IsClear M.code (world_of world.now) result one }
{
    match one {
        Break::Step { thread, steps } => match world.steps(thread) {
            Some(made) => {
                if made < steps {
                    most.min(steps - made - 1)
                } else {
                    most
                }
            }
            None => most,
        },
        Break::Place { .. } | Break::Write(_) => most,
    }
}

/// How many rounds, up to so many, can be made before one of these breaks may hold behind a local step.
fn clear_of_all<M: Machine<S>, S: ObjectSpace>(
    breaks: &[Break],
    world: &World<M, S>,
    most: u32,
) -> u32
    ensures few { result ≤ most }
    ensures clear { AreClear M.code (world_of world.now) result breaks.now }
{
    let mut clear = most;
    for one in breaks {
        clear = clear_of(*one, world, clear);
    }
    clear
}

/// Makes rounds of local steps, up to so many, where no break holds behind them. Answers how many. Where there are
/// some, no step is known to be free behind them, and nothing of any thread.
fn go_together<M: Machine<S> + Drop, S: ObjectSpace, L: ReadLog, O: OpenWorld<M, S>>(
    alloc: Global,
    replay: &mut Replay<M, S, L, O>,
    breaks: &[Break],
    most: u32,
    turns: &mut KnownTurns,
) -> u32
    requires free { AreFree M.code (L.log replay.old.log) (world_of replay.old.world) breaks.now turns.old.free }
    requires known { AreKnown S.meaning M.code (L.log replay.old.log) (world_of replay.old.world) turns.old.all }
    ensures log { replay.new.log ≡ replay.old.log }
    ensures opens { replay.new.opens ≡ replay.old.opens }
    ensures rounds { RoundsLead S.meaning M.code (L.log replay.old.log) result (world_of replay.old.world) (world_of replay.new.world) }
    ensures clear { AreClear M.code (world_of replay.old.world) result breaks.now }
    ensures free { AreFree M.code (L.log replay.old.log) (world_of replay.new.world) breaks.now turns.new.free }
    ensures known { AreKnown S.meaning M.code (L.log replay.old.log) (world_of replay.new.world) turns.new.all }
{
    if most == 0 {
        return 0;
    }
    let clear = clear_of_all(breaks, replay.world(), most);
    let made = replay.local_rounds(alloc, clear);
    if made > 0 {
        *turns = KnownTurns::none();
    }
    made
}

/// Makes rounds in which one thread makes a local step and all others rest, as many as come before a break may hold.
fn go_alone<M: Machine<S>, S: ObjectSpace, L: ReadLog, O: OpenWorld<M, S>>(
    replay: &mut Replay<M, S, L, O>,
    breaks: &[Break],
    thread: u32,
    free: &mut [u32; 16],
    all: &[Known; 16],
)
    requires free { AreFree M.code (L.log replay.old.log) (world_of replay.old.world) breaks.now free.old }
    requires known { AreKnown S.meaning M.code (L.log replay.old.log) (world_of replay.old.world) all.now }
    requires lone { IsLone all.now (length (world_of replay.old.world).threads) thread }
    ensures log { replay.new.log ≡ replay.old.log }
    ensures opens { replay.new.opens ≡ replay.old.opens }
    ensures ahead { GoesAhead S.meaning M.code (L.log replay.old.log) (world_of replay.old.world) (world_of replay.new.world) breaks.now }
    ensures free { AreFree M.code (L.log replay.old.log) (world_of replay.new.world) breaks.now free.new }
    ensures known { AreKnown S.meaning M.code (L.log replay.old.log) (world_of replay.new.world) all.now }
{
    let at = thread as usize;
    let left = free[at];
    if left > 0 {
        let clear = clear_of_all(breaks, replay.world(), left);
        let made = replay.local_steps(thread, clear);
        free[at] = left - made;
    }
}

/// Makes rounds of local steps where no break holds behind them: as many as come of one thread, where all others are
/// known to rest; else of all threads, as the pace says. Answers the pace behind them.
#[inline(never)]
pub(crate) fn go_ahead<M: Machine<S> + Drop, S: ObjectSpace, L: ReadLog, O: OpenWorld<M, S>>(
    alloc: Global,
    replay: &mut Replay<M, S, L, O>,
    breaks: &[Break],
    pace: Pace,
    turns: &mut KnownTurns,
) -> Pace
    requires free { AreFree M.code (L.log replay.old.log) (world_of replay.old.world) breaks.now turns.old.free }
    requires known { AreKnown S.meaning M.code (L.log replay.old.log) (world_of replay.old.world) turns.old.all }
    ensures log { replay.new.log ≡ replay.old.log }
    ensures opens { replay.new.opens ≡ replay.old.opens }
    ensures ahead { GoesAhead S.meaning M.code (L.log replay.old.log) (world_of replay.old.world) (world_of replay.new.world) breaks.now }
    ensures free { AreFree M.code (L.log replay.old.log) (world_of replay.new.world) breaks.now turns.new.free }
    ensures known { AreKnown S.meaning M.code (L.log replay.old.log) (world_of replay.new.world) turns.new.all }
{
    match lone(&turns.all, replay.world().count() as u32) {
        Some(thread) => {
            go_alone(replay, breaks, thread, &mut turns.free, &turns.all);
            pace
        }
        None => pace.behind(go_together(alloc, replay, breaks, pace.tries(), turns)),
    }
}
