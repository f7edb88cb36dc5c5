//! Turns of all threads in rounds.

ghost use Rattle.std.specs.Prelude.{◌≡◌, ◌≤◌, ◌<◌, IfOk, true, false, length};
ghost use Rattle.event_core.specs.World.{world_of};
ghost use Rattle.replay_session.specs.Gone.{TurnPasses};
ghost use Rattle.replay_session.specs.Ways.{TurnsLead};
ghost use Rattle.replay_session.specs.Rounds.{RoundsGo, AllRest, RunsDry};

use crate::gone::Ceased;
use crate::sums::steps_of_world;
use crate::threads::{is_want_of_memory, least, turn_once};
use replay_gate::{OpenWorld, Pace, ReadLog, Replay};
use rw_objects::{Machine, ObjectSpace};
use std::alloc::Global;
use wasm_types::NoMemory;

/// A turn of a thread, which passes the thread over where the turn is refused. Answers how many steps it made.
fn pass_turn<M: Machine<S>, S: ObjectSpace, L: ReadLog, O: OpenWorld<M, S>>(
    alloc: Global,
    replay: &mut Replay<M, S, L, O>,
    reader: &mut L::Reader,
    thread: u32,
) -> Result<u64, NoMemory>
    requires { L.reads replay.old.log reader.old }
    ensures reads { L.reads replay.new.log reader.new }
    ensures log { replay.new.log ≡ replay.old.log }
    ensures opens { replay.new.opens ≡ replay.old.opens }
    ensures passes { IfOk result (TurnPasses S.meaning M.code (L.log replay.old.log) thread (world_of replay.old.world) (world_of replay.new.world)) }
{
    match turn_once(alloc, replay, reader, thread) {
        Ceased::All => Ok(1),
        Ceased::Done => Ok(0),
        Ceased::Fault(fault) => {
            if is_want_of_memory(fault) {
                Err(NoMemory)
            } else {
                Ok(0)
            }
        }
    }
}

/// A round of turns of threads 0, 1, .., up to so many steps. Answers how many were made: where there are fewer, the
/// round is whole, and where there are none, no thread has a step.
fn go_round<M: Machine<S>, S: ObjectSpace, L: ReadLog, O: OpenWorld<M, S>>(
    alloc: Global,
    replay: &mut Replay<M, S, L, O>,
    reader: &mut L::Reader,
    most: u64,
) -> Result<u64, NoMemory>
    requires { L.reads replay.old.log reader.old }
    ensures reads { L.reads replay.new.log reader.new }
    ensures log { replay.new.log ≡ replay.old.log }
    ensures opens { replay.new.opens ≡ replay.old.opens }
    ensures few { IfOk result (λ made. made ≤ most) }
    ensures round { IfOk result (λ made. made ≤ length (world_of replay.old.world).threads) }
    ensures leads { IfOk result (λ made. TurnsLead S.meaning M.code (L.log replay.old.log) made (world_of replay.old.world) (world_of replay.new.world)) }
    ensures whole { IfOk result (λ made. made < most → RoundsGo S.meaning M.code (L.log replay.old.log) made (world_of replay.old.world) (world_of replay.new.world)) }
    ensures rest { IfOk result (λ made. made < most → made ≡ 0 → AllRest S.meaning M.code (L.log replay.old.log) (world_of replay.new.world)) }
{
    let mut made: u64 = 0;
    for thread in 0..replay.world().count() {
        if made >= most {
            return Ok(made);
        }
        made += pass_turn(alloc, replay, reader, thread as u32)?;
    }
    Ok(made)
}

/// Makes rounds of local steps, as many as the pace tries, by which at most so many steps are made. Answers how many
/// steps that were.
fn go_together<M: Machine<S> + Drop, S: ObjectSpace, L: ReadLog, O: OpenWorld<M, S>>(
    alloc: Global,
    replay: &mut Replay<M, S, L, O>,
    pace: &mut Pace,
    most: u64,
) -> u64
    ensures log { replay.new.log ≡ replay.old.log }
    ensures opens { replay.new.opens ≡ replay.old.opens }
    ensures few { result ≤ most }
    ensures rounds { RoundsGo S.meaning M.code (L.log replay.old.log) result (world_of replay.old.world) (world_of replay.new.world) }
{
    let count = replay.world().count() as u64;
    if count == 0 || most < count {
        return 0;
    }
    let before = steps_of_world(replay.world());
    let rounds = least(pace.tries(), most / count);
    *pace = pace.behind(replay.local_rounds(alloc, rounds));
    steps_of_world(replay.world()) - before
}

/// Rounds of local steps, or else one round, up to so many steps. Answers how many were made, as `go_round` does.
fn go_some<M: Machine<S> + Drop, S: ObjectSpace, L: ReadLog, O: OpenWorld<M, S>>(
    alloc: Global,
    replay: &mut Replay<M, S, L, O>,
    reader: &mut L::Reader,
    pace: &mut Pace,
    most: u64,
) -> Result<u64, NoMemory>
    requires { L.reads replay.old.log reader.old }
    ensures reads { L.reads replay.new.log reader.new }
    ensures log { replay.new.log ≡ replay.old.log }
    ensures opens { replay.new.opens ≡ replay.old.opens }
    ensures few { IfOk result (λ made. made ≤ most) }
    ensures leads { IfOk result (λ made. TurnsLead S.meaning M.code (L.log replay.old.log) made (world_of replay.old.world) (world_of replay.new.world)) }
    ensures whole { IfOk result (λ made. made < most → RoundsGo S.meaning M.code (L.log replay.old.log) made (world_of replay.old.world) (world_of replay.new.world)) }
    ensures rounds { IfOk result (λ made. length (world_of replay.old.world).threads < most → RoundsGo S.meaning M.code (L.log replay.old.log) made (world_of replay.old.world) (world_of replay.new.world)) }
    ensures rest { IfOk result (λ made. made < most → made ≡ 0 → AllRest S.meaning M.code (L.log replay.old.log) (world_of replay.new.world)) }
{
    let together = go_together(alloc, replay, pace, most);
    if together > 0 {
        Ok(together)
    } else {
        go_round(alloc, replay, reader, most)
    }
}

/// Takes turns of threads 0, 1, .. in rounds until so many steps were made. Answers whether they were: they were not
/// where no thread has a step any more.
pub(crate) fn go_rounds<M: Machine<S> + Drop, S: ObjectSpace, L: ReadLog, O: OpenWorld<M, S>>(
    alloc: Global,
    replay: &mut Replay<M, S, L, O>,
    steps: u64,
) -> Result<bool, NoMemory>
    ensures log { replay.new.log ≡ replay.old.log }
    ensures opens { replay.new.opens ≡ replay.old.opens }
    ensures leads { IfOk result (λ made. made ≡ true → TurnsLead S.meaning M.code (L.log replay.old.log) steps (world_of replay.old.world) (world_of replay.new.world)) }
    ensures dry { IfOk result (λ made. made ≡ false → RunsDry S.meaning M.code (L.log replay.old.log) steps (world_of replay.old.world) (world_of replay.new.world)) }
{
    let mut reader = replay.reader();
    let mut pace = Pace::new();
    let mut missing = steps;
    while missing > 0 {
        let made = go_some(alloc, replay, &mut reader, &mut pace, missing)?;
        if made == 0 {
            return Ok(false);
        }
        missing -= made;
    }
    Ok(true)
}

/// Takes turns of threads 0, 1, .. in whole rounds, by which at most so many steps are made, and answers how many were
/// made. There may be fewer than come.
pub(crate) fn go_whole_rounds<M: Machine<S> + Drop, S: ObjectSpace, L: ReadLog, O: OpenWorld<M, S>>(
    alloc: Global,
    replay: &mut Replay<M, S, L, O>,
    most: u64,
) -> Result<u64, NoMemory>
    ensures log { replay.new.log ≡ replay.old.log }
    ensures opens { replay.new.opens ≡ replay.old.opens }
    ensures few { IfOk result (λ made. made ≤ most) }
    ensures rounds { IfOk result (λ made. RoundsGo S.meaning M.code (L.log replay.old.log) made (world_of replay.old.world) (world_of replay.new.world)) }
{
    let mut reader = replay.reader();
    let mut pace = Pace::new();
    let count = replay.world().count() as u64;
    let mut made: u64 = 0;
    while most - made > count {
        let more = go_some(alloc, replay, &mut reader, &mut pace, most - made)?;
        if more == 0 {
            return Ok(made);
        }
        made += more;
    }
    Ok(made)
}
