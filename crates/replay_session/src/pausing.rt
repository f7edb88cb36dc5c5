//! Turns of all threads in rounds up to a break or a test.

ghost use Rattle.std.specs.Prelude.{◌≡◌, IfOk, IfErr};
ghost use Rattle.event_core.specs.World.{world_of};
ghost use Rattle.replay_gate.specs.Stops.{is_step, is_held, TurnTakes};
ghost use Rattle.replay_session.specs.Meets.{Untested};
ghost use Rattle.replay_session.specs.Pauses.{TurnPausesAt, PausesAt};

use crate::paused::{Met, Paused, paused_of};
use crate::test::Test;
use replay_gate::{Break, OpenWorld, ReadLog, Replay, Taken, turn_to};
use rw_objects::{Machine, ObjectSpace};
use std::alloc::Global;

/// Whether a turn made a step.
pub(crate) fn is_step(taken: Taken) -> bool
    ensures { result ≡ is_step taken }
{
    match taken {
        Taken::Step => true,
        Taken::Done | Taken::Held => false,
    }
}

/// Whether a turn was held by a shut gate.
fn is_held(taken: Taken) -> bool
    ensures { result ≡ is_held taken }
{
    match taken {
        Taken::Held => true,
        Taken::Done | Taken::Step => false,
    }
}

/// A turn of a thread, and behind its step the test of the breaks, and where none of them holds the other test.
pub(crate) fn turn_until<
    M: Machine<S>,
    S: ObjectSpace,
    L: ReadLog,
    O: OpenWorld<M, S>,
    T: Test<M, S>,
>(
    alloc: Global,
    replay: &mut Replay<M, S, L, O>,
    reader: &mut L::Reader,
    thread: u32,
    breaks: &[Break],
    test: &T,
) -> Result<Taken, Paused>
    requires { L.reads replay.old.log reader.old }
    ensures reads { L.reads replay.new.log reader.new }
    ensures log { replay.new.log ≡ replay.old.log }
    ensures opens { replay.new.opens ≡ replay.old.opens }
    ensures takes { IfOk result (TurnTakes S.meaning M.code (L.log replay.old.log) (world_of replay.old.world) thread breaks.now (world_of replay.new.world)) }
    ensures untested { IfOk result (λ taken. Untested S.meaning M.code (L.log replay.old.log) (T.holds test.now) (world_of replay.old.world) thread) }
    ensures pauses { IfErr result (TurnPausesAt S.meaning M.code (L.log replay.old.log) breaks.now (T.holds test.now) (world_of replay.old.world) thread (world_of replay.new.world)) }
{
    match turn_to(alloc, replay, reader, thread, breaks) {
        Err(stopped) => Err(paused_of(stopped)),
        Ok(Taken::Done) => Ok(Taken::Done),
        Ok(Taken::Held) => Ok(Taken::Held),
        Ok(Taken::Step) => match test.test(replay.world(), thread) {
            None => Ok(Taken::Step),
            Some(index) => Err(Paused::Met(Met::Test(index))),
        },
    }
}

/// Takes turns of threads 0, 1, .. in rounds, until behind a step a break or the test holds, no thread has a step any
/// more, or a turn is refused for divergence or want of memory.
pub(crate) fn rounds_until<
    M: Machine<S>,
    S: ObjectSpace,
    L: ReadLog,
    O: OpenWorld<M, S>,
    T: Test<M, S>,
>(alloc: Global, replay: &mut Replay<M, S, L, O>, breaks: &[Break], test: &T) -> Paused
    ensures log { replay.new.log ≡ replay.old.log }
    ensures opens { replay.new.opens ≡ replay.old.opens }
    ensures pauses { PausesAt S.meaning M.code (L.log replay.old.log) breaks.now (T.holds test.now) (world_of replay.old.world) (world_of replay.new.world) result }
{
    let mut reader = replay.reader();
    let count = replay.world().count() as u32;
    let mut next: u32 = 0;
    let mut made = false;
    let mut held = false;
    while made || next < count {
        if next < count {
            match turn_until(alloc, replay, &mut reader, next, breaks, test) {
                Err(paused) => return paused,
                Ok(taken) => {
                    made |= is_step(taken);
                    held |= is_held(taken);
                    next += 1;
                }
            }
        } else {
            next = 0;
            made = false;
            held = false;
        }
    }
    if held {
        Paused::Stuck
    } else {
        Paused::Finished
    }
}
