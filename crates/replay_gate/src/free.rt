//! Steps of a thread that are free: made before its logged end, and behind which no break at a thread's steps holds.

ghost use Rattle.std.specs.Prelude.{◌≡◌, ◌<◌, ◌≤◌, IfOk, OnErr};
ghost use Rattle.event_core.specs.World.{world_of};
ghost use Rattle.replay_gate.specs.Free.{IsFreeOf, IsFree, AreFree, GoesFreely};

use crate::breaks::Break;
use crate::{OpenWorld, ReadLog, Ready, Replay};
use rw_objects::{Machine, ObjectSpace};
use wasm_types::NoMemory;

/// How many steps, up to so many, a thread that has made these can make before this break may hold behind one of them.
fn free_of(one: Break, thread: u32, made: u32, most: u32) -> u32
    ensures few { result ≤ most }
    ensures free { IsFreeOf thread made result one }
{
    match one {
        Break::Step { thread: of, steps } => {
            if of == thread && made < steps {
                most.min(steps - made - 1)
            } else {
                most
            }
        }
        Break::Place { .. } | Break::Write(_) => most,
    }
}

/// How many steps of a thread are free.
pub(crate) fn free_steps<M: Machine<S>, S: ObjectSpace, L: ReadLog, O: OpenWorld<M, S>>(
    replay: &Replay<M, S, L, O>,
    thread: u32,
    breaks: &[Break],
) -> u32
    ensures { IsFree M.code (L.log replay.now.log) (world_of replay.now.world) breaks.now thread result }
{
    let Some(made) = replay.world().steps(thread) else {
        return 0;
    };
    let mut free = replay.steps_left(thread);
    for one in breaks {
        free = free_of(*one, thread, made, free);
    }
    free
}

/// Makes the step by which a thread goes on, where one is free and the log lets it pass. Behind it one step fewer is
/// free.
#[inline(always)]
pub(crate) fn goes_freely<M: Machine<S>, S: ObjectSpace, L: ReadLog, O: OpenWorld<M, S>>(
    replay: &mut Replay<M, S, L, O>,
    reader: &mut L::Reader,
    thread: u32,
    breaks: &[Break],
    free: &mut [u32; 16],
) -> Result<Ready, NoMemory>
    requires reads { L.reads replay.old.log reader.old }
    requires few { thread < 16 }
    requires free { AreFree M.code (L.log replay.old.log) (world_of replay.old.world) breaks.now free.old }
    ensures reads { L.reads replay.new.log reader.new }
    ensures log { replay.new.log ≡ replay.old.log }
    ensures opens { replay.new.opens ≡ replay.old.opens }
    ensures goes { IfOk result (λ ready. GoesFreely S.meaning M.code (L.log replay.old.log) breaks.now thread (world_of replay.old.world) ready (L.holds reader.new thread) (world_of replay.new.world)) }
    ensures free { IfOk result (λ ready. AreFree M.code (L.log replay.old.log) (world_of replay.new.world) breaks.now free.new) }
    ensures err { OnErr result (world_of replay.new.world ≡ world_of replay.old.world) }
{
    let at = thread as usize;
    let left = free[at];
    if left == 0 {
        return Ok(Ready::Not);
    }
    match replay.ready_turn(reader, thread) {
        Err(error) => Err(error),
        Ok(Ready::Not) => Ok(Ready::Not),
        Ok(Ready::Local) => {
            free[at] = left - 1;
            Ok(Ready::Local)
        }
        Ok(Ready::Event) => {
            free[at] = left - 1;
            Ok(Ready::Event)
        }
    }
}
