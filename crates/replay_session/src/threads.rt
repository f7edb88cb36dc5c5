//! Turns of one thread, one behind the other.

ghost use Rattle.std.specs.Prelude.{◌≡◌, ◌≤◌};
ghost use Rattle.event_core.specs.World.{world_of};
ghost use Rattle.replay_session.specs.Events.{events_on};
ghost use Rattle.replay_session.specs.Ways.{ThreadLeads};
ghost use Rattle.replay_session.specs.Gone.{CeasesSo, GoesOn, TurnCeases, is_want_of_memory, steps_of_answer};

use crate::gone::{Ceased, Gone};
use replay_gate::{OpenWorld, ReadLog, Ready, Replay, ReplayFault, Turned};
use rw_objects::{Machine, ObjectSpace};
use std::alloc::Global;
use wasm_types::NoMemory;

/// The least of two numbers.
pub(crate) fn least(left: u32, most: u64) -> u32
    ensures left { result ≤ left }
    ensures most { result ≤ most }
{
    if most < u64::from(left) {
        most as u32
    } else {
        left
    }
}

/// Makes local turns of a thread, at most so many, of those that its logged end has left, and answers how many. There
/// may be fewer than come.
pub(crate) fn go_locally<M: Machine<S>, S: ObjectSpace, L: ReadLog, O: OpenWorld<M, S>>(
    replay: &mut Replay<M, S, L, O>,
    thread: u32,
    most: u64,
) -> u64
    ensures log { replay.new.log ≡ replay.old.log }
    ensures opens { replay.new.opens ≡ replay.old.opens }
    ensures few { result ≤ most }
    ensures leads { ThreadLeads S.meaning M.code (L.log replay.old.log) thread result (world_of replay.old.world) (world_of replay.new.world) }
    ensures quiet { events_on S.meaning M.code (L.log replay.old.log) thread (world_of replay.old.world) result ≡ 0 }
{
    let most = least(replay.steps_left(thread), most);
    u64::from(replay.local_steps(thread, most))
}

/// Whether memory could not be had.
pub(crate) fn is_want_of_memory(fault: ReplayFault) -> bool
    ensures { result ≡ is_want_of_memory fault }
{
    match fault {
        ReplayFault::NoMemory => true,
        ReplayFault::Clash { .. } | ReplayFault::Missing { .. } => false,
        ReplayFault::Shut | ReplayFault::Diverged { .. } | ReplayFault::Stuck => false,
    }
}

/// How many steps a turn made.
pub(crate) fn steps_of(turned: Turned) -> u64
    ensures { result ≡ steps_of_answer turned }
{
    match turned {
        Turned::Done => 0,
        Turned::Local | Turned::Event => 1,
    }
}

/// Makes the step of a thread's turn where by it the thread goes on, and answers whether it did. Else nothing is done.
fn goes_on<M: Machine<S>, S: ObjectSpace, L: ReadLog, O: OpenWorld<M, S>>(
    replay: &mut Replay<M, S, L, O>,
    reader: &mut L::Reader,
    thread: u32,
) -> bool
    requires { L.reads replay.old.log reader.old }
    ensures reads { L.reads replay.new.log reader.new }
    ensures log { replay.new.log ≡ replay.old.log }
    ensures opens { replay.new.opens ≡ replay.old.opens }
    ensures goes { GoesOn S.meaning M.code (L.log replay.old.log) thread (world_of replay.old.world) (world_of replay.new.world) result }
{
    if replay.steps_left(thread) == 0 {
        return false;
    }
    match replay.ready_turn(reader, thread) {
        Ok(Ready::Local | Ready::Event) => true,
        Ok(Ready::Not) | Err(NoMemory) => false,
    }
}

/// A turn of a thread. All is made where it makes a step.
pub(crate) fn turn_once<M: Machine<S>, S: ObjectSpace, L: ReadLog, O: OpenWorld<M, S>>(
    alloc: Global,
    replay: &mut Replay<M, S, L, O>,
    reader: &mut L::Reader,
    thread: u32,
) -> Ceased
    requires { L.reads replay.old.log reader.old }
    ensures reads { L.reads replay.new.log reader.new }
    ensures log { replay.new.log ≡ replay.old.log }
    ensures opens { replay.new.opens ≡ replay.old.opens }
    ensures ceases { TurnCeases S.meaning M.code (L.log replay.old.log) thread (world_of replay.old.world) (world_of replay.new.world) result }
{
    if goes_on(replay, reader, thread) {
        return Ceased::All;
    }
    match replay.turn_by(alloc, reader, thread) {
        Ok(Turned::Local | Turned::Event) => Ceased::All,
        Ok(Turned::Done) => Ceased::Done,
        Err(fault) => Ceased::Fault(fault),
    }
}

/// Takes turns of a thread, one behind the other, until so many steps were made, or a turn makes none.
pub(crate) fn go_thread<M: Machine<S>, S: ObjectSpace, L: ReadLog, O: OpenWorld<M, S>>(
    alloc: Global,
    replay: &mut Replay<M, S, L, O>,
    thread: u32,
    most: u64,
) -> Gone
    ensures log { replay.new.log ≡ replay.old.log }
    ensures opens { replay.new.opens ≡ replay.old.opens }
    ensures few { result.steps ≤ most }
    ensures leads { ThreadLeads S.meaning M.code (L.log replay.old.log) thread result.steps (world_of replay.old.world) (world_of replay.new.world) }
    ensures ceased { CeasesSo S.meaning M.code (L.log replay.old.log) thread result.steps most (world_of replay.new.world) result.ceased }
{
    let mut reader = replay.reader();
    let mut made: u64 = 0;
    while made < most {
        made += go_locally(replay, thread, most - made);
        if made < most {
            match turn_once(alloc, replay, &mut reader, thread) {
                Ceased::All => made += 1,
                ceased => {
                    return Gone {
                        steps: made,
                        ceased,
                    };
                }
            }
        }
    }
    Gone {
        steps: made,
        ceased: Ceased::All,
    }
}
