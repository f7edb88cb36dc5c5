//! Turns of a replay by an order, which pass over shut gates.

ghost use Rattle.std.specs.Prelude.{◌≡◌, ◌⊎◌, ◌<◌, true, cond, IfOk, IfErr, OnErr};
ghost use Rattle.event_core.specs.World.{world_of};
ghost use Rattle.replay_laws.specs.Turns.{turn_of, world_after_turn};
ghost use Rattle.replay_laws.specs.declared.turn.Turn.TheVariants as turn;
ghost use Rattle.replay_laws.specs.Finishing.{PassesOn};
ghost use Rattle.replay_gate.specs.Answers.{makes_step, TurnStops};
ghost use Rattle.replay_gate.specs.Local.{AreLeft};

use crate::answers::{ReplayFault, Turned};
use crate::read_log::ReadLog;
use crate::turn::{steps_left, take_local, take_turn};
use event_core::World;
use rw_objects::{Machine, ObjectSpace};
use std::alloc::Global;
use wasm_types::NoMemory;

/// Makes the step of a turn, if it has one. Answers whether it did; a shut gate and a thread that is done are passed
/// over.
fn pass<M: Machine<S>, S: ObjectSpace, L: ReadLog>(
    alloc: Global,
    world: &mut World<M, S>,
    log: &L,
    reader: &mut L::Reader,
    thread: u32,
) -> Result<bool, ReplayFault>
    requires { L.reads log.now reader.old }
    ensures reads { L.reads log.now reader.new }
    ensures pass { IfOk result (λ made. PassesOn (turn_of S.meaning M.code (L.log log.now) (world_of world.old) thread)) }
    ensures made { IfOk result (λ made. made ≡ makes_step (turn_of S.meaning M.code (L.log log.now) (world_of world.old) thread)) }
    ensures world { IfOk result (λ made. world_of world.new ≡ world_after_turn S.meaning M.code (world_of world.old) thread (turn_of S.meaning M.code (L.log log.now) (world_of world.old) thread)) }
    ensures err { IfErr result (λ f. (f ≡ ReplayFault.NoMemory) ⊎ TurnStops S.meaning M.code (L.log log.now) (world_of world.old) thread f) }
    ensures unchanged { OnErr result (world_of world.new ≡ world_of world.old) }
{
    match take_turn(alloc, world, log, reader, thread) {
        Ok(Turned::Done) => Ok(false),
        Ok(Turned::Local | Turned::Event) => Ok(true),
        Err(fault) => match fault {
            ReplayFault::Shut => Ok(false),
            _ => Err(fault),
        },
    }
}

/// Makes the local step of a thread's turn where steps are known to be left, and answers whether it did. Behind it
/// one fewer is left.
fn pass_locally<M: Machine<S>, S: ObjectSpace, L: ReadLog>(
    world: &mut World<M, S>,
    log: &L,
    thread: u32,
    left: &mut [u32; 16],
) -> Result<bool, NoMemory>
    requires few { thread < 16 }
    requires left { AreLeft M.code (L.log log.now) (world_of world.old) left.old }
    ensures made { IfOk result (λ made. made ≡ true → turn_of S.meaning M.code (L.log log.now) (world_of world.old) thread ≡ turn.Local) }
    ensures world { IfOk result (λ made. world_of world.new ≡ cond made (world_after_turn S.meaning M.code (world_of world.old) thread turn.Local) (world_of world.old)) }
    ensures left { IfOk result (λ made. AreLeft M.code (L.log log.now) (world_of world.new) left.new) }
    ensures unchanged { OnErr result (world_of world.new ≡ world_of world.old) }
{
    let at = thread as usize;
    let steps = left[at];
    if steps == 0 {
        return Ok(false);
    }
    match take_local(world, log, thread) {
        Err(error) => Err(error),
        Ok(false) => Ok(false),
        Ok(true) => {
            left[at] = steps - 1;
            Ok(true)
        }
    }
}

/// As `pass`. Where steps of the thread are known to be left, it asks the thread alone whether the next is local, and
/// then makes it. There is no thread past the sixteenth.
pub(crate) fn pass_on<M: Machine<S>, S: ObjectSpace, L: ReadLog>(
    alloc: Global,
    world: &mut World<M, S>,
    log: &L,
    reader: &mut L::Reader,
    thread: u32,
    left: &mut [u32; 16],
) -> Result<bool, ReplayFault>
    requires reads { L.reads log.now reader.old }
    requires left { AreLeft M.code (L.log log.now) (world_of world.old) left.old }
    ensures reads { L.reads log.now reader.new }
    ensures left { IfOk result (λ made. AreLeft M.code (L.log log.now) (world_of world.new) left.new) }
    ensures pass { IfOk result (λ made. PassesOn (turn_of S.meaning M.code (L.log log.now) (world_of world.old) thread)) }
    ensures made { IfOk result (λ made. made ≡ makes_step (turn_of S.meaning M.code (L.log log.now) (world_of world.old) thread)) }
    ensures world { IfOk result (λ made. world_of world.new ≡ world_after_turn S.meaning M.code (world_of world.old) thread (turn_of S.meaning M.code (L.log log.now) (world_of world.old) thread)) }
    ensures err { IfErr result (λ f. (f ≡ ReplayFault.NoMemory) ⊎ TurnStops S.meaning M.code (L.log log.now) (world_of world.old) thread f) }
{
    if thread >= 16 {
        return Ok(false);
    }
    match pass_locally(world, log, thread, left) {
        Err(_) => Err(ReplayFault::NoMemory),
        Ok(true) => Ok(true),
        Ok(false) => match pass(alloc, world, log, reader, thread) {
            Err(fault) => Err(fault),
            Ok(made) => {
                left[thread as usize] = steps_left(world, log, thread);
                Ok(made)
            }
        },
    }
}
