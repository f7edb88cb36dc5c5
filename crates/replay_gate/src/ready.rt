//! Turns of threads by which they go on, and of threads that rest.

ghost use Rattle.std.specs.Prelude.{◌≡◌, ◌<◌, true, slice_get, IfOk, OnErr};
ghost use Rattle.event_core.specs.World.{WorldAt, world_of};
ghost use Rattle.replay_laws.specs.Turns.{turn_of};
ghost use Rattle.replay_gate.specs.Local.{HasStepsLeft};
ghost use Rattle.replay_gate.specs.LocalRounds.{Rests};
ghost use Rattle.replay_gate.specs.Ready.{IsReady, IsLogged};

use crate::gates::is_open;
use crate::read_log::ReadLog;
use event_core::{Input, Pick, PickStep, World};
use log_pieces::Flat;
use rw_objects::{Machine, ObjectSpace};
use wasm_types::NoMemory;

/// The step by which a thread went on, if it did.
#[derive(Clone, Copy, Debug, PartialEq, Eq)]
pub enum Ready {
    /// A local step.
    Local,
    /// An event, whose entry the reader holds.
    Event,
    /// None: its turn may be any other.
    Not,
}

/// Whether the log has the entry of an operation next for a thread, before its logged end. The reader goes forward to
/// the item there.
fn is_logged<M: Machine<S>, S: ObjectSpace, L: ReadLog>(
    world: &World<M, S>,
    log: &L,
    reader: &mut L::Reader,
    thread: u32,
    op: &S::Op,
) -> bool
    requires { L.reads log.now reader.old }
    ensures reads { L.reads log.now reader.new }
    ensures logged { result ≡ true → IsLogged S.meaning (L.log log.now) (world_of world.now) thread op.now (L.holds reader.new thread) }
{
    let Some(place) = world.places(thread) else {
        return false;
    };
    let Some(Flat::Known(end)) = log.end(thread) else {
        return false;
    };
    if place >= end.places {
        return false;
    }
    log.read(reader, thread, place);
    match L::held(reader, thread) {
        None => false,
        Some(Flat::Clash) => false,
        Some(Flat::Known(item)) => S::logs(world.versions(), op, item),
    }
}

/// Makes the step by which a thread goes on that has steps left to its logged end, where that is its turn: a local
/// step, or an event that the log lets pass. It decodes the step once.
#[inline(always)]
pub(crate) fn take_ready<M: Machine<S>, S: ObjectSpace, L: ReadLog>(
    world: &mut World<M, S>,
    log: &L,
    reader: &mut L::Reader,
    thread: u32,
) -> Result<Ready, NoMemory>
    requires reads { L.reads log.now reader.old }
    requires left { HasStepsLeft M.code (L.log log.now) (world_of world.old) thread }
    ensures reads { L.reads log.now reader.new }
    ensures ready { IfOk result (λ ready. IsReady S.meaning M.code (L.log log.now) (world_of world.old) thread ready (L.holds reader.new thread) (world_of world.new)) }
    ensures unchanged { OnErr result (world_of world.new ≡ world_of world.old) }
{
    let pick = Pick {
        thread,
        input: Input::Go,
    };
    match world.step_of(pick) {
        PickStep::Refused(_) => Ok(Ready::Not),
        PickStep::Local => match world.local(pick) {
            Ok(()) => Ok(Ready::Local),
            Err(error) => Err(error),
        },
        PickStep::Event(op) => {
            if is_logged(world, log, reader, thread, &op) {
                match world.event(pick, op) {
                    Ok(_) => Ok(Ready::Event),
                    Err(error) => Err(error),
                }
            } else {
                Ok(Ready::Not)
            }
        }
    }
}

/// Whether a thread whose turn made no step before rests still, as it does where the gate of its next event is not
/// open. The reader goes forward to that event's item.
pub(crate) fn rests_still<M: Machine<S>, S: ObjectSpace, L: ReadLog>(
    world: &World<M, S>,
    log: &L,
    reader: &mut L::Reader,
    thread: u32,
) -> bool
    requires reads { L.reads log.now reader.old }
    ensures reads { L.reads log.now reader.new }
    ensures rests { result ≡ true → (w : WorldAt M.State S.Value S.Fixed) → slice_get w.threads thread ≡ slice_get (world_of world.now).threads thread → Rests (turn_of S.meaning M.code (L.log log.now) w thread)
        → turn_of S.meaning M.code (L.log log.now) (world_of world.now) thread ≡ turn_of S.meaning M.code (L.log log.now) w thread }
{
    let Some(place) = world.places(thread) else {
        return false;
    };
    log.read(reader, thread, place);
    match L::held(reader, thread) {
        None => true,
        Some(Flat::Clash) => true,
        Some(Flat::Known(item)) => !is_open(item.found.as_slice(), world.versions()),
    }
}
