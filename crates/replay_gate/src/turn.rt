//! One turn of a replay.

ghost use Rattle.std.specs.Prelude.{◌≡◌, ◌⊎◌, cond, slice_get, option_copied, Some, IfOk, IfErr, OnOk, OnErr};
ghost use Rattle.event_core.specs.World.{world_of};
ghost use Rattle.replay_laws.specs.Turns.{op_for, can_give, turn_by_step, turn_by_item, turn_by_entry, turn_of, world_after_turn};
ghost use Rattle.replay_laws.specs.declared.turn.Turn.TheVariants as turn;
ghost use Rattle.replay_gate.specs.Answers.{IsThreadsFault};
ghost use Rattle.replay_gate.specs.Turned.{answer_of_turn, TurnRefused};
ghost use Rattle.replay_gate.specs.Local.{is_local, steps_left_of, HasStepsLeft};

use crate::answers::{ReplayFault, Turned, fault_of};
use crate::event::input_for;
use crate::gates::{are_of, is_open};
use crate::needs::{EntryNeeds, needs_of};
use crate::read_log::ReadLog;
use event_core::{Input, Pick, PickStep, World};
use log_pieces::Flat;
use replay_laws::{Refusal, Turn};
use rw_objects::{Entry, Kind, Machine, Next, ObjectSpace};
use std::alloc::Global;
use wasm_types::NoMemory;

/// The operation that an entry of this kind speaks of.
fn op_for<O: Copy>(next: Next<O>, kind: Kind) -> Option<O>
    ensures { result ≡ op_for next kind }
{
    match (next, kind) {
        (Next::Ask(op), Kind::Access) => Some(op),
        (Next::Asleep { resume, out: _ }, Kind::Woken) => Some(resume),
        (Next::Asleep { resume, out: None }, Kind::TimedOut) => Some(resume),
        (
            Next::Asleep {
                resume: _,
                out: Some(out),
            },
            Kind::TimedOut,
        ) => Some(out),
        _ => None,
    }
}

/// Whether a thread that does this next can give the entry's kind and touches.
fn can_give<S: ObjectSpace>(alloc: Global, next: Next<S::Op>, item: &Entry) -> bool
    ensures { result ≡ can_give S.meaning next item.now }
{
    match op_for(next, item.kind) {
        None => false,
        Some(op) => are_of(S::touches(alloc, &op).as_slice(), item.found.as_slice()),
    }
}

fn turn_by_step<O: Copy>(input: Input, step: PickStep<O>) -> Turn
    ensures { result ≡ turn_by_step input step }
{
    match step {
        PickStep::Event(_) => Turn::Event(input),
        PickStep::Local => Turn::Refused(Refusal::Diverged),
        PickStep::Refused(_) => Turn::Refused(Refusal::Diverged),
    }
}

/// What a turn does where the log knows the entry.
fn turn_by_item<M: Machine<S>, S: ObjectSpace>(
    alloc: Global,
    world: &World<M, S>,
    thread: u32,
    next: Next<S::Op>,
    item: &Entry,
) -> Turn
    ensures { result ≡ turn_by_item S.meaning M.code (world_of world.now) thread next item.now }
{
    if can_give::<S>(alloc, next, item) {
        if is_open(item.found.as_slice(), world.versions()) {
            let input = input_for(item.kind);
            turn_by_step(input, world.step_of(Pick { thread, input }))
        } else {
            Turn::Refused(Refusal::Shut)
        }
    } else {
        Turn::Refused(Refusal::Diverged)
    }
}

/// What a turn does by what the log says at its place.
fn turn_by_entry<M: Machine<S>, S: ObjectSpace>(
    alloc: Global,
    world: &World<M, S>,
    thread: u32,
    next: Next<S::Op>,
    entry: Option<&Flat<Entry>>,
) -> Turn
    ensures { result ≡ turn_by_entry S.meaning M.code (world_of world.now) thread next (option_copied entry.entry) }
{
    match entry {
        None => Turn::Refused(Refusal::Missing),
        Some(Flat::Clash) => Turn::Refused(Refusal::Clash),
        Some(Flat::Known(item)) => turn_by_item(alloc, world, thread, next, item),
    }
}

/// What a turn of a thread does.
pub fn turn_of<M: Machine<S>, S: ObjectSpace, L: ReadLog>(
    alloc: Global,
    world: &World<M, S>,
    log: &L,
    thread: u32,
) -> Turn
    ensures { result ≡ turn_of S.meaning M.code (L.log log.now) (world_of world.now) thread }
{
    match needs_of(world, log, thread) {
        EntryNeeds::Nothing(turn) => turn,
        EntryNeeds::Entry { next, place } => {
            let entry = log.entry(thread, place);
            turn_by_entry(alloc, world, thread, next, entry.as_ref())
        }
    }
}

/// What a turn of a thread does. The reader goes forward to the entry that it needs.
fn read_turn<M: Machine<S>, S: ObjectSpace, L: ReadLog>(
    alloc: Global,
    world: &World<M, S>,
    log: &L,
    reader: &mut L::Reader,
    thread: u32,
) -> Turn
    requires { L.reads log.now reader.old }
    ensures turn { result ≡ turn_of S.meaning M.code (L.log log.now) (world_of world.now) thread }
    ensures reads { L.reads log.now reader.new }
{
    match needs_of(world, log, thread) {
        EntryNeeds::Nothing(turn) => turn,
        EntryNeeds::Entry { next, place } => {
            log.read(reader, thread, place);
            turn_by_entry(alloc, world, thread, next, L::held(reader, thread))
        }
    }
}

/// The fault of a thread's turn that is refused so.
fn fault_at<M: Machine<S>, S: ObjectSpace>(
    world: &World<M, S>,
    thread: u32,
    refusal: Refusal,
) -> ReplayFault
    ensures { IsThreadsFault (world_of world.now) thread refusal result }
{
    match world.places(thread) {
        Some(place) => fault_of(refusal, thread, place),
        None => ReplayFault::Stuck,
    }
}

/// Makes the step of a turn, where the log lets it pass; a refusal, a shut gate's too, leaves the world as it was. The
/// reader goes forward to the entry that the turn needs.
pub(crate) fn take_turn<M: Machine<S>, S: ObjectSpace, L: ReadLog>(
    alloc: Global,
    world: &mut World<M, S>,
    log: &L,
    reader: &mut L::Reader,
    thread: u32,
) -> Result<Turned, ReplayFault>
    requires { L.reads log.now reader.old }
    ensures reads { L.reads log.now reader.new }
    ensures ok { IfOk result (λ turned. answer_of_turn (turn_of S.meaning M.code (L.log log.now) (world_of world.old) thread) ≡ Some turned) }
    ensures world { OnOk result (world_of world.new ≡ world_after_turn S.meaning M.code (world_of world.old) thread (turn_of S.meaning M.code (L.log log.now) (world_of world.old) thread)) }
    ensures err { IfErr result (λ f. (f ≡ ReplayFault.NoMemory) ⊎ TurnRefused S.meaning M.code (L.log log.now) (world_of world.old) thread f) }
    ensures unchanged { OnErr result (world_of world.new ≡ world_of world.old) }
{
    match read_turn(alloc, world, log, reader, thread) {
        Turn::Done => Ok(Turned::Done),
        Turn::Local => match world.local(Pick {
            thread,
            input: Input::Go,
        }) {
            Ok(()) => Ok(Turned::Local),
            Err(_) => Err(ReplayFault::NoMemory),
        },
        Turn::Event(input) => match world.step(Pick { thread, input }) {
            Ok(_) => Ok(Turned::Event),
            Err(_) => Err(ReplayFault::NoMemory),
        },
        Turn::Refused(refusal) => Err(fault_at(world, thread, refusal)),
    }
}

/// Makes the local step of a thread's turn, where the turn is that, and answers whether it did. It asks the thread
/// alone, which has made fewer steps than its logged end has.
pub(crate) fn take_local<M: Machine<S>, S: ObjectSpace, L: ReadLog>(
    world: &mut World<M, S>,
    log: &L,
    thread: u32,
) -> Result<bool, NoMemory>
    requires { HasStepsLeft M.code (L.log log.now) (world_of world.old) thread }
    ensures made { IfOk result (λ made. made ≡ is_local (turn_of S.meaning M.code (L.log log.now) (world_of world.old) thread)) }
    ensures world { IfOk result (λ made. world_of world.new ≡ cond made (world_after_turn S.meaning M.code (world_of world.old) thread turn.Local) (world_of world.old)) }
    ensures unchanged { OnErr result (world_of world.new ≡ world_of world.old) }
{
    let pick = Pick {
        thread,
        input: Input::Go,
    };
    match world.step_of(pick) {
        PickStep::Local => match world.local(pick) {
            Ok(()) => Ok(true),
            Err(error) => Err(error),
        },
        PickStep::Event(_) | PickStep::Refused(_) => Ok(false),
    }
}

/// How many steps a thread has left to its logged end, where that is known.
pub(crate) fn steps_left<M: Machine<S>, S: ObjectSpace, L: ReadLog>(
    world: &World<M, S>,
    log: &L,
    thread: u32,
) -> u32
    ensures { result ≡ steps_left_of M.code ((L.log log.now).end thread) (slice_get (world_of world.now).threads thread) }
{
    match (log.end(thread), world.steps(thread)) {
        (Some(Flat::Known(end)), Some(steps)) => end.steps.saturating_sub(steps),
        _ => 0,
    }
}
