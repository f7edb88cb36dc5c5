//! The picks by which a run goes the way of a replay.

ghost use Rattle.std.specs.Prelude.{◌≡◌, ◌+◌, ◌<◌, ◌≤◌, ◌++◌, [], IfOk, OnOk, length};
ghost use Rattle.event_core.specs.World.{WorldAt, world_of};
ghost use Rattle.replay_laws.specs.Ordered.{pick_made};
ghost use Rattle.replay_laws.specs.Turns.{input_of_turn, turn_of, world_after_turn};
ghost use Rattle.replay_session.specs.Legs.{steps_of_leg, steps_of_way};
ghost use Rattle.replay_session.specs.Picks.{ArePut, input_by};
ghost use Rattle.replay_session.specs.Ways.{LegLeads, ThreadLeads, TurnsLead, WayLeads};

use crate::legs::Leg;
use crate::threads::is_want_of_memory;
use event_core::{Input, Pick};
use log_pieces::Flat;
use pick_schedule::Schedule;
use replay_gate::{OpenWorld, ReadLog, Replay, Turned};
use rw_objects::{Entry, Kind, Machine, ObjectSpace};
use std::alloc::Global;
use wasm_types::NoMemory;

/// How a thread is picked for an event of which the log has this.
fn input_by(item: Option<Flat<Entry>>) -> Input
    ensures { result ≡ input_by item }
{
    match item {
        Some(Flat::Known(entry)) => match entry.kind {
            Kind::Access | Kind::Woken => Input::Go,
            Kind::TimedOut => Input::TimeOut,
        },
        Some(Flat::Clash) | None => Input::Go,
    }
}

/// A turn of a thread, which passes the thread over where the turn is refused. Answers how the thread is picked for its
/// step, if it makes one.
fn pick_turn<M: Machine<S>, S: ObjectSpace, L: ReadLog, O: OpenWorld<M, S>>(
    alloc: Global,
    log: &L,
    replay: &mut Replay<M, S, L, O>,
    reader: &mut L::Reader,
    thread: u32,
) -> Result<Option<Input>, NoMemory>
    requires log { log.now ≡ replay.old.log }
    requires reads { L.reads replay.old.log reader.old }
    ensures reads { L.reads replay.new.log reader.new }
    ensures log { replay.new.log ≡ replay.old.log }
    ensures opens { replay.new.opens ≡ replay.old.opens }
    ensures input { IfOk result (λ input. input ≡ input_of_turn (turn_of S.meaning M.code (L.log replay.old.log) (world_of replay.old.world) thread)) }
    ensures world { OnOk result (world_of replay.new.world ≡ world_after_turn S.meaning M.code (world_of replay.old.world) thread (turn_of S.meaning M.code (L.log replay.old.log) (world_of replay.old.world) thread)) }
{
    let place = replay.world().places(thread).unwrap_or(0);
    match replay.turn_by(alloc, reader, thread) {
        Ok(Turned::Done) => Ok(None),
        Ok(Turned::Local) => Ok(Some(Input::Go)),
        Ok(Turned::Event) => Ok(Some(input_by(log.entry(thread, place)))),
        Err(fault) => {
            if is_want_of_memory(fault) {
                Err(NoMemory)
            } else {
                Ok(None)
            }
        }
    }
}

/// Puts the pick of a thread, if it is one, behind others. Answers how many that is.
fn put_pick(picks: &mut Schedule, thread: u32, input: Option<Input>) -> Result<u64, NoMemory>
    requires { length picks.old < 1000000 }
    ensures put { OnOk result (picks.new ≡ picks.old ++ pick_made thread input) }
    ensures count { IfOk result (λ count. count ≡ length (pick_made thread input)) }
{
    match input {
        None => Ok(0),
        Some(input) => {
            picks.push(Pick { thread, input }, 1)?;
            Ok(1)
        }
    }
}

/// Goes a leg of one thread that leads somewhere, and puts the picks of its steps behind others.
fn pick_thread<M: Machine<S>, S: ObjectSpace, L: ReadLog, O: OpenWorld<M, S>>(
    alloc: Global,
    log: &L,
    replay: &mut Replay<M, S, L, O>,
    picks: &mut Schedule,
    thread: u32,
    steps: u64,
) -> Result<(), NoMemory>
    requires log { log.now ≡ replay.old.log }
    requires leads { ∥ ((v : WorldAt M.State S.Value S.Fixed) × ThreadLeads S.meaning M.code (L.log replay.old.log) thread steps (world_of replay.old.world) v) ∥₁ }
    requires room { length picks.old + steps ≤ 1000000 }
    ensures log { replay.new.log ≡ replay.old.log }
    ensures opens { replay.new.opens ≡ replay.old.opens }
    ensures leads { OnOk result (ThreadLeads S.meaning M.code (L.log replay.old.log) thread steps (world_of replay.old.world) (world_of replay.new.world)) }
    ensures put { OnOk result (ArePut S.meaning M.code (L.log replay.old.log) steps picks.old picks.new (world_of replay.old.world) (world_of replay.new.world)) }
{
    let mut reader = replay.reader();
    let _count = replay.world().count();
    for _made in 0..steps {
        let input = pick_turn(alloc, log, replay, &mut reader, thread)?;
        put_pick(picks, thread, input)?;
    }
    Ok(())
}

/// Goes a leg of rounds that leads somewhere, and puts the picks of its steps behind others.
fn pick_rounds<M: Machine<S>, S: ObjectSpace, L: ReadLog, O: OpenWorld<M, S>>(
    alloc: Global,
    log: &L,
    replay: &mut Replay<M, S, L, O>,
    picks: &mut Schedule,
    steps: u64,
) -> Result<(), NoMemory>
    requires log { log.now ≡ replay.old.log }
    requires leads { ∥ ((v : WorldAt M.State S.Value S.Fixed) × TurnsLead S.meaning M.code (L.log replay.old.log) steps (world_of replay.old.world) v) ∥₁ }
    requires room { length picks.old + steps ≤ 1000000 }
    ensures log { replay.new.log ≡ replay.old.log }
    ensures opens { replay.new.opens ≡ replay.old.opens }
    ensures leads { OnOk result (TurnsLead S.meaning M.code (L.log replay.old.log) steps (world_of replay.old.world) (world_of replay.new.world)) }
    ensures put { OnOk result (ArePut S.meaning M.code (L.log replay.old.log) steps picks.old picks.new (world_of replay.old.world) (world_of replay.new.world)) }
{
    let mut reader = replay.reader();
    let count = replay.world().count() as u32;
    let mut made: u64 = 0;
    let mut before: u64 = 0;
    let mut next: u32 = 0;
    while made < steps {
        if next < count {
            let input = pick_turn(alloc, log, replay, &mut reader, next)?;
            made += put_pick(picks, next, input)?;
            next += 1;
        } else if before < made {
            before = made;
            next = 0;
        } else {
            unreachable!()
        }
    }
    Ok(())
}

/// Goes a leg that leads somewhere, and puts the picks of its steps behind others.
fn pick_leg<M: Machine<S>, S: ObjectSpace, L: ReadLog, O: OpenWorld<M, S>>(
    alloc: Global,
    log: &L,
    replay: &mut Replay<M, S, L, O>,
    picks: &mut Schedule,
    leg: Leg,
) -> Result<(), NoMemory>
    requires log { log.now ≡ replay.old.log }
    requires leads { ∥ ((v : WorldAt M.State S.Value S.Fixed) × LegLeads S.meaning M.code (L.log replay.old.log) leg (world_of replay.old.world) v) ∥₁ }
    requires room { length picks.old + steps_of_leg leg ≤ 1000000 }
    ensures log { replay.new.log ≡ replay.old.log }
    ensures opens { replay.new.opens ≡ replay.old.opens }
    ensures leads { OnOk result (LegLeads S.meaning M.code (L.log replay.old.log) leg (world_of replay.old.world) (world_of replay.new.world)) }
    ensures put { OnOk result (ArePut S.meaning M.code (L.log replay.old.log) (steps_of_leg leg) picks.old picks.new (world_of replay.old.world) (world_of replay.new.world)) }
{
    match leg {
        Leg::Thread { thread, steps } => pick_thread(alloc, log, replay, picks, thread, steps),
        Leg::Rounds { steps } => pick_rounds(alloc, log, replay, picks, steps),
    }
}

/// Goes a way that leads somewhere, and answers the picks of its steps.
pub(crate) fn picks_of_way<M: Machine<S>, S: ObjectSpace, L: ReadLog, O: OpenWorld<M, S>>(
    alloc: Global,
    log: &L,
    replay: &mut Replay<M, S, L, O>,
    legs: &[Leg],
) -> Result<Schedule, NoMemory>
    requires log { log.now ≡ replay.old.log }
    requires leads { ∥ ((v : WorldAt M.State S.Value S.Fixed) × WayLeads S.meaning M.code (L.log replay.old.log) legs.now (world_of replay.old.world) v) ∥₁ }
    requires few { steps_of_way legs.now ≤ 1000000 }
    ensures leads { OnOk result (WayLeads S.meaning M.code (L.log replay.old.log) legs.now (world_of replay.old.world) (world_of replay.new.world)) }
    ensures put { IfOk result (λ picks. ArePut S.meaning M.code (L.log replay.old.log) (steps_of_way legs.now) [] picks (world_of replay.old.world) (world_of replay.new.world)) }
{
    let mut picks = Schedule::new(alloc);
    for leg in legs {
        pick_leg(alloc, log, replay, &mut picks, *leg)?;
    }
    Ok(picks)
}
