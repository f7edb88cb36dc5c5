//! The last step of a way behind which a break or a test holds.

ghost use Rattle.std.specs.Prelude.{◌≡◌, ◌+◌, ◌<◌, ◌≤◌, IfSome, IfOk, OnOk};
ghost use Rattle.event_core.specs.World.{WorldAt, world_of};
ghost use Rattle.replay_session.specs.declared.legs.Leg.TheVariants as leg;
ghost use Rattle.replay_session.specs.Legs.{steps_of_leg, steps_of_way};
ghost use Rattle.replay_session.specs.Reverse.{steps_of_test, last_behind, last_of, StepOfLeg, StepOfWay, TurnTests, IsLastHit};
ghost use Rattle.replay_session.specs.Ways.{ThreadLeads, TurnsLead, LegLeads, WayLeads};

use crate::legs::Leg;
use crate::paused::{Met, Paused};
use crate::pausing::{is_step, turn_until};
use crate::test::Test;
use crate::threads::is_want_of_memory;
use replay_gate::{Break, OpenWorld, ReadLog, Replay};
use rw_objects::{Machine, ObjectSpace};
use std::alloc::Global;
use wasm_types::NoMemory;

/// A step of a way behind which a break or the test holds.
#[derive(Clone, Copy, Debug, PartialEq, Eq)]
pub struct Hit {
    /// How many steps the way has up to this one, with it.
    pub steps: u64,
    /// What holds.
    pub met: Met,
}

/// What a turn did, and the tests behind it.
#[derive(Clone, Copy, Debug, PartialEq, Eq)]
pub enum Tested {
    /// Nothing.
    Rests,
    /// A step, behind which neither a break holds nor the test.
    Steps,
    /// A step, behind which this holds.
    Hits(Met),
}

impl Tested {
    /// How many steps the turn made.
    fn steps(self) -> u64
        ensures { result ≡ steps_of_test self }
    {
        match self {
            Tested::Rests => 0,
            Tested::Steps | Tested::Hits(_) => 1,
        }
    }
}

/// The last step behind which a break or the test holds, behind a turn that was tested, before which so many steps were
/// made.
fn last_behind(last: Option<Hit>, made: u64, tested: Tested) -> Option<Hit>
    requires { made < 18446744073709551615 }
    ensures { result ≡ last_behind last made tested }
{
    match tested {
        Tested::Rests | Tested::Steps => last,
        Tested::Hits(met) => Some(Hit {
            steps: made + 1,
            met,
        }),
    }
}

/// The last step of a way behind which a break or the test holds, behind a leg of which that is known, before which the
/// way has so many steps.
fn last_of(last: Option<Hit>, before: u64, of_leg: Option<Hit>) -> Option<Hit>
    requires { IfSome of_leg (λ hit. before + hit.steps ≤ 16000000000) }
    ensures { result ≡ last_of last before of_leg }
{
    match of_leg {
        None => last,
        Some(hit) => Some(Hit {
            steps: before + hit.steps,
            met: hit.met,
        }),
    }
}

/// A turn of a thread, which passes the thread over where the turn is refused, and the tests behind it.
fn test_turn<M: Machine<S>, S: ObjectSpace, L: ReadLog, O: OpenWorld<M, S>, T: Test<M, S>>(
    alloc: Global,
    replay: &mut Replay<M, S, L, O>,
    reader: &mut L::Reader,
    thread: u32,
    breaks: &[Break],
    test: &T,
) -> Result<Tested, NoMemory>
    requires { L.reads replay.old.log reader.old }
    ensures reads { L.reads replay.new.log reader.new }
    ensures log { replay.new.log ≡ replay.old.log }
    ensures opens { replay.new.opens ≡ replay.old.opens }
    ensures tests { IfOk result (TurnTests S.meaning M.code (L.log replay.old.log) breaks.now (T.holds test.now) thread (world_of replay.old.world) (world_of replay.new.world)) }
{
    match turn_until(alloc, replay, reader, thread, breaks, test) {
        Ok(taken) => {
            if is_step(taken) {
                Ok(Tested::Steps)
            } else {
                Ok(Tested::Rests)
            }
        }
        Err(Paused::Met(met)) => Ok(Tested::Hits(met)),
        Err(Paused::Fault(fault)) => {
            if is_want_of_memory(fault) {
                Err(NoMemory)
            } else {
                Ok(Tested::Rests)
            }
        }
        Err(Paused::Finished | Paused::Stuck) => unreachable!(),
    }
}

/// Goes a leg of one thread that leads somewhere, and answers its last step behind which a break or the test
/// holds.
fn test_thread<M: Machine<S>, S: ObjectSpace, L: ReadLog, O: OpenWorld<M, S>, T: Test<M, S>>(
    alloc: Global,
    replay: &mut Replay<M, S, L, O>,
    thread: u32,
    steps: u64,
    breaks: &[Break],
    test: &T,
) -> Result<Option<Hit>, NoMemory>
    requires { ∥ ((v : WorldAt M.State S.Value S.Fixed) × ThreadLeads S.meaning M.code (L.log replay.old.log) thread steps (world_of replay.old.world) v) ∥₁ }
    ensures log { replay.new.log ≡ replay.old.log }
    ensures opens { replay.new.opens ≡ replay.old.opens }
    ensures leads { OnOk result (ThreadLeads S.meaning M.code (L.log replay.old.log) thread steps (world_of replay.old.world) (world_of replay.new.world)) }
    ensures last { IfOk result (IsLastHit S.meaning M.code (L.log replay.old.log) breaks.now (T.holds test.now) (StepOfLeg S.meaning M.code (L.log replay.old.log) (leg.Thread thread steps) (world_of replay.old.world)) steps) }
{
    let mut reader = replay.reader();
    let mut last = None;
    for made in 0..steps {
        let tested = test_turn(alloc, replay, &mut reader, thread, breaks, test)?;
        last = last_behind(last, made, tested);
    }
    Ok(last)
}

/// Goes a leg of rounds that leads somewhere, and answers its last step behind which a break or the test
/// holds.
fn test_rounds<M: Machine<S>, S: ObjectSpace, L: ReadLog, O: OpenWorld<M, S>, T: Test<M, S>>(
    alloc: Global,
    replay: &mut Replay<M, S, L, O>,
    steps: u64,
    breaks: &[Break],
    test: &T,
) -> Result<Option<Hit>, NoMemory>
    requires { ∥ ((v : WorldAt M.State S.Value S.Fixed) × TurnsLead S.meaning M.code (L.log replay.old.log) steps (world_of replay.old.world) v) ∥₁ }
    ensures log { replay.new.log ≡ replay.old.log }
    ensures opens { replay.new.opens ≡ replay.old.opens }
    ensures leads { OnOk result (TurnsLead S.meaning M.code (L.log replay.old.log) steps (world_of replay.old.world) (world_of replay.new.world)) }
    ensures last { IfOk result (IsLastHit S.meaning M.code (L.log replay.old.log) breaks.now (T.holds test.now) (StepOfLeg S.meaning M.code (L.log replay.old.log) (leg.Rounds steps) (world_of replay.old.world)) steps) }
{
    let mut reader = replay.reader();
    let count = replay.world().count() as u32;
    let mut last = None;
    let mut made: u64 = 0;
    let mut before: u64 = 0;
    let mut next: u32 = 0;
    while made < steps {
        if next < count {
            let tested = test_turn(alloc, replay, &mut reader, next, breaks, test)?;
            last = last_behind(last, made, tested);
            made += tested.steps();
            next += 1;
        } else if before < made {
            before = made;
            next = 0;
        } else {
            unreachable!()
        }
    }
    Ok(last)
}

/// Goes a leg that leads somewhere, and answers its last step behind which a break or the test
/// holds.
fn test_leg<M: Machine<S>, S: ObjectSpace, L: ReadLog, O: OpenWorld<M, S>, T: Test<M, S>>(
    alloc: Global,
    replay: &mut Replay<M, S, L, O>,
    leg: Leg,
    breaks: &[Break],
    test: &T,
) -> Result<Option<Hit>, NoMemory>
    requires { ∥ ((v : WorldAt M.State S.Value S.Fixed) × LegLeads S.meaning M.code (L.log replay.old.log) leg (world_of replay.old.world) v) ∥₁ }
    ensures log { replay.new.log ≡ replay.old.log }
    ensures opens { replay.new.opens ≡ replay.old.opens }
    ensures leads { OnOk result (LegLeads S.meaning M.code (L.log replay.old.log) leg (world_of replay.old.world) (world_of replay.new.world)) }
    ensures last { IfOk result (IsLastHit S.meaning M.code (L.log replay.old.log) breaks.now (T.holds test.now) (StepOfLeg S.meaning M.code (L.log replay.old.log) leg (world_of replay.old.world)) (steps_of_leg leg)) }
{
    match leg {
        Leg::Thread { thread, steps } => test_thread(alloc, replay, thread, steps, breaks, test),
        Leg::Rounds { steps } => test_rounds(alloc, replay, steps, breaks, test),
    }
}

/// Goes a way that leads somewhere, and answers its last step behind which a break or the test
/// holds.
pub(crate) fn last_hit<
    M: Machine<S>,
    S: ObjectSpace,
    L: ReadLog,
    O: OpenWorld<M, S>,
    T: Test<M, S>,
>(
    alloc: Global,
    replay: &mut Replay<M, S, L, O>,
    legs: &[Leg],
    breaks: &[Break],
    test: &T,
) -> Result<Option<Hit>, NoMemory>
    requires leads { ∥ ((v : WorldAt M.State S.Value S.Fixed) × WayLeads S.meaning M.code (L.log replay.old.log) legs.now (world_of replay.old.world) v) ∥₁ }
    requires few { steps_of_way legs.now ≤ 16000000000 }
    ensures { IfOk result (IsLastHit S.meaning M.code (L.log replay.old.log) breaks.now (T.holds test.now) (StepOfWay S.meaning M.code (L.log replay.old.log) legs.now (world_of replay.old.world)) (steps_of_way legs.now)) }
{
    let mut last = None;
    let mut before: u64 = 0;
    for leg in legs {
        let of_leg = test_leg(alloc, replay, *leg, breaks, test)?;
        last = last_of(last, before, of_leg);
        before += leg.steps();
    }
    Ok(last)
}
