//! Replay up to a break.

ghost use Rattle.std.specs.Prelude.{ℕ, ◌≡◌, ◌<◌, ◌||◌, None, Some, IfSome, IfOk, IfErr, slice_get};
ghost use Rattle.event_core.specs.World.{WorldAt, world_of};
ghost use Rattle.replay_gate.specs.Shows.{ShowsRecorded};
ghost use Rattle.replay_laws.specs.Ordered.{ordered_world};
ghost use Rattle.replay_gate.specs.Tests.{holds_by, is_answer, IsFirst, HoldsNone};
ghost use Rattle.replay_gate.specs.Free.{AreFree};
ghost use Rattle.replay_gate.specs.Going.{GoesOnBy};
ghost use Rattle.replay_gate.specs.Known.{AreKnown};
ghost use Rattle.replay_gate.specs.declared.known.Known.TheVariants as known;
ghost use Rattle.replay_gate.specs.Notes.{HasNoted, HasNotedTurns, noted_at, noted_if, event_note, note_of_turn};
ghost use Rattle.replay_gate.specs.Stops.{is_step, is_held, is_passed_over, is_done, TurnTakes, TurnStopsAt, StopsAt, StopsRight, StopsFree};

use crate::ahead::go_ahead;
use crate::breaks::{Break, Stopped};
use crate::free::{free_steps, goes_freely};
use crate::known::{Known, KnownTurns, all_known_later, known_turn};
use crate::marks::{Marks, marks_of, marks_of_item};
use crate::pace::Pace;
use crate::watch::{Nobody, Watch};
use crate::{OpenWorld, ReadLog, Ready, Replay, ReplayFault, Turned};
use event_core::World;
use rw_objects::{Machine, ObjectSpace};
use std::alloc::Global;

/// What a turn did that stops no run.
#[derive(Clone, Copy, Debug, PartialEq, Eq)]
pub enum Taken {
    /// Nothing: the thread stands at its logged end, or there is none of that number.
    Done,
    /// Nothing: the log does not let its next step pass, or does not know it.
    Held,
    /// A step, behind which no break holds.
    Step,
}

impl Taken {
    fn is_step(self) -> bool
        ensures { result ≡ is_step self }
    {
        match self {
            Taken::Done | Taken::Held => false,
            Taken::Step => true,
        }
    }

    fn is_held(self) -> bool
        ensures { result ≡ is_held self }
    {
        match self {
            Taken::Done | Taken::Step => false,
            Taken::Held => true,
        }
    }
}

fn either(a: bool, b: bool) -> bool
    ensures { result ≡ (a || b) }
{
    a || b
}

/// Whether a turn that was refused so stops no run.
fn is_passed_over(fault: ReplayFault) -> bool
    ensures { result ≡ is_passed_over fault }
{
    match fault {
        ReplayFault::Missing { .. } | ReplayFault::Clash { .. } | ReplayFault::Shut => true,
        ReplayFault::Diverged { .. } | ReplayFault::NoMemory | ReplayFault::Stuck => false,
    }
}

/// Whether a turn that was not refused made no step.
fn is_done(turned: Turned) -> bool
    ensures { result ≡ is_done turned }
{
    match turned {
        Turned::Done => true,
        Turned::Local | Turned::Event => false,
    }
}

/// Whether a break holds behind a turn of a thread that made a step.
fn holds<M: Machine<S>, S: ObjectSpace>(
    one: Break,
    thread: u32,
    turned: Turned,
    marks: &Marks,
    world: &World<M, S>,
) -> bool
    ensures { result ≡ holds_by M.code one thread turned marks.now (world_of world.now) }
{
    match one {
        Break::Place { thread: of, place } => {
            thread == of && turned == Turned::Event && world.places(thread) == Some(place)
        }
        Break::Step { thread: of, steps } => { thread == of && world.steps(thread) == Some(steps) }
        Break::Write(objects) => marks.are_rewritten(world.versions(), &objects),
    }
}

/// The first break of the list that holds behind a turn of a thread that made a step.
fn first_that_holds<M: Machine<S>, S: ObjectSpace>(
    breaks: &[Break],
    thread: u32,
    turned: Turned,
    marks: &Marks,
    world: &World<M, S>,
) -> Option<usize>
    ensures some { IfSome result (λ index. IsFirst M.code breaks.now thread turned marks.now (world_of world.now) index) }
    ensures none { result ≡ None → HoldsNone M.code breaks.now thread turned marks.now (world_of world.now) }
{
    for (index, one) in breaks.iter().enumerate() {
        if holds(*one, thread, turned, marks, world) {
            return Some(index);
        }
    }
    None
}

/// Lets a turn that was made be noted, where it was an event.
fn note_turn<M: Machine<S>, S: ObjectSpace, W: Watch<M, S>>(
    watch: &mut W,
    turned: Turned,
    world: &World<M, S>,
    thread: u32,
)
    ensures { (w : WorldAt M.State S.Value S.Fixed) → W.looked watch.old w thread → HasNoted W.asked W.whole W.notes watch.old watch.new (event_note (is_answer turned) (W.note (W.asked watch.old) w thread (world_of world.now))) }
{
    match turned {
        Turned::Event => watch.take_note(world, thread),
        Turned::Local | Turned::Done => {}
    }
}

/// A turn of a thread, and the test of the breaks behind its step.
fn take_turn<M: Machine<S>, S: ObjectSpace, L: ReadLog, O: OpenWorld<M, S>, W: Watch<M, S>>(
    alloc: Global,
    replay: &mut Replay<M, S, L, O>,
    reader: &mut L::Reader,
    thread: u32,
    breaks: &[Break],
    watch: &mut W,
) -> Result<Taken, Stopped>
    requires { L.reads replay.old.log reader.old }
    ensures reads { L.reads replay.new.log reader.new }
    ensures log { replay.new.log ≡ replay.old.log }
    ensures opens { replay.new.opens ≡ replay.old.opens }
    ensures takes { IfOk result (TurnTakes S.meaning M.code (L.log replay.old.log) (world_of replay.old.world) thread breaks.now (world_of replay.new.world)) }
    ensures stops { IfErr result (TurnStopsAt S.meaning M.code (L.log replay.old.log) (world_of replay.old.world) thread breaks.now (world_of replay.new.world)) }
    ensures noted { IfOk result (λ taken. HasNoted W.asked W.whole W.notes watch.old watch.new (note_of_turn S.meaning M.code (W.note (W.asked watch.old)) (L.log replay.old.log) (world_of replay.old.world) thread)) }
    ensures stopped { IfErr result (λ stopped. HasNoted W.asked W.whole W.notes watch.old watch.new (noted_at stopped (note_of_turn S.meaning M.code (W.note (W.asked watch.old)) (L.log replay.old.log) (world_of replay.old.world) thread))) }
{
    watch.look(replay.world(), thread);
    let marks = marks_of(alloc, replay.world(), thread);
    match replay.turn_by(alloc, reader, thread) {
        Err(fault) => {
            if is_passed_over(fault) {
                Ok(Taken::Held)
            } else {
                Err(Stopped::Fault(fault))
            }
        }
        Ok(turned) => {
            if is_done(turned) {
                Ok(Taken::Done)
            } else {
                note_turn(watch, turned, replay.world(), thread);
                match first_that_holds(breaks, thread, turned, &marks, replay.world()) {
                    Some(index) => Err(Stopped::Break(index)),
                    None => Ok(Taken::Step),
                }
            }
        }
    }
}

/// A turn of a thread, and the test of the breaks behind its step: what it did where no break holds, else which one
/// holds. Nobody watches.
pub fn turn_to<M: Machine<S>, S: ObjectSpace, L: ReadLog, O: OpenWorld<M, S>>(
    alloc: Global,
    replay: &mut Replay<M, S, L, O>,
    reader: &mut L::Reader,
    thread: u32,
    breaks: &[Break],
) -> Result<Taken, Stopped>
    requires { L.reads replay.old.log reader.old }
    ensures reads { L.reads replay.new.log reader.new }
    ensures log { replay.new.log ≡ replay.old.log }
    ensures opens { replay.new.opens ≡ replay.old.opens }
    ensures takes { IfOk result (TurnTakes S.meaning M.code (L.log replay.old.log) (world_of replay.old.world) thread breaks.now (world_of replay.new.world)) }
    ensures stops { IfErr result (TurnStopsAt S.meaning M.code (L.log replay.old.log) (world_of replay.old.world) thread breaks.now (world_of replay.new.world)) }
{
    take_turn(alloc, replay, reader, thread, breaks, &mut Nobody)
}

/// Makes the step by which a thread goes on, where one is free and the log lets it pass, and tests the breaks behind
/// it. Behind a free local step none holds.
#[inline(always)]
fn go_on<M: Machine<S>, S: ObjectSpace, L: ReadLog, O: OpenWorld<M, S>, W: Watch<M, S>>(
    alloc: Global,
    replay: &mut Replay<M, S, L, O>,
    reader: &mut L::Reader,
    thread: u32,
    breaks: &[Break],
    free: &mut [u32; 16],
    watch: &mut W,
) -> Result<Ready, Stopped>
    requires reads { L.reads replay.old.log reader.old }
    requires few { thread < 16 }
    requires free { AreFree M.code (L.log replay.old.log) (world_of replay.old.world) breaks.now free.old }
    ensures reads { L.reads replay.new.log reader.new }
    ensures log { replay.new.log ≡ replay.old.log }
    ensures opens { replay.new.opens ≡ replay.old.opens }
    ensures goes { IfOk result (λ ready. GoesOnBy S.meaning M.code (L.log replay.old.log) breaks.now thread (world_of replay.old.world) ready (world_of replay.new.world)) }
    ensures free { IfOk result (λ ready. AreFree M.code (L.log replay.old.log) (world_of replay.new.world) breaks.now free.new) }
    ensures stops { IfErr result (TurnStopsAt S.meaning M.code (L.log replay.old.log) (world_of replay.old.world) thread breaks.now (world_of replay.new.world)) }
    ensures noted { IfOk result (λ ready. HasNoted W.asked W.whole W.notes watch.old watch.new (noted_if ready (note_of_turn S.meaning M.code (W.note (W.asked watch.old)) (L.log replay.old.log) (world_of replay.old.world) thread))) }
    ensures stopped { IfErr result (λ stopped. HasNoted W.asked W.whole W.notes watch.old watch.new (noted_at stopped (note_of_turn S.meaning M.code (W.note (W.asked watch.old)) (L.log replay.old.log) (world_of replay.old.world) thread))) }
{
    watch.look(replay.world(), thread);
    match goes_freely(replay, reader, thread, breaks, free) {
        Err(_) => Err(Stopped::Fault(ReplayFault::NoMemory)),
        Ok(Ready::Local) => Ok(Ready::Local),
        Ok(Ready::Not) => Ok(Ready::Not),
        Ok(Ready::Event) => {
            watch.take_note(replay.world(), thread);
            if breaks.is_empty() {
                return Ok(Ready::Event);
            }
            let marks = marks_of_item(alloc, L::held(reader, thread));
            match first_that_holds(breaks, thread, Turned::Event, &marks, replay.world()) {
                Some(index) => Err(Stopped::Break(index)),
                None => Ok(Ready::Event),
            }
        }
    }
}

/// A turn of a thread of which nothing is known, and the test of the breaks behind its step. It notes how many steps
/// of the thread are free, or that it rests.
#[inline(never)]
fn turn_slowly<M: Machine<S>, S: ObjectSpace, L: ReadLog, O: OpenWorld<M, S>, W: Watch<M, S>>(
    alloc: Global,
    replay: &mut Replay<M, S, L, O>,
    reader: &mut L::Reader,
    thread: u32,
    breaks: &[Break],
    turns: &mut KnownTurns,
    watch: &mut W,
) -> Result<Taken, Stopped>
    requires reads { L.reads replay.old.log reader.old }
    requires few { thread < 16 }
    requires free { AreFree M.code (L.log replay.old.log) (world_of replay.old.world) breaks.now turns.old.free }
    requires known { AreKnown S.meaning M.code (L.log replay.old.log) (world_of replay.old.world) turns.old.all }
    requires nothing { slice_get turns.old.all thread ≡ Some known.Nothing }
    ensures reads { L.reads replay.new.log reader.new }
    ensures log { replay.new.log ≡ replay.old.log }
    ensures opens { replay.new.opens ≡ replay.old.opens }
    ensures takes { IfOk result (TurnTakes S.meaning M.code (L.log replay.old.log) (world_of replay.old.world) thread breaks.now (world_of replay.new.world)) }
    ensures free { IfOk result (λ taken. AreFree M.code (L.log replay.old.log) (world_of replay.new.world) breaks.now turns.new.free) }
    ensures known { IfOk result (λ taken. AreKnown S.meaning M.code (L.log replay.old.log) (world_of replay.new.world) turns.new.all) }
    ensures stops { IfErr result (TurnStopsAt S.meaning M.code (L.log replay.old.log) (world_of replay.old.world) thread breaks.now (world_of replay.new.world)) }
    ensures noted { IfOk result (λ taken. HasNoted W.asked W.whole W.notes watch.old watch.new (note_of_turn S.meaning M.code (W.note (W.asked watch.old)) (L.log replay.old.log) (world_of replay.old.world) thread)) }
    ensures stopped { IfErr result (λ stopped. HasNoted W.asked W.whole W.notes watch.old watch.new (noted_at stopped (note_of_turn S.meaning M.code (W.note (W.asked watch.old)) (L.log replay.old.log) (world_of replay.old.world) thread))) }
{
    let at = thread as usize;
    match take_turn(alloc, replay, reader, thread, breaks, watch) {
        Err(stopped) => Err(stopped),
        Ok(Taken::Step) => {
            turns.free[at] = free_steps(replay, thread, breaks);
            all_known_later(&mut turns.all);
            Ok(Taken::Step)
        }
        Ok(Taken::Done) => {
            turns.all[at] = Known::Rests(Taken::Done);
            Ok(Taken::Done)
        }
        Ok(Taken::Held) => {
            turns.all[at] = Known::Rests(Taken::Held);
            Ok(Taken::Held)
        }
    }
}

/// A turn of a thread, and the test of the breaks behind its step. Where the thread is known to rest it is not asked
/// again before another thread went on, and then its gate alone. There is no thread past the sixteenth.
#[inline(always)]
fn turn_on<M: Machine<S>, S: ObjectSpace, L: ReadLog, O: OpenWorld<M, S>, W: Watch<M, S>>(
    alloc: Global,
    replay: &mut Replay<M, S, L, O>,
    reader: &mut L::Reader,
    thread: u32,
    breaks: &[Break],
    turns: &mut KnownTurns,
    watch: &mut W,
) -> Result<Taken, Stopped>
    requires reads { L.reads replay.old.log reader.old }
    requires free { AreFree M.code (L.log replay.old.log) (world_of replay.old.world) breaks.now turns.old.free }
    requires known { AreKnown S.meaning M.code (L.log replay.old.log) (world_of replay.old.world) turns.old.all }
    ensures reads { L.reads replay.new.log reader.new }
    ensures log { replay.new.log ≡ replay.old.log }
    ensures opens { replay.new.opens ≡ replay.old.opens }
    ensures takes { IfOk result (TurnTakes S.meaning M.code (L.log replay.old.log) (world_of replay.old.world) thread breaks.now (world_of replay.new.world)) }
    ensures free { IfOk result (λ taken. AreFree M.code (L.log replay.old.log) (world_of replay.new.world) breaks.now turns.new.free) }
    ensures known { IfOk result (λ taken. AreKnown S.meaning M.code (L.log replay.old.log) (world_of replay.new.world) turns.new.all) }
    ensures stops { IfErr result (TurnStopsAt S.meaning M.code (L.log replay.old.log) (world_of replay.old.world) thread breaks.now (world_of replay.new.world)) }
    ensures noted { IfOk result (λ taken. HasNoted W.asked W.whole W.notes watch.old watch.new (note_of_turn S.meaning M.code (W.note (W.asked watch.old)) (L.log replay.old.log) (world_of replay.old.world) thread)) }
    ensures stopped { IfErr result (λ stopped. HasNoted W.asked W.whole W.notes watch.old watch.new (noted_at stopped (note_of_turn S.meaning M.code (W.note (W.asked watch.old)) (L.log replay.old.log) (world_of replay.old.world) thread))) }
{
    if thread >= 16 {
        return Ok(Taken::Done);
    }
    match known_turn(replay, reader, thread, &mut turns.all) {
        Some(taken) => Ok(taken),
        None => match go_on(
            alloc,
            replay,
            reader,
            thread,
            breaks,
            &mut turns.free,
            watch,
        ) {
            Err(stopped) => Err(stopped),
            Ok(Ready::Local) => Ok(Taken::Step),
            Ok(Ready::Event) => {
                all_known_later(&mut turns.all);
                Ok(Taken::Step)
            }
            Ok(Ready::Not) => turn_slowly(alloc, replay, reader, thread, breaks, turns, watch),
        },
    }
}

/// As `run_watched`; the reader goes forward through the log.
fn run_by<M: Machine<S> + Drop, S: ObjectSpace, L: ReadLog, O: OpenWorld<M, S>, W: Watch<M, S>>(
    alloc: Global,
    replay: &mut Replay<M, S, L, O>,
    reader: &mut L::Reader,
    order: &[u32],
    breaks: &[Break],
    watch: &mut W,
) -> Stopped
    requires { L.reads replay.old.log reader.old }
    ensures log { replay.new.log ≡ replay.old.log }
    ensures opens { replay.new.opens ≡ replay.old.opens }
    ensures stops { StopsAt S.meaning M.code (L.log replay.old.log) (world_of replay.old.world) order.now breaks.now (world_of replay.new.world) result }
    ensures noted { HasNotedTurns S.meaning M.code (W.note (W.asked watch.old)) (L.log replay.old.log) (world_of replay.old.world) order.now W.asked W.whole W.notes watch.old watch.new (world_of replay.new.world) }
{
    let mut turns = KnownTurns::none();
    for thread in order {
        match turn_on(alloc, replay, reader, *thread, breaks, &mut turns, watch) {
            Ok(_) => {}
            Err(stopped) => return stopped,
        }
    }
    let count = replay.world().count() as u32;
    let mut next: u32 = 0;
    let mut made = false;
    let mut held = false;
    let mut pace = Pace::new();
    while made || next < count {
        if next < count {
            match turn_on(alloc, replay, reader, next, breaks, &mut turns, watch) {
                Ok(taken) => {
                    made = either(made, taken.is_step());
                    held = either(held, taken.is_held());
                }
                Err(stopped) => return stopped,
            }
            next += 1;
        } else {
            pace = go_ahead(alloc, replay, breaks, pace, &mut turns);
            next = 0;
            made = false;
            held = false;
        }
    }
    if held {
        Stopped::Stuck
    } else {
        Stopped::Finished
    }
}

/// Takes turns of a replay up to a break: a turn for each thread of the order, then rounds of threads 0, 1, .., until
/// a break holds behind a turn that made a step, no thread has a step any more, or a turn is refused for divergence
/// or want of memory. Rounds of local steps, behind which no break can hold, are made many at a time; elsewhere a
/// step is free where its thread has steps left to its logged end and no break at its steps comes with it. A thread
/// that rests is asked again only behind steps of others, and then its gate alone. One reader goes forward through
/// the log. Threads that are done, that the log does not let pass, or of which it does not know are passed over. The
/// replay can go on from there. On a log below that of a run no thread diverges; on the whole log of a run it is
/// never stuck.
/// Who watches looks at each thread before its turn, and notes each event behind it.
pub fn run_watched<
    M: Machine<S> + Drop,
    S: ObjectSpace,
    L: ReadLog,
    O: OpenWorld<M, S>,
    W: Watch<M, S>,
>(
    alloc: Global,
    replay: &mut Replay<M, S, L, O>,
    order: &[u32],
    breaks: &[Break],
    watch: &mut W,
) -> Stopped
    ensures log { replay.new.log ≡ replay.old.log }
    ensures opens { replay.new.opens ≡ replay.old.opens }
    ensures stops { StopsAt S.meaning M.code (L.log replay.old.log) (world_of replay.old.world) order.now breaks.now (world_of replay.new.world) result }
    ensures right { StopsRight S.meaning M.code (L.log replay.old.log) (O.opened replay.old.opens) result }
    ensures free { StopsFree S.meaning M.code (L.log replay.old.log) (O.opened replay.old.opens) result }
    ensures noted { HasNotedTurns S.meaning M.code (W.note (W.asked watch.old)) (L.log replay.old.log) (world_of replay.old.world) order.now W.asked W.whole W.notes watch.old watch.new (world_of replay.new.world) }
    // Each world on the way shows recorded values alone.
    ensures way { (k : ℕ) → ShowsRecorded S.meaning M.code (L.log replay.old.log) (O.opened replay.old.opens) (ordered_world S.meaning M.code (L.log replay.old.log) (world_of replay.old.world) order.now k) }
{
    let mut reader = replay.reader();
    run_by(alloc, replay, &mut reader, order, breaks, watch)
}

/// As `run_watched`, where nobody watches.
pub fn run_to<M: Machine<S> + Drop, S: ObjectSpace, L: ReadLog, O: OpenWorld<M, S>>(
    alloc: Global,
    replay: &mut Replay<M, S, L, O>,
    order: &[u32],
    breaks: &[Break],
) -> Stopped
    ensures log { replay.new.log ≡ replay.old.log }
    ensures opens { replay.new.opens ≡ replay.old.opens }
    ensures stops { StopsAt S.meaning M.code (L.log replay.old.log) (world_of replay.old.world) order.now breaks.now (world_of replay.new.world) result }
    ensures right { StopsRight S.meaning M.code (L.log replay.old.log) (O.opened replay.old.opens) result }
    ensures free { StopsFree S.meaning M.code (L.log replay.old.log) (O.opened replay.old.opens) result }
{
    run_watched(alloc, replay, order, breaks, &mut Nobody)
}
