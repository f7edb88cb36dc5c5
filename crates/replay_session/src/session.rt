//! A replay that goes forward and back.

ghost use Rattle.std.specs.Prelude.{◌≡◌, ◌⊎◌, ◌<◌, ◌≤◌, ◌-◌, [], Some, IfOk, IfErr, IfNone, IfSome, OnOk, OnErr};
ghost use Rattle.std.specs.Coded.{Coded-set};
ghost use Rattle.event_core.specs.Threads.{all_steps};
ghost use Rattle.event_core.specs.World.{world_of};
ghost use Rattle.pick_schedule.specs.Printing.{AreOfThreads};
ghost use Rattle.replay_laws.specs.Turns.{turn_of, world_after_turn};
ghost use Rattle.replay_session.specs.Writers.{OneWriterEach};
ghost use Rattle.replay_gate.specs.Shows.{ShowsRecorded};
ghost use Rattle.replay_gate.specs.Turned.{answer_of_turn, TurnRefused, IsRightRefusal, IsFreeRefusal};
ghost use Rattle.replay_gate.specs.declared.answers.ReplayFault.TheVariants as ReplayFault;
ghost use Rattle.replay_gate.specs.Stops.{StopsAt, StopsRight, StopsFree};
ghost use Rattle.replay_session.specs.Events.{events_on, EventsCease};
ghost use Rattle.replay_session.specs.Gone.{steps_of_turn, CeasesSo, IfFault};
ghost use Rattle.replay_session.specs.Legs.{steps_of_way, with_thread, with_rounds, without_last};
ghost use Rattle.replay_session.specs.Pauses.{PausesAt, PausesRight, PausesFree};
ghost use Rattle.replay_session.specs.Picks.{PicksLead};
ghost use Rattle.replay_session.specs.Reaching.{is_break, GoesTo};
ghost use Rattle.replay_session.specs.Reverse.{StepOfWay, IsLastHit, GoesBackUntil};
ghost use Rattle.replay_session.specs.Until.{UntilCeases};
ghost use Rattle.replay_session.specs.Ways.{ThreadLeads, WayLeads};

use crate::events::go_events;
use crate::gone::{Gone, WITHOUT_MEMORY};
use crate::keeps::Keeps;
use crate::legs::{Leg, first_steps, steps_of_way};
use crate::paused::{Met, Paused};
use crate::pausing::rounds_until;
use crate::picks::picks_of_way;
use crate::putting::{put_steps, put_turns};
use crate::reverse::{Hit, last_hit};
use crate::run_parts::run_and_keep;
use crate::sums::steps_of_world;
use crate::test::Test;
use crate::threads::{go_thread, steps_of};
use crate::until::go_until;
use event_core::World;
use pick_schedule::{MOST_PICKS, Schedule};
use replay_gate::{Break, OpenWorld, ReadLog, Replay, ReplayFault, Stopped, Turned};
use rw_objects::{CopiedSpace, Machine, ObjectSpace};
use std::alloc::Global;
use wasm_types::NoMemory;

/// Whether a break stopped a run.
fn is_break(stopped: Stopped) -> bool
    ensures { result ≡ is_break stopped }
{
    match stopped {
        Stopped::Break(_) => true,
        Stopped::Finished | Stopped::Stuck | Stopped::Fault(_) => false,
    }
}

/// A replay, and the way that it has gone from the opening world: the world is the one to which the way leads.
#[derive(Drop)]
pub struct Session<M: Machine<S>, S: ObjectSpace, L: ReadLog, O: OpenWorld<M, S>> {
    opens: O,
    log: L,
    replay: Replay<M, S, L, O>,
    legs: Vec<Leg>,
    keeps: Keeps<M, S, L, O>,
    ghost same_log: { replay.log ≡ log } by { Coded-set L.code replay.log log },
    ghost same_opens: { replay.opens ≡ opens } by { Coded-set O.code replay.opens opens },
    ghost keeps_log: { keeps.log ≡ log } by { Coded-set L.code keeps.log log },
    ghost keeps_opens: { keeps.opens ≡ opens } by { Coded-set O.code keeps.opens opens },
    ghost leads: { ∥ WayLeads S.meaning M.code (L.log replay.log) legs.items (O.opened replay.opens) (world_of replay.world) ∥₁ },
}

impl<
    M: Machine<S>,
    S: ObjectSpace,
    L: ReadLog + Copy + Drop,
    O: OpenWorld<M, S> + Copy + Drop,
> Session<M, S, L, O> {
    /// A session before its first turn.
    pub fn new(alloc: Global, opens: &O, log: &L) -> Result<Session<M, S, L, O>, NoMemory>
        requires { O.suits opens.now }
        ensures log { IfOk result (λ session. session.replay.log ≡ log.now) }
        ensures opens { IfOk result (λ session. session.replay.opens ≡ opens.now) }
        ensures legs { IfOk result (λ session. session.legs.items ≡ []) }
        ensures world { IfOk result (λ session. world_of session.replay.world ≡ O.opened opens.now) }
    {
        let replay = Replay::new(alloc, *opens, *log)?;
        Ok(Session {
            opens: *opens,
            log: *log,
            replay,
            legs: Vec::new(alloc),
            keeps: Keeps::new(alloc, *opens, *log),
        })
    }
}

impl<M: Machine<S>, S: ObjectSpace, L: ReadLog, O: OpenWorld<M, S>> Session<M, S, L, O> {
    /// The world at which it stands, to which its way leads from the opening world. On a log below that of a run, its
    /// values and threads are recorded ones alone. Each version of an object was written by one of the events made at
    /// most.
    pub fn world(&self) -> &World<M, S>
        ensures same { result.now ≡ self.now.replay.world }
        ensures recorded { ShowsRecorded S.meaning M.code (L.log self.now.replay.log) (O.opened self.now.replay.opens) (world_of result.now) }
        ensures led { ∥ WayLeads S.meaning M.code (L.log self.now.replay.log) self.now.legs.items (O.opened self.now.replay.opens) (world_of result.now) ∥₁ }
        ensures one_writer { OneWriterEach (L.log self.now.replay.log) (world_of result.now) }
    {
        self.replay.world()
    }

    /// The log that it follows.
    pub fn log(&self) -> &L
        ensures { result.now ≡ self.now.replay.log }
    {
        &self.log
    }

    /// The way that it has gone.
    pub fn legs(&self) -> &[Leg]
        ensures { result.now ≡ self.now.legs.items }
    {
        self.legs.as_slice()
    }

    /// How many steps its way has.
    fn steps(&self) -> u64
        ensures { result ≡ steps_of_way self.now.legs.items }
    {
        steps_of_way(self.legs.as_slice())
    }

    /// Its way without so many of its last steps.
    fn without_last(&self, alloc: Global, steps: u64) -> Result<Vec<Leg>, NoMemory>
        ensures legs { IfOk result (λ legs. legs.items ≡ without_last steps self.now.legs.items) }
    {
        first_steps(
            alloc,
            self.legs.as_slice(),
            self.steps().saturating_sub(steps),
        )
    }

    /// A turn of a thread: its next step, where the log lets it pass, by which the way goes on. A refusal leaves all as
    /// it was. On a log below that of a run nothing clashes and no thread diverges; on the whole log of a run it is
    /// refused by a shut gate alone.
    pub fn turn(&mut self, alloc: Global, thread: u32) -> Result<Turned, ReplayFault>
        ensures log { self.new.replay.log ≡ self.old.replay.log }
        ensures opens { self.new.replay.opens ≡ self.old.replay.opens }
        ensures ok { IfOk result (λ turned. answer_of_turn (turn_of S.meaning M.code (L.log self.old.replay.log) (world_of self.old.replay.world) thread) ≡ Some turned) }
        ensures world { OnOk result (world_of self.new.replay.world ≡ world_after_turn S.meaning M.code (world_of self.old.replay.world) thread (turn_of S.meaning M.code (L.log self.old.replay.log) (world_of self.old.replay.world) thread)) }
        ensures legs { OnOk result (self.new.legs.items ≡ with_thread self.old.legs.items thread (steps_of_turn (turn_of S.meaning M.code (L.log self.old.replay.log) (world_of self.old.replay.world) thread))) }
        ensures refused { IfErr result (λ f. (f ≡ ReplayFault.NoMemory) ⊎ TurnRefused S.meaning M.code (L.log self.old.replay.log) (world_of self.old.replay.world) thread f) }
        ensures right { IfErr result (IsRightRefusal S.meaning M.code (L.log self.old.replay.log) (O.opened self.old.replay.opens)) }
        ensures free { IfErr result (IsFreeRefusal S.meaning M.code (L.log self.old.replay.log) (O.opened self.old.replay.opens)) }
        ensures unchanged { OnErr result (world_of self.new.replay.world ≡ world_of self.old.replay.world) }
        ensures kept { OnErr result (self.new.legs.items ≡ self.old.legs.items) }
    {
        let Ok(()) = self.legs.reserve(1) else {
            return Err(ReplayFault::NoMemory);
        };
        let turned = self.replay.turn(alloc, thread)?;
        put_steps(&mut self.legs, &self.replay, thread, steps_of(turned));
        Ok(turned)
    }

    /// Turns of a thread, one behind the other, until so many steps were made, or a turn makes none: the thread is
    /// done, or the turn is refused. The way goes on by the steps that were made. On a log below that of a run nothing
    /// clashes and no thread diverges; on the whole log of a run a turn is refused by a shut gate alone.
    pub fn thread_steps(&mut self, alloc: Global, thread: u32, most: u64) -> Gone
        ensures log { self.new.replay.log ≡ self.old.replay.log }
        ensures opens { self.new.replay.opens ≡ self.old.replay.opens }
        ensures few { result.steps ≤ most }
        ensures leads { ThreadLeads S.meaning M.code (L.log self.old.replay.log) thread result.steps (world_of self.old.replay.world) (world_of self.new.replay.world) }
        ensures legs { self.new.legs.items ≡ with_thread self.old.legs.items thread result.steps }
        ensures ceased { CeasesSo S.meaning M.code (L.log self.old.replay.log) thread result.steps most (world_of self.new.replay.world) result.ceased }
        ensures right { IfFault result.ceased (IsRightRefusal S.meaning M.code (L.log self.old.replay.log) (O.opened self.old.replay.opens)) }
        ensures free { IfFault result.ceased (IsFreeRefusal S.meaning M.code (L.log self.old.replay.log) (O.opened self.old.replay.opens)) }
    {
        let Ok(()) = self.legs.reserve(1) else {
            return WITHOUT_MEMORY;
        };
        let gone = go_thread(alloc, &mut self.replay, thread, most);
        put_steps(&mut self.legs, &self.replay, thread, gone.steps);
        gone
    }

    /// Turns of a thread, one behind the other, until so many events were made, or a turn makes no step: the thread is
    /// done, or the turn is refused. The last step is an event where all were made. The way goes on by the steps that
    /// were made. On a log below that of a run nothing clashes and no thread diverges; on the whole log of a run a turn
    /// is refused by a shut gate alone.
    pub fn thread_events(&mut self, alloc: Global, thread: u32, most: u32) -> Gone
        ensures log { self.new.replay.log ≡ self.old.replay.log }
        ensures opens { self.new.replay.opens ≡ self.old.replay.opens }
        ensures few { events_on S.meaning M.code (L.log self.old.replay.log) thread (world_of self.old.replay.world) result.steps ≤ most }
        ensures leads { ThreadLeads S.meaning M.code (L.log self.old.replay.log) thread result.steps (world_of self.old.replay.world) (world_of self.new.replay.world) }
        ensures legs { self.new.legs.items ≡ with_thread self.old.legs.items thread result.steps }
        ensures ceased { EventsCease S.meaning M.code (L.log self.old.replay.log) thread result.steps most (world_of self.old.replay.world) (world_of self.new.replay.world) result.ceased }
        ensures right { IfFault result.ceased (IsRightRefusal S.meaning M.code (L.log self.old.replay.log) (O.opened self.old.replay.opens)) }
        ensures free { IfFault result.ceased (IsFreeRefusal S.meaning M.code (L.log self.old.replay.log) (O.opened self.old.replay.opens)) }
    {
        let Ok(()) = self.legs.reserve(1) else {
            return WITHOUT_MEMORY;
        };
        let gone = go_events(alloc, &mut self.replay, thread, most);
        put_steps(&mut self.legs, &self.replay, thread, gone.steps);
        gone
    }

    /// Turns of a thread, one behind the other, until the test holds behind a step, or a turn makes no step: the thread
    /// is done, or the turn is refused. The world at the beginning is not tested. The way goes on by the steps that
    /// were made. On a log below that of a run nothing clashes and no thread diverges; on the whole log of a run a turn
    /// is refused by a shut gate alone.
    pub fn thread_until<T: Test<M, S>>(&mut self, alloc: Global, thread: u32, test: &T) -> Gone
        ensures log { self.new.replay.log ≡ self.old.replay.log }
        ensures opens { self.new.replay.opens ≡ self.old.replay.opens }
        ensures leads { ThreadLeads S.meaning M.code (L.log self.old.replay.log) thread result.steps (world_of self.old.replay.world) (world_of self.new.replay.world) }
        ensures legs { self.new.legs.items ≡ with_thread self.old.legs.items thread result.steps }
        ensures ceased { UntilCeases S.meaning M.code (L.log self.old.replay.log) (T.holds test.now) thread result.steps (world_of self.old.replay.world) (world_of self.new.replay.world) result.ceased }
        ensures right { IfFault result.ceased (IsRightRefusal S.meaning M.code (L.log self.old.replay.log) (O.opened self.old.replay.opens)) }
        ensures free { IfFault result.ceased (IsFreeRefusal S.meaning M.code (L.log self.old.replay.log) (O.opened self.old.replay.opens)) }
    {
        let Ok(()) = self.legs.reserve(1) else {
            return WITHOUT_MEMORY;
        };
        let gone = go_until(alloc, &mut self.replay, thread, test);
        put_steps(&mut self.legs, &self.replay, thread, gone.steps);
        gone
    }

    /// Takes turns of threads 0, 1, .. in rounds, one by one, until behind a step a break of the list or the test
    /// holds, no thread has a step any more, or a turn is refused for divergence or want of memory. The way goes on by
    /// the steps that all threads made. Where the test never holds it pauses where `run_on` stops. On a log below that
    /// of a run no thread diverges; on the whole log of a run it is never stuck.
    pub fn run_until<T: Test<M, S>>(
        &mut self,
        alloc: Global,
        breaks: &[Break],
        test: &T,
    ) -> Result<Paused, NoMemory>
        ensures log { self.new.replay.log ≡ self.old.replay.log }
        ensures opens { self.new.replay.opens ≡ self.old.replay.opens }
        ensures pauses { IfOk result (PausesAt S.meaning M.code (L.log self.old.replay.log) breaks.now (T.holds test.now) (world_of self.old.replay.world) (world_of self.new.replay.world)) }
        ensures right { IfOk result (PausesRight S.meaning M.code (L.log self.old.replay.log) (O.opened self.old.replay.opens)) }
        ensures free { IfOk result (PausesFree S.meaning M.code (L.log self.old.replay.log) (O.opened self.old.replay.opens)) }
        ensures legs { OnOk result (self.new.legs.items ≡ with_rounds self.old.legs.items (all_steps M.code (world_of self.new.replay.world).threads - all_steps M.code (world_of self.old.replay.world).threads)) }
        ensures unchanged { OnErr result (world_of self.new.replay.world ≡ world_of self.old.replay.world) }
        ensures kept { OnErr result (self.new.legs.items ≡ self.old.legs.items) }
    {
        self.legs.reserve(1)?;
        let before = steps_of_world(self.replay.world());
        let paused = rounds_until(alloc, &mut self.replay, breaks, test);
        put_turns(&mut self.legs, &self.replay, before);
        Ok(paused)
    }
}

impl<
    M: Machine<S> + Drop,
    S: CopiedSpace + Drop,
    L: ReadLog + Copy + Drop,
    O: OpenWorld<M, S> + Copy + Drop,
> Session<M, S, L, O> {
    /// Goes on up to a break, as `run_to` does by no order, and keeps worlds on the way. The way goes on by the steps that
    /// all threads made.
    pub fn run_on(&mut self, alloc: Global, breaks: &[Break]) -> Result<Stopped, NoMemory>
        ensures log { self.new.replay.log ≡ self.old.replay.log }
        ensures opens { self.new.replay.opens ≡ self.old.replay.opens }
        ensures stops { IfOk result (λ stopped. StopsAt S.meaning M.code (L.log self.old.replay.log) (world_of self.old.replay.world) [] breaks.now (world_of self.new.replay.world) stopped) }
        ensures right { IfOk result (StopsRight S.meaning M.code (L.log self.old.replay.log) (O.opened self.old.replay.opens)) }
        ensures free { IfOk result (StopsFree S.meaning M.code (L.log self.old.replay.log) (O.opened self.old.replay.opens)) }
        ensures legs { OnOk result (self.new.legs.items ≡ with_rounds self.old.legs.items (all_steps M.code (world_of self.new.replay.world).threads - all_steps M.code (world_of self.old.replay.world).threads)) }
        ensures unchanged { OnErr result (world_of self.new.replay.world ≡ world_of self.old.replay.world) }
        ensures kept { OnErr result (self.new.legs.items ≡ self.old.legs.items) }
    {
        self.legs.reserve(1)?;
        let before = steps_of_world(self.replay.world());
        let stopped = run_and_keep(
            alloc,
            &mut self.replay,
            &mut self.keeps,
            self.legs.as_slice(),
            breaks,
        );
        put_turns(&mut self.legs, &self.replay, before);
        Ok(stopped)
    }

    /// Goes back by so many steps, or to the opening world where there are fewer: goes the rest of the way again, from
    /// the last world that is kept on it, or from the opening world. Where memory could not be had all is as it was.
    pub fn back(&mut self, alloc: Global, steps: u64) -> Result<(), NoMemory>
        requires { O.suits self.old.opens }
        ensures log { self.new.replay.log ≡ self.old.replay.log }
        ensures opens { self.new.replay.opens ≡ self.old.replay.opens }
        ensures legs { OnOk result (self.new.legs.items ≡ without_last steps self.old.legs.items) }
        ensures unchanged { OnErr result (world_of self.new.replay.world ≡ world_of self.old.replay.world) }
        ensures kept { OnErr result (self.new.legs.items ≡ self.old.legs.items) }
    {
        let legs = self.without_last(alloc, steps)?;
        let replay = self.keeps.replay_behind(alloc, legs.as_slice())?;
        self.legs = legs;
        self.replay = replay;
        Ok(())
    }

    /// Goes to a break: opens the world again and goes on from there up to a break, as `run_to` does by no order. Only
    /// where a break stops it does it stand there then, and its way is the steps that all threads made; else all is as
    /// it was.
    pub fn go_to(&mut self, alloc: Global, breaks: &[Break]) -> Result<Stopped, NoMemory>
        requires { O.suits self.old.opens }
        ensures log { self.new.replay.log ≡ self.old.replay.log }
        ensures opens { self.new.replay.opens ≡ self.old.replay.opens }
        ensures stops { IfOk result (GoesTo S.meaning M.code (L.log self.old.replay.log) (O.opened self.old.replay.opens) breaks.now (world_of self.old.replay.world) (world_of self.new.replay.world) self.old.legs.items self.new.legs.items) }
        ensures right { IfOk result (StopsRight S.meaning M.code (L.log self.old.replay.log) (O.opened self.old.replay.opens)) }
        ensures free { IfOk result (StopsFree S.meaning M.code (L.log self.old.replay.log) (O.opened self.old.replay.opens)) }
        ensures unchanged { OnErr result (world_of self.new.replay.world ≡ world_of self.old.replay.world) }
        ensures kept { OnErr result (self.new.legs.items ≡ self.old.legs.items) }
    {
        let mut other = Session::new(alloc, &self.opens, &self.log)?;
        let stopped = other.run_on(alloc, breaks)?;
        if is_break(stopped) {
            *self = other;
        }
        Ok(stopped)
    }

    /// A schedule by which a run of its threads that its log lets pass comes from the opening world to its world, with as
    /// many picks as its way has steps. None where these are more than 1,000,000.
    pub fn schedule(&self, alloc: Global) -> Result<Option<Schedule>, NoMemory>
        requires { O.suits self.now.opens }
        ensures comes { IfOk result (λ schedule. IfSome schedule (λ picks. ∥ PicksLead S.meaning M.code (L.log self.now.replay.log) (steps_of_way self.now.legs.items) picks (O.opened self.now.replay.opens) (world_of self.now.replay.world) ∥₁)) }
        ensures of_threads { IfOk result (λ schedule. IfSome schedule AreOfThreads) }
        ensures none { IfOk result (λ schedule. IfNone schedule (1000000 < steps_of_way self.now.legs.items)) }
    {
        if self.steps() > u64::from(MOST_PICKS) {
            return Ok(None);
        }
        let mut replay = Replay::new(alloc, self.opens, self.log)?;
        let picks = picks_of_way(alloc, &self.log, &mut replay, self.legs.as_slice())?;
        Ok(Some(picks))
    }

    /// The last step of its way, before the one that led to its world, behind which a break or the test holds.
    fn last_met<T: Test<M, S>>(
        &self,
        alloc: Global,
        breaks: &[Break],
        test: &T,
    ) -> Result<Option<Hit>, NoMemory>
        requires { O.suits self.now.opens }
        ensures { IfOk result (IsLastHit S.meaning M.code (L.log self.now.replay.log) breaks.now (T.holds test.now) (StepOfWay S.meaning M.code (L.log self.now.replay.log) self.now.legs.items (O.opened self.now.replay.opens)) (steps_of_way self.now.legs.items - 1)) }
    {
        let legs = self.without_last(alloc, 1)?;
        let mut replay = Replay::new(alloc, self.opens, self.log)?;
        last_hit(alloc, &mut replay, legs.as_slice(), breaks, test)
    }

    /// Goes back to behind the last step of its way, before the one that led to its world, behind which a break of the
    /// list or the test holds, and answers what holds there; to the opening world where there is no such step. Where
    /// memory could not be had all is as it was.
    pub fn reverse_until<T: Test<M, S>>(
        &mut self,
        alloc: Global,
        breaks: &[Break],
        test: &T,
    ) -> Result<Option<Met>, NoMemory>
        requires { O.suits self.old.opens }
        ensures log { self.new.replay.log ≡ self.old.replay.log }
        ensures opens { self.new.replay.opens ≡ self.old.replay.opens }
        ensures goes { IfOk result (GoesBackUntil S.meaning M.code (L.log self.old.replay.log) breaks.now (T.holds test.now) (O.opened self.old.replay.opens) self.old.legs.items self.new.legs.items) }
        ensures unchanged { OnErr result (world_of self.new.replay.world ≡ world_of self.old.replay.world) }
        ensures kept { OnErr result (self.new.legs.items ≡ self.old.legs.items) }
    {
        match self.last_met(alloc, breaks, test)? {
            None => {
                self.replay = Replay::new(alloc, self.opens, self.log)?;
                self.legs = Vec::new(alloc);
                Ok(None)
            }
            Some(hit) => {
                self.back(alloc, self.steps() - hit.steps)?;
                Ok(Some(hit.met))
            }
        }
    }
}
