//! A replay that is made turn by turn.

ghost use Rattle.std.specs.Prelude.{◌≡◌, ◌⊎◌, ◌≤◌, true, slice_get, Some, IfOk, IfErr, OnOk, OnErr};
ghost use Rattle.event_core.specs.World.{WorldAt, world_of};
ghost use Rattle.replay_laws.specs.Turns.{turn_of, world_after_turn};
ghost use Rattle.event_core.specs.Opening.{IsOpeningWorld};
ghost use Rattle.replay_gate.specs.Alone.{GoesAlone};
ghost use Rattle.replay_gate.specs.Leads.{Leads};
ghost use Rattle.replay_gate.specs.Local.{steps_left_of, HasStepsLeft};
ghost use Rattle.replay_gate.specs.LocalRounds.{Rests};
ghost use Rattle.replay_gate.specs.Ready.{IsReady};
ghost use Rattle.replay_gate.specs.Shows.{ShowsRecorded};
ghost use Rattle.replay_gate.specs.Turned.{answer_of_turn, TurnRefused, IsRightRefusal, IsFreeRefusal};
ghost use Rattle.replay_gate.specs.declared.answers.ReplayFault.TheVariants as ReplayFault;

use crate::alone::run_local;
use crate::answers::{ReplayFault, Turned};
use crate::looking::make_local_rounds;
use crate::read_log::ReadLog;
use crate::ready::{Ready, rests_still, take_ready};
use crate::replaying::OpenWorld;
use crate::turn::{steps_left, take_turn};
use event_core::World;
use rw_objects::{CopiedSpace, Machine, ObjectSpace};
use std::alloc::Global;
use wasm_types::NoMemory;

/// A replay: a log, and the world to which some gated run from the log leads from the opening world.
#[derive(Drop)]
pub struct Replay<M: Machine<S>, S: ObjectSpace, L: ReadLog, O: OpenWorld<M, S>> {
    opens: O,
    log: L,
    world: World<M, S>,
    ghost opening: { ∥ IsOpeningWorld M.code (O.opened opens) ∥₁ },
    ghost leads: { ∥ Leads S.meaning M.code (L.log log) (O.opened opens) (world_of world) ∥₁ },
}

impl<M: Machine<S>, S: ObjectSpace, L: ReadLog + Drop, O: OpenWorld<M, S> + Drop> Replay<
    M,
    S,
    L,
    O,
> {
    /// The replay of a log before its first turn.
    pub fn new(alloc: Global, opens: O, log: L) -> Result<Replay<M, S, L, O>, NoMemory>
        requires { O.suits opens }
        ensures log { IfOk result (λ replay. replay.log ≡ log) }
        ensures opens { IfOk result (λ replay. replay.opens ≡ opens) }
        ensures world { IfOk result (λ replay. world_of replay.world ≡ O.opened opens) }
    {
        match opens.open(alloc) {
            Ok(world) => Ok(Replay { opens, log, world }),
            Err(error) => Err(error),
        }
    }
}

impl<M: Machine<S> + Drop, S: CopiedSpace, L: ReadLog + Copy, O: OpenWorld<M, S> + Copy> Replay<
    M,
    S,
    L,
    O,
> {
    /// The same replay once more.
    pub fn copied(&self, alloc: Global) -> Result<Replay<M, S, L, O>, NoMemory>
        ensures log { IfOk result (λ copy. copy.log ≡ self.now.log) }
        ensures opens { IfOk result (λ copy. copy.opens ≡ self.now.opens) }
        ensures world { IfOk result (λ copy. world_of copy.world ≡ world_of self.now.world) }
    {
        let world = self.world.copied(alloc)?;
        Ok(Replay {
            opens: self.opens,
            log: self.log,
            world,
        })
    }
}

impl<M: Machine<S> + Drop, S: ObjectSpace, L: ReadLog, O: OpenWorld<M, S>> Replay<M, S, L, O> {
    ghost use Rattle.std.specs.Prelude.{◌≤◌};
    ghost use Rattle.replay_gate.specs.LocalRounds.{RoundsLead};

    /// Makes rounds of turns of all threads, up to `most`, in which each thread makes a local step or none, and
    /// answers how many. There may be fewer than come; none are made where memory is wanted.
    pub fn local_rounds(&mut self, alloc: Global, most: u32) -> u32
        ensures log { self.new.log ≡ self.old.log }
        ensures opens { self.new.opens ≡ self.old.opens }
        ensures few { result ≤ most }
        ensures rounds { RoundsLead S.meaning M.code (L.log self.old.log) result (world_of self.old.world) (world_of self.new.world) }
    {
        make_local_rounds(alloc, &mut self.world, &self.log, most)
    }
}

impl<M: Machine<S>, S: ObjectSpace, L: ReadLog, O: OpenWorld<M, S>> Replay<M, S, L, O> {
    /// The world at which it stands. On a log below that of a run, its values and threads are recorded ones alone.
    pub fn world(&self) -> &World<M, S>
        ensures same { result.now ≡ self.now.world }
        ensures recorded { ShowsRecorded S.meaning M.code (L.log self.now.log) (O.opened self.now.opens) (world_of result.now) }
    {
        &self.world
    }

    /// A reader of the log, for turns.
    pub fn reader(&self) -> L::Reader
        ensures { L.reads self.now.log result }
    {
        self.log.reader()
    }

    /// A turn of a thread, for which the reader goes forward in the log to the entry that the turn needs. Who takes
    /// many turns has one reader for them all, so that no entry is searched for.
    pub fn turn_by(
        &mut self,
        alloc: Global,
        reader: &mut L::Reader,
        thread: u32,
    ) -> Result<Turned, ReplayFault>
        requires { L.reads self.old.log reader.old }
        ensures reads { L.reads self.new.log reader.new }
        ensures log { self.new.log ≡ self.old.log }
        ensures opens { self.new.opens ≡ self.old.opens }
        ensures ok { IfOk result (λ turned. answer_of_turn (turn_of S.meaning M.code (L.log self.old.log) (world_of self.old.world) thread) ≡ Some turned) }
        ensures world { OnOk result (world_of self.new.world ≡ world_after_turn S.meaning M.code (world_of self.old.world) thread (turn_of S.meaning M.code (L.log self.old.log) (world_of self.old.world) thread)) }
        ensures refused { IfErr result (λ f. (f ≡ ReplayFault.NoMemory) ⊎ TurnRefused S.meaning M.code (L.log self.old.log) (world_of self.old.world) thread f) }
        ensures right { IfErr result (IsRightRefusal S.meaning M.code (L.log self.old.log) (O.opened self.old.opens)) }
        ensures free { IfErr result (IsFreeRefusal S.meaning M.code (L.log self.old.log) (O.opened self.old.opens)) }
        ensures unchanged { OnErr result (world_of self.new.world ≡ (world_of self.old.world)) }
    {
        take_turn(alloc, &mut self.world, &self.log, reader, thread)
    }

    /// A turn of a thread: its next step, where the log lets it pass. A refusal leaves the replay as it was. On a log
    /// below that of a run nothing clashes and no thread diverges; on the whole log of a run it is refused by a shut
    /// gate alone.
    pub fn turn(&mut self, alloc: Global, thread: u32) -> Result<Turned, ReplayFault>
        ensures log { self.new.log ≡ self.old.log }
        ensures opens { self.new.opens ≡ self.old.opens }
        ensures ok { IfOk result (λ turned. answer_of_turn (turn_of S.meaning M.code (L.log self.old.log) (world_of self.old.world) thread) ≡ Some turned) }
        ensures world { OnOk result (world_of self.new.world ≡ world_after_turn S.meaning M.code (world_of self.old.world) thread (turn_of S.meaning M.code (L.log self.old.log) (world_of self.old.world) thread)) }
        ensures refused { IfErr result (λ f. (f ≡ ReplayFault.NoMemory) ⊎ TurnRefused S.meaning M.code (L.log self.old.log) (world_of self.old.world) thread f) }
        ensures right { IfErr result (IsRightRefusal S.meaning M.code (L.log self.old.log) (O.opened self.old.opens)) }
        ensures free { IfErr result (IsFreeRefusal S.meaning M.code (L.log self.old.log) (O.opened self.old.opens)) }
        ensures unchanged { OnErr result (world_of self.new.world ≡ (world_of self.old.world)) }
    {
        let mut reader = self.reader();
        self.turn_by(alloc, &mut reader, thread)
    }

    /// How many steps a thread has left to its logged end, where that is known.
    pub fn steps_left(&self, thread: u32) -> u32
        ensures { result ≡ steps_left_of M.code ((L.log self.now.log).end thread) (slice_get (world_of self.now.world).threads thread) }
    {
        steps_left(&self.world, &self.log, thread)
    }

    /// A turn of a thread that has steps left to its logged end, where by it the thread goes on: by a local step, or
    /// by an event that the log lets pass, whose entry the reader then holds. Else nothing is done.
    #[inline(always)]
    pub fn ready_turn(&mut self, reader: &mut L::Reader, thread: u32) -> Result<Ready, NoMemory>
        requires reads { L.reads self.old.log reader.old }
        requires left { HasStepsLeft M.code (L.log self.old.log) (world_of self.old.world) thread }
        ensures reads { L.reads self.new.log reader.new }
        ensures log { self.new.log ≡ self.old.log }
        ensures opens { self.new.opens ≡ self.old.opens }
        ensures ready { IfOk result (λ ready. IsReady S.meaning M.code (L.log self.old.log) (world_of self.old.world) thread ready (L.holds reader.new thread) (world_of self.new.world)) }
        ensures unchanged { OnErr result (world_of self.new.world ≡ (world_of self.old.world)) }
    {
        take_ready(&mut self.world, &self.log, reader, thread)
    }

    /// Whether a thread whose turn made no step before rests still: its turn is then what it was in each world in
    /// which the thread stood as now and rested. Where it says no, nothing is known. It looks at the gate of the
    /// thread's next event alone.
    #[inline(never)]
    pub fn rests_still(&self, reader: &mut L::Reader, thread: u32) -> bool
        requires reads { L.reads self.now.log reader.old }
        ensures reads { L.reads self.now.log reader.new }
        ensures rests { result ≡ true → (w : WorldAt M.State S.Value S.Fixed) → slice_get w.threads thread ≡ slice_get (world_of self.now.world).threads thread → Rests (turn_of S.meaning M.code (L.log self.now.log) w thread)
            → turn_of S.meaning M.code (L.log self.now.log) (world_of self.now.world) thread ≡ turn_of S.meaning M.code (L.log self.now.log) w thread }
    {
        rests_still(&self.world, &self.log, reader, thread)
    }

    /// Makes local steps of a thread, at most `most`, of those that its logged end has left, and answers how many.
    /// There may be fewer than come.
    pub fn local_steps(&mut self, thread: u32, most: u32) -> u32
        requires { most ≤ steps_left_of M.code ((L.log self.old.log).end thread) (slice_get (world_of self.old.world).threads thread) }
        ensures log { self.new.log ≡ self.old.log }
        ensures opens { self.new.opens ≡ self.old.opens }
        ensures few { result ≤ most }
        ensures goes { GoesAlone M.code thread result (world_of self.old.world) (world_of self.new.world) }
    {
        run_local(&mut self.world, &self.log, thread, most)
    }
}
