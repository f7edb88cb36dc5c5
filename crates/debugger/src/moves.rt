//! What a debugger does.

ghost use Rattle.std.specs.Prelude.{◌≡◌, ◌⊎◌, OnOk, IfOk, IfErr};
ghost use Rattle.wasm_world.specs.Plans.{IsPlanOf};
ghost use Rattle.wasm_replay.specs.Replays.{IsNotOpened, IsOfRun};
ghost use Rattle.debugger.specs.Answers.{answer_text};
ghost use Rattle.debugger.specs.At.{at_of, CanOpen};
ghost use Rattle.debugger.specs.Replies.{break_count, IsLed, IsMove, IsOpening, Replies, Steps, MakesEvents, Breaks, Wants};
ghost use Rattle.debugger.specs.declared.command.Command.TheVariants.{Back, Goto, Delete, Watch};

use crate::answer::{Answer, line, lines, wanting};
use crate::command::Command;
use crate::debugger::Debugger;
use crate::heads::{back_line, break_line, gone_line, stopped_line, unreached_line, watch_line};
use crate::help::help_text;
use crate::opening::open_session;
use crate::standing::standing_text;
use crate::talking::Respond;
use crate::touched::Role;
use crate::watching::WatchedNumber;
use crate::way::way_text;
use arrayvec::ArrayString;
use debug_views::{PlaceWriter, write_break};
use replay_gate::{Break, Stopped};
use replica::Log;
use std::alloc::Global;
use wasm_replay::{ReplayFault, Standing, Unreplayed, WasmReplayFault, opener_of};
use wasm_types::NoMemory;
use wasm_world::{Plan, Valid, memory_limits};

/// What is said where all breaks were taken away.
const NO_BREAKS: &str = "no breaks\n";

/// The refusal of a log that is not opened.
pub(crate) fn unopened(valid: &Valid, plan: &Plan, log: &Log, fault: WasmReplayFault) -> Unreplayed
    ensures { result.fault ≡ fault }
{
    let standing = Standing::unopened(valid, plan, log, fault);
    Unreplayed { fault, standing }
}

impl<'a> Debugger<'a> {
    /// A debugger that stands at the opening world.
    pub fn new(
        alloc: Global,
        valid: &'a Valid,
        plan: &'a Plan,
        log: &'a Log,
    ) -> Result<Debugger<'a>, Unreplayed>
        requires { IsPlanOf valid.now plan.now }
        ensures of_run { OnOk result (IsOfRun valid.now plan.now log.now) }
        ensures can_open { IfOk result CanOpen }
        ensures opening { IfOk result (λ d. IsOpening valid.now plan.now log.now (at_of d)) }
        ensures refused { IfErr result (λ u. IsNotOpened valid.now plan.now log.now u.fault) }
    {
        // Behind this only memory can be wanting. The session comes last, so that none is let go.
        if let Err(fault) = opener_of(valid, plan, log) {
            return Err(unopened(valid, plan, log, fault));
        }
        let source = valid.module().source.as_slice();
        let Ok(places) = PlaceWriter::new(alloc, source, true) else {
            let wanting = WasmReplayFault::Replay(ReplayFault::NoMemory);
            return Err(unopened(valid, plan, log, wanting));
        };
        let session = match open_session(alloc, valid, plan, log) {
            Ok(session) => session,
            Err(fault) => return Err(unopened(valid, plan, log, fault)),
        };
        Ok(Debugger {
            valid,
            session,
            places,
            block: memory_limits(valid.module(), log.key().profile).block,
            breaks: Vec::new(alloc),
            instructions: Vec::new(alloc),
            watches: Vec::new(alloc),
        })
    }

    /// An answer behind a move: a line, and how threads stand.
    pub(crate) fn moved(&self, alloc: Global, head: ArrayString<64>) -> Answer
        ensures tells { IsMove head.bytes (at_of self.now).form (at_of self.now).world (answer_text result) }
        ensures led { IsLed (at_of self.now) }
    {
        Answer {
            head,
            body: standing_text(alloc, &self.places, self.session.world()),
        }
    }

    /// Makes steps of a thread.
    fn step(&mut self, alloc: Global, thread: u32, steps: u32) -> Answer
        ensures opens { self.new.session.replay.opens ≡ self.old.session.replay.opens }
        ensures steps { Steps (at_of self.old) thread steps (answer_text result) (at_of self.new) }
    {
        let gone = self.go_steps(alloc, thread, steps);
        self.moved(alloc, gone_line(gone))
    }

    /// Makes steps of a thread, up to behind so many events.
    fn event(&mut self, alloc: Global, thread: u32, events: u32) -> Answer
        ensures opens { self.new.session.replay.opens ≡ self.old.session.replay.opens }
        ensures events { MakesEvents (at_of self.old) thread events (answer_text result) (at_of self.new) }
    {
        let gone = self.session.thread_events(alloc, thread, events);
        self.moved(alloc, gone_line(gone))
    }

    /// Goes back.
    fn back(&mut self, alloc: Global, steps: u32) -> Answer
        requires { CanOpen self.old }
        ensures opens { self.new.session.replay.opens ≡ self.old.session.replay.opens }
        ensures replies { Replies (Back steps) (at_of self.old) (answer_text result) (at_of self.new) }
    {
        match self.go_back(alloc, steps) {
            Ok(()) => self.moved(alloc, back_line()),
            Err(NoMemory) => wanting(),
        }
    }

    /// Goes to where a thread has made so many events, from the opening world on.
    pub(crate) fn go_to(&mut self, alloc: Global, thread: u32, place: u32) -> Answer
        requires { CanOpen self.old }
        ensures opens { self.new.session.replay.opens ≡ self.old.session.replay.opens }
        ensures replies { Replies (Goto thread place) (at_of self.old) (answer_text result) (at_of self.new) }
    {
        let breaks = [Break::Place { thread, place }];
        match self.session.go_to(alloc, &breaks) {
            Err(NoMemory) => wanting(),
            Ok(stopped) => match stopped {
                Stopped::Break(_) => self.moved(alloc, stopped_line(stopped, &breaks)),
                Stopped::Finished | Stopped::Stuck | Stopped::Fault(_) => {
                    Answer::of_line(alloc, unreached_line(stopped, &breaks))
                }
            },
        }
    }

    /// How many breaks there are, but for numbers that are watched.
    pub(crate) fn break_count(&self) -> usize
        ensures { result ≡ break_count (at_of self.now) }
    {
        self.breaks.len() + self.instructions.len()
    }

    /// Puts a break behind the others.
    fn put_break(&mut self, alloc: Global, one: Break) -> Answer
        ensures opens { self.new.session.replay.opens ≡ self.old.session.replay.opens }
        ensures replies { Breaks (at_of self.old) one (answer_text result) (at_of self.new) ⊎ Wants (at_of self.old) (answer_text result) (at_of self.new) }
    {
        let number = self.break_count();
        match self.breaks.push(one) {
            Ok(()) => Answer::of_line(alloc, break_line(number)),
            Err(_) => wanting(),
        }
    }

    /// Watches one more number.
    fn watch(&mut self, alloc: Global, one: WatchedNumber) -> Answer
        ensures opens { self.new.session.replay.opens ≡ self.old.session.replay.opens }
        ensures replies { Replies (Watch one) (at_of self.old) (answer_text result) (at_of self.new) }
    {
        let number = self.watches.len();
        match self.watches.push(one) {
            Ok(()) => Answer::of_line(alloc, watch_line(number)),
            Err(_) => wanting(),
        }
    }

    /// Takes all breaks away.
    fn delete(&mut self, alloc: Global) -> Answer
        ensures opens { self.new.session.replay.opens ≡ self.old.session.replay.opens }
        ensures replies { Replies Delete (at_of self.old) (answer_text result) (at_of self.new) }
    {
        self.breaks.clear();
        self.instructions.clear();
        self.watches.clear();
        line(alloc, NO_BREAKS)
    }
}

impl<'a> Respond for Debugger<'a> {
    ghost use Rattle.debugger.specs.At.{at_of, CanOpen};
    ghost use Rattle.debugger.specs.Replies.{DebugAt, Replies};

    ghost State = { DebugAt };

    ghost state = { at_of };

    ghost suits = { CanOpen };

    ghost replies = { Replies };

    fn respond(&mut self, alloc: Global, command: Command) -> Answer {
        match command {
            Command::Step { thread, steps } => self.step(alloc, thread, steps),
            Command::Event { thread, events } => self.event(alloc, thread, events),
            Command::Finish { thread } => self.finish(alloc, thread),
            Command::Continue => self.run_on(alloc),
            Command::Again { passes } => self.run_past(alloc, passes),
            Command::Back { steps } => self.back(alloc, steps),
            Command::Reverse => self.reverse(alloc),
            Command::Goto { thread, place } => self.go_to(alloc, thread, place),
            Command::GotoWriter { address } => self.go_to_writer(alloc, address),
            Command::Function { name, instruction } => self.break_in(alloc, &name, instruction),
            Command::Place { thread, place } => self.put_break(
                alloc,
                Break::Place { thread, place },
            ),
            Command::Write(range) => {
                let one = write_break(self.block, range.from, range.len);
                self.put_break(alloc, one)
            }
            Command::Watch(one) => self.watch(alloc, one),
            Command::Delete => self.delete(alloc),
            Command::Threads => lines(standing_text(alloc, &self.places, self.session.world())),
            Command::Where { thread } => self.show_thread(alloc, thread),
            Command::Locals { thread, depth } => self.show_locals(alloc, thread, depth),
            Command::Stack { thread, depth } => self.show_operands(alloc, thread, depth),
            Command::Waits { thread } => self.show_waits(alloc, thread),
            Command::Around { thread, events } => self.around(alloc, thread, events),
            Command::Object { object } => self.show_object(alloc, object),
            Command::Writer { address } => self.tell(alloc, Role::Writer, address),
            Command::Readers { address } => self.tell(alloc, Role::Reader, address),
            Command::Bytes(range) => self.show(alloc, range),
            Command::Way => lines(way_text(alloc, self.session.legs())),
            Command::Order => self.show_order(alloc),
            Command::Help => lines(help_text(alloc)),
            Command::Quit => unreachable!(),
        }
    }
}
