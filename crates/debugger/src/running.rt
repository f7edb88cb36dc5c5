//! Moves up to where something holds.

ghost use Rattle.std.specs.Prelude.{◌≡◌, ◌⊎◌, IfOk, OnErr};
ghost use Rattle.debugger.specs.Answers.{answer_text};
ghost use Rattle.debugger.specs.At.{at_of, CanOpen};
ghost use Rattle.debugger.specs.Replies.{Finishes, IsPauseOf, Passes, Replies, RunsOn, RunsPast};
ghost use Rattle.debugger.specs.declared.command.Command.TheVariants.{Continue, Reverse};
ghost use Rattle.replay_gate.specs.declared.answers.ReplayFault.TheVariants as fault;
ghost use Rattle.replay_session.specs.declared.paused.Paused.TheVariants as paused;

use crate::answer::{Answer, wanting};
use crate::debugger::Debugger;
use crate::heads::{gone_line, paused_line, reverse_line};
use replay_session::Paused;
use std::alloc::Global;
use wasm_replay::ReplayFault;
use wasm_types::NoMemory;

impl<'a> Debugger<'a> {
    /// Makes steps of a thread, up to behind the return of the function that it is in.
    pub(crate) fn finish(&mut self, alloc: Global, thread: u32) -> Answer
        ensures opens { self.new.session.replay.opens ≡ self.old.session.replay.opens }
        ensures finishes { Finishes (at_of self.old) thread (answer_text result) (at_of self.new) }
    {
        let gone = self.go_out(alloc, thread);
        self.moved(alloc, gone_line(gone))
    }

    /// Goes on with all threads, up to a break.
    pub(crate) fn run_on(&mut self, alloc: Global) -> Answer
        ensures opens { self.new.session.replay.opens ≡ self.old.session.replay.opens }
        ensures replies { Replies Continue (at_of self.old) (answer_text result) (at_of self.new) }
    {
        match self.run(alloc) {
            Ok(how) => self.moved(
                alloc,
                paused_line(how, &self.breaks, self.instructions.len()),
            ),
            Err(NoMemory) => wanting(),
        }
    }

    /// Turns of all threads, up to a break. Where memory for the way is wanting, that is why they pause.
    fn run_or_want(&mut self, alloc: Global) -> Paused
        ensures opens { self.new.session.replay.opens ≡ self.old.session.replay.opens }
        ensures runs { RunsOn (at_of self.old) (at_of self.new) result ⊎ ((at_of self.new ≡ at_of self.old) × (result ≡ paused.Fault fault.NoMemory)) }
    {
        match self.run(alloc) {
            Ok(how) => how,
            Err(NoMemory) => Paused::Fault(ReplayFault::NoMemory),
        }
    }

    /// Turns of all threads past so many breaks, and up to the next.
    fn pass(&mut self, alloc: Global, passes: u32) -> Paused
        ensures opens { self.new.session.replay.opens ≡ self.old.session.replay.opens }
        ensures past { RunsPast (at_of self.old) passes (at_of self.new) result }
    {
        for _ in 0..passes {
            match self.run_or_want(alloc) {
                Paused::Met(_) => {}
                how => return how,
            }
        }
        self.run_or_want(alloc)
    }

    /// Goes on with all threads past so many breaks, and up to the next.
    pub(crate) fn run_past(&mut self, alloc: Global, passes: u32) -> Answer
        ensures opens { self.new.session.replay.opens ≡ self.old.session.replay.opens }
        ensures passes { Passes (at_of self.old) passes (answer_text result) (at_of self.new) }
    {
        let how = self.pass(alloc, passes);
        self.moved(
            alloc,
            paused_line(how, &self.breaks, self.instructions.len()),
        )
    }

    /// Goes back to the break before.
    pub(crate) fn reverse(&mut self, alloc: Global) -> Answer
        requires { CanOpen self.old }
        ensures opens { self.new.session.replay.opens ≡ self.old.session.replay.opens }
        ensures replies { Replies Reverse (at_of self.old) (answer_text result) (at_of self.new) }
    {
        match self.go_reverse(alloc) {
            Ok(found) => self.moved(
                alloc,
                reverse_line(found, &self.breaks, self.instructions.len()),
            ),
            Err(NoMemory) => wanting(),
        }
    }
}
