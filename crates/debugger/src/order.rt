//! Orders: which threads take turns, and schedules by which runs come to where a debugger stands.

ghost use Rattle.std.specs.Prelude.{◌≡◌, OnOk};
ghost use Rattle.debugger.specs.Answers.{answer_text};
ghost use Rattle.debugger.specs.At.{at_of, CanOpen, IsOpenedAs};
ghost use Rattle.debugger.specs.Orders.{after_turn, after_turns};
ghost use Rattle.debugger.specs.Replies.{Replies};
ghost use Rattle.debugger.specs.declared.command.Command.TheVariants.{Order};

use crate::answer::{Answer, line, lines, wanting};
use crate::debugger::Debugger;
use replay_gate::ReplayFault;
use std::alloc::Global;
use wasm_types::NoMemory;

/// What is said where the way has more steps than a schedule has picks.
const TOO_LONG: &str = "error: more than 1000000 steps\n";

impl<'a> Debugger<'a> {
    /// Shows a schedule by which a run comes here.
    pub(crate) fn show_order(&self, alloc: Global) -> Answer
        requires { CanOpen self.now }
        ensures { Replies Order (at_of self.now) (answer_text result) (at_of self.now) }
    {
        match self.session.schedule(alloc) {
            Ok(Some(picks)) => lines(picks.text(alloc)),
            Ok(None) => line(alloc, TOO_LONG),
            Err(NoMemory) => wanting(),
        }
    }

    /// A turn of a thread, which passes the thread over where the turn is refused.
    fn take_turn(&mut self, alloc: Global, thread: u32) -> Result<(), NoMemory>
        ensures opens { IsOpenedAs self.old self.new }
        ensures turn { OnOk result (at_of self.new ≡ after_turn (at_of self.old) thread) }
    {
        match self.session.turn(alloc, thread) {
            Ok(_) => Ok(()),
            Err(ReplayFault::NoMemory) => Err(NoMemory),
            Err(ReplayFault::Clash { .. } | ReplayFault::Missing { .. }) => Ok(()),
            Err(ReplayFault::Shut | ReplayFault::Diverged { .. } | ReplayFault::Stuck) => Ok(()),
        }
    }

    /// Turns of the threads of an order, one behind the other.
    pub(crate) fn take_turns(&mut self, alloc: Global, order: &[u32]) -> Result<(), NoMemory>
        ensures opens { IsOpenedAs self.old self.new }
        ensures turns { OnOk result (at_of self.new ≡ after_turns (at_of self.old) order.now) }
    {
        for thread in order {
            self.take_turn(alloc, *thread)?;
        }
        Ok(())
    }
}
