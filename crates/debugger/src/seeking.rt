//! Moves to what a question is answered by.

ghost use Rattle.std.specs.Prelude.{◌≡◌, ◌⊎◌, ◌+◌, ◌^◌, ◌<◌, IfSome};
ghost use Rattle.wasm_world.specs.SharedMemory.{shared_memory};
ghost use Rattle.debug_views.specs.Values.{is_in_view, memory_bytes};
ghost use Rattle.wasm_replay.specs.Replays.{gathered_log};
ghost use Rattle.debugger.specs.Answers.{answer_text};
ghost use Rattle.debugger.specs.At.{at_of, CanOpen};
ghost use Rattle.debugger.specs.Replies.{BreaksAt, Replies, Wants, sought_at};
ghost use Rattle.debugger.specs.Touched.{IsFoundEvent};
ghost use Rattle.debugger.specs.declared.command.Command.TheVariants.{Function, GotoWriter};
ghost use Rattle.debugger.specs.declared.touched.Role.TheVariants as role;

use crate::answer::{Answer, line, wanting};
use crate::debugger::Debugger;
use crate::functions::{function_called, has_instruction};
use crate::heads::break_line;
use crate::made_by::writing_event;
use crate::questions::NO_BYTES;
use crate::touched::Role;
use crate::word::Word;
use debug_views::is_in_view;
use replica::EventAt;
use std::alloc::Global;
use wasm_world::CodePlace;

/// What is said where no event wrote a block.
const NOBODY: &str = "error: nobody wrote it\n";

/// What is said of a function that there is not.
const NO_FUNCTION: &str = "error: no such function\n";

/// What is said of an instruction that there is not.
const NO_INSTRUCTION: &str = "error: no such instruction\n";

impl<'a> Debugger<'a> {
    /// Whether the memory has a byte.
    fn has_byte(&self, address: u32) -> bool
        ensures { result ≡ is_in_view (memory_bytes shared_memory (at_of self.now).world) address 1 }
    {
        is_in_view(self.session.world(), address, 1)
    }

    /// The event that wrote the block of a byte last.
    fn writer_at(&self, address: u32) -> Option<EventAt>
        ensures found { IsFoundEvent (gathered_log (at_of self.now).log) (sought_at (at_of self.now) role.Writer address) (at_of self.now).world.threads result }
        ensures few { IfSome result (λ event. event.place + 1 < 2 ^ 32) }
    {
        let sought = self.sought_at(Role::Writer, address);
        writing_event(self.session.world(), self.session.log(), sought)
    }

    /// Goes to behind the event that wrote the block of a byte last.
    pub(crate) fn go_to_writer(&mut self, alloc: Global, address: u32) -> Answer
        requires { CanOpen self.old }
        ensures opens { self.new.session.replay.opens ≡ self.old.session.replay.opens }
        ensures replies { Replies (GotoWriter address) (at_of self.old) (answer_text result) (at_of self.new) }
    {
        if !self.has_byte(address) {
            return line(alloc, NO_BYTES);
        }
        match self.writer_at(address) {
            None => line(alloc, NOBODY),
            Some(event) => self.go_to(alloc, event.thread, event.place + 1),
        }
    }

    /// Puts a break at an instruction behind the others.
    fn put_instruction(&mut self, alloc: Global, place: CodePlace) -> Answer
        ensures opens { self.new.session.replay.opens ≡ self.old.session.replay.opens }
        ensures replies { BreaksAt (at_of self.old) place (answer_text result) (at_of self.new) ⊎ Wants (at_of self.old) (answer_text result) (at_of self.new) }
    {
        let number = self.break_count();
        match self.instructions.push(place) {
            Ok(()) => Answer::of_line(alloc, break_line(number)),
            Err(_) => wanting(),
        }
    }

    /// Puts a break at an instruction of the first function that is called so behind the others.
    pub(crate) fn break_in(&mut self, alloc: Global, name: &Word, instruction: u32) -> Answer
        ensures opens { self.new.session.replay.opens ≡ self.old.session.replay.opens }
        ensures replies { Replies (Function name.now instruction) (at_of self.old) (answer_text result) (at_of self.new) }
    {
        let Ok(found) = function_called(alloc, self.valid, name) else {
            return wanting();
        };
        let Some(function) = found else {
            return line(alloc, NO_FUNCTION);
        };
        let place = CodePlace {
            function,
            instruction,
        };
        if has_instruction(self.valid.module(), place) {
            self.put_instruction(alloc, place)
        } else {
            line(alloc, NO_INSTRUCTION)
        }
    }
}
