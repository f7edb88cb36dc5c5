//! Where a debugger stands, and its breaks.

ghost use Rattle.std.specs.Prelude.{◌≡◌, IfOk};
ghost use Rattle.event_core.specs.World.{world_of};
ghost use Rattle.wasm_replay.specs.Replays.{gathered_log};
ghost use Rattle.debug_views.specs.Writes.{IsWriteOfRange};
ghost use Rattle.debugger.specs.At.{at_of, IsOpenedAs};
ghost use Rattle.debugger.specs.Functions.{IsEntry};
ghost use Rattle.debugger.specs.Replies.{IsLed, with_breaks, with_instructions};

use crate::debugger::Debugger;
use crate::functions::{function_called, has_instruction};
use crate::word::word_of;
use debug_views::write_break;
use event_core::World;
use log_pieces::Flat;
use replay_gate::{Break, ReadLog};
use replay_session::Leg;
use rw_objects::Entry;
use std::alloc::Global;
use wasm_types::{ByteRange, NoMemory};
use wasm_world::{CodePlace, SharedSpace, ThreadState, Valid};

impl<'a> Debugger<'a> {
    /// The world at which it stands.
    pub fn world(&self) -> &World<ThreadState<'a>, SharedSpace>
        ensures same { world_of result.now ≡ (at_of self.now).world }
        ensures led { IsLed (at_of self.now) }
    {
        self.session.world()
    }

    /// The module whose run it is.
    pub fn valid(&self) -> &'a Valid
        ensures { result.now ≡ (at_of self.now).code }
    {
        self.valid
    }

    /// What the log has of the event of a thread at a place.
    pub fn entry(&self, thread: u32, place: u32) -> Option<Flat<Entry>>
        ensures { result ≡ (gathered_log (at_of self.now).log).entry thread place }
    {
        self.session.log().entry(thread, place)
    }

    /// The way from the opening world.
    pub fn way(&self) -> &[Leg]
        ensures { result.now ≡ (at_of self.now).legs }
    {
        self.session.legs()
    }

    /// Its breaks, but for those at instructions.
    pub fn breaks(&self) -> &[Break]
        ensures { result.now ≡ (at_of self.now).breaks }
    {
        self.breaks.as_slice()
    }

    /// The instructions at which there are breaks.
    pub fn instructions(&self) -> &[CodePlace]
        ensures { result.now ≡ (at_of self.now).instructions }
    {
        self.instructions.as_slice()
    }

    /// Gives it these breaks, in place of all but those at instructions.
    pub fn set_breaks(&mut self, breaks: Vec<Break>)
        ensures opens { IsOpenedAs self.old self.new }
        ensures set { at_of self.new ≡ with_breaks (at_of self.old) breaks.items }
    {
        self.breaks = breaks;
    }

    /// Gives it breaks at these instructions, in place of those at others.
    pub fn set_instructions(&mut self, instructions: Vec<CodePlace>)
        ensures opens { IsOpenedAs self.old self.new }
        ensures set { at_of self.new ≡ with_instructions (at_of self.old) instructions.items }
    {
        self.instructions = instructions;
    }

    /// The break behind the writes of a range of bytes.
    pub fn write_break(&self, range: ByteRange) -> Break
        ensures { IsWriteOfRange (at_of self.now).power range.from range.len result }
    {
        write_break(self.block, range.from, range.len)
    }

    /// The first instruction of the first function that is called so, if there is one.
    pub fn entry_of(&self, alloc: Global, name: &str) -> Result<Option<CodePlace>, NoMemory>
        ensures { IfOk result (IsEntry (at_of self.now).code name.now) }
    {
        let Some(word) = word_of(name.as_bytes()) else {
            return Ok(None);
        };
        let Some(function) = function_called(alloc, self.valid, &word)? else {
            return Ok(None);
        };
        let place = CodePlace {
            function,
            instruction: 0,
        };
        if has_instruction(self.valid.module(), place) {
            Ok(Some(place))
        } else {
            Ok(None)
        }
    }
}
