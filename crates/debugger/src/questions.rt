//! What a debugger is asked for that changes nothing.

ghost use Rattle.std.specs.Prelude.{◌≡◌, ◌⊎◌, slice_get};
ghost use Rattle.wasm_world.specs.Objects.{block_of, block_object};
ghost use Rattle.debugger.specs.Answers.{answer_text};
ghost use Rattle.debugger.specs.At.{at_of};
ghost use Rattle.debugger.specs.Replies.{AreAwaited, AreShown, ArePast, AreTold, IsAround, IsLocals, IsObject, IsOperands, IsWhere, byte_at, counted, sought_at};

use crate::answer::{Answer, line, lines, wanting};
use crate::around::around_text;
use crate::debugger::Debugger;
use crate::locals::{locals_text, operands_text};
use crate::objects::object_text;
use crate::shown_bytes::bytes_text;
use crate::standing::thread_text;
use crate::touched::{Role, Sought};
use crate::waits::waits_text;
use crate::written::made_text;
use debug_views::{is_in_view, versions};
use std::alloc::Global;
use wasm_types::{Block, ByteRange, NoMemory};
use wasm_world::block_number;

/// What is said of bytes that the memory does not have.
pub(crate) const NO_BYTES: &str = "error: the memory ends before\n";

/// What is said of an object that there is not.
const NO_OBJECT: &str = "error: no such object\n";

/// What is said where a thread is in no function of that number.
const NOT_IN_FUNCTION: &str = "error: the thread is in no such function\n";

/// What is said of a thread that there is not.
const NO_THREAD: &str = "error: no such thread\n";

/// The object of the block that holds a byte.
fn object_at(block: Block, address: u32) -> u32
    ensures { result ≡ block_object (block_of block address) }
{
    let _from_6_to_12 = block.power();
    1 + 2 * block_number(block, address)
}

impl<'a> Debugger<'a> {
    /// How a thread stands.
    pub(crate) fn show_thread(&self, alloc: Global, thread: u32) -> Answer
        ensures { IsWhere (at_of self.now).form thread (slice_get (at_of self.now).world.threads thread) (answer_text result) }
    {
        let world = self.session.world();
        if (thread as usize) < world.count() {
            lines(thread_text(alloc, &self.places, world, thread))
        } else {
            line(alloc, NO_THREAD)
        }
    }

    /// Shows the locals of a function that a thread is in.
    pub(crate) fn show_locals(&self, alloc: Global, thread: u32, depth: u32) -> Answer
        ensures { IsLocals depth (slice_get (at_of self.now).world.threads thread) (answer_text result) }
    {
        let Some(machine) = self.session.world().machine(thread) else {
            return line(alloc, NO_THREAD);
        };
        if machine.code_place(depth as usize).is_none() {
            return line(alloc, NOT_IN_FUNCTION);
        }
        match machine.locals(alloc, depth as usize) {
            Ok(Some(values)) => lines(locals_text(alloc, values.as_slice())),
            Ok(None) => line(alloc, NOT_IN_FUNCTION),
            Err(NoMemory) => wanting(),
        }
    }

    /// Shows the operands of a function that a thread is in.
    pub(crate) fn show_operands(&self, alloc: Global, thread: u32, depth: u32) -> Answer
        ensures { IsOperands depth (slice_get (at_of self.now).world.threads thread) (answer_text result) }
    {
        let Some(machine) = self.session.world().machine(thread) else {
            return line(alloc, NO_THREAD);
        };
        match machine.operands(depth as usize) {
            Some(words) => lines(operands_text(alloc, words)),
            None => line(alloc, NOT_IN_FUNCTION),
        }
    }

    /// Shows which events ahead a thread's next event waits for.
    pub(crate) fn show_waits(&self, alloc: Global, thread: u32) -> Answer
        ensures { AreAwaited (at_of self.now).log (at_of self.now).world thread (slice_get (at_of self.now).world.threads thread) (answer_text result) }
    {
        let world = self.session.world();
        match world.places(thread) {
            Some(places) => lines(waits_text(alloc, world, self.session.log(), thread, places)),
            None => line(alloc, NO_THREAD),
        }
    }

    /// Shows what the log has of a thread's last events and of its next.
    pub(crate) fn around(&self, alloc: Global, thread: u32, events: u32) -> Answer
        ensures { IsAround (at_of self.now).log thread events (slice_get (at_of self.now).world.threads thread) (answer_text result) }
    {
        let world = self.session.world();
        if thread as usize >= world.count() {
            return line(alloc, NO_THREAD);
        }
        let Some(places) = world.places(thread) else {
            unreachable!()
        };
        lines(around_text(alloc, self.session.log(), thread, places, events))
    }

    /// Shows bytes.
    pub(crate) fn show(&self, alloc: Global, range: ByteRange) -> Answer
        ensures { AreShown (at_of self.now) range (answer_text result) ⊎ ArePast (at_of self.now) range (answer_text result) }
    {
        let world = self.session.world();
        if is_in_view(world, range.from, range.len) {
            lines(bytes_text(alloc, world, self.block, range))
        } else {
            line(alloc, NO_BYTES)
        }
    }

    /// Shows what an object is.
    pub(crate) fn show_object(&self, alloc: Global, object: u32) -> Answer
        ensures { IsObject (at_of self.now) object (counted (at_of self.now) object) (answer_text result) }
    {
        let world = self.session.world();
        match versions(world, object) {
            None => line(alloc, NO_OBJECT),
            Some(count) => {
                let log = self.session.log();
                lines(object_text(alloc, world, log, self.block, object, count))
            }
        }
    }

    /// What is asked of the version of a byte's block.
    pub(crate) fn sought_at(&self, role: Role, address: u32) -> Sought
        ensures { result ≡ sought_at (at_of self.now) role address }
    {
        let object = object_at(self.block, address);
        let version = self.session.world().versions().at(object).version;
        Sought {
            role,
            object,
            version,
        }
    }

    /// Tells which events wrote the version of a byte's block, or read it.
    pub(crate) fn tell(&self, alloc: Global, role: Role, address: u32) -> Answer
        ensures { AreTold (at_of self.now) role address (answer_text result) ⊎ ArePast (at_of self.now) (byte_at address) (answer_text result) }
    {
        let world = self.session.world();
        if is_in_view(world, address, 1) {
            let sought = self.sought_at(role, address);
            lines(made_text(alloc, world, self.session.log(), sought))
        } else {
            line(alloc, NO_BYTES)
        }
    }
}
