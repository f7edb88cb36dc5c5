//! How requests are attended.

ghost use Rattle.std.specs.Prelude.{◌≡◌, ◌⊎◌, [], ◌∷◌, IfOk, OnErr};
ghost use Rattle.adapter.specs.Attends.{Attends};
ghost use Rattle.adapter.specs.Replies.{stopped, success};
ghost use Rattle.adapter.specs.State.{Suits, state_of};
ghost use Rattle.adapter_messages.specs.declared.reply.Reply.{Reply};

use crate::adapter::Adapter;
use crate::data_breaks::data_info;
use crate::replies::{ended, failure, stopped, success};
use adapter_messages::{Attend, Body, Command, Reply, StopReason, Told};
use std::alloc::{AllocError, Global};
use wasm_types::NoMemory;

/// What is said of a request that comes before the launch alone.
const LAUNCHED_ALREADY: &str = "error: launched already";

/// What is said of a request that is not supported.
pub(crate) const NOT_SUPPORTED: &str = "error: not supported";

/// What is said where the arguments of a request do not fit.
pub(crate) const BAD_ARGUMENTS: &str = "error: the arguments do not fit";

impl<'a> Adapter<'a> {
    /// Answers that a run is ready, and tells that its threads stand at its beginning.
    fn configured(&self) -> Reply
        ensures { result ≡ success Body.Empty (stopped StopReason.Entry 1 ∷ []) }
    {
        success(Body::Empty, Told::one(stopped(StopReason::Entry, 1)))
    }

    /// Does what a request asks for, and answers it.
    fn answer(&mut self, alloc: Global, command: &Command) -> Result<Reply, NoMemory>
        requires { Suits self.old }
        ensures attends { IfOk result (λ reply. Attends command.now (state_of self.old) reply (state_of self.new)) }
        ensures wanting { OnErr result ((state_of self.new ≡ state_of self.old) ⊎ ((reply : Reply) × Attends command.now (state_of self.old) reply (state_of self.new))) }
        ensures suits { Suits self.new }
    {
        match command {
            Command::Initialize | Command::Launch { .. } => failure(alloc, LAUNCHED_ALREADY),
            Command::ConfigurationDone => Ok(self.configured()),
            Command::Threads => self.show_threads(alloc),
            Command::StackTrace {
                thread,
                start_frame,
                levels,
            } => self.show_stack(alloc, *thread, *start_frame, *levels),
            Command::Scopes { frame } => self.show_scopes(alloc, *frame),
            Command::Variables { reference } => self.show_variables(alloc, *reference),
            Command::ReadMemory {
                reference,
                offset,
                count,
            } => self.read_memory(alloc, reference, *offset, *count),
            Command::Disassemble {
                reference,
                offset,
                instruction_offset,
                instruction_count,
            } => {
                self.disassemble(
                    alloc,
                    reference,
                    *offset,
                    *instruction_offset,
                    *instruction_count,
                )
            }
            Command::SetBreakpoints { count } => self.refuse_sources(alloc, *count),
            Command::SetFunctionBreakpoints { names } => {
                self.set_functions(alloc, names.as_slice())
            }
            Command::SetInstructionBreakpoints { breakpoints } => {
                self.set_instructions(alloc, breakpoints.as_slice())
            }
            Command::DataBreakpointInfo { name, .. } => data_info(alloc, name),
            Command::SetDataBreakpoints { data_ids } => self.set_data(alloc, data_ids.as_slice()),
            Command::SetExceptionBreakpoints => Ok(success(Body::Empty, Told::none())),
            Command::Move { motion, thread } => self.move_thread(alloc, *motion, *thread),
            Command::Evaluate { expression } => self.evaluate(alloc, expression),
            Command::Disconnect | Command::Terminate => Ok(ended()),
            Command::Unknown => failure(alloc, NOT_SUPPORTED),
            Command::BadArguments => failure(alloc, BAD_ARGUMENTS),
        }
    }
}

impl<'a> Attend for Adapter<'a> {
    ghost use Rattle.std.specs.Prelude.{false};
    ghost use Rattle.adapter.specs.Attends.{Attends};
    ghost use Rattle.adapter.specs.State.{AdapterAt, Suits, state_of};

    ghost State = { AdapterAt };

    ghost state = { state_of };

    ghost holds_back = { λ command state. false };

    ghost attends = { Attends };

    ghost suits = { Suits };

    fn waits_for(&self, _command: &Command) -> bool {
        false
    }

    fn attend(&mut self, alloc: Global, command: &Command) -> Result<Reply, AllocError> {
        match self.answer(alloc, command) {
            Ok(reply) => Ok(reply),
            Err(NoMemory) => Err(AllocError),
        }
    }
}
