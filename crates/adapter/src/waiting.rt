//! Requests while no run is open.

ghost use Rattle.std.specs.Prelude.{◌≡◌, IfOk};
ghost use Rattle.adapter.specs.Waits.{launched_reply, supported, waiting_reply};

use crate::attending::BAD_ARGUMENTS;
use crate::replies::{ended, failure, success};
use adapter_messages::{Attend, Body, Capabilities, Command, EventKind, Reply, Told};
use std::alloc::{AllocError, Global};
use wasm_types::NoMemory;

/// What is said of a request that needs a run.
const LAUNCH_FIRST: &str = "error: launch first";

/// What is said of a launch behind one that was refused.
const REFUSED_BEFORE: &str = "error: a launch was refused before, start the adapter anew";

/// What attends requests while no run is open.
#[derive(Clone, Copy, Debug, PartialEq, Eq)]
pub enum Waiting {
    /// No launch came before: it is held back.
    ForLaunch,
    /// A launch was refused; another one is refused, too.
    ForEnd,
}

/// What an adapter can do.
fn supported() -> Capabilities
    ensures { result ≡ supported }
{
    Capabilities {
        configuration_done: true,
        function_breakpoints: true,
        step_back: true,
        data_breakpoints: true,
        read_memory: true,
        disassemble: true,
        instruction_breakpoints: true,
        terminate: true,
    }
}

/// The reply to a launch whose run is open: breakpoints may be set then.
pub fn launched() -> Reply
    ensures { result ≡ launched_reply }
{
    success(Body::Empty, Told::one(EventKind::Initialized))
}

/// The reply to a request while no run is open.
fn waiting_reply(alloc: Global, command: &Command) -> Result<Reply, NoMemory>
    ensures { IfOk result (λ reply. reply ≡ waiting_reply command.now) }
{
    match command {
        Command::Initialize => Ok(success(Body::Capabilities(supported()), Told::none())),
        Command::Disconnect | Command::Terminate => Ok(ended()),
        Command::Launch { .. } => failure(alloc, REFUSED_BEFORE),
        Command::BadArguments => failure(alloc, BAD_ARGUMENTS),
        _ => failure(alloc, LAUNCH_FIRST),
    }
}

impl Attend for Waiting {
    ghost use Rattle.adapter.specs.Waits.{Waits, holds_back};
    ghost use Rattle.adapter.specs.declared.waiting.Waiting.{Waiting};

    ghost State = { Waiting };

    ghost state = { λ w. w };

    ghost holds_back = { holds_back };

    ghost attends = { Waits };

    ghost suits = { λ _. Unit {0} };

    fn waits_for(&self, command: &Command) -> bool {
        match self {
            Waiting::ForLaunch => matches!(command, Command::Launch { .. }),
            Waiting::ForEnd => false,
        }
    }

    fn attend(&mut self, alloc: Global, command: &Command) -> Result<Reply, AllocError> {
        match waiting_reply(alloc, command) {
            Ok(reply) => Ok(reply),
            Err(NoMemory) => Err(AllocError),
        }
    }
}
