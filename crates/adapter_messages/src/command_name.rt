//! Names of commands.

ghost use Rattle.std.specs.Prelude.{◌≡◌};
ghost use Rattle.adapter_messages.specs.CommandNames.{motion_of, breakpoints_of, other_of, name_of};

use crate::request::Motion;

/// The name of a command that is known.
#[derive(Clone, Copy, Debug, PartialEq, Eq)]
pub(crate) enum CommandName {
    Initialize,
    Launch,
    ConfigurationDone,
    Threads,
    StackTrace,
    Scopes,
    Variables,
    ReadMemory,
    Disassemble,
    SetBreakpoints,
    SetFunctionBreakpoints,
    SetInstructionBreakpoints,
    DataBreakpointInfo,
    SetDataBreakpoints,
    SetExceptionBreakpoints,
    Move(Motion),
    Evaluate,
    Disconnect,
    Terminate,
}

/// Of a command that moves a thread.
fn motion_of(name: &str) -> Option<Motion>
    ensures { result ≡ motion_of name.now }
{
    match name {
        "next" => Some(Motion::Next),
        "stepIn" => Some(Motion::StepIn),
        "stepOut" => Some(Motion::StepOut),
        "stepBack" => Some(Motion::StepBack),
        "continue" => Some(Motion::Continue),
        "reverseContinue" => Some(Motion::ReverseContinue),
        "pause" => Some(Motion::Pause),
        _ => None,
    }
}

/// Of a command that sets breakpoints.
fn breakpoints_of(name: &str) -> Option<CommandName>
    ensures { result ≡ breakpoints_of name.now }
{
    match name {
        "setBreakpoints" => Some(CommandName::SetBreakpoints),
        "setFunctionBreakpoints" => Some(CommandName::SetFunctionBreakpoints),
        "setInstructionBreakpoints" => Some(CommandName::SetInstructionBreakpoints),
        "dataBreakpointInfo" => Some(CommandName::DataBreakpointInfo),
        "setDataBreakpoints" => Some(CommandName::SetDataBreakpoints),
        "setExceptionBreakpoints" => Some(CommandName::SetExceptionBreakpoints),
        _ => None,
    }
}

/// Of any other command.
fn other_of(name: &str) -> Option<CommandName>
    ensures { result ≡ other_of name.now }
{
    match name {
        "initialize" => Some(CommandName::Initialize),
        "launch" => Some(CommandName::Launch),
        "configurationDone" => Some(CommandName::ConfigurationDone),
        "threads" => Some(CommandName::Threads),
        "stackTrace" => Some(CommandName::StackTrace),
        "scopes" => Some(CommandName::Scopes),
        "variables" => Some(CommandName::Variables),
        "readMemory" => Some(CommandName::ReadMemory),
        "disassemble" => Some(CommandName::Disassemble),
        "evaluate" => Some(CommandName::Evaluate),
        "disconnect" => Some(CommandName::Disconnect),
        "terminate" => Some(CommandName::Terminate),
        _ => None,
    }
}

/// The command that is called so.
pub(crate) fn name_of(name: &str) -> Option<CommandName>
    ensures { result ≡ name_of name.now }
{
    match motion_of(name) {
        Some(motion) => Some(CommandName::Move(motion)),
        None => match breakpoints_of(name) {
            Some(command) => Some(command),
            None => other_of(name),
        },
    }
}
