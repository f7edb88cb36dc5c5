//! What commands ask for, with their arguments.

ghost use Rattle.std.specs.Prelude.{◌≡◌, IfOk};
ghost use Rattle.serde_json.specs.View.{view};
ghost use Rattle.adapter_messages.specs.Commands.{launch, stack_trace, scopes, variables, read_memory, disassemble, set_breakpoints, function_breakpoints, instruction_breakpoints, data_breakpoint_info, data_breakpoints, move_thread, evaluate, with_arguments};

use crate::argument_lists::{breakpoints, count_or_zero, texts};
use crate::arguments::{integer_or_zero, number, number_or_zero, text};
use crate::command_name::CommandName;
use crate::request::{Command, Motion};
use serde_json::Value;
use std::alloc::{AllocError, Global};

/// What is asked for, or None where the arguments do not fit.
type Asked = Result<Option<Command>, AllocError>;

fn launch(alloc: Global, message: &Value) -> Asked
    ensures { IfOk result (λ c. c ≡ launch (view message.now)) }
{
    let Some(module) = text(alloc, message, "module")? else {
        return Ok(None);
    };
    let Some(plan) = text(alloc, message, "plan")? else {
        return Ok(None);
    };
    let Some(pieces) = texts(alloc, message, "pieces", None)? else {
        return Ok(None);
    };
    Ok(Some(Command::Launch {
        module,
        plan,
        pieces,
    }))
}

fn stack_trace(message: &Value) -> Option<Command>
    ensures { result ≡ stack_trace (view message.now) }
{
    let thread = number(message, "threadId")?;
    let start_frame = number_or_zero(message, "startFrame")?;
    let levels = number_or_zero(message, "levels")?;
    Some(Command::StackTrace {
        thread,
        start_frame,
        levels,
    })
}

fn scopes(message: &Value) -> Option<Command>
    ensures { result ≡ scopes (view message.now) }
{
    let frame = number(message, "frameId")?;
    Some(Command::Scopes { frame })
}

fn variables(message: &Value) -> Option<Command>
    ensures { result ≡ variables (view message.now) }
{
    let reference = number(message, "variablesReference")?;
    Some(Command::Variables { reference })
}

fn read_memory(alloc: Global, message: &Value) -> Asked
    ensures { IfOk result (λ c. c ≡ read_memory (view message.now)) }
{
    let Some(reference) = text(alloc, message, "memoryReference")? else {
        return Ok(None);
    };
    let Some(offset) = integer_or_zero(message, "offset") else {
        return Ok(None);
    };
    let Some(count) = number(message, "count") else {
        return Ok(None);
    };
    Ok(Some(Command::ReadMemory {
        reference,
        offset,
        count,
    }))
}

fn disassemble(alloc: Global, message: &Value) -> Asked
    ensures { IfOk result (λ c. c ≡ disassemble (view message.now)) }
{
    let Some(reference) = text(alloc, message, "memoryReference")? else {
        return Ok(None);
    };
    let Some(offset) = integer_or_zero(message, "offset") else {
        return Ok(None);
    };
    let Some(instruction_offset) = integer_or_zero(message, "instructionOffset") else {
        return Ok(None);
    };
    let Some(instruction_count) = number(message, "instructionCount") else {
        return Ok(None);
    };
    Ok(Some(Command::Disassemble {
        reference,
        offset,
        instruction_offset,
        instruction_count,
    }))
}

fn set_breakpoints(message: &Value) -> Option<Command>
    ensures { result ≡ set_breakpoints (view message.now) }
{
    let count = count_or_zero(message, "breakpoints")?;
    Some(Command::SetBreakpoints { count })
}

fn function_breakpoints(alloc: Global, message: &Value) -> Asked
    ensures { IfOk result (λ c. c ≡ function_breakpoints (view message.now)) }
{
    let Some(names) = texts(alloc, message, "breakpoints", Some("name"))? else {
        return Ok(None);
    };
    Ok(Some(Command::SetFunctionBreakpoints { names }))
}

fn instruction_breakpoints(alloc: Global, message: &Value) -> Asked
    ensures { IfOk result (λ c. c ≡ instruction_breakpoints (view message.now)) }
{
    let Some(breakpoints) = breakpoints(alloc, message, "breakpoints")? else {
        return Ok(None);
    };
    Ok(Some(Command::SetInstructionBreakpoints { breakpoints }))
}

fn data_breakpoint_info(alloc: Global, message: &Value) -> Asked
    ensures { IfOk result (λ c. c ≡ data_breakpoint_info (view message.now)) }
{
    let Some(name) = text(alloc, message, "name")? else {
        return Ok(None);
    };
    let Some(reference) = number_or_zero(message, "variablesReference") else {
        return Ok(None);
    };
    Ok(Some(Command::DataBreakpointInfo { name, reference }))
}

fn data_breakpoints(alloc: Global, message: &Value) -> Asked
    ensures { IfOk result (λ c. c ≡ data_breakpoints (view message.now)) }
{
    let Some(data_ids) = texts(alloc, message, "breakpoints", Some("dataId"))? else {
        return Ok(None);
    };
    Ok(Some(Command::SetDataBreakpoints { data_ids }))
}

fn move_thread(motion: Motion, message: &Value) -> Option<Command>
    ensures { result ≡ move_thread motion (view message.now) }
{
    let thread = number(message, "threadId")?;
    Some(Command::Move { motion, thread })
}

fn evaluate(alloc: Global, message: &Value) -> Asked
    ensures { IfOk result (λ c. c ≡ evaluate (view message.now)) }
{
    let Some(expression) = text(alloc, message, "expression")? else {
        return Ok(None);
    };
    Ok(Some(Command::Evaluate { expression }))
}

/// What a command of that name asks for.
pub(crate) fn with_arguments(alloc: Global, name: CommandName, message: &Value) -> Asked
    ensures { IfOk result (λ c. c ≡ with_arguments name (view message.now)) }
{
    match name {
        CommandName::Initialize => Ok(Some(Command::Initialize)),
        CommandName::Launch => launch(alloc, message),
        CommandName::ConfigurationDone => Ok(Some(Command::ConfigurationDone)),
        CommandName::Threads => Ok(Some(Command::Threads)),
        CommandName::StackTrace => Ok(stack_trace(message)),
        CommandName::Scopes => Ok(scopes(message)),
        CommandName::Variables => Ok(variables(message)),
        CommandName::ReadMemory => read_memory(alloc, message),
        CommandName::Disassemble => disassemble(alloc, message),
        CommandName::SetBreakpoints => Ok(set_breakpoints(message)),
        CommandName::SetFunctionBreakpoints => function_breakpoints(alloc, message),
        CommandName::SetInstructionBreakpoints => instruction_breakpoints(alloc, message),
        CommandName::DataBreakpointInfo => data_breakpoint_info(alloc, message),
        CommandName::SetDataBreakpoints => data_breakpoints(alloc, message),
        CommandName::SetExceptionBreakpoints => Ok(Some(Command::SetExceptionBreakpoints)),
        CommandName::Move(motion) => Ok(move_thread(motion, message)),
        CommandName::Evaluate => evaluate(alloc, message),
        CommandName::Disconnect => Ok(Some(Command::Disconnect)),
        CommandName::Terminate => Ok(Some(Command::Terminate)),
    }
}
