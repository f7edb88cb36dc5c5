//! Thread lines.

ghost use Rattle.std.specs.Prelude.{◌≡◌, true, Ok, Some, None, IfOk, IfErr, MatchResult, option_copied, option_map};
ghost use Rattle.std.specs.List.{list_all};
ghost use Rattle.std.specs.Result.{result_ok};
ghost use Rattle.validator.specs.Context.{function_type};
ghost use Rattle.text_lines.specs.Parts.{words, parts_left};
ghost use Rattle.text_lines.specs.Integers.{is_decimal};
ghost use Rattle.thread_plan.specs.Threads.{form_of, values_by, thread_at};
ghost use Rattle.thread_plan.specs.Refusals.{IsFaultOf};

use crate::argument::{arguments_of, no_integer};
use crate::fault::{ArgumentFault, PlanCause, PlanFault};
use crate::planned_thread::PlannedThread;
use std::alloc::Global;
use text_lines::{Parts, spacing_fault};
use validator::Valid;
use wasm_types::{Items, Module, NoMemory, ValType, Value};

/// The word that a thread line begins with.
const THREAD: &[u8] = b"thread";

/// The thread of a line, which has that number.
pub(crate) fn read_thread(
    alloc: Global,
    line: &[u8],
    number: u64,
    valid: &Valid,
) -> Result<PlannedThread, PlanFault>
    ensures ok { IfOk result (λ thread. thread_at valid.now number line.now ≡ Ok thread) }
    ensures err { IfErr result (λ fault. IsFaultOf (thread_at valid.now number line.now) fault) }
{
    let (name, texts) = match form(line) {
        Ok(form) => form,
        Err(cause) => {
            let cause = in_line(line, cause);
            return Err(PlanFault::BadLine {
                line: number,
                cause,
            });
        }
    };
    let Some(function) = valid.export(name) else {
        let cause = in_line(line, PlanCause::NoFunction);
        return Err(PlanFault::NoExport {
            line: number,
            cause,
        });
    };
    match read_arguments(alloc, valid.module(), function, texts)? {
        Ok(arguments) => Ok(PlannedThread {
            function,
            arguments,
        }),
        Err(cause) => Err(PlanFault::WrongArguments {
            line: number,
            cause,
        }),
    }
}

/// What is wrong in a line: its spaces before its words.
fn in_line(line: &[u8], cause: PlanCause) -> PlanCause {
    match spacing_fault(line) {
        Some(fault) => PlanCause::Spacing(fault),
        None => cause,
    }
}

/// The name in a line, and its arguments, each of which is an integer; or what is wrong in its words.
fn form(line: &[u8]) -> Result<(&str, Parts<'_>), PlanCause>
    ensures form { MatchResult result (λ found. form_of (words line.now) ≡ Some (found.0.now, parts_left found.1)) (λ cause. form_of (words line.now) ≡ None) }
    ensures integers { IfOk result (λ found. list_all is_decimal (parts_left found.1) ≡ true) }
{
    let mut parts = Parts::new(line, b' ');
    let Some(word) = parts.take_part() else {
        return Err(PlanCause::FirstWord);
    };
    let Some(name) = parts.take_part() else {
        return Err(if word == THREAD {
            PlanCause::NoName
        } else {
            PlanCause::FirstWord
        });
    };
    if word != THREAD {
        return Err(PlanCause::FirstWord);
    }
    let Ok(name) = str::from_utf8(name) else {
        return Err(PlanCause::NotUtf8);
    };
    match no_integer(parts) {
        None => Ok((name, parts)),
        Some(argument) => Err(PlanCause::Argument {
            argument,
            fault: ArgumentFault::NoInteger,
        }),
    }
}

/// A value for each parameter of a function, or what is wrong in the arguments.
fn read_arguments(
    alloc: Global,
    module: &Module,
    function: u32,
    texts: Parts<'_>,
) -> Result<Result<Items<Value>, PlanCause>, NoMemory>
    requires { list_all is_decimal (parts_left texts) ≡ true }
    ensures { IfOk result (λ found. result_ok found ≡ values_by (function_type «module».now function) (parts_left texts.entry)) }
{
    match params_of(module, function) {
        Some(params) => arguments_of(alloc, params, texts),
        None => Ok(Err(PlanCause::NoFunction)),
    }
}

/// The parameters of a function; None where the module has no such function.
fn params_of(module: &Module, function: u32) -> Option<&[ValType]>
    ensures { option_copied result ≡ option_map (λ kind. kind.params) (function_type module.now function) }
{
    let index = module.functions.as_slice().get(function as usize)?;
    let kind = module.types.as_slice().get(*index as usize)?;
    Some(kind.params.as_slice())
}
