//! Arguments in decimal.

ghost use Rattle.std.specs.Prelude.{◌≡◌, true, IfOk};
ghost use Rattle.std.specs.List.{list_all};
ghost use Rattle.std.specs.Option.{is_none};
ghost use Rattle.std.specs.Result.{result_ok};
ghost use Rattle.std.specs.Str.Parse.{signed_digits_value};
ghost use Rattle.text_lines.specs.Parts.{parts_left};
ghost use Rattle.text_lines.specs.Integers.{is_decimal};
ghost use Rattle.thread_plan.specs.Arguments.{value_of, values_of};

use crate::fault::{ArgumentFault, PlanCause};
use std::alloc::Global;
use text_lines::{Parts, bits_32, bits_64, is_integer};
use wasm_types::{Items, NoMemory, ValType, Value};

/// The first part that is no integer's text, counted from 1; None where each is one.
pub(crate) fn no_integer(mut texts: Parts<'_>) -> Option<u32>
    ensures { is_none result ≡ list_all is_decimal (parts_left texts.entry) }
{
    let mut argument: u32 = 0;
    while let Some(text) = texts.take_part() {
        argument = argument.saturating_add(1);
        if !is_integer(text) {
            return Some(argument);
        }
    }
    None
}

/// A value for each parameter, or what is wrong: there are more or fewer texts, or an integer is out of its type's
/// range.
pub(crate) fn arguments_of(
    alloc: Global,
    params: &[ValType],
    mut texts: Parts<'_>,
) -> Result<Result<Items<Value>, PlanCause>, NoMemory>
    requires { list_all is_decimal (parts_left texts) ≡ true }
    ensures { IfOk result (λ found. result_ok found ≡ values_of params.now (parts_left texts.entry)) }
{
    let mut values = Vec::new(alloc);
    for param in params {
        let Some(text) = texts.take_part() else {
            return Ok(Err(wrong_arguments(params, values.len(), texts)));
        };
        let Some(value) = argument(*param, text) else {
            let taken = values.len().saturating_add(1);
            return Ok(Err(wrong_arguments(params, taken, texts)));
        };
        values.push(value)?;
    }
    match texts.take_part() {
        None => Ok(Ok(Items::from_vec(values))),
        Some(_) => {
            let taken = values.len().saturating_add(1);
            Ok(Err(wrong_arguments(params, taken, texts)))
        }
    }
}

/// What is wrong in so many texts that were taken and those behind them: their number, or the last that was taken.
fn wrong_arguments(params: &[ValType], taken: usize, mut texts: Parts<'_>) -> PlanCause {
    let takes = saturated(params.len());
    let argument = saturated(taken);
    let mut found = argument;
    'texts: while let Some(_) = texts.take_part() {
        found = found.saturating_add(1);
    }
    match params.get(taken.saturating_sub(1)) {
        Some(kind) if found == takes => PlanCause::Argument {
            argument,
            fault: ArgumentFault::OutOfRange(*kind),
        },
        _ => PlanCause::ArgumentCount { takes, found },
    }
}

/// A number in 32 bits; the greatest of these where it is above them.
fn saturated(number: usize) -> u32 {
    u32::try_from(number).unwrap_or(u32::MAX)
}

/// The value of a type that an integer gives; None where it is out of the type's range.
fn argument(kind: ValType, text: &[u8]) -> Option<Value>
    requires { is_decimal text.now ≡ true }
    ensures { result ≡ value_of kind (signed_digits_value 10 text.now) }
{
    match kind {
        ValType::I32 => Some(Value::I32(bits_32(text)?)),
        ValType::I64 => Some(Value::I64(bits_64(text)?)),
    }
}
