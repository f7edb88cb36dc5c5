//! Words of faults of plans.

use crate::reasons::{Words, words};
use crate::words_of_spacing::spacing_words;
use std::alloc::Global;
use thread_plan::{ArgumentFault, PlanCause, PlanFault};
use wasm_types::{NoMemory, ValType};

/// Why the text of a plan is none for the module. `quote` is what `plan_quote` answers for it.
pub fn plan_words(alloc: Global, fault: &PlanFault, quote: &str) -> Result<String, NoMemory> {
    match *fault {
        PlanFault::BadLine { cause, .. } => cause_words(alloc, cause, quote),
        PlanFault::NoExport { cause, .. } => cause_words(alloc, cause, quote),
        PlanFault::WrongArguments { cause, .. } => cause_words(alloc, cause, quote),
        _ => Ok(format!(in alloc; "{fault}")?),
    }
}

/// What is wrong in a line.
fn cause_words(alloc: Global, cause: PlanCause, quote: &str) -> Words {
    match cause {
        PlanCause::FirstLine if quote.is_empty() => words(
            alloc,
            "the first line is empty, and not `wreplay plan 1`",
        ),
        PlanCause::FirstLine => Ok(format!(in alloc;
            "the first line is `{quote}`, and not `wreplay plan 1`"
        )?),
        PlanCause::NoThread => words(alloc, "no line `thread NAME ARG ..` stands in the plan"),
        PlanCause::SeventeenthThread => words(alloc, "a plan has no more than 16 threads"),
        PlanCause::Spacing(fault) => words(alloc, spacing_words(fault)),
        PlanCause::FirstWord => {
            Ok(format!(in alloc; "the first word is `{quote}`, and not `thread`")?)
        }
        PlanCause::NoName => words(alloc, "no name of a function stands behind `thread`"),
        PlanCause::NotUtf8 => Ok(format!(in alloc; "the name `{quote}` is not in utf-8")?),
        PlanCause::NoFunction => Ok(format!(in alloc;
            "the module exports no function with the name `{quote}`"
        )?),
        PlanCause::ArgumentCount { takes, found } => Ok(format!(in alloc;
            "the number of arguments that the function takes is {takes}, and that of the line is {found}"
        )?),
        PlanCause::Argument { argument, fault } => {
            let is = argument_words(fault);
            Ok(format!(in alloc; "argument {argument}, `{quote}`, is {is}")?)
        }
    }
}

/// What an argument is that is none.
fn argument_words(fault: ArgumentFault) -> &'static str {
    match fault {
        ArgumentFault::NoInteger => "no integer in decimal",
        ArgumentFault::OutOfRange(ValType::I32) => {
            "not from -2147483648 to 4294967295, as an i32 is"
        }
        ArgumentFault::OutOfRange(ValType::I64) => {
            "not from -9223372036854775808 to 18446744073709551615, as an i64 is"
        }
    }
}
