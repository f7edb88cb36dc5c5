//! Words of faults of the typing of a module.

use crate::instruction_names::name_of;
use crate::reasons::{Words, words};
use crate::words_of_rules::rule_words;
use binary_decoder::code_of;
use std::alloc::Global;
use std::fmt::Write;
use validator::{Named, Needs, Operand, Row, StepCause, ValidCause, ValidFault};
use wasm_types::NoMemory;

/// Why a module is not well typed.
pub fn valid_words(alloc: Global, fault: &ValidFault) -> Result<String, NoMemory> {
    match *fault {
        ValidFault::NoMemory => words(alloc, "memory for the types could not be had"),
        ValidFault::Invalid { cause, .. } => match cause {
            ValidCause::Module(cause) => rule_words(alloc, cause),
            ValidCause::NoEnd => words(alloc, "end of the body: the end of a block is missing"),
            ValidCause::Instruction(instr, cause) => {
                let name = name_of(code_of(&instr)).unwrap_or("instruction");
                step_words(alloc, name, cause)
            }
        },
    }
}

/// Why the instruction of that name is not typed.
fn step_words(alloc: Global, name: &str, cause: StepCause) -> Words {
    let words = match cause {
        StepCause::Operands { needs, finds } => {
            let needs = needs_words(alloc, needs)?;
            let finds = row_words(alloc, finds)?;
            return Ok(format!(in alloc; "{name} needs {needs}, and finds {finds}")?);
        }
        cause => cause_words(alloc, cause)?,
    };
    Ok(format!(in alloc; "{name}: {words}")?)
}

/// What is wrong with an instruction, but for its operands.
fn cause_words(alloc: Global, cause: StepCause) -> Words {
    match cause {
        StepCause::Label { label, open } => Ok(format!(in alloc;
            "its label {label} is out of range: {open} blocks are open"
        )?),
        StepCause::TableLabel { label, default } => Ok(format!(in alloc;
            "its label {label} takes other operands than its default label {default}, or is out of range"
        )?),
        StepCause::Missing { what, index, count } => {
            let what = named_words(what);
            Ok(format!(in alloc; "its {what} {index} is out of range: there are {count}")?)
        }
        StepCause::Immutable(global) => {
            Ok(format!(in alloc; "its global {global} is not mutable")?)
        }
        StepCause::Alignment { exponent, most } => Ok(format!(in alloc;
            "its alignment 2^{exponent} is above 2^{most}, the bytes of its access"
        )?),
        StepCause::AtomicAlignment { exponent, width } => Ok(format!(in alloc;
            "its alignment 2^{exponent} is not 2^{width}, the bytes of its access"
        )?),
        StepCause::NoElse(result) => {
            let result = operand_words(result);
            Ok(format!(in alloc; "an if that leaves {result} has no else")?)
        }
        StepCause::TableRange => words(alloc, "the labels of its table are not there"),
        StepCause::NoMemory => words(alloc, "the module has no memory"),
        StepCause::NoTable => words(alloc, "the module has no table"),
        StepCause::Else => words(alloc, "it stands outside the first arm of an if"),
        StepCause::BehindEnd => words(alloc, "it stands behind the last end"),
        StepCause::Operands { .. } => words(alloc, "its operands are others"),
    }
}

/// What an instruction names by an index.
fn named_words(what: Named) -> &'static str {
    match what {
        Named::Local => "local",
        Named::Global => "global",
        Named::Function => "function",
        Named::Type => "type",
    }
}

/// An operand, by its type.
fn operand_words(operand: Operand) -> &'static str {
    match operand {
        Operand::I32 => "i32",
        Operand::I64 => "i64",
        Operand::Any => "any",
    }
}

/// The upper operands of a stack: their types with a space between them, `..` first where there are more, or `nothing`.
fn row_words(alloc: Global, row: Row) -> Words {
    let [_, _, _, top] = row.operands;
    if top.is_none() {
        return words(alloc, "nothing");
    }
    let mut text = String::new(alloc);
    if row.more {
        text.push_str("..")?;
    }
    for slot in row.operands {
        if let Some(operand) = slot {
            let space = if text.is_empty() { "" } else { " " };
            let operand = operand_words(operand);
            write!(text, "{space}{operand}")?;
        }
    }
    Ok(text)
}

/// What an instruction needs on the stack.
fn needs_words(alloc: Global, needs: Needs) -> Words {
    match needs {
        Needs::Upper(row) => {
            let row = row_words(alloc, row)?;
            Ok(format!(in alloc; "{row} on the stack")?)
        }
        Needs::Alone(row) => {
            let row = row_words(alloc, row)?;
            Ok(format!(in alloc; "{row} alone in its block")?)
        }
        Needs::One => words(alloc, "one operand"),
        Needs::Alike => words(alloc, "two operands of one type and an i32 on top"),
    }
}
