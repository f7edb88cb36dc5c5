//! Locals and operands of a function that a thread is in, as lines.

ghost use Rattle.std.specs.Prelude.{◌≡◌, ◌++◌, IfOk, OnOk, reverse, slice_get, string_bytes};
ghost use Rattle.std.specs.List.{flat_map};
ghost use Rattle.std.specs.Option.{option_to_list};
ghost use Rattle.debugger.specs.Locals.{lines_of, local_line, locals_text, operand_line, operands_text};

use std::alloc::Global;
use std::fmt::Write;
use wasm_types::{NoMemory, Value};

/// What is said of a function without locals.
const NO_LOCALS: &str = "no locals\n";

/// What is said of a function that has no operands here.
const NO_OPERANDS: &str = "no operands\n";

/// The least bits that are written in hexadecimal.
const LEAST_HEXADECIMAL: u64 = 65536;

/// Writes the local of a number, if there is one, as a line.
fn write_local(text: &mut String, values: &[Value], number: usize) -> Result<(), NoMemory>
    ensures { OnOk result (string_bytes text.new ≡ string_bytes text.old ++ flat_map (local_line number) (option_to_list (slice_get values.now number))) }
{
    if let Some(value) = values.get(number) {
        write!(text, "local {number} {value}\n")?;
    }
    Ok(())
}

/// Writes locals, a line for each.
fn write_locals(text: &mut String, values: &[Value]) -> Result<(), NoMemory>
    ensures { OnOk result (string_bytes text.new ≡ string_bytes text.old ++ lines_of local_line values.now) }
{
    for number in 0..values.len() {
        write_local(text, values, number)?;
    }
    Ok(())
}

/// The locals of a function, a line for each.
pub(crate) fn locals_text(alloc: Global, values: &[Value]) -> Result<String, NoMemory>
    ensures { IfOk result (λ text. string_bytes text ≡ locals_text values.now) }
{
    let mut text = String::new(alloc);
    if values.is_empty() {
        text.push_str(NO_LOCALS)?;
    } else {
        write_locals(&mut text, values)?;
    }
    Ok(text)
}

/// Writes an operand, as a line.
fn write_bits(text: &mut String, number: usize, bits: u64) -> Result<(), NoMemory>
    ensures { OnOk result (string_bytes text.new ≡ string_bytes text.old ++ operand_line number bits) }
{
    if bits < LEAST_HEXADECIMAL {
        write!(text, "operand {number} {bits}\n")?;
    } else {
        write!(text, "operand {number} 0x{bits:x}\n")?;
    }
    Ok(())
}

/// Writes the operand of a number, if there is one, as a line. The topmost, which stands last here, has number 0.
fn write_operand(text: &mut String, words: &[u64], number: usize) -> Result<(), NoMemory>
    ensures { OnOk result (string_bytes text.new ≡ string_bytes text.old ++ flat_map (operand_line number) (option_to_list (slice_get (reverse words.now) number))) }
{
    if number < words.len() {
        write_bits(text, number, words[words.len() - 1 - number])?;
    }
    Ok(())
}

/// Writes operands, the topmost of which stands last here and is written first, a line for each.
fn write_operands(text: &mut String, words: &[u64]) -> Result<(), NoMemory>
    ensures { OnOk result (string_bytes text.new ≡ string_bytes text.old ++ lines_of operand_line (reverse words.now)) }
{
    for number in 0..words.len() {
        write_operand(text, words, number)?;
    }
    Ok(())
}

/// The operands of a function, the topmost of which stands last here and is written first, a line for each.
pub(crate) fn operands_text(alloc: Global, words: &[u64]) -> Result<String, NoMemory>
    ensures { IfOk result (λ text. string_bytes text ≡ operands_text words.now) }
{
    let mut text = String::new(alloc);
    if words.is_empty() {
        text.push_str(NO_OPERANDS)?;
    } else {
        write_operands(&mut text, words)?;
    }
    Ok(text)
}
