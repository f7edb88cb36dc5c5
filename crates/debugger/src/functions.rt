//! Functions of a module by what they are called.

ghost use Rattle.std.specs.Prelude.{◌≡◌, IfOk, length, option_copied};
ghost use Rattle.std.specs.Fmt.{decimal};
ghost use Rattle.debug_views.specs.Kept.{name_of};
ghost use Rattle.debugger.specs.Lines.{word_of};
ghost use Rattle.debugger.specs.Functions.{is_called, is_named, is_word, has_instruction, IsFound};

use crate::word::{Word, word_of};
use debug_views::{FunctionNames, fits_line};
use itoa::Buffer;
use std::alloc::Global;
use wasm_types::{Module, NoMemory};
use wasm_world::{CodePlace, Valid};

/// Whether a word is this one.
fn is_word(word: &Word, other: Option<Word>) -> bool
    ensures { result ≡ is_word word.now other }
{
    match other {
        Some(other) => other.bytes.as_slice() == word.bytes.as_slice(),
        None => false,
    }
}

/// Whether a word is this number.
fn is_number(word: &Word, number: u32) -> bool
    ensures { result ≡ is_word word.now (word_of (decimal number)) }
{
    let mut digits = Buffer::new();
    is_word(word, word_of(digits.format(number).as_bytes()))
}

/// Whether a word is this name, which may be put into a line.
fn is_named(word: &Word, name: Option<&str>) -> bool
    ensures { result ≡ is_named word.now (option_copied name.entry) }
{
    match name {
        Some(name) => fits_line(name) && is_word(word, word_of(name.as_bytes())),
        None => false,
    }
}

/// Whether a function is called so.
fn is_called(names: &FunctionNames, word: &Word, function: u32) -> bool
    ensures { result ≡ is_called word.now (name_of names.now function) function }
{
    is_number(word, function) || is_named(word, names.get(function))
}

/// The first function of a module that is called so.
pub(crate) fn function_called(
    alloc: Global,
    valid: &Valid,
    word: &Word,
) -> Result<Option<u32>, NoMemory>
    ensures { IfOk result (IsFound valid.now.source word.now (length valid.now.functions)) }
{
    let names = FunctionNames::new(alloc, valid.module().source.as_slice())?;
    for function in 0..valid.functions() {
        if is_called(&names, word, function) {
            return Ok(Some(function));
        }
    }
    Ok(None)
}

/// Whether a function of a module has an instruction of that number.
pub(crate) fn has_instruction(module: &Module, place: CodePlace) -> bool
    ensures { result ≡ has_instruction «module».now place }
{
    match module.bodies.as_slice().get(place.function as usize) {
        Some(body) => (place.instruction as usize) < body.code.as_slice().len(),
        None => false,
    }
}
