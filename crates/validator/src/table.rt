//! What the instructions of a module ask of it: its memory, and the types of its functions.

ghost use Rattle.std.specs.Prelude.{◌≡◌, option_copied};
ghost use Rattle.validator.specs.Context.{function_type, has_memory};

use crate::fault::InstructionFault;
use crate::step_cause::{Named, StepCause};
use wasm_types::{FuncType, Module};

/// Whether the module has a memory, imported or its own.
pub(crate) fn is_memory_there(module: &Module) -> bool
    ensures { result ≡ has_memory module.now }
{
    !module.imports.as_slice().is_empty() || !module.memories.as_slice().is_empty()
}

/// The type of a function.
pub(crate) fn type_of_function(module: &Module, function: u32) -> Option<&FuncType>
    ensures { option_copied result ≡ function_type module.now function }
{
    match module.functions.as_slice().get(function as usize) {
        None => None,
        Some(index) => module.types.as_slice().get(*index as usize),
    }
}

/// The fault of a function that has no type.
#[cold]
pub(crate) fn no_function(module: &Module, function: u32) -> InstructionFault {
    let functions = module.functions.as_slice();
    let (what, index, count) = match functions.get(function as usize) {
        None => (Named::Function, function, functions.len()),
        Some(number) => (Named::Type, *number, module.types.as_slice().len()),
    };
    InstructionFault::IllTyped(StepCause::Missing { what, index, count })
}
